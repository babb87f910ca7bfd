//! A case: its calls one after the other on one file.
use crate::call::{Answer, call};
use std::alloc::{AllocError, Global};
use std::io;

// How many bytes of a script are read at once where the case says nothing.
const CHUNK: u32 = 4096;

// How many bytes of a script are read at once, by the lines in front of the first call.
fn chunk_of(notes: &str) -> u32 {
    for line in notes.split('\n') {
        if let Some(number) = line.strip_prefix("chunks ") {
            return number.parse::<u32>().unwrap_or(CHUNK);
        }
    }
    CHUNK
}

// How many blanks a line of a script stands for, if it is `\ N blanks`.
fn blanks_in(line: &str) -> Option<u32> {
    let number = line.strip_prefix("\\ ")?.strip_suffix(" blanks")?;
    number.parse::<u32>().ok()
}

fn put_blanks(script: &mut String, count: u32) -> Result<(), AllocError> {
    for _ in 0..count {
        script.push_str(" ")?;
    }
    Ok(())
}

// The script in these lines, but for its end.
fn joined(alloc: Global, lines: &str) -> Result<String, AllocError> {
    let mut script = String::new(alloc);
    let mut behind_line = false;
    for line in lines.split('\n') {
        match blanks_in(line) {
            Some(count) => {
                put_blanks(&mut script, count)?;
                behind_line = false;
            }
            None => {
                if behind_line {
                    script.push_str("\n")?;
                }
                script.push_str(line)?;
                behind_line = true;
            }
        }
    }
    Ok(script)
}

// The script in the lines behind a call.
fn script_of(alloc: Global, lines: &str) -> Result<String, AllocError> {
    let lines = lines.trim_end_matches('\n');
    if lines.is_empty() {
        return Ok(String::new(alloc));
    }
    match lines.strip_suffix("\n\\ no newline at the end") {
        Some(lines) => joined(alloc, lines),
        None => {
            let mut script = joined(alloc, lines)?;
            script.push_str("\n")?;
            Ok(script)
        }
    }
}

// Prints what a call answered; `file` is the file before it.
fn print_answer<R: Print>(rt: &R, answer: &Answer, file: &[u8]) -> io::Result<()> {
    let text = str::from_utf8(answer.host.text()).unwrap_or("bytes that are no text\n");
    let kept = if answer.host.image() == file {
        ", file unchanged"
    } else {
        ""
    };
    print!(rt; "{text}status {}{kept}", answer.status.code())?;
    match answer.host.refused() {
        0 => println!(rt),
        refused => println!(rt; ", {refused} calls without memory"),
    }
}

// One call of a case: the file that it leaves. `step` is the call's line behind its `$`, and the script's lines.
fn run_step<R: Print + AllocGlobal>(
    rt: &R,
    step: &str,
    chunk: u32,
    file: &[u8],
) -> io::Result<Vec<u8>> {
    let (line, lines) = step.split_once('\n').unwrap_or((step, ""));
    println!(rt; "${line}")?;
    let script = script_of(rt.alloc(), lines)?;
    let answer = call(rt.alloc(), line, script.as_str(), chunk, file)?;
    print_answer(rt, &answer, file)?;
    Ok(answer.host.image().to_vec(rt.alloc())?)
}

/// Runs a case, which begins with its name, and prints what its calls print.
pub fn run_case<R: Print + AllocGlobal>(rt: &R, case: &str) -> io::Result<()> {
    let mut steps = case.split("\n$");
    let notes = steps.next().unwrap_or("");
    let (name, notes) = notes.split_once('\n').unwrap_or((notes, ""));
    let chunk = chunk_of(notes);
    println!(rt; "== {name}")?;
    let mut file = Vec::new(rt.alloc());
    for step in steps {
        file = run_step(rt, step, chunk, &file)?;
    }
    println!(rt)
}
