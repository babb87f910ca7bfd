//! A call of `ode` or of `ode_multi` in memory.
use ode_host::{MemHost, MemSource, Plan, Status};
use ode_sessions::run_multi;
use ode_top::run_ode;
use std::alloc::{AllocError, Global};

/// What a call answered, and its host.
#[derive(Drop)]
pub struct Answer {
    pub status: Status,
    pub host: MemHost,
}

// The words of a command line, which blanks part.
fn words_of(alloc: Global, line: &str) -> Result<Vec<String>, AllocError> {
    let mut words = Vec::new(alloc);
    for word in line.split_whitespace() {
        words.push(String::from_str(alloc, word)?)?;
    }
    Ok(words)
}

/// A call with the words of this line, over a file with these bytes. The script is read in chunks of at most `most` bytes.
pub fn call(
    alloc: Global,
    line: &str,
    script: &str,
    most: u32,
    file: &[u8],
) -> Result<Answer, AllocError> {
    let script = script.as_bytes().to_vec(alloc)?;
    let mut script = MemSource::new(script, Vec::new(alloc), most.max(1));
    let plan = Plan {
        disk_fails: Vec::new(alloc),
        print_fails: Vec::new(alloc),
        stop: None,
    };
    let mut host = MemHost::new(alloc, file.to_vec(alloc)?, plan)?;
    let status = match line.strip_prefix(" multi") {
        Some(words) => run_multi(alloc, &words_of(alloc, words)?, &mut script, &mut host),
        None => run_ode(alloc, &words_of(alloc, line)?, &mut script, &mut host),
    };
    Ok(Answer { status, host })
}
