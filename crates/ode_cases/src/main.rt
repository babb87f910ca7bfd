//! Runs the cases on standard input: calls of `ode` over a file in memory, and what each prints.
//!
//! A case begins with a line `== NAME` and has an empty file. A line `$ WORD..` in it is a call of `ode` with these words,
//! `$ multi WORD..` one of `ode_multi`, and the lines behind it are its script. For each call its text is printed, and then a line
//! with its status. That line says too where the file is as it was before the call, and where a call of the host found no memory.
//!
//! Lines between a case's name and its first call are notes, but for `chunks N`: the scripts of the case are read in chunks
//! of N bytes. Empty lines at the end of a script are no part of it. Its last line ends with LF, unless the line
//! `\ no newline at the end` stands behind it. A line `\ N blanks` stands for N blanks between the lines around it, without
//! an LF. What stands before the first case is a note too.
#![tactic(auto)]

mod call;
mod case;

use case::run_case;
use std::io;

fn main(rt: HostRuntime) -> io::Result<()> {
    let cases = io::read_to_string(rt.alloc(), rt.reader())?;
    for case in cases.as_str().split("\n== ").skip(1) {
        run_case(&rt, case)?;
    }
    Ok(())
}
