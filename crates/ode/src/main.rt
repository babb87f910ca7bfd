//! The program: `ode init FILE`, `ode check FILE`, `ode dump FILE` and `ode gen FILE N`, and with a script on standard input `ode run FILE`,
//! `ode query FILE`, `ode same FILE`, `ode ship FILE` and `ode follow FILE`.
#![tactic(auto)]

use ode_host::{FileHost, Status, StdSource};
use ode_top::{file_word, run_ode, words_of};
use std::process::ExitCode;

// Does what the words ask for, on the file that they name.
fn answer(rt: &HostRuntime, words: &Vec<String>) -> Status {
    let name = file_word(words).unwrap_or("");
    let mut host = FileHost::new(rt, name);
    let mut script = StdSource::new(rt);
    run_ode(rt.alloc(), words, &mut script, &mut host)
}

fn main(rt: HostRuntime) -> ExitCode {
    let status = match words_of(&rt) {
        Ok(words) => answer(&rt, &words),
        Err(_) => Status::Memory,
    };
    ExitCode::from(status.code())
}
