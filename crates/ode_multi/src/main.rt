//! The program `ode_multi FILE`: a script of sessions on standard input.
#![tactic(auto)]

use ode_host::{FileHost, Status, StdSource};
use ode_sessions::{multi_word, run_multi, words_of};
use std::process::ExitCode;

// Does what the words ask for, on the file that they name.
fn answer(rt: &HostRuntime, words: &Vec<String>) -> Status {
    let name = multi_word(words).unwrap_or("");
    let mut host = FileHost::new(rt, name);
    let mut script = StdSource::new(rt);
    run_multi(rt.alloc(), words, &mut script, &mut host)
}

fn main(rt: HostRuntime) -> ExitCode {
    let status = match words_of(&rt) {
        Ok(words) => answer(&rt, &words),
        Err(_) => Status::Memory,
    };
    ExitCode::from(status.code())
}
