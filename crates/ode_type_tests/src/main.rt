//! Prints for each line of standard input the Unix second of the instant that it is, or that it is none; and for a line
//! `due SECOND OBJECT PLACE LAST | OBJECT KIND, KIND | OBJECT KIND`, as `due 0 7 0 60 | 7 every 60, at 30`, the events that are
//! due above that position, up to the last second.
#![tactic(auto)]

mod events;

use events::print_due;
use ode_timer::instant;
use std::io;

fn print_instant<R: Print>(rt: &R, line: &str) -> io::Result<()> {
    match instant(line.as_bytes()) {
        Ok(second) => println!(rt; "{line} is {second}"),
        Err(_) => println!(rt; "{line} is none"),
    }
}

fn main(rt: HostRuntime) -> io::Result<()> {
    let lines = io::read_to_string(rt.alloc(), rt.reader())?;
    for line in lines.as_str().lines() {
        match line.strip_prefix("due ") {
            Some(words) => print_due(&rt, words)?,
            None => print_instant(&rt, line)?,
        }
    }
    Ok(())
}
