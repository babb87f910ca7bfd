//! What the static rules say, as text.

use ode_types::CheckStop;
use ode_value::{CheckError, Name};
use std::io;

// How many bytes of a text are shown.
const SHOWN: usize = 160;

/// What is said of a text.
#[derive(Drop)]
pub enum Ruling {
    Accepted,
    Stopped(CheckStop),
    /// It isn't a class, nor a statement that rules speak of.
    Unread,
}

fn words(error: &CheckError) -> (&str, &Name) {
    match error {
        CheckError::UnknownName(name) => ("unknown name", name),
        CheckError::Duplicate(name) => ("duplicate", name),
        CheckError::WrongSort(name) => ("wrong type", name),
        CheckError::NotInherited(name) => ("not inherited", name),
        CheckError::TooMany(name) => ("too many", name),
    }
}

/// The front of a long text.
pub fn shown(text: &str) -> &str {
    text.get(..SHOWN).unwrap_or(text)
}

/// Prints it before the text, of which a long one is cut.
pub fn print_ruling<R: Print>(rt: &R, text: &str, ruling: &Ruling) -> io::Result<()> {
    let shown = shown(text);
    match ruling {
        Ruling::Accepted => println!(rt; "ok: {shown}"),
        Ruling::Unread => println!(rt; "unread: {shown}"),
        Ruling::Stopped(CheckStop::Memory) => println!(rt; "no memory: {shown}"),
        Ruling::Stopped(CheckStop::Broken(error)) => {
            let (rule, name) = words(error);
            let name = str::from_utf8(name.as_bytes()).unwrap_or("no name");
            println!(rt; "{rule} {name}: {shown}")
        }
    }
}
