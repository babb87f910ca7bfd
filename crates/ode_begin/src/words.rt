//! The words of a call.
ghost use Rattle.std.specs.Prelude.{◌≡◌};
ghost use Rattle.ode_begin.specs.Words.{is_file};

use std::alloc::AllocError;
use std::env::Env;
use std::io::ErrorKind;
use std::{env, io};

// The words after the program's name, where each is a text.
fn texts_of<R: Env + AllocGlobal>(rt: &R) -> io::Result<Vec<String>> {
    let mut words = Vec::new(rt.alloc());
    for word in env::args(rt)?.skip(1) {
        words.push(word)?;
    }
    Ok(words)
}

/// The words after the program's name. A word that is no text is no right word, and then there are none.
pub fn words_of<R: Env + AllocGlobal>(rt: &R) -> Result<Vec<String>, AllocError> {
    match texts_of(rt) {
        Ok(words) => Ok(words),
        Err(error) if error.kind() == ErrorKind::OutOfMemory => Err(AllocError),
        Err(_) => Ok(Vec::new(rt.alloc())),
    }
}

/// Whether a word may name a file: it isn't empty, and doesn't begin with `-`.
pub fn is_file(word: &str) -> bool
    ensures { result ≡ is_file word.now }
{
    match word.as_bytes() {
        [] => false,
        [first, ..] => *first != b'-',
    }
}
