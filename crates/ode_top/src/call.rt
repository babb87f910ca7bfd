//! The words of a call.
ghost use Rattle.std.specs.Prelude.{◌≡◌, length};
ghost use Rattle.std.specs.Option.{option_copied, option_map};
ghost use Rattle.ode_begin.specs.Words.{bytes_of, is_file};
ghost use Rattle.ode_top.specs.Calls.{call_of, file_call, gen_call, mode_named, script_number};

use ode_begin::is_file;
use ode_gen::GEN_LIMIT;
use ode_questions::Asked;
use ode_value::parse_decimal;

/// What a call does.
#[derive(Clone, Copy, Debug, PartialEq, Eq)]
pub enum Mode {
    /// Makes a new file.
    Init,
    /// Runs a script on a file.
    Run,
    /// Counts the records of a file.
    Check,
    /// Prints the records of a file.
    Dump,
    /// Answers the questions of a script over a file.
    Ask(Asked),
    /// Runs a script on a file, and ships what it settles.
    Ship,
    /// Goes on with a file by the frames that another one ships.
    Follow,
    /// Makes a script from a number, and runs it on a file.
    Gen(u32),
}

/// What a right list of words asks for.
#[derive(Clone, Copy)]
pub struct Call<'a> {
    pub mode: Mode,
    pub file: &'a str,
}

fn mode_named(word: &str) -> Option<Mode>
    ensures { result ≡ mode_named word.now }
{
    if word == "init" {
        Some(Mode::Init)
    } else if word == "run" {
        Some(Mode::Run)
    } else if word == "check" {
        Some(Mode::Check)
    } else if word == "dump" {
        Some(Mode::Dump)
    } else if word == "query" {
        Some(Mode::Ask(Asked::Queries))
    } else if word == "same" {
        Some(Mode::Ask(Asked::Comparisons))
    } else if word == "ship" {
        Some(Mode::Ship)
    } else if word == "follow" {
        Some(Mode::Follow)
    } else {
        None
    }
}

// The number that a word gives to a script: in decimal, not led by 0, from 1 to the largest.
fn script_number(word: &str) -> Option<u32>
    ensures { result ≡ script_number word.now }
{
    let number = parse_decimal(word.as_bytes())?;
    if 1 <= number && number <= u64::from(GEN_LIMIT) {
        Some(number as u32)
    } else {
        None
    }
}

// What a mode's word and a file ask for.
fn file_call<'a>(mode: &str, file: &'a str) -> Option<Call<'a>>
    ensures { option_map (λ call. (call.mode, call.file.now)) result ≡ file_call mode.now file.now }
{
    if !is_file(file) {
        return None;
    }
    match mode_named(mode) {
        Some(mode) => Some(Call { mode, file }),
        None => None,
    }
}

// What a mode's word, a file and a number ask for.
fn gen_call<'a>(mode: &str, file: &'a str, number: &str) -> Option<Call<'a>>
    ensures { option_map (λ call. (call.mode, call.file.now)) result ≡ gen_call mode.now file.now number.now }
{
    if mode != "gen" || !is_file(file) {
        return None;
    }
    match script_number(number) {
        Some(number) => Some(Call {
            mode: Mode::Gen(number),
            file,
        }),
        None => None,
    }
}

/// The mode and the file, where the words are a right list.
pub fn call_of(words: &[String]) -> Option<Call<'_>>
    ensures { option_map (λ call. (call.mode, call.file.now)) result ≡ call_of (bytes_of words.now) }
{
    match words {
        [mode, file] => file_call(mode.as_str(), file.as_str()),
        [mode, file, number] => gen_call(mode.as_str(), file.as_str(), number.as_str()),
        _ => None,
    }
}

/// The name of the file, where the words are a right list: `init FILE`, `run FILE`, `check FILE`, `dump FILE`, `query FILE`, `same FILE`,
/// `ship FILE`, `follow FILE` or `gen FILE N`.
pub fn file_word(words: &Vec<String>) -> Option<&str>
    ensures { option_copied result ≡ option_map (λ call. call.1) (call_of (bytes_of words.now.items)) }
{
    match call_of(words) {
        Some(call) => Some(call.file),
        None => None,
    }
}
