//! Answers where each text on standard input is wrong or too high: a line is a sort of text, a blank and the text. Before the text it prints
//! `right`, `right to N`, `bad byte N`, `syntax N` or `too deep N`.
#![tactic(auto)]

use ode_grammar::{Start, Terminal, extent_of};
use ode_heights::first_too_deep;
use ode_lex::{LexError, Token, tokens};
use ode_terminals::{Place, place_of, terminals};
use std::alloc::{AllocError, Global};
use std::io;

/// What is said of a text.
enum Answer {
    Memory,
    BadByte(u32),
    Syntax(u32),
    TooDeep(u32),
    RightTo(u32),
    Right,
}

impl From<AllocError> for Answer {
    fn from(_: AllocError) -> Answer {
        Answer::Memory
    }
}

fn start_of(sort: &str) -> Start {
    match sort {
        "expr" => Start::Expr,
        "event" => Start::Event,
        "class" => Start::Class,
        "change" => Start::Change,
        "query" => Start::Query,
        "comparison" => Start::Comparison,
        _ => Start::Statement,
    }
}

// Where the token at this place begins, or the text's end.
fn byte_of(text: &[u8], found: &[Token], at: usize) -> u32 {
    match found.get(at) {
        Some(token) => token.start,
        None => text.len().min(4_294_967_295) as u32,
    }
}

fn placed(start: Start, text: &[u8], found: &[Token]) -> Place {
    match start {
        Start::Expr => Place::Anywhere,
        Start::Event | Start::Class => Place::Class,
        Start::Change => Place::Change,
        Start::Query => Place::Query,
        Start::Comparison => Place::Comparison,
        Start::Statement => place_of(text, found),
    }
}

// What is said of a text's tokens.
fn judged(alloc: Global, start: Start, text: &[u8], found: &[Token]) -> Result<Answer, Answer> {
    let seen = terminals(alloc, placed(start, text, found), text, found)?;
    let extent = extent_of(alloc, start, seen.as_slice())?;
    let whole = !matches!(start, Start::Expr | Start::Event);
    if !extent.is_text || whole && extent.end < seen.len() {
        return Ok(Answer::Syntax(byte_of(text, found, extent.end)));
    }
    let read: &[Terminal] = seen.as_slice().get(..extent.end).unwrap_or(&[]);
    match first_too_deep(alloc, start, read)? {
        Some(at) => Ok(Answer::TooDeep(byte_of(text, found, at))),
        None if extent.end < seen.len() => Ok(Answer::RightTo(byte_of(text, found, extent.end))),
        None => Ok(Answer::Right),
    }
}

fn judge(alloc: Global, sort: &str, text: &str) -> Answer {
    let bytes = text.as_bytes();
    if bytes.len() >= 4_294_967_296 {
        return Answer::Memory;
    }
    match tokens(alloc, bytes) {
        Err(LexError::Memory) => Answer::Memory,
        Err(LexError::NoToken { at }) => Answer::BadByte(at),
        Ok(found) => match judged(alloc, start_of(sort), bytes, found.as_slice()) {
            Ok(answer) => answer,
            Err(answer) => answer,
        },
    }
}

fn main(rt: HostRuntime) -> io::Result<()> {
    let cases = io::read_to_string(rt.alloc(), rt.reader())?;
    for line in cases.as_str().lines() {
        let Some((sort, text)) = line.split_once(' ') else {
            println!(rt; "{line}")?;
            continue;
        };
        match judge(rt.alloc(), sort, text) {
            Answer::Memory => println!(rt; "no memory: {sort} {text}")?,
            Answer::BadByte(at) => println!(rt; "bad byte {at}: {sort} {text}")?,
            Answer::Syntax(at) => println!(rt; "syntax {at}: {sort} {text}")?,
            Answer::TooDeep(at) => println!(rt; "too deep {at}: {sort} {text}")?,
            Answer::RightTo(at) => println!(rt; "right to {at}: {sort} {text}")?,
            Answer::Right => println!(rt; "right: {sort} {text}")?,
        }
    }
    Ok(())
}
