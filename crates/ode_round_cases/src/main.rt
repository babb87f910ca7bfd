//! Prints each text on standard input again, from its tree: a line is a sort of text, a blank and the text. Behind it `differs` stands where the
//! printed text isn't printed the same again. Before a statement that is no class it prints `right`, and before a text that is wrong its place.
#![tactic(auto)]

ghost use Rattle.std.specs.Prelude.{◌<◌, ◌^◌, length};

use ode_classyn::{parse_class, parse_statement, print_class};
use ode_eventsyn::{SyntaxError, parse_event, parse_expr, print_event, print_expr};
use ode_lex::{LexError, Token, tokens};
use ode_value::{List, Statement};
use std::alloc::{AllocError, Global};
use std::io;

fn lexed(alloc: Global, text: &[u8]) -> Result<List<Token>, SyntaxError>
    requires { length text.now < 2 ^ 32 }
{
    match tokens(alloc, text) {
        Ok(found) => Ok(found),
        Err(LexError::Memory) => Err(SyntaxError::Memory),
        Err(LexError::NoToken { at }) => Err(SyntaxError::NoToken { at }),
    }
}

// The text of the tree that a text of this sort has.
fn printed(alloc: Global, sort: &str, text: &[u8]) -> Result<List<u8>, SyntaxError>
    requires { length text.now < 2 ^ 32 }
{
    match sort {
        "expr" => {
            let (e, _) = parse_expr(alloc, text, &lexed(alloc, text)?, 0)?;
            Ok(print_expr(alloc, &e)?)
        }
        "event" => {
            let (e, _) = parse_event(alloc, text, &lexed(alloc, text)?, 0)?;
            Ok(print_event(alloc, &e)?)
        }
        "class" => {
            let class = parse_class(alloc, text)?;
            Ok(print_class(alloc, &class)?)
        }
        _ => match parse_statement(alloc, text)? {
            Statement::Class(class) => Ok(print_class(alloc, &class)?),
            _ => Ok(List::new(alloc)),
        },
    }
}

/// What is said of a text.
enum Answer {
    Memory,
    BadByte(u32),
    Syntax(u32),
    TooDeep(u32),
    /// A statement that is no class.
    Right,
    /// Its printed text, which is printed the same again.
    Same(List<u8>),
    /// Its printed text, which isn't.
    Differs(List<u8>),
}

// Whether the printed text is printed the same again.
fn is_kept(alloc: Global, sort: &str, text: &[u8]) -> bool {
    if text.len() >= 4_294_967_296 {
        return false;
    }
    let printed_sort = if sort == "statement" { "class" } else { sort };
    match printed(alloc, printed_sort, text) {
        Ok(again) => again.as_slice() == text,
        Err(_) => false,
    }
}

fn judge(alloc: Global, sort: &str, text: &str) -> Answer {
    let bytes = text.as_bytes();
    if bytes.len() >= 4_294_967_296 {
        return Answer::Memory;
    }
    match printed(alloc, sort, bytes) {
        Ok(again) if again.is_empty() => Answer::Right,
        Ok(again) if is_kept(alloc, sort, again.as_slice()) => Answer::Same(again),
        Ok(again) => Answer::Differs(again),
        Err(SyntaxError::Memory) => Answer::Memory,
        Err(SyntaxError::NoToken { at }) => Answer::BadByte(at),
        Err(SyntaxError::At { at }) => Answer::Syntax(at),
        Err(SyntaxError::TooDeep { at }) => Answer::TooDeep(at),
    }
}

fn main(rt: HostRuntime) -> io::Result<()> {
    let cases = io::read_to_string(rt.alloc(), rt.reader())?;
    for line in cases.as_str().lines() {
        let Some((sort, text)) = line.split_once(' ') else {
            println!(rt; "{line}")?;
            continue;
        };
        match judge(rt.alloc(), sort, text) {
            Answer::Memory => println!(rt; "no memory: {sort} {text}")?,
            Answer::BadByte(at) => println!(rt; "bad byte {at}: {sort} {text}")?,
            Answer::Syntax(at) => println!(rt; "syntax {at}: {sort} {text}")?,
            Answer::TooDeep(at) => println!(rt; "too deep {at}: {sort} {text}")?,
            Answer::Right => println!(rt; "right: {sort} {text}")?,
            Answer::Same(again) => {
                let shown = str::from_utf8(again.as_slice()).unwrap_or("no text");
                println!(rt; "{sort} {shown}")?
            }
            Answer::Differs(again) => {
                let shown = str::from_utf8(again.as_slice()).unwrap_or("no text");
                println!(rt; "{sort} {shown} differs")?
            }
        }
    }
    Ok(())
}
