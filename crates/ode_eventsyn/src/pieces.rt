//! The trees of tokens.
ghost use Rattle.std.specs.Prelude.{◌≡◌, ◌<◌, ◌^◌, ◌&&◌, nat_le, length, IfOk, IfErr};
ghost use Rattle.ode_eventsyn.specs.Parsing.{byte_of, AreTree, IsLongest, IsWhy, IsWhyWhole};

use crate::error::SyntaxError;
use ode_grammar::{Extent, Start, extent_of};
use ode_heights::first_too_deep;
use ode_lex::Token;
use ode_syntax::{Trees, read};
use ode_terminals::{Place, terminals};
use std::alloc::Global;

// Where the token at this place begins, or where the text ends.
fn byte_of(text: &[u8], tokens: &[Token], at: usize) -> u32
    requires { length text.now < 2 ^ 32 }
    ensures { result ≡ byte_of text.now tokens.now at }
{
    match tokens.get(at) {
        Some(token) => token.start,
        None => text.len() as u32,
    }
}

/// The trees of the longest text that stands in front, and the number of its tokens.
pub fn longest(
    alloc: Global,
    start: Start,
    place: Place,
    text: &[u8],
    tokens: &[Token],
) -> Result<(Trees, usize), SyntaxError>
    requires { length text.now < 2 ^ 32 }
    ensures ok { IfOk result (λ found. IsLongest start place text.now tokens.now found.1 found.0) }
    ensures err { IfErr result (λ e. IsWhy start place text.now tokens.now e) }
{
    let seen = terminals(alloc, place, text, tokens)?;
    let extent = extent_of(alloc, start, seen.as_slice())?;
    if !extent.is_text {
        return Err(SyntaxError::At {
            at: byte_of(text, tokens, extent.end),
        });
    }
    let (front, _) = seen.as_slice().split_at(extent.end);
    if let Some(at) = first_too_deep(alloc, start, front)? {
        return Err(SyntaxError::TooDeep {
            at: byte_of(text, tokens, at),
        });
    }
    let (front, _) = tokens.split_at(extent.end);
    let made = read(alloc, start, place, text, front)?;
    Ok((made, extent.end))
}

// Whether so many tokens are a text to their end.
fn is_whole(extent: Extent, count: usize) -> bool
    ensures { result ≡ (extent.is_text && nat_le count extent.end) }
{
    extent.is_text && count <= extent.end
}

/// The trees of the text that the tokens are.
pub fn whole(
    alloc: Global,
    start: Start,
    place: Place,
    text: &[u8],
    tokens: &[Token],
) -> Result<Trees, SyntaxError>
    requires { length text.now < 2 ^ 32 }
    ensures ok { IfOk result (λ made. AreTree start place text.now tokens.now made) }
    ensures err { IfErr result (λ e. IsWhyWhole start place text.now tokens.now e) }
{
    let seen = terminals(alloc, place, text, tokens)?;
    let extent = extent_of(alloc, start, seen.as_slice())?;
    if !is_whole(extent, tokens.len()) {
        return Err(SyntaxError::At {
            at: byte_of(text, tokens, extent.end),
        });
    }
    if let Some(at) = first_too_deep(alloc, start, seen.as_slice())? {
        return Err(SyntaxError::TooDeep {
            at: byte_of(text, tokens, at),
        });
    }
    let made = read(alloc, start, place, text, tokens)?;
    Ok(made)
}
