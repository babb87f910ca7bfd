//! Tokens as the grammar sees them.
ghost use Rattle.std.specs.Prelude.{◌≡◌, IfOk, map, length};
ghost use Rattle.ode_timer.specs.Dates.{instant_of};
ghost use Rattle.ode_terminals.specs.Seen.{begins_change, between_quotes, instant_terminal, mark_terminal, number_terminal, place_of, reference_terminal, seen, terminal_of, this_terminal};

use crate::words::word_terminal;
use ode_grammar::Terminal;
use ode_lex::{Mark, Token, TokenKind, slice_of};
use ode_timer::instant;
use ode_value::limits::CHOOSE_LIMIT;
use std::alloc::{AllocError, Global};

/// Where a text stands: in a class, in a change of one, among a script's own statements, in a query, in a comparison of event expressions, or where nothing is known of it.
#[derive(Clone, Copy, Debug, PartialEq, Eq)]
pub enum Place {
    Anywhere,
    Class,
    Change,
    Script,
    Query,
    Comparison,
}

fn mark_terminal(mark: Mark) -> Terminal
    ensures { result ≡ mark_terminal mark }
{
    match mark {
        Mark::OpenBrace => Terminal::OpenBrace,
        Mark::CloseBrace => Terminal::CloseBrace,
        Mark::OpenParen => Terminal::OpenParen,
        Mark::CloseParen => Terminal::CloseParen,
        Mark::Semi => Terminal::Semi,
        Mark::Comma => Terminal::Comma,
        Mark::Dot => Terminal::Dot,
        Mark::Colon => Terminal::Colon,
        Mark::Assign => Terminal::Assign,
        Mark::Equal => Terminal::Compares,
        Mark::NotEqual => Terminal::Compares,
        Mark::Less => Terminal::Compares,
        Mark::LessEqual => Terminal::Compares,
        Mark::Greater => Terminal::Compares,
        Mark::GreaterEqual => Terminal::Compares,
        Mark::Plus => Terminal::Plus,
        Mark::Minus => Terminal::Minus,
        Mark::Star => Terminal::Times,
        Mark::Slash => Terminal::Times,
        Mark::Percent => Terminal::Times,
        Mark::Not => Terminal::Not,
        Mark::AndAnd => Terminal::AndAnd,
        Mark::OrOr => Terminal::OrOr,
        Mark::Arrow => Terminal::Arrow,
    }
}

fn number_terminal(number: i64) -> Terminal
    ensures { result ≡ number_terminal number }
{
    if number < 1 || number > i64::from(u32::MAX) {
        Terminal::Number
    } else if number <= i64::from(CHOOSE_LIMIT) {
        Terminal::Count
    } else {
        Terminal::Seconds
    }
}

fn this_terminal(place: Place) -> Terminal
    ensures { result ≡ this_terminal place }
{
    match place {
        Place::Script | Place::Query | Place::Change | Place::Comparison => Terminal::Stray,
        _ => Terminal::Leaf,
    }
}

fn reference_terminal(place: Place) -> Terminal
    ensures { result ≡ reference_terminal place }
{
    match place {
        Place::Class | Place::Change | Place::Comparison => Terminal::Stray,
        _ => Terminal::Leaf,
    }
}

// What stands between the quotes of a text.
fn between_quotes(bytes: &[u8]) -> &[u8]
    ensures { result.now ≡ between_quotes bytes.now }
{
    let (_, rest) = bytes.split_at(bytes.len().min(1));
    let (content, _) = rest.split_at(bytes.len().saturating_sub(2));
    content
}

fn text_terminal(bytes: &[u8]) -> Terminal
    ensures { result ≡ instant_terminal (instant_of (between_quotes bytes.now)) }
{
    match instant(between_quotes(bytes)) {
        Ok(_) => Terminal::Instant,
        Err(_) => Terminal::Text,
    }
}

/// What the grammar sees of a token of a text that stands at this place. A text is `Instant` where it is one.
pub fn terminal_of(place: Place, text: &[u8], token: Token) -> Terminal
    ensures { result ≡ terminal_of place text.now token }
{
    let bytes = slice_of(text, token);
    match token.kind {
        TokenKind::Word => {
            if bytes == b"this".as_slice() {
                this_terminal(place)
            } else {
                word_terminal(bytes)
            }
        }
        TokenKind::Number(number) => number_terminal(number),
        TokenKind::Text => text_terminal(bytes),
        TokenKind::Reference(_) => reference_terminal(place),
        TokenKind::Mark(mark) => mark_terminal(mark),
    }
}

/// What the grammar sees of the tokens of a text.
pub fn terminals(
    alloc: Global,
    place: Place,
    text: &[u8],
    tokens: &[Token],
) -> Result<Vec<Terminal>, AllocError>
    ensures { IfOk result (λ seen. seen.items ≡ map (terminal_of place text.now) tokens.now) }
{
    let mut seen = Vec::with_capacity(alloc, tokens.len())?;
    for token in tokens {
        seen.push(terminal_of(place, text, *token))?;
    }
    Ok(seen)
}

/// Where a statement's text stands: in a class exactly where it begins with the word `class`.
pub fn place_of(text: &[u8], tokens: &[Token]) -> Place
    ensures { result ≡ place_of text.now tokens.now }
{
    match tokens {
        [first, ..] if slice_of(text, *first) == b"class".as_slice() => Place::Class,
        _ => Place::Script,
    }
}

/// Whether a piece is a change of a class: it begins with the words `change class`.
pub fn begins_change(text: &[u8], tokens: &[Token]) -> bool
    ensures { result ≡ begins_change text.now tokens.now }
{
    match tokens {
        [first, second, ..] => {
            slice_of(text, *first) == b"change".as_slice()
                && slice_of(text, *second) == b"class".as_slice()
        }
        _ => false,
    }
}
