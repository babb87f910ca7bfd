//! The table of tokens, a row a function.
ghost use Rattle.std.specs.Prelude.{◌≡◌, ◌+◌, ◌<◌, ◌≤◌, length, IfSome};
ghost use Rattle.std.specs.List.{prefix_len};
ghost use Rattle.ode_value.specs.Text.{is_name_byte};
ghost use Rattle.ode_lex.specs.Tokens.{begins_word, number_at, reference_at, text_at, token_at, version_at, word_at, word_follows};

use crate::mark::mark_at;
use crate::number::numeral_at;
use crate::text::text_length;
use crate::token::TokenKind;
use ode_value::Ref;
use ode_value::limits::NAME_LIMIT;

/// The token in front, and its length.
#[tactic(auto, unfolding(crate::specs::Tokens::token_at))]
pub fn token_at(bytes: &[u8]) -> Option<(TokenKind, usize)>
    ensures token { result ≡ token_at bytes.now }
    ensures within { IfSome result (λ found. (0 < found.1) × (found.1 ≤ length bytes.now)) }
{
    let (first, rest) = bytes.split_first()?;
    if begins_word(*first) {
        return word_at(rest);
    }
    match *first {
        b'0'..=b'9' => number_at(bytes),
        b'"' => text_at(rest),
        b'#' => reference_at(rest),
        _ => {
            let (mark, length) = mark_at(bytes)?;
            Some((TokenKind::Mark(mark), length))
        }
    }
}

// A letter or `_`.
fn begins_word(byte: u8) -> bool
    ensures { result ≡ begins_word byte }
{
    byte.is_ascii_alphabetic() || byte == b'_'
}

// A letter, a digit or `_`.
fn is_word_byte(byte: u8) -> bool
    ensures { result ≡ is_name_byte byte }
{
    matches!(byte, b'0'..=b'9' | b'A'..=b'Z' | b'_' | b'a'..=b'z')
}

// Whether a letter or `_` is in front.
fn word_follows(bytes: &[u8]) -> bool
    ensures { result ≡ word_follows bytes.now }
{
    match bytes {
        [] => false,
        [first, ..] => begins_word(*first),
    }
}

// Of a word behind its first byte.
#[tactic(auto, unfolding(crate::specs::Tokens::word_at))]
fn word_at(rest: &[u8]) -> Option<(TokenKind, usize)>
    ensures token { result ≡ word_at rest.now }
    ensures within { IfSome result (λ found. (0 < found.1) × (found.1 ≤ 1 + length rest.now)) }
{
    let length = 1 + word_length(rest);
    if length <= NAME_LIMIT {
        Some((TokenKind::Word, length))
    } else {
        None
    }
}

// How many letters, digits and `_` are in front.
fn word_length(bytes: &[u8]) -> usize
    ensures length { result ≡ prefix_len is_name_byte bytes.now }
    ensures within { result ≤ length bytes.now }
{
    bytes.iter().take_while(|b| is_word_byte(**b)).count()
}

#[tactic(auto, unfolding(crate::specs::Tokens::number_at))]
fn number_at(bytes: &[u8]) -> Option<(TokenKind, usize)>
    ensures token { result ≡ number_at bytes.now }
    ensures within { IfSome result (λ found. (0 < found.1) × (found.1 ≤ length bytes.now)) }
{
    let (number, length) = numeral_at(0, i64::MAX as u64, bytes)?;
    let (_, rest) = bytes.split_at(length);
    if word_follows(rest) {
        None
    } else {
        Some((TokenKind::Number(number as i64), length))
    }
}

// Of a text behind its opening quote.
#[tactic(auto, unfolding(crate::specs::Tokens::text_at))]
fn text_at(rest: &[u8]) -> Option<(TokenKind, usize)>
    ensures token { result ≡ text_at rest.now }
    ensures within { IfSome result (λ found. (0 < found.1) × (found.1 ≤ 1 + length rest.now)) }
{
    let length = text_length(rest)?;
    Some((TokenKind::Text, 1 + length))
}

// Of a reference behind its `#`.
#[tactic(auto, unfolding(crate::specs::Tokens::reference_at))]
fn reference_at(rest: &[u8]) -> Option<(TokenKind, usize)>
    ensures token { result ≡ reference_at rest.now }
    ensures within { IfSome result (λ found. (0 < found.1) × (found.1 ≤ 1 + length rest.now)) }
{
    let (object, digits) = numeral_at(1, u64::MAX, rest)?;
    let (_, behind) = rest.split_at(digits);
    let (version, length) = match version_at(behind) {
        Some((version, length)) => (Some(version), length),
        None => (None, 0),
    };
    Some((
        TokenKind::Reference(Ref { object, version }),
        1 + digits + length,
    ))
}

// The number behind an `@`, and the length of both.
#[tactic(auto, unfolding(crate::specs::Tokens::version_at))]
fn version_at(bytes: &[u8]) -> Option<(u32, usize)>
    ensures version { result ≡ version_at bytes.now }
    ensures within { IfSome result (λ found. found.1 ≤ length bytes.now) }
{
    let (first, rest) = bytes.split_first()?;
    if *first != b'@' {
        return None;
    }
    let (version, digits) = numeral_at(1, u64::from(u32::MAX), rest)?;
    Some((version as u32, 1 + digits))
}
