//! The contents of texts in quotes.
ghost use Rattle.std.specs.Prelude.{◌≡◌, ◌≤◌, ◌<◌, drop, length, IfOk, IfNone, IfSome, None, false};
ghost use Rattle.ode_lex.specs.Texts.{begins_with_quote, content, with_front};
ghost use Rattle.ode_syntax.specs.Kept.{content_of};

use ode_value::List;
use std::alloc::{AllocError, Global};

// Whether a quote is in front.
fn begins_with_quote(bytes: &[u8]) -> bool
    ensures { result ≡ begins_with_quote bytes.now }
{
    matches!(bytes, [b'"', ..])
}

// The byte of a content that is in front, which isn't the closing quote, and how many bytes spell it.
fn spelled_byte(bytes: &[u8]) -> Option<(u8, usize)>
    requires { begins_with_quote bytes.now ≡ false }
    ensures some_bytes { IfSome result (λ found. 0 < found.1) }
    ensures within { IfSome result (λ found. found.1 ≤ length bytes.now) }
    ensures none { IfNone result (content bytes.now ≡ None) }
    ensures some { IfSome result (λ found. content bytes.now ≡ with_front found.0 found.1 (content (drop found.1 bytes.now))) }
{
    match bytes {
        [b'\\', byte @ (b'"' | b'\\'), ..] => Some((*byte, 2)),
        [b'\\', ..] => None,
        [byte @ 0x20..=0x7E, ..] => Some((*byte, 1)),
        _ => None,
    }
}

/// The content of a text in quotes, its escapes undone; none where it isn't spelled right.
#[tactic(auto, unfolding(crate::specs::Kept::content_of))]
pub fn content_of(alloc: Global, quoted: &[u8]) -> Result<List<u8>, AllocError>
    ensures { IfOk result (λ content. content ≡ content_of quoted.now) }
{
    let mut content = List::new(alloc);
    let mut at = 1;
    while at < quoted.len() {
        let (_, rest) = quoted.split_at(at);
        if begins_with_quote(rest) {
            return Ok(content);
        }
        let Some((byte, length)) = spelled_byte(rest) else {
            return Ok(List::new(alloc));
        };
        content.push(byte)?;
        at += length;
    }
    Ok(List::new(alloc))
}
