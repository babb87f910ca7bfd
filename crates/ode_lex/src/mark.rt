//! Marks.
ghost use Rattle.std.specs.Prelude.{◌≡◌, ◌<◌, ◌≤◌, ◌∷◌, [], length, IfSome};
ghost use Rattle.ode_lex.specs.Marks.{first_mark, mark_at, pair_marks, single_marks};

use crate::token::Mark;

/// The longest mark at the front, and its length.
#[tactic(auto, unfolding(crate::specs::Marks::mark_at))]
pub fn mark_at(bytes: &[u8]) -> Option<(Mark, usize)>
    ensures mark { result ≡ mark_at bytes.now }
    ensures within { IfSome result (λ found. (0 < found.1) × (found.1 ≤ length bytes.now)) }
{
    if bytes.starts_with(b"==>") {
        return Some((Mark::Arrow, 3));
    }
    if let Some(found) = pair_mark(bytes) {
        return Some(found);
    }
    single_mark(*bytes.first()?)
}

// The mark of two bytes at the front.
fn pair_mark(bytes: &[u8]) -> Option<(Mark, usize)>
    ensures mark { result ≡ first_mark bytes.now pair_marks }
    ensures within { IfSome result (λ found. (found.1 ≡ 2) × (2 ≤ length bytes.now)) }
{
    if bytes.starts_with(b"==") {
        Some((Mark::Equal, 2))
    } else if bytes.starts_with(b"!=") {
        Some((Mark::NotEqual, 2))
    } else if bytes.starts_with(b"<=") {
        Some((Mark::LessEqual, 2))
    } else if bytes.starts_with(b">=") {
        Some((Mark::GreaterEqual, 2))
    } else if bytes.starts_with(b"&&") {
        Some((Mark::AndAnd, 2))
    } else if bytes.starts_with(b"||") {
        Some((Mark::OrOr, 2))
    } else {
        None
    }
}

// The mark of one byte.
fn single_mark(byte: u8) -> Option<(Mark, usize)>
    ensures mark { result ≡ first_mark (byte ∷ []) single_marks }
    ensures one { IfSome result (λ found. found.1 ≡ 1) }
{
    match byte {
        b'{' => Some((Mark::OpenBrace, 1)),
        b'}' => Some((Mark::CloseBrace, 1)),
        b'(' => Some((Mark::OpenParen, 1)),
        b')' => Some((Mark::CloseParen, 1)),
        b';' => Some((Mark::Semi, 1)),
        b',' => Some((Mark::Comma, 1)),
        b'.' => Some((Mark::Dot, 1)),
        b':' => Some((Mark::Colon, 1)),
        b'=' => Some((Mark::Assign, 1)),
        b'<' => Some((Mark::Less, 1)),
        b'>' => Some((Mark::Greater, 1)),
        b'+' => Some((Mark::Plus, 1)),
        b'-' => Some((Mark::Minus, 1)),
        b'*' => Some((Mark::Star, 1)),
        b'/' => Some((Mark::Slash, 1)),
        b'%' => Some((Mark::Percent, 1)),
        b'!' => Some((Mark::Not, 1)),
        _ => None,
    }
}
