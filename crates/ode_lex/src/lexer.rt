//! The tokens of a text.
ghost use Rattle.std.specs.Prelude.{◌≡◌, ℕ, ◌<◌, ◌≤◌, ◌^◌, ◌==◌, All, AllPairs, IfOk, IsErrOf, length, not};
ghost use Rattle.std.specs.List.{prefix_len};
ghost use Rattle.ode_lex.specs.Tokens.{gap_at, is_blank, lexed, IsBefore, IsTokenOf, NoToken, Tokens};

use crate::rows::token_at;
use crate::token::{LexError, Token};
use ode_value::List;
use std::alloc::Global;

/// The tokens of a text, from the left, or the first byte that begins none. Blanks and comments separate tokens.
pub fn tokens(alloc: Global, text: &[u8]) -> Result<List<Token>, LexError>
    requires { length text.now < 2 ^ 32 }

    ensures ok { IfOk result (λ tokens. lexed text.now ≡ Tokens tokens) }
    ensures no_token { (at : ℕ) → IsErrOf result (LexError.NoToken at) → lexed text.now ≡ NoToken at }

    ensures each { IfOk result (λ tokens. All (IsTokenOf text.now) tokens) }
    ensures rising { IfOk result (λ tokens. AllPairs IsBefore tokens) }
{
    let mut found = List::new(alloc);
    let mut at = 0;
    while at < text.len() {
        let (_, rest) = text.split_at(at);
        let gap = gap_at(rest);
        if gap > 0 {
            at += gap;
        } else {
            let Some((kind, length)) = token_at(rest) else {
                return Err(LexError::NoToken { at: at as u32 });
            };
            let end = at + length;
            let token = Token {
                kind,
                start: at as u32,
                end: end as u32,
            };
            found.push(token)?;
            at = end;
        }
    }
    Ok(found)
}

// How many bytes in front are those of a comment up to its LF, or blanks.
#[tactic(auto, unfolding(crate::specs::Tokens::gap_at))]
fn gap_at(bytes: &[u8]) -> usize
    ensures gap { result ≡ gap_at bytes.now }
    ensures within { result ≤ length bytes.now }
{
    if bytes.starts_with(b"//") {
        line_length(bytes)
    } else {
        blank_length(bytes)
    }
}

// How many bytes stand before the first LF.
fn line_length(bytes: &[u8]) -> usize
    ensures length { result ≡ prefix_len (λ b. not (b == 10)) bytes.now }
    ensures within { result ≤ length bytes.now }
{
    bytes.iter().take_while(|b| **b != b'\n').count()
}

// How many blanks are in front.
fn blank_length(bytes: &[u8]) -> usize
    ensures length { result ≡ prefix_len is_blank bytes.now }
    ensures within { result ≤ length bytes.now }
{
    bytes.iter().take_while(|b| is_blank(**b)).count()
}

/// Whether a byte separates tokens: a space, a tab, CR or LF.
pub fn is_blank(byte: u8) -> bool
    ensures { result ≡ is_blank byte }
{
    matches!(byte, b' ' | b'\t' | b'\r' | b'\n')
}
