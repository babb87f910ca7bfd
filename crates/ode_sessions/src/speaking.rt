//! A piece of a script of sessions is read.
ghost use Rattle.std.specs.Prelude.{◌≡◌, ◌<◌, ◌≤◌, ◌^◌, IfOk, drop, length};
ghost use Rattle.ode_language.specs.Languages.{statement_of};
ghost use Rattle.ode_sessions.specs.Speaking.{HasSaid, IsMovable, IsSpoken, is_colon, moved, named, named_by, said_by, session_in, spoken};

use ode_language::{ReadStop, read_statement};
use ode_lex::{LexError, Mark, Token, TokenKind, tokens};
use ode_value::limits::SESSION_LIMIT;
use ode_value::{Refusal, Statement};
use std::alloc::{AllocError, Global};

/// What a piece says: a statement of the session of a number; or it names no session; or the first refusal of its bytes.
#[derive(Drop)]
pub(crate) enum Spoken {
    Says { session: u32, statement: Statement },
    NoSession,
    Unread(Refusal),
}

// The number of a session that a token is.
fn session_in(kind: TokenKind) -> Option<u32>
    ensures { result ≡ session_in kind }
{
    match kind {
        TokenKind::Number(n) => {
            if 1 <= n && n <= SESSION_LIMIT as i64 {
                Some(n as u32)
            } else {
                None
            }
        }
        _ => None,
    }
}

fn is_colon(kind: TokenKind) -> bool
    ensures { result ≡ is_colon kind }
{
    match kind {
        TokenKind::Mark(Mark::Colon) => true,
        _ => false,
    }
}

// The session that two tokens name, and where they end.
fn named_by(number: Token, colon: Token) -> Option<(u32, u32)>
    ensures { result ≡ named_by number colon }
{
    if !is_colon(colon.kind) {
        return None;
    }
    match session_in(number.kind) {
        Some(session) => Some((session, colon.end)),
        None => None,
    }
}

// The session that the first two tokens name, and where they end.
fn named(tokens: &[Token]) -> Option<(u32, u32)>
    ensures { result ≡ named tokens.now }
{
    match tokens {
        [number, colon, ..] => named_by(*number, *colon),
        _ => None,
    }
}

// What stands behind so many bytes.
fn behind(text: &[u8], at: u32) -> &[u8]
    requires { at ≤ length text.now }
    ensures { result.now ≡ drop at text.now }
{
    &text[at as usize..]
}

// A refusal of what stands behind so many bytes, with its place in the whole.
fn moved(behind: u32, why: Refusal) -> Refusal
    requires { IsMovable behind why }
    ensures { result ≡ moved behind why }
{
    match why {
        Refusal::NoToken { at } => Refusal::NoToken { at: at + behind },
        Refusal::Syntax { at } => Refusal::Syntax { at: at + behind },
        Refusal::TooDeep { at } => Refusal::TooDeep { at: at + behind },
        why => why,
    }
}

// What a session says by the bytes behind its colon.
fn said_behind(alloc: Global, text: &[u8], session: u32, end: u32) -> Result<Spoken, AllocError>
    requires short { length text.now < 2 ^ 32 }
    requires within { end ≤ length text.now }
    ensures spoken { IfOk result (λ said. IsSpoken said (said_by session end (statement_of (drop end text.now)))) }
    ensures text { IfOk result HasSaid }
{
    match read_statement(alloc, behind(text, end)) {
        Ok(statement) => Ok(Spoken::Says { session, statement }),
        Err(ReadStop::Memory) => Err(AllocError),
        Err(ReadStop::Refused(why)) => Ok(Spoken::Unread(moved(end, why))),
    }
}

/// What a piece of fewer than 2^32 bytes says.
pub(crate) fn read_spoken(alloc: Global, text: &[u8]) -> Result<Spoken, AllocError>
    requires { length text.now < 2 ^ 32 }
    ensures spoken { IfOk result (λ said. IsSpoken said (spoken text.now)) }
    ensures text { IfOk result HasSaid }
{
    match tokens(alloc, text) {
        Ok(found) => match named(found.as_slice()) {
            Some((session, end)) => said_behind(alloc, text, session, end),
            None => Ok(Spoken::NoSession),
        },
        Err(LexError::Memory) => Err(AllocError),
        Err(LexError::NoToken { at }) => Ok(Spoken::Unread(Refusal::NoToken { at })),
    }
}
