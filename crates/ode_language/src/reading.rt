//! The statement of a piece.
ghost use Rattle.std.specs.Prelude.{◌≡◌, ◌<◌, ◌^◌, length};
ghost use Rattle.ode_lex.specs.Tokens.{lexed};
ghost use Rattle.ode_lex.specs.Tokens as lexing;
ghost use Rattle.ode_language.specs.Answers.{Answers};
ghost use Rattle.ode_language.specs.Languages.{change_in, piece_by, piece_of, statement_by, statement_in, statement_of};
ghost use Rattle.ode_language.specs.Reading.{read};

use ode_eventsyn::{SyntaxError, whole};
use ode_grammar::Start;
use ode_lex::{LexError, Token, tokens};
use ode_syntax::Trees;
use ode_terminals::{Place, begins_change, place_of};
use ode_value::{Change, List, Refusal, Statement};
use std::alloc::{AllocError, Global};

/// Why a piece gives no statement.
#[derive(Drop)]
pub enum ReadStop {
    Memory,
    /// The first refusal of its bytes.
    Refused(Refusal),
}

impl From<AllocError> for ReadStop {
    ghost use Rattle.ode_language.specs.declared.reading.ReadStop.TheVariants.{Memory};

    ghost from_gives = { λ _ e. e ≡ Memory };

    fn from(_: AllocError) -> ReadStop {
        ReadStop::Memory
    }
}

/// What a piece is.
#[derive(Drop)]
pub enum Piece {
    Statement(Statement),
    /// It begins with the words `change class`.
    Change(Change),
}

#[tactic(auto, using(crate::proofs::ReadingLaws::tree_is_read, crate::proofs::ReadingLaws::why_says))]
fn read(
    alloc: Global,
    start: Start,
    place: Place,
    text: &[u8],
    tokens: &[Token],
) -> Result<Trees, ReadStop>
    requires { length text.now < 2 ^ 32 }
    ensures { Answers (read start place text.now tokens.now) result }
{
    match whole(alloc, start, place, text, tokens) {
        Ok(made) => Ok(made),
        Err(SyntaxError::Memory) => Err(ReadStop::Memory),
        Err(SyntaxError::NoToken { at }) => Err(ReadStop::Refused(Refusal::NoToken { at })),
        Err(SyntaxError::At { at }) => Err(ReadStop::Refused(Refusal::Syntax { at })),
        Err(SyntaxError::TooDeep { at }) => Err(ReadStop::Refused(Refusal::TooDeep { at })),
    }
}

fn statement_in(alloc: Global, text: &[u8], tokens: &[Token]) -> Result<Statement, ReadStop>
    requires { length text.now < 2 ^ 32 }
    ensures { Answers (statement_by text.now (lexing.Tokens tokens.now)) result }
{
    let made = read(
        alloc,
        Start::Statement,
        place_of(text, tokens),
        text,
        tokens,
    )?;
    Ok(made.into_statement())
}

/// The statement of a piece of fewer than 2^32 bytes, with the semicolon that ends it, or the first refusal of its bytes: no token, no
/// text of the grammar, one that is too high. In time linear in its tokens.
pub fn read_statement(alloc: Global, text: &[u8]) -> Result<Statement, ReadStop>
    requires { length text.now < 2 ^ 32 }
    ensures { Answers (statement_of text.now) result }
{
    match tokens(alloc, text) {
        Ok(found) => statement_in(alloc, text, found.as_slice()),
        Err(LexError::Memory) => Err(ReadStop::Memory),
        Err(LexError::NoToken { at }) => Err(ReadStop::Refused(Refusal::NoToken { at })),
    }
}

fn change_in(alloc: Global, text: &[u8], tokens: &[Token]) -> Result<Change, ReadStop>
    requires { length text.now < 2 ^ 32 }
    ensures { Answers (change_in text.now tokens.now) result }
{
    let made = read(alloc, Start::Change, Place::Change, text, tokens)?;
    Ok(made.into_change(alloc)?)
}

fn piece_in(alloc: Global, text: &[u8], tokens: &[Token]) -> Result<Piece, ReadStop>
    requires { length text.now < 2 ^ 32 }
    ensures { Answers (piece_by text.now (lexing.Tokens tokens.now)) result }
{
    if begins_change(text, tokens) {
        let change = change_in(alloc, text, tokens)?;
        Ok(Piece::Change(change))
    } else {
        let statement = statement_in(alloc, text, tokens)?;
        Ok(Piece::Statement(statement))
    }
}

/// A piece of fewer than 2^32 bytes, with the semicolon that ends it, or the first refusal of its bytes. In time linear in its tokens.
pub fn read_piece(alloc: Global, text: &[u8]) -> Result<Piece, ReadStop>
    requires { length text.now < 2 ^ 32 }
    ensures { Answers (piece_of text.now) result }
{
    match tokens(alloc, text) {
        Ok(found) => piece_in(alloc, text, found.as_slice()),
        Err(LexError::Memory) => Err(ReadStop::Memory),
        Err(LexError::NoToken { at }) => Err(ReadStop::Refused(Refusal::NoToken { at })),
    }
}
