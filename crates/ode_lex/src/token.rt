//! The tokens' types.
ghost use Rattle.std.specs.Prelude.{◌≡◌, ◌-◌, drop, take};

use ode_value::Ref;
use std::alloc::AllocError;

/// A mark, in the order `{ } ( ) ; , . : = == != < <= > >= + - * / % ! && || ==>`.
#[derive(Clone, Copy, Debug, PartialEq, Eq)]
pub enum Mark {
    OpenBrace,
    CloseBrace,
    OpenParen,
    CloseParen,
    Semi,
    Comma,
    Dot,
    Colon,
    Assign,
    Equal,
    NotEqual,
    Less,
    LessEqual,
    Greater,
    GreaterEqual,
    Plus,
    Minus,
    Star,
    Slash,
    Percent,
    Not,
    AndAnd,
    OrOr,
    Arrow,
}

/// What a token is.
#[derive(Clone, Copy, Debug, PartialEq, Eq)]
pub enum TokenKind {
    /// A letter or `_`, then letters, digits and `_`; at most 64 bytes.
    Word,
    /// A number from 0 to 2^63 - 1, not led by 0.
    Number(i64),
    /// A text in quotes, whose content has at most 2,048 bytes.
    Text,
    /// `#7` or `#7@2`.
    Reference(Ref),
    Mark(Mark),
}

/// A token of a text, from the byte at `start` to the one before `end`.
#[derive(Clone, Copy, Debug, PartialEq, Eq)]
pub struct Token {
    pub kind: TokenKind,
    pub start: u32,
    pub end: u32,
}

/// Why a text has no tokens.
#[derive(Clone, Copy, Debug, PartialEq, Eq)]
pub enum LexError {
    /// There is no memory for the tokens.
    Memory,
    /// The first byte that begins no token.
    NoToken { at: u32 },
}

impl From<AllocError> for LexError {
    ghost use Rattle.ode_lex.specs.declared.token.LexError.TheVariants.{Memory};

    ghost from_gives = { λ _ e. e ≡ Memory };

    fn from(_: AllocError) -> LexError {
        LexError::Memory
    }
}

/// The bytes of a token in its text. A span that goes past the text's end has what the text has of it.
pub fn slice_of<'a>(text: &'a [u8], token: Token) -> &'a [u8]
    ensures { result.now ≡ take (token.end - token.start) (drop token.start text.now) }
{
    let start = text.len().min(token.start as usize);
    let rest = &text[start..];
    let length = token.end.saturating_sub(token.start) as usize;
    &rest[..rest.len().min(length)]
}
