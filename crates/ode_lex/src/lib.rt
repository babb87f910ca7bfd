//! The tokens of a script: words, numbers, texts, references and marks.
#![tactic(auto)]

mod lexer;
mod mark;
mod number;
mod rows;
mod text;
mod token;

pub use lexer::{is_blank, tokens};
pub use token::{LexError, Mark, Token, TokenKind, slice_of};
