//! The language of scripts: the statement of a piece, or the first refusal of its bytes.
#![tactic(auto)]

mod reading;

pub use reading::{Piece, ReadStop, read_piece, read_statement};
