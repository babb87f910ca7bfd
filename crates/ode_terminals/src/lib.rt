//! What the grammar sees of lexed tokens.
#![tactic(auto)]

mod seen;
mod words;

pub use seen::{Place, begins_change, place_of, terminal_of, terminals};
pub use words::words_are_reserved;
