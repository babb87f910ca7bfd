//! What a piece of a script comes to, and what a run of a whole script does: definitions, with examples computed.
#![tactic(auto)]

mod commands;
mod owned;
mod runs;

pub use commands::{clock_commands_begin, ends_without_a_transaction, places_are_tested};
pub use owned::Owned;
pub use runs::{empty_scripts, texts_go_with_worlds};
