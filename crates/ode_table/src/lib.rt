//! One automaton for an event expression: a step is one look-up.
#![tactic(auto)]

mod automaton;
mod building;
mod error;

pub use automaton::Table;
pub use building::build;
pub use error::BuildError;
