//! Two tables compared: they agree on every word that isn't empty, or the least of the shortest words tells them apart. And the states of a
//! table that words lead to.
#![tactic(auto)]

mod error;
mod numbering;
mod reaching;
mod relation;
mod search;
mod visit;

pub use error::RelateError;
pub use reaching::{reached, words_lead_to_reached_states};
pub use relation::relate;
