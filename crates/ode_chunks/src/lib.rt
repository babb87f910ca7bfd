//! Records in rising order of their keys, held in chunks, so that records that come in that order are pushed.
#![tactic(auto)]

mod chunks;
mod rows;

pub use chunks::Chunks;
pub use rows::Row;
