//! The alphabet of an event expression: which marks a point can have, and which one a point has.
#![tactic(auto)]

mod alphabet;
mod error;
mod holding;
mod plain;
mod rows;

pub use alphabet::Alphabet;
pub use error::AlphabetError;
pub use plain::test;
