//! Open sessions, and which of them holds what a step of another one needs.
#![tactic(auto)]

mod holding;
mod opens;

pub use holding::{holder, other};
pub use opens::{Open, Taken, place_of, put, take};
