//! Laws of runs, and of the commands that they are made of, each carried by the contract of a function that does nothing.
#![tactic(auto)]

mod alike;
mod runs;

pub use alike::clocks_and_classes_settle_alike;
pub use runs::{references_are_stable, runs_join, texts_begin_with_earlier_ones};
