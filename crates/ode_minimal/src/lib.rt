//! A smaller table with the same answers.
#![tactic(auto)]

mod collapse;
mod marking;
mod shrinking;
mod sources;

pub use shrinking::shrink;
