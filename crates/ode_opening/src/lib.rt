//! The opening of a database: what its records hold, or the first rule that they break.
#![tactic(auto)]

mod accepted;
mod births;
mod classes;
mod declaring;
mod trees;

pub use accepted::Accepted;
pub use classes::read_classes;
pub use trees::read_trees;
