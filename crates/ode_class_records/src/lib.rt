//! The changes that store a declared class: its head, the pieces of its text, and the heads and the pieces of its tables; and what its tables
//! count more than their records take.
#![tactic(auto)]

mod class;
mod pieces;
mod putting;
mod tables;
mod weighing;

pub use class::class_changes;
pub use putting::put;
pub use weighing::spare;
