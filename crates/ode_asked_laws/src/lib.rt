//! The numbers of the event expressions of a comparison that is read, and checked, are in their ranges. The law is carried by the contract
//! of a function that does nothing.
#![tactic(auto)]

mod laws;

pub use laws::numbers_of_comparisons_are_in_range;
