//! Type soundness of the machine: from worlds whose values fit their sorts, checked statements leave such worlds. Each law is carried by
//! the contract of a function that does nothing.
#![tactic(auto)]

mod expressions;
mod transactions;

pub use expressions::{expressions_find_what_they_read, expressions_fit};
pub use transactions::{transactions_stay_typed, worlds_stay_typed};
