//! Good worlds stay good. Each law is carried by the contract of a function that does nothing.
#![tactic(auto)]

mod worlds;

pub use worlds::transactions_leave_good_worlds;
