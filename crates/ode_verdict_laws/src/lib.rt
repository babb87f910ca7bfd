//! What a comparison comes to is the verdict, carried by the contract of a function that does nothing.
#![tactic(auto)]

mod laws;

pub use laws::compared_is_the_verdict;
