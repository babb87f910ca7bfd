//! What is equal wherever a test is true.
#![tactic(auto)]

mod link;

pub use link::{Link, link_of};
