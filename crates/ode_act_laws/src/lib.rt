//! Versions, activations and reads through an overlay are the machine's on its view. Each law is carried by the contract of a function that
//! does nothing.
#![tactic(auto)]

mod activations;
mod reading;
mod versions;

pub use activations::{activations_show, deactivations_show};
pub use reading::views_are_read;
pub use versions::{derivations_show, version_removals_show, writes_show};
