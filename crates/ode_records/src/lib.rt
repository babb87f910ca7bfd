//! Records by their keys, in chunks of each kind.
#![tactic(auto)]

mod records;

pub use records::Records;
