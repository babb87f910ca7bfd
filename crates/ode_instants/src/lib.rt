//! That printed instants are read again.
#![tactic(auto)]

mod laws;

pub use laws::printed_instants_are_read;
