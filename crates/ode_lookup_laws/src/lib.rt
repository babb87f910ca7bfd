//! What the machine looks up for a typed statement is there. Each law is carried by the contract of a function that does nothing.
#![tactic(auto)]

mod lookups;

pub use lookups::typed_names_are_found;
