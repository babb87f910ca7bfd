//! What typing gives of classes that were checked one behind the other.
#![tactic(auto)]

mod laws;

pub use laws::checked_classes_are_typed;
