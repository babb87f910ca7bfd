//! Classes that the static rules accept are sound, and so is the language of the static rules. Each law is carried by the contract of a
//! function that does nothing.
#![tactic(auto)]

mod classes;

pub use classes::{accepted_classes_are_sound, static_rules_are_sound};
