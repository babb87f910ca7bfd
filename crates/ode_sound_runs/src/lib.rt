//! Type soundness of the clock and of declarations: the worlds that they leave are typed. Each law is carried by the contract of a
//! function that does nothing.
#![tactic(auto)]

mod runs;

pub use runs::clocks_and_classes_stay_typed;
