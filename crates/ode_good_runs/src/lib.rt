//! All worlds of a run from a good world are good. Each law is carried by the contract of a function that does nothing.
#![tactic(auto)]

mod runs;

pub use runs::runs_stay_good;
