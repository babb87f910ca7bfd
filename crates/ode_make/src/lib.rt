//! A file is made.
#![tactic(auto)]

mod make;

pub use make::{InitError, initialise};
