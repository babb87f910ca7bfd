//! The clock comes to an instant, over an opened file.
#![tactic(auto)]

mod clocking;
mod rows;
mod ticking;
mod ticks;

pub use clocking::set_clock;
