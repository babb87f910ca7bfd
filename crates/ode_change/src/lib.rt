//! A class gets fields over an opened file.
#![tactic(auto)]

mod anew;
mod bringing;
mod changing;
mod judging;
mod reading;
mod records;
mod taking;

pub use changing::change;
pub use ode_declare::declare;
