//! A run of a script over the machine's engine.
#![tactic(auto)]

mod run;
mod shipping;
mod tally;

pub use run::{run_quietly, run_script};
pub use shipping::ship_script;
pub use tally::Tally;
