//! How a run of a script ends: its status, and what is then printed and stored.
#![tactic(auto)]

mod saying;
mod statuses;

pub use saying::say;
pub use statuses::{ended_by, status_at_end, status_of_script};
