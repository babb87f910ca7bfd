//! Laws over runs of scripts, each until a stop: of the queue and of references. Each is carried by the contract of a function that does
//! nothing.
#![tactic(auto)]

mod queues;
mod stops;

pub use queues::queued_entries_run_once;
pub use stops::references_are_stable_over_stops;
