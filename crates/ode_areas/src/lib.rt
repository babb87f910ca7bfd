//! The keeper of files of two areas: a snapshot, and a journal of what changed since.
#![tactic(auto)]

mod areas;
mod changing;
mod encode;
mod frames;
mod keeping;
mod map;
mod payload;
mod plan;
mod snapshot;
mod start;
mod steps;
mod to_one;

pub use areas::Areas;
