//! Sessions with transactions that are open side by side over one database: their steps, and the end of their input.
#![tactic(auto)]

mod answer;
mod ending;
mod sessions;
mod stepping;
mod trying;

pub use answer::Answer;
pub use sessions::Sessions;
