//! Scripts of questions, which change nothing: each piece is read, answered over the world that the records hold, and printed.
#![tactic(auto)]

mod asked;
mod comparisons;
mod literals;
mod queries;
mod saying;
mod scripts;
mod stop;
mod turned;

pub use asked::Asked;
pub use scripts::answer_script;
