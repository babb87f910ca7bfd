//! The heights of texts, and where one is too high.
#![tactic(auto)]

mod deep;
mod effect;
mod height;
mod least;

pub use deep::first_too_deep;
pub use effect::{Effect, effect_of};
pub use height::{HEIGHT_LIMIT, Height, Heights};
