//! What the overlay does is what the machine does. Each law is carried by the contract of a function that does nothing.
#![tactic(auto)]

mod beginning;
mod collecting;
mod objects;

pub use beginning::transactions_begin_alike;
pub use collecting::firings_are_collected;
pub use objects::{makings_follow, removals_follow, touches_follow};
