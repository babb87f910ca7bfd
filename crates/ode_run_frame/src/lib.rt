//! Expressions, over a heap and an overlay.
#![tactic(auto)]

mod evaluation;
mod fault;
mod reading;
mod unread;

pub use evaluation::{Evaluated, evaluate};
pub use fault::reason_of;
pub use unread::Unread;
