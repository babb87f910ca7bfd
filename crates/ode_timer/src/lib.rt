//! Instants, and which clock events are due.
#![tactic(auto)]

mod ahead;
mod calendar;
mod clock;

pub use ahead::due;
pub use calendar::{BadInstant, instant};
pub use clock::{Clock, DueError, TimeRow};
