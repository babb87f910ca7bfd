//! Records in rising order are cut into pages, and these are spelled as one frame.
#![tactic(auto)]

mod cutting;
mod framing;
mod front;

pub use framing::{MAX_MOVED_BYTES, frame_of_pages};
