//! Frames of settled transactions: spelled from a batch, cut from a stream, and read.
#![tactic(auto)]

mod cutting;
mod framing;
mod reading;

pub use cutting::{Cut, first_frame};
pub use framing::{HEAD_LEN, MAX_LENGTH, MIN_LENGTH, NUMBER_LEN, frame};
pub use reading::{Shipped, read_payload};
