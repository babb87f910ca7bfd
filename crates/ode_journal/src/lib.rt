//! A journal of frames behind gates, of which a stop leaves none or a whole one.
#![tactic(auto)]

mod block;
mod error;
mod frame;
mod journal;
mod reading;

pub use block::Block;
pub use error::{AppendError, JournalError};
pub use frame::{FRAME_BYTES, FRAME_HEAD, Frame, LENGTH_LEN};
pub use journal::Journal;
pub use reading::{next_frame, scan};
