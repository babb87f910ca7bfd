//! What a run needs of a file.
#![tactic(auto)]

mod opened;

pub use opened::{Opened, RUN_FORMAT};
