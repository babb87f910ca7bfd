//! Passes over the records of a database in the order of their keys, and whether the records of its classes are complete.
#![tactic(auto)]

mod cause;
mod completeness;
mod error;
mod records;
mod tally;
mod walking;

pub use cause::Cause;
pub use completeness::{Part, class_count, complete, of_head};
pub use error::OpenError;
pub use records::{Found, record_in};
pub use tally::{Tally, is_light, read_tally};
pub use walking::{Pass, walk};
