//! The order of values, rows in that order, and which numbers stand beside which values.
#![tactic(auto)]

mod index;
mod order;
mod sorting;

pub use index::Index;
pub use order::{value_cmp, values_cmp};
pub use sorting::sort_rows;
