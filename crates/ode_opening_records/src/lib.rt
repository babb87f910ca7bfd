//! What the records of a keeper are opened to: all rules of an opening, one behind the other.
#![tactic(auto)]

mod base;
mod laws;
mod reading;

pub use base::Base;
pub use laws::{records_are_opened_to_one_thing, records_of_the_first_format_are_opened_alike};
pub use reading::open_records;
