//! Records, and the one spelling of each: a key and a value. What is stored of a world, as definitions.
#![tactic(auto)]

mod decoding;
mod encoding;
mod laws;
mod lengths;
mod outside;
mod passing;
mod reading;
mod record;
mod skipping;
mod sorts;
mod stored;
mod values;

pub use decoding::{decode, is_counters, is_record};
pub use encoding::encode;
pub use laws::one_spelling;
pub use lengths::{TABLE_HEAD_LEN, value_length, values_fit};
pub use passing::is_of_first;
pub use record::{
    Activation, BOOL_SORT, Counters, Entry, INT_SORT, REFERENCE_SORT, Record, TABLE_PLACES,
    TEXT_SORT,
};
pub use sorts::has_sort;
pub use stored::{fresh_databases_are_counters, held_worlds_are_good, stored_lengths_are_counts};
