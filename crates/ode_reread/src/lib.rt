//! That printed trees are read again.
#![tactic(auto)]

mod laws;

pub use laws::{
    event_numbers_are_in_range, events_are_read_again, expressions_are_read_again,
    printed_events_are_parsed, printed_expressions_are_parsed,
};
