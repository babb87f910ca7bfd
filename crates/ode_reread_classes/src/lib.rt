//! That printed classes and statements are read again.
#![tactic(auto)]

mod laws;

pub use laws::{
    bodies_are_read_again, classes_are_read_again, printed_classes_are_parsed,
    printed_statements_are_parsed, statements_are_read_again,
};
