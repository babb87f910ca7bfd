//! A class that is read is read again from its printed text, its numbers are in their ranges and its triggers have few parameters. Each
//! law is carried by the contract of a function that does nothing.
#![tactic(auto)]

mod laws;

pub use laws::{
    numbers_of_classes_are_in_range, parameters_of_classes_are_few,
    statements_of_classes_are_read_again,
};
