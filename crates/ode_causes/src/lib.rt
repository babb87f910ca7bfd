//! What is printed of a file that breaks a rule: which rule, and where.
#![tactic(auto)]

mod lines;

pub use lines::{cause_line, format_line};
