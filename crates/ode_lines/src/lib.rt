//! The lines of a transaction, each as bytes of its own.
#![tactic(auto)]

mod lines;

pub use lines::{
    aborted_line, active_line, changed_line, class_line, committed_line, dropped_line, fired_line,
    new_line, said_line, value_line, version_line,
};
