//! The static rules: a checked class, statement, query or comparison, or the first rule that it breaks.
#![tactic(auto)]

mod comparing;
mod declaring;
mod events;
mod members;
mod names;
mod references;
mod statics;
mod variables;

pub use comparing::check_compared;
pub use members::{check_class, check_grown};
pub use references::{literals, query_literals};
pub use statics::check_statement;
pub use variables::{check_shown, check_test, check_variables};
