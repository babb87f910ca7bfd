//! The declared classes, as a running transaction looks into them.
#![tactic(auto)]

mod constraints;
mod laws;
mod line;
mod program;
mod schema;
mod triggers;

pub use constraints::Constraints;
pub use laws::{fit_activations_have_tables, lookups_agree};
pub use program::{Program, inherits};
