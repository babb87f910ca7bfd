//! Changes of classes: read, and the classes behind one.
#![tactic(auto)]

mod changing;
mod parser;

pub use changing::{change_class, with_change};
pub use ode_classyn::SyntaxError;
pub use parser::parse_change;
