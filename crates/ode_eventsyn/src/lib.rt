//! Expressions and event expressions, read and printed.
#![tactic(auto)]

mod error;
mod parser;
mod pieces;

pub use error::SyntaxError;
pub use ode_print::{print_event, print_expr};
pub use parser::{parse_event, parse_expr};
pub use pieces::{longest, whole};
