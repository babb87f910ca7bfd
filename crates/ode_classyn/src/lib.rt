//! Classes and statements, read and printed.
#![tactic(auto)]

mod parser;

pub use ode_eventsyn::{SyntaxError, whole};
pub use ode_print::print_class;
pub use parser::{lexed, parse_class, parse_statement};
