//! Queries and comparisons of event expressions: read.
#![tactic(auto)]

mod parser;
mod query;
mod reading;

pub use ode_classyn::SyntaxError;
pub use ode_language::ReadStop;
pub use ode_syntax::Comparison;
pub use parser::{parse_comparison, parse_query};
pub use query::Query;
pub use reading::{read_comparison, read_query};
