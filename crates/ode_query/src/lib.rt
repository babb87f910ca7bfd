//! Queries over the objects of classes.
#![tactic(auto)]

mod answering;
mod checking;
mod combination;
mod error;
mod gathering;
mod instances;
mod lookup;
mod row;
mod text;

pub use answering::{COMBINATION_LIMIT, answer};
pub use checking::{check_query, query_literals};
pub use error::QueryError;
pub use ode_index::Index;
pub use row::Row;
pub use text::{rows_text, unanswered_text};
