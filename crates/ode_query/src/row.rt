//! The rows of a query.
use ode_value::{List, Value};

/// A row of a query's answer.
#[derive(Drop)]
pub struct Row {
    pub values: List<Value>,
}
