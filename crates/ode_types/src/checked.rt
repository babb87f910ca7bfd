//! Checked expressions and right sides, with their sorts.
use ode_value::{Boxed, Expr, Rhs, Sort};

/// A checked expression and its sort. Null has no sort of its own.
#[derive(Drop)]
pub struct Typed {
    pub expr: Boxed<Expr>,
    pub sort: Option<Sort>,
}

/// A checked right side and the sort of its value.
#[derive(Drop)]
pub struct Right {
    pub rhs: Boxed<Rhs>,
    pub sort: Option<Sort>,
}
