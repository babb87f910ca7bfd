//! Expressions, right sides and statements where they stand: each with slots for its names, or the first static rule that it breaks.
#![tactic(auto)]

mod bodies;
mod place;
mod rights;
mod sorts;
mod typing;

pub use bodies::{check_stmt, whole_body};
pub use place::{Locals, Place};
pub use rights::fitting;
pub use typing::{check_expr, expr_of};
