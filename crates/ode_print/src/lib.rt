//! The printed text of expressions, event expressions, statements and classes.
#![tactic(auto, using(crate::proofs::Levels::joined_texts))]

mod class;
mod event;
mod expression;
mod instant;
mod listed;
mod put;
mod statement;
mod value;

pub use class::print_class;
pub use event::print_event;
pub use expression::print_expr;
pub use value::put_value;
