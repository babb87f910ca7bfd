//! Syntax trees of texts of the grammar.
#![tactic(auto)]

mod asked;
mod change_trees;
mod class_trees;
mod content;
mod event_trees;
mod expression_trees;
mod kept;
mod reader;
mod statement_trees;
mod top;
mod trees;
mod words;

pub use asked::{Comparison, QueryParts};
pub use reader::read;
pub use trees::Trees;
