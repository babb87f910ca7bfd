//! The grammar: expressions, event expressions, classes, changes of classes, queries, comparisons and statements, over classes of tokens.
#![tactic(auto)]

mod change_rows;
mod class_rows;
mod comparison_rows;
mod event_rows;
mod expression_rows;
mod grammar;
mod item;
mod query_rows;
mod reader;
mod stack;
mod statement_rows;
mod terminal;

pub use grammar::{after, skipped};
pub use item::{Action, Item, Part};
pub use reader::{Extent, Start, extent_of, items_of};
pub use stack::Stack;
pub use terminal::Terminal;
