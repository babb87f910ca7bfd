//! The trees of states of an event expression: the first one, a step, the answer, and how many there are.
#![tactic(auto)]

mod codes;
mod copying;
mod count;
mod cursor;
mod growth;
mod laws;
mod machine;
mod order;
mod part;
mod set;

pub use count::count_trees;
pub use growth::{Reached, reach};
pub use laws::trees_answer_as_points;
pub use machine::{init, out, step};
pub use ode_value::StateTree;
