//! That the rows of the grammar derive what its productions say, and nothing else.
#![tactic(auto)]

mod laws;

pub use laws::{
    changes_are_productions, classes_are_productions, comparisons_are_productions,
    events_are_productions, expressions_are_productions, queries_are_productions,
    statements_are_productions,
};
