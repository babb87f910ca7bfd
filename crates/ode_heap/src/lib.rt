//! Objects, entries and counters, read through any keeper.
#![tactic(auto)]

mod activations;
mod counters;
mod error;
mod fields;
mod fitting;
mod heap;
mod laws;
mod looking;
mod object;
mod queue;
mod staging;

pub use error::HeapError;
pub use fields::Stamped;
pub use heap::Heap;
pub use laws::{
    objects_are_read_from_their_own_records, stored_databases_answer,
    values_that_fit_have_their_sorts,
};
pub use object::ObjectHead;
