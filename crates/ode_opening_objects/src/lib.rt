//! The objects, the activations and the queue of a database: whether their records, those of versions and the references in these keep the
//! rules.
#![tactic(auto)]

mod climbing;
mod fitting;
mod head;
mod numbers;
mod objects;
mod rules;
mod scene;
mod states;
mod triggers;

pub use head::Head;
pub use objects::check_objects;
