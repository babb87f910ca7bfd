//! Objects, whole, as a transaction has them: read, changed, taken back, weighed, and given as records.
#![tactic(auto)]

mod changing;
mod keys;
mod lengths;
mod loading;
mod object;
mod records;
mod rewinding;
mod tracked;
mod values;
mod weights;

pub use keys::{activation_key, activation_keys, object_key, object_keys, version_key, with_key};
pub use loading::{class_of, load, load_actives, load_fields};
pub use object::{Active, Fields, Object, Version};
pub use ode_heap::{Heap, HeapError, ObjectHead};
pub use records::{Becomes, put_becomes};
pub use tracked::{First, Tracked};
pub use values::{KeptArgs, KeptFields};
