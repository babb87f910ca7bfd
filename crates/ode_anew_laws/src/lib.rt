//! What holds of classes that are checked anew behind a change of one of them: each is what it was, but for the new fields where it gets
//! them, its bodies, and the places in its masks. Each law is carried by the contract of a function that does nothing.
#![tactic(auto)]

mod laws;

pub use laws::{activations_are_watched, classes_come_out_anew, masks_name_own_fields};
