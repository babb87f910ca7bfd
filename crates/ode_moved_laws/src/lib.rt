//! What is checked where a class has more fields at a place comes out with its places moved. The law is carried by the contract of a
//! function that does nothing.
#![tactic(auto)]

mod laws;

pub use laws::more_fields_move_masks;
