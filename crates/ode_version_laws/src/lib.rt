//! What the overlay does with versions, what it shows, what it takes back and how much it grows are what the machine does, shows, takes back
//! and weighs. Each law is carried by the contract of a function that does nothing.
#![tactic(auto)]

mod growing;
mod reading;
mod rewinding;
mod versions;

pub use growing::{changed_objects_weighed_less, growths_are_the_worlds};
pub use reading::{held_worlds_are_shown, reads_follow};
pub use rewinding::{
    calls_remember_firsts, firsts_are_remembered, good_worlds_are_settled, rewinds_follow,
};
pub use versions::{
    calls_keep_versions, derivations_follow, version_removals_follow, writes_follow,
};
