//! What is known of an overlay over records that show the world with which its transaction began: it goes on behind each call, and there each
//! call does on the view what the machine does. Each law is carried by the contract of a function that does nothing.
#![tactic(auto)]

mod activations;
mod beginning;
mod firings;
mod objects;
mod points;
mod rewinding;
mod versions;
mod worlds;

pub use activations::{activations_known, deactivations_known};
pub use beginning::{transactions_begin_known, views_read_known};
pub use firings::collections_known;
pub use objects::{makings_known, removals_known, touches_known};
pub use points::puts_known;
pub use rewinding::rewinds_known;
pub use versions::{derivations_known, version_removals_known, writes_known};
pub use worlds::worlds_known;
