//! The transaction that an overlay stands for, as a function of the world at its start. What the overlay does, seen so, is what the machine
//! does. Each law is carried by the contract of a function that does nothing.
#![tactic(auto)]

mod firings;
mod objects;
mod order;
mod views;

pub use firings::collections_show;
pub use objects::{makings_show, removals_show, touches_show};
pub use order::acts_keep_order;
pub use views::{overlays_have_views, transactions_begin_with_views};
