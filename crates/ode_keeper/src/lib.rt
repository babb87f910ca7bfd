//! The keeper of a file of either layout: two areas, or pages.
#![tactic(auto)]

mod keeper;
mod keeping;
mod starting;

pub use keeper::{CACHE_PAGES, Keeper};
