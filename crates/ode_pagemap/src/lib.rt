//! The keeper of files of pages: records in pages, and a journal of images of the pages that changed since.
#![tactic(auto)]

mod cache;
mod checkpoint;
mod getting;
mod keeping;
mod laws;
mod map;
mod placing;
mod plan;
mod ready;
mod reserving;
mod starting;
mod steps;
mod walking;

pub use laws::{alike_files, held_pages_fit};
pub use map::PageMap;
