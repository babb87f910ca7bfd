//! One page of records: entries in rising order of their keys, in a fixed number of bytes, edited in place.
#![tactic(auto)]

mod edits;
mod examples;
mod laws;
mod layout;
mod page;
mod place;
mod reader;

pub use examples::second_of_two;
pub use laws::{one_page, read_again};
pub use layout::{COUNT_LEN, MAX_SIZE, MIN_SIZE};
pub use page::{NoRoom, PageOf};
pub use reader::Reader;
