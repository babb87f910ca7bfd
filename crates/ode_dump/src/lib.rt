//! What is printed of the records of a database: how many there are of some kinds, and each of them.
#![tactic(auto)]

mod check;
mod dump;
mod examples;
mod keys;
mod laws;
mod lines;
mod listing;
mod names;
mod numbers;
mod order;
mod search;

pub use check::check_text;
pub use dump::dump_text;
pub use examples::dump_examples;
pub use laws::tallied_records_decode;
