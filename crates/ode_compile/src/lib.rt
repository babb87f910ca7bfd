//! A declared class, compiled: checked, within the limits, with a table and an alphabet for each of its triggers.
#![tactic(auto)]

mod compiling;
mod counting;
mod putting;
mod shrinking;
mod stop;
mod triggers;

pub use compiling::{Compiled, build_class, compile};
pub use counting::{piece_count, table_length};
pub use putting::put_behind;
pub use stop::CompileStop;
