//! Runs a script over a database file.
#![tactic(auto)]

mod call;
mod copying;
mod running;
mod top;

pub use call::file_word;
pub use ode_begin::words_of;
pub use top::run_ode;
