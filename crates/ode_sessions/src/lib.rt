//! A run of a script of sessions, whose transactions are open side by side over one database.
#![tactic(auto)]

mod lines;
mod multi;
mod run;
mod serial;
mod speaking;
mod usage;

pub use multi::run_multi;
pub use ode_begin::words_of;
pub use usage::multi_word;
