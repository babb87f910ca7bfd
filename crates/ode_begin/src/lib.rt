//! What a call does before it runs a script: its file is opened to go on over pages of the last format, or it is said why not.
#![tactic(auto)]

mod opening;
mod saying;
mod words;

pub use ode_file_laws::files_of_worlds_are_opened;
pub use opening::open_to_run;
pub use saying::{damaged, end_with, refuse};
pub use words::{is_file, words_of};
