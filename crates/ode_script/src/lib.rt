//! The pieces that a script is cut into, and the lines that a run prints.
#![tactic(auto)]

mod definitions;
mod lines;
mod reader;
mod texts;

pub use definitions::{scripts_end_by_themselves, the_limit_on_a_statement_comes_first};
pub use lines::{
    put_aborted, put_active, put_changed, put_class, put_committed, put_dropped, put_fired,
    put_new, put_said, put_value, put_version,
};
pub use reader::{Piece, Reader, ScriptError};
pub use texts::{reason_text, refusal_line};
