//! A script made from a number, and a text as the source of a script.
#![tactic(auto)]

mod definitions;
mod generation;
mod text_source;

pub use definitions::{generated_scripts_end, small_scripts, the_limit_agrees};
pub use generation::{GEN_LIMIT, gen_line, gen_script};
pub use text_source::TextSource;
