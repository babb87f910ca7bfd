//! Two event expressions compared: they fire on the same histories, or a word of symbols is told on which one alone fires.
#![tactic(auto)]

mod answering;
mod comparing;
mod error;
mod laws;
mod text;
mod verdict;

pub use answering::comparison_text;
pub use comparing::{alphabet_of_both, same};
pub use error::SameError;
pub use laws::same_is_same_on_histories;
pub use text::print_verdict;
pub use verdict::Verdict;
