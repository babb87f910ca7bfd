//! That printed words, numbers, texts, references and marks are read again.
#![tactic(auto)]

mod laws;

pub use laws::{
    printed_marks_are_tokens, printed_numbers_are_tokens, printed_references_are_tokens,
    printed_texts_are_tokens, printed_words_are_tokens,
};
