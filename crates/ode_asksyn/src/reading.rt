//! The queries and comparisons of pieces.
ghost use Rattle.std.specs.Prelude.{◌≡◌, ◌<◌, ◌^◌, length};
ghost use Rattle.ode_asksyn.specs.Reading.{comparison_of, query_of, stop_of};
ghost use Rattle.ode_language.specs.Answers.{Answers};

use crate::parser::{parse_comparison, parse_query};
use crate::query::Query;
use ode_classyn::SyntaxError;
use ode_language::ReadStop;
use ode_syntax::Comparison;
use ode_value::Refusal;
use std::alloc::Global;

fn stop_of(error: SyntaxError) -> ReadStop
    ensures { result ≡ stop_of error }
{
    match error {
        SyntaxError::Memory => ReadStop::Memory,
        SyntaxError::NoToken { at } => ReadStop::Refused(Refusal::NoToken { at }),
        SyntaxError::At { at } => ReadStop::Refused(Refusal::Syntax { at }),
        SyntaxError::TooDeep { at } => ReadStop::Refused(Refusal::TooDeep { at }),
    }
}

/// The query of a piece of fewer than 2^32 bytes, with the semicolon that ends it, or the first refusal of its bytes: no token, no text
/// of the grammar, one that is too high. In time linear in its tokens.
#[tactic(auto, using(crate::proofs::ReadingLaws::query_is_refused))]
pub fn read_query(alloc: Global, text: &[u8]) -> Result<Query, ReadStop>
    requires { length text.now < 2 ^ 32 }
    ensures { Answers (query_of text.now) result }
{
    match parse_query(alloc, text) {
        Ok(query) => Ok(query),
        Err(error) => Err(stop_of(error)),
    }
}

/// The comparison of such a piece, or the first refusal of its bytes.
#[tactic(auto, using(crate::proofs::ReadingLaws::comparison_is_refused))]
pub fn read_comparison(alloc: Global, text: &[u8]) -> Result<Comparison, ReadStop>
    requires { length text.now < 2 ^ 32 }
    ensures { Answers (comparison_of text.now) result }
{
    match parse_comparison(alloc, text) {
        Ok(comparison) => Ok(comparison),
        Err(error) => Err(stop_of(error)),
    }
}
