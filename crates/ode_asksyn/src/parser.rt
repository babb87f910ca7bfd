//! The trees of queries and comparisons.
ghost use Rattle.std.specs.Prelude.{◌≡◌, ◌<◌, ◌^◌, length, IfOk, IfErr};
ghost use Rattle.ode_asksyn.specs.Parsing.{in_comparison, in_query, IsComparisonOf, IsQueryOf};
ghost use Rattle.ode_classyn.specs.Texts.{IsWhyNot};
ghost use Rattle.ode_grammar.specs.declared.reader.Start.TheVariants as start;

use crate::query::{Query, query_with};
use ode_classyn::{SyntaxError, lexed};
use ode_eventsyn::whole;
use ode_grammar::Start;
use ode_syntax::Comparison;
use ode_terminals::Place;
use std::alloc::Global;

/// The query of a text of fewer than 2^32 bytes, with the semicolon that ends it, in time linear in its tokens. It calls itself nowhere.
#[tactic(auto, using(ode_classyn::proofs::Causes::causes))]
pub fn parse_query(alloc: Global, text: &[u8]) -> Result<Query, SyntaxError>
    requires { length text.now < 2 ^ 32 }
    ensures ok { IfOk result (λ query. IsQueryOf text.now query) }
    ensures err { IfErr result (λ e. IsWhyNot start.Query in_query text.now e) }
{
    let found = lexed(alloc, text)?;
    let made = whole(alloc, Start::Query, Place::Query, text, found.as_slice())?;
    let query = query_with(alloc, made.into_query(alloc))?;
    Ok(query)
}

/// The comparison of a text of fewer than 2^32 bytes, with the semicolon that ends it, in time linear in its tokens. It calls itself
/// nowhere.
#[tactic(auto, using(ode_classyn::proofs::Causes::causes))]
pub fn parse_comparison(alloc: Global, text: &[u8]) -> Result<Comparison, SyntaxError>
    requires { length text.now < 2 ^ 32 }
    ensures ok { IfOk result (λ comparison. IsComparisonOf text.now comparison) }
    ensures err { IfErr result (λ e. IsWhyNot start.Comparison in_comparison text.now e) }
{
    let found = lexed(alloc, text)?;
    let made = whole(
        alloc,
        Start::Comparison,
        Place::Comparison,
        text,
        found.as_slice(),
    )?;
    let comparison = made.into_comparison(alloc)?;
    Ok(comparison)
}
