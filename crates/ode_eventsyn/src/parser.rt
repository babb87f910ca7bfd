//! Expressions and event expressions among the tokens of a text.
ghost use Rattle.std.specs.Prelude.{◌≡◌, ◌≤◌, ◌<◌, ◌+◌, ◌-◌, ◌^◌, drop, length, IfOk, IfErr};
ghost use Rattle.ode_grammar.specs.declared.reader.Start.TheVariants as start;
ghost use Rattle.ode_syntax.specs.declared.trees.Trees.{Trees};
ghost use Rattle.ode_syntax.specs.Built.{event_tree, tree};
ghost use Rattle.ode_terminals.specs.declared.seen.Place.TheVariants as place;
ghost use Rattle.ode_eventsyn.specs.Parsing.{IsLongest, IsWhy};

use crate::error::SyntaxError;
use crate::pieces::longest;
use ode_grammar::Start;
use ode_lex::Token;
use ode_terminals::Place;
use ode_value::{EventExpr, Expr, List};
use std::alloc::Global;

// The tokens from a place on.
fn behind(tokens: &List<Token>, from: usize) -> &[Token]
    ensures { result.now ≡ drop from tokens.now }
{
    tokens.as_slice().get(from..).unwrap_or(&[])
}

// The place so many tokens behind `from`, where there are that many.
fn place_behind(tokens: &List<Token>, from: usize, count: usize) -> usize
    ensures { count ≤ length tokens.now - from → result ≡ from + count }
{
    let most = tokens.len();
    if from < most && count <= most - from {
        from + count
    } else {
        from
    }
}

/// The longest expression among the tokens that begins at `from`, and the place of the token behind it. The text has fewer than 2^32 bytes.
pub fn parse_expr(
    alloc: Global,
    text: &[u8],
    tokens: &List<Token>,
    from: usize,
) -> Result<(Expr, usize), SyntaxError>
    requires { length text.now < 2 ^ 32 }
    ensures ok { IfOk result (λ found. (made : Trees) × IsLongest start.Expr place.Anywhere text.now (drop from tokens.now) (found.1 - from) made × (found.0 ≡ tree made.exprs)) }
    ensures err { IfErr result (λ e. IsWhy start.Expr place.Anywhere text.now (drop from tokens.now) e) }
{
    let (made, count) = longest(
        alloc,
        Start::Expr,
        Place::Anywhere,
        text,
        behind(tokens, from),
    )?;
    Ok((made.into_expr(), place_behind(tokens, from, count)))
}

/// The longest event expression among the tokens that begins at `from`, and the place of the token behind it. The text has fewer than 2^32 bytes.
pub fn parse_event(
    alloc: Global,
    text: &[u8],
    tokens: &List<Token>,
    from: usize,
) -> Result<(EventExpr, usize), SyntaxError>
    requires { length text.now < 2 ^ 32 }
    ensures ok { IfOk result (λ found. (made : Trees) × IsLongest start.Event place.Class text.now (drop from tokens.now) (found.1 - from) made × (found.0 ≡ event_tree made.events)) }
    ensures err { IfErr result (λ e. IsWhy start.Event place.Class text.now (drop from tokens.now) e) }
{
    let (made, count) = longest(
        alloc,
        Start::Event,
        Place::Class,
        text,
        behind(tokens, from),
    )?;
    Ok((made.into_event(), place_behind(tokens, from, count)))
}
