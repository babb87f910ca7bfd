//! The trees of changes of classes.
ghost use Rattle.std.specs.Prelude.{◌≡◌, ◌<◌, ◌^◌, length, IfOk, IfErr};
ghost use Rattle.ode_evolve.specs.Texts.{in_change, IsChangeOf};
ghost use Rattle.ode_classyn.specs.Texts.{IsWhyNot};
ghost use Rattle.ode_grammar.specs.declared.reader.Start.TheVariants as start;

use ode_classyn::{SyntaxError, lexed, whole};
use ode_grammar::Start;
use ode_terminals::Place;
use ode_value::Change;
use std::alloc::Global;

/// The change of a class of a text of fewer than 2^32 bytes, with the semicolon that ends it, in time linear in its tokens. It calls
/// itself nowhere.
#[tactic(auto, using(ode_classyn::proofs::Causes::causes))]
pub fn parse_change(alloc: Global, text: &[u8]) -> Result<Change, SyntaxError>
    requires { length text.now < 2 ^ 32 }
    ensures ok { IfOk result (λ change. IsChangeOf text.now change) }
    ensures err { IfErr result (λ e. IsWhyNot start.Change in_change text.now e) }
{
    let found = lexed(alloc, text)?;
    let made = whole(alloc, Start::Change, Place::Change, text, found.as_slice())?;
    let change = made.into_change(alloc)?;
    Ok(change)
}
