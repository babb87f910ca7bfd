//! Where a text is too high.
ghost use Rattle.std.specs.Prelude.{◌≡◌, ◌≤◌, IfOk, IfSome, IfNone, Some, None};
ghost use Rattle.ode_grammar.specs.Reading.{next, made_after};
ghost use Rattle.ode_grammar.specs.Texts.{IsText};
ghost use Rattle.ode_heights.specs.Depths.{IsTextWithin, IsTooDeepAt};
ghost use Rattle.ode_heights.specs.Heights.{heights, highest};
ghost use Rattle.ode_heights.specs.Lowest.{lowest};

use crate::effect::effect_of;
use crate::height::{HEIGHT_LIMIT, Heights};
use crate::least::{fits, is_least};
use ode_grammar::{Item, Stack, Start, Terminal, after, items_of, skipped};
use std::alloc::{AllocError, Global};

// What a token does.
#[derive(Clone, Copy, Debug, PartialEq, Eq)]
enum Step {
    /// It begins a row, and what has to come may be higher than before.
    Raised,
    /// It can come, and what has to come is as high as before.
    Level,
    /// It can't come.
    Refused,
}

// Goes on to what comes behind the token, where it can come.
fn advance(items: &mut Stack<Item>, made: &mut Heights, token: Terminal) -> Result<Step, AllocError>
    requires { highest (lowest items.old made.old) ≤ HEIGHT_LIMIT }
    ensures raised { IfOk result (λ step. step ≡ Step.Raised → (next items.old token ≡ Some items.new) × (made.new ≡ made_after heights items.old made.old token)) }
    ensures level { IfOk result (λ step. step ≡ Step.Level → (next items.old token ≡ Some items.new) × (made.new ≡ made_after heights items.old made.old token)) }
    ensures same { IfOk result (λ step. step ≡ Step.Level → lowest items.new made.new ≡ lowest items.old made.old) }
    ensures refused { IfOk result (λ step. step ≡ Step.Refused → next items.old token ≡ None) }
{
    while let Some(item) = items.pop() {
        match item {
            Item::Token(terminal) => {
                return Ok(if token.stands_for(terminal) {
                    Step::Level
                } else {
                    Step::Refused
                });
            }
            Item::Build(action) => made.raise(effect_of(action))?,
            Item::Part(part) => match after(part, token) {
                Some(row) => {
                    items.push_all(row)?;
                    return Ok(if is_least(part, row) {
                        Step::Level
                    } else {
                        Step::Raised
                    });
                }
                None => match skipped(part) {
                    Some(action) => made.raise(effect_of(action))?,
                    None => return Ok(Step::Refused),
                },
            },
        }
    }
    Ok(Step::Refused)
}

/// The first token with which no text of at most `HEIGHT_LIMIT` goes on, where the tokens are a text; none: the text is within the limit.
pub fn first_too_deep(
    alloc: Global,
    start: Start,
    tokens: &[Terminal],
) -> Result<Option<usize>, AllocError>
    ensures some { IfOk result (λ found. IfSome found (λ at. IsTooDeepAt HEIGHT_LIMIT start tokens.now at)) }
    ensures none { IfOk result (λ found. IfNone found (IsText start tokens.now → IsTextWithin HEIGHT_LIMIT start tokens.now)) }
{
    let mut items = Stack::new(alloc);
    items.push_all(items_of(start))?;
    let mut made = Heights::new(alloc);
    for at in 0..tokens.len() {
        match advance(&mut items, &mut made, tokens[at])? {
            Step::Level => {}
            Step::Raised => {
                if !fits(alloc, &items, &made)? {
                    return Ok(Some(at));
                }
            }
            Step::Refused => return Ok(None),
        }
    }
    Ok(None)
}
