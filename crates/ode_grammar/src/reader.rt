//! A reader of tokens: how far they are the beginning of a text of the grammar. It keeps what may still come on a stack and calls itself nowhere.
ghost use Rattle.std.specs.Prelude.{◌≡◌, IfOk, Some, None, true, false};
ghost use Rattle.ode_grammar.specs.Grammar.{items_of};
ghost use Rattle.ode_grammar.specs.Reading.{next, may_stop};
ghost use Rattle.ode_grammar.specs.Texts.{IsExtent};

use crate::change_rows::change;
use crate::comparison_rows::comparison;
use crate::grammar::{after, skipped};
use crate::item::Item::{self, Part as A};
use crate::item::Part;
use crate::query_rows::query;
use crate::stack::Stack;
use crate::terminal::Terminal;
use std::alloc::{AllocError, Global};

/// What is to be read.
#[derive(Clone, Copy, Debug, PartialEq, Eq)]
pub enum Start {
    Expr,
    Event,
    Class,
    Change,
    Query,
    Comparison,
    Statement,
}

/// How far tokens are the beginning of a text.
#[derive(Clone, Copy, Debug, PartialEq, Eq)]
pub struct Extent {
    /// The number of tokens with which some text begins, and with one more none.
    pub end: usize,
    /// Whether these tokens are a text themselves.
    pub is_text: bool,
}

/// What is to come at the beginning.
#[tactic(auto, unfolding(crate::specs::Grammar::items_of))]
pub fn items_of(start: Start) -> &'static [Item]
    ensures { result.now ≡ items_of start }
{
    match start {
        Start::Expr => &[A(Part::Expr)],
        Start::Event => &[A(Part::EventUnary), A(Part::EventAnds), A(Part::EventOrs)],
        Start::Class => &[A(Part::Class)],
        Start::Change => change(),
        Start::Query => query(),
        Start::Comparison => comparison(),
        Start::Statement => &[A(Part::Statement)],
    }
}

// What a token does.
#[derive(Clone, Copy, Debug, PartialEq, Eq)]
enum Step {
    /// It can come, and is taken.
    Taken,
    /// It can't come, and nothing more has to.
    Over,
    /// It can't come, and something else has to.
    Wrong,
}

// Goes on to what comes behind the token, where it can come.
fn advance(items: &mut Stack<Item>, token: Terminal) -> Result<Step, AllocError>
    ensures taken { IfOk result (λ step. step ≡ Step.Taken → next items.old token ≡ Some items.new) }
    ensures over { IfOk result (λ step. step ≡ Step.Over → (next items.old token ≡ None) × (may_stop items.old ≡ true)) }
    ensures wrong { IfOk result (λ step. step ≡ Step.Wrong → (next items.old token ≡ None) × (may_stop items.old ≡ false)) }
{
    while let Some(item) = items.pop() {
        match item {
            Item::Token(terminal) => {
                return Ok(if token.stands_for(terminal) {
                    Step::Taken
                } else {
                    Step::Wrong
                });
            }
            Item::Build(_) => {}
            Item::Part(part) => match after(part, token) {
                Some(row) => {
                    items.push_all(row)?;
                    return Ok(Step::Taken);
                }
                None => {
                    if skipped(part).is_none() {
                        return Ok(Step::Wrong);
                    }
                }
            },
        }
    }
    Ok(Step::Over)
}

// Whether nothing more has to come.
fn may_stop(items: &mut Stack<Item>) -> bool
    ensures { result ≡ may_stop items.old }
{
    while let Some(item) = items.pop() {
        match item {
            Item::Token(_) => return false,
            Item::Build(_) => {}
            Item::Part(part) => {
                if skipped(part).is_none() {
                    return false;
                }
            }
        }
    }
    true
}

/// How far the tokens are the beginning of a text of this sort, in time linear in their number.
pub fn extent_of(alloc: Global, start: Start, tokens: &[Terminal]) -> Result<Extent, AllocError>
    ensures { IfOk result (λ found. IsExtent start tokens.now found) }
{
    let mut items = Stack::new(alloc);
    items.push_all(items_of(start))?;
    for end in 0..tokens.len() {
        match advance(&mut items, tokens[end])? {
            Step::Taken => {}
            Step::Over => return Ok(Extent { end, is_text: true }),
            Step::Wrong => return Ok(Extent {
                end,
                is_text: false,
            }),
        }
    }
    let is_text = may_stop(&mut items);
    Ok(Extent {
        end: tokens.len(),
        is_text,
    })
}
