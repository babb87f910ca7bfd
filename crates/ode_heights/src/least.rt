//! The least height of what may still come.
ghost use Rattle.std.specs.Prelude.{◌≡◌, ◌≤◌, ◌<◌, [], ◌∷◌, IfOk, IfSome, OnOk, false, true};
ghost use Rattle.ode_heights.specs.declared.height.Heights.{Heights};
ghost use Rattle.ode_heights.specs.Heights.{highest};
ghost use Rattle.ode_heights.specs.Lowest.{least_effects, low_of, lowest, raised_all};

use crate::effect::{Effect, effect_of};
use crate::height::{HEIGHT_LIMIT, Heights};
use ode_grammar::{Item, Part, Stack};
use std::alloc::{AllocError, Global};

// What a least high text of a part does to heights.
fn least_effects(part: Part) -> &'static [Effect]
    ensures { result.now ≡ least_effects part }
{
    match part {
        Part::Statement
        | Part::InnerName
        | Part::ReturnValue
        | Part::Else
        | Part::CallDot
        | Part::Rhs
        | Part::ScriptRhs
        | Part::RhsName
        | Part::Class => &[Effect::Zero],
        Part::Chained => &[Effect::Leaf, Effect::Zero],
        Part::RhsDots => &[Effect::Plain],
        Part::RhsDot => &[Effect::Over, Effect::Plain],
        Part::EventUnary | Part::Mask | Part::Expr | Part::Unary => &[Effect::Leaf],
        _ => &[],
    }
}

// The effects behind the first one, where it is this one.
fn behind<'a>(effects: &'a [Effect], first: Effect) -> Option<&'a [Effect]>
    ensures { IfSome result (λ rest. effects.now ≡ first ∷ rest.now) }
{
    match effects {
        [effect, rest @ ..] if *effect == first => Some(rest),
        _ => None,
    }
}

// The effects behind those of an item, where the first ones are these.
#[tactic(auto, unfolding(crate::specs::Heights::raised))]
fn behind_item<'a>(effects: &'a [Effect], item: Item) -> Option<&'a [Effect]>
    ensures { IfSome result (λ rest. (heights : Heights) → raised_all effects.now heights ≡ raised_all rest.now (lowest (item ∷ []) heights)) }
{
    match item {
        Item::Token(_) => Some(effects),
        Item::Build(action) => match effect_of(action) {
            Effect::Nothing => Some(effects),
            effect => behind(effects, effect),
        },
        Item::Part(part) => match least_effects(part) {
            [] => Some(effects),
            [effect] => behind(effects, *effect),
            _ => None,
        },
    }
}

/// Whether a row of the part has the effects of a least high text of the part, and no others.
pub fn is_least(part: Part, row: &[Item]) -> bool
    ensures { result ≡ true → (heights : Heights) → lowest row.now heights ≡ low_of part heights }
{
    let mut effects = least_effects(part);
    for item in row {
        match behind_item(effects, *item) {
            Some(rest) => effects = rest,
            None => return false,
        }
    }
    effects.is_empty()
}

// Does these effects in order; false: a height is above the limit.
fn raise_all(heights: &mut Heights, effects: &[Effect]) -> Result<bool, AllocError>
    requires { highest heights.old ≤ HEIGHT_LIMIT }
    ensures raised { IfOk result (λ yes. yes ≡ true → heights.new ≡ raised_all effects.now heights.old) }
    ensures within { IfOk result (λ yes. yes ≡ true → highest heights.new ≤ HEIGHT_LIMIT) }
    ensures high { IfOk result (λ yes. yes ≡ false → HEIGHT_LIMIT < highest (raised_all effects.now heights.old)) }
{
    for effect in effects {
        heights.raise(*effect)?;
        if !heights.tops_fit() {
            return Ok(false);
        }
    }
    Ok(true)
}

/// Whether some text within the limit may still come.
pub fn fits(alloc: Global, items: &Stack<Item>, heights: &Heights) -> Result<bool, AllocError>
    requires { highest heights.now ≤ HEIGHT_LIMIT }
    ensures yes { IfOk result (λ yes. yes ≡ true → highest (lowest items.now heights.now) ≤ HEIGHT_LIMIT) }
    ensures no { IfOk result (λ yes. yes ≡ false → HEIGHT_LIMIT < highest (lowest items.now heights.now)) }
{
    let mut items = items.copy(alloc)?;
    let mut heights = heights.copy(alloc)?;
    while let Some(item) = items.pop() {
        match item {
            Item::Token(_) => {}
            Item::Build(action) => {
                if !raise_all(&mut heights, &[effect_of(action)])? {
                    return Ok(false);
                }
            }
            Item::Part(part) => {
                if !raise_all(&mut heights, least_effects(part))? {
                    return Ok(false);
                }
            }
        }
    }
    Ok(true)
}
