//! What a comparison comes to: the text of its verdict, or a refusal.
ghost use Rattle.std.specs.Prelude.{◌≡◌, IfErr, IfOk, Ok, codes, true};
ghost use Rattle.ode_same.specs.Comparing.{comparison_text};
ghost use Rattle.ode_same.specs.Differing.{IsCause};
ghost use Rattle.ode_same.specs.Parts.{IsToldAs, place_name};
ghost use Rattle.ode_value.specs.Numbers.{has_numbers};

use crate::comparing::{alphabet_of_both, same_over};
use crate::error::SameError;
use crate::text::print_verdict;
use ode_value::{EventExpr, List, Name, OdeText, Refusal};
use std::alloc::{AllocError, Global};

// The name of these bytes, which are one.
fn name(alloc: Global, bytes: &[u8]) -> Result<Name, AllocError>
    ensures { IfOk result (λ name. name ≡ bytes.now) }
{
    match OdeText::new(alloc, bytes) {
        Ok(text) => match Name::new(text) {
            Some(name) => Ok(name),
            None => Err(AllocError),
        },
        Err(_) => Err(AllocError),
    }
}

// The name by which a refusal tells one of two expressions.
fn place_name(alloc: Global, second: bool) -> Result<Name, AllocError>
    ensures { IfOk result (λ name. name ≡ place_name second) }
{
    if second {
        name(alloc, b"second")
    } else {
        name(alloc, b"first")
    }
}

fn refusal_of(alloc: Global, error: SameError) -> Result<Refusal, AllocError>
    ensures { IfOk result (IsToldAs error) }
{
    match error {
        SameError::Memory => Err(AllocError),
        SameError::TooManySymbols { count } => {
            let trigger = name(alloc, b"same")?;
            Ok(Refusal::TooManySymbols { trigger, count })
        }
        SameError::TooManyStates { second } => {
            let trigger = place_name(alloc, second)?;
            Ok(Refusal::TooManyStates { trigger })
        }
    }
}

#[tactic(auto, using(crate::proofs::ComparingLaws::text_ok))]
fn text_of(alloc: Global, e: &EventExpr, f: &EventExpr) -> Result<List<u8>, SameError>
    requires first { has_numbers e.now ≡ true }
    requires second { has_numbers f.now ≡ true }
    ensures text { IfOk result (λ text. comparison_text e.now f.now ≡ Ok text) }
    ensures cause { IfErr result (IsCause e.now f.now) }
{
    let a = alphabet_of_both(alloc, e, f)?;
    let verdict = same_over(alloc, e, f, &a)?;
    Ok(print_verdict(alloc, &a, &verdict)?)
}

/// The text of what `same` says of two event expressions, or why they aren't compared.
#[tactic(auto, using(crate::proofs::ComparingLaws::text_stops))]
pub fn comparison_text(
    alloc: Global,
    e: &EventExpr,
    f: &EventExpr,
) -> Result<Result<List<u8>, Refusal>, AllocError>
    requires first { has_numbers e.now ≡ true }
    requires second { has_numbers f.now ≡ true }
    ensures { IfOk result (λ answer. answer ≡ comparison_text e.now f.now) }
{
    match text_of(alloc, e, f) {
        Ok(text) => Ok(Ok(text)),
        Err(error) => Ok(Err(refusal_of(alloc, error)?)),
    }
}
