//! The static rules of a comparison of two event expressions.
ghost use Rattle.ode_types.specs.Answers.{Answers};
ghost use Rattle.ode_types.specs.Comparing.{bare, check_compared, events_checked};
ghost use Rattle.ode_types.specs.Declaring.{knows_params};

use crate::declaring::needs_params;
use crate::events::check_event;
use crate::names::word;
use ode_types::stop::unknown;
use ode_types::{CheckStop, Classes};
use ode_typing::{Locals, Place};
use ode_value::{Class, ClassDecl, EventExpr, List, Name, Param, Sort};
use std::alloc::Global;

// Parameters differ, and their classes are known, as in a class of this name.
fn check_params(
    alloc: Global,
    known: &Classes,
    class: &Name,
    params: &[Param],
) -> Result<(), CheckStop>
    ensures { Answers (knows_params known.now (bare class.now) params.now) result }
{
    let name = class.copy(alloc)?;
    let decl = ClassDecl {
        name,
        parent: None,
        members: List::new(alloc),
    };
    needs_params(alloc, known, &decl, params)
}

// Both events of a class, with these parameters.
#[tactic(auto, using(ode_types::proofs::TypingLaws::stops_through, crate::proofs::MemberLaws::scope_is), unfolding(ode_types::specs::Comparing::events_checked))]
fn check_events(
    alloc: Global,
    known: &Classes,
    class: &Class,
    params: &[Param],
    first: &EventExpr,
    second: &EventExpr,
) -> Result<(EventExpr, EventExpr), CheckStop>
    ensures { Answers (events_checked known.now class.now params.now first.now second.now) result }
{
    let member = word(alloc, b"same")?;
    let void = Sort::Void;
    let place = Place::among(known, Some(class), &member, &void, &[]);
    let locals = Locals::of(alloc, params)?;
    let first = check_event(alloc, first, &place, &locals)?;
    let second = check_event(alloc, second, &place, &locals)?;
    Ok((first.into_inner(), second.into_inner()))
}

/// Two event expressions with slots for the names in their masks, each as the event of a trigger of a class with these parameters; or the
/// first static rule that is broken.
#[tactic(auto, using(ode_types::proofs::TypingLaws::stops_through), unfolding(ode_types::specs::Comparing::check_compared))]
pub fn check_compared(
    alloc: Global,
    known: &Classes,
    class: &Name,
    params: &List<Param>,
    first: &EventExpr,
    second: &EventExpr,
) -> Result<(EventExpr, EventExpr), CheckStop>
    ensures { Answers (check_compared known.now class.now params.now first.now second.now) result }
{
    let Some(found) = known.named(class) else {
        return unknown(alloc, class);
    };
    check_params(alloc, known, class, params.as_slice())?;
    check_events(alloc, known, found, params.as_slice(), first, second)
}
