//! Event expressions: the kinds of their leaves, and their masks.
ghost use Rattle.std.specs.Prelude.{◌≡◌, IfOk};
ghost use Rattle.std.specs.List.{list_any};
ghost use Rattle.std.specs.Option.{option_copied};
ghost use Rattle.ode_value.specs.Same.{same_kind};
ghost use Rattle.ode_types.specs.Answers.{Answers};
ghost use Rattle.ode_types.specs.Events.{event_method_in, event_params, is_listed, kind_method, leaf_listed, listed, mask};
ghost use Rattle.ode_types.specs.Scopes.{with_params};
ghost use Rattle.ode_typing.specs.Places.{scope_at, scope_of};

use ode_types::CheckStop;
use ode_types::families::method_named;
use ode_types::stop::{boxed, unboxed, wrong};
use ode_typing::{Locals, Place, fitting};
use ode_value::{Boxed, EventExpr, Expr, Kind, Method, Name, Sort};
use std::alloc::{AllocError, Global};

/// The method that a kind names.
pub(crate) fn kind_method(kind: &Kind) -> Option<&Name>
    ensures { option_copied result ≡ kind_method kind.now }
{
    match kind {
        Kind::Before(name) => Some(name),
        Kind::After(name) => Some(name),
        _ => None,
    }
}

/// Whether a kind is among these.
pub(crate) fn is_among(kind: &Kind, kinds: &[Kind]) -> bool
    ensures { result ≡ list_any (same_kind kind.now) kinds.now }
{
    kinds.iter().any(|other| kind.same(other))
}

// Whether the class lists a kind, or an ancestor does.
fn is_listed(kind: &Kind, place: &Place) -> bool
    ensures { result ≡ is_listed (scope_at place.now) kind.now }
{
    match place.class {
        Some(class) => is_among(kind, class.kinds.as_slice()),
        None => false,
    }
}

// The nearest method that a kind names.
fn event_method<'a>(kind: &Kind, place: &Place<'a>) -> Option<&'a Method>
    ensures { option_copied result ≡ event_method_in place.now.known (option_copied place.now.class) kind.now }
{
    match kind_method(kind) {
        Some(name) => match place.class {
            Some(class) => method_named(&place.known, class, name),
            None => None,
        },
        None => None,
    }
}

// The locals that a mask sees: the event's parameters behind those that are seen.
fn mask_locals(
    alloc: Global,
    kind: &Kind,
    place: &Place,
    locals: &Locals,
) -> Result<Locals, AllocError>
    ensures { IfOk result (λ inner. scope_of place.now inner ≡ with_params (event_params (scope_at place.now) kind.now) (scope_of place.now locals.now)) }
{
    let mut inner = locals.copy(alloc)?;
    if let Some(method) = event_method(kind, place) {
        inner.see(alloc, method.params.as_slice())?;
    }
    Ok(inner)
}

// A mask, which sees the event's parameters behind the trigger's, and is plain.
#[tactic(auto, using(ode_types::proofs::TypingLaws::stops_through), unfolding(ode_types::specs::Events::mask))]
fn mask(
    alloc: Global,
    kind: &Kind,
    test: &Option<Expr>,
    place: &Place,
    locals: &Locals,
) -> Result<Option<Boxed<Expr>>, CheckStop>
    ensures { Answers (mask kind.now test.now (scope_of place.now locals.now)) result }
{
    match test {
        Some(test) => {
            let inner = mask_locals(alloc, kind, place, locals)?;
            let checked = fitting(alloc, &Sort::Bool, test, &place.plain(), &inner)?;
            Ok(Some(checked))
        }
        None => Ok(None),
    }
}

#[tactic(auto, using(ode_types::proofs::TypingLaws::stops_through), unfolding(ode_types::specs::Events::leaf_listed))]
fn leaf(
    alloc: Global,
    kind: &Kind,
    test: &Option<Expr>,
    place: &Place,
    locals: &Locals,
) -> Result<Boxed<EventExpr>, CheckStop>
    ensures { Answers (leaf_listed kind.now test.now (scope_of place.now locals.now)) result }
{
    if !is_listed(kind, place) {
        return wrong(alloc, place.member);
    }
    let test = mask(alloc, kind, test, place, locals)?;
    let kind = kind.copy(alloc)?;
    boxed(alloc, EventExpr::Leaf(kind, unboxed(test)))
}

/// An event expression with slots for the names in its masks, or the first rule that it breaks.
#[tactic(auto, using(crate::proofs::EventLaws::listings), unfolding(ode_types::specs::Events::masked))]
pub(crate) fn check_event(
    alloc: Global,
    e: &EventExpr,
    place: &Place,
    locals: &Locals,
) -> Result<Boxed<EventExpr>, CheckStop>
    ensures { Answers (listed e.now (scope_of place.now locals.now)) result }
{
    match e {
        EventExpr::Leaf(kind, test) => leaf(alloc, kind, test, place, locals),
        EventExpr::Any => boxed(alloc, EventExpr::Any),
        EventExpr::First => boxed(alloc, EventExpr::First),
        EventExpr::Not(e) => {
            let e = check_event(alloc, e.get(), place, locals)?;
            boxed(alloc, EventExpr::Not(e))
        }
        EventExpr::And(e, f) => {
            let e = check_event(alloc, e.get(), place, locals)?;
            let f = check_event(alloc, f.get(), place, locals)?;
            boxed(alloc, EventExpr::And(e, f))
        }
        EventExpr::Or(e, f) => {
            let e = check_event(alloc, e.get(), place, locals)?;
            let f = check_event(alloc, f.get(), place, locals)?;
            boxed(alloc, EventExpr::Or(e, f))
        }
        EventExpr::Relative(e, f) => {
            let e = check_event(alloc, e.get(), place, locals)?;
            let f = check_event(alloc, f.get(), place, locals)?;
            boxed(alloc, EventExpr::Relative(e, f))
        }
        EventExpr::RelPlus(e) => {
            let e = check_event(alloc, e.get(), place, locals)?;
            boxed(alloc, EventExpr::RelPlus(e))
        }
        EventExpr::Prior(e, f) => {
            let e = check_event(alloc, e.get(), place, locals)?;
            let f = check_event(alloc, f.get(), place, locals)?;
            boxed(alloc, EventExpr::Prior(e, f))
        }
        EventExpr::Sequence(e, f) => {
            let e = check_event(alloc, e.get(), place, locals)?;
            let f = check_event(alloc, f.get(), place, locals)?;
            boxed(alloc, EventExpr::Sequence(e, f))
        }
        EventExpr::Pipe(e, f) => {
            let e = check_event(alloc, e.get(), place, locals)?;
            let f = check_event(alloc, f.get(), place, locals)?;
            boxed(alloc, EventExpr::Pipe(e, f))
        }
        EventExpr::Choose(n, e) => {
            let e = check_event(alloc, e.get(), place, locals)?;
            boxed(alloc, EventExpr::Choose(*n, e))
        }
        EventExpr::Every(n, e) => {
            let e = check_event(alloc, e.get(), place, locals)?;
            boxed(alloc, EventExpr::Every(*n, e))
        }
        EventExpr::Fa(e, f, g) => {
            let e = check_event(alloc, e.get(), place, locals)?;
            let f = check_event(alloc, f.get(), place, locals)?;
            let g = check_event(alloc, g.get(), place, locals)?;
            boxed(alloc, EventExpr::Fa(e, f, g))
        }
        EventExpr::FaAbs(e, f, g) => {
            let e = check_event(alloc, e.get(), place, locals)?;
            let f = check_event(alloc, f.get(), place, locals)?;
            let g = check_event(alloc, g.get(), place, locals)?;
            boxed(alloc, EventExpr::FaAbs(e, f, g))
        }
        EventExpr::Masked(e, test) => {
            let e = check_event(alloc, e.get(), place, locals)?;
            let test = fitting(alloc, &Sort::Bool, test, &place.plain(), locals)?;
            boxed(alloc, EventExpr::Masked(e, test.into_inner()))
        }
    }
}
