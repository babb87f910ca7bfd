//! Right sides: calls, `pnew`, `newversion`, `activate` and expressions.
ghost use Rattle.std.specs.Prelude.{◌≡◌, ◌+◌, IfOk, List as Items, Ok, Some, ℕ, drop};
ghost use Rattle.std.specs.List.{list_any};
ghost use Rattle.std.specs.Option.{option_copied};
ghost use Rattle.std.specs.Str.{bytes_eq};
ghost use Rattle.ode_value.specs.declared.statement.Expr.{Expr as Tree};
ghost use Rattle.ode_types.specs.Answers.{Answers, AnswersWith};
ghost use Rattle.ode_types.specs.Rights.{activated, argument, arguments, call_from, call_of, made, made_of, method_call, right, setting, settings, trigger_activated};
ghost use Rattle.ode_typing.specs.Places.{scope_of};
ghost use Rattle.ode_types.specs.Typing.{fitting, reference};

use crate::place::{Locals, Place};
use crate::sorts::{class_of, fits, is_reference};
use crate::typing::{check_expr, expr_of};
use ode_types::families::{field_named, method_named, trigger_named};
use ode_types::stop::{boxed, unboxed, unknown, where_holds, wrong};
use ode_types::{CheckStop, Right, Typed};
use ode_value::{Boxed, Call, Class, Expr, List, Method, Name, Param, Rhs, Sort, TriggerDecl};
use std::alloc::{AllocError, Global};

/// An expression that fits a sort.
#[tactic(auto, using(ode_types::proofs::TypingLaws::stops_through), unfolding(ode_types::specs::Typing::fitting))]
pub fn fitting(
    alloc: Global,
    wanted: &Sort,
    e: &Expr,
    place: &Place,
    locals: &Locals,
) -> Result<Boxed<Expr>, CheckStop>
    ensures { Answers (fitting wanted.now e.now (scope_of place.now locals.now)) result }
{
    let checked = check_expr(alloc, e, place, locals)?;
    let fit = fits(&place.known, &checked.get().sort, wanted);
    where_holds(alloc, fit, expr_of(checked), place.member)
}

/// A reference, which may be null.
#[tactic(auto, using(ode_types::proofs::TypingLaws::stops_through), unfolding(ode_types::specs::Typing::reference))]
pub(crate) fn reference(
    alloc: Global,
    e: &Expr,
    place: &Place,
    locals: &Locals,
) -> Result<Boxed<Typed>, CheckStop>
    ensures { Answers (reference e.now (scope_of place.now locals.now)) result }
{
    let checked = check_expr(alloc, e, place, locals)?;
    let fit = is_reference(&checked.get().sort);
    where_holds(alloc, fit, checked, place.member)
}

// An argument against the parameter at its place.
#[tactic(auto, using(ode_types::proofs::TypingLaws::stops_through, ode_types::proofs::TurnLaws::drop_there, ode_types::proofs::TurnLaws::drop_none))]
fn argument(
    alloc: Global,
    params: &[Param],
    i: usize,
    e: &Expr,
    place: &Place,
    locals: &Locals,
) -> Result<Boxed<Expr>, CheckStop>
    ensures { AnswersWith (argument (scope_of place.now locals.now) (drop i params.now) e.now) (drop (i + 1) params.now) result }
{
    match params.get(i) {
        Some(param) => fitting(alloc, &param.sort, e, place, locals),
        None => {
            check_expr(alloc, e, place, locals)?;
            wrong(alloc, place.member)
        }
    }
}

// Arguments, each against its parameter. One too many is checked before it is wrong.
fn arguments(
    alloc: Global,
    params: &[Param],
    args: &[Expr],
    place: &Place,
    locals: &Locals,
) -> Result<List<Expr>, CheckStop>
    ensures { Answers (arguments (scope_of place.now locals.now) params.now args.now) result }
{
    let mut checked = List::new(alloc);
    for i in 0..args.len() {
        let next = argument(alloc, params, i, &args[i], place, locals)?;
        checked.push(next.into_inner())?;
    }
    if args.len() < params.len() {
        return wrong(alloc, place.member);
    }
    Ok(checked)
}

fn is_set(sets: &[(Name, Expr)], name: &Name) -> bool
    ensures { result ≡ list_any (λ (s : Items ℕ × Tree). bytes_eq s.0 name.now) sets.now }
{
    sets.iter().any(|set| set.0.same(name))
}

// The value of a field that a `pnew` names. None of those before it has the name.
#[tactic(auto, using(ode_types::proofs::TypingLaws::stops_through), unfolding(ode_types::specs::Rights::setting))]
fn setting(
    alloc: Global,
    class: &Class,
    before: &[(Name, Expr)],
    set: &(Name, Expr),
    place: &Place,
    locals: &Locals,
) -> Result<Boxed<(Name, Expr)>, CheckStop>
    ensures { Answers (setting (scope_of place.now locals.now) class.now before.now set.now) result }
{
    let Some((_, field)) = field_named(class.fields.as_slice(), &set.0) else {
        return unknown(alloc, &set.0);
    };
    if is_set(before, &set.0) {
        return wrong(alloc, place.member);
    }
    let value = fitting(alloc, &field.sort, &set.1, place, locals)?;
    let name = set.0.copy(alloc)?;
    boxed(alloc, (name, value.into_inner()))
}

fn settings(
    alloc: Global,
    class: &Class,
    sets: &[(Name, Expr)],
    place: &Place,
    locals: &Locals,
) -> Result<List<(Name, Expr)>, CheckStop>
    ensures { Answers (settings (scope_of place.now locals.now) class.now sets.now) result }
{
    let mut checked = List::new(alloc);
    for set in sets {
        let next = setting(alloc, class, checked.as_slice(), set, place, locals)?;
        checked.push(next.into_inner())?;
    }
    Ok(checked)
}

// A checked right side with its value's sort.
fn gives(alloc: Global, rhs: Rhs, sort: Option<Sort>) -> Result<Boxed<Right>, CheckStop>
    ensures { Answers (Ok (record { rhs = rhs; sort = sort })) result }
{
    let rhs = Boxed::new(alloc, rhs)?;
    boxed(alloc, Right { rhs, sort })
}

/// The right side that was checked, without its sort.
pub(crate) fn rhs_of(checked: Boxed<Right>) -> Boxed<Rhs>
    ensures { result ≡ checked.rhs }
{
    checked.into_inner().rhs
}

// A call of a method with its arguments, and the sort of what it gives.
fn called(
    alloc: Global,
    of: Option<Boxed<Expr>>,
    method: &Method,
    call: &Call,
    args: List<Expr>,
) -> Result<Boxed<Right>, CheckStop>
    ensures { Answers (Ok (record { rhs = Rhs.Call (record { of = of; method = call.now.method; args = args }); sort = Some method.now.result })) result }
{
    let (method, sort) = copy_call(alloc, &call.method, &method.result)?;
    let of = unboxed(of);
    gives(alloc, Rhs::Call(Call { of, method, args }), Some(sort))
}

fn copy_call(alloc: Global, name: &Name, sort: &Sort) -> Result<(Name, Sort), AllocError>
    ensures { IfOk result (λ parts. parts ≡ (name.now, sort.now)) }
{
    let name = name.copy(alloc)?;
    let sort = sort.copy(alloc)?;
    Ok((name, sort))
}

// A call of a method, behind its receiver.
#[tactic(auto, using(ode_types::proofs::TypingLaws::stops_through), unfolding(ode_types::specs::Rights::method_call))]
fn method_call(
    alloc: Global,
    of: Option<Boxed<Expr>>,
    method: &Method,
    call: &Call,
    place: &Place,
    locals: &Locals,
) -> Result<Boxed<Right>, CheckStop>
    ensures { Answers (method_call of method.now call.now (scope_of place.now locals.now)) result }
{
    let args = arguments(
        alloc,
        method.params.as_slice(),
        call.args.as_slice(),
        place,
        locals,
    )?;
    called(alloc, of, method, call, args)
}

#[tactic(auto, unfolding(ode_types::specs::Rights::call_of))]
fn call_of<'a>(
    alloc: Global,
    of: Option<Boxed<Expr>>,
    class: Option<&'a Class>,
    call: &Call,
    place: &Place<'a>,
    locals: &Locals,
) -> Result<Boxed<Right>, CheckStop>
    ensures { Answers (call_of of (option_copied class.entry) call.now (scope_of place.now locals.now)) result }
{
    let Some(class) = class else {
        return wrong(alloc, place.member);
    };
    match method_named(&place.known, class, &call.method) {
        Some(method) => method_call(alloc, of, method, call, place, locals),
        None => unknown(alloc, &call.method),
    }
}

#[tactic(auto, using(ode_types::proofs::TypingLaws::stops_through))]
fn call_from(
    alloc: Global,
    e: &Expr,
    call: &Call,
    place: &Place,
    locals: &Locals,
) -> Result<Boxed<Right>, CheckStop>
    ensures { Answers (call_from (Some e.now) call.now (scope_of place.now locals.now)) result }
{
    let of = check_expr(alloc, e, place, locals)?;
    let class = class_of(&place.known, &of.get().sort);
    call_of(alloc, Some(expr_of(of)), class, call, place, locals)
}

fn check_call(
    alloc: Global,
    call: &Call,
    place: &Place,
    locals: &Locals,
) -> Result<Boxed<Right>, CheckStop>
    ensures { Answers (call_from call.now.of call.now (scope_of place.now locals.now)) result }
{
    match &call.of {
        Some(e) => call_from(alloc, e, call, place, locals),
        None => call_of(alloc, None, place.class, call, place, locals),
    }
}

#[tactic(auto, using(ode_types::proofs::TypingLaws::stops_through), unfolding(ode_types::specs::Rights::trigger_activated))]
fn trigger_activated(
    alloc: Global,
    of: Boxed<Expr>,
    trigger: &TriggerDecl,
    name: &Name,
    given: &[Expr],
    place: &Place,
    locals: &Locals,
) -> Result<Boxed<Right>, CheckStop>
    ensures { Answers (trigger_activated of trigger.now name.now given.now (scope_of place.now locals.now)) result }
{
    let args = arguments(alloc, trigger.params.as_slice(), given, place, locals)?;
    let trigger = name.copy(alloc)?;
    let of = of.into_inner();
    gives(alloc, Rhs::Activate { of, trigger, args }, Some(Sort::Int))
}

#[tactic(auto, unfolding(ode_types::specs::Rights::activated))]
fn activated(
    alloc: Global,
    of: Boxed<Typed>,
    name: &Name,
    given: &[Expr],
    place: &Place,
    locals: &Locals,
) -> Result<Boxed<Right>, CheckStop>
    ensures { Answers (activated of name.now given.now (scope_of place.now locals.now)) result }
{
    let Some(class) = class_of(&place.known, &of.get().sort) else {
        return wrong(alloc, place.member);
    };
    match trigger_named(&place.known, class, name) {
        Some(trigger) => trigger_activated(alloc, expr_of(of), trigger, name, given, place, locals),
        None => unknown(alloc, name),
    }
}

// A new object of a class.
#[tactic(auto, using(ode_types::proofs::TypingLaws::stops_through), unfolding(ode_types::specs::Rights::made_of))]
fn made_of(
    alloc: Global,
    class: &Class,
    name: &Name,
    fields: &[(Name, Expr)],
    place: &Place,
    locals: &Locals,
) -> Result<Boxed<Right>, CheckStop>
    ensures { Answers (made_of class.now name.now fields.now (scope_of place.now locals.now)) result }
{
    let fields = settings(alloc, class, fields, place, locals)?;
    let class = name.copy(alloc)?;
    let sort = Sort::Reference(name.copy(alloc)?);
    gives(alloc, Rhs::New { class, fields }, Some(sort))
}

#[tactic(auto, unfolding(ode_types::specs::Rights::made))]
fn made(
    alloc: Global,
    name: &Name,
    fields: &[(Name, Expr)],
    place: &Place,
    locals: &Locals,
) -> Result<Boxed<Right>, CheckStop>
    ensures { Answers (made name.now fields.now (scope_of place.now locals.now)) result }
{
    match place.known.named(name) {
        Some(class) => made_of(alloc, class, name, fields, place, locals),
        None => unknown(alloc, name),
    }
}

/// A right side with slots for its names, and its value's sort; or the first rule that it breaks.
#[tactic(auto, using(ode_types::proofs::TypingLaws::stops_through), unfolding(ode_types::specs::Rights::right))]
pub(crate) fn check_rhs(
    alloc: Global,
    rhs: &Rhs,
    place: &Place,
    locals: &Locals,
) -> Result<Boxed<Right>, CheckStop>
    ensures { Answers (right rhs.now (scope_of place.now locals.now)) result }
{
    match rhs {
        Rhs::Plain(e) => {
            let checked = check_expr(alloc, e, place, locals)?;
            let Typed { expr, sort } = checked.into_inner();
            gives(alloc, Rhs::Plain(expr.into_inner()), sort)
        }
        Rhs::Call(call) => check_call(alloc, call, place, locals),
        Rhs::New { class, fields } => made(alloc, class, fields.as_slice(), place, locals),
        Rhs::NewVersion(e) => {
            let of = reference(alloc, e, place, locals)?;
            let Typed { expr, sort } = of.into_inner();
            gives(alloc, Rhs::NewVersion(expr.into_inner()), sort)
        }
        Rhs::Activate { of, trigger, args } => {
            let of = check_expr(alloc, of, place, locals)?;
            activated(alloc, of, trigger, args.as_slice(), place, locals)
        }
    }
}
