//! Statements and bodies.
ghost use Rattle.std.specs.Prelude.{◌≡◌, OnOk, length, take};
ghost use Rattle.ode_types.specs.Answers.{Answers, AnswersWith};
ghost use Rattle.ode_types.specs.Bodies.{body, body_checked, checks, deactivate_checked, let_checked, return_checked, set_as, set_checked, show_checked};
ghost use Rattle.ode_typing.specs.Places.{scope_of};

use crate::place::{Locals, Place};
use crate::rights::{check_rhs, fitting, reference, rhs_of};
use crate::sorts::{fits, is_void, starting};
use crate::typing::expr_of;
use ode_types::stop::{boxed, duplicate, unknown, wrong};
use ode_types::{CheckStop, Right};
use ode_value::{Boxed, Expr, List, Rhs, Sort, Stmt, Var};
use std::alloc::Global;

// A `let`. Its name is seen behind it.
#[tactic(auto, using(ode_types::proofs::TypingLaws::stops_with, ode_types::proofs::TurnLaws::kept_more), unfolding(ode_types::specs::Bodies::let_checked))]
fn check_let(
    alloc: Global,
    var: &Var,
    rhs: &Rhs,
    place: &Place,
    locals: &mut Locals,
) -> Result<Boxed<Stmt>, CheckStop>
    ensures answers { AnswersWith (let_checked var.now rhs.now (scope_of place.now locals.old)) (scope_of place.now locals.new) result }
    ensures kept { OnOk result (take (length locals.old.seen) locals.new.seen ≡ locals.old.seen) }
{
    let Var::Name(name) = var else {
        return wrong(alloc, place.member);
    };
    if locals.named(name).is_some() {
        return duplicate(alloc, name);
    }
    let right = check_rhs(alloc, rhs, place, locals)?;
    let Right { rhs, sort } = right.into_inner();
    match starting(sort) {
        Some(sort) if locals.has_slot() => {
            let slot = locals.add(alloc, name, sort)?;
            boxed(alloc, Stmt::Let(Var::Local(slot), rhs.into_inner()))
        }
        _ => wrong(alloc, place.member),
    }
}

// An assignment to what stands for a name.
#[tactic(auto, using(ode_types::proofs::TypingLaws::stops_with))]
fn set_as(
    alloc: Global,
    var: Var,
    sort: &Sort,
    rhs: &Rhs,
    place: &Place,
    locals: &Locals,
) -> Result<Boxed<Stmt>, CheckStop>
    ensures { AnswersWith (set_as var sort.now rhs.now (scope_of place.now locals.now)) (scope_of place.now locals.now) result }
{
    let right = check_rhs(alloc, rhs, place, locals)?;
    if fits(&place.known, &right.get().sort, sort) {
        boxed(alloc, Stmt::Set(var, rhs_of(right).into_inner()))
    } else {
        wrong(alloc, place.member)
    }
}

#[tactic(auto, unfolding(ode_types::specs::Bodies::set_checked))]
fn check_set(
    alloc: Global,
    var: &Var,
    rhs: &Rhs,
    place: &Place,
    locals: &Locals,
) -> Result<Boxed<Stmt>, CheckStop>
    ensures { AnswersWith (set_checked var.now rhs.now (scope_of place.now locals.now)) (scope_of place.now locals.now) result }
{
    let Var::Name(name) = var else {
        return wrong(alloc, place.member);
    };
    match place.meaning(alloc, locals, name)? {
        Some((var, sort)) => set_as(alloc, var, &sort, rhs, place, locals),
        None => unknown(alloc, name),
    }
}

#[tactic(auto, using(ode_types::proofs::TypingLaws::stops_through), unfolding(ode_types::specs::Bodies::return_checked))]
fn check_return(
    alloc: Global,
    e: &Option<Expr>,
    place: &Place,
    locals: &Locals,
) -> Result<Boxed<Stmt>, CheckStop>
    ensures { Answers (return_checked e.now (scope_of place.now locals.now)) result }
{
    match e {
        Some(e) => {
            let value = fitting(alloc, place.result, e, place, locals)?;
            boxed(alloc, Stmt::Return(Some(value.into_inner())))
        }
        None => match place.result {
            Sort::Void => boxed(alloc, Stmt::Return(None)),
            _ => wrong(alloc, place.member),
        },
    }
}

#[tactic(auto, using(ode_types::proofs::TypingLaws::stops_through), unfolding(ode_types::specs::Bodies::show_checked))]
fn check_show(
    alloc: Global,
    rhs: &Rhs,
    place: &Place,
    locals: &Locals,
) -> Result<Boxed<Stmt>, CheckStop>
    ensures { Answers (show_checked rhs.now (scope_of place.now locals.now)) result }
{
    let right = check_rhs(alloc, rhs, place, locals)?;
    if is_void(&right.get().sort) {
        wrong(alloc, place.member)
    } else {
        boxed(alloc, Stmt::Show(rhs_of(right).into_inner()))
    }
}

#[tactic(auto, using(ode_types::proofs::TypingLaws::stops_through), unfolding(ode_types::specs::Bodies::deactivate_checked))]
fn check_deactivate(
    alloc: Global,
    e: &Expr,
    f: &Expr,
    place: &Place,
    locals: &Locals,
) -> Result<Boxed<Stmt>, CheckStop>
    ensures { Answers (deactivate_checked e.now f.now (scope_of place.now locals.now)) result }
{
    let of = reference(alloc, e, place, locals)?;
    let number = fitting(alloc, &Sort::Int, f, place, locals)?;
    boxed(
        alloc,
        Stmt::Deactivate(expr_of(of).into_inner(), number.into_inner()),
    )
}

/// A statement with slots for its names, or the first rule that it breaks. What it declares is seen behind it.
#[cycle(statements)]
#[tactic(auto, using(crate::proofs::StatementLaws::statements))]
pub fn check_stmt(
    alloc: Global,
    s: &Stmt,
    place: &Place,
    locals: &mut Locals,
) -> Result<Boxed<Stmt>, CheckStop>
    ensures answers { AnswersWith (checks s.now (scope_of place.now locals.old)) (scope_of place.now locals.new) result }
    ensures kept { OnOk result (take (length locals.old.seen) locals.new.seen ≡ locals.old.seen) }
{
    match s {
        Stmt::Let(var, rhs) => check_let(alloc, var, rhs, place, locals),
        Stmt::Set(var, rhs) => check_set(alloc, var, rhs, place, locals),
        Stmt::Do(rhs) => {
            let right = check_rhs(alloc, rhs, place, locals)?;
            boxed(alloc, Stmt::Do(rhs_of(right).into_inner()))
        }
        Stmt::If(test, first, second) => {
            let test = fitting(alloc, &Sort::Bool, test, place, locals)?;
            let first = check_body(alloc, first.as_slice(), place, locals)?;
            let second = check_body(alloc, second.as_slice(), place, locals)?;
            boxed(alloc, Stmt::If(test.into_inner(), first, second))
        }
        Stmt::Return(e) => check_return(alloc, e, place, locals),
        Stmt::Delete(e) => {
            let of = reference(alloc, e, place, locals)?;
            boxed(alloc, Stmt::Delete(expr_of(of).into_inner()))
        }
        Stmt::DropVersion(e) => {
            let of = reference(alloc, e, place, locals)?;
            boxed(alloc, Stmt::DropVersion(expr_of(of).into_inner()))
        }
        Stmt::Deactivate(e, f) => check_deactivate(alloc, e, f, place, locals),
        Stmt::Show(rhs) => check_show(alloc, rhs, place, locals),
        Stmt::Say(e) => {
            let text = fitting(alloc, &Sort::Text, e, place, locals)?;
            boxed(alloc, Stmt::Say(text.into_inner()))
        }
        Stmt::TAbort => boxed(alloc, Stmt::TAbort),
    }
}

/// A whole body.
#[tactic(auto, using(crate::proofs::StatementLaws::first_of))]
pub fn whole_body(
    alloc: Global,
    statements: &[Stmt],
    place: &Place,
    locals: Locals,
) -> Result<List<Stmt>, CheckStop>
    ensures { Answers (body statements.now (scope_of place.now locals)) result }
{
    let mut locals = locals;
    check_body(alloc, statements, place, &mut locals)
}

/// A body. Its locals aren't seen behind it, and keep their slots.
#[cycle(statements)]
pub(crate) fn check_body(
    alloc: Global,
    body: &[Stmt],
    place: &Place,
    locals: &mut Locals,
) -> Result<List<Stmt>, CheckStop>
    ensures answers { AnswersWith (body_checked body.now (scope_of place.now locals.old)) (scope_of place.now locals.new) result }
    ensures kept { OnOk result (locals.new.seen ≡ locals.old.seen) }
{
    let seen = locals.seen.len();
    let mut checked = List::new(alloc);
    for s in body {
        checked.push(check_stmt(alloc, s, place, locals)?.into_inner())?;
    }
    locals.forget(seen);
    Ok(checked)
}
