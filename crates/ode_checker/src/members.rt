//! The second pass over a class: bodies, constraints and triggers.
ghost use Rattle.std.specs.Prelude.{◌≡◌, ◌++◌, ◌∷◌, [], IfOk, Ok, OnOk, false, fold};
ghost use Rattle.std.specs.Option.{option_copied};
ghost use Rattle.ode_types.specs.Answers.{Answers, Leaves};
ghost use Rattle.ode_types.specs.Declaring.{with_added, with_member};
ghost use Rattle.ode_types.specs.Typing.{fitting};
ghost use Rattle.ode_types.specs.Kept.{IsTypedClass};
ghost use Rattle.ode_types.specs.Scopes.{member_scope, plain_scope};
ghost use Rattle.ode_typing.specs.Places.{scope_of};
ghost use Rattle.ode_types.specs.Static.{check_class, check_grown, checked_member, completed, constraint_checked, members_completed, method_checked, trigger_checked, trigger_within};

use crate::declaring::{begins, declared, field_of};
use crate::events::check_event;
use ode_types::stop::boxed;
use ode_types::{CheckStop, Classes, Known};
use ode_typing::{Locals, Place, fitting, whole_body};
use ode_value::{
    Added, Boxed, Class, ClassDecl, Constraint, EventExpr, Expr, Field, Kind, List, Member, Method,
    Name, Param, Ref, Sort, Stmt, TriggerDecl,
};
use std::alloc::{AllocError, Global};

// Where a member of a class stands.
fn member_place<'a>(
    known: &'a Classes,
    draft: &'a Class,
    name: &'a Name,
    returned: &'a Sort,
    literals: &'a [(Ref, u32)],
) -> Place<'a>
    ensures known { result.known ≡ known.now ++ draft.now ∷ [] }
    ensures class { option_copied result.class ≡ Some draft.now }
    ensures member { result.member.now ≡ name.now }
    ensures result { result.result.now ≡ returned.now }
    ensures plain { result.is_plain ≡ false }
    ensures literals { result.literals.now ≡ literals.now }
{
    Place {
        known: Known::new(known, Some(draft)),
        class: Some(draft),
        member: name,
        result: returned,
        is_plain: false,
        literals,
    }
}

// The same method with this body.
fn with_body(alloc: Global, method: &Method, body: List<Stmt>) -> Result<Boxed<Method>, AllocError>
    ensures { IfOk result (λ made. made ≡ record method.now { body = body }) }
{
    let (name, params) = copy_head(alloc, &method.name, &method.params)?;
    let result = method.result.copy(alloc)?;
    Boxed::new(
        alloc,
        Method {
            name,
            result,
            params,
            body,
        },
    )
}

#[tactic(auto, using(ode_types::proofs::TypingLaws::stops_through, crate::proofs::MemberLaws::scope_is), unfolding(ode_types::specs::Static::method_checked))]
fn check_method(
    alloc: Global,
    known: &Classes,
    draft: &Class,
    method: &Method,
) -> Result<Boxed<Method>, CheckStop>
    ensures { Answers (method_checked (known.now ++ draft.now ∷ []) draft.now method.now) result }
{
    let place = member_place(known, draft, &method.name, &method.result, &[]);
    let locals = Locals::of(alloc, method.params.as_slice())?;
    let body = whole_body(alloc, method.body.as_slice(), &place, locals)?;
    Ok(with_body(alloc, method, body)?)
}

// A constraint's test, which is plain.
#[tactic(auto, using(crate::proofs::MemberLaws::scope_is))]
fn check_test(
    alloc: Global,
    known: &Classes,
    draft: &Class,
    constraint: &Constraint,
) -> Result<Boxed<Expr>, CheckStop>
    ensures { Answers (fitting Sort.Bool constraint.now.test (plain_scope (member_scope (known.now ++ draft.now ∷ []) draft.now constraint.now.name [] Sort.Void))) result }
{
    let void = Sort::Void;
    let place = member_place(known, draft, &constraint.name, &void, &[]);
    let locals = Locals::new(alloc);
    fitting(
        alloc,
        &Sort::Bool,
        &constraint.test,
        &place.plain(),
        &locals,
    )
}

#[tactic(auto, using(ode_types::proofs::TypingLaws::stops_through), unfolding(ode_types::specs::Static::constraint_checked))]
fn check_constraint(
    alloc: Global,
    known: &Classes,
    draft: &Class,
    constraint: &Constraint,
) -> Result<Boxed<Constraint>, CheckStop>
    ensures { Answers (constraint_checked (known.now ++ draft.now ∷ []) draft.now constraint.now) result }
{
    let test = check_test(alloc, known, draft, constraint)?;
    let name = constraint.name.copy(alloc)?;
    boxed(
        alloc,
        Constraint {
            name,
            soft: constraint.soft,
            test: test.into_inner(),
        },
    )
}

fn copy_head(
    alloc: Global,
    name: &Name,
    params: &List<Param>,
) -> Result<(Name, List<Param>), AllocError>
    ensures { IfOk result (λ head. head ≡ (name.now, params.now)) }
{
    let name = name.copy(alloc)?;
    let params = params.copy(alloc)?;
    Ok((name, params))
}

// The same trigger with this event and this action.
fn with_parts(
    alloc: Global,
    trigger: &TriggerDecl,
    event: Boxed<EventExpr>,
    action: List<Stmt>,
) -> Result<Boxed<TriggerDecl>, AllocError>
    ensures { IfOk result (λ made. made ≡ record trigger.now { event = event; action = action }) }
{
    let (name, params) = copy_head(alloc, &trigger.name, &trigger.params)?;
    Boxed::new(
        alloc,
        TriggerDecl {
            name,
            initial: trigger.initial,
            perpetual: trigger.perpetual,
            whole: trigger.whole,
            mode: trigger.mode,
            params,
            event: event.into_inner(),
            action,
        },
    )
}

// A trigger's event, and behind it its action.
#[tactic(auto, using(ode_types::proofs::TypingLaws::stops_through))]
fn trigger_within(
    alloc: Global,
    trigger: &TriggerDecl,
    place: &Place,
    locals: Locals,
) -> Result<Boxed<TriggerDecl>, CheckStop>
    ensures { Answers (trigger_within trigger.now (scope_of place.now locals)) result }
{
    let event = check_event(alloc, &trigger.event, place, &locals)?;
    let action = whole_body(alloc, trigger.action.as_slice(), place, locals)?;
    Ok(with_parts(alloc, trigger, event, action)?)
}

#[tactic(auto, using(crate::proofs::MemberLaws::scope_is), unfolding(ode_types::specs::Static::trigger_checked))]
fn check_trigger(
    alloc: Global,
    known: &Classes,
    draft: &Class,
    trigger: &TriggerDecl,
) -> Result<Boxed<TriggerDecl>, CheckStop>
    ensures { Answers (trigger_checked (known.now ++ draft.now ∷ []) draft.now trigger.now) result }
{
    let void = Sort::Void;
    let place = member_place(known, draft, &trigger.name, &void, &[]);
    let locals = Locals::of(alloc, trigger.params.as_slice())?;
    trigger_within(alloc, trigger, &place, locals)
}

// The same member, in a box.
fn copied(alloc: Global, member: &Member) -> Result<Boxed<Member>, CheckStop>
    ensures { Answers (Ok member.now) result }
{
    boxed(alloc, member.copy(alloc)?)
}

// The second pass over a member. Fields and kinds have nothing more to check.
#[tactic(auto, using(ode_types::proofs::TypingLaws::stops_through))]
fn check_member(
    alloc: Global,
    known: &Classes,
    draft: &Class,
    member: &Member,
) -> Result<Boxed<Member>, CheckStop>
    ensures { Answers (checked_member (known.now ++ draft.now ∷ []) draft.now member.now) result }
{
    match member {
        Member::Method(method) => {
            let checked = check_method(alloc, known, draft, method)?;
            boxed(alloc, Member::Method(checked.into_inner()))
        }
        Member::Constraint(constraint) => {
            let checked = check_constraint(alloc, known, draft, constraint)?;
            boxed(alloc, Member::Constraint(checked.into_inner()))
        }
        Member::Trigger(trigger) => {
            let checked = check_trigger(alloc, known, draft, trigger)?;
            boxed(alloc, Member::Trigger(checked.into_inner()))
        }
        _ => copied(alloc, member),
    }
}

fn add_kinds(alloc: Global, class: &mut Class, kinds: &[Kind]) -> Result<(), AllocError>
    ensures { OnOk result (class.new ≡ record class.old { kinds = class.old.kinds ++ kinds.now }) }
{
    for kind in kinds {
        class.kinds.push(kind.copy(alloc)?)?;
    }
    Ok(())
}

// One more member of a class.
fn add_member(alloc: Global, class: &mut Class, member: Member) -> Result<(), AllocError>
    ensures { OnOk result (class.new ≡ with_member class.old member) }
{
    match member {
        Member::Field(name, sort) => class.fields.push(Field {
            name,
            sort,
            birth: 0,
            literal: None,
        }),
        Member::Method(method) => class.methods.push(method),
        Member::Constraint(constraint) => class.constraints.push(constraint),
        Member::Events(kinds) => add_kinds(alloc, class, kinds.as_slice()),
        Member::Trigger(trigger) => class.triggers.push(trigger),
    }
}

// The second pass over the members of a class, which come to what it begins with.
#[tactic(auto, unfolding(ode_types::specs::Static::members_completed))]
fn complete(
    alloc: Global,
    known: &Classes,
    decl: &ClassDecl,
    draft: &Class,
    class: &mut Class,
) -> Result<(), CheckStop>
    ensures { Leaves (members_completed (known.now ++ draft.now ∷ []) draft.now decl.now class.old) class.new result }
{
    for member in decl.members.as_slice() {
        let checked = check_member(alloc, known, draft, member)?;
        add_member(alloc, class, checked.into_inner())?;
    }
    Ok(())
}

// The fields that are added to a class, behind the others.
fn put_added(alloc: Global, class: &mut Class, added: &[Added]) -> Result<(), AllocError>
    ensures { OnOk result (class.new ≡ fold with_added class.old added.now) }
{
    for field in added {
        class.fields.push(field_of(alloc, field)?)?;
    }
    Ok(())
}

// The same of a class that begins with this, and behind its members the fields that are added.
#[tactic(auto, using(ode_types::proofs::TypingLaws::stops_leaving))]
fn completed(
    alloc: Global,
    known: &Classes,
    decl: &ClassDecl,
    added: &[Added],
    draft: &Class,
    start: Boxed<Class>,
) -> Result<Class, CheckStop>
    ensures { Answers (completed (known.now ++ draft.now ∷ []) draft.now decl.now added.now start) result }
{
    let mut class = start.into_inner();
    complete(alloc, known, decl, draft, &mut class)?;
    put_added(alloc, &mut class, added)?;
    Ok(class)
}

/// A class with slots for the names in its trees and with fields that are added to it, by the classes that are there; or the first static
/// rule that it breaks.
#[tactic(auto, using(ode_types::proofs::TypingLaws::stops_through), unfolding(ode_types::specs::Static::check_grown))]
pub fn check_grown(
    alloc: Global,
    known: &Classes,
    added: &[Added],
    decl: &ClassDecl,
) -> Result<Class, CheckStop>
    ensures answers { Answers (check_grown known.now added.now decl.now) result }
    ensures typed { IfOk result (λ class. IsTypedClass (known.now ++ class ∷ []) class) }
{
    let start = begins(alloc, known, decl)?;
    let before = start.get();
    let draft = declared(alloc, known, decl, added, before)?;
    let seen = draft.get();
    completed(alloc, known, decl, added, seen, start)
}

/// The same of a class as it is declared.
pub fn check_class(alloc: Global, known: &Classes, decl: &ClassDecl) -> Result<Class, CheckStop>
    ensures answers { Answers (check_class known.now decl.now) result }
    ensures typed { IfOk result (λ class. IsTypedClass (known.now ++ class ∷ []) class) }
{
    check_grown(alloc, known, &[], decl)
}
