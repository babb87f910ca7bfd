//! The first pass over a class: names, class names in sorts, kinds and numbers, without bodies.
ghost use Rattle.std.specs.Prelude.{◌≡◌, ◌+◌, IfOk, Ok, length};
ghost use Rattle.std.specs.List.{list_any};
ghost use Rattle.std.specs.Str.{bytes_eq};
ghost use Rattle.ode_value.specs.declared.binding.Param.{Param as Parameter};
ghost use Rattle.ode_types.specs.Checks.{through};
ghost use Rattle.ode_types.specs.Answers.{Answers, Leaves};
ghost use Rattle.ode_value.specs.Fields.{field_of};
ghost use Rattle.ode_types.specs.Declaring.{adds, begins, declared, declares, has_method, inherits_shape, is_callable, is_method, is_small, kind_word, knows_method, knows_param, knows_params, knows_sort, knows_trigger, knows_value, lists, numbered, same_params, same_shape, without_members};

use crate::events::{is_among, kind_method};
use crate::names::word;
use ode_types::families::{constraint_named, field_named, method_above, own_method, trigger_named};
use ode_types::stop::{boxed, duplicate, too_many, unknown, wrong};
use ode_types::{
    ANCESTOR_LIMIT, CLASSES_LIMIT, CheckStop, Classes, FIELD_LIMIT, Known, TRIGGER_LIMIT,
};
use ode_value::{
    Added, Boxed, CheckError, Class, ClassDecl, Constraint, Field, Kind, List, Member, Method,
    Name, Param, Sort, TriggerDecl,
};
use std::alloc::{AllocError, Global};

// The number of the next class, where one is left.
#[tactic(auto, unfolding(ode_types::specs::Limits::classes_limit))]
fn next_number(alloc: Global, known: &Classes, name: &Name) -> Result<u32, CheckStop>
    ensures { Answers (numbered known.now name.now) result }
{
    let declared = known.as_slice().len();
    if declared < CLASSES_LIMIT {
        Ok(declared as u32 + 1)
    } else {
        too_many(alloc, name)
    }
}

// A class that inherits nothing, without members.
fn without_parent(alloc: Global, number: u32, name: &Name) -> Result<Boxed<Class>, CheckStop>
    ensures { Answers (Ok (without_members number name.now None)) result }
{
    let name = name.copy(alloc)?;
    boxed(
        alloc,
        Class {
            number,
            name,
            parent: None,
            fields: List::new(alloc),
            methods: List::new(alloc),
            constraints: List::new(alloc),
            kinds: List::new(alloc),
            triggers: List::new(alloc),
        },
    )
}

// A class without members of its own: the next number, and what it inherits.
fn with_parent(
    alloc: Global,
    number: u32,
    name: &Name,
    parent: &Class,
) -> Result<Boxed<Class>, CheckStop>
    ensures { Answers (Ok (without_members number name.now (Some parent.now))) result }
{
    let name = name.copy(alloc)?;
    let fields = parent.fields.copy(alloc)?;
    let kinds = parent.kinds.copy(alloc)?;
    boxed(
        alloc,
        Class {
            number,
            name,
            parent: Some(parent.number),
            fields,
            methods: List::new(alloc),
            constraints: List::new(alloc),
            kinds,
            triggers: List::new(alloc),
        },
    )
}

/// The class's name is new, its parent is declared, and a number is left for it.
#[tactic(auto, unfolding(ode_types::specs::Declaring::begins))]
pub(crate) fn begins(
    alloc: Global,
    known: &Classes,
    decl: &ClassDecl,
) -> Result<Boxed<Class>, CheckStop>
    ensures { Answers (begins known.now decl.now) result }
{
    if known.named(&decl.name).is_some() {
        return duplicate(alloc, &decl.name);
    }
    match &decl.parent {
        None => {
            let number = next_number(alloc, known, &decl.name)?;
            without_parent(alloc, number, &decl.name)
        }
        Some(name) => {
            let Some(parent) = known.named(name) else {
                return unknown(alloc, name);
            };
            let number = next_number(alloc, known, &decl.name)?;
            with_parent(alloc, number, &decl.name, parent)
        }
    }
}

// The kind's last word, or the method's name.
fn kind_word(alloc: Global, kind: &Kind) -> Result<Name, AllocError>
    ensures { IfOk result (λ name. name ≡ kind_word kind.now) }
{
    match kind {
        Kind::Create => word(alloc, b"create"),
        Kind::Delete => word(alloc, b"delete"),
        Kind::NewVersion => word(alloc, b"newversion"),
        Kind::DropVersion => word(alloc, b"delversion"),
        Kind::Before(name) => name.copy(alloc),
        Kind::After(name) => name.copy(alloc),
        Kind::TBegin => word(alloc, b"tbegin"),
        Kind::TComplete => word(alloc, b"tcomplete"),
        Kind::TCommit => word(alloc, b"tcommit"),
        Kind::TAbort => word(alloc, b"tabort"),
        Kind::TimeEvery(_) => word(alloc, b"every"),
        Kind::TimeAt(_) => word(alloc, b"at"),
    }
}

// Whether two methods have the same parameter sorts.
fn same_params(params: &[Param], others: &[Param]) -> bool
    ensures { result ≡ same_params params.now others.now }
{
    if params.len() != others.len() {
        return false;
    }
    for i in 0..params.len() {
        if !params[i].sort.same(&others[i].sort) {
            return false;
        }
    }
    true
}

fn same_shape(m: &Method, n: &Method) -> bool
    ensures { result ≡ same_shape m.now n.now }
{
    m.result.same(&n.result) && same_params(m.params.as_slice(), n.params.as_slice())
}

// A class in a sort is declared earlier, or is the class itself.
fn needs_sort(
    alloc: Global,
    known: &Classes,
    decl: &ClassDecl,
    sort: &Sort,
) -> Result<(), CheckStop>
    ensures { Answers (knows_sort known.now decl.now sort.now) result }
{
    match sort {
        Sort::Reference(name) => {
            if name.same(&decl.name) || known.named(name).is_some() {
                Ok(())
            } else {
                unknown(alloc, name)
            }
        }
        _ => Ok(()),
    }
}

// A value's sort, of a field or parameter of this name. No text has a value of the sort void.
#[tactic(auto, using(ode_types::proofs::TypingLaws::stops_through))]
fn needs_value(
    alloc: Global,
    known: &Classes,
    decl: &ClassDecl,
    name: &Name,
    sort: &Sort,
) -> Result<(), CheckStop>
    ensures { Answers (knows_value known.now decl.now name.now sort.now) result }
{
    needs_sort(alloc, known, decl, sort)?;
    match sort {
        Sort::Void => wrong(alloc, name),
        _ => Ok(()),
    }
}

/// Whether a parameter of this name is among these.
pub(crate) fn has_name(params: &[Param], name: &Name) -> bool
    ensures { result ≡ list_any (λ (p : Parameter). bytes_eq p.name name.now) params.now }
{
    params.iter().any(|param| param.name.same(name))
}

// A parameter behind those before it: its class is known, and its name is new.
#[tactic(auto, using(ode_types::proofs::TypingLaws::stops_through))]
fn needs_param(
    alloc: Global,
    known: &Classes,
    decl: &ClassDecl,
    before: &[Param],
    param: &Param,
) -> Result<(), CheckStop>
    ensures { Answers (knows_param known.now decl.now before.now param.now) result }
{
    needs_value(alloc, known, decl, &param.name, &param.sort)?;
    if has_name(before, &param.name) {
        return duplicate(alloc, &param.name);
    }
    Ok(())
}

/// Parameters differ, and their classes are known.
pub(crate) fn needs_params(
    alloc: Global,
    known: &Classes,
    decl: &ClassDecl,
    params: &[Param],
) -> Result<(), CheckStop>
    ensures { Answers (knows_params known.now decl.now params.now) result }
{
    for i in 0..params.len() {
        needs_param(alloc, known, decl, &params[..i], &params[i])?;
    }
    Ok(())
}

// Whether a member is a method of this name.
fn is_method(member: &Member, name: &Name) -> bool
    ensures { result ≡ is_method name.now member.now }
{
    match member {
        Member::Method(method) => name.same(&method.name),
        _ => false,
    }
}

// Whether a method of this name is among these members.
fn is_member(members: &[Member], name: &Name) -> bool
    ensures { result ≡ list_any (is_method name.now) members.now }
{
    members.iter().any(|member| is_method(member, name))
}

// Whether a method of this name is among the members, or an ancestor has one.
fn has_method(known: &Classes, decl: &ClassDecl, draft: &Class, name: &Name) -> bool
    ensures { result ≡ has_method known.now decl.now draft.now name.now }
{
    is_member(decl.members.as_slice(), name)
        || method_above(&mut Known::new(known, None).ancestors(draft), name).is_some()
}

// One more kind. It isn't listed yet, and names a method where it names one.
fn list_kind(
    alloc: Global,
    known: &Classes,
    decl: &ClassDecl,
    draft: &mut Class,
    kind: &Kind,
) -> Result<(), CheckStop>
    ensures { Leaves (lists known.now decl.now draft.old kind.now) draft.new result }
{
    if is_among(kind, draft.kinds.as_slice()) {
        return duplicate(alloc, &kind_word(alloc, kind)?);
    }
    if let Some(name) = kind_method(kind)
        && !has_method(known, decl, draft, name)
    {
        return unknown(alloc, name);
    }
    draft.kinds.push(kind.copy(alloc)?)?;
    Ok(())
}

fn list_kinds(
    alloc: Global,
    known: &Classes,
    decl: &ClassDecl,
    draft: &mut Class,
    kinds: &[Kind],
) -> Result<(), CheckStop>
    ensures { Leaves (through (lists known.now decl.now) draft.old kinds.now) draft.new result }
{
    for kind in kinds {
        list_kind(alloc, known, decl, draft, kind)?;
    }
    Ok(())
}

#[tactic(auto, using(ode_types::proofs::TypingLaws::stops_through))]
fn declare_field(
    alloc: Global,
    known: &Classes,
    decl: &ClassDecl,
    draft: &mut Class,
    name: &Name,
    sort: &Sort,
) -> Result<(), CheckStop>
    ensures { Leaves (declares known.now decl.now draft.old (Member.Field name.now sort.now)) draft.new result }
{
    needs_value(alloc, known, decl, name, sort)?;
    if field_named(draft.fields.as_slice(), name).is_some() {
        return duplicate(alloc, name);
    }
    let name = name.copy(alloc)?;
    let sort = sort.copy(alloc)?;
    draft.fields.push(Field {
        name,
        sort,
        birth: 0,
        literal: None,
    })?;
    Ok(())
}

// A method that redefines an ancestor's has its shape.
fn needs_shape(
    alloc: Global,
    known: &Classes,
    draft: &Class,
    method: &Method,
) -> Result<(), CheckStop>
    ensures { Answers (inherits_shape known.now draft.now method.now) result }
{
    let mut ancestors = Known::new(known, None).ancestors(draft);
    match method_above(&mut ancestors, &method.name) {
        Some(inherited) if !same_shape(method, inherited) => Err(CheckStop::Broken(
            CheckError::NotInherited(method.name.copy(alloc)?),
        )),
        _ => Ok(()),
    }
}

// A method: its result's class is known, the class has none of its name, and it has the shape of the one that it redefines.
#[tactic(auto, using(ode_types::proofs::TypingLaws::stops_through))]
fn needs_method(
    alloc: Global,
    known: &Classes,
    decl: &ClassDecl,
    draft: &Class,
    method: &Method,
) -> Result<(), CheckStop>
    ensures { Answers (knows_method known.now decl.now draft.now method.now) result }
{
    needs_sort(alloc, known, decl, &method.result)?;
    if own_method(draft, &method.name).is_some() {
        return duplicate(alloc, &method.name);
    }
    needs_shape(alloc, known, draft, method)?;
    needs_params(alloc, known, decl, method.params.as_slice())
}

#[tactic(auto, using(ode_types::proofs::TypingLaws::stops_through))]
fn declare_method(
    alloc: Global,
    known: &Classes,
    decl: &ClassDecl,
    draft: &mut Class,
    method: &Method,
) -> Result<(), CheckStop>
    ensures { Leaves (declares known.now decl.now draft.old (Member.Method method.now)) draft.new result }
{
    needs_method(alloc, known, decl, draft, method)?;
    draft.methods.push(method.copy(alloc)?)?;
    Ok(())
}

fn declare_constraint(
    alloc: Global,
    known: &Classes,
    decl: &ClassDecl,
    draft: &mut Class,
    constraint: &Constraint,
) -> Result<(), CheckStop>
    ensures { Leaves (declares known.now decl.now draft.old (Member.Constraint constraint.now)) draft.new result }
{
    if constraint_named(&Known::new(known, None), draft, &constraint.name).is_some() {
        return duplicate(alloc, &constraint.name);
    }
    draft.constraints.push(constraint.copy(alloc)?)?;
    Ok(())
}

// An initial trigger, which nothing calls with arguments, has no parameters.
fn is_callable(trigger: &TriggerDecl) -> bool
    ensures { result ≡ is_callable trigger.now }
{
    !trigger.initial || trigger.params.is_empty()
}

// A trigger: its name is new, and an initial one has no parameters.
#[tactic(auto, using(ode_types::proofs::TypingLaws::stops_through))]
fn needs_trigger(
    alloc: Global,
    known: &Classes,
    decl: &ClassDecl,
    draft: &Class,
    trigger: &TriggerDecl,
) -> Result<(), CheckStop>
    ensures { Answers (knows_trigger known.now decl.now draft.now trigger.now) result }
{
    if trigger_named(&Known::new(known, None), draft, &trigger.name).is_some() {
        return duplicate(alloc, &trigger.name);
    }
    needs_params(alloc, known, decl, trigger.params.as_slice())?;
    if is_callable(trigger) {
        Ok(())
    } else {
        wrong(alloc, &trigger.name)
    }
}

#[tactic(auto, using(ode_types::proofs::TypingLaws::stops_through))]
fn declare_trigger(
    alloc: Global,
    known: &Classes,
    decl: &ClassDecl,
    draft: &mut Class,
    trigger: &TriggerDecl,
) -> Result<(), CheckStop>
    ensures { Leaves (declares known.now decl.now draft.old (Member.Trigger trigger.now)) draft.new result }
{
    needs_trigger(alloc, known, decl, draft, trigger)?;
    draft.triggers.push(trigger.copy(alloc)?)?;
    Ok(())
}

fn declare(
    alloc: Global,
    known: &Classes,
    decl: &ClassDecl,
    draft: &mut Class,
    member: &Member,
) -> Result<(), CheckStop>
    ensures { Leaves (declares known.now decl.now draft.old member.now) draft.new result }
{
    match member {
        Member::Field(name, sort) => declare_field(alloc, known, decl, draft, name, sort),
        Member::Method(method) => declare_method(alloc, known, decl, draft, method),
        Member::Constraint(constraint) => declare_constraint(alloc, known, decl, draft, constraint),
        Member::Events(kinds) => list_kinds(alloc, known, decl, draft, kinds.as_slice()),
        Member::Trigger(trigger) => declare_trigger(alloc, known, decl, draft, trigger),
    }
}

// A class is within the limits.
#[tactic(auto, unfolding(ode_types::specs::Limits::field_limit, ode_types::specs::Limits::trigger_limit, ode_types::specs::Limits::ancestor_limit))]
fn is_small(known: &Classes, draft: &Class) -> bool
    ensures { result ≡ is_small known.now draft.now }
{
    draft.fields.len() <= FIELD_LIMIT
        && draft.triggers.len() <= TRIGGER_LIMIT
        && Known::new(known, None)
            .ancestors(draft)
            .is_within(ANCESTOR_LIMIT)
}

// All members, behind those that the class has so far.
fn declare_all(
    alloc: Global,
    known: &Classes,
    decl: &ClassDecl,
    draft: &mut Class,
    members: &[Member],
) -> Result<(), CheckStop>
    ensures { Leaves (through (declares known.now decl.now) draft.old members.now) draft.new result }
{
    for member in members {
        declare(alloc, known, decl, draft, member)?;
    }
    Ok(())
}

/// A field that was added, as one of the class.
pub(crate) fn field_of(alloc: Global, added: &Added) -> Result<Field, AllocError>
    ensures { IfOk result (λ field. field ≡ field_of added.now) }
{
    let name = added.name.copy(alloc)?;
    let sort = added.sort.copy(alloc)?;
    let value = added.value.copy(alloc)?;
    Ok(Field {
        name,
        sort,
        birth: added.birth,
        literal: Some(value),
    })
}

// A field that is added, behind those that the class has so far.
#[tactic(auto, using(ode_types::proofs::TypingLaws::stops_through))]
fn add_field(
    alloc: Global,
    known: &Classes,
    decl: &ClassDecl,
    draft: &mut Class,
    added: &Added,
) -> Result<(), CheckStop>
    ensures { Leaves (adds known.now decl.now draft.old added.now) draft.new result }
{
    needs_value(alloc, known, decl, &added.name, &added.sort)?;
    if field_named(draft.fields.as_slice(), &added.name).is_some() {
        return duplicate(alloc, &added.name);
    }
    draft.fields.push(field_of(alloc, added)?)?;
    Ok(())
}

// All fields that are added.
fn add_fields(
    alloc: Global,
    known: &Classes,
    decl: &ClassDecl,
    draft: &mut Class,
    added: &[Added],
) -> Result<(), CheckStop>
    ensures { Leaves (through (adds known.now decl.now) draft.old added.now) draft.new result }
{
    for field in added {
        add_field(alloc, known, decl, draft, field)?;
    }
    Ok(())
}

/// All members and then all fields that are added, behind what a class begins with.
#[tactic(auto, using(ode_types::proofs::TypingLaws::stops_leaving), unfolding(ode_types::specs::Declaring::declared))]
pub(crate) fn declared(
    alloc: Global,
    known: &Classes,
    decl: &ClassDecl,
    added: &[Added],
    start: &Class,
) -> Result<Boxed<Class>, CheckStop>
    ensures { Answers (declared known.now decl.now added.now start.now) result }
{
    let mut draft = start.copy(alloc)?;
    declare_all(alloc, known, decl, &mut draft, decl.members.as_slice())?;
    add_fields(alloc, known, decl, &mut draft, added)?;
    if is_small(known, &draft) {
        boxed(alloc, draft)
    } else {
        too_many(alloc, &decl.name)
    }
}
