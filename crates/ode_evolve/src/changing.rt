//! The classes behind a change of one.
ghost use Rattle.std.specs.Prelude.{◌≡◌, ◌+◌, ◌++◌, Err, IfOk, OnOk, length, take};
ghost use Rattle.std.specs.List.{list_any};
ghost use Rattle.ode_types.specs.Answers.{Answers, Leaves};
ghost use Rattle.ode_types.specs.Checks.{through};
ghost use Rattle.ode_value.specs.declared.reason.CheckError.TheVariants.{UnknownName, WrongSort};
ghost use Rattle.ode_value.specs.Changing.{added_as, added_by, added_to};
ghost use Rattle.ode_value.specs.Classes.{null};
ghost use Rattle.ode_value.specs.Same.{same_value};
ghost use Rattle.ode_evolve.specs.Evolving.{born, change_class, declares_next, is_literal, is_named, knows_class, knows_field, place_named};

use ode_checker::check_grown;
use ode_types::{CheckStop, Classes};
use ode_value::{Added, Change, CheckError, ClassDecl, List, Name, Ref, Sort, Value};
use std::alloc::{AllocError, Global};

// ---- the fields of a change

fn unknown<T>(alloc: Global, name: &Name) -> Result<T, CheckStop>
    ensures { Answers (Err (UnknownName name.now)) result }
{
    Err(CheckStop::Broken(CheckError::UnknownName(name.copy(alloc)?)))
}

fn wrong<T>(alloc: Global, name: &Name) -> Result<T, CheckStop>
    ensures { Answers (Err (WrongSort name.now)) result }
{
    Err(CheckStop::Broken(CheckError::WrongSort(name.copy(alloc)?)))
}

fn is_null(value: &Value) -> bool
    ensures { result ≡ same_value value.now null }
{
    value.same(&Value::Reference(Ref {
        object: 0,
        version: None,
    }))
}

// Whether a value is a literal of the sort.
fn is_literal(sort: &Sort, value: &Value) -> bool
    ensures { result ≡ is_literal sort.now value.now }
{
    match sort {
        Sort::Int => matches!(value, Value::Int(_)),
        Sort::Bool => matches!(value, Value::Bool(_)),
        Sort::Text => matches!(value, Value::Text(_)),
        Sort::Reference(_) => is_null(value),
        Sort::Void => false,
    }
}

// Whether a class of this name is among these.
fn has_class(decls: &[ClassDecl], name: &Name) -> bool
    ensures { result ≡ list_any (is_named name.now) decls.now }
{
    decls.iter().any(|decl| decl.name.same(name))
}

fn needs_class(alloc: Global, seen: &[ClassDecl], sort: &Sort) -> Result<(), CheckStop>
    ensures { Answers (knows_class seen.now sort.now) result }
{
    match sort {
        Sort::Reference(name) => {
            if has_class(seen, name) {
                Ok(())
            } else {
                unknown(alloc, name)
            }
        }
        _ => Ok(()),
    }
}

// A new field: the class in its sort is known, and its literal is one of its sort.
#[tactic(auto, using(ode_types::proofs::TypingLaws::stops_through))]
fn needs_field(
    alloc: Global,
    seen: &[ClassDecl],
    field: &(Name, Sort, Value),
) -> Result<(), CheckStop>
    ensures { Leaves (knows_field seen.now tt field.now) tt result }
{
    needs_class(alloc, seen, &field.1)?;
    if is_literal(&field.1, &field.2) {
        Ok(())
    } else {
        wrong(alloc, &field.0)
    }
}

fn needs_fields(
    alloc: Global,
    seen: &[ClassDecl],
    fields: &[(Name, Sort, Value)],
) -> Result<(), CheckStop>
    ensures { Leaves (through (knows_field seen.now) tt fields.now) tt result }
{
    for field in fields {
        needs_field(alloc, seen, field)?;
    }
    Ok(())
}

// ---- the fields that were added

// A new field of the class of a number, with its birth.
fn added_as(
    alloc: Global,
    class: u32,
    birth: u32,
    field: &(Name, Sort, Value),
) -> Result<Added, AllocError>
    ensures { IfOk result (λ added. added ≡ added_as class (birth, field.now)) }
{
    let name = field.0.copy(alloc)?;
    let sort = field.1.copy(alloc)?;
    let value = field.2.copy(alloc)?;
    Ok(Added {
        class,
        birth,
        name,
        sort,
        value,
    })
}

// The number behind so many. Lists that are longer don't fit in memory.
fn next_number(count: usize) -> Result<u32, AllocError>
    ensures { IfOk result (λ number. number ≡ count + 1) }
{
    if count < u32::MAX as usize {
        Ok(count as u32 + 1)
    } else {
        Err(AllocError)
    }
}

// New fields of the class of a number, behind those that were added before.
fn add_all(
    alloc: Global,
    all: &mut List<Added>,
    class: u32,
    fields: &[(Name, Sort, Value)],
) -> Result<(), AllocError>
    ensures { OnOk result (all.new ≡ all.old ++ born class all.old fields.now) }
{
    for field in fields {
        let birth = next_number(all.len())?;
        let made = added_as(alloc, class, birth, field)?;
        all.push(made)?;
    }
    Ok(())
}

/// The fields that were added before, and behind them those of a change of the class of a number.
pub fn with_change(
    alloc: Global,
    added: &List<Added>,
    class: u32,
    change: &Change,
) -> Result<List<Added>, AllocError>
    ensures { IfOk result (λ all. all ≡ added.now ++ added_by class (length added.now) change.now) }
{
    let mut all = added.copy(alloc)?;
    add_all(alloc, &mut all, class, change.fields.as_slice())?;
    Ok(all)
}

// The fields that were added to the class of a number.
fn added_to(alloc: Global, number: u32, added: &[Added]) -> Result<List<Added>, AllocError>
    ensures { IfOk result (λ own. own ≡ added_to number added.now) }
{
    let mut own = List::new(alloc);
    for field in added {
        if field.class == number {
            own.push(field.copy(alloc)?)?;
        }
    }
    Ok(own)
}

// ---- all classes anew

// One class more, with the fields that were added to it.
#[tactic(auto, using(ode_types::proofs::TypingLaws::stops_through))]
fn declare_next(
    alloc: Global,
    known: &mut Classes,
    added: &[Added],
    decl: &ClassDecl,
) -> Result<(), CheckStop>
    ensures { Leaves (declares_next added.now known.old decl.now) known.new result }
{
    let number = next_number(known.as_slice().len())?;
    let own = added_to(alloc, number, added)?;
    let class = check_grown(alloc, known, own.as_slice(), decl)?;
    known.add(class)?;
    Ok(())
}

fn declare_all(
    alloc: Global,
    known: &mut Classes,
    added: &[Added],
    decls: &[ClassDecl],
) -> Result<(), CheckStop>
    ensures { Leaves (through (declares_next added.now) known.old decls.now) known.new result }
{
    for decl in decls {
        declare_next(alloc, known, added, decl)?;
    }
    Ok(())
}

// The place of the class of this name.
fn place_named(decls: &[ClassDecl], name: &Name) -> Option<usize>
    ensures { result ≡ place_named decls.now name.now }
{
    decls.iter().position(|decl| decl.name.same(name))
}

// The classes up to this place, with the one there.
fn up_to(decls: &[ClassDecl], place: usize) -> &[ClassDecl]
    ensures { result.now ≡ take (place + 1) decls.now }
{
    if place < decls.len() {
        &decls[..place + 1]
    } else {
        decls
    }
}

/// The classes behind a change of one, by all classes as they are written and by the fields that were added before, in the order of
/// their births; or the first rule that the change breaks.
#[tactic(auto, unfolding(crate::specs::Evolving::change_class))]
pub fn change_class(
    alloc: Global,
    decls: &List<ClassDecl>,
    added: &List<Added>,
    change: &Change,
) -> Result<Classes, CheckStop>
    ensures { Answers (change_class decls.now added.now change.now) result }
{
    let written = decls.as_slice();
    let Some(place) = place_named(written, &change.class) else {
        return unknown(alloc, &change.class);
    };
    let number = next_number(place)?;
    needs_fields(alloc, up_to(written, place), change.fields.as_slice())?;
    let all = with_change(alloc, added, number, change)?;
    let mut classes = Classes::new(alloc);
    declare_all(alloc, &mut classes, all.as_slice(), written)?;
    Ok(classes)
}
