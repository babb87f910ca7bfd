//! What a class has, with what its ancestors have, by name.
ghost use Rattle.std.specs.Prelude.{◌≡◌, ◌≤◌, ◌<◌, ◌∷◌, [], IfSome, length, position};
ghost use Rattle.std.specs.List.{list_any, slice_get};
ghost use Rattle.std.specs.Option.{option_copied, option_map};
ghost use Rattle.std.specs.Str.{bytes_eq};
ghost use Rattle.ode_value.specs.declared.class.Class.{Class as Declared};
ghost use Rattle.ode_value.specs.declared.class.Field.{Field as OfClass};
ghost use Rattle.ode_types.specs.Limits.{slot_limit};
ghost use Rattle.ode_types.specs.Families.{constraint_named, field_named, is_a, line_of, method_named, seen_field, trigger_named};

use crate::limits::in_slots;
use crate::line::{Known, Line};
use ode_value::{Class, Constraint, Field, Method, Name, TriggerDecl};

/// The field of this name, with its slot.
#[tactic(auto, using(crate::proofs::FamilyLaws::fields_by_place))]
pub fn field_named<'a>(fields: &'a [Field], name: &Name) -> Option<(u16, &'a Field)>
    ensures { seen_field result ≡ field_named fields.now name.now }
{
    let fields = in_slots(fields, 0);
    match field_place(fields, name) {
        Some(place) => field_at(fields, place),
        None => None,
    }
}

fn at(fields: &[Field], place: usize) -> Option<&Field>
    ensures field { option_copied result ≡ slice_get fields.now place }
    ensures place { IfSome result (λ _. place < length fields.now) }
{
    fields.get(place)
}

// The field at a place, with the place as its slot.
#[tactic(auto, unfolding(crate::specs::Limits::slot_limit))]
fn field_at(fields: &[Field], place: usize) -> Option<(u16, &Field)>
    requires { length fields.now ≤ slot_limit }
    ensures { seen_field result ≡ option_map (λ (f : OfClass). (place, f)) (slice_get fields.now place) }
{
    match at(fields, place) {
        Some(field) => Some((place as u16, field)),
        None => None,
    }
}

fn field_place(fields: &[Field], name: &Name) -> Option<usize>
    ensures { result ≡ position (λ (f : OfClass). bytes_eq f.name name.now) fields.now }
{
    fields.iter().position(|field| field.name.same(name))
}

/// The method of this name that a class itself has.
pub fn own_method<'a>(class: &'a Class, name: &Name) -> Option<&'a Method>
    ensures { option_copied result ≡ method_named (class.now ∷ []) name.now }
{
    class
        .methods
        .as_slice()
        .iter()
        .find(|method| method.name.same(name))
}

/// The nearest method of this name in a line.
#[tactic(auto, using(crate::proofs::FamilyLaws::named_along))]
pub fn method_above<'a>(line: &mut Line<'a>, name: &Name) -> Option<&'a Method>
    ensures { option_copied result ≡ method_named line.old name.now }
{
    while let Some(class) = line.next() {
        if let Some(method) = own_method(class, name) {
            return Some(method);
        }
    }
    None
}

/// The nearest method of this name of a class and its ancestors.
#[tactic(auto, using(crate::proofs::FamilyLaws::named_along))]
pub fn method_named<'a>(known: &Known<'a>, class: &'a Class, name: &Name) -> Option<&'a Method>
    ensures { option_copied result ≡ method_named (line_of known.now class.now) name.now }
{
    match own_method(class, name) {
        Some(method) => Some(method),
        None => method_above(&mut known.ancestors(class), name),
    }
}

/// The trigger of this name that a class itself has.
pub(crate) fn own_trigger<'a>(class: &'a Class, name: &Name) -> Option<&'a TriggerDecl>
    ensures { option_copied result ≡ trigger_named (class.now ∷ []) name.now }
{
    class
        .triggers
        .as_slice()
        .iter()
        .find(|trigger| trigger.name.same(name))
}

#[tactic(auto, using(crate::proofs::FamilyLaws::named_along))]
fn trigger_above<'a>(line: &mut Line<'a>, name: &Name) -> Option<&'a TriggerDecl>
    ensures { option_copied result ≡ trigger_named line.old name.now }
{
    while let Some(class) = line.next() {
        if let Some(trigger) = own_trigger(class, name) {
            return Some(trigger);
        }
    }
    None
}

/// The trigger of this name of a class and its ancestors.
#[tactic(auto, using(crate::proofs::FamilyLaws::named_along))]
pub fn trigger_named<'a>(
    known: &Known<'a>,
    class: &'a Class,
    name: &Name,
) -> Option<&'a TriggerDecl>
    ensures { option_copied result ≡ trigger_named (line_of known.now class.now) name.now }
{
    match own_trigger(class, name) {
        Some(trigger) => Some(trigger),
        None => trigger_above(&mut known.ancestors(class), name),
    }
}

fn is_above(line: &mut Line, name: &Name) -> bool
    ensures { result ≡ list_any (λ (c : Declared). bytes_eq c.name name.now) line.old }
{
    while let Some(class) = line.next() {
        if class.name.same(name) {
            return true;
        }
    }
    false
}

/// Whether a class or an ancestor has this name.
pub fn is_a(known: &Known, class: &Class, name: &Name) -> bool
    ensures { result ≡ is_a known.now class.now name.now }
{
    class.name.same(name) || is_above(&mut known.ancestors(class), name)
}

// The constraint of this name that a class itself has.
fn own_constraint<'a>(class: &'a Class, name: &Name) -> Option<&'a Constraint>
    ensures { option_copied result ≡ constraint_named (class.now ∷ []) name.now }
{
    class
        .constraints
        .as_slice()
        .iter()
        .find(|constraint| constraint.name.same(name))
}

#[tactic(auto, using(crate::proofs::FamilyLaws::named_along))]
fn constraint_above<'a>(line: &mut Line<'a>, name: &Name) -> Option<&'a Constraint>
    ensures { option_copied result ≡ constraint_named line.old name.now }
{
    while let Some(class) = line.next() {
        if let Some(constraint) = own_constraint(class, name) {
            return Some(constraint);
        }
    }
    None
}

/// The constraint of this name of a class and its ancestors.
#[tactic(auto, using(crate::proofs::FamilyLaws::named_along))]
pub fn constraint_named<'a>(
    known: &Known<'a>,
    class: &'a Class,
    name: &Name,
) -> Option<&'a Constraint>
    ensures { option_copied result ≡ constraint_named (line_of known.now class.now) name.now }
{
    match own_constraint(class, name) {
        Some(constraint) => Some(constraint),
        None => constraint_above(&mut known.ancestors(class), name),
    }
}
