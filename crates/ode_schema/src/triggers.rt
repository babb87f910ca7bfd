//! The triggers of a class, by their classes and places.
ghost use Rattle.std.specs.Prelude.{◌≡◌, ◌≤◌, ◌++◌, IfOk, OnOk, length, map};
ghost use Rattle.std.specs.List.{filter, find, flat_map};
ghost use Rattle.std.specs.Option.{option_map};
ghost use Rattle.std.specs.Str.{bytes_eq};
ghost use Rattle.ode_value.specs.Classes.{Trigger as Declared, own_triggers};
ghost use Rattle.ode_types.specs.Limits.{trigger_limit};
ghost use Rattle.ode_schema.specs.Parts.{named_by_place};

use crate::line::Family;
use ode_interpreter::Trigger;
use ode_value::{Class, List, Name};
use std::alloc::{AllocError, Global};

// Adds the initial triggers that a class itself declares.
#[tactic(auto, unfolding(ode_types::specs::Limits::trigger_limit))]
fn add_initial(found: &mut List<Trigger>, class: &Class) -> Result<(), AllocError>
    requires { length class.now.triggers ≤ trigger_limit }
    ensures { OnOk result (found.new ≡ found.old ++ map named_by_place (filter (λ (t : Declared). t.decl.initial) (own_triggers class.now))) }
{
    let triggers = class.triggers.as_slice();
    for place in 0..triggers.len() {
        if triggers[place].initial {
            found.push(Trigger {
                class: class.number,
                place: place as u16,
            })?;
        }
    }
    Ok(())
}

// The trigger of a name that a class itself declares.
#[tactic(auto, unfolding(ode_types::specs::Limits::trigger_limit))]
fn own_named(class: &Class, name: &Name) -> Option<Trigger>
    requires { length class.now.triggers ≤ trigger_limit }
    ensures { result ≡ option_map named_by_place (find (λ (t : Declared). bytes_eq t.decl.name name.now) (own_triggers class.now)) }
{
    let triggers = class.triggers.as_slice();
    for place in 0..triggers.len() {
        if triggers[place].name.same(name) {
            return Some(Trigger {
                class: class.number,
                place: place as u16,
            });
        }
    }
    None
}

/// The initial triggers of a class with its ancestors, in order.
#[tactic(auto, using(crate::proofs::OwnTriggers::along))]
pub(crate) fn initial_of(alloc: Global, family: &mut Family) -> Result<List<Trigger>, AllocError>
    ensures { IfOk result (λ found. found ≡ map named_by_place (filter (λ (t : Declared). t.decl.initial) (flat_map own_triggers family.old))) }
{
    let mut found = List::new(alloc);
    while let Some(class) = family.next() {
        add_initial(&mut found, class)?;
    }
    Ok(found)
}

/// The trigger of a name of a class with its ancestors.
pub(crate) fn named_of(family: &mut Family, name: &Name) -> Option<Trigger>
    ensures { result ≡ option_map named_by_place (find (λ (t : Declared). bytes_eq t.decl.name name.now) (flat_map own_triggers family.old)) }
{
    while let Some(class) = family.next() {
        if let Some(trigger) = own_named(class, name) {
            return Some(trigger);
        }
    }
    None
}
