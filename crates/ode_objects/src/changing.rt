//! What changes make of an object.
ghost use Rattle.std.specs.Prelude.{◌≡◌, ◌+◌, ◌<◌, ◌^◌, IfOk, map};
ghost use Rattle.std.specs.List.{position, slice_get};
ghost use Rattle.ode_objects.specs.Objects.{activated, dead, derived, is_numbered, parent_of, switched_off, taken_by, taken_over, turned_off, with_states, without, written};

use crate::object::{Active, Fields, Object, Version};
use crate::values::KeptFields;
use ode_types::Running;
use ode_value::List;
use std::alloc::AllocError;

impl Object {
    /// The object with these fields in its version of a number.
    pub fn written(self, number: u32, fields: KeptFields) -> Object
        ensures { result ≡ written number fields self }
    {
        let mut versions = self.versions;
        if let Some(at) = place_of(versions.as_slice(), number) {
            let parent = parent_at(versions.as_slice(), at);
            versions.set(
                at,
                Version {
                    number,
                    parent,
                    fields: Fields::Written(fields),
                },
            );
        }
        Object {
            versions,
            class: self.class,
            live: self.live,
            last: self.last,
            activations: self.activations,
        }
    }

    /// The object with a new version, derived from the one of a number, with these fields.
    pub fn derived(self, from: u32, fields: KeptFields) -> Result<Object, AllocError>
        requires { self.last + 1 < 2 ^ 32 }
        ensures { IfOk result (λ object. object ≡ derived from fields self) }
    {
        let number = self.last + 1;
        let mut versions = self.versions;
        versions.push(Version {
            number,
            parent: Some(from),
            fields: Fields::Written(fields),
        })?;
        Ok(Object {
            last: number,
            versions,
            class: self.class,
            live: self.live,
            activations: self.activations,
        })
    }

    /// The object without its version of a number.
    pub fn without(self, number: u32) -> Object
        ensures { result ≡ without number self }
    {
        let mut versions = self.versions;
        if let Some(at) = place_of(versions.as_slice(), number) {
            versions.remove(at);
        }
        Object {
            versions,
            class: self.class,
            live: self.live,
            last: self.last,
            activations: self.activations,
        }
    }

    /// The object with a new activation.
    pub fn activated(self, active: Active) -> Result<Object, AllocError>
        ensures { IfOk result (λ object. object ≡ activated active self) }
    {
        let mut activations = self.activations;
        activations.push(active)?;
        Ok(Object {
            activations,
            class: self.class,
            live: self.live,
            last: self.last,
            versions: self.versions,
        })
    }

    /// The object with the activation of a number off.
    pub fn switched_off(self, number: u64) -> Object
        ensures { result ≡ switched_off number self }
    {
        let mut activations = self.activations.into_vec();
        switch_off(&mut activations, number);
        Object {
            activations: List::from_vec(activations),
            class: self.class,
            live: self.live,
            last: self.last,
            versions: self.versions,
        }
    }

    /// The object with states taken over, and whether activations are on, one from each.
    pub fn taken_over(self, acts: &[Running]) -> Object
        ensures { result ≡ with_states acts.now self }
    {
        let mut activations = self.activations.into_vec();
        take_over(&mut activations, acts);
        Object {
            activations: List::from_vec(activations),
            class: self.class,
            live: self.live,
            last: self.last,
            versions: self.versions,
        }
    }

    /// The object, which isn't live any more.
    pub fn dead(self) -> Object
        ensures { result ≡ dead self }
    {
        Object {
            live: false,
            ..self
        }
    }
}

// An activation takes over a state, and whether it is on.
fn take_state(active: &mut Active, act: &Running)
    ensures { active.new ≡ taken_by act.now active.old }
{
    active.state = act.state;
    active.on = act.on;
}

fn take_over(activations: &mut Vec<Active>, acts: &[Running])
    ensures { activations.new.items ≡ taken_over acts.now activations.old.items }
{
    for i in 0..acts.len() {
        if i < activations.len() {
            take_state(&mut activations[i], &acts[i]);
        }
    }
}

// An activation goes off, where it has this number.
fn turn_off(active: &mut Active, number: u64)
    ensures { active.new ≡ turned_off number active.old }
{
    if active.number == number {
        active.on = false;
    }
}

fn switch_off(activations: &mut Vec<Active>, number: u64)
    ensures { activations.new.items ≡ map (turned_off number) activations.old.items }
{
    for i in 0..activations.len() {
        turn_off(&mut activations[i], number);
    }
}

// The number of the version that the one at a place was derived from.
fn parent_at(versions: &[Version], at: usize) -> Option<u32>
    ensures { result ≡ parent_of (slice_get versions.now at) }
{
    match versions.get(at) {
        Some(version) => version.parent,
        None => None,
    }
}

// The first place of a version of a number.
fn place_of(versions: &[Version], number: u32) -> Option<usize>
    ensures { result ≡ position (is_numbered number) versions.now }
{
    versions.iter().position(|version| version.number == number)
}
