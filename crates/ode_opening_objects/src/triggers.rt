//! What activations and the queue's entries ask of triggers, objects and numbers.
ghost use Rattle.std.specs.Prelude.{◌≡◌};
ghost use Rattle.std.specs.List.{slice_get};
ghost use Rattle.std.specs.Option.{option_and_then, option_copied, option_map_or};
ghost use Rattle.ode_value.specs.declared.class.Class.{Class as OfClass};
ghost use Rattle.ode_opening_objects.specs.Fitting.{descends};
ghost use Rattle.ode_opening_objects.specs.Numbers.{at, is_twice};
ghost use Rattle.ode_opening_objects.specs.States.{is_seen};
ghost use Rattle.ode_opening_objects.specs.Triggers.{activation_fits, entry_fits, fit_trigger, goes_on, has_turn, have_trigger, is_own_number, trigger_under, waits};
ghost use Rattle.ode_opening_objects.specs.declared.head.Head.{Head as Known};

use crate::climbing::climbs;
use crate::fitting::match_sorts;
use crate::scene::Scene;
use ode_codec::{Activation, Counters, Entry, Record, values_fit};
use ode_passes::Cause;
use ode_types::Classes;
use ode_value::limits::{ARGS_LIMIT, GENERATION_LIMIT};
use ode_value::{Class, Key, TriggerDecl, Value};

// The trigger at a place of a class, where the class is there.
fn own_trigger(class: Option<&Class>, place: u16) -> Option<&TriggerDecl>
    ensures { option_copied result ≡ option_and_then (λ (c : OfClass). slice_get c.triggers place) (option_copied class.entry) }
{
    class?.triggers.as_slice().get(usize::from(place))
}

/// The trigger at a place of the class that declares it.
pub(crate) fn trigger_under(classes: &Classes, class: u32, place: u16) -> Option<&TriggerDecl>
    ensures { option_copied result ≡ trigger_under classes.now class place }
{
    own_trigger(classes.class(class), place)
}

#[tactic(auto, unfolding(ode_value::specs::Limits::args_limit))]
fn fit_trigger(args: &[Value], trigger: &TriggerDecl) -> bool
    ensures { result ≡ fit_trigger args.now trigger.now }
{
    match_sorts(0, trigger.params.as_slice(), args) && values_fit(args, ARGS_LIMIT)
}

// Whether there is a trigger whose parameters the arguments fit.
fn have_trigger(classes: &Classes, class: u32, place: u16, args: &[Value]) -> bool
    ensures { result ≡ have_trigger classes.now class place args.now }
{
    match trigger_under(classes, class, place) {
        Some(trigger) => fit_trigger(args, trigger),
        None => false,
    }
}

// Whether the class of an object is this one or inherits from it; and what is said where the object isn't there.
fn has_class(scene: &Scene, object: u64, class: u32, absent: bool) -> bool
    ensures { result ≡ option_map_or (λ (h : Known). descends scene.now.classes h.class class) (at scene.now.heads object) absent }
{
    match scene.heads.at(object) {
        Some(head) => climbs(scene.classes, head.class, &class),
        None => absent,
    }
}

fn is_own_number(scene: &Scene, number: u64) -> bool
    ensures { result ≡ is_own_number scene.now.counters.next_number (at scene.now.heads) (is_twice scene.now.numbers) number }
{
    number < scene.counters.next_number
        && scene.heads.at(number).is_none()
        && !scene.numbers.is_twice(number)
}

fn activation_fits(scene: &Scene, a: &Activation) -> bool
    ensures { result ≡ activation_fits scene.now.counters.next_number scene.now.classes (at scene.now.heads) (is_twice scene.now.numbers) a.now }
{
    has_class(scene, a.object, a.class, false)
        && have_trigger(scene.classes, a.class, a.trigger, a.args.as_slice())
        && is_own_number(scene, a.number)
}

/// Whether an activation keeps its rule.
pub(crate) fn goes_on(scene: &Scene, key: Key, a: &Activation) -> Result<(), Cause>
    ensures { result ≡ goes_on scene.now.counters.next_number scene.now.classes (at scene.now.heads) (is_twice scene.now.numbers) (is_seen scene.now.states) key a.now }
{
    if !activation_fits(scene, a) {
        return Err(Cause::Record(key));
    }
    if !scene.states.is_seen(a.class, a.trigger, a.state) {
        return Err(Cause::State(a.object, a.number));
    }
    Ok(())
}

#[tactic(auto, unfolding(ode_value::specs::Limits::generation_limit))]
fn has_turn(counters: Counters, number: u64, q: &Entry) -> bool
    ensures { result ≡ has_turn counters number q.now }
{
    number < counters.next_entry && 1 <= q.generation && q.generation <= GENERATION_LIMIT
}

fn waits(scene: &Scene, number: u64, q: &Entry) -> bool
    ensures { result ≡ waits scene.now.counters scene.now.classes (at scene.now.heads) number q.now }
{
    has_turn(scene.counters, number, q)
        && have_trigger(scene.classes, q.class, q.trigger, q.args.as_slice())
        && q.object < scene.counters.next_number
        && has_class(scene, q.object, q.class, true)
}

/// Whether a record is that of an entry that keeps its rule.
pub(crate) fn entry_fits(scene: &Scene, row: &Record) -> bool
    ensures { result ≡ entry_fits scene.now.counters scene.now.classes (at scene.now.heads) row.now }
{
    match row {
        Record::Entry { number, entry } => waits(scene, *number, entry),
        _ => false,
    }
}
