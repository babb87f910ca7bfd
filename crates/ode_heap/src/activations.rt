//! The activations of an object.
ghost use Rattle.std.specs.Prelude.{◌≡◌, true, IsErrOf, IsTrue};
ghost use Rattle.ode_host.specs.Causes.{RoseIf};
ghost use Rattle.ode_host.specs.Host.{Looks};
ghost use Rattle.ode_keep.specs.Entries.{Entries};
ghost use Rattle.ode_heap.specs.Activations.{activations_in, as_activation, fit_params, fits};
ghost use Rattle.ode_heap.specs.Answers.{Answers, OnDamaged, UnlessFault, is_usable};
ghost use Rattle.ode_heap.specs.Staging.{OnTooLarge};
ghost use Rattle.ode_value.specs.Keys.{activation_kind};

use crate::error::HeapError;
use crate::object::next_record;
use ode_codec::{Activation, Record, has_sort};
use ode_host::Host;
use ode_keep::Keep;
use ode_types::Classes;
use ode_value::{Key, List, Param, Value};
use std::alloc::Global;

fn fit_params(params: &[Param], args: &[Value]) -> bool
    ensures { result ≡ fit_params params.now args.now }
{
    match params {
        [] => match args {
            [] => true,
            [_, ..] => false,
        },
        [param, params @ ..] => match args {
            [] => false,
            [value, args @ ..] => { has_sort(&param.sort, value) && fit_params(params, args) }
        },
    }
}

// Whether there is the trigger of an activation, and the arguments fit it.
fn fits(classes: &Classes, activation: &Activation) -> bool
    ensures { result ≡ fits classes.now activation.now }
{
    let Some(class) = classes.class(activation.class) else {
        return false;
    };
    let place = usize::from(activation.trigger);
    match class.triggers.as_slice().get(place) {
        Some(trigger) => fit_params(trigger.params.as_slice(), activation.args.as_slice()),
        None => false,
    }
}

// The activation of a record.
fn activation_of(classes: &Classes, key: Key, found: Record) -> Result<Activation, HeapError>
    ensures value { Answers result (as_activation classes.now key found) }
    ensures usable { is_usable result ≡ true }
    ensures calm { IsErrOf result HeapError.DiskFault → ⊥ }
    ensures at { OnDamaged result (λ k. k ≡ key) }
{
    match found {
        Record::Activation(activation) => {
            if fits(classes, &activation) {
                Ok(activation)
            } else {
                Err(HeapError::Damaged { key })
            }
        }
        _ => Err(HeapError::Damaged { key }),
    }
}

// The activations of an object, in the order of their numbers.
pub(crate) fn read_activations<H: Host, K: Keep<H>>(
    alloc: Global,
    keeper: &mut K,
    host: &mut H,
    id: u64,
    classes: &Classes,
) -> Result<List<Activation>, HeapError>
    requires live { IsTrue (K.live keeper.old) }
    ensures value { (entries : Entries) → K.holds keeper.old (H.view host.old) entries → Answers result (activations_in entries id classes.now) }
    ensures holds { UnlessFault result ((entries : Entries) → K.holds keeper.old (H.view host.old) entries
        → K.holds keeper.new (H.view host.new) entries) }
    ensures looks { Looks (H.view host.old) (H.view host.new) }
    ensures usable { K.live keeper.new ≡ is_usable result }
    ensures cause { RoseIf (IsErrOf result HeapError.DiskFault) (H.view host.old).disk_faults (H.view host.new).disk_faults }
    ensures too_large { OnTooLarge result (λ _. ⊥) }
    ensures at { OnDamaged result (λ k. (k.kind ≡ activation_kind) × (k.a ≡ id)) }
{
    let mut activations = List::new(alloc);
    let mut from: u64 = 0;
    'activations: loop {
        let start = Key {
            kind: Key::ACTIVATION,
            a: id,
            b: from,
        };
        let Some((key, found)) = next_record(alloc, keeper, host, start)? else {
            return Ok(activations);
        };
        let activation = activation_of(classes, key, found)?;
        activations.push(activation)?;
        let Some(next) = key.b.checked_add(1) else {
            return Ok(activations);
        };
        from = next;
    }
}
