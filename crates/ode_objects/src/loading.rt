//! What the records have of an object, whole.
ghost use Rattle.std.specs.Prelude.{◌≡◌, [], true, IsErrOf, IsTrue, None, Some};
ghost use Rattle.std.specs.Option.{option_copied};
ghost use Rattle.ode_heap.specs.Answers.{Answers, UnlessFault, is_usable};
ghost use Rattle.ode_host.specs.Causes.{RoseIf};
ghost use Rattle.ode_host.specs.Host.{Looks};
ghost use Rattle.ode_keep.specs.Entries.{Entries};
ghost use Rattle.ode_objects.specs.Loading.{Gives, active_of, actives_from, actives_in, class_in, fields_in, stamped_fields, version_read, versions_from, whole_in, with_parts};

use crate::keys::{activation_key, object_key, version_key};
use crate::object::{Active, Fields, Object, Version};
use crate::values::KeptArgs;
use ode_codec::Activation;
use ode_heap::{Heap, HeapError, ObjectHead, Stamped};
use ode_host::Host;
use ode_keep::Keep;
use ode_types::Classes;
use ode_value::{Class, List, Value};
use ode_versions::Version as Listed;
use std::alloc::Global;

/// The class of an object.
pub fn class_of(classes: &Classes, id: u64, number: u32) -> Result<&Class, HeapError>
    ensures value { Gives (λ c. c.now) result (class_in classes.now id number) }
    ensures usable { is_usable result ≡ true }
    ensures calm { IsErrOf result HeapError.DiskFault → ⊥ }
{
    match classes.class(number) {
        Some(class) => Ok(class),
        None => Err(HeapError::Damaged {
            key: object_key(id),
        }),
    }
}

/// The fields of a version that the object has.
pub fn load_fields<H: Host, K: Keep<H>>(
    alloc: Global,
    heap: &mut Heap<K>,
    host: &mut H,
    id: u64,
    number: u32,
    class: &Class,
) -> Result<List<Value>, HeapError>
    requires live { IsTrue (K.live heap.old) }
    ensures value { (base : Entries) → K.holds heap.old (H.view host.old) base → Answers result (fields_in base id number class.now) }
    ensures holds { UnlessFault result ((base : Entries) → K.holds heap.old (H.view host.old) base → K.holds heap.new (H.view host.new) base) }
    ensures looks { Looks (H.view host.old) (H.view host.new) }
    ensures usable { K.live heap.new ≡ is_usable result }
    ensures cause { RoseIf (IsErrOf result HeapError.DiskFault) (H.view host.old).disk_faults (H.view host.new).disk_faults }
{
    match heap.load_version(alloc, host, id, number, class)? {
        Some(fields) => Ok(fields),
        None => Err(HeapError::Damaged {
            key: version_key(id, u64::from(number)),
        }),
    }
}

// The fields of a version that the object has, with its stamp.
fn load_stamped<H: Host, K: Keep<H>>(
    alloc: Global,
    heap: &mut Heap<K>,
    host: &mut H,
    id: u64,
    number: u32,
    class: &Class,
) -> Result<Stamped, HeapError>
    requires live { IsTrue (K.live heap.old) }
    ensures value { (base : Entries) → K.holds heap.old (H.view host.old) base → Answers result (stamped_fields base id number class.now) }
    ensures holds { UnlessFault result ((base : Entries) → K.holds heap.old (H.view host.old) base → K.holds heap.new (H.view host.new) base) }
    ensures looks { Looks (H.view host.old) (H.view host.new) }
    ensures usable { K.live heap.new ≡ is_usable result }
    ensures cause { RoseIf (IsErrOf result HeapError.DiskFault) (H.view host.old).disk_faults (H.view host.new).disk_faults }
{
    match heap.load_stamped(alloc, host, id, number, class)? {
        Some(found) => Ok(found),
        None => Err(HeapError::Damaged {
            key: version_key(id, u64::from(number)),
        }),
    }
}

// A version as it was read.
fn version_read(version: &Listed, found: Stamped) -> Version
    ensures { result ≡ version_read version.now found }
{
    Version {
        number: version.number,
        parent: version.parent,
        fields: Fields::Read {
            stamp: found.stamp,
            values: found.fields,
        },
    }
}

fn load_versions<H: Host, K: Keep<H>>(
    alloc: Global,
    heap: &mut Heap<K>,
    host: &mut H,
    id: u64,
    class: &Class,
    listed: &[Listed],
) -> Result<List<Version>, HeapError>
    requires live { IsTrue (K.live heap.old) }
    ensures value { (base : Entries) → K.holds heap.old (H.view host.old) base → Answers result (versions_from base id class.now [] listed.now) }
    ensures holds { UnlessFault result ((base : Entries) → K.holds heap.old (H.view host.old) base → K.holds heap.new (H.view host.new) base) }
    ensures looks { Looks (H.view host.old) (H.view host.new) }
    ensures usable { K.live heap.new ≡ is_usable result }
    ensures cause { RoseIf (IsErrOf result HeapError.DiskFault) (H.view host.old).disk_faults (H.view host.new).disk_faults }
{
    let mut versions = List::new(alloc);
    for version in listed {
        let found = load_stamped(alloc, heap, host, id, version.number, class)?;
        versions.push(version_read(version, found))?;
    }
    Ok(versions)
}

// An activation of a record, which is on.
fn active_of(activation: Activation) -> Result<Active, HeapError>
    ensures value { Answers result (active_of activation) }
    ensures usable { is_usable result ≡ true }
    ensures calm { IsErrOf result HeapError.DiskFault → ⊥ }
{
    let Activation {
        object,
        number,
        class,
        trigger,
        state,
        args,
    } = activation;
    match KeptArgs::new(args) {
        Some(args) => Ok(Active {
            number,
            class,
            trigger,
            args,
            state,
            on: true,
        }),
        None => Err(HeapError::Damaged {
            key: activation_key(object, number),
        }),
    }
}

// The activations of records.
fn actives_of(alloc: Global, activations: List<Activation>) -> Result<List<Active>, HeapError>
    ensures value { Answers result (actives_from [] activations) }
    ensures usable { is_usable result ≡ true }
    ensures calm { IsErrOf result HeapError.DiskFault → ⊥ }
{
    let mut actives = List::new(alloc);
    for activation in activations.into_vec() {
        actives.push(active_of(activation)?)?;
    }
    Ok(actives)
}

/// The activations that the records have of an object, in rising order of numbers.
#[tactic(auto, unfolding(crate::specs::Loading::actives_in))]
pub fn load_actives<H: Host, K: Keep<H>>(
    alloc: Global,
    classes: &Classes,
    heap: &mut Heap<K>,
    host: &mut H,
    id: u64,
) -> Result<List<Active>, HeapError>
    requires live { IsTrue (K.live heap.old) }
    ensures value { (base : Entries) → K.holds heap.old (H.view host.old) base → Answers result (actives_in classes.now base id) }
    ensures holds { UnlessFault result ((base : Entries) → K.holds heap.old (H.view host.old) base → K.holds heap.new (H.view host.new) base) }
    ensures looks { Looks (H.view host.old) (H.view host.new) }
    ensures usable { K.live heap.new ≡ is_usable result }
    ensures cause { RoseIf (IsErrOf result HeapError.DiskFault) (H.view host.old).disk_faults (H.view host.new).disk_faults }
{
    let activations = heap.activations_of(alloc, host, id, classes)?;
    actives_of(alloc, activations)
}

// The object of a head, with its fields and its activations.
fn load_parts<H: Host, K: Keep<H>>(
    alloc: Global,
    classes: &Classes,
    heap: &mut Heap<K>,
    host: &mut H,
    id: u64,
    head: &ObjectHead,
) -> Result<Option<Object>, HeapError>
    requires live { IsTrue (K.live heap.old) }
    ensures value { (base : Entries) → K.holds heap.old (H.view host.old) base → Answers result (with_parts classes.now base id (Some head.now)) }
    ensures holds { UnlessFault result ((base : Entries) → K.holds heap.old (H.view host.old) base → K.holds heap.new (H.view host.new) base) }
    ensures looks { Looks (H.view host.old) (H.view host.new) }
    ensures usable { K.live heap.new ≡ is_usable result }
    ensures cause { RoseIf (IsErrOf result HeapError.DiskFault) (H.view host.old).disk_faults (H.view host.new).disk_faults }
{
    let class = class_of(classes, id, head.class)?;
    let versions = load_versions(
        alloc,
        heap,
        host,
        id,
        class,
        head.versions.versions.as_slice(),
    )?;
    match load_actives(alloc, classes, heap, host, id) {
        Ok(activations) => Ok(Some(Object {
            class: head.class,
            live: true,
            last: head.versions.last,
            versions,
            activations,
        })),
        Err(why) => Err(why),
    }
}

/// An object that the records have, if they have it.
#[tactic(auto, unfolding(crate::specs::Loading::whole_in))]
pub fn load<H: Host, K: Keep<H>>(
    alloc: Global,
    classes: &Classes,
    heap: &mut Heap<K>,
    host: &mut H,
    id: u64,
) -> Result<Option<Object>, HeapError>
    requires live { IsTrue (K.live heap.old) }
    ensures value { (base : Entries) → K.holds heap.old (H.view host.old) base → Answers result (whole_in classes.now base id) }
    ensures holds { UnlessFault result ((base : Entries) → K.holds heap.old (H.view host.old) base → K.holds heap.new (H.view host.new) base) }
    ensures looks { Looks (H.view host.old) (H.view host.new) }
    ensures usable { K.live heap.new ≡ is_usable result }
    ensures cause { RoseIf (IsErrOf result HeapError.DiskFault) (H.view host.old).disk_faults (H.view host.new).disk_faults }
{
    match heap.load_object(alloc, host, id)? {
        None => Ok(None),
        Some(head) => load_parts(alloc, classes, heap, host, id, &head),
    }
}
