//! What is seen of objects through the overlay.
ghost use Rattle.std.specs.Prelude.{◌≡◌, [], true, All, IfOk, IsErrOf, IsTrue, Some};
ghost use Rattle.std.specs.Option.{IfSome};
ghost use Rattle.ode_host.specs.Causes.{RoseIf};
ghost use Rattle.ode_host.specs.Host.{Looks};
ghost use Rattle.ode_keep.specs.Entries.{Entries};
ghost use Rattle.ode_overlay.specs.Answers.{◌>>=◌ as bind, Answers, UnlessFault, from_records, is_usable};
ghost use Rattle.ode_objects.specs.Values.{are_args};
ghost use Rattle.ode_overlay.specs.Reading.{acts, field_in, field_of, head_now, is_rising, map_of, not_null, object, or_else, place_from, read, read_below, read_now, rise_above, running_from, running_of, shown, shown_below};
ghost use Rattle.ode_objects.specs.Loading.{actives_in, class_in, fields_in};
ghost use Rattle.ode_overlay.specs.declared.error.OverlayError.TheVariants.{NoVersion};
ghost use Rattle.ode_versions.specs.Versions.{IsVersionList, found};

use crate::error::OverlayError;
use crate::overlay::Overlay;
use ode_host::Host;
use ode_keep::Keep;
use ode_objects::{
    Active, Heap, Object, ObjectHead, Version, activation_key, class_of, load_actives, load_fields,
    object_key,
};
use ode_types::{Classes, Running};
use ode_value::{Copied, List, Ref, Value};
use ode_versions::{Version as Listed, VersionList};
use std::alloc::Global;

fn rise_above(last: u32, low: u32, versions: &[Listed]) -> bool
    ensures { result ≡ rise_above last low versions.now }
{
    let mut below = low;
    for version in versions {
        if version.number <= below || last < version.number {
            return false;
        }
        below = version.number;
    }
    true
}

// Whether the numbers of versions rise, and the last of all is at least each.
fn is_rising(list: &VersionList) -> bool
    ensures test { result ≡ is_rising list.now.last list.now.versions }
{
    match list.versions.as_slice() {
        [] => false,
        [version, versions @ ..] => {
            version.number <= list.last && rise_above(list.last, version.number, versions)
        }
    }
}

// A head whose versions are those of an object.
#[tactic(auto, using(crate::proofs::Rising::are_versions))]
fn shown(id: u64, head: ObjectHead) -> Result<Option<ObjectHead>, OverlayError>
    ensures value { Answers result (shown id (Some head)) }
    ensures versions { IfOk result (λ found. IfSome found (λ head. IsVersionList head.versions)) }
    ensures usable { is_usable result ≡ true }
    ensures calm { IsErrOf result OverlayError.DiskFault → ⊥ }
{
    if is_rising(&head.versions) {
        Ok(Some(head))
    } else {
        Err(OverlayError::Damaged {
            key: object_key(id),
        })
    }
}

/// Null has no object.
pub(crate) fn not_null(of: Ref) -> Result<(), OverlayError>
    ensures value { Answers result (not_null of) }
    ensures usable { is_usable result ≡ true }
    ensures calm { IsErrOf result OverlayError.DiskFault → ⊥ }
{
    if of.object == 0 {
        Err(OverlayError::NoObject(0))
    } else {
        Ok(())
    }
}

// The value in a slot, taken out.
fn take_field(slot: u16, fields: List<Value>) -> Result<Value, OverlayError>
    ensures value { Answers result (field_of slot fields) }
    ensures usable { is_usable result ≡ true }
    ensures calm { IsErrOf result OverlayError.DiskFault → ⊥ }
{
    let mut fields = fields;
    let slot = usize::from(slot);
    if slot < fields.len() {
        Ok(fields.remove(slot))
    } else {
        Err(OverlayError::NoObject(0))
    }
}

// A copy of the value in a slot.
fn copy_field(alloc: Global, slot: u16, version: &Version) -> Result<Value, OverlayError>
    ensures value { Answers result (field_in slot version.now) }
    ensures usable { is_usable result ≡ true }
    ensures calm { IsErrOf result OverlayError.DiskFault → ⊥ }
{
    match version.fields.values().as_slice().get(usize::from(slot)) {
        Some(value) => Ok(value.copy(alloc)?),
        None => Err(OverlayError::NoObject(0)),
    }
}

#[tactic(auto, unfolding(crate::specs::Reading::read_now))]
fn read_now(alloc: Global, of: Ref, slot: u16, object: &Object) -> Result<Value, OverlayError>
    ensures value { Answers result (read_now of slot object.now) }
    ensures usable { is_usable result ≡ true }
    ensures calm { IsErrOf result OverlayError.DiskFault → ⊥ }
{
    if !object.live {
        return Err(OverlayError::NoObject(of.object));
    }
    match object.version(of.version) {
        Some(version) => copy_field(alloc, slot, version),
        None => Err(OverlayError::NoVersion(of)),
    }
}

// The version that a reference denotes.
fn found(of: Ref, head: &ObjectHead) -> Result<u32, OverlayError>
    requires { IsVersionList head.now.versions }
    ensures value { Answers result (or_else (NoVersion of) (found of.version head.now.versions)) }
    ensures usable { is_usable result ≡ true }
    ensures calm { IsErrOf result OverlayError.DiskFault → ⊥ }
{
    match head.versions.find(of.version) {
        Some(number) => Ok(number),
        None => Err(OverlayError::NoVersion(of)),
    }
}

fn read_in<H: Host, K: Keep<H>>(
    alloc: Global,
    classes: &Classes,
    heap: &mut Heap<K>,
    host: &mut H,
    of: Ref,
    slot: u16,
    head: &ObjectHead,
) -> Result<Value, OverlayError>
    requires live { IsTrue (K.live heap.old) }
    requires versions { IsVersionList head.now.versions }
    ensures value { (base : Entries) → K.holds heap.old (H.view host.old) base → Answers result (bind (or_else (NoVersion of) (found of.version head.now.versions)) (λ number. bind (from_records (class_in classes.now of.object head.now.class)) (λ class. bind (from_records (fields_in base of.object number class)) (field_of slot)))) }
    ensures holds { UnlessFault result ((base : Entries) → K.holds heap.old (H.view host.old) base → K.holds heap.new (H.view host.new) base) }
    ensures looks { Looks (H.view host.old) (H.view host.new) }
    ensures usable { K.live heap.new ≡ is_usable result }
    ensures cause { RoseIf (IsErrOf result OverlayError.DiskFault) (H.view host.old).disk_faults (H.view host.new).disk_faults }
{
    let number = found(of, head)?;
    let class = class_of(classes, of.object, head.class)?;
    let fields = load_fields(alloc, heap, host, of.object, number, class)?;
    take_field(slot, fields)
}

#[tactic(auto, using(crate::proofs::Rising::are_versions), unfolding(crate::specs::Reading::read_below))]
fn read_below<H: Host, K: Keep<H>>(
    alloc: Global,
    classes: &Classes,
    heap: &mut Heap<K>,
    host: &mut H,
    of: Ref,
    slot: u16,
) -> Result<Value, OverlayError>
    requires live { IsTrue (K.live heap.old) }
    ensures value { (base : Entries) → K.holds heap.old (H.view host.old) base → Answers result (read_below classes.now base of slot) }
    ensures holds { UnlessFault result ((base : Entries) → K.holds heap.old (H.view host.old) base → K.holds heap.new (H.view host.new) base) }
    ensures looks { Looks (H.view host.old) (H.view host.new) }
    ensures usable { K.live heap.new ≡ is_usable result }
    ensures cause { RoseIf (IsErrOf result OverlayError.DiskFault) (H.view host.old).disk_faults (H.view host.new).disk_faults }
{
    let Some(head) = heap.load_object(alloc, host, of.object)? else {
        return Err(OverlayError::NoObject(of.object));
    };
    if is_rising(&head.versions) {
        read_in(alloc, classes, heap, host, of, slot, &head)
    } else {
        Err(OverlayError::Damaged {
            key: object_key(of.object),
        })
    }
}

// The place of a trigger's table.
fn place_of(maps: &[u32], class: u32, trigger: u16) -> Option<u32>
    ensures { result ≡ place_from trigger (map_of maps.now class) }
{
    let class = class.checked_sub(1)?;
    let first = maps.get(class as usize).copied()?;
    first.checked_add(u32::from(trigger))
}

fn running_of(
    alloc: Global,
    maps: &[u32],
    id: u64,
    active: &Active,
) -> Result<Running, OverlayError>
    ensures value { Answers result (running_of maps.now id active.now) }
    ensures short { IfOk result (λ a. are_args a.args ≡ true) }
    ensures usable { is_usable result ≡ true }
    ensures calm { IsErrOf result OverlayError.DiskFault → ⊥ }
{
    let Some(table) = place_of(maps, active.class, active.trigger) else {
        return Err(OverlayError::Damaged {
            key: activation_key(id, active.number),
        });
    };
    Ok(Running {
        id: active.number,
        class: active.class,
        trigger: active.trigger,
        args: active.args.values().copy(alloc)?,
        state: active.state,
        on: active.on,
        table,
    })
}

fn running_in(
    alloc: Global,
    maps: &[u32],
    id: u64,
    actives: &[Active],
) -> Result<List<Running>, OverlayError>
    ensures value { Answers result (running_from maps.now id [] actives.now) }
    ensures short { IfOk result (All (λ a. are_args a.args ≡ true)) }
    ensures usable { is_usable result ≡ true }
    ensures calm { IsErrOf result OverlayError.DiskFault → ⊥ }
{
    let mut running = List::new(alloc);
    for active in actives {
        running.push(running_of(alloc, maps, id, active)?)?;
    }
    Ok(running)
}

fn acts_below<H: Host, K: Keep<H>>(
    alloc: Global,
    classes: &Classes,
    heap: &mut Heap<K>,
    host: &mut H,
    id: u64,
    maps: &[u32],
) -> Result<List<Running>, OverlayError>
    requires live { IsTrue (K.live heap.old) }
    ensures value { (base : Entries) → K.holds heap.old (H.view host.old) base → Answers result (bind (from_records (actives_in classes.now base id)) (running_from maps.now id [])) }
    ensures short { IfOk result (All (λ a. are_args a.args ≡ true)) }
    ensures holds { UnlessFault result ((base : Entries) → K.holds heap.old (H.view host.old) base → K.holds heap.new (H.view host.new) base) }
    ensures looks { Looks (H.view host.old) (H.view host.new) }
    ensures usable { K.live heap.new ≡ is_usable result }
    ensures cause { RoseIf (IsErrOf result OverlayError.DiskFault) (H.view host.old).disk_faults (H.view host.new).disk_faults }
{
    let actives = load_actives(alloc, classes, heap, host, id)?;
    running_in(alloc, maps, id, actives.as_slice())
}

fn object_below<H: Host, K: Keep<H>>(
    alloc: Global,
    heap: &mut Heap<K>,
    host: &mut H,
    id: u64,
) -> Result<Option<ObjectHead>, OverlayError>
    requires live { IsTrue (K.live heap.old) }
    ensures value { (base : Entries) → K.holds heap.old (H.view host.old) base → Answers result (shown_below base id) }
    ensures versions { IfOk result (λ found. IfSome found (λ head. IsVersionList head.versions)) }
    ensures holds { UnlessFault result ((base : Entries) → K.holds heap.old (H.view host.old) base → K.holds heap.new (H.view host.new) base) }
    ensures looks { Looks (H.view host.old) (H.view host.new) }
    ensures usable { K.live heap.new ≡ is_usable result }
    ensures cause { RoseIf (IsErrOf result OverlayError.DiskFault) (H.view host.old).disk_faults (H.view host.new).disk_faults }
{
    match heap.load_object(alloc, host, id)? {
        Some(head) => shown(id, head),
        None => Ok(None),
    }
}

fn object_now(alloc: Global, id: u64, object: &Object) -> Result<Option<ObjectHead>, OverlayError>
    ensures value { Answers result (shown id (head_now object.now)) }
    ensures versions { IfOk result (λ found. IfSome found (λ head. IsVersionList head.versions)) }
    ensures usable { is_usable result ≡ true }
    ensures calm { IsErrOf result OverlayError.DiskFault → ⊥ }
{
    if !object.live {
        return Ok(None);
    }
    shown(id, object.head(alloc)?)
}

impl Overlay {
    /// The class and the versions of an object, where it is there.
    #[tactic(auto, unfolding(crate::specs::Reading::object))]
    pub fn object<H: Host, K: Keep<H>>(
        &self,
        _classes: &Classes,
        heap: &mut Heap<K>,
        host: &mut H,
        id: u64,
    ) -> Result<Option<ObjectHead>, OverlayError>
        requires live { IsTrue (K.live heap.old) }
        ensures value { (base : Entries) → K.holds heap.old (H.view host.old) base → Answers result (object base id self.now) }
        ensures versions { IfOk result (λ found. IfSome found (λ head. IsVersionList head.versions)) }
        ensures holds { UnlessFault result ((base : Entries) → K.holds heap.old (H.view host.old) base → K.holds heap.new (H.view host.new) base) }
        ensures looks { Looks (H.view host.old) (H.view host.new) }
        ensures usable { K.live heap.new ≡ is_usable result }
        ensures cause { RoseIf (IsErrOf result OverlayError.DiskFault) (H.view host.old).disk_faults (H.view host.new).disk_faults }
    {
        match self.objects.get(&id) {
            Some(tracked) => object_now(self.alloc, id, &tracked.current),
            None => object_below(self.alloc, heap, host, id),
        }
    }

    /// A field of the version that a reference denotes. A slot that there isn't is read as null is.
    #[tactic(auto, unfolding(crate::specs::Reading::read))]
    pub fn read<H: Host, K: Keep<H>>(
        &self,
        classes: &Classes,
        heap: &mut Heap<K>,
        host: &mut H,
        of: Ref,
        slot: u16,
    ) -> Result<Value, OverlayError>
        requires live { IsTrue (K.live heap.old) }
        ensures value { (base : Entries) → K.holds heap.old (H.view host.old) base → Answers result (read classes.now base of slot self.now) }
        ensures holds { UnlessFault result ((base : Entries) → K.holds heap.old (H.view host.old) base → K.holds heap.new (H.view host.new) base) }
        ensures looks { Looks (H.view host.old) (H.view host.new) }
        ensures usable { K.live heap.new ≡ is_usable result }
        ensures cause { RoseIf (IsErrOf result OverlayError.DiskFault) (H.view host.old).disk_faults (H.view host.new).disk_faults }
    {
        not_null(of)?;
        match self.objects.get(&of.object) {
            Some(tracked) => read_now(self.alloc, of, slot, &tracked.current),
            None => read_below(self.alloc, classes, heap, host, of, slot),
        }
    }

    /// All activations of an object in rising order of numbers, those that are off and those of a removed object among them. The
    /// place of a trigger's table is that of its class in `maps` and the trigger's from there.
    #[tactic(auto, unfolding(crate::specs::Reading::acts))]
    pub fn acts<H: Host, K: Keep<H>>(
        &self,
        classes: &Classes,
        heap: &mut Heap<K>,
        host: &mut H,
        id: u64,
        maps: &List<u32>,
    ) -> Result<List<Running>, OverlayError>
        requires live { IsTrue (K.live heap.old) }
        ensures value { (base : Entries) → K.holds heap.old (H.view host.old) base → Answers result (acts classes.now base id maps.now self.now) }
        ensures short { IfOk result (All (λ a. are_args a.args ≡ true)) }
        ensures holds { UnlessFault result ((base : Entries) → K.holds heap.old (H.view host.old) base → K.holds heap.new (H.view host.new) base) }
        ensures looks { Looks (H.view host.old) (H.view host.new) }
        ensures usable { K.live heap.new ≡ is_usable result }
        ensures cause { RoseIf (IsErrOf result OverlayError.DiskFault) (H.view host.old).disk_faults (H.view host.new).disk_faults }
    {
        match self.objects.get(&id) {
            Some(tracked) => running_in(
                self.alloc,
                maps.as_slice(),
                id,
                tracked.current.activations.as_slice(),
            ),
            None => acts_below(self.alloc, classes, heap, host, id, maps.as_slice()),
        }
    }
}
