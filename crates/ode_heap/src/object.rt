//! The head of an object: its class and its versions.
ghost use Rattle.std.specs.Prelude.{◌≡◌, ◌==◌, ◌&&◌, ◌≤◌, true, IfOk, IsErrOf, IsTrue};
ghost use Rattle.std.specs.Option.{IfSome};
ghost use Rattle.ode_host.specs.Causes.{RoseIf};
ghost use Rattle.ode_host.specs.Host.{Looks};
ghost use Rattle.ode_keep.specs.Entries.{Entries};
ghost use Rattle.ode_heap.specs.Answers.{Answers, OnDamaged, There, UnlessFault, is_usable};
ghost use Rattle.ode_heap.specs.Looking.{as_version, object_from, object_number};
ghost use Rattle.ode_heap.specs.Objects.{IsOfObject, object_in, versions_in};
ghost use Rattle.ode_heap.specs.Staging.{OnTooLarge};
ghost use Rattle.ode_heap.specs.Walking.{is_from, next_in};
ghost use Rattle.ode_value.specs.Keys.{key, object_key, version_kind};

use crate::error::HeapError;
use crate::looking::{least_key, look_up};
use ode_codec::Record;
use ode_host::Host;
use ode_keep::Keep;
use ode_value::{Key, List};
use ode_versions::{Version, VersionList};
use std::alloc::Global;

/// What an object is: its class, and its versions without their fields.
#[derive(Debug, Drop)]
pub struct ObjectHead {
    pub class: u32,
    pub versions: VersionList,
}

// Whether a key has this one's kind and first number.
fn is_beside(found: Key, start: Key) -> bool
    ensures { result ≡ (found.kind == start.kind && found.a == start.a) }
{
    found.kind == start.kind && found.a == start.a
}

// The first record at or above a key with its kind and its first number, if there is one, with its key.
#[tactic(auto, unfolding(crate::specs::Walking::next_in))]
pub(crate) fn next_record<H: Host, K: Keep<H>>(
    alloc: Global,
    keeper: &mut K,
    host: &mut H,
    start: Key,
) -> Result<Option<(Key, Record)>, HeapError>
    requires live { IsTrue (K.live keeper.old) }
    ensures value { (entries : Entries) → K.holds keeper.old (H.view host.old) entries → Answers result (next_in entries start) }
    ensures holds { UnlessFault result ((entries : Entries) → K.holds keeper.old (H.view host.old) entries
        → K.holds keeper.new (H.view host.new) entries) }
    ensures looks { Looks (H.view host.old) (H.view host.new) }
    ensures usable { K.live keeper.new ≡ is_usable result }
    ensures cause { RoseIf (IsErrOf result HeapError.DiskFault) (H.view host.old).disk_faults (H.view host.new).disk_faults }
    ensures above { IfOk result (λ found. IfSome found (λ f. start.b ≤ f.0.b)) }
    ensures beside { IfOk result (λ found. IfSome found (λ f. (f.0.kind ≡ start.kind) × (f.0.a ≡ start.a))) }
    ensures too_large { OnTooLarge result (λ _. ⊥) }
    ensures at { OnDamaged result (λ k. (k.kind ≡ start.kind) × (k.a ≡ start.a)) }
{
    let Some(key) = least_key(keeper, host, start)? else {
        return Ok(None);
    };
    if !is_beside(key, start) {
        return Ok(None);
    }
    match look_up(alloc, keeper, host, key)? {
        Some(found) => Ok(Some((key, found))),
        None => Err(HeapError::Damaged { key }),
    }
}

// The version of a record.
fn version_of(key: Key, found: &Record) -> Result<Version, HeapError>
    ensures value { Answers result (as_version key found.now) }
    ensures usable { is_usable result ≡ true }
    ensures calm { IsErrOf result HeapError.DiskFault → ⊥ }
    ensures at { OnDamaged result (λ k. k ≡ key) }
{
    match found {
        Record::Version { number, parent, .. } => Ok(Version {
            number: *number,
            parent: if *parent == 0 { None } else { Some(*parent) },
        }),
        _ => Err(HeapError::Damaged { key }),
    }
}

// The versions of an object, in the order of their numbers.
fn read_versions<H: Host, K: Keep<H>>(
    alloc: Global,
    keeper: &mut K,
    host: &mut H,
    id: u64,
) -> Result<List<Version>, HeapError>
    requires live { IsTrue (K.live keeper.old) }
    ensures value { (entries : Entries) → K.holds keeper.old (H.view host.old) entries → Answers result (versions_in entries id) }
    ensures holds { UnlessFault result ((entries : Entries) → K.holds keeper.old (H.view host.old) entries
        → K.holds keeper.new (H.view host.new) entries) }
    ensures looks { Looks (H.view host.old) (H.view host.new) }
    ensures usable { K.live keeper.new ≡ is_usable result }
    ensures cause { RoseIf (IsErrOf result HeapError.DiskFault) (H.view host.old).disk_faults (H.view host.new).disk_faults }
    ensures too_large { OnTooLarge result (λ _. ⊥) }
    ensures at { OnDamaged result (λ k. (k.kind ≡ version_kind) × (k.a ≡ id)) }
{
    let mut versions = List::new(alloc);
    let mut from: u64 = 0;
    'versions: loop {
        let start = Key {
            kind: Key::VERSION,
            a: id,
            b: from,
        };
        let Some((key, found)) = next_record(alloc, keeper, host, start)? else {
            return Ok(versions);
        };
        let version = version_of(key, &found)?;
        versions.push(version)?;
        let Some(next) = key.b.checked_add(1) else {
            return Ok(versions);
        };
        from = next;
    }
}

#[tactic(auto, unfolding(crate::specs::Objects::object_in))]
pub(crate) fn read_object<H: Host, K: Keep<H>>(
    alloc: Global,
    keeper: &mut K,
    host: &mut H,
    id: u64,
) -> Result<Option<ObjectHead>, HeapError>
    requires live { IsTrue (K.live keeper.old) }
    ensures value { (entries : Entries) → K.holds keeper.old (H.view host.old) entries → Answers result (object_in entries id) }
    ensures holds { UnlessFault result ((entries : Entries) → K.holds keeper.old (H.view host.old) entries
        → K.holds keeper.new (H.view host.new) entries) }
    ensures looks { Looks (H.view host.old) (H.view host.new) }
    ensures usable { K.live keeper.new ≡ is_usable result }
    ensures cause { RoseIf (IsErrOf result HeapError.DiskFault) (H.view host.old).disk_faults (H.view host.new).disk_faults }
    ensures too_large { OnTooLarge result (λ _. ⊥) }
    ensures at { OnDamaged result (λ k. IsOfObject id k) }
{
    let key = Key {
        kind: Key::OBJECT,
        a: id,
        b: 0,
    };
    match look_up(alloc, keeper, host, key)? {
        None => Ok(None),
        Some(Record::Object { class, last, .. }) => {
            let versions = read_versions(alloc, keeper, host, id)?;
            Ok(Some(ObjectHead {
                class,
                versions: VersionList { versions, last },
            }))
        }
        Some(_) => Err(HeapError::Damaged { key }),
    }
}

// The least number of an object at or above this one.
pub(crate) fn read_object_from<H: Host, K: Keep<H>>(
    keeper: &mut K,
    host: &mut H,
    id: u64,
) -> Result<Option<u64>, HeapError>
    requires live { IsTrue (K.live keeper.old) }
    ensures value { (entries : Entries) → K.holds keeper.old (H.view host.old) entries → Answers result (There (object_from entries id)) }
    ensures holds { UnlessFault result ((entries : Entries) → K.holds keeper.old (H.view host.old) entries
        → K.holds keeper.new (H.view host.new) entries) }
    ensures looks { Looks (H.view host.old) (H.view host.new) }
    ensures usable { K.live keeper.new ≡ is_usable result }
    ensures cause { RoseIf (IsErrOf result HeapError.DiskFault) (H.view host.old).disk_faults (H.view host.new).disk_faults }
    ensures too_large { OnTooLarge result (λ _. ⊥) }
    ensures at { OnDamaged result (λ k. k ≡ object_key id) }
{
    let start = Key {
        kind: Key::OBJECT,
        a: id,
        b: 0,
    };
    match least_key(keeper, host, start) {
        Ok(found) => Ok(object_number(found)),
        Err(error) => Err(error),
    }
}

// The number of the object with this key, if it is an object's.
fn object_number(found: Option<Key>) -> Option<u64>
    ensures { result ≡ object_number found }
{
    match found {
        Some(key) => {
            if key.kind == Key::OBJECT {
                Some(key.a)
            } else {
                None
            }
        }
        None => None,
    }
}
