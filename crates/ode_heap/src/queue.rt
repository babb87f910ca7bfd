//! The entries that wait.
ghost use Rattle.std.specs.Prelude.{◌≡◌, ◌≤◌, ◌-◌, ◌^◌, min, true, IfOk, IsErrOf, IsTrue};
ghost use Rattle.std.specs.Option.{IfSome};
ghost use Rattle.ode_host.specs.Causes.{RoseIf};
ghost use Rattle.ode_host.specs.Host.{Looks};
ghost use Rattle.ode_keep.specs.Entries.{Entries};
ghost use Rattle.ode_heap.specs.Answers.{Answers, OnDamaged, There, UnlessFault, is_usable};
ghost use Rattle.ode_heap.specs.Looking.{as_entry, entry_from, entry_key_from, of_entry};
ghost use Rattle.ode_heap.specs.Queue.{queued_in};
ghost use Rattle.ode_heap.specs.Staging.{OnTooLarge};
ghost use Rattle.ode_value.specs.Keys.{entry_key, entry_kind};

use crate::error::{HeapError, at_key};
use crate::looking::{least_key, look_up};
use ode_codec::{Entry, Record};
use ode_host::Host;
use ode_keep::Keep;
use ode_value::Key;
use std::alloc::Global;

// A key, if it is an entry's.
fn of_entry(found: Option<Key>) -> Option<Key>
    ensures { result ≡ of_entry found }
{
    match found {
        Some(key) => {
            if key.kind == Key::ENTRY {
                Some(key)
            } else {
                None
            }
        }
        None => None,
    }
}

// The key of the entry with the least number at or above this one.
fn next_entry_key<H: Host, K: Keep<H>>(
    keeper: &mut K,
    host: &mut H,
    number: u64,
) -> Result<Option<Key>, HeapError>
    requires live { IsTrue (K.live keeper.old) }
    ensures value { (entries : Entries) → K.holds keeper.old (H.view host.old) entries → Answers result (There (entry_key_from entries number)) }
    ensures above { IfOk result (λ found. IfSome found (λ key. number ≤ key.a)) }
    ensures holds { UnlessFault result ((entries : Entries) → K.holds keeper.old (H.view host.old) entries
        → K.holds keeper.new (H.view host.new) entries) }
    ensures looks { Looks (H.view host.old) (H.view host.new) }
    ensures usable { K.live keeper.new ≡ is_usable result }
    ensures cause { RoseIf (IsErrOf result HeapError.DiskFault) (H.view host.old).disk_faults (H.view host.new).disk_faults }
    ensures kind { IfOk result (λ found. IfSome found (λ key. key.kind ≡ entry_kind)) }
    ensures too_large { OnTooLarge result (λ _. ⊥) }
    ensures at { OnDamaged result (λ k. k ≡ entry_key number) }
{
    let start = Key {
        kind: Key::ENTRY,
        a: number,
        b: 0,
    };
    match least_key(keeper, host, start) {
        Ok(found) => Ok(of_entry(found)),
        Err(error) => Err(error),
    }
}

// The entry in the record under a key.
fn entry_of(key: Key, found: Option<Record>) -> Result<Option<(u64, Entry)>, HeapError>
    ensures value { Answers result (as_entry key found) }
    ensures usable { is_usable result ≡ true }
    ensures calm { IsErrOf result HeapError.DiskFault → ⊥ }
    ensures at { OnDamaged result (λ k. k ≡ key) }
{
    match found {
        Some(Record::Entry { number, entry }) => Ok(Some((number, entry))),
        _ => Err(HeapError::Damaged { key }),
    }
}

// The entry with the least number at or above this one, with its number.
#[tactic(auto, unfolding(crate::specs::Looking::entry_from))]
pub(crate) fn read_entry_from<H: Host, K: Keep<H>>(
    alloc: Global,
    keeper: &mut K,
    host: &mut H,
    number: u64,
) -> Result<Option<(u64, Entry)>, HeapError>
    requires live { IsTrue (K.live keeper.old) }
    ensures value { (entries : Entries) → K.holds keeper.old (H.view host.old) entries → Answers result (entry_from entries number) }
    ensures holds { UnlessFault result ((entries : Entries) → K.holds keeper.old (H.view host.old) entries
        → K.holds keeper.new (H.view host.new) entries) }
    ensures looks { Looks (H.view host.old) (H.view host.new) }
    ensures usable { K.live keeper.new ≡ is_usable result }
    ensures cause { RoseIf (IsErrOf result HeapError.DiskFault) (H.view host.old).disk_faults (H.view host.new).disk_faults }
    ensures too_large { OnTooLarge result (λ _. ⊥) }
    ensures at { OnDamaged result (λ k. (k.kind ≡ entry_kind) × (number ≤ k.a)) }
{
    match next_entry_key(keeper, host, number)? {
        None => Ok(None),
        Some(key) => {
            let found = look_up(alloc, keeper, host, key)?;
            entry_of(key, found)
        }
    }
}

// As many, as far as 32 bits count.
fn as_32_bits(count: u64) -> u32
    ensures { result ≡ min count (2 ^ 32 - 1) }
{
    if count < u32::MAX as u64 {
        count as u32
    } else {
        u32::MAX
    }
}

// The number of entries, as the keeper counts them.
#[tactic(auto, unfolding(crate::specs::Queue::queued_in))]
pub(crate) fn count_entries<H: Host, K: Keep<H>>(
    keeper: &mut K,
    host: &mut H,
) -> Result<u32, HeapError>
    requires live { IsTrue (K.live keeper.old) }
    ensures value { (entries : Entries) → K.holds keeper.old (H.view host.old) entries → Answers result (There (queued_in entries)) }
    ensures holds { UnlessFault result ((entries : Entries) → K.holds keeper.old (H.view host.old) entries
        → K.holds keeper.new (H.view host.new) entries) }
    ensures looks { Looks (H.view host.old) (H.view host.new) }
    ensures usable { K.live keeper.new ≡ is_usable result }
    ensures cause { RoseIf (IsErrOf result HeapError.DiskFault) (H.view host.old).disk_faults (H.view host.new).disk_faults }
    ensures too_large { OnTooLarge result (λ _. ⊥) }
    ensures at { OnDamaged result (λ k. k.kind ≡ entry_kind) }
{
    let first = Key {
        kind: Key::ENTRY,
        a: 0,
        b: 0,
    };
    match keeper.queued(host) {
        Ok(count) => Ok(as_32_bits(count)),
        Err(error) => Err(at_key(error, first)),
    }
}
