//! Records by their keys.
ghost use Rattle.std.specs.Prelude.{◌≡◌, true, IfOk, IsErrOf, IsTrue};
ghost use Rattle.std.specs.Option.{IfSome};
ghost use Rattle.std.specs.Ordering.{is_le};
ghost use Rattle.ode_value.specs.Keys.{key_cmp};
ghost use Rattle.ode_host.specs.Causes.{RoseIf};
ghost use Rattle.ode_host.specs.Host.{Looks};
ghost use Rattle.ode_keep.specs.Entries.{Entries};
ghost use Rattle.ode_heap.specs.Answers.{Answers, OnDamaged, UnlessFault, is_usable};
ghost use Rattle.ode_heap.specs.Looking.{decoded, least_at, looked_up};
ghost use Rattle.ode_heap.specs.Staging.{OnTooLarge};

use crate::error::{HeapError, at_key};
use ode_codec::{Record, decode};
use ode_host::Host;
use ode_keep::Keep;
use ode_value::{Key, List};
use std::alloc::Global;

// The record of this key with this value.
#[tactic(auto, unfolding(crate::specs::Looking::decoded))]
fn decode_at(alloc: Global, key: Key, bytes: &List<u8>) -> Result<Record, HeapError>
    ensures value { Answers result (decoded key bytes.now) }
    ensures usable { is_usable result ≡ true }
    ensures calm { IsErrOf result HeapError.DiskFault → ⊥ }
    ensures at { OnDamaged result (λ k. k ≡ key) }
{
    match decode(alloc, key, bytes.as_slice())? {
        Some(found) => Ok(found),
        None => Err(HeapError::Damaged { key }),
    }
}

// The record under a key, if there is one.
#[tactic(auto, unfolding(crate::specs::Looking::looked_up))]
pub(crate) fn look_up<H: Host, K: Keep<H>>(
    alloc: Global,
    keeper: &mut K,
    host: &mut H,
    key: Key,
) -> Result<Option<Record>, HeapError>
    requires live { IsTrue (K.live keeper.old) }
    ensures value { (entries : Entries) → K.holds keeper.old (H.view host.old) entries → Answers result (looked_up entries key) }
    ensures holds { UnlessFault result ((entries : Entries) → K.holds keeper.old (H.view host.old) entries
        → K.holds keeper.new (H.view host.new) entries) }
    ensures looks { Looks (H.view host.old) (H.view host.new) }
    ensures usable { K.live keeper.new ≡ is_usable result }
    ensures cause { RoseIf (IsErrOf result HeapError.DiskFault) (H.view host.old).disk_faults (H.view host.new).disk_faults }
    ensures too_large { OnTooLarge result (λ _. ⊥) }
    ensures at { OnDamaged result (λ k. k ≡ key) }
{
    match keeper.get(host, key) {
        Err(error) => Err(at_key(error, key)),
        Ok(None) => Ok(None),
        Ok(Some(bytes)) => match decode_at(alloc, key, &bytes) {
            Ok(found) => Ok(Some(found)),
            Err(error) => Err(error),
        },
    }
}

// The least key at or above a key.
pub(crate) fn least_key<H: Host, K: Keep<H>>(
    keeper: &mut K,
    host: &mut H,
    key: Key,
) -> Result<Option<Key>, HeapError>
    requires live { IsTrue (K.live keeper.old) }
    ensures value { (entries : Entries) → K.holds keeper.old (H.view host.old) entries → Answers result (least_at entries key) }
    ensures above { IfOk result (λ found. IfSome found (λ q. is_le (key_cmp key q) ≡ true)) }
    ensures holds { UnlessFault result ((entries : Entries) → K.holds keeper.old (H.view host.old) entries
        → K.holds keeper.new (H.view host.new) entries) }
    ensures looks { Looks (H.view host.old) (H.view host.new) }
    ensures usable { K.live keeper.new ≡ is_usable result }
    ensures cause { RoseIf (IsErrOf result HeapError.DiskFault) (H.view host.old).disk_faults (H.view host.new).disk_faults }
    ensures too_large { OnTooLarge result (λ _. ⊥) }
    ensures at { OnDamaged result (λ k. k ≡ key) }
{
    match keeper.keys_from(host, key) {
        Ok(least) => Ok(least),
        Err(error) => Err(at_key(error, key)),
    }
}
