//! The counters.
ghost use Rattle.std.specs.Prelude.{◌≡◌, IsErrOf, IsTrue};
ghost use Rattle.ode_host.specs.Causes.{RoseIf};
ghost use Rattle.ode_host.specs.Host.{Looks};
ghost use Rattle.ode_keep.specs.Entries.{Entries};
ghost use Rattle.ode_heap.specs.Answers.{Answers, OnDamaged, UnlessFault, is_usable};
ghost use Rattle.ode_heap.specs.Looking.{counters_in};
ghost use Rattle.ode_heap.specs.Staging.{OnTooLarge};
ghost use Rattle.ode_value.specs.Keys.{counters_key};

use crate::error::HeapError;
use crate::looking::look_up;
use ode_codec::{Counters, Record};
use ode_host::Host;
use ode_keep::Keep;
use ode_value::Key;
use std::alloc::Global;

// The counters, which are always there.
#[tactic(auto, unfolding(crate::specs::Looking::counters_in))]
pub(crate) fn read_counters<H: Host, K: Keep<H>>(
    alloc: Global,
    keeper: &mut K,
    host: &mut H,
) -> Result<Counters, HeapError>
    requires live { IsTrue (K.live keeper.old) }
    ensures value { (entries : Entries) → K.holds keeper.old (H.view host.old) entries → Answers result (counters_in entries) }
    ensures holds { UnlessFault result ((entries : Entries) → K.holds keeper.old (H.view host.old) entries
        → K.holds keeper.new (H.view host.new) entries) }
    ensures looks { Looks (H.view host.old) (H.view host.new) }
    ensures usable { K.live keeper.new ≡ is_usable result }
    ensures cause { RoseIf (IsErrOf result HeapError.DiskFault) (H.view host.old).disk_faults (H.view host.new).disk_faults }
    ensures too_large { OnTooLarge result (λ _. ⊥) }
    ensures at { OnDamaged result (λ k. k ≡ counters_key) }
{
    let key = Key {
        kind: Key::COUNTERS,
        a: 0,
        b: 0,
    };
    match look_up(alloc, keeper, host, key) {
        Ok(Some(Record::Counters(counters))) => Ok(counters),
        Ok(_) => Err(HeapError::Damaged { key }),
        Err(error) => Err(error),
    }
}
