//! What the clock goes through: each object with the kinds that its class lists.
ghost use Rattle.std.specs.Prelude.{◌↔◌, ◌<◌, ◌≡◌, ◌≤◌, ◌+◌, ◌^◌, [], IfOk, IsErrOf, IsTrue, None, OnOk, map, true};
ghost use Rattle.std.specs.List.{All};
ghost use Rattle.std.specs.Option.{IfSome, option_map_or};
ghost use Rattle.ode_heap.specs.Answering.{class_of};
ghost use Rattle.ode_heap_laws.specs.Few.{HoldsCounted};
ghost use Rattle.ode_host.specs.Causes.{RoseIf};
ghost use Rattle.ode_host.specs.Host.{Looks};
ghost use Rattle.ode_keep.specs.Entries.{Entries};
ghost use Rattle.ode_language.specs.Languages.{ode};
ghost use Rattle.ode_machine.specs.TimeRows.{time_rows};
ghost use Rattle.ode_timer.specs.Due.{AllRecur, Recurs};
ghost use Rattle.ode_transact.specs.Errors.{OnDamaged};
ghost use Rattle.ode_types.specs.Families.{class_numbered};
ghost use Rattle.ode_value.specs.Keys.{object_key};
ghost use Rattle.ode_value.specs.Language.{Language, ListWorld};
ghost use Rattle.ode_value.specs.declared.class.Class.{Class};

use ode_heap::Heap;
use ode_heap_laws::heaps_show_held_worlds;
use ode_host::Host;
use ode_keep::Keep;
use ode_language_laws::clock_events_are_in_range;
use ode_timer::TimeRow;
use ode_transact::EngineError;
use ode_types::Classes;
use ode_value::{Key, Kind, List};
use std::alloc::{AllocError, Global};

// An object whose record isn't there, whose number no object has, or whose kinds no class has.
fn damaged(id: u64) -> EngineError
    ensures { result ≡ EngineError.Damaged (object_key id) }
{
    EngineError::Damaged {
        key: Key {
            kind: Key::OBJECT,
            a: id,
            b: 0,
        },
    }
}

// The kinds that a class lists.
fn kinds_of(alloc: Global, classes: &Classes, class: u32) -> Result<List<Kind>, AllocError>
    ensures { IfOk result (λ kinds. kinds ≡ option_map_or (λ (c : Class). c.kinds) (class_numbered classes.now class) []) }
{
    match classes.class(class) {
        Some(class) => class.kinds.copy(alloc),
        None => Ok(List::new(alloc)),
    }
}

// Whether a kind that comes again does so after at least a second.
fn recurs(kind: &Kind) -> bool
    ensures { (result ≡ true) ↔ Recurs kind.now }
{
    match kind {
        Kind::TimeEvery(seconds) => 1 <= *seconds,
        _ => true,
    }
}

// Whether all of them do, as all that a good world has do.
fn all_recur(kinds: &[Kind]) -> bool
    ensures yes { result ≡ true → All Recurs kinds.now }
    ensures no { All Recurs kinds.now → result ≡ true }
{
    kinds.iter().all(|kind| recurs(kind))
}

// The number above one that was found from this number on.
fn above(from: u64, found: u64) -> Option<u64>
    ensures next { IfSome result (λ n. (n ≡ found + 1) × (from < n)) }
    ensures none { (result ≡ None) → from ≤ found → found + 1 < 2 ^ 64 → ⊥ }
{
    if from <= found {
        found.checked_add(1)
    } else {
        None
    }
}

/// Each object with the kinds that its class lists.
pub(crate) fn time_rows<H: Host, K: Keep<H>>(
    alloc: Global,
    heap: &mut Heap<K>,
    host: &mut H,
    classes: &Classes,
) -> Result<List<TimeRow>, EngineError>
    requires live { IsTrue (K.live heap.old) }
    ensures recur { IfOk result (λ rows. AllRecur rows) }
    ensures rows { IfOk result (λ rows. (l : Language) (entries : Entries) (w : ListWorld) → HoldsCounted l entries w → K.holds heap.old (H.view host.old) entries
        → classes.now ≡ map class_of w.bones.classes → rows ≡ time_rows w.bones) }
    ensures holds { OnOk result ((entries : Entries) → K.holds heap.old (H.view host.old) entries → K.holds heap.new (H.view host.new) entries) }
    ensures usable { OnOk result (K.live heap.new ≡ true) }
    ensures looks { Looks (H.view host.old) (H.view host.new) }
    ensures cause { RoseIf (IsErrOf result EngineError.DiskFault) (H.view host.old).disk_faults (H.view host.new).disk_faults }
    ensures silent { IsErrOf result EngineError.WriteFault → ⊥ }
    ensures undamaged { OnDamaged result ((entries : Entries) (w : ListWorld) → HoldsCounted ode entries w → K.holds heap.old (H.view host.old) entries
        → classes.now ≡ map class_of w.bones.classes → ⊥) }
{
    heaps_show_held_worlds();
    clock_events_are_in_range();
    let mut rows = List::new(alloc);
    let mut from = 0u64;
    'objects: loop {
        let Some(object) = heap.object_from(host, from)? else {
            return Ok(rows);
        };
        let Some(next) = above(from, object) else {
            return Err(damaged(object));
        };
        let Some(head) = heap.load_object(alloc, host, object)? else {
            return Err(damaged(object));
        };
        let kinds = kinds_of(alloc, classes, head.class)?;
        if !all_recur(kinds.as_slice()) {
            return Err(damaged(object));
        }
        rows.push(TimeRow { object, kinds })?;
        from = next;
    }
}
