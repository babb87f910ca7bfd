//! An instant, and what is due up to it, or why the clock isn't set.
ghost use Rattle.std.specs.Prelude.{◌≡◌, ℤ, IfOk, IsErrOf, IsTrue, OnOk, Some, map, true};
ghost use Rattle.ode_clock.specs.Clocking.{due_by};
ghost use Rattle.ode_heap.specs.Answering.{class_of, counters_of};
ghost use Rattle.ode_heap_laws.specs.Few.{HoldsCounted};
ghost use Rattle.ode_host.specs.Causes.{RoseIf};
ghost use Rattle.ode_host.specs.Host.{Looks};
ghost use Rattle.ode_keep.specs.Entries.{Entries};
ghost use Rattle.ode_language.specs.Languages.{ode};
ghost use Rattle.ode_machine.specs.Refusals.{ticks_in};
ghost use Rattle.ode_transact.specs.Errors.{OnDamaged};
ghost use Rattle.ode_transact.specs.Resting.{IsAtRest, resting_parts};
ghost use Rattle.ode_value.specs.Language.{Language, ListWorld};
ghost use Rattle.ode_value.specs.Worlds.{Bones};

use crate::rows::time_rows;
use ode_codec::Counters;
use ode_heap::Heap;
use ode_heap_laws::heaps_show_held_worlds;
use ode_host::Host;
use ode_keep::Keep;
use ode_language_laws::clock_events_are_in_range;
use ode_opened::Opened;
use ode_timer::{BadInstant, Clock, DueError, due, instant};
use ode_transact::EngineError;
use ode_types::Classes;
use ode_value::{List, OdeText, Refusal};
use std::alloc::Global;

/// An instant, and what is due up to it; or why the clock isn't set.
pub(crate) type Ticks = Result<(i64, List<Clock>), Refusal>;

// How far the clock has come, where it is set.
fn position(counters: &Counters) -> Option<Clock>
    ensures { (b : Bones) → counters.now ≡ counters_of b → result ≡ b.clock }
{
    if counters.clock_set {
        Some(Clock {
            instant: counters.instant,
            object: counters.object,
            place: counters.place,
        })
    } else {
        None
    }
}

// What is due from a position up to an instant.
fn due_from<H: Host, K: Keep<H>>(
    alloc: Global,
    heap: &mut Heap<K>,
    host: &mut H,
    classes: &Classes,
    old: &Clock,
    new: i64,
) -> Result<Ticks, EngineError>
    requires live { IsTrue (K.live heap.old) }
    ensures is { IfOk result (λ found. (entries : Entries) (w : ListWorld) → HoldsCounted ode entries w → classes.now ≡ map class_of w.bones.classes → w.bones.clock ≡ Some old.now
        → K.holds heap.old (H.view host.old) entries → found ≡ due_by w.bones (Some old.now) new) }
    ensures holds { OnOk result ((entries : Entries) → K.holds heap.old (H.view host.old) entries → K.holds heap.new (H.view host.new) entries) }
    ensures usable { OnOk result (K.live heap.new ≡ true) }
    ensures looks { Looks (H.view host.old) (H.view host.new) }
    ensures cause { RoseIf (IsErrOf result EngineError.DiskFault) (H.view host.old).disk_faults (H.view host.new).disk_faults }
    ensures silent { IsErrOf result EngineError.WriteFault → ⊥ }
    ensures undamaged { OnDamaged result ((entries : Entries) (w : ListWorld) → HoldsCounted ode entries w → classes.now ≡ map class_of w.bones.classes
        → K.holds heap.old (H.view host.old) entries → ⊥) }
{
    if new < old.instant {
        return Ok(Err(Refusal::ClockBack));
    }
    clock_events_are_in_range();
    let rows = time_rows(alloc, heap, host, classes)?;
    match due(alloc, &rows, old, new) {
        Ok(events) => Ok(Ok((new, events))),
        Err(DueError::Memory) => Err(EngineError::Memory),
        Err(DueError::TooManyDue { count }) => Ok(Err(Refusal::TooManyDue { count })),
    }
}

// The instant of a text, and what is due up to it.
fn ticks_in<H: Host, K: Keep<H>>(
    alloc: Global,
    heap: &mut Heap<K>,
    host: &mut H,
    classes: &Classes,
    text: &OdeText,
) -> Result<Ticks, EngineError>
    requires live { IsTrue (K.live heap.old) }
    ensures is { IfOk result (λ found. (entries : Entries) (w : ListWorld) → HoldsCounted ode entries w → classes.now ≡ map class_of w.bones.classes → K.holds heap.old (H.view host.old) entries
        → found ≡ ticks_in ode w.bones text.now) }
    ensures holds { OnOk result ((entries : Entries) → K.holds heap.old (H.view host.old) entries → K.holds heap.new (H.view host.new) entries) }
    ensures usable { OnOk result (K.live heap.new ≡ true) }
    ensures looks { Looks (H.view host.old) (H.view host.new) }
    ensures cause { RoseIf (IsErrOf result EngineError.DiskFault) (H.view host.old).disk_faults (H.view host.new).disk_faults }
    ensures silent { IsErrOf result EngineError.WriteFault → ⊥ }
    ensures undamaged { OnDamaged result ((entries : Entries) (w : ListWorld) → HoldsCounted ode entries w → classes.now ≡ map class_of w.bones.classes
        → K.holds heap.old (H.view host.old) entries → ⊥) }
{
    let Ok(new) = instant(text.as_bytes()) else {
        return Ok(Err(Refusal::BadInstant));
    };
    heaps_show_held_worlds();
    let counters = heap.counters(alloc, host)?;
    match position(&counters) {
        None => Ok(Ok((new, List::new(alloc)))),
        Some(old) => due_from(alloc, heap, host, classes, &old, new),
    }
}

/// An instant, and what is due up to it, over an opened file; or why the clock isn't set.
pub(crate) fn ticks<H: Host, K: Keep<H> + Drop>(
    alloc: Global,
    rest: Opened<K>,
    host: &mut H,
    text: &OdeText,
) -> Result<(Opened<K>, Ticks), EngineError>
    requires live { IsTrue (K.live rest.keeper) }
    ensures is { IfOk result (λ r. (w : ListWorld) → IsAtRest H.view K.holds K.live ode w rest host.old
        → IsAtRest H.view K.holds K.live ode w r.0 host.new × (r.1 ≡ ticks_in ode w.bones text.now)) }
    ensures parts { IfOk result (λ r. resting_parts r.0 ≡ resting_parts rest) }
    ensures usable { IfOk result (λ r. K.live r.0.keeper ≡ true) }
    ensures looks { Looks (H.view host.old) (H.view host.new) }
    ensures cause { RoseIf (IsErrOf result EngineError.DiskFault) (H.view host.old).disk_faults (H.view host.new).disk_faults }
    ensures silent { IsErrOf result EngineError.WriteFault → ⊥ }
    ensures undamaged { OnDamaged result ((w : ListWorld) → IsAtRest H.view K.holds K.live ode w rest host.old → ⊥) }
{
    let Opened {
        keeper,
        classes,
        tables,
        alphabets,
        maps,
        bytes,
        format,
    } = rest;
    let mut heap = Heap::new(keeper);
    let ticks = ticks_in(alloc, &mut heap, host, &classes, text)?;
    Ok((
        Opened {
            keeper: heap.into_keeper(),
            classes,
            tables,
            alphabets,
            maps,
            bytes,
            format,
        },
        ticks,
    ))
}
