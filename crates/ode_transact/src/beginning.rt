//! A transaction begins over an opened file, or its context goes back to one.
ghost use Rattle.std.specs.Prelude.{◌≡◌, ◌<◌, IfOk, IsErrOf, IsTrue, OnOk, length, true};
ghost use Rattle.ode_heap.specs.Answering.{counters_of};
ghost use Rattle.ode_heap_laws.specs.Few.{HoldsCounted};
ghost use Rattle.ode_host.specs.Causes.{RoseIf};
ghost use Rattle.ode_host.specs.Host.{Looks};
ghost use Rattle.ode_keep.specs.Entries.{Entries};
ghost use Rattle.ode_overlay.specs.Layers.{IsGeneration};
ghost use Rattle.ode_overlay_laws.specs.Standing.{origin_as};
ghost use Rattle.ode_run.specs.Contexts.{ContextRuns, IsBeginning, parts_of};
ghost use Rattle.ode_transact.specs.Errors.{OnDamaged};
ghost use Rattle.ode_transact.specs.Resting.{IsAtRest, resting_parts};
ghost use Rattle.ode_transact.specs.Working.{IsFromFront};
ghost use Rattle.ode_value.specs.Language.{Language, ListWorld};
ghost use Rattle.ode_value.specs.Limits.{transaction_limit};
ghost use Rattle.ode_value.specs.Transactions.{begun};
ghost use Rattle.ode_view_laws.specs.Viewing.{began_over};

use crate::counting::begin_counted;
use crate::error::EngineError;
use ode_codec::Counters;
use ode_heap::Heap;
use ode_heap_laws::heaps_show_held_worlds;
use ode_host::Host;
use ode_keep::Keep;
use ode_opened::{Opened, RUN_FORMAT};
use ode_overlay::{Origin, Overlay};
use ode_run::{Ctx, contexts_begin, front_entries_run};
use ode_value::List;
use ode_value::limits::BUDGET_LIMIT;
use std::alloc::Global;

// The counters, and how many entries are queued.
fn look<H: Host, K: Keep<H>>(
    alloc: Global,
    heap: &mut Heap<K>,
    host: &mut H,
) -> Result<(Counters, u32), EngineError>
    requires live { IsTrue (K.live heap.old) }
    ensures shown { IfOk result (λ r. (l : Language) (entries : Entries) (w : ListWorld) → HoldsCounted l entries w → K.holds heap.old (H.view host.old) entries
        → (r.0 ≡ counters_of w.bones) × (r.1 ≡ length w.bones.queue)) }
    ensures holds { OnOk result ((entries : Entries) → K.holds heap.old (H.view host.old) entries → K.holds heap.new (H.view host.new) entries) }
    ensures usable { OnOk result (K.live heap.new ≡ true) }
    ensures looks { Looks (H.view host.old) (H.view host.new) }
    ensures cause { RoseIf (IsErrOf result EngineError.DiskFault) (H.view host.old).disk_faults (H.view host.new).disk_faults }
    ensures silent { IsErrOf result EngineError.WriteFault → ⊥ }
    ensures undamaged { OnDamaged result ((l : Language) (entries : Entries) (w : ListWorld) → HoldsCounted l entries w → K.holds heap.old (H.view host.old) entries → ⊥) }
{
    heaps_show_held_worlds();
    let counters = heap.counters(alloc, host)?;
    let queued = heap.queued(host)?;
    Ok((counters, queued))
}

// The overlay at the start of a transaction.
fn begin_overlay<H: Host, K: Keep<H>>(
    alloc: Global,
    heap: &mut Heap<K>,
    host: &mut H,
    origin: Origin,
) -> Result<Overlay, EngineError>
    requires live { IsTrue (K.live heap.old) }
    requires generation { IsGeneration origin }
    ensures begun { IfOk result (λ overlay. (l : Language) (entries : Entries) (w : ListWorld) (held : HoldsCounted l entries w) → K.holds heap.old (H.view host.old) entries
        → IsFromFront origin w → overlay ≡ began_over origin held.world.stored.world) }
    ensures holds { OnOk result ((entries : Entries) → K.holds heap.old (H.view host.old) entries → K.holds heap.new (H.view host.new) entries) }
    ensures usable { OnOk result (K.live heap.new ≡ true) }
    ensures looks { Looks (H.view host.old) (H.view host.new) }
    ensures cause { RoseIf (IsErrOf result EngineError.DiskFault) (H.view host.old).disk_faults (H.view host.new).disk_faults }
    ensures silent { IsErrOf result EngineError.WriteFault → ⊥ }
    ensures undamaged { OnDamaged result ((l : Language) (entries : Entries) (w : ListWorld) → HoldsCounted l entries w → K.holds heap.old (H.view host.old) entries
        → IsFromFront origin w → w.bones.transaction < transaction_limit → ⊥) }
{
    front_entries_run();
    let (counters, queued) = look(alloc, heap, host)?;
    begin_counted(alloc, counters, queued, origin)
}

/// A transaction begins. Where it comes from an entry, that is the front of the queue, and a number is left for it.
pub fn begin<H: Host, K: Keep<H> + Drop>(
    alloc: Global,
    rest: Opened<K>,
    host: &mut H,
    origin: Origin,
) -> Result<Ctx<K>, EngineError>
    requires live { IsTrue (K.live rest.keeper) }
    requires generation { IsGeneration origin }
    // Over records that hold a world the context runs as the transaction that begins with it.
    ensures begun { IfOk result (λ ctx. (l : Language) (w : ListWorld) → IsAtRest H.view K.holds K.live l w rest host.old → IsFromFront origin w
        → ContextRuns H.view K.holds K.live l w ctx host.new (begun (origin_as origin) w)) }
    // Its overlay is that of the world at its start.
    ensures beginning { IfOk result (λ ctx. (l : Language) (w : ListWorld) (is : IsAtRest H.view K.holds K.live l w rest host.old) → IsFromFront origin w
        → IsBeginning H.view K.holds K.live is.entries is.world.world.stored.world origin ctx host.new) }
    ensures parts { IfOk result (λ ctx. parts_of ctx ≡ resting_parts rest) }
    ensures usable { IfOk result (λ ctx. K.live ctx.heap ≡ true) }
    ensures looks { Looks (H.view host.old) (H.view host.new) }
    ensures cause { RoseIf (IsErrOf result EngineError.DiskFault) (H.view host.old).disk_faults (H.view host.new).disk_faults }
    ensures silent { IsErrOf result EngineError.WriteFault → ⊥ }
    // Over a good world nothing is damaged, where a number is left.
    ensures undamaged { OnDamaged result ((l : Language) (w : ListWorld) → IsAtRest H.view K.holds K.live l w rest host.old
        → IsFromFront origin w → w.bones.transaction < transaction_limit → ⊥) }
{
    contexts_begin::<H, K>();
    let Opened {
        keeper,
        classes,
        tables,
        alphabets,
        maps,
        bytes,
        ..
    } = rest;
    let mut heap = Heap::new(keeper);
    let overlay = begin_overlay(alloc, &mut heap, host, origin)?;
    Ok(Ctx {
        classes,
        tables,
        alphabets,
        maps,
        heap,
        overlay,
        deferred: List::new(alloc),
        text: List::new(alloc),
        depth: 0,
        budget: BUDGET_LIMIT,
        bytes,
    })
}

/// A context goes back to the file that it began over, with nothing of what it did.
pub fn put_back<K: Drop>(ctx: Ctx<K>) -> Opened<K>
    ensures { result ≡ record { keeper = ctx.heap; classes = ctx.classes; tables = ctx.tables; alphabets = ctx.alphabets; maps = ctx.maps; bytes = ctx.bytes; format = RUN_FORMAT } }
{
    let Ctx {
        classes,
        tables,
        alphabets,
        maps,
        heap,
        bytes,
        ..
    } = ctx;
    Opened {
        keeper: heap.into_keeper(),
        classes,
        tables,
        alphabets,
        maps,
        bytes,
        format: RUN_FORMAT,
    }
}
