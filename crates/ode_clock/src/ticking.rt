//! A tick of the clock, with the drain behind it.
ghost use Rattle.std.specs.Prelude.{◌≡◌, ◌<◌, ◌≤◌, ◌+◌, ◌++◌, ℕ, List as Items, IfOk, IsErrOf, IsTrue, OnOk, Some, is_some, length, true};
ghost use Rattle.std.specs.Option.{IfSome};
ghost use Rattle.ode_clock.specs.Clocking.{settled_with, tick_settled};
ghost use Rattle.ode_good_laws.specs.Well.{IsWell};
ghost use Rattle.ode_host.specs.Causes.{RoseIf};
ghost use Rattle.ode_host.specs.Host.{HostCalls, LeavesOnly, Looks, Printed};
ghost use Rattle.ode_keep.specs.Entries.{Entries};
ghost use Rattle.ode_machine.specs.Moments.{IsAfterSome};
ghost use Rattle.ode_machine.specs.Runs.{Item};
ghost use Rattle.ode_schema.specs.Parts.{AreFit};
ghost use Rattle.ode_transact.specs.Errors.{OnDamaged};
ghost use Rattle.ode_transact.specs.Items.{items_of, texts_of};
ghost use Rattle.ode_transact.specs.Logging.{DiskHas, HasGrown, Logs};
ghost use Rattle.ode_transact.specs.Output.{all_heard, counting};
ghost use Rattle.ode_transact.specs.Resting.{HoldsBy, IsAtRest, resting_parts};
ghost use Rattle.ode_value.specs.Denoting.{object_at};
ghost use Rattle.ode_value.specs.Draining.{world_after};
ghost use Rattle.ode_value.specs.GoodWorlds.{IsPosition};
ghost use Rattle.ode_value.specs.Language.{Language, ListWorld};
ghost use Rattle.ode_value.specs.Limits.{transaction_limit};

use ode_good_laws::transactions_leave_good_worlds;
use ode_heap::Heap;
use ode_heap_laws::heaps_show_held_worlds;
use ode_host::Host;
use ode_keep::{Keep, Roomy};
use ode_opened::Opened;
use ode_overlay::Origin;
use ode_timer::Clock;
use ode_transact::{EngineError, Log, Output, Work, transact_and_drain};
use std::alloc::Global;

// Whether an object is there.
fn is_there<H: Host, K: Keep<H> + Drop>(
    alloc: Global,
    rest: Opened<K>,
    host: &mut H,
    id: u64,
) -> Result<(Opened<K>, bool), EngineError>
    requires live { IsTrue (K.live rest.keeper) }
    ensures is { IfOk result (λ r. (l : Language) (w : ListWorld) → IsAtRest H.view K.holds K.live l w rest host.old
        → IsAtRest H.view K.holds K.live l w r.0 host.new × (r.1 ≡ is_some (object_at w.bones id))) }
    ensures parts { IfOk result (λ r. resting_parts r.0 ≡ resting_parts rest) }
    ensures usable { IfOk result (λ r. K.live r.0.keeper ≡ true) }
    ensures looks { Looks (H.view host.old) (H.view host.new) }
    ensures cause { RoseIf (IsErrOf result EngineError.DiskFault) (H.view host.old).disk_faults (H.view host.new).disk_faults }
    ensures silent { IsErrOf result EngineError.WriteFault → ⊥ }
    ensures undamaged { OnDamaged result ((l : Language) (w : ListWorld) → IsAtRest H.view K.holds K.live l w rest host.old → ⊥) }
{
    let Opened {
        keeper,
        classes,
        tables,
        alphabets,
        maps,
        bytes,
        format,
    } = rest;
    heaps_show_held_worlds();
    let mut heap = Heap::new(keeper);
    let there = heap.load_object(alloc, host, id)?.is_some();
    Ok((
        Opened {
            keeper: heap.into_keeper(),
            classes,
            tables,
            alphabets,
            maps,
            bytes,
            format,
        },
        there,
    ))
}

// What a tick comes from.
fn tick_origin(at: &Clock) -> Origin
    ensures { result ≡ Origin.Tick at.now.instant at.now.object at.now.place }
{
    Origin::Tick {
        instant: at.instant,
        object: at.object,
        place: at.place,
    }
}

/// A tick with its drain of at most so many entries, where its object is there when its turn comes. How many of the entries ran, or
/// none where it isn't there.
pub(crate) fn tick<H: Host, K: Roomy<H> + Drop>(
    alloc: Global,
    rest: Opened<K>,
    host: &mut H,
    output: &mut Output,
    log: &mut Log,
    at: &Clock,
    most: u32,
) -> Result<(Opened<K>, Option<u32>), EngineError>
    requires live { IsTrue (K.live rest.keeper) }
    requires fit { AreFit (resting_parts rest) }
    ensures done { (l : Language) (w : ListWorld) → IsWell l w → IsPosition at.now → w.bones.transaction < transaction_limit → IsAtRest H.view K.holds K.live l w rest host.old
        → let settled = tick_settled at.now most w in
        IfOk result (λ r. IsAtRest H.view K.holds K.live l (world_after w settled) r.0 host.new × (settled_with r.1 ≡ length settled))
        × OnOk result (Printed (texts_of (all_heard output.old.quiet settled)) (H.view host.old) (H.view host.new)) }
    ensures counts { (l : Language) (w : ListWorld) → IsWell l w → IsPosition at.now → w.bones.transaction < transaction_limit → IsAtRest H.view K.holds K.live l w rest host.old
        → OnOk result (output.new ≡ counting output.old (texts_of (tick_settled at.now most w))) }
    // What was settled is kept in the log, where there is one.
    ensures logs { (l : Language) (w : ListWorld) (entries : Entries) → IsWell l w → IsPosition at.now → w.bones.transaction < transaction_limit → IsAtRest H.view K.holds K.live l w rest host.old → DiskHas K.means entries (H.view host.old)
        → OnOk result (Logs K.means l w entries (tick_settled at.now most w) log.old log.new (H.view host.new)) }
    ensures grown { HasGrown log.old log.new }
    ensures any_moment { (l : Language) (w : ListWorld) (said : Items ℕ) (more : Items Item) → IsWell l w → IsPosition at.now → w.bones.transaction < transaction_limit → IsAtRest H.view K.holds K.live l w rest host.old
        → (H.view host.old).text ≡ Some said
        → LeavesOnly (H.view host.old) (H.view host.new) (IsAfterSome (HoldsBy l K.means) (items_of (all_heard output.old.quiet (tick_settled at.now most w)) ++ more) w said) }
    ensures few { IfOk result (λ r. IfSome r.1 (λ ran. ran ≤ most)) }
    ensures parts { IfOk result (λ r. resting_parts r.0 ≡ resting_parts rest) }
    ensures usable { IfOk result (λ r. K.live r.0.keeper ≡ true) }
    ensures leaves { HostCalls (IsErrOf result EngineError.DiskFault) (IsErrOf result EngineError.WriteFault) (H.view host.old) (H.view host.new) }
    ensures undamaged { OnDamaged result ((l : Language) (w : ListWorld) → IsWell l w → IsPosition at.now → w.bones.transaction < transaction_limit → IsAtRest H.view K.holds K.live l w rest host.old → ⊥) }
{
    transactions_leave_good_worlds();
    let (rest, there) = is_there(alloc, rest, host, at.object)?;
    if !there {
        return Ok((rest, None));
    }
    let origin = tick_origin(at);
    let (rest, ran) = transact_and_drain(
        alloc,
        rest,
        host,
        output,
        log,
        origin,
        Work::Tick(at),
        most,
    )?;
    Ok((rest, Some(ran)))
}
