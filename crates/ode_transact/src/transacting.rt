//! Whole transactions, and the entries of the queue that run behind them.
ghost use Rattle.std.specs.Prelude.{◌≡◌, ◌<◌, ◌≤◌, ◌+◌, ◌++◌, ◌∷◌, [], ℕ, List as Items, IfOk, IsErrOf, IsTrue, OnOk, Some, length, nat_lt, cond, None, true};
ghost use Rattle.std.specs.Option.{IfSome};
ghost use Rattle.ode_transact.specs.Draining.{front_of};
ghost use Rattle.ode_transact.specs.Errors.{OnDamaged};
ghost use Rattle.ode_transact.specs.Logging.{DiskHas, HasGrown, Logs};
ghost use Rattle.ode_transact.specs.Resting.{HoldsBy, IsAtRest, resting_parts};
ghost use Rattle.ode_transact.specs.Items.{items_of, texts_of};
ghost use Rattle.ode_transact.specs.Output.{all_heard, counting, heard};
ghost use Rattle.ode_transact.specs.Working.{IsFromFront, work_of};
ghost use Rattle.ode_good_laws.specs.Well.{IsWell};
ghost use Rattle.ode_host.specs.Causes.{RoseIf};
ghost use Rattle.ode_host.specs.Host.{HostCalls, LeavesOnly, Looks, Printed};
ghost use Rattle.ode_keep.specs.Entries.{Entries};
ghost use Rattle.ode_machine.specs.Moments.{IsAfterSome, LeavesSettling};
ghost use Rattle.ode_machine.specs.Runs.{Item};
ghost use Rattle.ode_overlay.specs.Layers.{IsGeneration};
ghost use Rattle.ode_overlay_laws.specs.Standing.{origin_as};
ghost use Rattle.ode_schema.specs.Parts.{AreFit};
ghost use Rattle.ode_value.specs.Draining.{drain, with_drain, world_after};
ghost use Rattle.ode_value.specs.Language.{Language, ListWorld};
ghost use Rattle.ode_value.specs.Limits.{generation_limit, number_limit, transaction_limit};
ghost use Rattle.ode_value.specs.Pasts.{lists};
ghost use Rattle.ode_value.specs.Settling.{transaction};

use crate::beginning::begin;
use crate::ending::end;
use crate::error::EngineError;
use crate::logging::Log;
use crate::output::Output;
use crate::work::Work;
use crate::working::run;
use ode_codec::Entry;
use ode_good_laws::transactions_leave_good_worlds;
use ode_heap::Heap;
use ode_heap_laws::heaps_show_held_worlds;
use ode_host::Host;
use ode_keep::{Keep, Roomy};
use ode_opened::Opened;
use ode_overlay::Origin;
use ode_value::limits::{GENERATION_LIMIT, NUMBER_LIMIT};
use std::alloc::Global;

/// A whole transaction: it begins, does its work, is completed and settles.
pub fn transact<H: Host, K: Roomy<H> + Drop>(
    alloc: Global,
    rest: Opened<K>,
    host: &mut H,
    output: &mut Output,
    log: &mut Log,
    origin: Origin,
    work: Work<'_>,
) -> Result<Opened<K>, EngineError>
    requires live { IsTrue (K.live rest.keeper) }
    requires fit { AreFit (resting_parts rest) }
    requires generation { IsGeneration origin }
    ensures done { (l : Language) (w : ListWorld) → IsAtRest H.view K.holds K.live l w rest host.old → IsFromFront origin w
        → let s = transaction lists (origin_as origin) (work_of work.entry lists) w in
        IsWell l s.0 → IfOk result (λ after. IsAtRest H.view K.holds K.live l s.0 after host.new) × OnOk result (Printed (heard output.old.quiet s.1) (H.view host.old) (H.view host.new)) }
    ensures counts { (l : Language) (w : ListWorld) → IsAtRest H.view K.holds K.live l w rest host.old → IsFromFront origin w
        → let s = transaction lists (origin_as origin) (work_of work.entry lists) w in
        IsWell l s.0 → OnOk result (output.new ≡ counting output.old s.1) }
    // What was settled is kept in the log, where there is one.
    ensures logs { (l : Language) (w : ListWorld) (entries : Entries) → IsAtRest H.view K.holds K.live l w rest host.old → IsFromFront origin w → DiskHas K.means entries (H.view host.old)
        → let s = transaction lists (origin_as origin) (work_of work.entry lists) w in
        IsWell l s.0 → OnOk result (Logs K.means l w entries (s ∷ []) log.old log.new (H.view host.new)) }
    ensures grown { HasGrown log.old log.new }
    ensures any_moment { (l : Language) (w : ListWorld) (said : Items ℕ) → IsWell l w → IsAtRest H.view K.holds K.live l w rest host.old → IsFromFront origin w
        → let s = transaction lists (origin_as origin) (work_of work.entry lists) w in
        IsWell l s.0 → (H.view host.old).text ≡ Some said
        → LeavesOnly (H.view host.old) (H.view host.new) (LeavesSettling (HoldsBy l K.means) w s.0 said (heard output.old.quiet s.1)) }
    ensures parts { IfOk result (λ after. resting_parts after ≡ resting_parts rest) }
    ensures usable { IfOk result (λ after. K.live after.keeper ≡ true) }
    ensures leaves { HostCalls (IsErrOf result EngineError.DiskFault) (IsErrOf result EngineError.WriteFault) (H.view host.old) (H.view host.new) }
    // Over a well world with a number left, if only for ticks, nothing is damaged, where the world behind it is well.
    ensures undamaged { OnDamaged result ((l : Language) (w : ListWorld) → IsWell l w → IsAtRest H.view K.holds K.live l w rest host.old → IsFromFront origin w → w.bones.transaction < transaction_limit
        → IsWell l (transaction lists (origin_as origin) (work_of work.entry lists) w).0 → ⊥) }
{
    let mut ctx = begin(alloc, rest, host, origin)?;
    let ending = run(alloc, &mut ctx, host, work)?;
    end(alloc, ctx, host, output, log, ending)
}

/// The number of the next transaction.
pub fn next_number<H: Host, K: Keep<H> + Drop>(
    alloc: Global,
    rest: Opened<K>,
    host: &mut H,
) -> Result<(Opened<K>, u64), EngineError>
    requires live { IsTrue (K.live rest.keeper) }
    ensures is { IfOk result (λ r. (l : Language) (w : ListWorld) → IsAtRest H.view K.holds K.live l w rest host.old
        → IsAtRest H.view K.holds K.live l w r.0 host.new × (r.1 ≡ w.bones.transaction)) }
    ensures parts { IfOk result (λ r. resting_parts r.0 ≡ resting_parts rest) }
    ensures usable { IfOk result (λ r. K.live r.0.keeper ≡ true) }
    ensures looks { Looks (H.view host.old) (H.view host.new) }
    ensures cause { RoseIf (IsErrOf result EngineError.DiskFault) (H.view host.old).disk_faults (H.view host.new).disk_faults }
    ensures silent { IsErrOf result EngineError.WriteFault → ⊥ }
    ensures undamaged { OnDamaged result ((l : Language) (w : ListWorld) → IsAtRest H.view K.holds K.live l w rest host.old → ⊥) }
{
    let Opened {
        keeper,
        classes,
        tables,
        alphabets,
        maps,
        bytes,
        format,
    } = rest;
    heaps_show_held_worlds();
    let mut heap = Heap::new(keeper);
    let counters = heap.counters(alloc, host)?;
    Ok((
        Opened {
            keeper: heap.into_keeper(),
            classes,
            tables,
            alphabets,
            maps,
            bytes,
            format,
        },
        counters.next_transaction,
    ))
}

// The first entry of the queue.
fn first_entry<H: Host, K: Keep<H> + Drop>(
    alloc: Global,
    rest: Opened<K>,
    host: &mut H,
) -> Result<(Opened<K>, Option<(u64, Entry)>), EngineError>
    requires live { IsTrue (K.live rest.keeper) }
    ensures is { IfOk result (λ r. (l : Language) (w : ListWorld) → IsAtRest H.view K.holds K.live l w rest host.old
        → IsAtRest H.view K.holds K.live l w r.0 host.new × (r.1 ≡ front_of w.bones.queue)) }
    ensures parts { IfOk result (λ r. resting_parts r.0 ≡ resting_parts rest) }
    ensures usable { IfOk result (λ r. K.live r.0.keeper ≡ true) }
    ensures looks { Looks (H.view host.old) (H.view host.new) }
    ensures cause { RoseIf (IsErrOf result EngineError.DiskFault) (H.view host.old).disk_faults (H.view host.new).disk_faults }
    ensures silent { IsErrOf result EngineError.WriteFault → ⊥ }
    ensures undamaged { OnDamaged result ((l : Language) (w : ListWorld) → IsAtRest H.view K.holds K.live l w rest host.old → ⊥) }
{
    let Opened {
        keeper,
        classes,
        tables,
        alphabets,
        maps,
        bytes,
        format,
    } = rest;
    heaps_show_held_worlds();
    let mut heap = Heap::new(keeper);
    let found = heap.entry_from(alloc, host, 0)?;
    Ok((
        Opened {
            keeper: heap.into_keeper(),
            classes,
            tables,
            alphabets,
            maps,
            bytes,
            format,
        },
        found,
    ))
}

// Whether an entry may have this generation.
#[tactic(auto, unfolding(ode_value::specs::Limits::generation_limit))]
fn is_generation(generation: u8) -> bool
    ensures yes { result ≡ true → (1 ≤ generation) × (generation ≤ generation_limit) }
    ensures no { 1 ≤ generation → generation ≤ generation_limit → result ≡ true }
{
    1 <= generation && generation <= GENERATION_LIMIT
}

// An entry of a generation that there is.
fn known_generation(found: Option<(u64, Entry)>) -> Option<(u64, Entry)>
    ensures same { IfSome found (λ q. (1 ≤ q.1.generation) × (q.1.generation ≤ generation_limit)) → result ≡ found }
    ensures known { IfSome result (λ q. (1 ≤ q.1.generation) × (q.1.generation ≤ generation_limit)) }
{
    match found {
        Some((number, entry)) => {
            if is_generation(entry.generation) {
                Some((number, entry))
            } else {
                None
            }
        }
        None => None,
    }
}

// The entry that runs next: the first of the queue, where a number is left for it. One of a generation that no entry has is none.
fn next_entry<H: Host, K: Keep<H> + Drop>(
    alloc: Global,
    rest: Opened<K>,
    host: &mut H,
) -> Result<(Opened<K>, Option<(u64, Entry)>), EngineError>
    requires live { IsTrue (K.live rest.keeper) }
    ensures is { IfOk result (λ r. (l : Language) (w : ListWorld) → IsAtRest H.view K.holds K.live l w rest host.old
        → IsAtRest H.view K.holds K.live l w r.0 host.new × (r.1 ≡ cond (nat_lt w.bones.transaction number_limit) (front_of w.bones.queue) None)) }
    ensures known { IfOk result (λ r. IfSome r.1 (λ q. (1 ≤ q.1.generation) × (q.1.generation ≤ generation_limit))) }
    ensures parts { IfOk result (λ r. resting_parts r.0 ≡ resting_parts rest) }
    ensures usable { IfOk result (λ r. K.live r.0.keeper ≡ true) }
    ensures looks { Looks (H.view host.old) (H.view host.new) }
    ensures cause { RoseIf (IsErrOf result EngineError.DiskFault) (H.view host.old).disk_faults (H.view host.new).disk_faults }
    ensures silent { IsErrOf result EngineError.WriteFault → ⊥ }
    ensures undamaged { OnDamaged result ((l : Language) (w : ListWorld) → IsAtRest H.view K.holds K.live l w rest host.old → ⊥) }
{
    let (rest, number) = next_number(alloc, rest, host)?;
    if number >= NUMBER_LIMIT {
        return Ok((rest, None));
    }
    let (rest, found) = first_entry(alloc, rest, host)?;
    Ok((rest, known_generation(found)))
}

/// The drain: entries of the queue run as transactions of their own, from its front, at most so many, as long as numbers are left. How many
/// ran.
pub fn drain<H: Host, K: Roomy<H> + Drop>(
    alloc: Global,
    rest: Opened<K>,
    host: &mut H,
    output: &mut Output,
    log: &mut Log,
    most: u32,
) -> Result<(Opened<K>, u32), EngineError>
    requires live { IsTrue (K.live rest.keeper) }
    requires fit { AreFit (resting_parts rest) }
    ensures done { (l : Language) (w : ListWorld) → IsWell l w → IsAtRest H.view K.holds K.live l w rest host.old
        → let settled = drain lists most w in
        IfOk result (λ r. IsAtRest H.view K.holds K.live l (world_after w settled) r.0 host.new × (r.1 ≡ length settled))
        × OnOk result (Printed (texts_of (all_heard output.old.quiet settled)) (H.view host.old) (H.view host.new)) }
    ensures counts { (l : Language) (w : ListWorld) → IsWell l w → IsAtRest H.view K.holds K.live l w rest host.old
        → OnOk result (output.new ≡ counting output.old (texts_of (drain lists most w))) }
    // What was settled is kept in the log, where there is one.
    ensures logs { (l : Language) (w : ListWorld) (entries : Entries) → IsWell l w → IsAtRest H.view K.holds K.live l w rest host.old → DiskHas K.means entries (H.view host.old)
        → OnOk result (Logs K.means l w entries (drain lists most w) log.old log.new (H.view host.new)) }
    ensures grown { HasGrown log.old log.new }
    // A stop leaves what some of them left, with any more behind them.
    ensures any_moment { (l : Language) (w : ListWorld) (said : Items ℕ) (more : Items Item) → IsWell l w → IsAtRest H.view K.holds K.live l w rest host.old → (H.view host.old).text ≡ Some said
        → LeavesOnly (H.view host.old) (H.view host.new) (IsAfterSome (HoldsBy l K.means) (items_of (all_heard output.old.quiet (drain lists most w)) ++ more) w said) }
    ensures few { IfOk result (λ r. r.1 ≤ most) }
    ensures parts { IfOk result (λ r. resting_parts r.0 ≡ resting_parts rest) }
    ensures usable { IfOk result (λ r. K.live r.0.keeper ≡ true) }
    ensures leaves { HostCalls (IsErrOf result EngineError.DiskFault) (IsErrOf result EngineError.WriteFault) (H.view host.old) (H.view host.new) }
    ensures undamaged { OnDamaged result ((l : Language) (w : ListWorld) → IsWell l w → IsAtRest H.view K.holds K.live l w rest host.old → ⊥) }
{
    transactions_leave_good_worlds();
    let mut rest = rest;
    let mut ran = 0;
    'entries: while ran < most {
        let (back, found) = next_entry(alloc, rest, host)?;
        match found {
            None => return Ok((back, ran)),
            Some((number, entry)) => {
                let origin = Origin::Entry {
                    number,
                    generation: entry.generation,
                };
                rest = transact(alloc, back, host, output, log, origin, Work::Entry(&entry))?;
                ran += 1;
            }
        }
    }
    Ok((rest, ran))
}

/// A whole transaction with the drain behind it, of at most so many entries. How many ran.
pub fn transact_and_drain<H: Host, K: Roomy<H> + Drop>(
    alloc: Global,
    rest: Opened<K>,
    host: &mut H,
    output: &mut Output,
    log: &mut Log,
    origin: Origin,
    work: Work<'_>,
    most: u32,
) -> Result<(Opened<K>, u32), EngineError>
    requires live { IsTrue (K.live rest.keeper) }
    requires fit { AreFit (resting_parts rest) }
    requires generation { IsGeneration origin }
    ensures done { (l : Language) (w : ListWorld) → IsWell l w → IsAtRest H.view K.holds K.live l w rest host.old → IsFromFront origin w
        → let settled = with_drain lists most (transaction lists (origin_as origin) (work_of work.entry lists) w) in
        IsWell l (transaction lists (origin_as origin) (work_of work.entry lists) w).0
        → IfOk result (λ r. IsAtRest H.view K.holds K.live l (world_after w settled) r.0 host.new × (r.1 + 1 ≡ length settled))
        × OnOk result (Printed (texts_of (all_heard output.old.quiet settled)) (H.view host.old) (H.view host.new)) }
    ensures counts { (l : Language) (w : ListWorld) → IsWell l w → IsAtRest H.view K.holds K.live l w rest host.old → IsFromFront origin w
        → IsWell l (transaction lists (origin_as origin) (work_of work.entry lists) w).0
        → OnOk result (output.new ≡ counting output.old (texts_of (with_drain lists most (transaction lists (origin_as origin) (work_of work.entry lists) w)))) }
    // What was settled is kept in the log, where there is one.
    ensures logs { (l : Language) (w : ListWorld) (entries : Entries) → IsAtRest H.view K.holds K.live l w rest host.old → IsFromFront origin w → DiskHas K.means entries (H.view host.old)
        → let s = transaction lists (origin_as origin) (work_of work.entry lists) w in
        IsWell l s.0 → OnOk result (Logs K.means l w entries (with_drain lists most s) log.old log.new (H.view host.new)) }
    ensures grown { HasGrown log.old log.new }
    ensures any_moment { (l : Language) (w : ListWorld) (said : Items ℕ) (more : Items Item) → IsWell l w → IsAtRest H.view K.holds K.live l w rest host.old → IsFromFront origin w
        → IsWell l (transaction lists (origin_as origin) (work_of work.entry lists) w).0 → (H.view host.old).text ≡ Some said
        → LeavesOnly (H.view host.old) (H.view host.new) (IsAfterSome (HoldsBy l K.means) (items_of (all_heard output.old.quiet (with_drain lists most (transaction lists (origin_as origin) (work_of work.entry lists) w))) ++ more) w said) }
    ensures few { IfOk result (λ r. r.1 ≤ most) }
    ensures parts { IfOk result (λ r. resting_parts r.0 ≡ resting_parts rest) }
    ensures usable { IfOk result (λ r. K.live r.0.keeper ≡ true) }
    ensures leaves { HostCalls (IsErrOf result EngineError.DiskFault) (IsErrOf result EngineError.WriteFault) (H.view host.old) (H.view host.new) }
    ensures undamaged { OnDamaged result ((l : Language) (w : ListWorld) → IsWell l w → IsAtRest H.view K.holds K.live l w rest host.old → IsFromFront origin w → w.bones.transaction < transaction_limit
        → IsWell l (transaction lists (origin_as origin) (work_of work.entry lists) w).0 → ⊥) }
{
    let rest = transact(alloc, rest, host, output, log, origin, work)?;
    drain(alloc, rest, host, output, log, most)
}
