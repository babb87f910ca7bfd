//! A transaction settles, and its context goes back to an opened file.
ghost use Rattle.std.specs.Prelude.{◌≡◌, ◌<◌, ◌≤◌, ◌++◌, ◌∷◌, [], ◌^◌, ◌+ℤ◌, ℕ, List as Items, IfOk, IsErrOf, IsTrue, OnOk, Option, Some, length, pos, true};
ghost use Rattle.ode_transact.specs.Ending.{line_of};
ghost use Rattle.ode_transact.specs.Errors.{OnDamaged, fault_of};
ghost use Rattle.ode_transact.specs.Logging.{DiskHas, HasGrown, Logs, logged};
ghost use Rattle.ode_transact.specs.Output.{counting, heard};
ghost use Rattle.ode_transact.specs.Preparing.{IsPrepared, ended_by};
ghost use Rattle.ode_transact.specs.Resting.{HoldsBy, IsAtRest, resting_parts};
ghost use Rattle.ode_transact.specs.Settling.{LeavesBatch};
ghost use Rattle.ode_transact.specs.Working.{settled_by};
ghost use Rattle.ode_good_laws.specs.Well.{IsWell};
ghost use Rattle.ode_host.specs.Causes.{RoseIf};
ghost use Rattle.ode_host.specs.Host.{HostCalls, LeavesOnly, Looks, Printed};
ghost use Rattle.ode_keep.specs.Entries.{Entries, applied, record_bytes};
ghost use Rattle.ode_keep.specs.ShortValues.{HasShortValues};
ghost use Rattle.ode_machine.specs.Moments.{LeavesSettling};
ghost use Rattle.ode_overlay.specs.Settling.{growth_told};
ghost use Rattle.ode_run.specs.Contexts.{ContextRuns, IsContext, parts_of, tables_of};
ghost use Rattle.ode_run.specs.Ending.{SettledOver};
ghost use Rattle.ode_schema.specs.Parts.{AreFit};
ghost use Rattle.ode_value.specs.Language.{Language, ListTx, ListWorld};
ghost use Rattle.ode_value.specs.Pasts.{lists};
ghost use Rattle.ode_value.specs.Settling.{ended};

use crate::error::EngineError;
use crate::logging::Log;
use crate::output::Output;
use crate::settling::hand_over;
use ode_heap::Heap;
use ode_heap_laws::heaps_show_held_worlds;
use ode_host::Host;
use ode_keep::{Batch, Keep, MAX_CHANGES, MAX_PAGED_BYTES, Roomy};
use ode_lines::{aborted_line, committed_line};
use ode_opened::{Opened, RUN_FORMAT};
use ode_overlay::Overlay;
use ode_run::{Ctx, Stop, settle};
use ode_types::Classes;
use ode_value::{List, Reason};
use std::alloc::{AllocError, Global};

/// A call of a context ended by a fault.
pub fn fault_of(stop: Stop) -> EngineError
    ensures { result ≡ fault_of stop }
{
    match stop {
        Stop::Memory | Stop::Abort(_) => EngineError::Memory,
        Stop::DiskFault => EngineError::DiskFault,
        Stop::Damaged { key } => EngineError::Damaged { key },
    }
}

// The last line of a transaction with this number.
fn last_line(alloc: Global, number: u64, ending: &Option<Reason>) -> Result<List<u8>, AllocError>
    ensures { IfOk result (λ line. line ≡ line_of number ending.now) }
{
    match ending {
        None => committed_line(alloc, number),
        Some(reason) => aborted_line(alloc, number, reason),
    }
}

// A text with a line behind.
fn with_line(text: List<u8>, line: &[u8]) -> Result<List<u8>, AllocError>
    ensures { IfOk result (λ all. all ≡ text ++ line.now) }
{
    let mut bytes = text.into_vec();
    bytes.extend_from_slice(line)?;
    Ok(List::from_vec(bytes))
}

// So many bytes with this growth.
fn grown_by(bytes: u64, growth: i64) -> u64
    ensures { (sum : ℕ) → pos bytes +ℤ growth ≡ pos sum → sum < 2 ^ 64 → result ≡ sum }
{
    u64::try_from(i128::from(bytes) + i128::from(growth)).unwrap_or(u64::MAX)
}

// By how many bytes the records grow that are not entries.
fn growth_of<H: Host, K: Keep<H>>(
    overlay: &Overlay,
    classes: &Classes,
    heap: &mut Heap<K>,
    host: &mut H,
) -> i64
    ensures is { result ≡ growth_told classes.now overlay.now }
    ensures same { (heap.new ≡ heap.old) × (host.new ≡ host.old) }
{
    match overlay.grown(classes, heap, host) {
        Ok(growth) => growth,
        Err(_) => 0,
    }
}

// The number of a transaction that runs.
fn number_of<H: Host, K: Keep<H>>(
    alloc: Global,
    ctx: &mut Ctx<K>,
    host: &mut H,
) -> Result<u64, EngineError>
    requires live { IsTrue (K.live ctx.old.heap) }
    ensures is { (l : Language) (w : ListWorld) (t : ListTx) → ContextRuns H.view K.holds K.live l w ctx.old host.old t → IfOk result (λ number. number ≡ w.bones.transaction) }
    ensures stays { (l : Language) (w : ListWorld) (t : ListTx) → ContextRuns H.view K.holds K.live l w ctx.old host.old t
        → OnOk result (ContextRuns H.view K.holds K.live l w ctx.new host.new t) }
    ensures usable { OnOk result (IsTrue (K.live ctx.new.heap)) }
    ensures looks { Looks (H.view host.old) (H.view host.new) }
    ensures cause { RoseIf (IsErrOf result EngineError.DiskFault) (H.view host.old).disk_faults (H.view host.new).disk_faults }
    ensures silent { IsErrOf result EngineError.WriteFault → ⊥ }
    ensures undamaged { OnDamaged result ((l : Language) (w : ListWorld) (t : ListTx) → ContextRuns H.view K.holds K.live l w ctx.old host.old t → ⊥) }
    ensures same { parts_of ctx.new ≡ parts_of ctx.old }
{
    heaps_show_held_worlds();
    let counters = ctx.heap.counters(alloc, host)?;
    Ok(counters.next_transaction)
}

// The changes of a transaction that settles. Nothing is written yet.
fn changes_of<H: Host, K: Keep<H>>(
    alloc: Global,
    ctx: &mut Ctx<K>,
    host: &mut H,
    ending: &Option<Reason>,
) -> Result<Batch, EngineError>
    requires live { IsTrue (K.live ctx.old.heap) }
    requires fit { AreFit (parts_of ctx.old) }
    ensures settles { (l : Language) (w : ListWorld) (t : ListTx) (is : ContextRuns H.view K.holds K.live l w ctx.old host.old t)
        → IfOk result (λ batch. SettledOver l (tables_of ctx.old) w (growth_told ctx.new.classes ctx.new.overlay) (applied batch is.entries) ctx.new.text (line_of w.bones.transaction ending.now) (settled_by ending.now t)) }
    ensures context { (l : Language) (w : ListWorld) (t : ListTx) (is : ContextRuns H.view K.holds K.live l w ctx.old host.old t)
        → OnOk result (IsContext H.view K.holds K.live is.entries is.world.world.stored.world ctx.new host.new) }
    // Its overlay looked at and met what the settling did.
    ensures met { (l : Language) (w : ListWorld) (t : ListTx) → ContextRuns H.view K.holds K.live l w ctx.old host.old t
        → OnOk result (ctx.new.overlay.footprint ≡ (ended lists (ended_by ending.now t)).footprint) }
    ensures few { IfOk result (λ batch. length batch ≤ MAX_CHANGES) }
    ensures short { IfOk result HasShortValues }
    ensures usable { OnOk result (IsTrue (K.live ctx.new.heap)) }
    ensures looks { Looks (H.view host.old) (H.view host.new) }
    ensures cause { RoseIf (IsErrOf result EngineError.DiskFault) (H.view host.old).disk_faults (H.view host.new).disk_faults }
    ensures silent { IsErrOf result EngineError.WriteFault → ⊥ }
    ensures undamaged { OnDamaged result ((l : Language) (w : ListWorld) (t : ListTx) → ContextRuns H.view K.holds K.live l w ctx.old host.old t → ⊥) }
    ensures same { parts_of ctx.new ≡ parts_of ctx.old }
{
    match settle(alloc, ctx, host, ending.is_none()) {
        Ok(batch) => Ok(batch),
        Err(stop) => Err(fault_of(stop)),
    }
}

// A context goes back to a file: these changes are made, and its text with its last line goes to the output.
fn close<H: Host, K: Roomy<H> + Drop>(
    ctx: Ctx<K>,
    host: &mut H,
    output: &mut Output,
    log: &mut Log,
    number: u64,
    batch: Batch,
    line: &[u8],
) -> Result<Opened<K>, EngineError>
    requires live { IsTrue (K.live ctx.heap) }
    requires few { length batch ≤ MAX_CHANGES }
    requires short { HasShortValues batch }
    ensures done { IfOk result (λ rest. (entries : Entries) → K.holds ctx.heap (H.view host.old) entries
        → K.holds rest.keeper (H.view host.new) (applied batch entries)) }
    ensures printed { OnOk result (Printed (heard output.old.quiet (ctx.text ++ line.now)) (H.view host.old) (H.view host.new)) }
    ensures counts { OnOk result (output.new ≡ counting output.old (ctx.text ++ line.now)) }
    ensures kept { OnOk result (log.new ≡ logged log.old ((number, batch) ∷ [])) }
    ensures grown { HasGrown log.old log.new }
    ensures any_moment { (entries : Entries) (said : Items ℕ) → K.holds ctx.heap (H.view host.old) entries → (H.view host.old).text ≡ Some said
        → LeavesOnly (H.view host.old) (H.view host.new) (LeavesBatch K.means entries batch said (heard output.old.quiet (ctx.text ++ line.now))) }
    ensures parts { IfOk result (λ rest. resting_parts rest ≡ parts_of ctx) }
    ensures bytes { IfOk result (λ rest. (sum : ℕ) → pos ctx.bytes +ℤ growth_told ctx.classes ctx.overlay ≡ pos sum → sum < 2 ^ 64 → rest.bytes ≡ sum) }
    ensures usable { IfOk result (λ rest. K.live rest.keeper ≡ true) }
    ensures undamaged { OnDamaged result ((entries : Entries) → K.holds ctx.heap (H.view host.old) entries
        → record_bytes (applied batch entries) ≤ MAX_PAGED_BYTES → ⊥) }
    ensures leaves { HostCalls (IsErrOf result EngineError.DiskFault) (IsErrOf result EngineError.WriteFault) (H.view host.old) (H.view host.new) }
{
    let Ctx {
        classes,
        tables,
        alphabets,
        maps,
        mut heap,
        overlay,
        text,
        bytes,
        ..
    } = ctx;
    let growth = growth_of(&overlay, &classes, &mut heap, host);
    let text = with_line(text, line)?;
    hand_over(host, &mut heap, output, log, number, batch, text.as_slice())?;
    Ok(Opened {
        keeper: heap.into_keeper(),
        classes,
        tables,
        alphabets,
        maps,
        bytes: grown_by(bytes, growth),
        format: RUN_FORMAT,
    })
}

/// A transaction that is to settle: its number, its last line, and its changes.
#[derive(Drop)]
pub struct Prepared {
    pub number: u64,
    pub line: List<u8>,
    pub batch: Batch,
}

/// The number, the last line and the changes of a transaction that is to settle, by commit, or by an abort for this reason. Nothing is
/// written yet, so that its context may still go back.
pub fn prepare<H: Host, K: Keep<H>>(
    alloc: Global,
    ctx: &mut Ctx<K>,
    host: &mut H,
    ending: &Option<Reason>,
) -> Result<Prepared, EngineError>
    requires live { IsTrue (K.live ctx.old.heap) }
    requires fit { AreFit (parts_of ctx.old) }
    ensures prepared { (l : Language) (w : ListWorld) (t : ListTx) → ContextRuns H.view K.holds K.live l w ctx.old host.old t
        → IfOk result (λ p. IsPrepared H.view K.holds K.live l w t ending.now p.number p.line p.batch ctx.new host.new) }
    ensures few { IfOk result (λ p. length p.batch ≤ MAX_CHANGES) }
    ensures short { IfOk result (λ p. HasShortValues p.batch) }
    ensures usable { OnOk result (IsTrue (K.live ctx.new.heap)) }
    ensures looks { Looks (H.view host.old) (H.view host.new) }
    ensures cause { RoseIf (IsErrOf result EngineError.DiskFault) (H.view host.old).disk_faults (H.view host.new).disk_faults }
    ensures silent { IsErrOf result EngineError.WriteFault → ⊥ }
    ensures undamaged { OnDamaged result ((l : Language) (w : ListWorld) (t : ListTx) → ContextRuns H.view K.holds K.live l w ctx.old host.old t → ⊥) }
    ensures same { parts_of ctx.new ≡ parts_of ctx.old }
{
    let number = number_of(alloc, ctx, host)?;
    let line = last_line(alloc, number, ending)?;
    let batch = changes_of(alloc, ctx, host, ending)?;
    Ok(Prepared {
        number,
        line,
        batch,
    })
}

/// A transaction that was prepared settles, and its text with its last line goes to the output.
pub fn conclude<H: Host, K: Roomy<H> + Drop>(
    ctx: Ctx<K>,
    host: &mut H,
    output: &mut Output,
    log: &mut Log,
    prepared: Prepared,
) -> Result<Opened<K>, EngineError>
    requires live { IsTrue (K.live ctx.heap) }
    requires few { length prepared.batch ≤ MAX_CHANGES }
    requires short { HasShortValues prepared.batch }
    // Then the file holds the world that the machine's transaction leaves, and its text is printed where the output isn't quiet.
    ensures done { (l : Language) (w : ListWorld) (t : ListTx) (ending : Option Reason) → IsPrepared H.view K.holds K.live l w t ending prepared.number prepared.line prepared.batch ctx host.old
        → IsWell l (settled_by ending t).0 → IfOk result (λ rest. IsAtRest H.view K.holds K.live l (settled_by ending t).0 rest host.new) }
    ensures printed { (l : Language) (w : ListWorld) (t : ListTx) (ending : Option Reason) → IsPrepared H.view K.holds K.live l w t ending prepared.number prepared.line prepared.batch ctx host.old
        → OnOk result (Printed (heard output.old.quiet (settled_by ending t).1) (H.view host.old) (H.view host.new)) }
    ensures counts { (l : Language) (w : ListWorld) (t : ListTx) (ending : Option Reason) → IsPrepared H.view K.holds K.live l w t ending prepared.number prepared.line prepared.batch ctx host.old
        → OnOk result (output.new ≡ counting output.old (settled_by ending t).1) }
    // What was settled is kept in the log, where there is one.
    ensures logs { (l : Language) (w : ListWorld) (t : ListTx) (ending : Option Reason) (entries : Entries) → IsPrepared H.view K.holds K.live l w t ending prepared.number prepared.line prepared.batch ctx host.old
        → IsWell l (settled_by ending t).0 → DiskHas K.means entries (H.view host.old) → OnOk result (Logs K.means l w entries (settled_by ending t ∷ []) log.old log.new (H.view host.new)) }
    ensures grown { HasGrown log.old log.new }
    // A stop leaves the world before and none of the text, or the one behind and a front of what is printed of it.
    ensures any_moment { (l : Language) (w : ListWorld) (t : ListTx) (ending : Option Reason) (said : Items ℕ) → IsWell l w
        → IsPrepared H.view K.holds K.live l w t ending prepared.number prepared.line prepared.batch ctx host.old → IsWell l (settled_by ending t).0 → (H.view host.old).text ≡ Some said
        → LeavesOnly (H.view host.old) (H.view host.new) (LeavesSettling (HoldsBy l K.means) w (settled_by ending t).0 said (heard output.old.quiet (settled_by ending t).1)) }
    ensures parts { IfOk result (λ rest. resting_parts rest ≡ parts_of ctx) }
    ensures usable { IfOk result (λ rest. K.live rest.keeper ≡ true) }
    ensures leaves { HostCalls (IsErrOf result EngineError.DiskFault) (IsErrOf result EngineError.WriteFault) (H.view host.old) (H.view host.new) }
    // Over records that hold a world nothing is damaged, where the world behind it is good.
    ensures undamaged { OnDamaged result ((l : Language) (w : ListWorld) (t : ListTx) (ending : Option Reason)
        → IsPrepared H.view K.holds K.live l w t ending prepared.number prepared.line prepared.batch ctx host.old → IsWell l (settled_by ending t).0 → ⊥) }
{
    let Prepared {
        number,
        line,
        batch,
    } = prepared;
    close(ctx, host, output, log, number, batch, line.as_slice())
}

/// A transaction settles, by commit, or by an abort for this reason; and its text with its last line goes to the output.
pub fn end<H: Host, K: Roomy<H> + Drop>(
    alloc: Global,
    ctx: Ctx<K>,
    host: &mut H,
    output: &mut Output,
    log: &mut Log,
    ending: Option<Reason>,
) -> Result<Opened<K>, EngineError>
    requires live { IsTrue (K.live ctx.heap) }
    requires fit { AreFit (parts_of ctx) }
    // Then the file holds the world that the machine's transaction leaves, and its text is printed where the output isn't quiet.
    ensures done { (l : Language) (w : ListWorld) (t : ListTx) → ContextRuns H.view K.holds K.live l w ctx host.old t → IsWell l (settled_by ending t).0
        → IfOk result (λ rest. IsAtRest H.view K.holds K.live l (settled_by ending t).0 rest host.new) }
    ensures printed { (l : Language) (w : ListWorld) (t : ListTx) → ContextRuns H.view K.holds K.live l w ctx host.old t
        → OnOk result (Printed (heard output.old.quiet (settled_by ending t).1) (H.view host.old) (H.view host.new)) }
    ensures counts { (l : Language) (w : ListWorld) (t : ListTx) → ContextRuns H.view K.holds K.live l w ctx host.old t
        → OnOk result (output.new ≡ counting output.old (settled_by ending t).1) }
    // What was settled is kept in the log, where there is one.
    ensures logs { (l : Language) (w : ListWorld) (t : ListTx) (entries : Entries) → ContextRuns H.view K.holds K.live l w ctx host.old t → IsWell l (settled_by ending t).0
        → DiskHas K.means entries (H.view host.old) → OnOk result (Logs K.means l w entries (settled_by ending t ∷ []) log.old log.new (H.view host.new)) }
    ensures grown { HasGrown log.old log.new }
    // A stop leaves the world before and none of the text, or the one behind and a front of what is printed of it.
    ensures any_moment { (l : Language) (w : ListWorld) (t : ListTx) (said : Items ℕ) → IsWell l w → ContextRuns H.view K.holds K.live l w ctx host.old t → IsWell l (settled_by ending t).0
        → (H.view host.old).text ≡ Some said
        → LeavesOnly (H.view host.old) (H.view host.new) (LeavesSettling (HoldsBy l K.means) w (settled_by ending t).0 said (heard output.old.quiet (settled_by ending t).1)) }
    ensures parts { IfOk result (λ rest. resting_parts rest ≡ parts_of ctx) }
    ensures usable { IfOk result (λ rest. K.live rest.keeper ≡ true) }
    ensures leaves { HostCalls (IsErrOf result EngineError.DiskFault) (IsErrOf result EngineError.WriteFault) (H.view host.old) (H.view host.new) }
    // Over records that hold a world nothing is damaged, where the world behind it is good.
    ensures undamaged { OnDamaged result ((l : Language) (w : ListWorld) (t : ListTx) → ContextRuns H.view K.holds K.live l w ctx host.old t → IsWell l (settled_by ending t).0 → ⊥) }
{
    let mut ctx = ctx;
    let prepared = prepare(alloc, &mut ctx, host, &ending)?;
    conclude(ctx, host, output, log, prepared)
}
