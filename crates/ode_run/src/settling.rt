//! The transaction of a context settles.
ghost use Rattle.std.specs.Prelude.{◌≡◌, ◌≤◌, IfErr, IfOk, OnErr, OnOk, Option, false, is_some, length, not, true};
ghost use Rattle.ode_interpreter.specs.Seen.{IsFault};
ghost use Rattle.ode_keep.specs.Entries.{Entries, applied, value_under};
ghost use Rattle.ode_keep.specs.ShortValues.{HasShortValues};
ghost use Rattle.ode_known_laws.specs.Knowing.{declared_in};
ghost use Rattle.ode_laws.specs.Alike.{NumberWorld};
ghost use Rattle.ode_overlay.specs.After.{stands_after};
ghost use Rattle.ode_overlay.specs.Rewinding.{rewind};
ghost use Rattle.ode_overlay.specs.Settling.{growth_told};
ghost use Rattle.ode_run.specs.Contexts.{ContextRuns, IsContext, IsOpen, LeavesOpen, parts_of, tables_in, tables_of, tx_of, tx_over};
ghost use Rattle.ode_run.specs.Ending.{ended_by, last_points};
ghost use Rattle.ode_run.specs.Serving.{LeavesUsable};
ghost use Rattle.ode_schema.specs.Parts.{AreFit};
ghost use Rattle.ode_settled_laws.specs.Holding.{SettledOver};
ghost use Rattle.ode_value.specs.Firings.{both_lists, whole_list};
ghost use Rattle.ode_value.specs.Language.{Language, ListTx, ListWorld};
ghost use Rattle.ode_value.specs.Pasts.{lists, numbers};
ghost use Rattle.ode_value.specs.Settling.{abort, commit, ended, posted};
ghost use Rattle.ode_value.specs.Texts.{aborted_line, committed_line};
ghost use Rattle.ode_value.specs.declared.event.Kind.TheVariants.{TAbort, TCommit};
ghost use Rattle.ode_value.specs.declared.key.Key.{Key as Row};
ghost use Rattle.ode_value.specs.declared.reason.Reason.{Reason};

use crate::context::Ctx;
use crate::work::Work;
use ode_heap::Heap;
use ode_host::Host;
use ode_interpreter::{Stop, post_aborted, post_committed};
use ode_keep::{Batch, Keep, MAX_CHANGES};
use ode_known_laws::rewinds_known;
use ode_overlay::Overlay;
use ode_schema::Program;
use ode_settled_laws::transactions_settle_over_records;
use ode_states::Fired;
use ode_value::List;
use std::alloc::Global;

// The last points of a commit.
fn commit_over<'a, H: Host, K: Keep<H>>(
    alloc: Global,
    program: &Program,
    heap: &'a mut Heap<K>,
    overlay: &'a mut Overlay,
    deferred: &'a mut List<(u64, Fired)>,
    text: &'a mut List<u8>,
    budget: &'a mut u32,
    bytes: u64,
    host: &'a mut H,
) -> Result<(), Stop>
    ensures acts { (entries : Entries) (first : NumberWorld) → program.now.classes ≡ declared_in first → IsOpen (K.holds heap.old (H.view host.old)) (K.live heap.old) overlay.old budget.old bytes entries first
        → IfOk result (λ _. tx_over first overlay.new deferred.new text.new budget.new ≡ posted (numbers (tables_in program.now)) (both_lists (numbers (tables_in program.now))) TCommit (tx_over first overlay.old deferred.old text.old budget.old)) }
    ensures leaves { (entries : Entries) (first : NumberWorld) → program.now.classes ≡ declared_in first → IsOpen (K.holds heap.old (H.view host.old)) (K.live heap.old) overlay.old budget.old bytes entries first
        → LeavesOpen result (IsOpen (K.holds heap.new (H.view host.new)) (K.live heap.new) overlay.new budget.new bytes entries first) (H.view host.old) (H.view host.new) }
    ensures faults { K.live heap.old ≡ true → LeavesUsable result (K.live heap.new) (H.view host.old) (H.view host.new) }
    ensures fault { IfErr result IsFault }
{
    let mut work = Work {
        alloc,
        heap,
        overlay,
        deferred,
        text,
        budget,
        bytes,
        host,
    };
    post_committed(program, &mut work)
}

// Those of an abort.
fn abort_over<'a, H: Host, K: Keep<H>>(
    alloc: Global,
    program: &Program,
    heap: &'a mut Heap<K>,
    overlay: &'a mut Overlay,
    deferred: &'a mut List<(u64, Fired)>,
    text: &'a mut List<u8>,
    budget: &'a mut u32,
    bytes: u64,
    host: &'a mut H,
) -> Result<(), Stop>
    ensures acts { (entries : Entries) (first : NumberWorld) → program.now.classes ≡ declared_in first → IsOpen (K.holds heap.old (H.view host.old)) (K.live heap.old) overlay.old budget.old bytes entries first
        → IfOk result (λ _. tx_over first overlay.new deferred.new text.new budget.new ≡ posted (numbers (tables_in program.now)) (whole_list (numbers (tables_in program.now))) TAbort (tx_over first overlay.old deferred.old text.old budget.old)) }
    ensures leaves { (entries : Entries) (first : NumberWorld) → program.now.classes ≡ declared_in first → IsOpen (K.holds heap.old (H.view host.old)) (K.live heap.old) overlay.old budget.old bytes entries first
        → LeavesOpen result (IsOpen (K.holds heap.new (H.view host.new)) (K.live heap.new) overlay.new budget.new bytes entries first) (H.view host.old) (H.view host.new) }
    ensures faults { K.live heap.old ≡ true → LeavesUsable result (K.live heap.new) (H.view host.old) (H.view host.new) }
    ensures fault { IfErr result IsFault }
{
    let mut work = Work {
        alloc,
        heap,
        overlay,
        deferred,
        text,
        budget,
        bytes,
        host,
    };
    post_aborted(program, &mut work)
}

// What the transaction did is taken back. It can fail for want of memory alone.
fn take_back<H: Host, K: Keep<H>>(ctx: &mut Ctx<K>, host: &mut H) -> Result<(), Stop>
    ensures acts { OnOk result (ctx.new ≡ record ctx.old { overlay = rewind ctx.old.classes ctx.old.overlay }) }
    ensures memory { IfErr result (λ why. why ≡ Stop.Memory) }
    ensures err { OnErr result (ctx.new ≡ ctx.old) }
    ensures host { host.new ≡ host.old }
{
    match ctx.overlay.rewind(&ctx.classes, &mut ctx.heap, host) {
        Ok(()) => Ok(()),
        Err(_) => Err(Stop::Memory),
    }
}

// The last points of a commit.
fn commit<H: Host, K: Keep<H>>(alloc: Global, ctx: &mut Ctx<K>, host: &mut H) -> Result<(), Stop>
    requires fit { AreFit (parts_of ctx.old) }
    ensures acts { (entries : Entries) (first : NumberWorld) → IsContext H.view K.holds K.live entries first ctx.old host.old
        → IfOk result (λ _. tx_of first ctx.new ≡ last_points (tables_of ctx.old) true (tx_of first ctx.old)) }
    ensures leaves { (entries : Entries) (first : NumberWorld) → IsContext H.view K.holds K.live entries first ctx.old host.old
        → LeavesOpen result (IsContext H.view K.holds K.live entries first ctx.new host.new) (H.view host.old) (H.view host.new) }
    ensures faults { K.live ctx.old.heap ≡ true → LeavesUsable result (K.live ctx.new.heap) (H.view host.old) (H.view host.new) }
    ensures fault { IfErr result IsFault }
    ensures same { (parts_of ctx.new ≡ parts_of ctx.old) × (ctx.new.depth ≡ ctx.old.depth) × (ctx.new.bytes ≡ ctx.old.bytes) }
{
    let program = Program::new(&ctx.classes, &ctx.tables, &ctx.alphabets, &ctx.maps);
    commit_over(
        alloc,
        &program,
        &mut ctx.heap,
        &mut ctx.overlay,
        &mut ctx.deferred,
        &mut ctx.text,
        &mut ctx.budget,
        ctx.bytes,
        host,
    )
}

// Those of an abort, behind which nothing is left of what it did but what was drawn and whole histories.
fn abort<H: Host, K: Keep<H>>(alloc: Global, ctx: &mut Ctx<K>, host: &mut H) -> Result<(), Stop>
    requires fit { AreFit (parts_of ctx.old) }
    ensures acts { (entries : Entries) (first : NumberWorld) → IsContext H.view K.holds K.live entries first ctx.old host.old
        → IfOk result (λ _. tx_of first ctx.new ≡ last_points (tables_of ctx.old) false (tx_of first ctx.old)) }
    ensures leaves { (entries : Entries) (first : NumberWorld) → IsContext H.view K.holds K.live entries first ctx.old host.old
        → LeavesOpen result (IsContext H.view K.holds K.live entries first ctx.new host.new) (H.view host.old) (H.view host.new) }
    ensures faults { K.live ctx.old.heap ≡ true → LeavesUsable result (K.live ctx.new.heap) (H.view host.old) (H.view host.new) }
    ensures fault { IfErr result IsFault }
    ensures same { (parts_of ctx.new ≡ parts_of ctx.old) × (ctx.new.depth ≡ ctx.old.depth) × (ctx.new.bytes ≡ ctx.old.bytes) }
{
    rewinds_known();
    take_back(ctx, host)?;
    let program = Program::new(&ctx.classes, &ctx.tables, &ctx.alphabets, &ctx.maps);
    abort_over(
        alloc,
        &program,
        &mut ctx.heap,
        &mut ctx.overlay,
        &mut ctx.deferred,
        &mut ctx.text,
        &mut ctx.budget,
        ctx.bytes,
        host,
    )
}

// The last points, of a transaction that is kept or aborted.
fn end<H: Host, K: Keep<H>>(
    alloc: Global,
    ctx: &mut Ctx<K>,
    host: &mut H,
    kept: bool,
) -> Result<(), Stop>
    requires fit { AreFit (parts_of ctx.old) }
    ensures acts { (entries : Entries) (first : NumberWorld) → IsContext H.view K.holds K.live entries first ctx.old host.old
        → IfOk result (λ _. tx_of first ctx.new ≡ last_points (tables_of ctx.old) kept (tx_of first ctx.old)) }
    ensures leaves { (entries : Entries) (first : NumberWorld) → IsContext H.view K.holds K.live entries first ctx.old host.old
        → LeavesOpen result (IsContext H.view K.holds K.live entries first ctx.new host.new) (H.view host.old) (H.view host.new) }
    ensures faults { K.live ctx.old.heap ≡ true → LeavesUsable result (K.live ctx.new.heap) (H.view host.old) (H.view host.new) }
    ensures fault { IfErr result IsFault }
    ensures same { (parts_of ctx.new ≡ parts_of ctx.old) × (ctx.new.depth ≡ ctx.old.depth) × (ctx.new.bytes ≡ ctx.old.bytes) }
{
    if kept {
        commit(alloc, ctx, host)
    } else {
        abort(alloc, ctx, host)
    }
}

// The changes of the records, as an overlay has them.
fn changes(overlay: &Overlay, kept: bool) -> Result<Batch, Stop>
    ensures few { IfOk result (λ batch. length batch ≤ MAX_CHANGES) }
    ensures short { IfOk result HasShortValues }
    ensures stands { IfOk result (λ batch. (base : Entries) (q : Row) → value_under (applied batch base) q ≡ stands_after overlay.now base q) }
    ensures memory { IfErr result (λ why. why ≡ Stop.Memory) }
{
    if kept {
        Ok(overlay.as_commit()?)
    } else {
        Ok(overlay.as_abort()?)
    }
}

/// Settles the transaction, kept or aborted, behind its last points: the changes of the records. The lines of what is dropped stand in the
/// text, and the settling's own line doesn't. It never aborts.
pub fn settle<H: Host, K: Keep<H>>(
    alloc: Global,
    ctx: &mut Ctx<K>,
    host: &mut H,
    kept: bool,
) -> Result<Batch, Stop>
    requires fit { AreFit (parts_of ctx.old) }
    // Over state numbers the context stands for what the machine leaves behind the last points.
    ensures acts { (entries : Entries) (first : NumberWorld) → IsContext H.view K.holds K.live entries first ctx.old host.old
        → IfOk result (λ _. tx_of first ctx.new ≡ last_points (tables_of ctx.old) kept (tx_of first ctx.old)) }
    // Its overlay looked at and met what the machine's settling did.
    ensures met { (l : Language) (w : ListWorld) (x : ListTx) (ending : Option Reason) → ContextRuns H.view K.holds K.live l w ctx.old host.old x → is_some ending ≡ not kept
        → IfOk result (λ _. ctx.new.overlay.footprint ≡ (ended lists (ended_by ending x)).footprint) }
    // Over lists of points the records behind the changes hold the world that a commit leaves, where it is kept.
    ensures commit { (l : Language) (w : ListWorld) (x : ListTx) (is : ContextRuns H.view K.holds K.live l w ctx.old host.old x) → kept ≡ true
        → IfOk result (λ batch. SettledOver l (tables_of ctx.old) w (growth_told ctx.new.classes ctx.new.overlay) (applied batch is.entries) ctx.new.text (committed_line w.bones.transaction) (commit lists x)) }
    // Else they hold the one that an abort leaves, for whatever reason.
    ensures abort { (l : Language) (w : ListWorld) (x : ListTx) (is : ContextRuns H.view K.holds K.live l w ctx.old host.old x) (reason : Reason) → kept ≡ false
        → IfOk result (λ batch. SettledOver l (tables_of ctx.old) w (growth_told ctx.new.classes ctx.new.overlay) (applied batch is.entries) ctx.new.text (aborted_line w.bones.transaction reason) (abort lists reason x)) }
    // A keeper takes them.
    ensures few { IfOk result (λ batch. length batch ≤ MAX_CHANGES) }
    ensures short { IfOk result HasShortValues }
    ensures stands { IfOk result (λ batch. (base : Entries) (q : Row) → value_under (applied batch base) q ≡ stands_after ctx.new.overlay base q) }
    ensures leaves { (entries : Entries) (first : NumberWorld) → IsContext H.view K.holds K.live entries first ctx.old host.old
        → LeavesOpen result (IsContext H.view K.holds K.live entries first ctx.new host.new) (H.view host.old) (H.view host.new) }
    // The keeper and the host's faults, whatever the records are.
    ensures faults { K.live ctx.old.heap ≡ true → LeavesUsable result (K.live ctx.new.heap) (H.view host.old) (H.view host.new) }
    ensures fault { IfErr result IsFault }
    ensures same { (parts_of ctx.new ≡ parts_of ctx.old) × (ctx.new.depth ≡ ctx.old.depth) × (ctx.new.bytes ≡ ctx.old.bytes) }
{
    transactions_settle_over_records();
    end(alloc, ctx, host, kept)?;
    changes(&ctx.overlay, kept)
}
