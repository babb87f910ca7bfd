//! What a transaction does, over its context.
ghost use Rattle.std.specs.Prelude.{◌≡◌, IfOk, IsErrOf, true};
ghost use Rattle.ode_host.specs.Causes.{RoseIf};
ghost use Rattle.ode_host.specs.Host.{Looks};
ghost use Rattle.ode_machine.specs.Works.{ticks};
ghost use Rattle.ode_run.specs.Contexts.{ContextRuns, parts_of};
ghost use Rattle.ode_run.specs.Serving.{LeavesUsable};
ghost use Rattle.ode_schema.specs.Parts.{AreFit};
ghost use Rattle.ode_transact.specs.Errors.{OnDamaged};
ghost use Rattle.ode_transact.specs.Going.{Goes, fires, posts_kind, posts_place, touches_there};
ghost use Rattle.ode_transact.specs.Working.{EndedAs, ending_of, entry_of, whole_of, work_of};
ghost use Rattle.ode_value.specs.Completing.{completes};
ghost use Rattle.ode_value.specs.Draining.{runs_entry};
ghost use Rattle.ode_value.specs.Language.{Language, ListTx, ListWorld};
ghost use Rattle.ode_value.specs.Pasts.{lists};
ghost use Rattle.ode_value.specs.Posting.{is_touched};

use crate::ending::fault_of;
use crate::error::EngineError;
use crate::looking::{head, is_declared, kind_at};
use crate::work::Work;
use ode_codec::Entry;
use ode_host::Host;
use ode_keep::Keep;
use ode_run::{Ctx, Stop, complete, exec, fire_now, post, touch};
use ode_states::Fired;
use ode_timer::Clock;
use ode_value::Reason;
use std::alloc::{AllocError, Global};

// An object is touched where it is there.
fn touch_there<H: Host, K: Keep<H>>(
    alloc: Global,
    ctx: &mut Ctx<K>,
    host: &mut H,
    id: u64,
) -> Result<(), Stop>
    requires fit { AreFit (parts_of ctx.old) }
    ensures goes { (l : Language) (w : ListWorld) (x : ListTx) → ContextRuns H.view K.holds K.live l w ctx.old host.old x
        → Goes result (ContextRuns H.view K.holds K.live l w ctx.new host.new) (touches_there lists id x) }
    ensures faults { K.live ctx.old.heap ≡ true → LeavesUsable result (K.live ctx.new.heap) (H.view host.old) (H.view host.new) }
    ensures same { (parts_of ctx.new ≡ parts_of ctx.old) × (ctx.new.bytes ≡ ctx.old.bytes) }
{
    match head(ctx, host, id)? {
        Some(_head) => touch(alloc, ctx, host, id),
        None => Ok(()),
    }
}

// The firing of an entry, of which the activation is no longer known.
fn fired(alloc: Global, entry: &Entry) -> Result<Fired, AllocError>
    ensures { IfOk result (λ f. f ≡ record { activation = 0; class = entry.now.class; trigger = entry.now.trigger; args = entry.now.args }) }
{
    Ok(Fired {
        activation: 0,
        class: entry.class,
        trigger: entry.trigger,
        args: entry.args.copy(alloc)?,
    })
}

// The action of an entry runs, where its trigger is declared.
fn fire_entry<H: Host, K: Keep<H>>(
    alloc: Global,
    ctx: &mut Ctx<K>,
    host: &mut H,
    entry: &Entry,
) -> Result<(), Stop>
    requires fit { AreFit (parts_of ctx.old) }
    ensures goes { (l : Language) (w : ListWorld) (x : ListTx) → ContextRuns H.view K.holds K.live l w ctx.old host.old x
        → Goes result (ContextRuns H.view K.holds K.live l w ctx.new host.new) (fires lists (entry_of entry.now) x) }
    ensures faults { K.live ctx.old.heap ≡ true → LeavesUsable result (K.live ctx.new.heap) (H.view host.old) (H.view host.new) }
    ensures same { (parts_of ctx.new ≡ parts_of ctx.old) × (ctx.new.bytes ≡ ctx.old.bytes) }
{
    if !is_declared(&ctx.classes, entry.class, entry.trigger) {
        return Err(Stop::Abort(Reason::NoObject(0)));
    }
    let f = fired(alloc, entry)?;
    fire_now(alloc, ctx, host, entry.object, &f)
}

// An entry runs: its object is touched where it is there, and its action runs.
fn run_entry<H: Host, K: Keep<H>>(
    alloc: Global,
    ctx: &mut Ctx<K>,
    host: &mut H,
    entry: &Entry,
) -> Result<(), Stop>
    requires fit { AreFit (parts_of ctx.old) }
    ensures goes { (l : Language) (w : ListWorld) (x : ListTx) → ContextRuns H.view K.holds K.live l w ctx.old host.old x
        → Goes result (ContextRuns H.view K.holds K.live l w ctx.new host.new) (runs_entry lists (entry_of entry.now) x) }
    ensures faults { K.live ctx.old.heap ≡ true → LeavesUsable result (K.live ctx.new.heap) (H.view host.old) (H.view host.new) }
    ensures same { (parts_of ctx.new ≡ parts_of ctx.old) × (ctx.new.bytes ≡ ctx.old.bytes) }
{
    touch_there(alloc, ctx, host, entry.object)?;
    fire_entry(alloc, ctx, host, entry)
}

// A touched object's point of the kind at a place of a class.
fn post_kind<H: Host, K: Keep<H>>(
    alloc: Global,
    ctx: &mut Ctx<K>,
    host: &mut H,
    id: u64,
    place: u32,
    class: u32,
) -> Result<(), Stop>
    requires fit { AreFit (parts_of ctx.old) }
    ensures goes { (l : Language) (w : ListWorld) (x : ListTx) → ContextRuns H.view K.holds K.live l w ctx.old host.old x → is_touched id x ≡ true
        → Goes result (ContextRuns H.view K.holds K.live l w ctx.new host.new) (posts_kind lists id place class x) }
    ensures faults { K.live ctx.old.heap ≡ true → LeavesUsable result (K.live ctx.new.heap) (H.view host.old) (H.view host.new) }
    ensures same { (parts_of ctx.new ≡ parts_of ctx.old) × (ctx.new.bytes ≡ ctx.old.bytes) }
{
    match kind_at(alloc, &ctx.classes, class, place)? {
        Some(kind) => post(alloc, ctx, host, id, &kind, &[]),
        None => Err(Stop::Abort(Reason::NoObject(0))),
    }
}

// A touched object's point of the kind at a place of its class.
fn post_place<H: Host, K: Keep<H>>(
    alloc: Global,
    ctx: &mut Ctx<K>,
    host: &mut H,
    id: u64,
    place: u32,
) -> Result<(), Stop>
    requires fit { AreFit (parts_of ctx.old) }
    ensures goes { (l : Language) (w : ListWorld) (x : ListTx) → ContextRuns H.view K.holds K.live l w ctx.old host.old x → is_touched id x ≡ true
        → Goes result (ContextRuns H.view K.holds K.live l w ctx.new host.new) (posts_place lists id place x) }
    ensures faults { K.live ctx.old.heap ≡ true → LeavesUsable result (K.live ctx.new.heap) (H.view host.old) (H.view host.new) }
    ensures same { (parts_of ctx.new ≡ parts_of ctx.old) × (ctx.new.bytes ≡ ctx.old.bytes) }
{
    match head(ctx, host, id)? {
        Some(head) => post_kind(alloc, ctx, host, id, place, head.class),
        None => Err(Stop::Abort(Reason::NoObject(id))),
    }
}

// What happens at a position of the clock: its object's point of the kind at its place.
fn run_tick<H: Host, K: Keep<H>>(
    alloc: Global,
    ctx: &mut Ctx<K>,
    host: &mut H,
    at: &Clock,
) -> Result<(), Stop>
    requires fit { AreFit (parts_of ctx.old) }
    ensures goes { (l : Language) (w : ListWorld) (x : ListTx) → ContextRuns H.view K.holds K.live l w ctx.old host.old x
        → Goes result (ContextRuns H.view K.holds K.live l w ctx.new host.new) (ticks lists at.now x) }
    ensures faults { K.live ctx.old.heap ≡ true → LeavesUsable result (K.live ctx.new.heap) (H.view host.old) (H.view host.new) }
    ensures same { (parts_of ctx.new ≡ parts_of ctx.old) × (ctx.new.bytes ≡ ctx.old.bytes) }
{
    touch(alloc, ctx, host, at.object)?;
    post_place(alloc, ctx, host, at.object, at.place)
}

// The work of a transaction.
fn carry<H: Host, K: Keep<H>>(
    alloc: Global,
    ctx: &mut Ctx<K>,
    host: &mut H,
    work: Work<'_>,
) -> Result<(), Stop>
    requires fit { AreFit (parts_of ctx.old) }
    ensures goes { (l : Language) (w : ListWorld) (x : ListTx) → ContextRuns H.view K.holds K.live l w ctx.old host.old x
        → Goes result (ContextRuns H.view K.holds K.live l w ctx.new host.new) (work_of work.entry lists x) }
    ensures faults { K.live ctx.old.heap ≡ true → LeavesUsable result (K.live ctx.new.heap) (H.view host.old) (H.view host.new) }
    ensures same { (parts_of ctx.new ≡ parts_of ctx.old) × (ctx.new.bytes ≡ ctx.old.bytes) }
{
    match work {
        Work::Statement(s) => exec(alloc, ctx, host, s),
        Work::Entry(entry) => run_entry(alloc, ctx, host, entry),
        Work::Tick(at) => run_tick(alloc, ctx, host, at),
        Work::Move => Ok(()),
    }
}

// The work, and then its completion.
fn carry_whole<H: Host, K: Keep<H>>(
    alloc: Global,
    ctx: &mut Ctx<K>,
    host: &mut H,
    work: Work<'_>,
) -> Result<(), Stop>
    requires fit { AreFit (parts_of ctx.old) }
    ensures goes { (l : Language) (w : ListWorld) (x : ListTx) → ContextRuns H.view K.holds K.live l w ctx.old host.old x
        → Goes result (ContextRuns H.view K.holds K.live l w ctx.new host.new) (whole_of work.entry lists x) }
    ensures faults { K.live ctx.old.heap ≡ true → LeavesUsable result (K.live ctx.new.heap) (H.view host.old) (H.view host.new) }
    ensures same { (parts_of ctx.new ≡ parts_of ctx.old) × (ctx.new.bytes ≡ ctx.old.bytes) }
{
    carry(alloc, ctx, host, work)?;
    complete(alloc, ctx, host)
}

// How a call of a context ended that was done or aborted.
fn ending(answer: Result<(), Stop>) -> Result<Option<Reason>, EngineError>
    ensures { result ≡ ending_of answer }
{
    match answer {
        Ok(()) => Ok(None),
        Err(Stop::Abort(why)) => Ok(Some(why)),
        Err(stop) => Err(fault_of(stop)),
    }
}

/// The work of a transaction and its completion, up to its settling: the reason, where it aborts.
pub fn run<H: Host, K: Keep<H>>(
    alloc: Global,
    ctx: &mut Ctx<K>,
    host: &mut H,
    work: Work<'_>,
) -> Result<Option<Reason>, EngineError>
    requires fit { AreFit (parts_of ctx.old) }
    ensures runs { (l : Language) (w : ListWorld) (x : ListTx) → ContextRuns H.view K.holds K.live l w ctx.old host.old x
        → IfOk result (λ ending. EndedAs ending (ContextRuns H.view K.holds K.live l w ctx.new host.new) (whole_of work.entry lists x)) }
    // Whatever the records are, the host only looked, and the keeper may be used behind it.
    ensures looks { K.live ctx.old.heap ≡ true → Looks (H.view host.old) (H.view host.new) }
    ensures cause { K.live ctx.old.heap ≡ true → RoseIf (IsErrOf result EngineError.DiskFault) (H.view host.old).disk_faults (H.view host.new).disk_faults }
    ensures usable { K.live ctx.old.heap ≡ true → IfOk result (λ _. K.live ctx.new.heap ≡ true) }
    ensures silent { IsErrOf result EngineError.WriteFault → ⊥ }
    // Over records that hold a world nothing is damaged.
    ensures undamaged { OnDamaged result ((l : Language) (w : ListWorld) (x : ListTx) → ContextRuns H.view K.holds K.live l w ctx.old host.old x → ⊥) }
    ensures same { (parts_of ctx.new ≡ parts_of ctx.old) × (ctx.new.bytes ≡ ctx.old.bytes) }
{
    ending(carry_whole(alloc, ctx, host, work))
}

/// The completion of an open transaction.
pub fn run_completion<H: Host, K: Keep<H>>(
    alloc: Global,
    ctx: &mut Ctx<K>,
    host: &mut H,
) -> Result<Option<Reason>, EngineError>
    requires fit { AreFit (parts_of ctx.old) }
    ensures runs { (l : Language) (w : ListWorld) (x : ListTx) → ContextRuns H.view K.holds K.live l w ctx.old host.old x
        → IfOk result (λ ending. EndedAs ending (ContextRuns H.view K.holds K.live l w ctx.new host.new) (completes lists x)) }
    // Whatever the records are, the host only looked, and the keeper may be used behind it.
    ensures looks { K.live ctx.old.heap ≡ true → Looks (H.view host.old) (H.view host.new) }
    ensures cause { K.live ctx.old.heap ≡ true → RoseIf (IsErrOf result EngineError.DiskFault) (H.view host.old).disk_faults (H.view host.new).disk_faults }
    ensures usable { K.live ctx.old.heap ≡ true → IfOk result (λ _. K.live ctx.new.heap ≡ true) }
    ensures silent { IsErrOf result EngineError.WriteFault → ⊥ }
    // Over records that hold a world nothing is damaged.
    ensures undamaged { OnDamaged result ((l : Language) (w : ListWorld) (x : ListTx) → ContextRuns H.view K.holds K.live l w ctx.old host.old x → ⊥) }
    ensures same { (parts_of ctx.new ≡ parts_of ctx.old) × (ctx.new.bytes ≡ ctx.old.bytes) }
{
    ending(complete(alloc, ctx, host))
}
