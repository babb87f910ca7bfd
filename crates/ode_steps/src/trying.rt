//! A step is tried on the view of its session: nothing of it is there for the others yet.
ghost use Rattle.std.specs.Prelude.{◌≡◌, ◌<◌, ◌++◌, ◌∷◌, [], List as Items, IfOk, IsErrOf, IsTrue, OnOk, Option, is_some, map, true};
ghost use Rattle.ode_host.specs.Causes.{RoseIf};
ghost use Rattle.ode_host.specs.Host.{Looks};
ghost use Rattle.ode_language.specs.Languages.{ode};
ghost use Rattle.ode_interleaved_laws.specs.Serial.{taken_of};
ghost use Rattle.ode_machine.specs.Interleaving.{Ends, Open, Taken as Statement, literal_objects, run_on, takes, trial_open, tries_checked, tries_simple};
ghost use Rattle.ode_overlay.specs.Layers.{looking};
ghost use Rattle.ode_transact.specs.Contexts.{ContextRuns, parts_of};
ghost use Rattle.ode_schema.specs.Parts.{AreFit};
ghost use Rattle.ode_holders.specs.Opens.{taken_all, taken_as};
ghost use Rattle.ode_steps.specs.Trying.{TakenAs, TriedAs, context_in, fell_in, turned_in, whole_deed};
ghost use Rattle.ode_transact.specs.Errors.{OnDamaged};
ghost use Rattle.ode_transact.specs.Resting.{IsAtRest, resting_parts};
ghost use Rattle.ode_value.specs.Acts.{each, reached};
ghost use Rattle.ode_value.specs.Completing.{completes};
ghost use Rattle.ode_value.specs.Executing.{commands};
ghost use Rattle.ode_value.specs.Language.{ListTx, ListWorld};
ghost use Rattle.ode_value.specs.Limits.{transaction_limit};
ghost use Rattle.ode_value.specs.Pasts.{lists};
ghost use Rattle.ode_value.specs.Transactions.{looking as looking_on};
ghost use Rattle.ode_value.specs.declared.value.Ref.{Ref as Reference};

use ode_checker::literals;
use ode_engine::{Turned, checked};
use ode_holders::Taken;
use ode_host::Host;
use ode_keep::Keep;
use ode_opened::Opened;
use ode_overlay::Origin;
use ode_transact::{
    Ctx, EngineError, Stop, Work, begin, contexts_look, exec, fault_of, run, run_completion,
};
use ode_value::{List, Reason, Ref, Refusal, Stmt};
use std::alloc::{AllocError, Global};

/// What a step comes to on its session's view, by a context that may go back: its session stays open, with one more statement; its
/// transaction is to settle, by commit or for a reason; or it is refused.
#[derive(Drop)]
pub(crate) enum Tried<K> {
    Stays { ctx: Ctx<K>, taken: Taken },
    Ends { ctx: Ctx<K>, ending: Option<Reason> },
    Refused { ctx: Ctx<K>, why: Refusal },
}

// The objects that these references are to.
fn objects_in(alloc: Global, refs: &[Ref]) -> Result<List<u64>, AllocError>
    ensures { IfOk result (λ ids. ids ≡ map (λ (r : Reference). r.object) refs.now) }
{
    let mut ids = List::new(alloc);
    for of in refs {
        ids.push(of.object)?;
    }
    Ok(ids)
}

// The objects that a statement's literals refer to.
fn objects_of(alloc: Global, s: &Stmt) -> Result<List<u64>, AllocError>
    ensures { IfOk result (λ ids. ids ≡ literal_objects ode s.now) }
{
    let refs = literals(alloc, s)?;
    objects_in(alloc, refs.as_slice())
}

// A look at each of these objects.
fn look_at<K>(ctx: &mut Ctx<K>, ids: &[u64]) -> Result<(), AllocError>
    ensures looked { OnOk result (ctx.new ≡ record ctx.old { overlay = looking ids.now ctx.old.overlay }) }
    ensures keeper { ctx.new.heap ≡ ctx.old.heap }
    ensures same { parts_of ctx.new ≡ parts_of ctx.old }
{
    for id in ids {
        ctx.overlay.look(*id)?;
    }
    Ok(())
}

// A statement that a session did is done again; whether it was done. An abort ends the view there.
fn take_again<H: Host, K: Keep<H>>(
    alloc: Global,
    ctx: &mut Ctx<K>,
    host: &mut H,
    taken: &Taken,
) -> Result<bool, EngineError>
    requires live { IsTrue (K.live ctx.old.heap) }
    requires fit { AreFit (parts_of ctx.old) }
    ensures runs { (w : ListWorld) (x : ListTx) → ContextRuns H.view K.holds K.live ode w ctx.old host.old x
        → IfOk result (λ done. TakenAs done (ContextRuns H.view K.holds K.live ode w ctx.new host.new) (takes (taken_as taken.now) x)) }
    ensures usable { OnOk result (K.live ctx.new.heap ≡ true) }
    ensures looks { Looks (H.view host.old) (H.view host.new) }
    ensures cause { RoseIf (IsErrOf result EngineError.DiskFault) (H.view host.old).disk_faults (H.view host.new).disk_faults }
    ensures silent { IsErrOf result EngineError.WriteFault → ⊥ }
    ensures undamaged { OnDamaged result ((w : ListWorld) (x : ListTx) → ContextRuns H.view K.holds K.live ode w ctx.old host.old x → ⊥) }
    ensures same { parts_of ctx.new ≡ parts_of ctx.old }
{
    contexts_look::<H, K>();
    look_at(ctx, taken.literals.as_slice())?;
    match exec(alloc, ctx, host, taken.checked.get()) {
        Ok(()) => Ok(true),
        Err(Stop::Abort(_)) => Ok(false),
        Err(stop) => Err(fault_of(stop)),
    }
}

// The statements that a session did are done again, up to one that aborts.
fn take_all<H: Host, K: Keep<H>>(
    alloc: Global,
    ctx: &mut Ctx<K>,
    host: &mut H,
    taken: &[Taken],
) -> Result<(), EngineError>
    requires live { IsTrue (K.live ctx.old.heap) }
    requires fit { AreFit (parts_of ctx.old) }
    ensures runs { OnOk result ((w : ListWorld) (x : ListTx) → ContextRuns H.view K.holds K.live ode w ctx.old host.old x
        → ContextRuns H.view K.holds K.live ode w ctx.new host.new (reached (each takes (taken_all taken.now) x))) }
    ensures usable { OnOk result (K.live ctx.new.heap ≡ true) }
    ensures looks { Looks (H.view host.old) (H.view host.new) }
    ensures cause { RoseIf (IsErrOf result EngineError.DiskFault) (H.view host.old).disk_faults (H.view host.new).disk_faults }
    ensures silent { IsErrOf result EngineError.WriteFault → ⊥ }
    ensures undamaged { OnDamaged result ((w : ListWorld) (x : ListTx) → ContextRuns H.view K.holds K.live ode w ctx.old host.old x → ⊥) }
    ensures same { parts_of ctx.new ≡ parts_of ctx.old }
{
    for one in taken {
        let done = take_again(alloc, ctx, host, one)?;
        if !done {
            return Ok(());
        }
    }
    Ok(())
}

/// The view of a session: a transaction that begins over the file as it is now, with the statements that the session did.
pub(crate) fn view<H: Host, K: Keep<H> + Drop>(
    alloc: Global,
    rest: Opened<K>,
    host: &mut H,
    taken: &[Taken],
) -> Result<Ctx<K>, EngineError>
    requires live { IsTrue (K.live rest.keeper) }
    requires fit { AreFit (resting_parts rest) }
    ensures runs { IfOk result (λ ctx. (w : ListWorld) → IsAtRest H.view K.holds K.live ode w rest host.old
        → ContextRuns H.view K.holds K.live ode w ctx host.new (reached (run_on w (taken_all taken.now)))) }
    ensures parts { IfOk result (λ ctx. parts_of ctx ≡ resting_parts rest) }
    ensures usable { IfOk result (λ ctx. K.live ctx.heap ≡ true) }
    ensures looks { Looks (H.view host.old) (H.view host.new) }
    ensures cause { RoseIf (IsErrOf result EngineError.DiskFault) (H.view host.old).disk_faults (H.view host.new).disk_faults }
    ensures silent { IsErrOf result EngineError.WriteFault → ⊥ }
    ensures undamaged { OnDamaged result ((w : ListWorld) → IsAtRest H.view K.holds K.live ode w rest host.old → w.bones.transaction < transaction_limit → ⊥) }
{
    let mut ctx = begin(alloc, rest, host, Origin::Script)?;
    match take_all(alloc, &mut ctx, host, taken) {
        Ok(()) => Ok(ctx),
        Err(error) => {
            drop(ctx);
            Err(error)
        }
    }
}

// A statement of an open transaction wasn't done: it aborts, or its call ends by a fault.
fn fell<K: Drop>(ctx: Ctx<K>, stop: Stop) -> Result<Tried<K>, EngineError>
    ensures { result ≡ fell_in ctx stop }
{
    match stop {
        Stop::Abort(why) => Ok(Tried::Ends {
            ctx,
            ending: Some(why),
        }),
        stop => {
            drop(ctx);
            Err(fault_of(stop))
        }
    }
}

// A statement wasn't checked: it is refused, or its call ends by an error.
fn turned<K: Drop>(ctx: Ctx<K>, how: Turned) -> Result<Tried<K>, EngineError>
    ensures { result ≡ turned_in ctx how }
{
    match how {
        Turned::Refused(why) => Ok(Tried::Refused { ctx, why }),
        Turned::Stopped(error) => {
            drop(ctx);
            Err(error)
        }
    }
}

// A checked statement of an open transaction.
fn try_open<H: Host, K: Keep<H> + Drop>(
    alloc: Global,
    ctx: Ctx<K>,
    host: &mut H,
    taken: Taken,
) -> Result<Tried<K>, EngineError>
    requires live { IsTrue (K.live ctx.heap) }
    requires fit { AreFit (parts_of ctx) }
    ensures tried { (w : ListWorld) (x : ListTx) (before : Items Statement) → ContextRuns H.view K.holds K.live ode w ctx host.old x
        → IfOk result (λ t. TriedAs before (λ c. ContextRuns H.view K.holds K.live ode w c host.new) t (trial_open (before ++ taken_as taken ∷ []) (commands lists taken.checked x))) }
    ensures usable { IfOk result (λ t. K.live (context_in t).heap ≡ true) }
    ensures parts { IfOk result (λ t. parts_of (context_in t) ≡ parts_of ctx) }
    ensures looks { Looks (H.view host.old) (H.view host.new) }
    ensures cause { RoseIf (IsErrOf result EngineError.DiskFault) (H.view host.old).disk_faults (H.view host.new).disk_faults }
    ensures silent { IsErrOf result EngineError.WriteFault → ⊥ }
    ensures undamaged { OnDamaged result ((w : ListWorld) (x : ListTx) → ContextRuns H.view K.holds K.live ode w ctx host.old x → ⊥) }
{
    let mut ctx = ctx;
    match exec(alloc, &mut ctx, host, taken.checked.get()) {
        Ok(()) => Ok(Tried::Stays { ctx, taken }),
        Err(stop) => {
            drop(taken);
            fell(ctx, stop)
        }
    }
}

// A checked statement as a whole transaction.
fn try_whole<H: Host, K: Keep<H> + Drop>(
    alloc: Global,
    ctx: Ctx<K>,
    host: &mut H,
    s: &Stmt,
) -> Result<Tried<K>, EngineError>
    requires live { IsTrue (K.live ctx.heap) }
    requires fit { AreFit (parts_of ctx) }
    ensures tried { (w : ListWorld) (x : ListTx) (before : Items Statement) → ContextRuns H.view K.holds K.live ode w ctx host.old x
        → IfOk result (λ t. TriedAs before (λ c. ContextRuns H.view K.holds K.live ode w c host.new) t (Ends (whole_deed s.now x))) }
    ensures usable { IfOk result (λ t. K.live (context_in t).heap ≡ true) }
    ensures parts { IfOk result (λ t. parts_of (context_in t) ≡ parts_of ctx) }
    ensures looks { Looks (H.view host.old) (H.view host.new) }
    ensures cause { RoseIf (IsErrOf result EngineError.DiskFault) (H.view host.old).disk_faults (H.view host.new).disk_faults }
    ensures silent { IsErrOf result EngineError.WriteFault → ⊥ }
    ensures undamaged { OnDamaged result ((w : ListWorld) (x : ListTx) → ContextRuns H.view K.holds K.live ode w ctx host.old x → ⊥) }
{
    let mut ctx = ctx;
    match run(alloc, &mut ctx, host, Work::Statement(s)) {
        Ok(ending) => Ok(Tried::Ends { ctx, ending }),
        Err(error) => {
            drop(ctx);
            Err(error)
        }
    }
}

// A checked statement that looked at its literals, in an open transaction or as a whole one.
fn try_checked<H: Host, K: Keep<H> + Drop>(
    alloc: Global,
    ctx: Ctx<K>,
    host: &mut H,
    is_open: bool,
    taken: Taken,
) -> Result<Tried<K>, EngineError>
    requires live { IsTrue (K.live ctx.heap) }
    requires fit { AreFit (parts_of ctx) }
    ensures tried { (w : ListWorld) (x : ListTx) (own : Option Open) → is_some own ≡ is_open → ContextRuns H.view K.holds K.live ode w ctx host.old x
        → IfOk result (λ t. TriedAs (taken_of own) (λ c. ContextRuns H.view K.holds K.live ode w c host.new) t (tries_checked ode own taken.literals x taken.checked)) }
    ensures usable { IfOk result (λ t. K.live (context_in t).heap ≡ true) }
    ensures parts { IfOk result (λ t. parts_of (context_in t) ≡ parts_of ctx) }
    ensures looks { Looks (H.view host.old) (H.view host.new) }
    ensures cause { RoseIf (IsErrOf result EngineError.DiskFault) (H.view host.old).disk_faults (H.view host.new).disk_faults }
    ensures silent { IsErrOf result EngineError.WriteFault → ⊥ }
    ensures undamaged { OnDamaged result ((w : ListWorld) (x : ListTx) → ContextRuns H.view K.holds K.live ode w ctx host.old x → ⊥) }
{
    if is_open {
        try_open(alloc, ctx, host, taken)
    } else {
        try_whole(alloc, ctx, host, taken.checked.get())
    }
}

// A look at what a statement's literals refer to.
fn look_at_literals<K>(alloc: Global, ctx: &mut Ctx<K>, s: &Stmt) -> Result<List<u64>, AllocError>
    ensures ids { IfOk result (λ ids. ids ≡ literal_objects ode s.now) }
    ensures looked { OnOk result (ctx.new ≡ record ctx.old { overlay = looking (literal_objects ode s.now) ctx.old.overlay }) }
    ensures keeper { ctx.new.heap ≡ ctx.old.heap }
    ensures same { parts_of ctx.new ≡ parts_of ctx.old }
{
    let literals = objects_of(alloc, s)?;
    look_at(ctx, literals.as_slice())?;
    Ok(literals)
}

// A simple statement behind the look at its literals.
fn try_looked<H: Host, K: Keep<H> + Drop>(
    alloc: Global,
    ctx: Ctx<K>,
    host: &mut H,
    is_open: bool,
    spent: bool,
    literals: List<u64>,
    s: &Stmt,
) -> Result<Tried<K>, EngineError>
    requires live { IsTrue (K.live ctx.heap) }
    requires fit { AreFit (parts_of ctx) }
    requires literals { literals ≡ literal_objects ode s.now }
    ensures tried { (w : ListWorld) (x : ListTx) (own : Option Open) → is_some own ≡ is_open → ContextRuns H.view K.holds K.live ode w ctx host.old (looking_on (literal_objects ode s.now) x)
        → IfOk result (λ t. TriedAs (taken_of own) (λ c. ContextRuns H.view K.holds K.live ode w c host.new) t (tries_simple ode own spent s.now x)) }
    ensures usable { IfOk result (λ t. K.live (context_in t).heap ≡ true) }
    ensures parts { IfOk result (λ t. parts_of (context_in t) ≡ parts_of ctx) }
    ensures looks { Looks (H.view host.old) (H.view host.new) }
    ensures cause { RoseIf (IsErrOf result EngineError.DiskFault) (H.view host.old).disk_faults (H.view host.new).disk_faults }
    ensures silent { IsErrOf result EngineError.WriteFault → ⊥ }
    ensures undamaged { OnDamaged result ((w : ListWorld) (x : ListTx) → ContextRuns H.view K.holds K.live ode w ctx host.old x → ⊥) }
{
    let mut ctx = ctx;
    if spent {
        return Ok(Tried::Refused {
            ctx,
            why: Refusal::NumbersSpent,
        });
    }
    match checked(alloc, &mut ctx, host, s) {
        Ok(checked) => try_checked(alloc, ctx, host, is_open, Taken { literals, checked }),
        Err(how) => turned(ctx, how),
    }
}

/// A simple statement on the view of its session, which is open or isn't; where it needs a number and none is left it is refused behind
/// the look at its literals.
pub(crate) fn try_simple<H: Host, K: Keep<H> + Drop>(
    alloc: Global,
    ctx: Ctx<K>,
    host: &mut H,
    is_open: bool,
    spent: bool,
    s: &Stmt,
) -> Result<Tried<K>, EngineError>
    requires live { IsTrue (K.live ctx.heap) }
    requires fit { AreFit (parts_of ctx) }
    // What is tried is the machine's, and the context runs as what that reached.
    ensures tried { (w : ListWorld) (x : ListTx) (own : Option Open) → is_some own ≡ is_open → ContextRuns H.view K.holds K.live ode w ctx host.old x
        → IfOk result (λ t. TriedAs (taken_of own) (λ c. ContextRuns H.view K.holds K.live ode w c host.new) t (tries_simple ode own spent s.now x)) }
    ensures usable { IfOk result (λ t. K.live (context_in t).heap ≡ true) }
    ensures parts { IfOk result (λ t. parts_of (context_in t) ≡ parts_of ctx) }
    ensures looks { Looks (H.view host.old) (H.view host.new) }
    ensures cause { RoseIf (IsErrOf result EngineError.DiskFault) (H.view host.old).disk_faults (H.view host.new).disk_faults }
    ensures silent { IsErrOf result EngineError.WriteFault → ⊥ }
    ensures undamaged { OnDamaged result ((w : ListWorld) (x : ListTx) → ContextRuns H.view K.holds K.live ode w ctx host.old x → ⊥) }
{
    let mut ctx = ctx;
    contexts_look::<H, K>();
    match look_at_literals(alloc, &mut ctx, s) {
        Ok(literals) => try_looked(alloc, ctx, host, is_open, spent, literals, s),
        Err(_) => {
            drop(ctx);
            Err(EngineError::Memory)
        }
    }
}

/// `commit` on the view of its session.
pub(crate) fn try_commit<H: Host, K: Keep<H> + Drop>(
    alloc: Global,
    ctx: Ctx<K>,
    host: &mut H,
) -> Result<Tried<K>, EngineError>
    requires live { IsTrue (K.live ctx.heap) }
    requires fit { AreFit (parts_of ctx) }
    ensures tried { (w : ListWorld) (x : ListTx) (before : Items Statement) → ContextRuns H.view K.holds K.live ode w ctx host.old x
        → IfOk result (λ t. TriedAs before (λ c. ContextRuns H.view K.holds K.live ode w c host.new) t (Ends (completes lists x))) }
    ensures usable { IfOk result (λ t. K.live (context_in t).heap ≡ true) }
    ensures parts { IfOk result (λ t. parts_of (context_in t) ≡ parts_of ctx) }
    ensures looks { Looks (H.view host.old) (H.view host.new) }
    ensures cause { RoseIf (IsErrOf result EngineError.DiskFault) (H.view host.old).disk_faults (H.view host.new).disk_faults }
    ensures silent { IsErrOf result EngineError.WriteFault → ⊥ }
    ensures undamaged { OnDamaged result ((w : ListWorld) (x : ListTx) → ContextRuns H.view K.holds K.live ode w ctx host.old x → ⊥) }
{
    let mut ctx = ctx;
    match run_completion(alloc, &mut ctx, host) {
        Ok(ending) => Ok(Tried::Ends { ctx, ending }),
        Err(error) => {
            drop(ctx);
            Err(error)
        }
    }
}
