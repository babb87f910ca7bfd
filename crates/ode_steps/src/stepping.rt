//! Steps of sessions over an opened file.
ghost use Rattle.std.specs.Option.{unwrap_or};
ghost use Rattle.std.specs.Prelude.{◌≡◌, ◌<◌, ◌≤◌, ◌+◌, ◌++◌, ◌∷◌, [], ℕ, List as Items, IfOk, IsErrOf, IsTrue, OnOk, Ok, Option, Some, None, cond, is_some, length, nat_lt, not, ◌==◌, ◌&&◌, false, true};
ghost use Rattle.ode_language.specs.Texts.{HasText};
ghost use Rattle.ode_schema.specs.Parts.{AreAligned, AreFit};
ghost use Rattle.ode_good_laws.specs.Well.{IsWell};
ghost use Rattle.ode_host.specs.Causes.{RoseIf};
ghost use Rattle.ode_host.specs.Host.{HostCalls, LeavesOnly, Looks, Printed};
ghost use Rattle.ode_interleaved_laws.specs.Meeting.{IsInterleaved};
ghost use Rattle.ode_interleaved_laws.specs.Serial.{taken_of};
ghost use Rattle.ode_keep.specs.ShortValues.{HasShortValues};
ghost use Rattle.ode_language.specs.Languages.{ode};
ghost use Rattle.ode_machine.specs.Interleaving.{Ends, Goes, Interleaved, Stays, Trial, Turns, behind, has_number, is_alone, others_of, replies_to, session_of, spends, step, tries, view as view_in, with_open};
ghost use Rattle.ode_machine.specs.Interleaving as machine;
ghost use Rattle.ode_machine.specs.Moments.{LeavesSettling};
ghost use Rattle.ode_machine.specs.Refusals.{place_of as stands};
ghost use Rattle.ode_transact.specs.Contexts.{ContextRuns, parts_of};
ghost use Rattle.ode_holders.specs.Opens.{open_as, opens_as, taken_all, taken_as};
ghost use Rattle.ode_holders.specs.declared.opens.Open.{Open as Session};
ghost use Rattle.ode_holders.specs.Rising.{AreRising};
ghost use Rattle.ode_steps.specs.Serving.{EndsWell, IsResting, Serves, StandsIn, UnlessSettled, after_reply, answer_in};
ghost use Rattle.ode_steps.specs.Trying.{TriedAs, context_in};
ghost use Rattle.ode_transact.specs.Errors.{OnDamaged};
ghost use Rattle.ode_transact.specs.Preparing.{IsPrepared, ended_by};
ghost use Rattle.ode_transact.specs.Resting.{HoldsBy, IsAtRest, resting_parts};
ghost use Rattle.ode_transact.specs.Working.{settled_by};
ghost use Rattle.ode_value.specs.Acts.{Aborted};
ghost use Rattle.ode_value.specs.Draining.{world_after};
ghost use Rattle.ode_value.specs.Footprints.{no_footprint};
ghost use Rattle.ode_value.specs.Language.{ListTx, ListWorld};
ghost use Rattle.ode_value.specs.Limits.{number_limit, transaction_limit};
ghost use Rattle.ode_value.specs.Objects.{Histories, Starts};
ghost use Rattle.ode_value.specs.Settling.{Settled};
ghost use Rattle.ode_value.specs.declared.statement.Statement.TheVariants as statement;

use crate::answer::Answer;
use crate::trying::{Tried, try_commit, try_simple, view};
use ode_engine::{Done, Engine, stands_in_place};
use ode_holders::{Open, Taken, holder, other, place_of, put, take};
use ode_host::Host;
use ode_interleaved_laws::sessions_stay_apart;
use ode_keep::{Keep, MAX_CHANGES, Roomy};
use ode_machine::Owned;
use ode_opened::Opened;
use ode_transact::{
    Ctx, EngineError, Log, Output, Prepared, conclude, drain, next_number, prepare, put_back,
};
use ode_value::limits::{DRAIN_LIMIT, NUMBER_LIMIT};
use ode_value::{List, Reason, Refusal, Statement, Stmt};
use std::alloc::{AllocError, Global};

// The texts of what settles are printed.
fn loud() -> Output
    ensures { result.quiet ≡ false }
{
    Output {
        quiet: false,
        counted: 0,
    }
}

// A transaction has settled, and the drain follows where no session is open.
fn settled<H: Host, K: Roomy<H> + Drop>(
    alloc: Global,
    rest: Opened<K>,
    host: &mut H,
    sessions: &[Open],
) -> Result<(Opened<K>, Answer), EngineError>
    requires live { IsTrue (K.live rest.keeper) }
    requires fit { AreFit (resting_parts rest) }
    requires aligned { AreAligned (resting_parts rest) }
    // Whatever the calls from `before` on settled, they and the drain serve it.
    ensures serves { (m : Interleaved) (s : Settled Histories Starts) (before : H) → Printed s.1 (H.view before) (H.view host.old)
        → ((said : Items ℕ) → (H.view before).text ≡ Some said → LeavesOnly (H.view before) (H.view host.old) (LeavesSettling (HoldsBy ode K.means) m.world s.0 said s.1))
        → IsWell ode s.0 → IsAtRest H.view K.holds K.live ode s.0 rest host.old
        → let all = behind (opens_as sessions.now) s in
        let now : Interleaved = record { world = world_after m.world all; sessions = opens_as sessions.now } in
        IsInterleaved ode now → Serves H.view K.holds K.live K.means ode m (Goes now all) result sessions.now before host.new }
    ensures settles { IfOk result (λ r. UnlessSettled r.1 ⊥) }
    ensures usable { IfOk result (λ r. IsResting K.live r.0) }
    ensures leaves { HostCalls (IsErrOf result EngineError.DiskFault) (IsErrOf result EngineError.WriteFault) (H.view host.old) (H.view host.new) }
{
    if !sessions.is_empty() {
        return Ok((rest, Answer::Settled(1)));
    }
    let mut output = loud();
    let mut log: Log = None;
    let (rest, ran) = drain(alloc, rest, host, &mut output, &mut log, DRAIN_LIMIT)?;
    Ok((rest, Answer::Settled(ran + 1)))
}

// A transaction that was prepared settles, and its session is open no more.
fn settle_prepared<H: Host, K: Roomy<H> + Drop>(
    alloc: Global,
    ctx: Ctx<K>,
    host: &mut H,
    sessions: &mut List<Open>,
    session: u32,
    prepared: Prepared,
) -> Result<(Opened<K>, Answer), EngineError>
    requires live { IsTrue (K.live ctx.heap) }
    requires fit { AreFit (parts_of ctx) }
    requires aligned { AreAligned (parts_of ctx) }
    requires few { length prepared.batch ≤ MAX_CHANGES }
    requires short { HasShortValues prepared.batch }
    ensures serves { (m : Interleaved) (x : ListTx) (ending : Option Reason) → IsInterleaved ode m → opens_as sessions.old ≡ m.sessions
        → IsPrepared H.view K.holds K.live ode m.world x ending prepared.number prepared.line prepared.batch ctx host.old → IsWell ode (settled_by ending x).0
        → let others = others_of session m.sessions in
        let all = behind others (settled_by ending x) in
        let now : Interleaved = record { world = world_after m.world all; sessions = others } in
        IsInterleaved ode now → Serves H.view K.holds K.live K.means ode m (Goes now all) result sessions.new host.old host.new }
    ensures settles { IfOk result (λ r. UnlessSettled r.1 ⊥) }
    ensures usable { IfOk result (λ r. IsResting K.live r.0) }
    ensures leaves { HostCalls (IsErrOf result EngineError.DiskFault) (IsErrOf result EngineError.WriteFault) (H.view host.old) (H.view host.new) }
{
    let mut output = loud();
    let mut log: Log = None;
    let rest = conclude(ctx, host, &mut output, &mut log, prepared)?;
    take(sessions, session);
    settled(alloc, rest, host, sessions.as_slice())
}

// A transaction that was prepared settles, and its session is open no more; or another session holds what it needs, and nothing of it is
// left.
fn prepared_step<H: Host, K: Roomy<H> + Drop>(
    alloc: Global,
    ctx: Ctx<K>,
    host: &mut H,
    sessions: &mut List<Open>,
    session: u32,
    prepared: Prepared,
) -> Result<(Opened<K>, Answer), EngineError>
    requires live { IsTrue (K.live ctx.heap) }
    requires fit { AreFit (parts_of ctx) }
    requires aligned { AreAligned (parts_of ctx) }
    requires few { length prepared.batch ≤ MAX_CHANGES }
    requires short { HasShortValues prepared.batch }
    ensures serves { (m : Interleaved) (x : ListTx) (ending : Option Reason) → IsInterleaved ode m → opens_as sessions.old ≡ m.sessions
        → IsPrepared H.view K.holds K.live ode m.world x ending prepared.number prepared.line prepared.batch ctx host.old → IsWell ode (settled_by ending x).0
        → let reply = replies_to m session false (Ends (ended_by ending x)) in
        IsInterleaved ode (after_reply m reply) → Serves H.view K.holds K.live K.means ode m reply result sessions.new host.old host.new }
    ensures same { IfOk result (λ r. UnlessSettled r.1 (sessions.new ≡ sessions.old)) }
    ensures usable { IfOk result (λ r. IsResting K.live r.0) }
    ensures leaves { HostCalls (IsErrOf result EngineError.DiskFault) (IsErrOf result EngineError.WriteFault) (H.view host.old) (H.view host.new) }
{
    match holder(sessions.as_slice(), session, &ctx.overlay) {
        Some((other, on)) => {
            drop(prepared);
            Ok((put_back(ctx), Answer::Busy { session: other, on }))
        }
        None => settle_prepared(alloc, ctx, host, sessions, session, prepared),
    }
}

/// The transaction of a session is to settle: another session holds what it needs, and nothing of it is left; or it settles, and its
/// session is open no more.
pub(crate) fn end_step<H: Host, K: Roomy<H> + Drop>(
    alloc: Global,
    ctx: Ctx<K>,
    host: &mut H,
    sessions: &mut List<Open>,
    session: u32,
    ending: Option<Reason>,
) -> Result<(Opened<K>, Answer), EngineError>
    requires live { IsTrue (K.live ctx.heap) }
    requires fit { AreFit (parts_of ctx) }
    requires aligned { AreAligned (parts_of ctx) }
    ensures serves { (m : Interleaved) (x : ListTx) → IsInterleaved ode m → opens_as sessions.old ≡ m.sessions → ContextRuns H.view K.holds K.live ode m.world ctx host.old x
        → IsWell ode (settled_by ending x).0
        → let reply = replies_to m session false (Ends (ended_by ending x)) in
        IsInterleaved ode (after_reply m reply) → Serves H.view K.holds K.live K.means ode m reply result sessions.new host.old host.new }
    ensures same { IfOk result (λ r. UnlessSettled r.1 (sessions.new ≡ sessions.old)) }
    ensures usable { IfOk result (λ r. IsResting K.live r.0) }
    ensures leaves { HostCalls (IsErrOf result EngineError.DiskFault) (IsErrOf result EngineError.WriteFault) (H.view host.old) (H.view host.new) }
{
    let mut ctx = ctx;
    match prepare(alloc, &mut ctx, host, &ending) {
        Ok(prepared) => prepared_step(alloc, ctx, host, sessions, session, prepared),
        Err(error) => {
            drop(ctx);
            Err(error)
        }
    }
}

// A session with no statement yet.
fn fresh(alloc: Global, session: u32) -> Open
    ensures { open_as result ≡ record { session = session; taken = []; held = no_footprint } }
{
    Open {
        session,
        taken: List::new(alloc),
        looked: List::new(alloc),
        drew: false,
        met_queue: false,
    }
}

// The open session of a number goes out of the list; one with no statement yet, where it isn't open.
fn take_out(alloc: Global, sessions: &mut List<Open>, session: u32) -> Open
    ensures rest { AreRising (opens_as sessions.old) → opens_as sessions.new ≡ others_of session (opens_as sessions.old) }
    ensures one { open_as result ≡ unwrap_or (session_of session (opens_as sessions.old)) (record { session = session; taken = []; held = no_footprint }) }
{
    match take(sessions, session) {
        Some(one) => one,
        None => fresh(alloc, session),
    }
}

// A session did one more statement, and holds what its transaction looked at, drew and queued.
fn take_more<K>(alloc: Global, ctx: &Ctx<K>, one: Open, taken: Taken) -> Result<Open, AllocError>
    ensures { IfOk result (λ more. open_as more ≡ record (open_as one) { taken = taken_all one.taken ++ taken_as taken ∷ []; held = ctx.now.overlay.footprint }) }
{
    let mut one = one;
    one.taken.push(taken)?;
    one.looked = List::from_slice(alloc, ctx.overlay.looked().as_slice())?;
    one.drew = ctx.overlay.drew();
    one.met_queue = ctx.overlay.met_queue();
    Ok(one)
}

// The session stays open with one more statement.
fn keep_taken<K>(
    alloc: Global,
    ctx: &Ctx<K>,
    sessions: &mut List<Open>,
    session: u32,
    taken: Taken,
) -> Result<(), AllocError>
    ensures { OnOk result (AreRising (opens_as sessions.old) → opens_as sessions.new
        ≡ with_open (record { session = session; taken = taken_of (session_of session (opens_as sessions.old)) ++ taken_as taken ∷ []; held = ctx.now.overlay.footprint }) (others_of session (opens_as sessions.old))) }
{
    let one = take_out(alloc, sessions, session);
    let more = take_more(alloc, ctx, one, taken)?;
    put(sessions, more)
}

// A statement that was tried is taken into its session, where no other holds what it needs.
fn stay_step<H: Host, K: Keep<H> + Drop>(
    alloc: Global,
    ctx: Ctx<K>,
    sessions: &mut List<Open>,
    session: u32,
    taken: Taken,
) -> Result<(Opened<K>, Answer), EngineError>
    requires live { IsTrue (K.live ctx.heap) }
    requires fit { AreFit (parts_of ctx) }
    requires aligned { AreAligned (parts_of ctx) }
    ensures serves { (m : Interleaved) (x : ListTx) (host : H) → IsInterleaved ode m → opens_as sessions.old ≡ m.sessions → ContextRuns H.view K.holds K.live ode m.world ctx host x
        → let reply = replies_to m session false (Stays (taken_of (session_of session m.sessions) ++ taken_as taken ∷ []) x) in
        IsInterleaved ode (after_reply m reply) → Serves H.view K.holds K.live K.means ode m reply result sessions.new host host }
    ensures usable { IfOk result (λ r. IsResting K.live r.0) }
    ensures memory { (error : EngineError) → IsErrOf result error → error ≡ EngineError.Memory }
{
    match holder(sessions.as_slice(), session, &ctx.overlay) {
        Some((other, on)) => {
            drop(taken);
            Ok((put_back(ctx), Answer::Busy { session: other, on }))
        }
        None => match keep_taken(alloc, &ctx, sessions, session, taken) {
            Ok(()) => Ok((put_back(ctx), Answer::Accepted)),
            Err(_) => {
                drop(ctx);
                Err(EngineError::Memory)
            }
        },
    }
}

// A statement is refused, where no other session holds what its literals refer to.
fn refuse_step<H: Host, K: Keep<H> + Drop>(
    ctx: Ctx<K>,
    sessions: &[Open],
    session: u32,
    why: Refusal,
) -> (Opened<K>, Answer)
    requires live { IsTrue (K.live ctx.heap) }
    requires fit { AreFit (parts_of ctx) }
    requires aligned { AreAligned (parts_of ctx) }
    ensures serves { (m : Interleaved) (x : ListTx) (host : H) → IsInterleaved ode m → opens_as sessions.now ≡ m.sessions → ContextRuns H.view K.holds K.live ode m.world ctx host x
        → Serves H.view K.holds K.live K.means ode m (replies_to m session false (Turns why x)) (Ok result) sessions.now host host }
    ensures usable { IsResting K.live result.0 }
{
    match holder(sessions, session, &ctx.overlay) {
        Some((other, on)) => (put_back(ctx), Answer::Busy { session: other, on }),
        None => (put_back(ctx), Answer::Refused(why)),
    }
}

// What was tried comes to an answer.
fn answer_tried<H: Host, K: Roomy<H> + Drop>(
    alloc: Global,
    tried: Tried<K>,
    host: &mut H,
    sessions: &mut List<Open>,
    session: u32,
) -> Result<(Opened<K>, Answer), EngineError>
    requires live { IsTrue (K.live (context_in tried).heap) }
    requires fit { AreFit (parts_of (context_in tried)) }
    requires aligned { AreAligned (parts_of (context_in tried)) }
    ensures serves { (m : Interleaved) (t : Trial) → IsInterleaved ode m → opens_as sessions.old ≡ m.sessions
        → TriedAs (taken_of (session_of session m.sessions)) (λ c. ContextRuns H.view K.holds K.live ode m.world c host.old) tried t → EndsWell ode t
        → IsInterleaved ode (after_reply m (replies_to m session false t))
        → Serves H.view K.holds K.live K.means ode m (replies_to m session false t) result sessions.new host.old host.new }
    ensures usable { IfOk result (λ r. IsResting K.live r.0) }
    ensures leaves { HostCalls (IsErrOf result EngineError.DiskFault) (IsErrOf result EngineError.WriteFault) (H.view host.old) (H.view host.new) }
{
    match tried {
        Tried::Stays { ctx, taken } => stay_step(alloc, ctx, sessions, session, taken),
        Tried::Ends { ctx, ending } => end_step(alloc, ctx, host, sessions, session, ending),
        Tried::Refused { ctx, why } => Ok(refuse_step(ctx, sessions.as_slice(), session, why)),
    }
}

/// The context of the view of a session that is open, or isn't.
pub(crate) fn view_of<H: Host, K: Keep<H> + Drop>(
    alloc: Global,
    rest: Opened<K>,
    host: &mut H,
    sessions: &[Open],
    session: u32,
) -> Result<Ctx<K>, EngineError>
    requires live { IsTrue (K.live rest.keeper) }
    requires fit { AreFit (resting_parts rest) }
    ensures runs { IfOk result (λ ctx. (w : ListWorld) → IsAtRest H.view K.holds K.live ode w rest host.old
        → ContextRuns H.view K.holds K.live ode w ctx host.new (view_in w (session_of session (opens_as sessions.now)))) }
    ensures parts { IfOk result (λ ctx. parts_of ctx ≡ resting_parts rest) }
    ensures usable { IfOk result (λ ctx. K.live ctx.heap ≡ true) }
    ensures looks { Looks (H.view host.old) (H.view host.new) }
    ensures cause { RoseIf (IsErrOf result EngineError.DiskFault) (H.view host.old).disk_faults (H.view host.new).disk_faults }
    ensures silent { IsErrOf result EngineError.WriteFault → ⊥ }
    ensures undamaged { OnDamaged result ((w : ListWorld) → IsAtRest H.view K.holds K.live ode w rest host.old → w.bones.transaction < transaction_limit → ⊥) }
{
    match place_of(sessions, session) {
        Some(at) => view(alloc, rest, host, sessions[at].taken.as_slice()),
        None => view(alloc, rest, host, &[]),
    }
}

// What a statement came to, as a step's answer.
fn answer_of(done: Done) -> Answer
    ensures { result ≡ answer_in done }
{
    match done {
        Done::Settled(count) => Answer::Settled(count),
        Done::Refused(why) => Answer::Refused(why),
    }
}

// A class declaration or a clock command, where no session is open.
fn carry_alone<H: Host, K: Roomy<H> + Drop>(
    alloc: Global,
    rest: Opened<K>,
    host: &mut H,
    s: &Statement,
) -> Result<(Opened<K>, Answer), EngineError>
    requires live { IsTrue (K.live rest.keeper) }
    requires fit { AreFit (resting_parts rest) }
    requires aligned { AreAligned (resting_parts rest) }
    requires text { HasText ode s.now }
    requires alone { is_alone s.now ≡ true }
    ensures serves { (m : Interleaved) (n : ℕ) (sessions : Items Session) → StandsIn H.view K.holds K.live ode m rest sessions host.old → m.sessions ≡ []
        → let reply = replies_to m n true (tries ode m None s.now) in
        IsInterleaved ode (after_reply m reply) → Serves H.view K.holds K.live K.means ode m reply result sessions host.old host.new }
    ensures usable { IfOk result (λ r. IsResting K.live r.0) }
    ensures leaves { HostCalls (IsErrOf result EngineError.DiskFault) (IsErrOf result EngineError.WriteFault) (H.view host.old) (H.view host.new) }
{
    let mut engine = Engine::start(alloc, rest, false);
    match engine.command(host, s) {
        Ok(done) => Ok((engine.into_opened(), answer_of(done))),
        Err(error) => {
            drop(engine);
            Err(error)
        }
    }
}

// A class declaration or a clock command, which is to be alone.
fn alone_step<H: Host, K: Roomy<H> + Drop>(
    alloc: Global,
    rest: Opened<K>,
    host: &mut H,
    sessions: &[Open],
    session: u32,
    s: &Statement,
) -> Result<(Opened<K>, Answer), EngineError>
    requires live { IsTrue (K.live rest.keeper) }
    requires fit { AreFit (resting_parts rest) }
    requires aligned { AreAligned (resting_parts rest) }
    requires text { HasText ode s.now }
    requires alone { is_alone s.now ≡ true }
    ensures serves { (m : Interleaved) → StandsIn H.view K.holds K.live ode m rest sessions.now host.old → session_of session m.sessions ≡ None
        → let reply = replies_to m session true (tries ode m None s.now) in
        IsInterleaved ode (after_reply m reply) → Serves H.view K.holds K.live K.means ode m reply result sessions.now host.old host.new }
    ensures usable { IfOk result (λ r. IsResting K.live r.0) }
    ensures leaves { HostCalls (IsErrOf result EngineError.DiskFault) (IsErrOf result EngineError.WriteFault) (H.view host.old) (H.view host.new) }
{
    match other(sessions, session) {
        Some(other) => Ok((
            rest,
            Answer::Busy {
                session: other,
                on: Owned::All,
            },
        )),
        None => carry_alone(alloc, rest, host, s),
    }
}

// Whether a number is left beside so many, from the next one on.
fn is_left(next: u64, sessions: usize) -> bool
    ensures { result ≡ nat_lt (next + sessions) number_limit }
{
    next < NUMBER_LIMIT && (sessions as u64) < NUMBER_LIMIT - next
}

// Whether a number is left for one more transaction beside those of the open sessions.
fn has_number<H: Host, K: Roomy<H> + Drop>(
    alloc: Global,
    rest: Opened<K>,
    host: &mut H,
    sessions: &[Open],
) -> Result<(Opened<K>, bool), EngineError>
    requires live { IsTrue (K.live rest.keeper) }
    ensures is { IfOk result (λ r. (m : Interleaved) → StandsIn H.view K.holds K.live ode m rest sessions.now host.old
        → StandsIn H.view K.holds K.live ode m r.0 sessions.now host.new × (r.1 ≡ has_number m)) }
    ensures parts { IfOk result (λ r. resting_parts r.0 ≡ resting_parts rest) }
    ensures usable { IfOk result (λ r. K.live r.0.keeper ≡ true) }
    ensures looks { Looks (H.view host.old) (H.view host.new) }
    ensures cause { RoseIf (IsErrOf result EngineError.DiskFault) (H.view host.old).disk_faults (H.view host.new).disk_faults }
    ensures silent { IsErrOf result EngineError.WriteFault → ⊥ }
    ensures undamaged { OnDamaged result ((m : Interleaved) → StandsIn H.view K.holds K.live ode m rest sessions.now host.old → ⊥) }
{
    let (rest, next) = next_number(alloc, rest, host)?;
    Ok((rest, is_left(next, sessions.len())))
}

// `begin`, of a session that isn't open.
fn begin_step<H: Host, K: Roomy<H> + Drop>(
    alloc: Global,
    rest: Opened<K>,
    host: &mut H,
    sessions: &mut List<Open>,
    session: u32,
) -> Result<(Opened<K>, Answer), EngineError>
    requires live { IsTrue (K.live rest.keeper) }
    requires fit { AreFit (resting_parts rest) }
    requires aligned { AreAligned (resting_parts rest) }
    ensures serves { (m : Interleaved) → StandsIn H.view K.holds K.live ode m rest sessions.old host.old → session_of session m.sessions ≡ None
        → let reply = replies_to m session false (tries ode m None statement.Begin) in
        IsInterleaved ode (after_reply m reply) → Serves H.view K.holds K.live K.means ode m reply result sessions.new host.old host.new }
    ensures usable { IfOk result (λ r. IsResting K.live r.0) }
    ensures leaves { HostCalls (IsErrOf result EngineError.DiskFault) (IsErrOf result EngineError.WriteFault) (H.view host.old) (H.view host.new) }
{
    let (rest, left) = has_number(alloc, rest, host, sessions.as_slice())?;
    if !left {
        return Ok((rest, Answer::Refused(Refusal::NumbersSpent)));
    }
    match put(sessions, fresh(alloc, session)) {
        Ok(()) => Ok((rest, Answer::Accepted)),
        Err(_) => {
            drop(rest);
            Err(EngineError::Memory)
        }
    }
}

// Whether the session of a number is open.
fn is_open(sessions: &[Open], session: u32) -> bool
    ensures { result ≡ is_some (session_of session (opens_as sessions.now)) }
{
    place_of(sessions, session).is_some()
}

// Whether a session that isn't open would need a number, and none is left.
fn is_spent(within: bool, left: bool) -> bool
    ensures { result ≡ (not within && not left) }
{
    !within && !left
}

// Whether none is left, and no session is open.
fn is_over(spent: bool, sessions: &[Open]) -> bool
    ensures { result ≡ (spent && (length sessions.now == 0)) }
{
    spent && sessions.is_empty()
}

// A simple statement of a session, by whether it needs a number and none is left; then another session is open.
fn simple_tried<H: Host, K: Roomy<H> + Drop>(
    alloc: Global,
    rest: Opened<K>,
    host: &mut H,
    sessions: &mut List<Open>,
    session: u32,
    spent: bool,
    s: &Stmt,
) -> Result<(Opened<K>, Answer), EngineError>
    requires live { IsTrue (K.live rest.keeper) }
    requires fit { AreFit (resting_parts rest) }
    requires aligned { AreAligned (resting_parts rest) }
    requires text { HasText ode (statement.Simple s.now) }
    ensures serves { (m : Interleaved) → StandsIn H.view K.holds K.live ode m rest sessions.old host.old
        → let own = session_of session m.sessions in
        spent ≡ (spends own (statement.Simple s.now) && not (has_number m)) → (spent ≡ true → m.sessions ≡ [] → ⊥)
        → let reply = replies_to m session false (tries ode m own (statement.Simple s.now)) in
        IsInterleaved ode (after_reply m reply) → Serves H.view K.holds K.live K.means ode m reply result sessions.new host.old host.new }
    ensures usable { IfOk result (λ r. IsResting K.live r.0) }
    ensures leaves { HostCalls (IsErrOf result EngineError.DiskFault) (IsErrOf result EngineError.WriteFault) (H.view host.old) (H.view host.new) }
{
    let within = is_open(sessions.as_slice(), session);
    let ctx = view_of(alloc, rest, host, sessions.as_slice(), session)?;
    let tried = try_simple(alloc, ctx, host, within, spent, s)?;
    answer_tried(alloc, tried, host, sessions, session)
}

// A simple statement of a session.
fn simple_step<H: Host, K: Roomy<H> + Drop>(
    alloc: Global,
    rest: Opened<K>,
    host: &mut H,
    sessions: &mut List<Open>,
    session: u32,
    s: &Stmt,
) -> Result<(Opened<K>, Answer), EngineError>
    requires live { IsTrue (K.live rest.keeper) }
    requires fit { AreFit (resting_parts rest) }
    requires aligned { AreAligned (resting_parts rest) }
    requires text { HasText ode (statement.Simple s.now) }
    ensures serves { (m : Interleaved) → StandsIn H.view K.holds K.live ode m rest sessions.old host.old
        → let reply = replies_to m session false (tries ode m (session_of session m.sessions) (statement.Simple s.now)) in
        IsInterleaved ode (after_reply m reply) → Serves H.view K.holds K.live K.means ode m reply result sessions.new host.old host.new }
    ensures usable { IfOk result (λ r. IsResting K.live r.0) }
    ensures leaves { HostCalls (IsErrOf result EngineError.DiskFault) (IsErrOf result EngineError.WriteFault) (H.view host.old) (H.view host.new) }
{
    let (rest, left) = has_number(alloc, rest, host, sessions.as_slice())?;
    let spent = is_spent(is_open(sessions.as_slice(), session), left);
    if is_over(spent, sessions.as_slice()) {
        return Ok((rest, Answer::Refused(Refusal::NumbersSpent)));
    }
    simple_tried(alloc, rest, host, sessions, session, spent, s)
}

// `commit` of an open session.
fn commit_step<H: Host, K: Roomy<H> + Drop>(
    alloc: Global,
    rest: Opened<K>,
    host: &mut H,
    sessions: &mut List<Open>,
    session: u32,
) -> Result<(Opened<K>, Answer), EngineError>
    requires live { IsTrue (K.live rest.keeper) }
    requires fit { AreFit (resting_parts rest) }
    requires aligned { AreAligned (resting_parts rest) }
    ensures serves { (m : Interleaved) (o : machine.Open) → StandsIn H.view K.holds K.live ode m rest sessions.old host.old → session_of session m.sessions ≡ Some o
        → let reply = replies_to m session false (tries ode m (Some o) statement.Commit) in
        IsInterleaved ode (after_reply m reply) → Serves H.view K.holds K.live K.means ode m reply result sessions.new host.old host.new }
    ensures usable { IfOk result (λ r. IsResting K.live r.0) }
    ensures leaves { HostCalls (IsErrOf result EngineError.DiskFault) (IsErrOf result EngineError.WriteFault) (H.view host.old) (H.view host.new) }
{
    let ctx = view_of(alloc, rest, host, sessions.as_slice(), session)?;
    let tried = try_commit(alloc, ctx, host)?;
    answer_tried(alloc, tried, host, sessions, session)
}

/// An open session is aborted: it settles, or another session holds what it needs.
pub(crate) fn abort_step<H: Host, K: Roomy<H> + Drop>(
    alloc: Global,
    rest: Opened<K>,
    host: &mut H,
    sessions: &mut List<Open>,
    session: u32,
    why: Reason,
) -> Result<(Opened<K>, Answer), EngineError>
    requires live { IsTrue (K.live rest.keeper) }
    requires fit { AreFit (resting_parts rest) }
    requires aligned { AreAligned (resting_parts rest) }
    ensures serves { (m : Interleaved) (o : machine.Open) → StandsIn H.view K.holds K.live ode m rest sessions.old host.old → session_of session m.sessions ≡ Some o
        → Serves H.view K.holds K.live K.means ode m (replies_to m session false (Ends (Aborted why (view_in m.world (Some o))))) result sessions.new host.old host.new }
    ensures same { IfOk result (λ r. UnlessSettled r.1 (sessions.new ≡ sessions.old)) }
    ensures usable { IfOk result (λ r. IsResting K.live r.0) }
    ensures leaves { HostCalls (IsErrOf result EngineError.DiskFault) (IsErrOf result EngineError.WriteFault) (H.view host.old) (H.view host.new) }
{
    let ctx = view_of(alloc, rest, host, sessions.as_slice(), session)?;
    end_step(alloc, ctx, host, sessions, session, Some(why))
}

// Whether a statement is to be alone.
fn is_lone(s: &Statement) -> bool
    ensures { result ≡ is_alone s.now }
{
    matches!(s, Statement::Class(_) | Statement::Clock(_))
}

// A statement that stands in its place and needn't be alone.
fn step_beside<H: Host, K: Roomy<H> + Drop>(
    alloc: Global,
    rest: Opened<K>,
    host: &mut H,
    sessions: &mut List<Open>,
    session: u32,
    s: &Statement,
) -> Result<(Opened<K>, Answer), EngineError>
    requires live { IsTrue (K.live rest.keeper) }
    requires fit { AreFit (resting_parts rest) }
    requires aligned { AreAligned (resting_parts rest) }
    requires text { HasText ode s.now }
    ensures serves { (m : Interleaved) → StandsIn H.view K.holds K.live ode m rest sessions.old host.old → is_alone s.now ≡ false
        → let own = session_of session m.sessions in
        let reply = replies_to m session false (tries ode m own s.now) in
        stands s.now (is_some own) ≡ Ok tt → IsInterleaved ode (after_reply m reply)
        → Serves H.view K.holds K.live K.means ode m reply result sessions.new host.old host.new }
    ensures usable { IfOk result (λ r. IsResting K.live r.0) }
    ensures leaves { HostCalls (IsErrOf result EngineError.DiskFault) (IsErrOf result EngineError.WriteFault) (H.view host.old) (H.view host.new) }
{
    match s {
        Statement::Simple(s) => simple_step(alloc, rest, host, sessions, session, s),
        Statement::Begin => begin_step(alloc, rest, host, sessions, session),
        Statement::Commit => commit_step(alloc, rest, host, sessions, session),
        Statement::Abort => abort_step(alloc, rest, host, sessions, session, Reason::Asked),
        _ => Ok((rest, Answer::Accepted)),
    }
}

// A statement that stands in its place.
fn step_placed<H: Host, K: Roomy<H> + Drop>(
    alloc: Global,
    rest: Opened<K>,
    host: &mut H,
    sessions: &mut List<Open>,
    session: u32,
    s: &Statement,
) -> Result<(Opened<K>, Answer), EngineError>
    requires live { IsTrue (K.live rest.keeper) }
    requires fit { AreFit (resting_parts rest) }
    requires aligned { AreAligned (resting_parts rest) }
    requires text { HasText ode s.now }
    ensures serves { (m : Interleaved) → StandsIn H.view K.holds K.live ode m rest sessions.old host.old
        → let own = session_of session m.sessions in
        let reply = replies_to m session (is_alone s.now) (tries ode m own s.now) in
        stands s.now (is_some own) ≡ Ok tt → IsInterleaved ode (after_reply m reply)
        → Serves H.view K.holds K.live K.means ode m reply result sessions.new host.old host.new }
    ensures usable { IfOk result (λ r. IsResting K.live r.0) }
    ensures leaves { HostCalls (IsErrOf result EngineError.DiskFault) (IsErrOf result EngineError.WriteFault) (H.view host.old) (H.view host.new) }
{
    if is_lone(s) {
        return alone_step(alloc, rest, host, sessions.as_slice(), session, s);
    }
    step_beside(alloc, rest, host, sessions, session, s)
}

/// A step of a session.
pub(crate) fn step_in<H: Host, K: Roomy<H> + Drop>(
    alloc: Global,
    rest: Opened<K>,
    host: &mut H,
    sessions: &mut List<Open>,
    session: u32,
    s: &Statement,
) -> Result<(Opened<K>, Answer), EngineError>
    requires live { IsTrue (K.live rest.keeper) }
    requires fit { AreFit (resting_parts rest) }
    requires aligned { AreAligned (resting_parts rest) }
    requires text { HasText ode s.now }
    ensures serves { (m : Interleaved) → StandsIn H.view K.holds K.live ode m rest sessions.old host.old
        → Serves H.view K.holds K.live K.means ode m (step ode m session s.now) result sessions.new host.old host.new }
    ensures usable { IfOk result (λ r. IsResting K.live r.0) }
    ensures leaves { HostCalls (IsErrOf result EngineError.DiskFault) (IsErrOf result EngineError.WriteFault) (H.view host.old) (H.view host.new) }
{
    sessions_stay_apart();
    match stands_in_place(s, is_open(sessions.as_slice(), session)) {
        Err(why) => Ok((rest, Answer::Refused(why))),
        Ok(()) => step_placed(alloc, rest, host, sessions, session, s),
    }
}
