//! Statements, over an opened file and inside a transaction.
ghost use Rattle.std.specs.Prelude.{◌≡◌, ◌<◌, ◌∷◌, [], ℕ, List as Items, IfOk, IsErrOf, IsTrue, Ok, OnOk, Option, Some, false, true};
ghost use Rattle.ode_compile.specs.Compiling.{HaveNumbers};
ghost use Rattle.ode_change.specs.Changing.{HasChange};
ghost use Rattle.ode_language.specs.Texts.{HasText};
ghost use Rattle.ode_schema.specs.Parts.{AreAligned, AreFit};
ghost use Rattle.ode_engine.specs.Refusing.{turned_down};
ghost use Rattle.ode_engine.specs.Serving.{IsSession, IsUsable, Serves, StandsIn, answer_to, answer_to_change, settlings};
ghost use Rattle.ode_good_laws.specs.Well.{IsWell};
ghost use Rattle.ode_host.specs.Causes.{RoseIf};
ghost use Rattle.ode_host.specs.Host.{HostCalls, LeavesOnly, Looks, Printed};
ghost use Rattle.ode_keep.specs.Entries.{Entries};
ghost use Rattle.ode_language.specs.Languages.{ode};
ghost use Rattle.ode_machine.specs.Commands.{carried, changes, commits, finish, goes_on, settles};
ghost use Rattle.ode_machine.specs.Moments.{LeavesSettling};
ghost use Rattle.ode_machine.specs.Refusals.{checked_in, is_lone, place_of};
ghost use Rattle.ode_machine.specs.Sessions.{Session, closed, opened};
ghost use Rattle.ode_transact.specs.Contexts.{ContextRuns, parts_of};
ghost use Rattle.ode_transact.specs.Errors.{OnDamaged};
ghost use Rattle.ode_transact.specs.Logging.{DiskHas, HasGrown, Kept, Logs};
ghost use Rattle.ode_transact.specs.Output.{counting, heard};
ghost use Rattle.ode_transact.specs.Resting.{HoldsBy, IsAtRest, resting_parts};
ghost use Rattle.ode_transact.specs.Working.{EndedAs, settled_by, whole_of};
ghost use Rattle.ode_value.specs.Executing.{commands};
ghost use Rattle.ode_value.specs.Language.{Language, ListTx, ListWorld};
ghost use Rattle.ode_value.specs.Limits.{number_limit};
ghost use Rattle.ode_value.specs.Objects.{Histories, Starts};
ghost use Rattle.ode_value.specs.Pasts.{lists};
ghost use Rattle.ode_value.specs.Settling.{Settled, abort, transaction};
ghost use Rattle.ode_value.specs.Transactions.{Script, begun};
ghost use Rattle.ode_value.specs.declared.statement.Statement.TheVariants as statement;

use crate::engine::Done;
use crate::refusing::{Turned, checked, place_of, takes_number};
use ode_change::{change, declare};
use ode_clock::set_clock;
use ode_host::Host;
use ode_keep::{Keep, Roomy};
use ode_opened::Opened;
use ode_overlay::Origin;
use ode_transact::{
    Ctx, EngineError, Log, Output, Stop, Work, begin, drain, end, exec, fault_of, next_number,
    put_back, run, run_completion,
};
use ode_value::limits::{DRAIN_LIMIT, NUMBER_LIMIT};
use ode_value::{Change, ClassDecl, OdeText, Reason, Refusal, Statement, Stmt};
use std::alloc::Global;

/// An opened file, or the context of an open transaction.
#[derive(Drop)]
pub(crate) enum State<K> {
    Rest(Opened<K>),
    Running(Ctx<K>),
}

// What is answered where a statement isn't carried out: this is there as before.
fn turned_down<S: Drop>(state: S, turned: Turned) -> Result<(S, Done), EngineError>
    ensures { result ≡ turned_down state turned }
{
    match turned {
        Turned::Refused(why) => Ok((state, Done::Refused(why))),
        Turned::Stopped(error) => Err(error),
    }
}

// The drain behind a transaction that has settled.
fn settled<H: Host, K: Roomy<H> + Drop>(
    alloc: Global,
    rest: Opened<K>,
    host: &mut H,
    output: &mut Output,
    log: &mut Log,
) -> Result<(State<K>, Done), EngineError>
    requires live { IsTrue (K.live rest.keeper) }
    requires fit { AreFit (resting_parts rest) }
    requires aligned { AreAligned (resting_parts rest) }
    // Whatever the calls from `before` on settled, they and the drain serve it.
    ensures serves { (session : Session) (s : Settled Histories Starts) (before : H) (start : Output) → Printed (heard start.quiet s.1) (H.view before) (H.view host.old) → output.old ≡ counting start s.1
        → ((said : Items ℕ) → (H.view before).text ≡ Some said → LeavesOnly (H.view before) (H.view host.old) (LeavesSettling (HoldsBy ode K.means) session.world s.0 said (heard start.quiet s.1)))
        → IsWell ode s.0 → IsAtRest H.view K.holds K.live ode s.0 rest host.old
        → Serves H.view K.holds K.live K.means ode session (Ok (settles s)) result before host.new start output.new }
    ensures logs { (w : ListWorld) (s : Settled Histories Starts) (before : Option (Items Kept)) (entries : Entries) → IsWell ode s.0 → IsAtRest H.view K.holds K.live ode s.0 rest host.old
        → Logs K.means ode w entries (s ∷ []) before log.old (H.view host.old) → OnOk result (Logs K.means ode w entries (settles s).1 before log.new (H.view host.new)) }
    ensures grown { HasGrown log.old log.new }
    ensures usable { IfOk result (λ r. IsUsable K.live r.0) }
    ensures leaves { HostCalls (IsErrOf result EngineError.DiskFault) (IsErrOf result EngineError.WriteFault) (H.view host.old) (H.view host.new) }
{
    match drain(alloc, rest, host, output, log, DRAIN_LIMIT) {
        Ok((rest, ran)) => Ok((State::Rest(rest), Done::Settled(ran + 1))),
        Err(error) => Err(error),
    }
}

// An open transaction settles, and the drain follows.
fn settle<H: Host, K: Roomy<H> + Drop>(
    alloc: Global,
    ctx: Ctx<K>,
    host: &mut H,
    output: &mut Output,
    log: &mut Log,
    ending: Option<Reason>,
) -> Result<(State<K>, Done), EngineError>
    requires live { IsTrue (K.live ctx.heap) }
    requires fit { AreFit (parts_of ctx) }
    requires aligned { AreAligned (parts_of ctx) }
    ensures serves { (session : Session) (t : ListTx) → IsWell ode session.world → ContextRuns H.view K.holds K.live ode session.world ctx host.old t → IsWell ode (settled_by ending t).0
        → Serves H.view K.holds K.live K.means ode session (Ok (settles (settled_by ending t))) result host.old host.new output.old output.new }
    ensures logs { (session : Session) (t : ListTx) (entries : Entries) → IsWell ode session.world → ContextRuns H.view K.holds K.live ode session.world ctx host.old t → IsWell ode (settled_by ending t).0
        → DiskHas K.means entries (H.view host.old) → OnOk result (Logs K.means ode session.world entries (settlings (Ok (settles (settled_by ending t)))) log.old log.new (H.view host.new)) }
    ensures grown { HasGrown log.old log.new }
    ensures usable { IfOk result (λ r. IsUsable K.live r.0) }
    ensures leaves { HostCalls (IsErrOf result EngineError.DiskFault) (IsErrOf result EngineError.WriteFault) (H.view host.old) (H.view host.new) }
{
    match end(alloc, ctx, host, output, log, ending) {
        Ok(rest) => settled(alloc, rest, host, output, log),
        Err(error) => Err(error),
    }
}

// A checked statement of an open transaction.
fn run_inside<H: Host, K: Roomy<H> + Drop>(
    alloc: Global,
    ctx: Ctx<K>,
    host: &mut H,
    output: &mut Output,
    log: &mut Log,
    s: &Stmt,
) -> Result<(State<K>, Done), EngineError>
    requires live { IsTrue (K.live ctx.heap) }
    requires fit { AreFit (parts_of ctx) }
    requires aligned { AreAligned (parts_of ctx) }
    ensures serves { (w : ListWorld) (t : ListTx) (read : Stmt) → IsSession ode (opened w t) → ContextRuns H.view K.holds K.live ode w ctx host.old t
        → HasText ode (statement.Simple read) → checked_in ode t.now.bones read ≡ Ok s.now
        → Serves H.view K.holds K.live K.means ode (opened w t) (Ok (goes_on w (commands lists s.now t))) result host.old host.new output.old output.new }
    ensures logs { (w : ListWorld) (t : ListTx) (read : Stmt) (entries : Entries) → IsSession ode (opened w t) → ContextRuns H.view K.holds K.live ode w ctx host.old t
        → HasText ode (statement.Simple read) → checked_in ode t.now.bones read ≡ Ok s.now
        → DiskHas K.means entries (H.view host.old) → OnOk result (Logs K.means ode w entries (settlings (Ok (goes_on w (commands lists s.now t)))) log.old log.new (H.view host.new)) }
    ensures grown { HasGrown log.old log.new }
    ensures usable { IfOk result (λ r. IsUsable K.live r.0) }
    ensures leaves { HostCalls (IsErrOf result EngineError.DiskFault) (IsErrOf result EngineError.WriteFault) (H.view host.old) (H.view host.new) }
{
    let mut ctx = ctx;
    match exec(alloc, &mut ctx, host, s) {
        Ok(()) => Ok((State::Running(ctx), Done::Settled(0))),
        Err(Stop::Abort(why)) => settle(alloc, ctx, host, output, log, Some(why)),
        Err(stop) => {
            drop(ctx);
            Err(fault_of(stop))
        }
    }
}

// A simple statement of an open transaction.
fn simple_inside<H: Host, K: Roomy<H> + Drop>(
    alloc: Global,
    ctx: Ctx<K>,
    host: &mut H,
    output: &mut Output,
    log: &mut Log,
    s: &Stmt,
) -> Result<(State<K>, Done), EngineError>
    requires live { IsTrue (K.live ctx.heap) }
    requires fit { AreFit (parts_of ctx) }
    requires aligned { AreAligned (parts_of ctx) }
    ensures serves { (w : ListWorld) (t : ListTx) → IsSession ode (opened w t) → ContextRuns H.view K.holds K.live ode w ctx host.old t → HasText ode (statement.Simple s.now)
        → Serves H.view K.holds K.live K.means ode (opened w t) (carried ode (opened w t) (statement.Simple s.now)) result host.old host.new output.old output.new }
    ensures logs { (w : ListWorld) (t : ListTx) (entries : Entries) → IsSession ode (opened w t) → ContextRuns H.view K.holds K.live ode w ctx host.old t → HasText ode (statement.Simple s.now)
        → DiskHas K.means entries (H.view host.old) → OnOk result (Logs K.means ode w entries (settlings (carried ode (opened w t) (statement.Simple s.now))) log.old log.new (H.view host.new)) }
    ensures grown { HasGrown log.old log.new }
    ensures usable { IfOk result (λ r. IsUsable K.live r.0) }
    ensures leaves { HostCalls (IsErrOf result EngineError.DiskFault) (IsErrOf result EngineError.WriteFault) (H.view host.old) (H.view host.new) }
{
    let mut ctx = ctx;
    match checked(alloc, &mut ctx, host, s) {
        Ok(s) => run_inside(alloc, ctx, host, output, log, s.get()),
        Err(turned) => turned_down(State::Running(ctx), turned),
    }
}

// The open transaction is committed.
fn commit<H: Host, K: Roomy<H> + Drop>(
    alloc: Global,
    ctx: Ctx<K>,
    host: &mut H,
    output: &mut Output,
    log: &mut Log,
) -> Result<(State<K>, Done), EngineError>
    requires live { IsTrue (K.live ctx.heap) }
    requires fit { AreFit (parts_of ctx) }
    requires aligned { AreAligned (parts_of ctx) }
    ensures serves { (w : ListWorld) (t : ListTx) → IsSession ode (opened w t) → ContextRuns H.view K.holds K.live ode w ctx host.old t
        → Serves H.view K.holds K.live K.means ode (opened w t) (Ok (settles (commits t))) result host.old host.new output.old output.new }
    ensures logs { (w : ListWorld) (t : ListTx) (entries : Entries) → IsSession ode (opened w t) → ContextRuns H.view K.holds K.live ode w ctx host.old t
        → DiskHas K.means entries (H.view host.old) → OnOk result (Logs K.means ode w entries (settlings (Ok (settles (commits t)))) log.old log.new (H.view host.new)) }
    ensures grown { HasGrown log.old log.new }
    ensures usable { IfOk result (λ r. IsUsable K.live r.0) }
    ensures leaves { HostCalls (IsErrOf result EngineError.DiskFault) (IsErrOf result EngineError.WriteFault) (H.view host.old) (H.view host.new) }
{
    let mut ctx = ctx;
    match run_completion(alloc, &mut ctx, host) {
        Ok(ending) => settle(alloc, ctx, host, output, log, ending),
        Err(error) => {
            drop(ctx);
            Err(error)
        }
    }
}

// The open transaction is aborted, by a statement or at the end of the input.
fn abort<H: Host, K: Roomy<H> + Drop>(
    alloc: Global,
    ctx: Ctx<K>,
    host: &mut H,
    output: &mut Output,
    log: &mut Log,
    why: Reason,
) -> Result<(State<K>, Done), EngineError>
    requires live { IsTrue (K.live ctx.heap) }
    requires fit { AreFit (parts_of ctx) }
    requires aligned { AreAligned (parts_of ctx) }
    ensures serves { (w : ListWorld) (t : ListTx) → IsSession ode (opened w t) → ContextRuns H.view K.holds K.live ode w ctx host.old t
        → Serves H.view K.holds K.live K.means ode (opened w t) (Ok (settles (abort lists why t))) result host.old host.new output.old output.new }
    ensures logs { (w : ListWorld) (t : ListTx) (entries : Entries) → IsSession ode (opened w t) → ContextRuns H.view K.holds K.live ode w ctx host.old t
        → DiskHas K.means entries (H.view host.old) → OnOk result (Logs K.means ode w entries (settlings (Ok (settles (abort lists why t)))) log.old log.new (H.view host.new)) }
    ensures grown { HasGrown log.old log.new }
    ensures usable { IfOk result (λ r. IsUsable K.live r.0) }
    ensures leaves { HostCalls (IsErrOf result EngineError.DiskFault) (IsErrOf result EngineError.WriteFault) (H.view host.old) (H.view host.new) }
{
    settle(alloc, ctx, host, output, log, Some(why))
}

// A statement inside a transaction.
fn command_inside<H: Host, K: Roomy<H> + Drop>(
    alloc: Global,
    ctx: Ctx<K>,
    host: &mut H,
    output: &mut Output,
    log: &mut Log,
    s: &Statement,
) -> Result<(State<K>, Done), EngineError>
    requires live { IsTrue (K.live ctx.heap) }
    requires fit { AreFit (parts_of ctx) }
    requires aligned { AreAligned (parts_of ctx) }
    requires text { HasText ode s.now }
    ensures serves { (w : ListWorld) (t : ListTx) → IsSession ode (opened w t) → ContextRuns H.view K.holds K.live ode w ctx host.old t
        → Serves H.view K.holds K.live K.means ode (opened w t) (answer_to ode (opened w t) s.now) result host.old host.new output.old output.new }
    ensures logs { (w : ListWorld) (t : ListTx) (entries : Entries) → IsSession ode (opened w t) → ContextRuns H.view K.holds K.live ode w ctx host.old t
        → DiskHas K.means entries (H.view host.old) → OnOk result (Logs K.means ode w entries (settlings (answer_to ode (opened w t) s.now)) log.old log.new (H.view host.new)) }
    ensures grown { HasGrown log.old log.new }
    ensures usable { IfOk result (λ r. IsUsable K.live r.0) }
    ensures leaves { HostCalls (IsErrOf result EngineError.DiskFault) (IsErrOf result EngineError.WriteFault) (H.view host.old) (H.view host.new) }
{
    if let Err(why) = place_of(s, true) {
        return Ok((State::Running(ctx), Done::Refused(why)));
    }
    match s {
        Statement::Commit => commit(alloc, ctx, host, output, log),
        Statement::Abort => abort(alloc, ctx, host, output, log, Reason::Asked),
        Statement::Simple(s) => simple_inside(alloc, ctx, host, output, log, s),
        _ => Ok((State::Running(ctx), Done::Settled(0))),
    }
}

// A checked statement, and the completion behind it.
fn carry<H: Host, K: Keep<H>>(
    alloc: Global,
    ctx: &mut Ctx<K>,
    host: &mut H,
    s: &Stmt,
) -> Result<Option<Reason>, EngineError>
    requires fit { AreFit (parts_of ctx.old) }
    ensures runs { (w : ListWorld) (x : ListTx) → ContextRuns H.view K.holds K.live ode w ctx.old host.old x
        → IfOk result (λ ending. EndedAs ending (ContextRuns H.view K.holds K.live ode w ctx.new host.new) (whole_of (Work.Statement s.entry) lists x)) }
    ensures looks { K.live ctx.old.heap ≡ true → Looks (H.view host.old) (H.view host.new) }
    ensures cause { K.live ctx.old.heap ≡ true → RoseIf (IsErrOf result EngineError.DiskFault) (H.view host.old).disk_faults (H.view host.new).disk_faults }
    ensures usable { K.live ctx.old.heap ≡ true → IfOk result (λ _. K.live ctx.new.heap ≡ true) }
    ensures silent { IsErrOf result EngineError.WriteFault → ⊥ }
    ensures undamaged { OnDamaged result ((l : Language) (w : ListWorld) (x : ListTx) → ContextRuns H.view K.holds K.live l w ctx.old host.old x → ⊥) }
    ensures same { parts_of ctx.new ≡ parts_of ctx.old }
{
    run(alloc, ctx, host, Work::Statement(s))
}

// A checked statement as a transaction of its own.
fn run_whole<H: Host, K: Roomy<H> + Drop>(
    alloc: Global,
    ctx: Ctx<K>,
    host: &mut H,
    output: &mut Output,
    log: &mut Log,
    s: &Stmt,
) -> Result<(State<K>, Done), EngineError>
    requires live { IsTrue (K.live ctx.heap) }
    requires fit { AreFit (parts_of ctx) }
    requires aligned { AreAligned (parts_of ctx) }
    ensures serves { (w : ListWorld) → IsWell ode w → ContextRuns H.view K.holds K.live ode w ctx host.old (begun Script w) → IsWell ode (transaction lists Script (commands lists s.now) w).0
        → Serves H.view K.holds K.live K.means ode (closed w) (Ok (settles (transaction lists Script (commands lists s.now) w))) result host.old host.new output.old output.new }
    ensures logs { (w : ListWorld) (entries : Entries) → IsWell ode w → ContextRuns H.view K.holds K.live ode w ctx host.old (begun Script w) → IsWell ode (transaction lists Script (commands lists s.now) w).0
        → DiskHas K.means entries (H.view host.old) → OnOk result (Logs K.means ode w entries (settlings (Ok (settles (transaction lists Script (commands lists s.now) w)))) log.old log.new (H.view host.new)) }
    ensures grown { HasGrown log.old log.new }
    ensures usable { IfOk result (λ r. IsUsable K.live r.0) }
    ensures leaves { HostCalls (IsErrOf result EngineError.DiskFault) (IsErrOf result EngineError.WriteFault) (H.view host.old) (H.view host.new) }
{
    let mut ctx = ctx;
    match carry(alloc, &mut ctx, host, s) {
        Ok(ending) => settle(alloc, ctx, host, output, log, ending),
        Err(error) => {
            drop(ctx);
            Err(error)
        }
    }
}

// A simple statement as a transaction of its own, which has begun. Where the statement is refused, nothing is left of that.
fn simple_begun<H: Host, K: Roomy<H> + Drop>(
    alloc: Global,
    ctx: Ctx<K>,
    host: &mut H,
    output: &mut Output,
    log: &mut Log,
    s: &Stmt,
) -> Result<(State<K>, Done), EngineError>
    requires live { IsTrue (K.live ctx.heap) }
    requires fit { AreFit (parts_of ctx) }
    requires aligned { AreAligned (parts_of ctx) }
    ensures serves { (w : ListWorld) → IsWell ode w → ContextRuns H.view K.holds K.live ode w ctx host.old (begun Script w) → w.bones.transaction < number_limit → HasText ode (statement.Simple s.now)
        → Serves H.view K.holds K.live K.means ode (closed w) (carried ode (closed w) (statement.Simple s.now)) result host.old host.new output.old output.new }
    ensures logs { (w : ListWorld) (entries : Entries) → IsWell ode w → ContextRuns H.view K.holds K.live ode w ctx host.old (begun Script w) → w.bones.transaction < number_limit → HasText ode (statement.Simple s.now)
        → DiskHas K.means entries (H.view host.old) → OnOk result (Logs K.means ode w entries (settlings (carried ode (closed w) (statement.Simple s.now))) log.old log.new (H.view host.new)) }
    ensures grown { HasGrown log.old log.new }
    ensures usable { IfOk result (λ r. IsUsable K.live r.0) }
    ensures leaves { HostCalls (IsErrOf result EngineError.DiskFault) (IsErrOf result EngineError.WriteFault) (H.view host.old) (H.view host.new) }
{
    let mut ctx = ctx;
    match checked(alloc, &mut ctx, host, s) {
        Ok(s) => run_whole(alloc, ctx, host, output, log, s.get()),
        Err(turned) => turned_down(State::Rest(put_back(ctx)), turned),
    }
}

// A simple statement outside a transaction. Its transaction begins before it is checked.
fn simple<H: Host, K: Roomy<H> + Drop>(
    alloc: Global,
    rest: Opened<K>,
    host: &mut H,
    output: &mut Output,
    log: &mut Log,
    s: &Stmt,
) -> Result<(State<K>, Done), EngineError>
    requires live { IsTrue (K.live rest.keeper) }
    requires fit { AreFit (resting_parts rest) }
    requires aligned { AreAligned (resting_parts rest) }
    ensures serves { (w : ListWorld) → IsWell ode w → IsAtRest H.view K.holds K.live ode w rest host.old → w.bones.transaction < number_limit → HasText ode (statement.Simple s.now)
        → Serves H.view K.holds K.live K.means ode (closed w) (carried ode (closed w) (statement.Simple s.now)) result host.old host.new output.old output.new }
    ensures logs { (w : ListWorld) (entries : Entries) → IsWell ode w → IsAtRest H.view K.holds K.live ode w rest host.old → w.bones.transaction < number_limit → HasText ode (statement.Simple s.now)
        → DiskHas K.means entries (H.view host.old) → OnOk result (Logs K.means ode w entries (settlings (carried ode (closed w) (statement.Simple s.now))) log.old log.new (H.view host.new)) }
    ensures grown { HasGrown log.old log.new }
    ensures usable { IfOk result (λ r. IsUsable K.live r.0) }
    ensures leaves { HostCalls (IsErrOf result EngineError.DiskFault) (IsErrOf result EngineError.WriteFault) (H.view host.old) (H.view host.new) }
{
    match begin(alloc, rest, host, Origin::Script) {
        Ok(ctx) => simple_begun(alloc, ctx, host, output, log, s),
        Err(error) => Err(error),
    }
}

// A class, with the drain behind its transaction.
fn class<H: Host, K: Roomy<H> + Drop>(
    alloc: Global,
    rest: Opened<K>,
    host: &mut H,
    output: &mut Output,
    log: &mut Log,
    decl: &ClassDecl,
) -> Result<(State<K>, Done), EngineError>
    requires live { IsTrue (K.live rest.keeper) }
    requires fit { AreFit (resting_parts rest) }
    requires aligned { AreAligned (resting_parts rest) }
    requires numbers { HaveNumbers decl.now }
    ensures serves { (w : ListWorld) → IsWell ode w → IsAtRest H.view K.holds K.live ode w rest host.old → w.bones.transaction < number_limit → HasText ode (statement.Class decl.now)
        → Serves H.view K.holds K.live K.means ode (closed w) (carried ode (closed w) (statement.Class decl.now)) result host.old host.new output.old output.new }
    ensures logs { (w : ListWorld) (entries : Entries) → IsWell ode w → IsAtRest H.view K.holds K.live ode w rest host.old → w.bones.transaction < number_limit → HasText ode (statement.Class decl.now)
        → DiskHas K.means entries (H.view host.old) → OnOk result (Logs K.means ode w entries (settlings (carried ode (closed w) (statement.Class decl.now))) log.old log.new (H.view host.new)) }
    ensures grown { HasGrown log.old log.new }
    ensures usable { IfOk result (λ r. IsUsable K.live r.0) }
    ensures leaves { HostCalls (IsErrOf result EngineError.DiskFault) (IsErrOf result EngineError.WriteFault) (H.view host.old) (H.view host.new) }
{
    match declare(alloc, rest, host, output, log, decl) {
        Ok((rest, refused)) => match refused {
            Some(why) => Ok((State::Rest(rest), Done::Refused(why))),
            None => settled(alloc, rest, host, output, log),
        },
        Err(error) => Err(error),
    }
}

// A change of a class outside a transaction that has a number, with the drain behind its transaction.
fn change_numbered<H: Host, K: Roomy<H> + Drop>(
    alloc: Global,
    rest: Opened<K>,
    host: &mut H,
    output: &mut Output,
    log: &mut Log,
    c: &Change,
) -> Result<(State<K>, Done), EngineError>
    requires live { IsTrue (K.live rest.keeper) }
    requires fit { AreFit (resting_parts rest) }
    requires aligned { AreAligned (resting_parts rest) }
    requires text { HasChange ode c.now }
    ensures serves { (w : ListWorld) → IsWell ode w → IsAtRest H.view K.holds K.live ode w rest host.old → w.bones.transaction < number_limit
        → Serves H.view K.holds K.live K.means ode (closed w) (answer_to_change ode w c.now) result host.old host.new output.old output.new }
    ensures logs { (w : ListWorld) (entries : Entries) → IsWell ode w → IsAtRest H.view K.holds K.live ode w rest host.old → w.bones.transaction < number_limit
        → DiskHas K.means entries (H.view host.old) → OnOk result (Logs K.means ode w entries (settlings (answer_to_change ode w c.now)) log.old log.new (H.view host.new)) }
    ensures grown { HasGrown log.old log.new }
    ensures usable { IfOk result (λ r. IsUsable K.live r.0) }
    ensures leaves { HostCalls (IsErrOf result EngineError.DiskFault) (IsErrOf result EngineError.WriteFault) (H.view host.old) (H.view host.new) }
{
    match change(alloc, rest, host, output, log, c) {
        Ok((rest, refused)) => match refused {
            Some(why) => Ok((State::Rest(rest), Done::Refused(why))),
            None => settled(alloc, rest, host, output, log),
        },
        Err(error) => Err(error),
    }
}

// A change of a class outside a transaction.
fn change_at_rest<H: Host, K: Roomy<H> + Drop>(
    alloc: Global,
    rest: Opened<K>,
    host: &mut H,
    output: &mut Output,
    log: &mut Log,
    c: &Change,
) -> Result<(State<K>, Done), EngineError>
    requires live { IsTrue (K.live rest.keeper) }
    requires fit { AreFit (resting_parts rest) }
    requires aligned { AreAligned (resting_parts rest) }
    requires text { HasChange ode c.now }
    ensures serves { (w : ListWorld) → IsWell ode w → IsAtRest H.view K.holds K.live ode w rest host.old
        → Serves H.view K.holds K.live K.means ode (closed w) (changes ode (closed w) c.now) result host.old host.new output.old output.new }
    ensures logs { (w : ListWorld) (entries : Entries) → IsWell ode w → IsAtRest H.view K.holds K.live ode w rest host.old
        → DiskHas K.means entries (H.view host.old) → OnOk result (Logs K.means ode w entries (settlings (changes ode (closed w) c.now)) log.old log.new (H.view host.new)) }
    ensures grown { HasGrown log.old log.new }
    ensures usable { IfOk result (λ r. IsUsable K.live r.0) }
    ensures leaves { HostCalls (IsErrOf result EngineError.DiskFault) (IsErrOf result EngineError.WriteFault) (H.view host.old) (H.view host.new) }
{
    let (rest, next) = next_number(alloc, rest, host)?;
    if next >= NUMBER_LIMIT {
        return Ok((State::Rest(rest), Done::Refused(Refusal::NumbersSpent)));
    }
    change_numbered(alloc, rest, host, output, log, c)
}

/// A change of a class, which stands outside a transaction.
pub(crate) fn change_in<H: Host, K: Roomy<H> + Drop>(
    alloc: Global,
    state: State<K>,
    host: &mut H,
    output: &mut Output,
    log: &mut Log,
    c: &Change,
) -> Result<(State<K>, Done), EngineError>
    requires usable { IsUsable K.live state }
    requires text { HasChange ode c.now }
    ensures serves { (session : Session) → IsSession ode session → StandsIn H.view K.holds K.live ode session state host.old
        → Serves H.view K.holds K.live K.means ode session (changes ode session c.now) result host.old host.new output.old output.new }
    ensures logs { (session : Session) (entries : Entries) → IsSession ode session → StandsIn H.view K.holds K.live ode session state host.old
        → DiskHas K.means entries (H.view host.old) → OnOk result (Logs K.means ode session.world entries (settlings (changes ode session c.now)) log.old log.new (H.view host.new)) }
    ensures grown { HasGrown log.old log.new }
    ensures usable { IfOk result (λ r. IsUsable K.live r.0) }
    ensures leaves { HostCalls (IsErrOf result EngineError.DiskFault) (IsErrOf result EngineError.WriteFault) (H.view host.old) (H.view host.new) }
{
    match state {
        State::Rest(rest) => change_at_rest(alloc, rest, host, output, log, c),
        State::Running(ctx) => Ok((State::Running(ctx), Done::Refused(Refusal::InTransaction))),
    }
}

// The clock, with the drain behind each of its ticks.
fn clock<H: Host, K: Roomy<H> + Drop>(
    alloc: Global,
    rest: Opened<K>,
    host: &mut H,
    output: &mut Output,
    log: &mut Log,
    text: &OdeText,
) -> Result<(State<K>, Done), EngineError>
    requires live { IsTrue (K.live rest.keeper) }
    requires fit { AreFit (resting_parts rest) }
    requires aligned { AreAligned (resting_parts rest) }
    ensures serves { (w : ListWorld) → IsWell ode w → IsAtRest H.view K.holds K.live ode w rest host.old → w.bones.transaction < number_limit
        → Serves H.view K.holds K.live K.means ode (closed w) (carried ode (closed w) (statement.Clock text.now)) result host.old host.new output.old output.new }
    ensures logs { (w : ListWorld) (entries : Entries) → IsWell ode w → IsAtRest H.view K.holds K.live ode w rest host.old → w.bones.transaction < number_limit
        → DiskHas K.means entries (H.view host.old) → OnOk result (Logs K.means ode w entries (settlings (carried ode (closed w) (statement.Clock text.now))) log.old log.new (H.view host.new)) }
    ensures grown { HasGrown log.old log.new }
    ensures usable { IfOk result (λ r. IsUsable K.live r.0) }
    ensures leaves { HostCalls (IsErrOf result EngineError.DiskFault) (IsErrOf result EngineError.WriteFault) (H.view host.old) (H.view host.new) }
{
    match set_clock(alloc, rest, host, output, log, text) {
        Ok((rest, found)) => match found {
            Ok(settled) => Ok((State::Rest(rest), Done::Settled(settled))),
            Err(why) => Ok((State::Rest(rest), Done::Refused(why))),
        },
        Err(error) => Err(error),
    }
}

// A transaction begins, and stays open.
fn leave_open<H: Host, K: Roomy<H> + Drop>(
    alloc: Global,
    rest: Opened<K>,
    host: &mut H,
) -> Result<(State<K>, Done), EngineError>
    requires live { IsTrue (K.live rest.keeper) }
    requires fit { AreFit (resting_parts rest) }
    requires aligned { AreAligned (resting_parts rest) }
    ensures serves { (w : ListWorld) (output : Output) → IsWell ode w → IsAtRest H.view K.holds K.live ode w rest host.old → w.bones.transaction < number_limit
        → Serves H.view K.holds K.live K.means ode (closed w) (carried ode (closed w) statement.Begin) result host.old host.new output output }
    ensures looks { Looks (H.view host.old) (H.view host.new) }
    ensures usable { IfOk result (λ r. IsUsable K.live r.0) }
    ensures leaves { HostCalls (IsErrOf result EngineError.DiskFault) (IsErrOf result EngineError.WriteFault) (H.view host.old) (H.view host.new) }
{
    match begin(alloc, rest, host, Origin::Script) {
        Ok(ctx) => Ok((State::Running(ctx), Done::Settled(0))),
        Err(error) => Err(error),
    }
}

// A statement outside a transaction that stands in its place and has a number.
fn carry_out<H: Host, K: Roomy<H> + Drop>(
    alloc: Global,
    rest: Opened<K>,
    host: &mut H,
    output: &mut Output,
    log: &mut Log,
    s: &Statement,
) -> Result<(State<K>, Done), EngineError>
    requires live { IsTrue (K.live rest.keeper) }
    requires fit { AreFit (resting_parts rest) }
    requires aligned { AreAligned (resting_parts rest) }
    requires text { HasText ode s.now }
    ensures serves { (w : ListWorld) → IsWell ode w → IsAtRest H.view K.holds K.live ode w rest host.old → w.bones.transaction < number_limit → place_of s.now false ≡ Ok tt
        → Serves H.view K.holds K.live K.means ode (closed w) (carried ode (closed w) s.now) result host.old host.new output.old output.new }
    ensures logs { (w : ListWorld) (entries : Entries) → IsWell ode w → IsAtRest H.view K.holds K.live ode w rest host.old → w.bones.transaction < number_limit → place_of s.now false ≡ Ok tt
        → DiskHas K.means entries (H.view host.old) → OnOk result (Logs K.means ode w entries (settlings (carried ode (closed w) s.now)) log.old log.new (H.view host.new)) }
    ensures grown { HasGrown log.old log.new }
    ensures usable { IfOk result (λ r. IsUsable K.live r.0) }
    ensures leaves { HostCalls (IsErrOf result EngineError.DiskFault) (IsErrOf result EngineError.WriteFault) (H.view host.old) (H.view host.new) }
{
    match s {
        Statement::Begin => leave_open(alloc, rest, host),
        Statement::Class(decl) => class(alloc, rest, host, output, log, decl),
        Statement::Clock(text) => clock(alloc, rest, host, output, log, text),
        Statement::Simple(s) => simple(alloc, rest, host, output, log, s),
        _ => Ok((State::Rest(rest), Done::Settled(0))),
    }
}

// A statement outside a transaction that stands in its place and takes a number.
fn numbered<H: Host, K: Roomy<H> + Drop>(
    alloc: Global,
    rest: Opened<K>,
    host: &mut H,
    output: &mut Output,
    log: &mut Log,
    s: &Statement,
) -> Result<(State<K>, Done), EngineError>
    requires live { IsTrue (K.live rest.keeper) }
    requires fit { AreFit (resting_parts rest) }
    requires aligned { AreAligned (resting_parts rest) }
    requires text { HasText ode s.now }
    ensures serves { (w : ListWorld) → IsWell ode w → IsAtRest H.view K.holds K.live ode w rest host.old → place_of s.now false ≡ Ok tt → is_lone s.now ≡ false
        → Serves H.view K.holds K.live K.means ode (closed w) (answer_to ode (closed w) s.now) result host.old host.new output.old output.new }
    ensures logs { (w : ListWorld) (entries : Entries) → IsWell ode w → IsAtRest H.view K.holds K.live ode w rest host.old → place_of s.now false ≡ Ok tt → is_lone s.now ≡ false
        → DiskHas K.means entries (H.view host.old) → OnOk result (Logs K.means ode w entries (settlings (answer_to ode (closed w) s.now)) log.old log.new (H.view host.new)) }
    ensures grown { HasGrown log.old log.new }
    ensures usable { IfOk result (λ r. IsUsable K.live r.0) }
    ensures leaves { HostCalls (IsErrOf result EngineError.DiskFault) (IsErrOf result EngineError.WriteFault) (H.view host.old) (H.view host.new) }
{
    let (rest, number) = next_number(alloc, rest, host)?;
    if number >= NUMBER_LIMIT {
        return Ok((State::Rest(rest), Done::Refused(Refusal::NumbersSpent)));
    }
    carry_out(alloc, rest, host, output, log, s)
}

// A statement outside a transaction.
fn command_at_rest<H: Host, K: Roomy<H> + Drop>(
    alloc: Global,
    rest: Opened<K>,
    host: &mut H,
    output: &mut Output,
    log: &mut Log,
    s: &Statement,
) -> Result<(State<K>, Done), EngineError>
    requires live { IsTrue (K.live rest.keeper) }
    requires fit { AreFit (resting_parts rest) }
    requires aligned { AreAligned (resting_parts rest) }
    requires text { HasText ode s.now }
    ensures serves { (w : ListWorld) → IsWell ode w → IsAtRest H.view K.holds K.live ode w rest host.old
        → Serves H.view K.holds K.live K.means ode (closed w) (answer_to ode (closed w) s.now) result host.old host.new output.old output.new }
    ensures logs { (w : ListWorld) (entries : Entries) → IsWell ode w → IsAtRest H.view K.holds K.live ode w rest host.old
        → DiskHas K.means entries (H.view host.old) → OnOk result (Logs K.means ode w entries (settlings (answer_to ode (closed w) s.now)) log.old log.new (H.view host.new)) }
    ensures grown { HasGrown log.old log.new }
    ensures usable { IfOk result (λ r. IsUsable K.live r.0) }
    ensures leaves { HostCalls (IsErrOf result EngineError.DiskFault) (IsErrOf result EngineError.WriteFault) (H.view host.old) (H.view host.new) }
{
    if let Err(why) = place_of(s, false) {
        return Ok((State::Rest(rest), Done::Refused(why)));
    }
    if !takes_number(s) {
        return Ok((State::Rest(rest), Done::Settled(0)));
    }
    numbered(alloc, rest, host, output, log, s)
}

/// A statement, over what is there.
pub(crate) fn command_in<H: Host, K: Roomy<H> + Drop>(
    alloc: Global,
    state: State<K>,
    host: &mut H,
    output: &mut Output,
    log: &mut Log,
    s: &Statement,
) -> Result<(State<K>, Done), EngineError>
    requires usable { IsUsable K.live state }
    requires text { HasText ode s.now }
    ensures serves { (session : Session) → IsSession ode session → StandsIn H.view K.holds K.live ode session state host.old
        → Serves H.view K.holds K.live K.means ode session (answer_to ode session s.now) result host.old host.new output.old output.new }
    ensures logs { (session : Session) (entries : Entries) → IsSession ode session → StandsIn H.view K.holds K.live ode session state host.old
        → DiskHas K.means entries (H.view host.old) → OnOk result (Logs K.means ode session.world entries (settlings (answer_to ode session s.now)) log.old log.new (H.view host.new)) }
    ensures grown { HasGrown log.old log.new }
    ensures usable { IfOk result (λ r. IsUsable K.live r.0) }
    ensures leaves { HostCalls (IsErrOf result EngineError.DiskFault) (IsErrOf result EngineError.WriteFault) (H.view host.old) (H.view host.new) }
{
    match state {
        State::Rest(rest) => command_at_rest(alloc, rest, host, output, log, s),
        State::Running(ctx) => command_inside(alloc, ctx, host, output, log, s),
    }
}

/// The end of the input: an open transaction is aborted.
pub(crate) fn finish_in<H: Host, K: Roomy<H> + Drop>(
    alloc: Global,
    state: State<K>,
    host: &mut H,
    output: &mut Output,
    log: &mut Log,
) -> Result<(State<K>, Done), EngineError>
    requires usable { IsUsable K.live state }
    ensures serves { (session : Session) → IsSession ode session → StandsIn H.view K.holds K.live ode session state host.old
        → Serves H.view K.holds K.live K.means ode session (Ok (finish session)) result host.old host.new output.old output.new }
    ensures logs { (session : Session) (entries : Entries) → IsSession ode session → StandsIn H.view K.holds K.live ode session state host.old
        → DiskHas K.means entries (H.view host.old) → OnOk result (Logs K.means ode session.world entries (settlings (Ok (finish session))) log.old log.new (H.view host.new)) }
    ensures grown { HasGrown log.old log.new }
    ensures usable { IfOk result (λ r. IsUsable K.live r.0) }
    ensures leaves { HostCalls (IsErrOf result EngineError.DiskFault) (IsErrOf result EngineError.WriteFault) (H.view host.old) (H.view host.new) }
{
    match state {
        State::Rest(rest) => Ok((State::Rest(rest), Done::Settled(0))),
        State::Running(ctx) => abort(alloc, ctx, host, output, log, Reason::End),
    }
}
