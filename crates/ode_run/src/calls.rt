//! Statements, calls and points of a context.
ghost use Rattle.std.specs.Prelude.{◌≡◌, IfOk, true};
ghost use Rattle.std.specs.Option.{IsSome};
ghost use Rattle.ode_interpreter.specs.Seen.{Ends};
ghost use Rattle.ode_keep.specs.Entries.{Entries};
ghost use Rattle.ode_laws.specs.Alike.{NumberWorld};
ghost use Rattle.ode_run.specs.Contexts.{ContextRuns, EndsWhere, IsContext, LeavesOpen, parts_of, tables_of, tx_of};
ghost use Rattle.ode_run.specs.Knowing.{deferred_as};
ghost use Rattle.ode_run.specs.Serving.{LeavesUsable};
ghost use Rattle.ode_schema.specs.Parts.{AreFit, trigger_under};
ghost use Rattle.ode_value.specs.Completing.{completes};
ghost use Rattle.ode_value.specs.Executing.{commands, first_actions, outermost};
ghost use Rattle.ode_value.specs.Language.{Language, ListTx, ListWorld};
ghost use Rattle.ode_value.specs.Pasts.{lists, numbers};
ghost use Rattle.ode_value.specs.Posting.{is_touched, posts, runs, touches};
ghost use Rattle.ode_value.specs.Statements.{calls_deeper};

use crate::context::Ctx;
use crate::running::{call_over, complete_over, exec_over, fire_now_over, post_over, touch_over};
use ode_host::Host;
use ode_interpreter::{Firing, Stop, Trigger};
use ode_keep::Keep;
use ode_laws::acts_run_alike;
use ode_schema::Program;
use ode_states::Fired;
use ode_value::{Kind, List, Name, Ref, Stmt, Value};
use std::alloc::{AllocError, Global};

// A firing that was kept for an object.
fn firing_of(alloc: Global, id: u64, f: &Fired) -> Result<Firing, AllocError>
    ensures { IfOk result (λ firing. firing ≡ record { object = id; activation = f.now.activation; trigger = record { class = f.now.class; place = f.now.trigger }; args = f.now.args }) }
{
    Ok(Firing {
        object: id,
        activation: f.activation,
        trigger: Trigger {
            class: f.class,
            place: f.trigger,
        },
        args: f.args.copy(alloc)?,
    })
}

/// A script's own statement.
pub fn exec<H: Host, K: Keep<H>>(
    alloc: Global,
    ctx: &mut Ctx<K>,
    host: &mut H,
    s: &Stmt,
) -> Result<(), Stop>
    requires fit { AreFit (parts_of ctx.old) }
    // Over state numbers it does what the machine does.
    ensures acts { (entries : Entries) (first : NumberWorld) → IsContext H.view K.holds K.live entries first ctx.old host.old
        → Ends result (tx_of first ctx.new) (commands (numbers (tables_of ctx.old)) s.now (tx_of first ctx.old)) }
    // So it does over lists of points.
    ensures runs { (l : Language) (w : ListWorld) (x : ListTx) → ContextRuns H.view K.holds K.live l w ctx.old host.old x
        → EndsWhere result (ContextRuns H.view K.holds K.live l w ctx.new host.new) (commands lists s.now x) }
    ensures leaves { (entries : Entries) (first : NumberWorld) → IsContext H.view K.holds K.live entries first ctx.old host.old
        → LeavesOpen result (IsContext H.view K.holds K.live entries first ctx.new host.new) (H.view host.old) (H.view host.new) }
    // So do the keeper and the host's faults, whatever the records are.
    ensures faults { K.live ctx.old.heap ≡ true → LeavesUsable result (K.live ctx.new.heap) (H.view host.old) (H.view host.new) }
    ensures same { (parts_of ctx.new ≡ parts_of ctx.old) × (ctx.new.depth ≡ ctx.old.depth) × (ctx.new.bytes ≡ ctx.old.bytes) }
{
    acts_run_alike();
    let program = Program::new(&ctx.classes, &ctx.tables, &ctx.alphabets, &ctx.maps);
    exec_over(
        alloc,
        &program,
        &mut ctx.heap,
        &mut ctx.overlay,
        &mut ctx.deferred,
        &mut ctx.text,
        &mut ctx.budget,
        ctx.bytes,
        host,
        s,
    )
}

/// A call of a method, of the version that a reference denotes.
pub fn call<H: Host, K: Keep<H>>(
    alloc: Global,
    ctx: &mut Ctx<K>,
    host: &mut H,
    of: Ref,
    method: &Name,
    args: List<Value>,
) -> Result<Value, Stop>
    requires fit { AreFit (parts_of ctx.old) }
    // Over state numbers it does what the machine does.
    ensures acts { (entries : Entries) (first : NumberWorld) → IsContext H.view K.holds K.live entries first ctx.old host.old
        → Ends result (tx_of first ctx.new) (calls_deeper (numbers (tables_of ctx.old)) (outermost (numbers (tables_of ctx.old))) of method.now args (tx_of first ctx.old)) }
    ensures leaves { (entries : Entries) (first : NumberWorld) → IsContext H.view K.holds K.live entries first ctx.old host.old
        → LeavesOpen result (IsContext H.view K.holds K.live entries first ctx.new host.new) (H.view host.old) (H.view host.new) }
    // So do the keeper and the host's faults, whatever the records are.
    ensures faults { K.live ctx.old.heap ≡ true → LeavesUsable result (K.live ctx.new.heap) (H.view host.old) (H.view host.new) }
    ensures same { (parts_of ctx.new ≡ parts_of ctx.old) × (ctx.new.depth ≡ ctx.old.depth) × (ctx.new.bytes ≡ ctx.old.bytes) }
{
    let program = Program::new(&ctx.classes, &ctx.tables, &ctx.alphabets, &ctx.maps);
    call_over(
        alloc,
        &program,
        &mut ctx.heap,
        &mut ctx.overlay,
        &mut ctx.deferred,
        &mut ctx.text,
        &mut ctx.budget,
        ctx.bytes,
        host,
        of,
        method,
        args,
    )
}

/// A touch of an object that is there.
pub fn touch<H: Host, K: Keep<H>>(
    alloc: Global,
    ctx: &mut Ctx<K>,
    host: &mut H,
    id: u64,
) -> Result<(), Stop>
    requires fit { AreFit (parts_of ctx.old) }
    // Over state numbers it does what the machine does.
    ensures acts { (entries : Entries) (first : NumberWorld) → IsContext H.view K.holds K.live entries first ctx.old host.old
        → Ends result (tx_of first ctx.new) (touches (numbers (tables_of ctx.old)) (first_actions (numbers (tables_of ctx.old))) id (tx_of first ctx.old)) }
    // So it does over lists of points.
    ensures runs { (l : Language) (w : ListWorld) (x : ListTx) → ContextRuns H.view K.holds K.live l w ctx.old host.old x
        → EndsWhere result (ContextRuns H.view K.holds K.live l w ctx.new host.new) (touches lists (first_actions lists) id x) }
    ensures leaves { (entries : Entries) (first : NumberWorld) → IsContext H.view K.holds K.live entries first ctx.old host.old
        → LeavesOpen result (IsContext H.view K.holds K.live entries first ctx.new host.new) (H.view host.old) (H.view host.new) }
    // So do the keeper and the host's faults, whatever the records are.
    ensures faults { K.live ctx.old.heap ≡ true → LeavesUsable result (K.live ctx.new.heap) (H.view host.old) (H.view host.new) }
    ensures same { (parts_of ctx.new ≡ parts_of ctx.old) × (ctx.new.depth ≡ ctx.old.depth) × (ctx.new.bytes ≡ ctx.old.bytes) }
{
    acts_run_alike();
    let program = Program::new(&ctx.classes, &ctx.tables, &ctx.alphabets, &ctx.maps);
    touch_over(
        alloc,
        &program,
        &mut ctx.heap,
        &mut ctx.overlay,
        &mut ctx.deferred,
        &mut ctx.text,
        &mut ctx.budget,
        ctx.bytes,
        host,
        id,
    )
}

/// A point of a touched object, where its kind is listed.
pub fn post<H: Host, K: Keep<H>>(
    alloc: Global,
    ctx: &mut Ctx<K>,
    host: &mut H,
    id: u64,
    kind: &Kind,
    args: &[Value],
) -> Result<(), Stop>
    requires fit { AreFit (parts_of ctx.old) }
    // Over state numbers it does what the machine does.
    ensures acts { (entries : Entries) (first : NumberWorld) → IsContext H.view K.holds K.live entries first ctx.old host.old
        → is_touched id (tx_of first ctx.old) ≡ true → Ends result (tx_of first ctx.new) (posts (numbers (tables_of ctx.old)) (first_actions (numbers (tables_of ctx.old))) id kind.now args.now (tx_of first ctx.old)) }
    // So it does over lists of points.
    ensures runs { (l : Language) (w : ListWorld) (x : ListTx) → ContextRuns H.view K.holds K.live l w ctx.old host.old x
        → is_touched id x ≡ true → EndsWhere result (ContextRuns H.view K.holds K.live l w ctx.new host.new) (posts lists (first_actions lists) id kind.now args.now x) }
    ensures leaves { (entries : Entries) (first : NumberWorld) → IsContext H.view K.holds K.live entries first ctx.old host.old
        → LeavesOpen result (IsContext H.view K.holds K.live entries first ctx.new host.new) (H.view host.old) (H.view host.new) }
    // So do the keeper and the host's faults, whatever the records are.
    ensures faults { K.live ctx.old.heap ≡ true → LeavesUsable result (K.live ctx.new.heap) (H.view host.old) (H.view host.new) }
    ensures same { (parts_of ctx.new ≡ parts_of ctx.old) × (ctx.new.depth ≡ ctx.old.depth) × (ctx.new.bytes ≡ ctx.old.bytes) }
{
    acts_run_alike();
    let program = Program::new(&ctx.classes, &ctx.tables, &ctx.alphabets, &ctx.maps);
    post_over(
        alloc,
        &program,
        &mut ctx.heap,
        &mut ctx.overlay,
        &mut ctx.deferred,
        &mut ctx.text,
        &mut ctx.budget,
        ctx.bytes,
        host,
        id,
        kind,
        args,
    )
}

/// A firing whose action runs now.
pub fn fire_now<H: Host, K: Keep<H>>(
    alloc: Global,
    ctx: &mut Ctx<K>,
    host: &mut H,
    id: u64,
    f: &Fired,
) -> Result<(), Stop>
    requires fit { AreFit (parts_of ctx.old) }
    requires declared { IsSome (trigger_under ctx.old.classes f.now.class f.now.trigger) }
    // Over state numbers it does what the machine does.
    ensures acts { (entries : Entries) (first : NumberWorld) → IsContext H.view K.holds K.live entries first ctx.old host.old
        → Ends result (tx_of first ctx.new) (runs (first_actions (numbers (tables_of ctx.old))) (deferred_as ctx.old.classes (id, f.now)) (tx_of first ctx.old)) }
    // So it does over lists of points.
    ensures runs { (l : Language) (w : ListWorld) (x : ListTx) → ContextRuns H.view K.holds K.live l w ctx.old host.old x
        → EndsWhere result (ContextRuns H.view K.holds K.live l w ctx.new host.new) (runs (first_actions lists) (deferred_as ctx.old.classes (id, f.now)) x) }
    ensures leaves { (entries : Entries) (first : NumberWorld) → IsContext H.view K.holds K.live entries first ctx.old host.old
        → LeavesOpen result (IsContext H.view K.holds K.live entries first ctx.new host.new) (H.view host.old) (H.view host.new) }
    // So do the keeper and the host's faults, whatever the records are.
    ensures faults { K.live ctx.old.heap ≡ true → LeavesUsable result (K.live ctx.new.heap) (H.view host.old) (H.view host.new) }
    ensures same { (parts_of ctx.new ≡ parts_of ctx.old) × (ctx.new.depth ≡ ctx.old.depth) × (ctx.new.bytes ≡ ctx.old.bytes) }
{
    acts_run_alike();
    let firing = firing_of(alloc, id, f)?;
    let program = Program::new(&ctx.classes, &ctx.tables, &ctx.alphabets, &ctx.maps);
    fire_now_over(
        alloc,
        &program,
        &mut ctx.heap,
        &mut ctx.overlay,
        &mut ctx.deferred,
        &mut ctx.text,
        &mut ctx.budget,
        ctx.bytes,
        host,
        &firing,
    )
}

/// The whole completion.
pub fn complete<H: Host, K: Keep<H>>(
    alloc: Global,
    ctx: &mut Ctx<K>,
    host: &mut H,
) -> Result<(), Stop>
    requires fit { AreFit (parts_of ctx.old) }
    // Over state numbers it does what the machine does.
    ensures acts { (entries : Entries) (first : NumberWorld) → IsContext H.view K.holds K.live entries first ctx.old host.old
        → Ends result (tx_of first ctx.new) (completes (numbers (tables_of ctx.old)) (tx_of first ctx.old)) }
    // So it does over lists of points.
    ensures runs { (l : Language) (w : ListWorld) (x : ListTx) → ContextRuns H.view K.holds K.live l w ctx.old host.old x
        → EndsWhere result (ContextRuns H.view K.holds K.live l w ctx.new host.new) (completes lists x) }
    ensures leaves { (entries : Entries) (first : NumberWorld) → IsContext H.view K.holds K.live entries first ctx.old host.old
        → LeavesOpen result (IsContext H.view K.holds K.live entries first ctx.new host.new) (H.view host.old) (H.view host.new) }
    // So do the keeper and the host's faults, whatever the records are.
    ensures faults { K.live ctx.old.heap ≡ true → LeavesUsable result (K.live ctx.new.heap) (H.view host.old) (H.view host.new) }
    ensures same { (parts_of ctx.new ≡ parts_of ctx.old) × (ctx.new.depth ≡ ctx.old.depth) × (ctx.new.bytes ≡ ctx.old.bytes) }
{
    acts_run_alike();
    let program = Program::new(&ctx.classes, &ctx.tables, &ctx.alphabets, &ctx.maps);
    complete_over(
        alloc,
        &program,
        &mut ctx.heap,
        &mut ctx.overlay,
        &mut ctx.deferred,
        &mut ctx.text,
        &mut ctx.budget,
        ctx.bytes,
        host,
    )
}
