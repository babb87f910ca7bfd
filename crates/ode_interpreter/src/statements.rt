//! Statements, calls and points.
ghost use Rattle.std.specs.Prelude.{◌≡◌, List as Items, cond, map, true};
ghost use Rattle.std.specs.List.{All};
ghost use Rattle.ode_value.specs.Acts.{each, gives, go_on};
ghost use Rattle.ode_value.specs.Executing.{Goes, actions_of, deeper, execute, executes, goes, in_turn, level, right};
ghost use Rattle.ode_value.specs.Expressions.{holds};
ghost use Rattle.ode_value.specs.Pasts.{numbers};
ghost use Rattle.ode_value.specs.Posting.{enters, is_touched, posts, runs, touches, treats};
ghost use Rattle.ode_value.specs.Statements.{activates, calls_behind, calls_deeper, calls_inside, copies, creates, deactivates, deletes, drops_version};
ghost use Rattle.ode_value.specs.Worlds.{Declared};
ghost use Rattle.ode_interpreter.specs.Calling.{binds, runs_method, shows};
ghost use Rattle.ode_interpreter.specs.Seen.{Ends, EndsBy, IsShort, Leaves, firing, flow_of, scene, with_classes};

use crate::acts::Acts;
use crate::beginnings::{around, begun, called, method_of};
use crate::creating::make_named;
use crate::ends::{dropped, removed, returned, shown, switched_off, switched_on};
use crate::expressions::{evaluate_all, given, holds, receiver, reference, say, set};
use crate::firing::Firing;
use crate::scene::{Scene, null};
use crate::schema::Schema;
use crate::stop::Stop;
use ode_value::{Expr, Kind, List, Method, Mode, Name, Reason, Ref, Rhs, Stmt, Value, Var};
use std::alloc::Global;

/// Statements in turn, up to the first that gives a value.
#[cycle(go)]
pub(crate) fn exec_all<S: Schema, T: Acts<S>>(
    alloc: Global,
    schema: &S,
    tx: &mut T,
    on: &mut Scene,
    levels: u8,
    body: &[Stmt],
) -> Result<Option<Value>, Stop>
    ensures acts { (classes : Items Declared) (g : T.Known) → S.declares schema.now classes → T.knows tx.old schema.now g → EndsBy (flow_of (scene on.new)) result (with_classes classes (T.view tx.new g)) (in_turn (map (execute (numbers (S.tables schema.now)) (deeper (numbers (S.tables schema.now)) levels)) body.now) (scene on.old) (with_classes classes (T.view tx.old g))) }
    ensures kept { (g : T.Known) → T.knows tx.old schema.now g → Leaves result (T.knows tx.new schema.now g) (T.failed tx.new g) }
    ensures faults { (b : T.Base) → T.usable tx.old b → Leaves result (T.usable tx.new b) (T.ended tx.new b) }
{
    for s in body {
        match exec(alloc, schema, tx, on, levels, s)? {
            Some(v) => return Ok(Some(v)),
            None => {}
        }
    }
    Ok(None)
}

/// A body.
#[cycle(go)]
#[tactic(auto, unfolding(ode_value::specs::Executing::executes))]
pub(crate) fn run_body<S: Schema, T: Acts<S>>(
    alloc: Global,
    schema: &S,
    tx: &mut T,
    on: Scene,
    levels: u8,
    body: &[Stmt],
) -> Result<Option<Value>, Stop>
    ensures acts { (classes : Items Declared) (g : T.Known) → S.declares schema.now classes → T.knows tx.old schema.now g → Ends result (with_classes classes (T.view tx.new g)) (executes (numbers (S.tables schema.now)) (deeper (numbers (S.tables schema.now)) levels) body.now (scene on) (with_classes classes (T.view tx.old g))) }
    ensures kept { (g : T.Known) → T.knows tx.old schema.now g → Leaves result (T.knows tx.new schema.now g) (T.failed tx.new g) }
    ensures faults { (b : T.Base) → T.usable tx.old b → Leaves result (T.usable tx.new b) (T.ended tx.new b) }
{
    let mut on = on;
    match exec_all(alloc, schema, tx, &mut on, levels, body)? {
        Some(v) => Ok(Some(v)),
        None => Ok(None),
    }
}

/// One statement: the value that it gives.
#[cycle(go)]
#[tactic(auto, unfolding(ode_value::specs::Executing::execute))]
pub(crate) fn exec<S: Schema, T: Acts<S>>(
    alloc: Global,
    schema: &S,
    tx: &mut T,
    on: &mut Scene,
    levels: u8,
    s: &Stmt,
) -> Result<Option<Value>, Stop>
    ensures acts { (classes : Items Declared) (g : T.Known) → S.declares schema.now classes → T.knows tx.old schema.now g → EndsBy (flow_of (scene on.new)) result (with_classes classes (T.view tx.new g)) (execute (numbers (S.tables schema.now)) (deeper (numbers (S.tables schema.now)) levels) s.now (scene on.old) (with_classes classes (T.view tx.old g))) }
    ensures kept { (g : T.Known) → T.knows tx.old schema.now g → Leaves result (T.knows tx.new schema.now g) (T.failed tx.new g) }
    ensures faults { (b : T.Base) → T.usable tx.old b → Leaves result (T.usable tx.new b) (T.ended tx.new b) }
{
    tx.count(schema)?;
    match s {
        Stmt::Let(var, rhs) | Stmt::Set(var, rhs) => bind(alloc, schema, tx, levels, on, var, rhs),
        Stmt::Do(rhs) => perform(alloc, schema, tx, levels, on, rhs),
        Stmt::If(test, first, second) => choose(alloc, schema, tx, on, levels, test, first, second),
        Stmt::Return(Some(e)) => returned(schema, tx, on, e),
        Stmt::Return(None) => Ok(Some(null())),
        Stmt::Delete(e) => delete(alloc, schema, tx, levels, on, e),
        Stmt::DropVersion(e) => drop_version(alloc, schema, tx, levels, on, e),
        Stmt::Deactivate(e, number) => deactivate(alloc, schema, tx, levels, on, e, number),
        Stmt::Show(rhs) => show(alloc, schema, tx, levels, on, rhs),
        Stmt::Say(e) => say(schema, tx, on, e),
        Stmt::TAbort => Err(Stop::Abort(Reason::Asked)),
    }
}

/// One of two bodies, by a test.
#[cycle(go)]
pub(crate) fn choose<S: Schema, T: Acts<S>>(
    alloc: Global,
    schema: &S,
    tx: &mut T,
    on: &mut Scene,
    levels: u8,
    test: &Expr,
    first: &List<Stmt>,
    second: &List<Stmt>,
) -> Result<Option<Value>, Stop>
    ensures acts { (classes : Items Declared) (g : T.Known) → S.declares schema.now classes → T.knows tx.old schema.now g → EndsBy (flow_of (scene on.new)) result (with_classes classes (T.view tx.new g)) (go_on (holds test.now (scene on.old) (with_classes classes (T.view tx.old g))) (λ b. cond b (in_turn (map (execute (numbers (S.tables schema.now)) (deeper (numbers (S.tables schema.now)) levels)) first.now) (scene on.old)) (in_turn (map (execute (numbers (S.tables schema.now)) (deeper (numbers (S.tables schema.now)) levels)) second.now) (scene on.old)))) }
    ensures kept { (g : T.Known) → T.knows tx.old schema.now g → Leaves result (T.knows tx.new schema.now g) (T.failed tx.new g) }
    ensures faults { (b : T.Base) → T.usable tx.old b → Leaves result (T.usable tx.new b) (T.ended tx.new b) }
{
    if holds(schema, tx, on, test)? {
        exec_all(alloc, schema, tx, on, levels, first.as_slice())
    } else {
        exec_all(alloc, schema, tx, on, levels, second.as_slice())
    }
}

/// A right side whose value isn't asked for.
#[cycle(go)]
pub(crate) fn perform<S: Schema, T: Acts<S>>(
    alloc: Global,
    schema: &S,
    tx: &mut T,
    levels: u8,
    on: &Scene,
    rhs: &Rhs,
) -> Result<Option<Value>, Stop>
    ensures acts { (classes : Items Declared) (g : T.Known) → S.declares schema.now classes → T.knows tx.old schema.now g → EndsBy (flow_of (scene on.now)) result (with_classes classes (T.view tx.new g)) (go_on (right (numbers (S.tables schema.now)) (deeper (numbers (S.tables schema.now)) levels) rhs.now (scene on.now) (with_classes classes (T.view tx.old g))) (λ _. gives (Goes (scene on.now)))) }
    ensures kept { (g : T.Known) → T.knows tx.old schema.now g → Leaves result (T.knows tx.new schema.now g) (T.failed tx.new g) }
    ensures faults { (b : T.Base) → T.usable tx.old b → Leaves result (T.usable tx.new b) (T.ended tx.new b) }
{
    right(alloc, schema, tx, levels, on, rhs)?;
    Ok(None)
}

/// What a `let` or a statement makes of a right side.
#[cycle(go)]
pub(crate) fn bind<S: Schema, T: Acts<S>>(
    alloc: Global,
    schema: &S,
    tx: &mut T,
    levels: u8,
    on: &mut Scene,
    var: &Var,
    rhs: &Rhs,
) -> Result<Option<Value>, Stop>
    ensures acts { (classes : Items Declared) (g : T.Known) → S.declares schema.now classes → T.knows tx.old schema.now g → EndsBy (flow_of (scene on.new)) result (with_classes classes (T.view tx.new g)) (binds (numbers (S.tables schema.now)) (deeper (numbers (S.tables schema.now)) levels) var.now rhs.now (scene on.old) (with_classes classes (T.view tx.old g))) }
    ensures kept { (g : T.Known) → T.knows tx.old schema.now g → Leaves result (T.knows tx.new schema.now g) (T.failed tx.new g) }
    ensures faults { (b : T.Base) → T.usable tx.old b → Leaves result (T.usable tx.new b) (T.ended tx.new b) }
{
    let v = right(alloc, schema, tx, levels, on, rhs)?;
    set(schema, tx, on, var, v)
}

/// The line of a right side's value.
#[cycle(go)]
pub(crate) fn show<S: Schema, T: Acts<S>>(
    alloc: Global,
    schema: &S,
    tx: &mut T,
    levels: u8,
    on: &Scene,
    rhs: &Rhs,
) -> Result<Option<Value>, Stop>
    ensures acts { (classes : Items Declared) (g : T.Known) → S.declares schema.now classes → T.knows tx.old schema.now g → EndsBy (flow_of (scene on.now)) result (with_classes classes (T.view tx.new g)) (shows (numbers (S.tables schema.now)) (deeper (numbers (S.tables schema.now)) levels) rhs.now (scene on.now) (with_classes classes (T.view tx.old g))) }
    ensures kept { (g : T.Known) → T.knows tx.old schema.now g → Leaves result (T.knows tx.new schema.now g) (T.failed tx.new g) }
    ensures faults { (b : T.Base) → T.usable tx.old b → Leaves result (T.usable tx.new b) (T.ended tx.new b) }
{
    let v = right(alloc, schema, tx, levels, on, rhs)?;
    shown(schema, tx, on, &v)
}

/// A right side.
#[cycle(go)]
#[tactic(auto, unfolding(ode_value::specs::Executing::right))]
pub(crate) fn right<S: Schema, T: Acts<S>>(
    alloc: Global,
    schema: &S,
    tx: &mut T,
    levels: u8,
    on: &Scene,
    rhs: &Rhs,
) -> Result<Value, Stop>
    ensures acts { (classes : Items Declared) (g : T.Known) → S.declares schema.now classes → T.knows tx.old schema.now g → Ends result (with_classes classes (T.view tx.new g)) (right (numbers (S.tables schema.now)) (deeper (numbers (S.tables schema.now)) levels) rhs.now (scene on.now) (with_classes classes (T.view tx.old g))) }
    ensures kept { (g : T.Known) → T.knows tx.old schema.now g → Leaves result (T.knows tx.new schema.now g) (T.failed tx.new g) }
    ensures faults { (b : T.Base) → T.usable tx.old b → Leaves result (T.usable tx.new b) (T.ended tx.new b) }
{
    match rhs {
        Rhs::Plain(e) => tx.evaluate(schema, on, e),
        Rhs::Call(c) => {
            let r = receiver(schema, tx, on, &c.of)?;
            let args = evaluate_all(alloc, schema, tx, on, c.args.as_slice())?;
            call(alloc, schema, tx, levels, r, &c.method, &args)
        }
        Rhs::New { class, fields } => create(
            alloc,
            schema,
            tx,
            levels,
            on,
            class,
            fields.as_slice(),
        ),
        Rhs::NewVersion(e) => new_version(alloc, schema, tx, levels, on, e),
        Rhs::Activate { of, trigger, args } => activate(
            alloc,
            schema,
            tx,
            levels,
            on,
            of,
            trigger,
            args.as_slice(),
        ),
    }
}

/// A new object.
#[cycle(go)]
#[tactic(auto, unfolding(ode_value::specs::Statements::creates))]
pub(crate) fn create<S: Schema, T: Acts<S>>(
    alloc: Global,
    schema: &S,
    tx: &mut T,
    levels: u8,
    on: &Scene,
    class: &Name,
    fields: &[(Name, Expr)],
) -> Result<Value, Stop>
    ensures acts { (classes : Items Declared) (g : T.Known) → S.declares schema.now classes → T.knows tx.old schema.now g → Ends result (with_classes classes (T.view tx.new g)) (creates (numbers (S.tables schema.now)) (actions_of (deeper (numbers (S.tables schema.now)) levels)) class.now fields.now (scene on.now) (with_classes classes (T.view tx.old g))) }
    ensures kept { (g : T.Known) → T.knows tx.old schema.now g → Leaves result (T.knows tx.new schema.now g) (T.failed tx.new g) }
    ensures faults { (b : T.Base) → T.usable tx.old b → Leaves result (T.usable tx.new b) (T.ended tx.new b) }
{
    let object = make_named(alloc, schema, tx, on, class, fields)?;
    let r = Ref {
        object,
        version: None,
    };
    tx.test_hard(schema, r)?;
    post(alloc, schema, tx, levels, object, &Kind::Create, &[])?;
    Ok(Value::Reference(r))
}

/// An object is removed.
#[cycle(go)]
#[tactic(auto, unfolding(ode_value::specs::Statements::deletes))]
pub(crate) fn delete<S: Schema, T: Acts<S>>(
    alloc: Global,
    schema: &S,
    tx: &mut T,
    levels: u8,
    on: &Scene,
    e: &Expr,
) -> Result<Option<Value>, Stop>
    ensures acts { (classes : Items Declared) (g : T.Known) → S.declares schema.now classes → T.knows tx.old schema.now g → EndsBy (flow_of (scene on.now)) result (with_classes classes (T.view tx.new g)) (goes (deletes (numbers (S.tables schema.now)) (actions_of (deeper (numbers (S.tables schema.now)) levels)) e.now (scene on.now)) (scene on.now) (with_classes classes (T.view tx.old g))) }
    ensures kept { (g : T.Known) → T.knows tx.old schema.now g → Leaves result (T.knows tx.new schema.now g) (T.failed tx.new g) }
    ensures faults { (b : T.Base) → T.usable tx.old b → Leaves result (T.usable tx.new b) (T.ended tx.new b) }
{
    let r = reference(schema, tx, on, e)?;
    touch(alloc, schema, tx, levels, r.object)?;
    tx.stand(schema, r)?;
    post(alloc, schema, tx, levels, r.object, &Kind::Delete, &[])?;
    removed(schema, tx, on, r.object)
}

/// A new version of an object.
#[cycle(go)]
#[tactic(auto, unfolding(ode_value::specs::Statements::copies))]
pub(crate) fn new_version<S: Schema, T: Acts<S>>(
    alloc: Global,
    schema: &S,
    tx: &mut T,
    levels: u8,
    on: &Scene,
    e: &Expr,
) -> Result<Value, Stop>
    ensures acts { (classes : Items Declared) (g : T.Known) → S.declares schema.now classes → T.knows tx.old schema.now g → Ends result (with_classes classes (T.view tx.new g)) (copies (numbers (S.tables schema.now)) (actions_of (deeper (numbers (S.tables schema.now)) levels)) e.now (scene on.now) (with_classes classes (T.view tx.old g))) }
    ensures kept { (g : T.Known) → T.knows tx.old schema.now g → Leaves result (T.knows tx.new schema.now g) (T.failed tx.new g) }
    ensures faults { (b : T.Base) → T.usable tx.old b → Leaves result (T.usable tx.new b) (T.ended tx.new b) }
{
    let r = reference(schema, tx, on, e)?;
    touch(alloc, schema, tx, levels, r.object)?;
    let made = tx.derive(schema, r)?;
    post(alloc, schema, tx, levels, r.object, &Kind::NewVersion, &[])?;
    Ok(Value::Reference(made))
}

/// A version is removed: the one that the reference denotes before the point.
#[cycle(go)]
#[tactic(auto, unfolding(ode_value::specs::Statements::drops_version))]
pub(crate) fn drop_version<S: Schema, T: Acts<S>>(
    alloc: Global,
    schema: &S,
    tx: &mut T,
    levels: u8,
    on: &Scene,
    e: &Expr,
) -> Result<Option<Value>, Stop>
    ensures acts { (classes : Items Declared) (g : T.Known) → S.declares schema.now classes → T.knows tx.old schema.now g → EndsBy (flow_of (scene on.now)) result (with_classes classes (T.view tx.new g)) (goes (drops_version (numbers (S.tables schema.now)) (actions_of (deeper (numbers (S.tables schema.now)) levels)) e.now (scene on.now)) (scene on.now) (with_classes classes (T.view tx.old g))) }
    ensures kept { (g : T.Known) → T.knows tx.old schema.now g → Leaves result (T.knows tx.new schema.now g) (T.failed tx.new g) }
    ensures faults { (b : T.Base) → T.usable tx.old b → Leaves result (T.usable tx.new b) (T.ended tx.new b) }
{
    let r = reference(schema, tx, on, e)?;
    touch(alloc, schema, tx, levels, r.object)?;
    let version = tx.spare(schema, r)?;
    post(alloc, schema, tx, levels, r.object, &Kind::DropVersion, &[])?;
    dropped(schema, tx, on, version)
}

/// A new activation.
#[cycle(go)]
pub(crate) fn activate<S: Schema, T: Acts<S>>(
    alloc: Global,
    schema: &S,
    tx: &mut T,
    levels: u8,
    on: &Scene,
    of: &Expr,
    trigger: &Name,
    args: &[Expr],
) -> Result<Value, Stop>
    ensures acts { (classes : Items Declared) (g : T.Known) → S.declares schema.now classes → T.knows tx.old schema.now g → Ends result (with_classes classes (T.view tx.new g)) (activates (numbers (S.tables schema.now)) (actions_of (deeper (numbers (S.tables schema.now)) levels)) of.now trigger.now args.now (scene on.now) (with_classes classes (T.view tx.old g))) }
    ensures kept { (g : T.Known) → T.knows tx.old schema.now g → Leaves result (T.knows tx.new schema.now g) (T.failed tx.new g) }
    ensures faults { (b : T.Base) → T.usable tx.old b → Leaves result (T.usable tx.new b) (T.ended tx.new b) }
{
    let r = reference(schema, tx, on, of)?;
    let args = evaluate_all(alloc, schema, tx, on, args)?;
    touch(alloc, schema, tx, levels, r.object)?;
    switched_on(schema, tx, r, trigger, args)
}

/// An activation goes off.
#[cycle(go)]
#[tactic(auto, unfolding(ode_value::specs::Statements::deactivates))]
pub(crate) fn deactivate<S: Schema, T: Acts<S>>(
    alloc: Global,
    schema: &S,
    tx: &mut T,
    levels: u8,
    on: &Scene,
    e: &Expr,
    number: &Expr,
) -> Result<Option<Value>, Stop>
    ensures acts { (classes : Items Declared) (g : T.Known) → S.declares schema.now classes → T.knows tx.old schema.now g → EndsBy (flow_of (scene on.now)) result (with_classes classes (T.view tx.new g)) (goes (deactivates (numbers (S.tables schema.now)) (actions_of (deeper (numbers (S.tables schema.now)) levels)) e.now number.now (scene on.now)) (scene on.now) (with_classes classes (T.view tx.old g))) }
    ensures kept { (g : T.Known) → T.knows tx.old schema.now g → Leaves result (T.knows tx.new schema.now g) (T.failed tx.new g) }
    ensures faults { (b : T.Base) → T.usable tx.old b → Leaves result (T.usable tx.new b) (T.ended tx.new b) }
{
    let r = reference(schema, tx, on, e)?;
    let v = tx.evaluate(schema, on, number)?;
    touch(alloc, schema, tx, levels, r.object)?;
    switched_off(schema, tx, on, r, &v)
}

/// A call.
#[cycle(go)]
#[tactic(auto, using(crate::proofs::Levels::calls_there), unfolding(ode_value::specs::Executing::deeper))]
pub(crate) fn call<S: Schema, T: Acts<S>>(
    alloc: Global,
    schema: &S,
    tx: &mut T,
    levels: u8,
    r: Ref,
    name: &Name,
    args: &List<Value>,
) -> Result<Value, Stop>
    ensures acts { (classes : Items Declared) (g : T.Known) → S.declares schema.now classes → T.knows tx.old schema.now g → Ends result (with_classes classes (T.view tx.new g)) (calls_deeper (numbers (S.tables schema.now)) (deeper (numbers (S.tables schema.now)) levels) r name.now args.now (with_classes classes (T.view tx.old g))) }
    ensures kept { (g : T.Known) → T.knows tx.old schema.now g → Leaves result (T.knows tx.new schema.now g) (T.failed tx.new g) }
    ensures faults { (b : T.Base) → T.usable tx.old b → Leaves result (T.usable tx.new b) (T.ended tx.new b) }
{
    if levels == 0 {
        return Err(Stop::Abort(Reason::Depth));
    }
    call_inside(alloc, schema, tx, levels - 1, r, name, args)
}

/// A call at its level.
#[cycle(go)]
#[tactic(auto, unfolding(ode_value::specs::Statements::calls_inside))]
pub(crate) fn call_inside<S: Schema, T: Acts<S>>(
    alloc: Global,
    schema: &S,
    tx: &mut T,
    levels: u8,
    r: Ref,
    name: &Name,
    args: &List<Value>,
) -> Result<Value, Stop>
    ensures acts { (classes : Items Declared) (g : T.Known) → S.declares schema.now classes → T.knows tx.old schema.now g → Ends result (with_classes classes (T.view tx.new g)) (calls_inside (numbers (S.tables schema.now)) (level (numbers (S.tables schema.now)) (deeper (numbers (S.tables schema.now)) levels)) r name.now args.now (with_classes classes (T.view tx.old g))) }
    ensures kept { (g : T.Known) → T.knows tx.old schema.now g → Leaves result (T.knows tx.new schema.now g) (T.failed tx.new g) }
    ensures faults { (b : T.Base) → T.usable tx.old b → Leaves result (T.usable tx.new b) (T.ended tx.new b) }
{
    touch(alloc, schema, tx, levels, r.object)?;
    tx.stand(schema, r)?;
    post_around(alloc, schema, tx, levels, r.object, false, name, args)?;
    let method = method_of(schema, tx, r.object, name)?;
    run_method(alloc, schema, tx, levels, r, method, name, args)
}

/// The body of a method, and what follows it; its object was touched.
#[cycle(go)]
pub(crate) fn run_method<S: Schema, T: Acts<S>>(
    alloc: Global,
    schema: &S,
    tx: &mut T,
    levels: u8,
    r: Ref,
    method: &Method,
    name: &Name,
    args: &List<Value>,
) -> Result<Value, Stop>
    ensures acts { (classes : Items Declared) (g : T.Known) → S.declares schema.now classes → T.knows tx.old schema.now g → is_touched r.object (T.view tx.old g) ≡ true → Ends result (with_classes classes (T.view tx.new g)) (runs_method (numbers (S.tables schema.now)) (level (numbers (S.tables schema.now)) (deeper (numbers (S.tables schema.now)) levels)) r name.now args.now method.now (with_classes classes (T.view tx.old g))) }
    ensures kept { (g : T.Known) → T.knows tx.old schema.now g → Leaves result (T.knows tx.new schema.now g) (T.failed tx.new g) }
    ensures faults { (b : T.Base) → T.usable tx.old b → Leaves result (T.usable tx.new b) (T.ended tx.new b) }
{
    let on = called(alloc, r, args)?;
    let v = run_body(alloc, schema, tx, on, levels, method.body.as_slice())?;
    call_after(alloc, schema, tx, levels, r, name, args)?;
    given(alloc, v, &method.result)
}

/// What follows the body of a call of a touched object.
#[cycle(go)]
#[tactic(auto, unfolding(ode_value::specs::Statements::calls_behind))]
pub(crate) fn call_after<S: Schema, T: Acts<S>>(
    alloc: Global,
    schema: &S,
    tx: &mut T,
    levels: u8,
    r: Ref,
    name: &Name,
    args: &List<Value>,
) -> Result<(), Stop>
    ensures acts { (classes : Items Declared) (g : T.Known) → S.declares schema.now classes → T.knows tx.old schema.now g → is_touched r.object (T.view tx.old g) ≡ true → Ends result (with_classes classes (T.view tx.new g)) (calls_behind (numbers (S.tables schema.now)) (actions_of (deeper (numbers (S.tables schema.now)) levels)) r name.now args.now (with_classes classes (T.view tx.old g))) }
    ensures kept { (g : T.Known) → T.knows tx.old schema.now g → Leaves result (T.knows tx.new schema.now g) (T.failed tx.new g) }
    ensures faults { (b : T.Base) → T.usable tx.old b → Leaves result (T.usable tx.new b) (T.ended tx.new b) }
{
    if !tx.denotes(schema, r)? {
        return Ok(());
    }
    tx.test_hard(schema, r)?;
    post_around(alloc, schema, tx, levels, r.object, true, name, args)
}

/// The point before a call, or the one after it.
#[cycle(go)]
pub(crate) fn post_around<S: Schema, T: Acts<S>>(
    alloc: Global,
    schema: &S,
    tx: &mut T,
    levels: u8,
    id: u64,
    after: bool,
    name: &Name,
    args: &List<Value>,
) -> Result<(), Stop>
    ensures acts { (classes : Items Declared) (g : T.Known) → S.declares schema.now classes → T.knows tx.old schema.now g → is_touched id (T.view tx.old g) ≡ true → Ends result (with_classes classes (T.view tx.new g)) (posts (numbers (S.tables schema.now)) (actions_of (deeper (numbers (S.tables schema.now)) levels)) id (cond after (Kind.After name.now) (Kind.Before name.now)) args.now (with_classes classes (T.view tx.old g))) }
    ensures kept { (g : T.Known) → T.knows tx.old schema.now g → Leaves result (T.knows tx.new schema.now g) (T.failed tx.new g) }
    ensures faults { (b : T.Base) → T.usable tx.old b → Leaves result (T.usable tx.new b) (T.ended tx.new b) }
{
    let kind = around(alloc, after, name)?;
    post(alloc, schema, tx, levels, id, &kind, args.as_slice())
}

/// An object is touched. The first touch posts a point.
#[cycle(go)]
#[tactic(auto, using(crate::proofs::Touches::not_touched))]
pub(crate) fn touch<S: Schema, T: Acts<S>>(
    alloc: Global,
    schema: &S,
    tx: &mut T,
    levels: u8,
    id: u64,
) -> Result<(), Stop>
    ensures acts { (classes : Items Declared) (g : T.Known) → S.declares schema.now classes → T.knows tx.old schema.now g → Ends result (with_classes classes (T.view tx.new g)) (touches (numbers (S.tables schema.now)) (actions_of (deeper (numbers (S.tables schema.now)) levels)) id (with_classes classes (T.view tx.old g))) }
    ensures kept { (g : T.Known) → T.knows tx.old schema.now g → Leaves result (T.knows tx.new schema.now g) (T.failed tx.new g) }
    ensures faults { (b : T.Base) → T.usable tx.old b → Leaves result (T.usable tx.new b) (T.ended tx.new b) }
{
    if tx.join(schema, id)? {
        return post(alloc, schema, tx, levels, id, &Kind::TBegin, &[]);
    }
    Ok(())
}

/// A point of a touched object is posted.
#[cycle(go)]
#[tactic(auto, unfolding(ode_value::specs::Posting::posts))]
pub(crate) fn post<S: Schema, T: Acts<S>>(
    alloc: Global,
    schema: &S,
    tx: &mut T,
    levels: u8,
    id: u64,
    kind: &Kind,
    args: &[Value],
) -> Result<(), Stop>
    ensures acts { (classes : Items Declared) (g : T.Known) → S.declares schema.now classes → T.knows tx.old schema.now g → is_touched id (T.view tx.old g) ≡ true → Ends result (with_classes classes (T.view tx.new g)) (posts (numbers (S.tables schema.now)) (actions_of (deeper (numbers (S.tables schema.now)) levels)) id kind.now args.now (with_classes classes (T.view tx.old g))) }
    ensures kept { (g : T.Known) → T.knows tx.old schema.now g → Leaves result (T.knows tx.new schema.now g) (T.failed tx.new g) }
    ensures faults { (b : T.Base) → T.usable tx.old b → Leaves result (T.usable tx.new b) (T.ended tx.new b) }
{
    if tx.is_listed(schema, id, kind)? {
        let firings = tx.arise(schema, id, kind, args)?;
        return fire_all(alloc, schema, tx, levels, firings.as_slice());
    }
    Ok(())
}

/// Firings in order.
#[cycle(go)]
pub(crate) fn fire_all<S: Schema, T: Acts<S>>(
    alloc: Global,
    schema: &S,
    tx: &mut T,
    levels: u8,
    firings: &[Firing],
) -> Result<(), Stop>
    requires { All IsShort firings.now }
    ensures acts { (classes : Items Declared) (g : T.Known) → S.declares schema.now classes → T.knows tx.old schema.now g → Ends result (with_classes classes (T.view tx.new g)) (each (treats (actions_of (deeper (numbers (S.tables schema.now)) levels))) (map (firing (S.trigger schema.now)) firings.now) (with_classes classes (T.view tx.old g))) }
    ensures kept { (g : T.Known) → T.knows tx.old schema.now g → Leaves result (T.knows tx.new schema.now g) (T.failed tx.new g) }
    ensures faults { (b : T.Base) → T.usable tx.old b → Leaves result (T.usable tx.new b) (T.ended tx.new b) }
{
    for f in firings {
        fire(alloc, schema, tx, levels, f)?;
    }
    Ok(())
}

/// A firing by its mode.
#[cycle(go)]
#[tactic(auto, unfolding(ode_value::specs::Posting::treats))]
pub(crate) fn fire<S: Schema, T: Acts<S>>(
    alloc: Global,
    schema: &S,
    tx: &mut T,
    levels: u8,
    f: &Firing,
) -> Result<(), Stop>
    requires { IsShort f.now }
    ensures acts { (classes : Items Declared) (g : T.Known) → S.declares schema.now classes → T.knows tx.old schema.now g → Ends result (with_classes classes (T.view tx.new g)) (treats (actions_of (deeper (numbers (S.tables schema.now)) levels)) (firing (S.trigger schema.now) f.now) (with_classes classes (T.view tx.old g))) }
    ensures kept { (g : T.Known) → T.knows tx.old schema.now g → Leaves result (T.knows tx.new schema.now g) (T.failed tx.new g) }
    ensures faults { (b : T.Base) → T.usable tx.old b → Leaves result (T.usable tx.new b) (T.ended tx.new b) }
{
    match schema.mode(f.trigger) {
        Mode::Immediate => act(alloc, schema, tx, levels, f),
        Mode::Deferred => tx.defer(schema, f),
        Mode::Dependent => tx.collect(schema, false, f),
        Mode::Independent => tx.collect(schema, true, f),
    }
}

/// An action.
#[cycle(go)]
#[tactic(auto, using(crate::proofs::Fronts::runs_is))]
pub(crate) fn act<S: Schema, T: Acts<S>>(
    alloc: Global,
    schema: &S,
    tx: &mut T,
    levels: u8,
    f: &Firing,
) -> Result<(), Stop>
    ensures acts { (classes : Items Declared) (g : T.Known) → S.declares schema.now classes → T.knows tx.old schema.now g → Ends result (with_classes classes (T.view tx.new g)) (runs (actions_of (deeper (numbers (S.tables schema.now)) levels)) (firing (S.trigger schema.now) f.now) (with_classes classes (T.view tx.old g))) }
    ensures kept { (g : T.Known) → T.knows tx.old schema.now g → Leaves result (T.knows tx.new schema.now g) (T.failed tx.new g) }
    ensures faults { (b : T.Base) → T.usable tx.old b → Leaves result (T.usable tx.new b) (T.ended tx.new b) }
{
    let on = begun(alloc, schema, tx, f)?;
    enter(alloc, schema, tx, levels, on, schema.action(f.trigger))?;
    Ok(())
}

/// A body one level deeper.
#[cycle(go)]
#[tactic(auto, using(crate::proofs::Levels::enters_there), unfolding(ode_value::specs::Executing::deeper))]
pub(crate) fn enter<S: Schema, T: Acts<S>>(
    alloc: Global,
    schema: &S,
    tx: &mut T,
    levels: u8,
    on: Scene,
    body: &[Stmt],
) -> Result<Option<Value>, Stop>
    ensures acts { (classes : Items Declared) (g : T.Known) → S.declares schema.now classes → T.knows tx.old schema.now g → Ends result (with_classes classes (T.view tx.new g)) (enters (actions_of (deeper (numbers (S.tables schema.now)) levels)) body.now (scene on) (with_classes classes (T.view tx.old g))) }
    ensures kept { (g : T.Known) → T.knows tx.old schema.now g → Leaves result (T.knows tx.new schema.now g) (T.failed tx.new g) }
    ensures faults { (b : T.Base) → T.usable tx.old b → Leaves result (T.usable tx.new b) (T.ended tx.new b) }
{
    if levels == 0 {
        return Err(Stop::Abort(Reason::Depth));
    }
    run_body(alloc, schema, tx, on, levels - 1, body)
}
