//! Statements, calls and points at the first level: those of a script, of the queue and of the clock.
ghost use Rattle.std.specs.Prelude.{◌≡◌, List as Items, true};
ghost use Rattle.ode_value.specs.Executing.{commands, first_actions, outermost};
ghost use Rattle.ode_value.specs.Pasts.{numbers};
ghost use Rattle.ode_value.specs.Posting.{is_touched, posts, runs, touches};
ghost use Rattle.ode_value.specs.Statements.{calls_deeper};
ghost use Rattle.ode_value.specs.Worlds.{Declared};
ghost use Rattle.ode_interpreter.specs.Seen.{Ends, Leaves, firing, with_classes};

use crate::acts::Acts;
use crate::firing::Firing;
use crate::scene::Scene;
use crate::schema::Schema;
use crate::statements;
use crate::stop::Stop;
use ode_value::limits::DEPTH_LIMIT;
use ode_value::{Kind, List, Name, Ref, Stmt, Value};
use std::alloc::Global;

/// A script's own statement.
#[tactic(auto, unfolding(ode_value::specs::Executing::outermost, ode_value::specs::Limits::depth_limit))]
pub fn execute<S: Schema, T: Acts<S>>(
    alloc: Global,
    schema: &S,
    tx: &mut T,
    s: &Stmt,
) -> Result<(), Stop>
    ensures acts { (classes : Items Declared) (g : T.Known) → S.declares schema.now classes → T.knows tx.old schema.now g → Ends result (with_classes classes (T.view tx.new g)) (commands (numbers (S.tables schema.now)) s.now (with_classes classes (T.view tx.old g))) }
    ensures kept { (g : T.Known) → T.knows tx.old schema.now g → Leaves result (T.knows tx.new schema.now g) (T.failed tx.new g) }
    ensures faults { (b : T.Base) → T.usable tx.old b → Leaves result (T.usable tx.new b) (T.ended tx.new b) }
{
    let mut on = Scene {
        this: Ref {
            object: 0,
            version: None,
        },
        locals: List::new(alloc),
    };
    statements::exec(alloc, schema, tx, &mut on, DEPTH_LIMIT, s)?;
    Ok(())
}

/// A call of a method, of the version that a reference denotes.
#[tactic(auto, unfolding(ode_value::specs::Executing::outermost, ode_value::specs::Limits::depth_limit))]
pub fn call<S: Schema, T: Acts<S>>(
    alloc: Global,
    schema: &S,
    tx: &mut T,
    of: Ref,
    method: &Name,
    args: List<Value>,
) -> Result<Value, Stop>
    ensures acts { (classes : Items Declared) (g : T.Known) → S.declares schema.now classes → T.knows tx.old schema.now g → Ends result (with_classes classes (T.view tx.new g)) (calls_deeper (numbers (S.tables schema.now)) (outermost (numbers (S.tables schema.now))) of method.now args (with_classes classes (T.view tx.old g))) }
    ensures kept { (g : T.Known) → T.knows tx.old schema.now g → Leaves result (T.knows tx.new schema.now g) (T.failed tx.new g) }
    ensures faults { (b : T.Base) → T.usable tx.old b → Leaves result (T.usable tx.new b) (T.ended tx.new b) }
{
    statements::call(alloc, schema, tx, DEPTH_LIMIT, of, method, &args)
}

/// A touch of an object that is there.
#[tactic(auto, unfolding(ode_value::specs::Executing::outermost, ode_value::specs::Limits::depth_limit))]
pub fn touch<S: Schema, T: Acts<S>>(
    alloc: Global,
    schema: &S,
    tx: &mut T,
    id: u64,
) -> Result<(), Stop>
    ensures acts { (classes : Items Declared) (g : T.Known) → S.declares schema.now classes → T.knows tx.old schema.now g → Ends result (with_classes classes (T.view tx.new g)) (touches (numbers (S.tables schema.now)) (first_actions (numbers (S.tables schema.now))) id (with_classes classes (T.view tx.old g))) }
    ensures kept { (g : T.Known) → T.knows tx.old schema.now g → Leaves result (T.knows tx.new schema.now g) (T.failed tx.new g) }
    ensures faults { (b : T.Base) → T.usable tx.old b → Leaves result (T.usable tx.new b) (T.ended tx.new b) }
{
    statements::touch(alloc, schema, tx, DEPTH_LIMIT, id)
}

/// A point of a touched object, where its kind is listed.
#[tactic(auto, unfolding(ode_value::specs::Executing::outermost, ode_value::specs::Limits::depth_limit))]
pub fn post<S: Schema, T: Acts<S>>(
    alloc: Global,
    schema: &S,
    tx: &mut T,
    id: u64,
    kind: &Kind,
    args: &[Value],
) -> Result<(), Stop>
    ensures acts { (classes : Items Declared) (g : T.Known) → S.declares schema.now classes → T.knows tx.old schema.now g → is_touched id (T.view tx.old g) ≡ true → Ends result (with_classes classes (T.view tx.new g)) (posts (numbers (S.tables schema.now)) (first_actions (numbers (S.tables schema.now))) id kind.now args.now (with_classes classes (T.view tx.old g))) }
    ensures kept { (g : T.Known) → T.knows tx.old schema.now g → Leaves result (T.knows tx.new schema.now g) (T.failed tx.new g) }
    ensures faults { (b : T.Base) → T.usable tx.old b → Leaves result (T.usable tx.new b) (T.ended tx.new b) }
{
    statements::post(alloc, schema, tx, DEPTH_LIMIT, id, kind, args)
}

/// A firing whose action runs now.
#[tactic(auto, unfolding(ode_value::specs::Executing::outermost, ode_value::specs::Limits::depth_limit))]
pub fn fire_now<S: Schema, T: Acts<S>>(
    alloc: Global,
    schema: &S,
    tx: &mut T,
    f: &Firing,
) -> Result<(), Stop>
    ensures acts { (classes : Items Declared) (g : T.Known) → S.declares schema.now classes → T.knows tx.old schema.now g → Ends result (with_classes classes (T.view tx.new g)) (runs (first_actions (numbers (S.tables schema.now))) (firing (S.trigger schema.now) f.now) (with_classes classes (T.view tx.old g))) }
    ensures kept { (g : T.Known) → T.knows tx.old schema.now g → Leaves result (T.knows tx.new schema.now g) (T.failed tx.new g) }
    ensures faults { (b : T.Base) → T.usable tx.old b → Leaves result (T.usable tx.new b) (T.ended tx.new b) }
{
    statements::act(alloc, schema, tx, DEPTH_LIMIT, f)
}
