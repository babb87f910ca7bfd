//! How calls and actions begin, up to the body that they run.
ghost use Rattle.std.specs.Prelude.{◌≡◌, ◌≤◌, ℕ, List as Items, IfErr, IfOk, None, cond};
ghost use denote.Param.Weighed.{most};
ghost use Rattle.ode_value.specs.declared.statement.Stmt.{Stmt as Statement};
ghost use Rattle.ode_value.specs.Acts.{finds, gives, go_on, prints};
ghost use Rattle.ode_value.specs.Changes.{class_of, lives};
ghost use Rattle.ode_value.specs.Classes.{method_named};
ghost use Rattle.ode_value.specs.Posting.{fired_text, frame_of};
ghost use Rattle.ode_value.specs.Worlds.{Declared};
ghost use Rattle.ode_interpreter.specs.Seen.{EndsBy, Leaves, firing, scene, with_classes};

use crate::acts::Acts;
use crate::firing::Firing;
use crate::scene::Scene;
use crate::schema::Schema;
use crate::stop::Stop;
use ode_value::{Kind, List, Method, Name, Reason, Ref, Value};
use std::alloc::Global;

// The nearest method of a name that an object which is there has.
pub(crate) fn method_of<'a, S: Schema, T: Acts<S>>(
    schema: &'a S,
    tx: &mut T,
    id: u64,
    name: &Name,
) -> Result<&'a Method, Stop>
    ensures acts { (classes : Items Declared) (g : T.Known) → S.declares schema.now classes → T.knows tx.old schema.now g → EndsBy (λ m. m.now) result (with_classes classes (T.view tx.new g)) (go_on (lives id (with_classes classes (T.view tx.old g))) (λ _ x. go_on (class_of id x) (λ class. finds (λ b. method_named b.classes class name.now)))) }
    ensures kept { (g : T.Known) → T.knows tx.old schema.now g → Leaves result (T.knows tx.new schema.now g) (T.failed tx.new g) }
    ensures faults { (b : T.Base) → T.usable tx.old b → Leaves result (T.usable tx.new b) (T.ended tx.new b) }
    ensures fits { (size : Statement → ℕ) → IfOk result (λ m. most size m.now.body ≤ S.longest schema.now size) }
{
    tx.live(schema, id)?;
    let class = tx.class_of(schema, id)?;
    match schema.method(class, name) {
        Some(method) => Ok(method),
        None => Err(Stop::Abort(Reason::NoObject(0))),
    }
}

// What a call's body runs on.
pub(crate) fn called(alloc: Global, r: Ref, args: &List<Value>) -> Result<Scene, Stop>
    ensures is { IfOk result (λ on. on ≡ record { this = r; locals = args.now }) }
    ensures short { IfErr result (λ why. why ≡ Stop.Memory) }
{
    Ok(Scene {
        this: r,
        locals: args.copy(alloc)?,
    })
}

// What an action runs on.
fn acting(alloc: Global, f: &Firing) -> Result<Scene, Stop>
    ensures is { IfOk result (λ on. on ≡ record { this = record { object = f.now.object; version = None }; locals = f.now.args }) }
    ensures short { IfErr result (λ why. why ≡ Stop.Memory) }
{
    let this = Ref {
        object: f.object,
        version: None,
    };
    called(alloc, this, &f.args)
}

// An action's line, and what it runs on, where its object is there.
pub(crate) fn begun<S: Schema, T: Acts<S>>(
    alloc: Global,
    schema: &S,
    tx: &mut T,
    f: &Firing,
) -> Result<Scene, Stop>
    ensures acts { (classes : Items Declared) (g : T.Known) → S.declares schema.now classes → T.knows tx.old schema.now g → EndsBy (scene) result (with_classes classes (T.view tx.new g)) (go_on (prints (fired_text (firing (S.trigger schema.now) f.now)) (with_classes classes (T.view tx.old g))) (λ _ x. go_on (lives f.now.object x) (λ _. gives (frame_of (firing (S.trigger schema.now) f.now))))) }
    ensures kept { (g : T.Known) → T.knows tx.old schema.now g → Leaves result (T.knows tx.new schema.now g) (T.failed tx.new g) }
    ensures faults { (b : T.Base) → T.usable tx.old b → Leaves result (T.usable tx.new b) (T.ended tx.new b) }
{
    tx.tell(schema, f)?;
    tx.live(schema, f.object)?;
    acting(alloc, f)
}

// The point before a call of a method, or the one after it.
pub(crate) fn around(alloc: Global, after: bool, name: &Name) -> Result<Kind, Stop>
    ensures is { IfOk result (λ kind. kind ≡ cond after (Kind.After name.now) (Kind.Before name.now)) }
    ensures short { IfErr result (λ why. why ≡ Stop.Memory) }
{
    let name = name.copy(alloc)?;
    if after {
        Ok(Kind::After(name))
    } else {
        Ok(Kind::Before(name))
    }
}
