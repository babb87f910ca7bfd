//! How statements and right sides end, where no call and no point follows.
ghost use Rattle.std.specs.Prelude.{◌≡◌, List as Items};
ghost use Rattle.ode_value.specs.Acts.{gives, go_on, prints};
ghost use Rattle.ode_value.specs.Changes.{lives};
ghost use Rattle.ode_value.specs.Executing.{Gives, Goes, goes};
ghost use Rattle.ode_value.specs.Expressions.{evaluates, stands};
ghost use Rattle.ode_value.specs.Making.{drops, removes};
ghost use Rattle.ode_value.specs.Pasts.{numbers};
ghost use Rattle.ode_value.specs.Statements.{switches_off_numbered, switches_on_named};
ghost use Rattle.ode_value.specs.Texts.{value_line};
ghost use Rattle.ode_value.specs.Worlds.{Declared};
ghost use Rattle.ode_interpreter.specs.Seen.{Ends, EndsBy, Leaves, flow_of, scene, with_classes};

use crate::acts::Acts;
use crate::scene::Scene;
use crate::schema::Schema;
use crate::stop::Stop;
use ode_value::{Expr, List, Name, Ref, Value};

/// A body ends with the value of an expression.
pub(crate) fn returned<S: Schema, T: Acts<S>>(
    schema: &S,
    tx: &mut T,
    on: &Scene,
    e: &Expr,
) -> Result<Option<Value>, Stop>
    ensures acts { (classes : Items Declared) (g : T.Known) → S.declares schema.now classes → T.knows tx.old schema.now g → EndsBy (flow_of (scene on.now)) result (with_classes classes (T.view tx.new g)) (go_on (evaluates e.now (scene on.now) (with_classes classes (T.view tx.old g))) (λ v. gives (Gives v))) }
    ensures kept { (g : T.Known) → T.knows tx.old schema.now g → Leaves result (T.knows tx.new schema.now g) (T.failed tx.new g) }
    ensures faults { (b : T.Base) → T.usable tx.old b → Leaves result (T.usable tx.new b) (T.ended tx.new b) }
{
    Ok(Some(tx.evaluate(schema, on, e)?))
}

/// The line of a value.
pub(crate) fn shown<S: Schema, T: Acts<S>>(
    schema: &S,
    tx: &mut T,
    on: &Scene,
    v: &Value,
) -> Result<Option<Value>, Stop>
    ensures acts { (classes : Items Declared) (g : T.Known) → S.declares schema.now classes → T.knows tx.old schema.now g → EndsBy (flow_of (scene on.now)) result (with_classes classes (T.view tx.new g)) (goes (prints (value_line v.now)) (scene on.now) (with_classes classes (T.view tx.old g))) }
    ensures kept { (g : T.Known) → T.knows tx.old schema.now g → Leaves result (T.knows tx.new schema.now g) (T.failed tx.new g) }
    ensures faults { (b : T.Base) → T.usable tx.old b → Leaves result (T.usable tx.new b) (T.ended tx.new b) }
{
    tx.show(schema, v)?;
    Ok(None)
}

/// An object is removed, if it is still there.
pub(crate) fn removed<S: Schema, T: Acts<S>>(
    schema: &S,
    tx: &mut T,
    on: &Scene,
    id: u64,
) -> Result<Option<Value>, Stop>
    ensures acts { (classes : Items Declared) (g : T.Known) → S.declares schema.now classes → T.knows tx.old schema.now g → EndsBy (flow_of (scene on.now)) result (with_classes classes (T.view tx.new g)) (go_on (go_on (lives id (with_classes classes (T.view tx.old g))) (λ _. removes id)) (λ _. gives (Goes (scene on.now)))) }
    ensures kept { (g : T.Known) → T.knows tx.old schema.now g → Leaves result (T.knows tx.new schema.now g) (T.failed tx.new g) }
    ensures faults { (b : T.Base) → T.usable tx.old b → Leaves result (T.usable tx.new b) (T.ended tx.new b) }
{
    tx.live(schema, id)?;
    tx.remove(schema, id)?;
    Ok(None)
}

/// A version is removed.
pub(crate) fn dropped<S: Schema, T: Acts<S>>(
    schema: &S,
    tx: &mut T,
    on: &Scene,
    r: Ref,
) -> Result<Option<Value>, Stop>
    ensures acts { (classes : Items Declared) (g : T.Known) → S.declares schema.now classes → T.knows tx.old schema.now g → EndsBy (flow_of (scene on.now)) result (with_classes classes (T.view tx.new g)) (goes (drops r) (scene on.now) (with_classes classes (T.view tx.old g))) }
    ensures kept { (g : T.Known) → T.knows tx.old schema.now g → Leaves result (T.knows tx.new schema.now g) (T.failed tx.new g) }
    ensures faults { (b : T.Base) → T.usable tx.old b → Leaves result (T.usable tx.new b) (T.ended tx.new b) }
{
    tx.drop_version(schema, r)?;
    Ok(None)
}

/// The activation of a number goes off.
pub(crate) fn switched_off<S: Schema, T: Acts<S>>(
    schema: &S,
    tx: &mut T,
    on: &Scene,
    r: Ref,
    number: &Value,
) -> Result<Option<Value>, Stop>
    ensures acts { (classes : Items Declared) (g : T.Known) → S.declares schema.now classes → T.knows tx.old schema.now g → EndsBy (flow_of (scene on.now)) result (with_classes classes (T.view tx.new g)) (go_on (go_on (stands r (with_classes classes (T.view tx.old g))) (λ _. switches_off_numbered (numbers (S.tables schema.now)) r number.now)) (λ _. gives (Goes (scene on.now)))) }
    ensures kept { (g : T.Known) → T.knows tx.old schema.now g → Leaves result (T.knows tx.new schema.now g) (T.failed tx.new g) }
    ensures faults { (b : T.Base) → T.usable tx.old b → Leaves result (T.usable tx.new b) (T.ended tx.new b) }
{
    tx.stand(schema, r)?;
    tx.deactivate(schema, r, number)?;
    Ok(None)
}

/// A new activation of the trigger of a name.
pub(crate) fn switched_on<S: Schema, T: Acts<S>>(
    schema: &S,
    tx: &mut T,
    r: Ref,
    trigger: &Name,
    args: List<Value>,
) -> Result<Value, Stop>
    ensures acts { (classes : Items Declared) (g : T.Known) → S.declares schema.now classes → T.knows tx.old schema.now g → Ends result (with_classes classes (T.view tx.new g)) (go_on (stands r (with_classes classes (T.view tx.old g))) (λ _. switches_on_named (numbers (S.tables schema.now)) r trigger.now args)) }
    ensures kept { (g : T.Known) → T.knows tx.old schema.now g → Leaves result (T.knows tx.new schema.now g) (T.failed tx.new g) }
    ensures faults { (b : T.Base) → T.usable tx.old b → Leaves result (T.usable tx.new b) (T.ended tx.new b) }
{
    tx.stand(schema, r)?;
    tx.activate(schema, r, trigger, args)
}
