//! How statements take their values from expressions.
ghost use Rattle.std.specs.Prelude.{◌≡◌, List as Items, IfErr, IfOk};
ghost use Rattle.std.specs.Option.{unwrap_or};
ghost use Rattle.ode_value.specs.Classes.{default_of};
ghost use Rattle.ode_value.specs.Executing.{sets};
ghost use Rattle.ode_value.specs.Expressions.{evaluates_all, holds, is_true, receiver, ref_in, reference, text_in};
ghost use Rattle.ode_value.specs.Worlds.{Declared};
ghost use Rattle.ode_interpreter.specs.Calling.{tells};
ghost use Rattle.ode_interpreter.specs.Seen.{Ends, EndsBy, Leaves, flow_of, scene, with_classes};

use crate::acts::Acts;
use crate::scene::{Scene, null, set_at};
use crate::schema::Schema;
use crate::stop::Stop;
use ode_value::{Expr, List, OdeText, Reason, Ref, Sort, Value, Var};
use std::alloc::{AllocError, Global};

fn is_true(v: &Value) -> bool
    ensures { result ≡ is_true v.now }
{
    matches!(v, Value::Bool(true))
}

/// Whether a test is true.
pub(crate) fn holds<S: Schema, T: Acts<S>>(
    schema: &S,
    tx: &mut T,
    on: &Scene,
    e: &Expr,
) -> Result<bool, Stop>
    ensures acts { (classes : Items Declared) (g : T.Known) → S.declares schema.now classes → T.knows tx.old schema.now g → Ends result (with_classes classes (T.view tx.new g)) (holds e.now (scene on.now) (with_classes classes (T.view tx.old g))) }
    ensures kept { (g : T.Known) → T.knows tx.old schema.now g → Leaves result (T.knows tx.new schema.now g) (T.failed tx.new g) }
    ensures faults { (b : T.Base) → T.usable tx.old b → Leaves result (T.usable tx.new b) (T.ended tx.new b) }
{
    let v = tx.evaluate(schema, on, e)?;
    Ok(is_true(&v))
}

/// The values of several, from left to right.
#[tactic(auto, using(crate::proofs::Values::goes_on, crate::proofs::Values::ends, crate::proofs::Values::is_done))]
pub(crate) fn evaluate_all<S: Schema, T: Acts<S>>(
    alloc: Global,
    schema: &S,
    tx: &mut T,
    on: &Scene,
    es: &[Expr],
) -> Result<List<Value>, Stop>
    ensures acts { (classes : Items Declared) (g : T.Known) → S.declares schema.now classes → T.knows tx.old schema.now g → Ends result (with_classes classes (T.view tx.new g)) (evaluates_all es.now (scene on.now) (with_classes classes (T.view tx.old g))) }
    ensures kept { (g : T.Known) → T.knows tx.old schema.now g → Leaves result (T.knows tx.new schema.now g) (T.failed tx.new g) }
    ensures faults { (b : T.Base) → T.usable tx.old b → Leaves result (T.usable tx.new b) (T.ended tx.new b) }
{
    let mut values = List::new(alloc);
    for e in es {
        values.push(tx.evaluate(schema, on, e)?)?;
    }
    Ok(values)
}

/// The reference that an expression gives; it denotes a version.
pub(crate) fn reference<S: Schema, T: Acts<S>>(
    schema: &S,
    tx: &mut T,
    on: &Scene,
    e: &Expr,
) -> Result<Ref, Stop>
    ensures acts { (classes : Items Declared) (g : T.Known) → S.declares schema.now classes → T.knows tx.old schema.now g → Ends result (with_classes classes (T.view tx.new g)) (reference e.now (scene on.now) (with_classes classes (T.view tx.old g))) }
    ensures kept { (g : T.Known) → T.knows tx.old schema.now g → Leaves result (T.knows tx.new schema.now g) (T.failed tx.new g) }
    ensures faults { (b : T.Base) → T.usable tx.old b → Leaves result (T.usable tx.new b) (T.ended tx.new b) }
{
    let v = tx.evaluate(schema, on, e)?;
    let Value::Reference(r) = v else {
        return Err(Stop::Abort(Reason::NoObject(0)));
    };
    tx.stand(schema, r)?;
    Ok(r)
}

/// The reference that a call is made by.
pub(crate) fn receiver<S: Schema, T: Acts<S>>(
    schema: &S,
    tx: &mut T,
    on: &Scene,
    of: &Option<Expr>,
) -> Result<Ref, Stop>
    ensures acts { (classes : Items Declared) (g : T.Known) → S.declares schema.now classes → T.knows tx.old schema.now g → Ends result (with_classes classes (T.view tx.new g)) (receiver of.now (scene on.now) (with_classes classes (T.view tx.old g))) }
    ensures kept { (g : T.Known) → T.knows tx.old schema.now g → Leaves result (T.knows tx.new schema.now g) (T.failed tx.new g) }
    ensures faults { (b : T.Base) → T.usable tx.old b → Leaves result (T.usable tx.new b) (T.ended tx.new b) }
{
    match of {
        Some(e) => reference(schema, tx, on, e),
        None => {
            tx.stand(schema, on.this)?;
            Ok(on.this)
        }
    }
}

/// The line of a text.
pub(crate) fn say<S: Schema, T: Acts<S>>(
    schema: &S,
    tx: &mut T,
    on: &Scene,
    e: &Expr,
) -> Result<Option<Value>, Stop>
    ensures acts { (classes : Items Declared) (g : T.Known) → S.declares schema.now classes → T.knows tx.old schema.now g → EndsBy (flow_of (scene on.now)) result (with_classes classes (T.view tx.new g)) (tells e.now (scene on.now) (with_classes classes (T.view tx.old g))) }
    ensures kept { (g : T.Known) → T.knows tx.old schema.now g → Leaves result (T.knows tx.new schema.now g) (T.failed tx.new g) }
    ensures faults { (b : T.Base) → T.usable tx.old b → Leaves result (T.usable tx.new b) (T.ended tx.new b) }
{
    let v = tx.evaluate(schema, on, e)?;
    tx.say(schema, &v)?;
    Ok(None)
}

/// What a `let` makes or a statement sets.
pub(crate) fn set<S: Schema, T: Acts<S>>(
    schema: &S,
    tx: &mut T,
    on: &mut Scene,
    var: &Var,
    v: Value,
) -> Result<Option<Value>, Stop>
    ensures acts { (classes : Items Declared) (g : T.Known) → S.declares schema.now classes → T.knows tx.old schema.now g → EndsBy (flow_of (scene on.new)) result (with_classes classes (T.view tx.new g)) (sets var.now v (scene on.old) (with_classes classes (T.view tx.old g))) }
    ensures kept { (g : T.Known) → T.knows tx.old schema.now g → Leaves result (T.knows tx.new schema.now g) (T.failed tx.new g) }
    ensures faults { (b : T.Base) → T.usable tx.old b → Leaves result (T.usable tx.new b) (T.ended tx.new b) }
{
    match var {
        Var::Local(place) => {
            set_at(&mut on.locals, *place, v)?;
            Ok(None)
        }
        Var::Own(place) => {
            tx.set_field(schema, on.this, *place, v)?;
            Ok(None)
        }
        Var::Name(_) => Ok(None),
    }
}

/// The value of a method that ends without `return`, and of a field that isn't set.
pub(crate) fn default_value(alloc: Global, sort: &Sort) -> Result<Value, AllocError>
    ensures { IfOk result (λ v. v ≡ default_of sort.now) }
{
    match sort {
        Sort::Int => Ok(Value::Int(0)),
        Sort::Bool => Ok(Value::Bool(false)),
        Sort::Text => match OdeText::new(alloc, &[]) {
            Ok(text) => Ok(Value::Text(text)),
            Err(_) => Err(AllocError),
        },
        Sort::Reference(_) | Sort::Void => Ok(null()),
    }
}

/// What a call gives: the value that its body returned, or its sort's default.
pub(crate) fn given(alloc: Global, v: Option<Value>, sort: &Sort) -> Result<Value, Stop>
    ensures is { IfOk result (λ answer. answer ≡ unwrap_or v (default_of sort.now)) }
    ensures short { IfErr result (λ why. why ≡ Stop.Memory) }
{
    match v {
        Some(v) => Ok(v),
        None => Ok(default_value(alloc, sort)?),
    }
}
