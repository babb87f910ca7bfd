//! Expressions, evaluated from left to right.
ghost use Rattle.std.specs.Prelude.{◌≡◌, ◌++◌, [], ◌∷◌, None, Ok};
ghost use Rattle.ode_value.specs.Evaluation.{at_ref, evaluate, field_of, looks_in, object_in, right_looks, version_reference};
ghost use Rattle.ode_value.specs.Masks.{value_at};
ghost use Rattle.ode_value.specs.Operators.{unary_value};
ghost use Rattle.ode_expr.specs.Answers.{Answers, LookedAs, side_of, stopped_by};

use crate::frame::Frame;
use crate::operators::{combined, unary};
use crate::stop::EvalStop;
use ode_value::{BinOp, Expr, Fault, Ref, UnOp, Value};
use std::alloc::Global;

fn misread<S>() -> Result<Value, EvalStop<S>>
    ensures { result ≡ Err (EvalStop.Fault (Fault.NoObject 0)) }
{
    Err(EvalStop::Fault(Fault::NoObject(0)))
}

fn local<F: Frame>(alloc: Global, slot: u16, frame: &F) -> Result<Value, EvalStop<F::Stop>>
    ensures value { Answers (value_at (F.scene frame.now).locals slot) result }
    ensures stopped { stopped_by result None ≡ None }
{
    match frame.local(slot) {
        Some(v) => Ok(v.copy(alloc)?),
        None => misread(),
    }
}

#[tactic(auto, using(crate::proofs::EvaluationLaws::looks_nothing))]
fn field<F: Frame>(of: &Value, slot: u16, frame: &mut F) -> Result<Value, EvalStop<F::Stop>>
    ensures value { (k : F.Known) → F.shows frame.old k → Answers (at_ref (field_of (F.bones k) slot) of.now) result }
    ensures stopped { F.stopped frame.new ≡ stopped_by result (F.stopped frame.old) }
    ensures shows { (k : F.Known) → F.shows frame.old k → F.shows frame.new k }
    ensures follows { (b : F.Base) → F.follows frame.old b → F.follows frame.new b }
    ensures looks { LookedAs result (F.looked frame.new) (F.looked frame.old ++ object_in (Ok of.now)) }
    ensures scene { F.scene frame.new ≡ F.scene frame.old }
{
    match of {
        Value::Reference(of) => frame.read_field(*of, slot),
        _ => misread(),
    }
}

fn current<F: Frame>(of: Ref, frame: &mut F) -> Result<Value, EvalStop<F::Stop>>
    ensures value { (k : F.Known) → F.shows frame.old k → Answers (version_reference (F.bones k) of) result }
    ensures stopped { F.stopped frame.new ≡ stopped_by result (F.stopped frame.old) }
    ensures shows { (k : F.Known) → F.shows frame.old k → F.shows frame.new k }
    ensures follows { (b : F.Base) → F.follows frame.old b → F.follows frame.new b }
    ensures looks { LookedAs result (F.looked frame.new) (F.looked frame.old ++ of.object ∷ []) }
    ensures scene { F.scene frame.new ≡ F.scene frame.old }
{
    match frame.current(of) {
        Ok(number) => Ok(Value::Reference(Ref {
            object: of.object,
            version: Some(number),
        })),
        Err(stop) => Err(stop),
    }
}

#[tactic(auto, using(crate::proofs::EvaluationLaws::looks_nothing))]
fn version<F: Frame>(of: &Value, frame: &mut F) -> Result<Value, EvalStop<F::Stop>>
    ensures value { (k : F.Known) → F.shows frame.old k → Answers (at_ref (version_reference (F.bones k)) of.now) result }
    ensures stopped { F.stopped frame.new ≡ stopped_by result (F.stopped frame.old) }
    ensures shows { (k : F.Known) → F.shows frame.old k → F.shows frame.new k }
    ensures follows { (b : F.Base) → F.follows frame.old b → F.follows frame.new b }
    ensures looks { LookedAs result (F.looked frame.new) (F.looked frame.old ++ object_in (Ok of.now)) }
    ensures scene { F.scene frame.new ≡ F.scene frame.old }
{
    match of {
        Value::Reference(of) => current(*of, frame),
        _ => misread(),
    }
}

fn of_one<S>(op: UnOp, v: &Value) -> Result<Value, EvalStop<S>>
    ensures value { Answers (unary_value op v.now) result }
    ensures stopped { stopped_by result None ≡ None }
{
    Ok(unary(op, v)?)
}

/// The value that an expression comes to, or why there is none: its fault, or what stopped the frame. The frame shows the same
/// worlds behind it.
#[cycle(eval)]
#[tactic(auto, using(crate::proofs::EvaluationLaws::evaluations, crate::proofs::EvaluationLaws::looked_parts, crate::proofs::EvaluationLaws::stops_through, crate::proofs::EvaluationLaws::none_behind, crate::proofs::EvaluationLaws::looks_nothing, crate::proofs::EvaluationLaws::looks_behind, crate::proofs::EvaluationLaws::object_stops, crate::proofs::EvaluationLaws::right_stops))]
pub fn eval<F: Frame>(alloc: Global, e: &Expr, frame: &mut F) -> Result<Value, EvalStop<F::Stop>>
    requires { F.stopped frame.old ≡ None }
    ensures value { (k : F.Known) → F.shows frame.old k → Answers (evaluate e.now (F.bones k) (F.scene frame.old)) result }
    ensures stopped { F.stopped frame.new ≡ stopped_by result None }
    ensures shows { (k : F.Known) → F.shows frame.old k → F.shows frame.new k }
    ensures follows { (b : F.Base) → F.follows frame.old b → F.follows frame.new b }
    ensures looks { (k : F.Known) → F.shows frame.old k → LookedAs result (F.looked frame.new) (F.looked frame.old ++ looks_in e.now (F.bones k) (F.scene frame.old)) }
    ensures scene { F.scene frame.new ≡ F.scene frame.old }
{
    match e {
        Expr::Lit(v) => Ok(v.copy(alloc)?),
        Expr::Local(slot) => local(alloc, *slot, frame),
        Expr::Own(slot) => {
            let this = frame.this();
            frame.read_field(this, *slot)
        }
        Expr::This => Ok(Value::Reference(frame.this())),
        Expr::Slot(e, slot) => {
            let of = eval(alloc, e.get(), frame)?;
            field(&of, *slot, frame)
        }
        Expr::Version(e) => {
            let of = eval(alloc, e.get(), frame)?;
            version(&of, frame)
        }
        Expr::Unary(op, e) => {
            let v = eval(alloc, e.get(), frame)?;
            of_one(*op, &v)
        }
        Expr::Binary(op, e, f) => {
            let v = eval(alloc, e.get(), frame)?;
            eval_right(alloc, *op, &v, f.get(), frame)
        }
        _ => misread(),
    }
}

// The right side of an operator, and what the operator makes of both. It is evaluated only where it is needed.
#[cycle(eval)]
#[tactic(auto, using(crate::proofs::EvaluationLaws::stops_through, crate::proofs::EvaluationLaws::looks_nothing))]
fn eval_right<F: Frame>(
    alloc: Global,
    op: BinOp,
    v: &Value,
    f: &Expr,
    frame: &mut F,
) -> Result<Value, EvalStop<F::Stop>>
    requires { F.stopped frame.old ≡ None }
    ensures value { (k : F.Known) → F.shows frame.old k → Answers (side_of op v.now (evaluate f.now (F.bones k) (F.scene frame.old))) result }
    ensures stopped { F.stopped frame.new ≡ stopped_by result None }
    ensures shows { (k : F.Known) → F.shows frame.old k → F.shows frame.new k }
    ensures follows { (b : F.Base) → F.follows frame.old b → F.follows frame.new b }
    ensures looks { (k : F.Known) → F.shows frame.old k → LookedAs result (F.looked frame.new) (F.looked frame.old ++ right_looks op (Ok v.now) (looks_in f.now (F.bones k) (F.scene frame.old))) }
    ensures scene { F.scene frame.new ≡ F.scene frame.old }
{
    match op {
        BinOp::And => match v {
            Value::Bool(true) => eval(alloc, f, frame),
            Value::Bool(false) => Ok(Value::Bool(false)),
            _ => misread(),
        },
        BinOp::Or => match v {
            Value::Bool(true) => Ok(Value::Bool(true)),
            Value::Bool(false) => eval(alloc, f, frame),
            _ => misread(),
        },
        _ => {
            let w = eval(alloc, f, frame)?;
            combined(alloc, op, v, &w)
        }
    }
}
