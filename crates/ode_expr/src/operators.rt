//! What operators make of values.
ghost use Rattle.std.specs.Prelude.{◌≡◌, ◌++◌, None, cond};
ghost use Rattle.std.specs.Cmp.Lexicographic.{slice_cmp};
ghost use Rattle.std.specs.Ordering.{int_cmp, nat_cmp};
ghost use Rattle.ode_value.specs.Arithmetic.{int_result, is_arithmetic};
ghost use Rattle.ode_value.specs.Evaluation.{combined, joined};
ghost use Rattle.ode_value.specs.Operators.{binary_value, compared, int_value, matched, misread, truth, unary_value};
ghost use Rattle.ode_expr.specs.Answers.{Answers, stopped_by};

use crate::stop::EvalStop;
use ode_value::limits::TEXT_LIMIT;
use ode_value::{BinOp, Fault, OdeText, UnOp, Value, int_op};
use std::alloc::Global;
use std::cmp::Ordering;

/// What has no meaning reads as null does.
pub fn misread() -> Result<Value, Fault>
    ensures { result ≡ misread }
{
    Err(Fault::NoObject(0))
}

fn truth(b: bool) -> Result<Value, Fault>
    ensures { result ≡ truth b }
{
    Ok(Value::Bool(b))
}

// The rows of a table of operators: for each operator what it answers, and for any other that it has no meaning.
macro_rules! table {
    ($op:expr; $($operator:ident => $answer:expr),*) => {
        match $op {
            $(BinOp::$operator => $answer,)*
            _ => misread(),
        }
    };
}

fn compared(op: BinOp, order: Ordering) -> Result<Value, Fault>
    ensures { result ≡ compared op order }
{
    table! {
        op;
        Eq => truth(order.is_eq()),
        Ne => truth(order.is_ne()),
        Lt => truth(order.is_lt()),
        Le => truth(order.is_le()),
        Gt => truth(order.is_gt()),
        Ge => truth(order.is_ge())
    }
}

fn matched(op: BinOp, same: bool) -> Result<Value, Fault>
    ensures { result ≡ matched op same }
{
    table! {
        op;
        Eq => truth(same),
        Ne => truth(!same)
    }
}

fn is_arithmetic(op: BinOp) -> bool
    ensures { result ≡ is_arithmetic op }
{
    matches!(
        op,
        BinOp::Add | BinOp::Sub | BinOp::Mul | BinOp::Div | BinOp::Rem
    )
}

fn of_ints(op: BinOp, m: i64, n: i64) -> Result<Value, Fault>
    ensures { result ≡ cond (is_arithmetic op) (int_value (int_result op m n)) (compared op (int_cmp m n)) }
{
    if is_arithmetic(op) {
        Ok(Value::Int(int_op(op, m, n)?))
    } else {
        compared(op, m.cmp(&n))
    }
}

fn of_texts(op: BinOp, s: &OdeText, t: &OdeText) -> Result<Value, Fault>
    ensures { result ≡ compared op (slice_cmp nat_cmp s.now t.now) }
{
    compared(op, s.as_bytes().cmp(t.as_bytes()))
}

fn minus(n: i64) -> Result<Value, Fault>
    ensures { result ≡ unary_value UnOp.Minus (Value.Int n) }
{
    Ok(Value::Int(int_op(BinOp::Sub, 0, n)?))
}

/// What an operator makes of one value. It takes no memory.
pub fn unary(op: UnOp, v: &Value) -> Result<Value, Fault>
    ensures { result ≡ unary_value op v.now }
{
    match op {
        UnOp::Minus => match v {
            Value::Int(n) => minus(*n),
            _ => misread(),
        },
        UnOp::Not => match v {
            Value::Bool(b) => truth(!*b),
            _ => misread(),
        },
    }
}

/// What an operator makes of two values of a plain expression, both evaluated. It takes no memory.
pub fn binary(op: BinOp, v: &Value, w: &Value) -> Result<Value, Fault>
    ensures { result ≡ binary_value op v.now w.now }
{
    match v {
        Value::Int(m) => match w {
            Value::Int(n) => of_ints(op, *m, *n),
            _ => misread(),
        },
        Value::Text(s) => match w {
            Value::Text(t) => of_texts(op, s, t),
            _ => misread(),
        },
        Value::Bool(_) => match w {
            Value::Bool(_) => matched(op, v.same(w)),
            _ => misread(),
        },
        Value::Reference(_) => match w {
            Value::Reference(_) => matched(op, v.same(w)),
            _ => misread(),
        },
    }
}

// Two texts in one, where it is short enough.
fn joined<S>(alloc: Global, s: &OdeText, t: &OdeText) -> Result<Value, EvalStop<S>>
    ensures value { Answers (joined (s.now ++ t.now)) result }
    ensures stopped { stopped_by result None ≡ None }
{
    let s = s.as_bytes();
    let t = t.as_bytes();
    if s.len() + t.len() > TEXT_LIMIT {
        return Err(EvalStop::Fault(Fault::Overflow));
    }
    let mut bytes = Vec::from_slice(alloc, s)?;
    bytes.extend_from_slice(t)?;
    match OdeText::new(alloc, bytes.as_slice()) {
        Ok(text) => Ok(Value::Text(text)),
        // few enough bytes of texts are a text's, so there is no memory
        Err(_) => Err(EvalStop::Memory),
    }
}

/// What an operator makes of two values, both evaluated. Texts are joined.
pub(crate) fn combined<S>(
    alloc: Global,
    op: BinOp,
    v: &Value,
    w: &Value,
) -> Result<Value, EvalStop<S>>
    ensures value { Answers (combined op v.now w.now) result }
    ensures stopped { stopped_by result None ≡ None }
{
    if let BinOp::Add = op
        && let Value::Text(s) = v
        && let Value::Text(t) = w
    {
        return joined(alloc, s, t);
    }
    Ok(binary(op, v, w)?)
}
