//! Plain expressions, which follow no reference and call no method.
ghost use Rattle.std.specs.Prelude.{◌≡◌, ◌++◌};
ghost use Rattle.ode_symbols.specs.Alphabets.{truth_of};
ghost use Rattle.ode_symbols.specs.Reading.{result_of, side_of, value_of};
ghost use Rattle.ode_value.specs.Masks.{is_true, plain, value_at};
ghost use Rattle.ode_value.specs.Operators.{binary_value, unary_value};

use ode_expr::{binary, unary};
use ode_value::{BinOp, Expr, Fault, UnOp, Value};

// A value that stands in an expression or a slot, or one that was computed.
#[derive(Drop)]
enum Read<'a> {
    Seen(&'a Value),
    Made(Value),
}

fn value<'a>(read: &'a Read<'a>) -> &'a Value
    ensures { result.now ≡ value_of read.now }
{
    match read {
        Read::Seen(v) => *v,
        Read::Made(v) => v,
    }
}

fn value_at(values: &[Value], place: usize) -> Result<Read<'_>, Fault>
    ensures { result_of result ≡ value_at values.now place }
{
    if place < values.len() {
        Ok(Read::Seen(&values[place]))
    } else {
        Err(Fault::NoObject(0))
    }
}

fn local<'a>(params: &'a [Value], args: &'a [Value], place: usize) -> Result<Read<'a>, Fault>
    ensures { result_of result ≡ value_at (params.now ++ args.now) place }
{
    if place < params.len() {
        value_at(params, place)
    } else {
        value_at(args, place - params.len())
    }
}

fn of_one<'a>(op: UnOp, v: &Value) -> Result<Read<'a>, Fault>
    ensures { result_of result ≡ unary_value op v.now }
{
    Ok(Read::Made(unary(op, v)?))
}

fn of_two<'a>(op: BinOp, v: &Value, w: &Value) -> Result<Read<'a>, Fault>
    ensures { result_of result ≡ binary_value op v.now w.now }
{
    Ok(Read::Made(binary(op, v, w)?))
}

// The value of a plain expression, or its fault. The right side of `&&` and `||` is read only where it is needed.
#[cycle(evaluate)]
#[tactic(auto, using(ode_value::proofs::PlainLaws::plains))]
fn evaluate<'a>(
    e: &'a Expr,
    params: &'a [Value],
    args: &'a [Value],
    own: &'a [Value],
) -> Result<Read<'a>, Fault>
    ensures { result_of result ≡ plain e.now (record { locals = params.now ++ args.now; own = own.now }) }
{
    match e {
        Expr::Lit(v) => Ok(Read::Seen(v)),
        Expr::Local(place) => local(params, args, usize::from(*place)),
        Expr::Own(place) => value_at(own, usize::from(*place)),
        Expr::Unary(op, e) => {
            let v = evaluate(e.get(), params, args, own)?;
            of_one(*op, value(&v))
        }
        Expr::Binary(op, e, f) => {
            let v = evaluate(e.get(), params, args, own)?;
            evaluate_right(*op, value(&v), f.get(), params, args, own)
        }
        _ => Err(Fault::NoObject(0)),
    }
}

#[cycle(evaluate)]
fn evaluate_right<'a>(
    op: BinOp,
    v: &Value,
    f: &'a Expr,
    params: &'a [Value],
    args: &'a [Value],
    own: &'a [Value],
) -> Result<Read<'a>, Fault>
    ensures { result_of result ≡ side_of op v.now (plain f.now (record { locals = params.now ++ args.now; own = own.now })) }
{
    match op {
        BinOp::And => match v {
            Value::Bool(true) => evaluate(f, params, args, own),
            Value::Bool(false) => Ok(Read::Made(Value::Bool(false))),
            _ => Err(Fault::NoObject(0)),
        },
        BinOp::Or => match v {
            Value::Bool(true) => Ok(Read::Made(Value::Bool(true))),
            Value::Bool(false) => evaluate(f, params, args, own),
            _ => Err(Fault::NoObject(0)),
        },
        _ => {
            let w = evaluate(f, params, args, own)?;
            of_two(op, v, value(&w))
        }
    }
}

/// Whether a plain expression is true, or its fault, with these arguments of the trigger and of the event and these fields of
/// the object. An expression with a value of another sort isn't true.
pub fn test(e: &Expr, params: &[Value], args: &[Value], own: &[Value]) -> Result<bool, Fault>
    ensures { result ≡ truth_of (plain e.now (record { locals = params.now ++ args.now; own = own.now })) }
{
    let v = evaluate(e, params, args, own)?;
    match value(&v) {
        Value::Bool(b) => Ok(*b),
        _ => Ok(false),
    }
}

/// The same, where a fault isn't true.
pub fn is_true(e: &Expr, params: &[Value], args: &[Value], own: &[Value]) -> bool
    ensures { result ≡ is_true (plain e.now (record { locals = params.now ++ args.now; own = own.now })) }
{
    match test(e, params, args, own) {
        Ok(b) => b,
        Err(_) => false,
    }
}
