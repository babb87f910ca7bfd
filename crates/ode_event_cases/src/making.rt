//! Kinds of points, values, and the condition on an event's numbers.
ghost use Rattle.std.specs.Prelude.{◌≡◌};
ghost use Rattle.ode_value.specs.Numbers.{has_numbers};

use ode_value::{EventExpr, Kind, List, Name, OdeText, TextError, Value};
use std::alloc::{AllocError, Global};

/// The point after a call of the method with this name.
pub fn after(alloc: Global, name: &[u8]) -> Result<Kind, AllocError> {
    match OdeText::new(alloc, name) {
        Ok(text) => Ok(Name::new(text).map_or(Kind::Create, Kind::After)),
        Err(TextError::Memory) => Err(AllocError),
        Err(_) => Ok(Kind::Create),
    }
}

fn value_of(word: &str) -> Value {
    match word {
        "true" => Value::Bool(true),
        "false" => Value::Bool(false),
        _ => Value::Int(word.parse::<i64>().unwrap_or(0)),
    }
}

/// Numbers, and `true` and `false`.
pub fn values_of(alloc: Global, words: &str) -> Result<List<Value>, AllocError> {
    let mut values = List::new(alloc);
    for word in words.split_whitespace() {
        values.push(value_of(word))?;
    }
    Ok(values)
}

/// Whether each number of a `choose` or an `every` is from 1 to 65,535.
#[tactic(auto, using(ode_value::proofs::LeafLaws::forms))]
pub fn keeps_numbers(e: &EventExpr) -> bool
    ensures { result ≡ has_numbers e.now }
{
    match e {
        EventExpr::Leaf(_, _) | EventExpr::Any | EventExpr::First => true,
        EventExpr::Not(e) | EventExpr::RelPlus(e) | EventExpr::Masked(e, _) => {
            keeps_numbers(e.get())
        }
        EventExpr::And(e, f)
        | EventExpr::Or(e, f)
        | EventExpr::Relative(e, f)
        | EventExpr::Prior(e, f)
        | EventExpr::Sequence(e, f)
        | EventExpr::Pipe(e, f) => keeps_numbers(e.get()) && keeps_numbers(f.get()),
        EventExpr::Choose(n, e) | EventExpr::Every(n, e) => {
            1 <= *n && *n <= 65535 && keeps_numbers(e.get())
        }
        EventExpr::Fa(e, f, g) | EventExpr::FaAbs(e, f, g) => {
            keeps_numbers(e.get()) && keeps_numbers(f.get()) && keeps_numbers(g.get())
        }
    }
}
