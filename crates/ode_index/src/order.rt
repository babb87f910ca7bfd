//! The order of values.
ghost use Rattle.std.specs.Prelude.{◌≡◌};
ghost use Rattle.ode_index.specs.Order.{ref_cmp, sort_place, value_cmp, values_cmp, version_place};

use ode_value::{Ref, Value};
use std::cmp::Ordering;

fn version_place(version: Option<u32>) -> u64
    ensures { result ≡ version_place version }
{
    match version {
        None => 0,
        Some(number) => u64::from(number) + 1,
    }
}

fn ref_cmp(r: Ref, s: Ref) -> Ordering
    ensures { result ≡ ref_cmp r s }
{
    let objects = r.object.cmp(&s.object);
    objects.then(version_place(r.version).cmp(&version_place(s.version)))
}

fn sort_place(v: &Value) -> u8
    ensures { result ≡ sort_place v.now }
{
    match v {
        Value::Int(_) => 0,
        Value::Bool(_) => 1,
        Value::Text(_) => 2,
        Value::Reference(_) => 3,
    }
}

/// The order of two values: ints by size; false before true; texts by their bytes; references by object, then by version, where
/// none is first. It takes no memory.
#[tactic(auto, unfolding(crate::specs::Order::value_cmp))]
pub fn value_cmp(v: &Value, w: &Value) -> Ordering
    ensures { result ≡ value_cmp v.now w.now }
{
    match (v, w) {
        (Value::Int(m), Value::Int(n)) => m.cmp(n),
        (Value::Bool(b), Value::Bool(c)) => b.cmp(c),
        (Value::Text(s), Value::Text(t)) => s.as_bytes().cmp(t.as_bytes()),
        (Value::Reference(r), Value::Reference(s)) => ref_cmp(*r, *s),
        _ => sort_place(v).cmp(&sort_place(w)),
    }
}

/// The order of lists of values: that of the first two that differ, and else the shorter first. It takes no memory.
pub fn values_cmp(vs: &[Value], ws: &[Value]) -> Ordering
    ensures { result ≡ values_cmp vs.now ws.now }
{
    match vs {
        [] => match ws {
            [] => Ordering::Equal,
            _ => Ordering::Less,
        },
        [v, vs @ ..] => match ws {
            [] => Ordering::Greater,
            [w, ws @ ..] => match value_cmp(v, w) {
                Ordering::Equal => values_cmp(vs, ws),
                order => order,
            },
        },
    }
}
