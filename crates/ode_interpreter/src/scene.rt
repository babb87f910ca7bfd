//! What a body runs on.
ghost use Rattle.std.specs.Prelude.{◌≡◌, ◌≤◌, length, OnOk};
ghost use Rattle.ode_value.specs.Classes.{null};
ghost use Rattle.ode_value.specs.Evaluation.{set_at};

use ode_value::{List, Ref, Value};
use std::alloc::AllocError;

/// What a body runs on: the reference that it was called by, and its parameters and locals.
#[derive(Drop)]
pub struct Scene {
    pub this: Ref,
    pub locals: List<Value>,
}

/// Null.
pub(crate) fn null() -> Value
    ensures { result ≡ null }
{
    Value::Reference(Ref {
        object: 0,
        version: None,
    })
}

/// A local is set; places before it that aren't there yet are null.
#[tactic(auto, using(crate::proofs::Locals::set_inside, crate::proofs::Locals::one_more, crate::proofs::Locals::stays, crate::proofs::Locals::set_at_end))]
pub(crate) fn set_at(locals: &mut List<Value>, place: u16, v: Value) -> Result<(), AllocError>
    ensures { OnOk result (locals.new ≡ set_at place v locals.old) }
{
    let place = usize::from(place);
    if place < locals.len() {
        locals.set(place, v);
        return Ok(());
    }
    'missing: for _ in locals.len()..place {
        locals.push(null())?;
    }
    locals.push(v)?;
    Ok(())
}
