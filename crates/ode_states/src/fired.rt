//! Firings in their order.
ghost use Rattle.std.specs.Prelude.{◌≡◌, IfOk, OnOk};
ghost use Rattle.ode_states.specs.Advance.{comes_before, fired_of, placed};

use ode_types::Running;
use ode_value::{List, Value};
use std::alloc::{AllocError, Global};

/// An activation that fires at a point.
#[derive(Drop)]
pub struct Fired {
    pub activation: u64,
    /// The class that declares its trigger, and the trigger's place there.
    pub class: u32,
    pub trigger: u16,
    /// The arguments of the trigger.
    pub args: List<Value>,
}

/// The firing of an activation.
pub(crate) fn firing(alloc: Global, a: &Running) -> Result<Fired, AllocError>
    ensures { IfOk result (λ f. f ≡ fired_of a.now) }
{
    Ok(Fired {
        activation: a.id,
        class: a.class,
        trigger: a.trigger,
        args: a.args.copy(alloc)?,
    })
}

// Whether a firing comes before another one.
fn is_before(f: &Fired, g: &Fired) -> bool
    ensures { result ≡ comes_before f.now g.now }
{
    if f.class != g.class {
        return f.class < g.class;
    }
    if f.trigger != g.trigger {
        return f.trigger < g.trigger;
    }
    f.activation < g.activation
}

/// Puts a firing in its place.
pub(crate) fn place(fired: &mut List<Fired>, f: Fired) -> Result<(), AllocError>
    ensures { OnOk result (fired.new ≡ placed fired.old f) }
{
    let mut at = 0;
    while at < fired.len() {
        if is_before(&f, &fired.as_slice()[at]) {
            return fired.insert(at, f);
        }
        at += 1;
    }
    fired.push(f)
}
