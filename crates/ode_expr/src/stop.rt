//! Why an expression gives no value.
ghost use Rattle.std.specs.Prelude.{◌≡◌};

use ode_value::Fault;
use std::alloc::AllocError;

/// Why an expression gives no value. `S` is what a frame stops by on its own.
#[derive(Clone, Copy, Debug)]
pub enum EvalStop<S> {
    Memory,
    Fault(Fault),
    Frame(S),
}

impl<S> From<AllocError> for EvalStop<S> {
    ghost use Rattle.ode_expr.specs.declared.stop.EvalStop.TheVariants.{Memory};

    ghost from_gives = { λ _ e. e ≡ Memory };

    fn from(_: AllocError) -> EvalStop<S> {
        EvalStop::Memory
    }
}

impl<S> From<Fault> for EvalStop<S> {
    ghost use Rattle.ode_expr.specs.declared.stop.EvalStop.TheVariants.{Fault as AFault};

    ghost from_gives = { λ fault e. e ≡ AFault fault };

    fn from(fault: Fault) -> EvalStop<S> {
        EvalStop::Fault(fault)
    }
}
