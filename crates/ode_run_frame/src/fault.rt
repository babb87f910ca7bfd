//! Why a fault aborts a transaction.
ghost use Rattle.std.specs.Prelude.{◌≡◌};
ghost use Rattle.ode_value.specs.Evaluation.{reason_of};

use ode_value::{Fault, Reason};

/// The reason of the abort that a fault brings.
pub fn reason_of(fault: Fault) -> Reason
    ensures { result ≡ reason_of fault }
{
    match fault {
        Fault::Overflow => Reason::Overflow,
        Fault::DivideByZero => Reason::DivideByZero,
        Fault::NoObject(id) => Reason::NoObject(id),
        Fault::NoVersion(of) => Reason::NoVersion(of),
    }
}
