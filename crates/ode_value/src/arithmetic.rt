//! Faults of expressions, and arithmetic on ints.
ghost use Rattle.std.specs.Prelude.{◌≡◌, IsTrue};
ghost use Rattle.ode_value.specs.Arithmetic.{int_result, is_arithmetic};

use crate::operator::BinOp;
use crate::value::Ref;

/// Why an expression has no value.
#[derive(Clone, Copy, Debug, PartialEq, Eq)]
pub enum Fault {
    /// An int outside 64 bits, or a text that is too long.
    Overflow,
    /// A zero divisor.
    DivideByZero,
    /// The object of this number isn't there. Null has number 0.
    NoObject(u64),
    /// The object is there, and this version of it isn't.
    NoVersion(Ref),
}

/// The result over all whole numbers, where it fits 64 bits: Overflow exactly where it doesn't, DivideByZero exactly at a zero
/// divisor. The operator is one of the five of arithmetic.
pub fn int_op(op: BinOp, a: i64, b: i64) -> Result<i64, Fault>
    requires { IsTrue (is_arithmetic op) }
    ensures { result ≡ int_result op a b }
{
    match op {
        BinOp::Add => a.checked_add(b).ok_or(Fault::Overflow),
        BinOp::Sub => a.checked_sub(b).ok_or(Fault::Overflow),
        BinOp::Mul => a.checked_mul(b).ok_or(Fault::Overflow),
        _ if b == 0 => Err(Fault::DivideByZero),
        BinOp::Div => a.checked_div(b).ok_or(Fault::Overflow),
        // the least int has no quotient by -1, but a remainder
        _ if b == -1 => Ok(0),
        _ => Ok(a % b),
    }
}
