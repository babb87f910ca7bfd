//! Values, and references to objects and versions.
ghost use Rattle.std.specs.Prelude.{◌≡◌, ◌↔◌, IfOk, IsTrue};
ghost use Rattle.ode_value.specs.Same.{same_value, same_version};

use crate::list::Copied;
use crate::text::OdeText;
use std::alloc::{AllocError, Global};

/// A reference to an object, or to one version of it. Null has object 0 and no version.
#[derive(Clone, Copy, Debug, PartialEq, Eq)]
pub struct Ref {
    pub object: u64,
    pub version: Option<u32>,
}

/// A value of a field, a parameter or a local.
#[derive(Drop)]
pub enum Value {
    Int(i64),
    Bool(bool),
    Text(OdeText),
    Reference(Ref),
}

fn same_version(m: Option<u32>, n: Option<u32>) -> bool
    ensures { result ≡ same_version m n }
{
    match m {
        None => match n {
            None => true,
            Some(_) => false,
        },
        Some(m) => match n {
            None => false,
            Some(n) => m == n,
        },
    }
}

impl Value {
    /// Whether this is the other value.
    pub fn same(&self, other: &Value) -> bool
        ensures same { IsTrue result ↔ (self.now ≡ other.now) }
        ensures test { result ≡ same_value self.now other.now }
    {
        match self {
            Value::Int(m) => match other {
                Value::Int(n) => m == n,
                _ => false,
            },
            Value::Bool(b) => match other {
                Value::Bool(c) => b == c,
                _ => false,
            },
            Value::Text(s) => match other {
                Value::Text(t) => s.as_bytes() == t.as_bytes(),
                _ => false,
            },
            Value::Reference(r) => match other {
                Value::Reference(s) => r.object == s.object && same_version(r.version, s.version),
                _ => false,
            },
        }
    }

    /// The same value again.
    pub fn copy(&self, alloc: Global) -> Result<Value, AllocError>
        ensures { IfOk result (λ v. v ≡ self.now) }
    {
        match self {
            Value::Int(n) => Ok(Value::Int(*n)),
            Value::Bool(b) => Ok(Value::Bool(*b)),
            Value::Text(t) => Ok(Value::Text(t.copy(alloc)?)),
            Value::Reference(r) => Ok(Value::Reference(*r)),
        }
    }
}

impl Copied for Value {
    fn copy_in(&self, alloc: Global) -> Result<Value, AllocError> {
        self.copy(alloc)
    }
}
