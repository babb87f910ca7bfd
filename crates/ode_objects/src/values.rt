//! Values that a record has room for.
ghost use Rattle.std.specs.Prelude.{◌≡◌, cond, true, Some, None, IfOk};
ghost use Rattle.ode_objects.specs.Values.{are_args, are_fields};

use crate::lengths::version_head;
use ode_codec::values_fit;
use ode_value::limits::{ARGS_LIMIT, VALUE_LIMIT};
use ode_value::{List, Value};
use std::alloc::{AllocError, Global};
use std::marker::Model;

#[tactic(auto, using(crate::proofs::Kept::room_behind), unfolding(crate::specs::Values::are_fields, ode_value::specs::Limits::value_limit))]
fn are_fields(stamp: u32, values: &[Value]) -> bool
    ensures { result ≡ are_fields stamp values.now }
{
    values_fit(values, VALUE_LIMIT - version_head(stamp))
}

#[tactic(auto, unfolding(crate::specs::Values::are_args, ode_value::specs::Limits::args_limit))]
fn are_args(values: &[Value]) -> bool
    ensures { result ≡ are_args values.now }
{
    values_fit(values, ARGS_LIMIT)
}

/// All fields of a version, with its stamp, that a record has room for. Contracts see both.
#[derive(Drop)]
pub struct KeptFields {
    stamp: u32,
    values: List<Value>,
}

impl Model for KeptFields {
    ghost use Rattle.std.specs.Prelude.{◌≡◌, ℕ, true};
    ghost use Rattle.ode_objects.specs.Values.{are_fields};
    ghost use Rattle.std.specs.Prelude.{List as Items};
    ghost use Rattle.ode_value.specs.declared.value.Value.{Value as Plain};
    ghost use Rattle.ode_value.specs.contracts.value.Value as value;
    ghost use Rattle.std.specs.Coded.{coded_list, coded_ℕ, coded×};

    ghost Value = { ℕ × Items Plain };

    ghost coded = { coded× coded_ℕ (coded_list value.the_row.coded) };

    ghost view = { λ s. (s.stamp, s.values) };

    ghost invariant = { λ s. are_fields s.stamp s.values ≡ true };
}

impl KeptFields {
    /// These fields, where a record has room for them.
    pub fn new(stamp: u32, values: List<Value>) -> Option<KeptFields>
        ensures { result ≡ cond (are_fields stamp values) (Some (stamp, values)) None }
    {
        if are_fields(stamp, values.as_slice()) {
            Some(KeptFields { stamp, values })
        } else {
            None
        }
    }

    /// The stamp.
    pub fn stamp(&self) -> u32
        ensures { result ≡ self.now.0 }
    {
        self.stamp
    }

    /// The fields.
    pub fn values(&self) -> &List<Value>
        ensures value { result.now ≡ self.now.1 }
        ensures short { are_fields self.now.0 self.now.1 ≡ true }
    {
        &self.values
    }

    /// The same fields again.
    pub fn copy(&self, alloc: Global) -> Result<KeptFields, AllocError>
        ensures { IfOk result (λ copy. copy ≡ self.now) }
    {
        Ok(KeptFields {
            stamp: self.stamp,
            values: self.values.copy(alloc)?,
        })
    }
}

/// Arguments of an activation or of an entry that a record has room for.
#[derive(Drop)]
pub struct KeptArgs {
    values: List<Value>,
}

impl Model for KeptArgs {
    ghost use Rattle.std.specs.Prelude.{◌≡◌, true};
    ghost use Rattle.ode_objects.specs.Values.{are_args};
    ghost use Rattle.std.specs.Prelude.{List as Items};
    ghost use Rattle.ode_value.specs.declared.value.Value.{Value as Plain};
    ghost use Rattle.ode_value.specs.contracts.value.Value as value;
    ghost use Rattle.std.specs.Coded.{coded_list};

    ghost Value = { Items Plain };

    ghost coded = { coded_list value.the_row.coded };

    ghost view = { λ s. s.values };

    ghost invariant = { λ s. are_args s.values ≡ true };
}

impl KeptArgs {
    /// These arguments, where a record has room for them.
    pub fn new(values: List<Value>) -> Option<KeptArgs>
        ensures { result ≡ cond (are_args values) (Some values) None }
    {
        if are_args(values.as_slice()) {
            Some(KeptArgs { values })
        } else {
            None
        }
    }

    /// The arguments.
    pub fn values(&self) -> &List<Value>
        ensures value { result.now ≡ self.now }
        ensures short { are_args self.now ≡ true }
    {
        &self.values
    }

    /// The same arguments again.
    pub fn copy(&self, alloc: Global) -> Result<KeptArgs, AllocError>
        ensures { IfOk result (λ copy. copy ≡ self.now) }
    {
        Ok(KeptArgs {
            values: self.values.copy(alloc)?,
        })
    }
}
