//! How many bytes the records of objects take.
ghost use Rattle.std.specs.Prelude.{◌≡◌};
ghost use Rattle.std.specs.List.{sum_by};
ghost use Rattle.ode_objects.specs.Weights.{active_weight, capped, class_fields, object_weight, version_weight, weight_after, weight_before};
ghost use Rattle.ode_value.specs.Fields.{born_values};
ghost use Rattle.ode_value.specs.Lengths.{values_length};

use crate::lengths::{ACTIVATION_HEAD, KEY, OBJECT, version_head};
use crate::object::{Active, Object, Version};
use crate::tracked::{First, Tracked};
use ode_codec::value_length;
use ode_types::Classes;
use ode_value::{Field, Value};

// The bytes of values, or the greatest number.
#[tactic(auto, using(crate::proofs::Sums::capped_cons))]
fn values_length(values: &[Value]) -> u64
    ensures { result ≡ capped (values_length values.now) }
{
    match values {
        [] => 0,
        [value, values @ ..] => values_length(values).saturating_add(value_length(value) as u64),
    }
}

// The bytes of those values whose fields were there at a stamp, or the greatest number.
#[tactic(auto, using(crate::proofs::Sums::capped_cons))]
fn born_length(stamp: u32, fields: &[Field], values: &[Value]) -> u64
    ensures { result ≡ capped (values_length (born_values stamp fields.now values.now)) }
{
    match fields {
        [] => 0,
        [field, fields @ ..] => match values {
            [] => 0,
            [value, values @ ..] => {
                let rest = born_length(stamp, fields, values);
                if field.birth <= stamp {
                    rest.saturating_add(value_length(value) as u64)
                } else {
                    rest
                }
            }
        },
    }
}

// A version, by the fields of its class.
fn version_weight(fields: &[Field], version: &Version) -> u64
    ensures { result ≡ capped (version_weight fields.now version.now) }
{
    let stamp = version.fields.stamp();
    born_length(stamp, fields, version.fields.values().as_slice()).saturating_add(
        KEY + version_head(stamp) as u64,
    )
}

fn active_weight(active: &Active) -> u64
    ensures { result ≡ capped (active_weight active.now) }
{
    if active.on {
        values_length(active.args.values().as_slice()).saturating_add(KEY + ACTIVATION_HEAD as u64)
    } else {
        0
    }
}

fn versions_weight(fields: &[Field], versions: &[Version]) -> u64
    ensures { result ≡ capped (sum_by (version_weight fields.now) versions.now) }
{
    let mut weight: u64 = 0;
    for version in versions {
        weight = weight.saturating_add(version_weight(fields, version));
    }
    weight
}

fn actives_weight(activations: &[Active]) -> u64
    ensures { result ≡ capped (sum_by active_weight activations.now) }
{
    let mut weight: u64 = 0;
    for active in activations {
        weight = weight.saturating_add(active_weight(active));
    }
    weight
}

// The fields of the class of a number.
fn class_fields(classes: &Classes, number: u32) -> &[Field]
    ensures { result.now ≡ class_fields classes.now number }
{
    match classes.class(number) {
        Some(class) => class.fields.as_slice(),
        None => &[],
    }
}

// The bytes of the records that stay of an object, or the greatest number.
fn object_weight(classes: &Classes, object: &Object) -> u64
    ensures { result ≡ capped (object_weight classes.now object.now) }
{
    if !object.live {
        return 0;
    }
    let fields = class_fields(classes, object.class);
    let versions = versions_weight(fields, object.versions.as_slice());
    let activations = actives_weight(object.activations.as_slice());
    versions.saturating_add(activations).saturating_add(OBJECT)
}

impl Tracked {
    /// The bytes that the records of a changed object took when the transaction began, or the greatest number.
    pub fn weight_before(&self, classes: &Classes) -> u64
        ensures { result ≡ capped (weight_before classes.now self.now) }
    {
        match &self.first {
            First::Other(first) => object_weight(classes, first),
            First::Same => 0,
            First::Absent => 0,
        }
    }

    /// The bytes that they take now, or the greatest number.
    pub fn weight_after(&self, classes: &Classes) -> u64
        ensures { result ≡ capped (weight_after classes.now self.now) }
    {
        match &self.first {
            First::Same => 0,
            First::Other(_) => object_weight(classes, &self.current),
            First::Absent => object_weight(classes, &self.current),
        }
    }
}
