//! What becomes of the records of an object.
ghost use Rattle.std.specs.Prelude.{◌≡◌, Some, IfOk, OnErr, OnOk};
ghost use Rattle.std.specs.List.{find};
ghost use Rattle.ode_objects.specs.Objects.{has_number, is_numbered};
ghost use Rattle.ode_objects.specs.Records.{AreShort, IsKeptChange, active_record, fields_record, object_becomes, object_record, part_record, put_becomes, version_record};

use crate::object::{Active, Fields, Object, Version, active_numbered, version_numbered};
use ode_codec::{Activation, Record, encode};
use ode_keep::Batch;
use ode_value::Key;
use std::alloc::{AllocError, Global};

/// What becomes of the record under a key: it is this one, there is none, or it stays as it was.
#[derive(Drop)]
pub enum Becomes {
    Is(Record),
    Goes,
    Stays,
}

#[tactic(auto, using(crate::proofs::ShortValues::short_object), unfolding(ode_codec::specs::Rules::IsCounted))]
fn object_record(id: u64, object: &Object) -> Becomes
    ensures value { result ≡ object_record id object.now }
    ensures kept { IsKeptChange result }
{
    Becomes::Is(Record::Object {
        object: id,
        class: object.class,
        last: object.last,
    })
}

#[tactic(auto, using(crate::proofs::Kept::fields_counted, crate::proofs::ShortValues::short_version), unfolding(ode_codec::specs::Rules::IsCounted))]
fn version_record(alloc: Global, id: u64, version: &Version) -> Result<Becomes, AllocError>
    ensures value { IfOk result (λ b. b ≡ fields_record id version.now version.now.fields) }
    ensures kept { IfOk result IsKeptChange }
{
    match &version.fields {
        Fields::Read { .. } => Ok(Becomes::Stays),
        Fields::Written(fields) => Ok(Becomes::Is(Record::Version {
            object: id,
            number: version.number,
            parent: version.parent.unwrap_or(0),
            stamp: fields.stamp(),
            fields: fields.values().copy(alloc)?,
        })),
    }
}

#[tactic(auto, using(crate::proofs::ShortValues::short_activation), unfolding(ode_codec::specs::Rules::IsCounted))]
fn active_record(alloc: Global, id: u64, active: &Active) -> Result<Becomes, AllocError>
    ensures value { IfOk result (λ b. b ≡ active_record id (Some active.now)) }
    ensures kept { IfOk result IsKeptChange }
{
    if !active.on {
        return Ok(Becomes::Goes);
    }
    Ok(Becomes::Is(Record::Activation(Activation {
        object: id,
        number: active.number,
        class: active.class,
        trigger: active.trigger,
        state: active.state,
        args: active.args.values().copy(alloc)?,
    })))
}

// The record of a version of an object.
fn version_part(alloc: Global, key: Key, object: &Object) -> Result<Becomes, AllocError>
    ensures value { IfOk result (λ b. b ≡ version_record key.a (find (is_numbered key.b) object.now.versions)) }
    ensures kept { IfOk result IsKeptChange }
{
    match version_numbered(object.versions.as_slice(), key.b) {
        Some(version) => version_record(alloc, key.a, version),
        None => Ok(Becomes::Goes),
    }
}

// The record of an activation of an object.
fn active_part(alloc: Global, key: Key, object: &Object) -> Result<Becomes, AllocError>
    ensures value { IfOk result (λ b. b ≡ active_record key.a (find (has_number key.b) object.now.activations)) }
    ensures kept { IfOk result IsKeptChange }
{
    match active_numbered(object.activations.as_slice(), key.b) {
        Some(active) => active_record(alloc, key.a, active),
        None => Ok(Becomes::Goes),
    }
}

// The record of a part of an object, by its kind.
#[tactic(auto, unfolding(crate::specs::Records::part_record))]
fn part_record(alloc: Global, key: Key, object: &Object) -> Result<Becomes, AllocError>
    ensures value { IfOk result (λ b. b ≡ part_record key object.now) }
    ensures kept { IfOk result IsKeptChange }
{
    match key.kind {
        Key::OBJECT => Ok(object_record(key.a, object)),
        Key::VERSION => version_part(alloc, key, object),
        Key::ACTIVATION => active_part(alloc, key, object),
        _ => Ok(Becomes::Stays),
    }
}

impl Object {
    /// What becomes of the record under a key of its own.
    pub fn becomes(&self, alloc: Global, key: Key) -> Result<Becomes, AllocError>
        ensures value { IfOk result (λ b. b ≡ object_becomes key self.now) }
        ensures kept { IfOk result IsKeptChange }
    {
        if self.live {
            part_record(alloc, key, self)
        } else {
            Ok(Becomes::Goes)
        }
    }
}

/// One more change. The batch stays as it was where there is no memory.
#[tactic(auto, using(crate::proofs::ShortValues::short_becomes))]
pub fn put_becomes(
    alloc: Global,
    batch: &mut Batch,
    key: Key,
    becomes: Becomes,
) -> Result<(), AllocError>
    requires { IsKeptChange becomes }
    ensures ok { OnOk result (batch.new ≡ put_becomes key becomes batch.old) }
    ensures short { AreShort batch.old → OnOk result (AreShort batch.new) }
    ensures err { OnErr result (batch.new ≡ batch.old) }
{
    match becomes {
        Becomes::Is(record) => {
            let (_, value) = encode(alloc, &record)?;
            batch.put(key, value)
        }
        Becomes::Goes => batch.remove(key),
        Becomes::Stays => Ok(()),
    }
}
