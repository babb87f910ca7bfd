//! The payload of a frame is read.
ghost use Rattle.std.specs.Prelude.{◌≡◌, ◌+◌, ◌<◌, ◌^◌, ◌↔◌, IfOk, IfSome, IsTrue, OnOk, Some};
ghost use Rattle.std.specs.Bool.{OnTrue};
ghost use Rattle.std.specs.BTreeMap.{insert_entry};
ghost use Rattle.std.specs.Option.{IfNone, option_map};
ghost use Rattle.ode_value.specs.Keys.{key_cmp};
ghost use Rattle.ode_keep.specs.Entries.{Changes};
ghost use Rattle.ode_ship.specs.Frames.{Frame, IsPayloadOf, IsStored, next_by, next_told};
ghost use Rattle.ode_ship.specs.Payloads.{AreShipped};

use crate::framing::NUMBER_LEN;
use ode_codec::{Record, decode, is_record};
use ode_host::{take_u32, take_u64};
use ode_keep::{Batch, COUNT_LEN, FirstChange, MAX_CHANGES, MAX_VALUE, next_change};
use ode_value::{Key, List};
use std::alloc::{AllocError, Global};

/// A frame that was read: the number of a settled transaction, and the changes of its records.
#[derive(Drop)]
pub struct Shipped {
    pub number: u64,
    pub batch: Batch,
}

// Whether a value may stand under a key.
fn is_stored(key: Key, value: Option<&[u8]>) -> bool
    ensures { IsTrue result ↔ IsStored key (option_map (λ v. v.now) value.entry) }
{
    match value {
        None => true,
        Some(value) => value.len() <= MAX_VALUE && is_record(key, value),
    }
}

// Adds a change to a batch.
fn add(alloc: Global, change: FirstChange<'_>, batch: &mut Batch) -> Result<(), AllocError>
    ensures { OnOk result (batch.new ≡ insert_entry key_cmp batch.old change.entry.key (option_map (λ v. v.now) change.entry.value)) }
{
    match change.value {
        None => batch.remove(change.key),
        Some(value) => {
            let value = List::from_slice(alloc, value)?;
            batch.put(change.key, value)
        }
    }
}

// The changes of a payload behind its number, and none where these are too many or outside the form.
fn read_changes(alloc: Global, bytes: &[u8]) -> Result<Option<Batch>, AllocError>
    ensures some { IfOk result (λ found. IfSome found (λ batch. AreShipped batch bytes.now)) }
    ensures none { IfOk result (λ found. IfNone found ((changes : Changes) → AreShipped changes bytes.now → ⊥)) }
{
    let Some(count) = take_u32(bytes, 0) else {
        return Ok(None);
    };
    if count as usize > MAX_CHANGES {
        return Ok(None);
    }
    let (_, mut rest) = bytes.split_at(COUNT_LEN);
    let mut last = None;
    let mut batch = Batch::new(alloc);
    let mut taken = 0;
    'changes: while taken < count {
        let Some(change) = next_change(rest, last) else {
            return Ok(None);
        };
        if !is_stored(change.key, change.value) {
            return Ok(None);
        }
        add(alloc, change, &mut batch)?;
        rest = change.rest;
        last = Some(change.key);
        taken += 1;
    }
    if rest.is_empty() {
        Ok(Some(batch))
    } else {
        Ok(None)
    }
}

const COUNTERS: Key = Key {
    kind: Key::COUNTERS,
    a: 0,
    b: 0,
};

// The number of the next transaction, as a value under the key of the counters tells it.
fn next_by(alloc: Global, value: &Option<List<u8>>) -> Result<Option<u64>, AllocError>
    ensures { IfOk result (λ next. next ≡ next_by value.now) }
{
    let Some(value) = value else {
        return Ok(None);
    };
    match decode(alloc, COUNTERS, value.as_slice())? {
        Some(Record::Counters(counters)) => Ok(Some(counters.next_transaction)),
        _ => Ok(None),
    }
}

// And as changes tell it.
fn next_told(alloc: Global, batch: &Batch) -> Result<Option<u64>, AllocError>
    ensures { IfOk result (λ next. next ≡ next_told batch.now) }
{
    for change in batch.iter() {
        if COUNTERS.cmp(&change.key).is_eq() {
            return next_by(alloc, &change.value);
        }
    }
    Ok(None)
}

// Whether the changes tell that the number after this one is next.
fn tells_next(alloc: Global, batch: &Batch, number: u64) -> Result<bool, AllocError>
    ensures tells { IfOk result (λ b. IsTrue b ↔ (next_told batch.now ≡ Some (number + 1))) }
    ensures room { IfOk result (λ b. OnTrue b (number + 1 < 2 ^ 64)) }
{
    match next_told(alloc, batch)? {
        Some(next) => Ok(next >= 1 && next - 1 == number),
        None => Ok(false),
    }
}

/// The frame whose payload these bytes are, and none where they are outside the form.
pub fn read_payload(alloc: Global, payload: &[u8]) -> Result<Option<Shipped>, AllocError>
    ensures some { IfOk result (λ found. IfSome found (λ s. IsPayloadOf (s.number, s.batch) payload.now)) }
    ensures none { IfOk result (λ found. IfNone found ((f : Frame) → IsPayloadOf f payload.now → ⊥)) }
    ensures room { IfOk result (λ found. IfSome found (λ s. s.number + 1 < 2 ^ 64)) }
{
    let Some(number) = take_u64(payload, 0) else {
        return Ok(None);
    };
    let (_, changes) = payload.split_at(NUMBER_LEN);
    let Some(batch) = read_changes(alloc, changes)? else {
        return Ok(None);
    };
    if !tells_next(alloc, &batch, number)? {
        return Ok(None);
    }
    Ok(Some(Shipped { number, batch }))
}
