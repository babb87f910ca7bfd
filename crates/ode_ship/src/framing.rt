//! A batch is spelled as a frame.
ghost use Rattle.std.specs.Prelude.{◌≡◌, ◌≤◌, ◌++◌, IfOk, OnOk, length};
ghost use Rattle.std.specs.List.{AllByRecursion};
ghost use Rattle.std.specs.Option.{IfSome};
ghost use Rattle.ode_keep.specs.Entries.{HasRisingKeys};
ghost use Rattle.ode_keep.specs.Payloads.{FitsChange, payload_of, spelled_change};
ghost use Rattle.ode_keep.specs.ShortValues.{HasShortValues};
ghost use Rattle.ode_ship.specs.Frames.{FitsFrame, frame_bytes};

use ode_host::{put_u32, put_u64};
use ode_keep::{
    Batch, COUNT_LEN, MAX_CHANGES, MAX_PAYLOAD_LEN, MAX_VALUE, PUT, REMOVAL, key_bytes,
    payload_length, put_row,
};
use ode_value::{Key, List};
use std::alloc::{AllocError, Global};

/// The length in front of a frame's payload, in bytes.
pub const HEAD_LEN: usize = 4;

/// The number of the transaction in front of the changes, in bytes.
pub const NUMBER_LEN: usize = 8;

/// A payload has at least so many bytes: a number and the count of no changes.
pub const MIN_LENGTH: usize = NUMBER_LEN + COUNT_LEN;

/// And at most so many.
pub const MAX_LENGTH: usize = NUMBER_LEN + MAX_PAYLOAD_LEN;

// Appends the bytes of a change.
fn put_change(to: &mut Vec<u8>, key: Key, value: &Option<List<u8>>) -> Result<(), AllocError>
    requires { IfSome value.now (λ v. length v ≤ MAX_VALUE) }
    ensures spelled { OnOk result (to.new.items ≡ to.old.items ++ spelled_change key value.now) }
    ensures fits { OnOk result (FitsChange (key, value.now)) }
{
    match value {
        None => {
            to.push(REMOVAL)?;
            to.extend_from_slice(&key_bytes(key))
        }
        Some(value) => {
            to.push(PUT)?;
            put_row(to, key, value.as_slice())
        }
    }
}

// Appends the bytes of a batch's changes and their number.
fn put_changes(to: &mut Vec<u8>, batch: &Batch) -> Result<(), AllocError>
    requires few { length batch.now ≤ MAX_CHANGES }
    requires short { HasShortValues batch.now }
    ensures spelled { OnOk result (to.new.items ≡ to.old.items ++ payload_of batch.now) }
    ensures fit { OnOk result (AllByRecursion FitsChange batch.now) }
    ensures rising { OnOk result (HasRisingKeys batch.now) }
{
    put_u32(to, batch.len() as u32)?;
    for change in batch.iter() {
        put_change(to, change.key, &change.value)?;
    }
    Ok(())
}

/// The frame of a settled transaction: its number, and the changes of its records.
pub fn frame(alloc: Global, number: u64, batch: &Batch) -> Result<List<u8>, AllocError>
    requires few { length batch.now ≤ MAX_CHANGES }
    requires short { HasShortValues batch.now }
    ensures spelled { IfOk result (λ bytes. bytes ≡ frame_bytes (number, batch.now)) }
    ensures fits { OnOk result (FitsFrame (number, batch.now)) }
{
    let mut bytes = Vec::new(alloc);
    put_u32(&mut bytes, NUMBER_LEN as u32 + payload_length(batch))?;
    put_u64(&mut bytes, number)?;
    put_changes(&mut bytes, batch)?;
    Ok(List::from_vec(bytes))
}
