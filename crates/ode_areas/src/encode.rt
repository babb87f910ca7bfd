//! A batch is spelled as a frame. All memory is taken beforehand.
ghost use Rattle.std.specs.Prelude.{◌≡◌, ◌≤◌, length, IfOk};
ghost use Rattle.std.specs.List.{All};
ghost use Rattle.std.specs.Option.{IfSome};
ghost use Rattle.ode_journal.specs.Filling.{filled_by};
ghost use Rattle.ode_keep.specs.ShortValues.{HasShortValues};
ghost use Rattle.ode_keep.specs.Payloads.{FitsChange, IsPayload, spelled_change};

use ode_journal::Frame;
use ode_keep::{Batch, MAX_CHANGES, MAX_VALUE, PUT, REMOVAL, key_bytes, payload_length, row_head};
use ode_value::{Key, List};
use std::alloc::{AllocError, Global};

// Adds a change to a frame.
fn push_change(frame: &mut Frame, key: Key, value: &Option<List<u8>>)
    requires room { length (spelled_change key value.now) ≤ frame.old.spare }
    requires short { IfSome value.now (λ v. length v ≤ MAX_VALUE) }
    ensures pushed { frame.new ≡ filled_by frame.old (spelled_change key value.now) }
    ensures fits { FitsChange (key, value.now) }
{
    match value {
        None => {
            frame.push(&[REMOVAL]);
            frame.push(&key_bytes(key));
        }
        Some(value) => {
            frame.push(&[PUT]);
            frame.push(&row_head(key, value.len() as u16));
            frame.push(value.as_slice());
        }
    }
}

/// A full frame of the payload that a batch makes.
pub(crate) fn frame_of(alloc: Global, batch: &Batch) -> Result<Frame, AllocError>
    requires few { length batch.now ≤ MAX_CHANGES }
    requires short { HasShortValues batch.now }
    ensures payload { IfOk result (λ frame. IsPayload batch.now frame.payload) }
    ensures full { IfOk result (λ frame. frame.spare ≡ 0) }
{
    let mut frame = Frame::reserve(alloc, payload_length(batch))?;
    frame.push(&(batch.len() as u32).to_be_bytes());
    for change in batch.iter() {
        push_change(&mut frame, change.key, &change.value);
    }
    Ok(frame)
}
