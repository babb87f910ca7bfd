//! Values at the front of bytes.
ghost use Rattle.std.specs.Prelude.{◌≢◌};
ghost use Rattle.ode_codec.specs.Formats.{Finds, Gives};
ghost use Rattle.ode_codec.specs.Values.{args_in, content_in, fields_in, reference_in, stamp_in, text_in, value_in, values_in};

use crate::outside::{OutsideGrammar, Unread};
use crate::reading::{
    read_bool, read_i64, read_part, read_some, read_u8, read_u16, read_u32, read_u64,
};
use crate::record::{BOOL_TAG, INT_TAG, REFERENCE_TAG, STAMPED, TEXT_TAG};
use ode_value::{List, OdeText, Ref, TextError, Value};
use std::alloc::Global;

// The text behind its length.
#[tactic(auto, unfolding(crate::specs::Values::text_in))]
fn read_text(alloc: Global, bytes: &[u8]) -> Result<(OdeText, &[u8]), Unread>
    ensures { Gives (λ x. (x.0, x.1.now)) result (text_in bytes.now) }
{
    let (length, rest) = read_u16(bytes)?;
    let (text, rest) = read_part(usize::from(length), rest)?;
    match OdeText::new(alloc, text) {
        Ok(text) => Ok((text, rest)),
        Err(TextError::Memory) => Err(Unread::Memory),
        Err(_) => Err(Unread::Outside),
    }
}

// Version 0 is none, and null is all zeros.
#[tactic(auto, unfolding(crate::specs::Values::reference_in))]
fn read_reference(bytes: &[u8]) -> Result<(Ref, &[u8]), OutsideGrammar>
    ensures { Finds (λ x. (x.0, x.1.now)) result (reference_in bytes.now) }
{
    let (object, rest) = read_u64(bytes)?;
    let (version, rest) = read_u32(rest)?;
    if version == 0 {
        return Ok((
            Ref {
                object,
                version: None,
            },
            rest,
        ));
    }
    if object == 0 {
        return Err(OutsideGrammar);
    }
    Ok((
        Ref {
            object,
            version: Some(version),
        },
        rest,
    ))
}

// What stands behind a tag that isn't a text's.
#[tactic(auto, unfolding(crate::specs::Values::content_in))]
pub(crate) fn read_plain(tag: u8, bytes: &[u8]) -> Result<(Value, &[u8]), OutsideGrammar>
    ensures { tag ≢ 2 → Finds (λ x. (x.0, x.1.now)) result (content_in tag bytes.now) }
{
    match tag {
        INT_TAG => {
            let (number, rest) = read_i64(bytes)?;
            Ok((Value::Int(number), rest))
        }
        BOOL_TAG => {
            let (truth, rest) = read_bool(bytes)?;
            Ok((Value::Bool(truth), rest))
        }
        REFERENCE_TAG => {
            let (reference, rest) = read_reference(bytes)?;
            Ok((Value::Reference(reference), rest))
        }
        _ => Err(OutsideGrammar),
    }
}

#[tactic(auto, unfolding(crate::specs::Values::content_in))]
fn read_content(alloc: Global, tag: u8, bytes: &[u8]) -> Result<(Value, &[u8]), Unread>
    ensures { Gives (λ x. (x.0, x.1.now)) result (content_in tag bytes.now) }
{
    if tag == TEXT_TAG {
        let (text, rest) = read_text(alloc, bytes)?;
        return Ok((Value::Text(text), rest));
    }
    let (value, rest) = read_plain(tag, bytes)?;
    Ok((value, rest))
}

#[tactic(auto, unfolding(crate::specs::Values::value_in))]
pub(crate) fn read_value(alloc: Global, bytes: &[u8]) -> Result<(Value, &[u8]), Unread>
    ensures { Gives (λ x. (x.0, x.1.now)) result (value_in bytes.now) }
{
    let (tag, rest) = read_u8(bytes)?;
    read_content(alloc, tag, rest)
}

fn read_values(alloc: Global, count: u16, bytes: &[u8]) -> Result<(List<Value>, &[u8]), Unread>
    ensures { Gives (λ x. (x.0, x.1.now)) result (values_in count bytes.now) }
{
    let room = usize::from(count).min(bytes.len());
    let mut values = List::from_vec(Vec::with_capacity(alloc, room)?);
    let mut rest = bytes;
    for _ in 0..count {
        let (value, after) = read_value(alloc, rest)?;
        values.push(value)?;
        rest = after;
    }
    Ok((values, rest))
}

/// The stamp behind a count of two bytes that says so.
#[tactic(auto, unfolding(crate::specs::Values::stamp_in))]
pub(crate) fn read_stamp(count: u16, bytes: &[u8]) -> Result<(u32, &[u8]), OutsideGrammar>
    ensures { Finds (λ x. (x.0, x.1.now)) result (stamp_in count bytes.now) }
{
    if count < STAMPED {
        return Ok((0, bytes));
    }
    read_some(bytes)
}

/// The values behind their count of two bytes, with their stamp.
#[tactic(auto, unfolding(crate::specs::Values::fields_in))]
pub(crate) fn read_fields(alloc: Global, bytes: &[u8]) -> Result<(u32, List<Value>, &[u8]), Unread>
    ensures { Gives (λ x. ((x.0, x.1), x.2.now)) result (fields_in bytes.now) }
{
    let (count, rest) = read_u16(bytes)?;
    let (stamp, rest) = read_stamp(count, rest)?;
    let (fields, rest) = read_values(alloc, count % STAMPED, rest)?;
    Ok((stamp, fields, rest))
}

/// The values behind their count of one byte.
#[tactic(auto, unfolding(crate::specs::Values::args_in))]
pub(crate) fn read_args(alloc: Global, bytes: &[u8]) -> Result<(List<Value>, &[u8]), Unread>
    ensures { Gives (λ x. (x.0, x.1.now)) result (args_in bytes.now) }
{
    let (count, rest) = read_u8(bytes)?;
    read_values(alloc, u16::from(count), rest)
}
