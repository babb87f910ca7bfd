//! Values at the front of bytes, passed over: whether they are there, and where they end. Nothing is made of them.
ghost use Rattle.std.specs.Prelude.{◌≡◌};
ghost use Rattle.ode_codec.specs.Formats.{Finds, behind};
ghost use Rattle.ode_codec.specs.Values.{args_in, content_in, fields_in, text_in, value_in, values_in};

use crate::outside::OutsideGrammar;
use crate::reading::{read_part, read_u8, read_u16};
use crate::record::{STAMPED, TEXT_TAG};
use crate::values::{read_plain, read_stamp};
use ode_value::is_text;

// The text behind its length.
#[tactic(auto, unfolding(crate::specs::Values::text_in))]
fn skip_text(bytes: &[u8]) -> Result<&[u8], OutsideGrammar>
    ensures { Finds (λ x. x.now) result (behind (text_in bytes.now)) }
{
    let (length, rest) = read_u16(bytes)?;
    let (text, rest) = read_part(usize::from(length), rest)?;
    if is_text(text) {
        Ok(rest)
    } else {
        Err(OutsideGrammar)
    }
}

#[tactic(auto, unfolding(crate::specs::Values::content_in))]
fn skip_content(tag: u8, bytes: &[u8]) -> Result<&[u8], OutsideGrammar>
    ensures { Finds (λ x. x.now) result (behind (content_in tag bytes.now)) }
{
    if tag == TEXT_TAG {
        return skip_text(bytes);
    }
    let (_, rest) = read_plain(tag, bytes)?;
    Ok(rest)
}

#[tactic(auto, unfolding(crate::specs::Values::value_in))]
pub(crate) fn skip_value(bytes: &[u8]) -> Result<&[u8], OutsideGrammar>
    ensures { Finds (λ x. x.now) result (behind (value_in bytes.now)) }
{
    let (tag, rest) = read_u8(bytes)?;
    skip_content(tag, rest)
}

fn skip_values(count: u16, bytes: &[u8]) -> Result<&[u8], OutsideGrammar>
    ensures { Finds (λ x. x.now) result (behind (values_in count bytes.now)) }
{
    let mut rest = bytes;
    for _ in 0..count {
        rest = skip_value(rest)?;
    }
    Ok(rest)
}

/// The values behind their count of two bytes, with their stamp.
#[tactic(auto, unfolding(crate::specs::Values::fields_in))]
pub(crate) fn skip_fields(bytes: &[u8]) -> Result<&[u8], OutsideGrammar>
    ensures { Finds (λ x. x.now) result (behind (fields_in bytes.now)) }
{
    let (count, rest) = read_u16(bytes)?;
    let (_, rest) = read_stamp(count, rest)?;
    skip_values(count % STAMPED, rest)
}

/// The values behind their count of one byte.
#[tactic(auto, unfolding(crate::specs::Values::args_in))]
pub(crate) fn skip_args(bytes: &[u8]) -> Result<&[u8], OutsideGrammar>
    ensures { Finds (λ x. x.now) result (behind (args_in bytes.now)) }
{
    let (count, rest) = read_u8(bytes)?;
    skip_values(u16::from(count), rest)
}
