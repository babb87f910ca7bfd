//! Whether there is a record of a key and a value. Nothing is made of it.
ghost use Rattle.std.specs.Prelude.{◌≡◌};
ghost use Rattle.ode_codec.specs.Formats.{Finds, behind, passed};
ghost use Rattle.ode_codec.specs.FirstFormat.{is_of_first};
ghost use Rattle.ode_codec.specs.Reading.{activation_under, added_under, class_head_under, class_piece_under, entry_under};
ghost use Rattle.ode_codec.specs.Reading.{name_in, table_piece_under, version_under};

use crate::decoding::{fit_u32, is_piece, is_sort, nothing_left};
use crate::outside::OutsideGrammar;
use crate::reading::{read_part, read_u8, read_u16, read_u32, read_u64};
use crate::record::STAMPED;
use crate::skipping::{skip_args, skip_fields, skip_value};
use ode_host::take_u16;
use ode_value::{Key, is_name};

#[tactic(auto, unfolding(crate::specs::Reading::name_in))]
fn skip_name(bytes: &[u8]) -> Result<&[u8], OutsideGrammar>
    ensures { Finds (λ x. x.now) result (behind (name_in bytes.now)) }
{
    let (length, rest) = read_u8(bytes)?;
    let (name, rest) = read_part(usize::from(length), rest)?;
    if is_name(name) {
        Ok(rest)
    } else {
        Err(OutsideGrammar)
    }
}

#[tactic(auto, unfolding(crate::specs::Reading::class_head_under))]
pub(crate) fn pass_class_head(key: Key, bytes: &[u8]) -> Result<(), OutsideGrammar>
    ensures { Finds (λ x. tt) result (passed (class_head_under key bytes.now)) }
{
    fit_u32(key.a)?;
    if key.b != 0 {
        return Err(OutsideGrammar);
    }
    let rest = skip_name(bytes)?;
    let (_, rest) = read_u32(rest)?;
    let (_, rest) = read_u32(rest)?;
    let (_, rest) = read_u16(rest)?;
    nothing_left(rest)
}

#[tactic(auto, unfolding(crate::specs::Reading::class_piece_under, crate::specs::Reading::table_piece_under))]
pub(crate) fn pass_piece(key: Key, bytes: &[u8]) -> Result<(), OutsideGrammar>
    ensures class { Finds (λ x. tt) result (passed (class_piece_under key bytes.now)) }
    ensures table { Finds (λ x. tt) result (passed (table_piece_under key bytes.now)) }
{
    fit_u32(key.a)?;
    fit_u32(key.b)?;
    if is_piece(bytes) {
        Ok(())
    } else {
        Err(OutsideGrammar)
    }
}

#[tactic(auto, unfolding(crate::specs::Reading::version_under))]
pub(crate) fn pass_version(key: Key, bytes: &[u8]) -> Result<(), OutsideGrammar>
    ensures { Finds (λ x. tt) result (passed (version_under key bytes.now)) }
{
    fit_u32(key.b)?;
    let (_, rest) = read_u32(bytes)?;
    let rest = skip_fields(rest)?;
    nothing_left(rest)
}

#[tactic(auto, unfolding(crate::specs::Reading::activation_under))]
pub(crate) fn pass_activation(key: Key, bytes: &[u8]) -> Result<(), OutsideGrammar>
    ensures { Finds (λ x. tt) result (passed (activation_under key bytes.now)) }
{
    let (_, rest) = read_u32(bytes)?;
    let (_, rest) = read_u16(rest)?;
    let (_, rest) = read_u16(rest)?;
    let rest = skip_args(rest)?;
    nothing_left(rest)
}

/// The length of counters without added fields.
const COUNTERS_LEN: usize = 45;
/// The place of the count of fields in a version.
const COUNT_PLACE: usize = 4;

/// Whether a record has a form that the first format knows: no added field, no stamp, and no count of added fields.
pub fn is_of_first(key: Key, bytes: &[u8]) -> bool
    ensures { result ≡ is_of_first key bytes.now }
{
    match key.kind {
        Key::ADDED => false,
        Key::COUNTERS => bytes.len() <= COUNTERS_LEN,
        Key::VERSION => match take_u16(bytes, COUNT_PLACE) {
            Some(count) => count < STAMPED,
            None => true,
        },
        _ => true,
    }
}

#[tactic(auto, unfolding(crate::specs::Reading::added_under))]
pub(crate) fn pass_added(key: Key, bytes: &[u8]) -> Result<(), OutsideGrammar>
    ensures { Finds (λ x. tt) result (passed (added_under key bytes.now)) }
{
    fit_u32(key.a)?;
    fit_u32(key.b)?;
    let rest = skip_name(bytes)?;
    let (sort, rest) = read_u8(rest)?;
    let (of, rest) = read_u32(rest)?;
    let rest = skip_value(rest)?;
    nothing_left(rest)?;
    if is_sort(sort, of) {
        Ok(())
    } else {
        Err(OutsideGrammar)
    }
}

#[tactic(auto, unfolding(crate::specs::Reading::entry_under))]
pub(crate) fn pass_entry(key: Key, bytes: &[u8]) -> Result<(), OutsideGrammar>
    ensures { Finds (λ x. tt) result (passed (entry_under key bytes.now)) }
{
    if key.b != 0 {
        return Err(OutsideGrammar);
    }
    let (_, rest) = read_u64(bytes)?;
    let (_, rest) = read_u32(rest)?;
    let (_, rest) = read_u16(rest)?;
    let (_, rest) = read_u8(rest)?;
    let rest = skip_args(rest)?;
    nothing_left(rest)
}
