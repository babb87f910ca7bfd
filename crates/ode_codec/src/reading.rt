//! Numbers at the front of bytes.
ghost use Rattle.std.specs.Prelude.{◌≡◌, ◌≤◌, ◌<◌, IfErr, IfOk, drop, take, length};
ghost use Rattle.std.specs.Int.{w16, w32, w64};
ghost use Rattle.ode_codec.specs.Formats.{Finds, byte_in, int_in, number_in, some_in, truth_in};

use crate::outside::OutsideGrammar;
use ode_host::{take_i64, take_u16, take_u32, take_u64};

pub(crate) fn read_u8(bytes: &[u8]) -> Result<(u8, &[u8]), OutsideGrammar>
    ensures { Finds (λ x. (x.0, x.1.now)) result (byte_in bytes.now) }
{
    match bytes {
        [] => Err(OutsideGrammar),
        [first, rest @ ..] => Ok((*first, rest)),
    }
}

pub(crate) fn read_u16(bytes: &[u8]) -> Result<(u16, &[u8]), OutsideGrammar>
    ensures { Finds (λ x. (x.0, x.1.now)) result (number_in w16 bytes.now) }
{
    match take_u16(bytes, 0) {
        None => Err(OutsideGrammar),
        Some(number) => Ok((number, &bytes[2..])),
    }
}

pub(crate) fn read_u32(bytes: &[u8]) -> Result<(u32, &[u8]), OutsideGrammar>
    ensures { Finds (λ x. (x.0, x.1.now)) result (number_in w32 bytes.now) }
{
    match take_u32(bytes, 0) {
        None => Err(OutsideGrammar),
        Some(number) => Ok((number, &bytes[4..])),
    }
}

// A number above 0.
#[tactic(auto, unfolding(crate::specs::Formats::some_in))]
pub(crate) fn read_some(bytes: &[u8]) -> Result<(u32, &[u8]), OutsideGrammar>
    ensures { Finds (λ x. (x.0, x.1.now)) result (some_in bytes.now) }
{
    let (number, rest) = read_u32(bytes)?;
    if number == 0 {
        return Err(OutsideGrammar);
    }
    Ok((number, rest))
}

pub(crate) fn read_u64(bytes: &[u8]) -> Result<(u64, &[u8]), OutsideGrammar>
    ensures { Finds (λ x. (x.0, x.1.now)) result (number_in w64 bytes.now) }
{
    match take_u64(bytes, 0) {
        None => Err(OutsideGrammar),
        Some(number) => Ok((number, &bytes[8..])),
    }
}

pub(crate) fn read_i64(bytes: &[u8]) -> Result<(i64, &[u8]), OutsideGrammar>
    ensures { Finds (λ x. (x.0, x.1.now)) result (int_in bytes.now) }
{
    match take_i64(bytes, 0) {
        None => Err(OutsideGrammar),
        Some(number) => Ok((number, &bytes[8..])),
    }
}

pub(crate) fn read_bool(bytes: &[u8]) -> Result<(bool, &[u8]), OutsideGrammar>
    ensures { Finds (λ x. (x.0, x.1.now)) result (truth_in bytes.now) }
{
    match bytes {
        [0, rest @ ..] => Ok((false, rest)),
        [1, rest @ ..] => Ok((true, rest)),
        _ => Err(OutsideGrammar),
    }
}

// So many bytes, and those behind them.
pub(crate) fn read_part(count: usize, bytes: &[u8]) -> Result<(&[u8], &[u8]), OutsideGrammar>
    ensures long { IfOk result (λ _. count ≤ length bytes.now) }
    ensures part { IfOk result (λ x. x.0.now ≡ take count bytes.now) }
    ensures rest { IfOk result (λ x. x.1.now ≡ drop count bytes.now) }
    ensures short { IfErr result (λ _. length bytes.now < count) }
{
    if bytes.len() < count {
        return Err(OutsideGrammar);
    }
    Ok(bytes.split_at(count))
}
