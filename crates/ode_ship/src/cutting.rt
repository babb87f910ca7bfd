//! The first frame of a stream.
ghost use Rattle.std.specs.Prelude.{◌≡◌};
ghost use Rattle.ode_ship.specs.Frames.{is_length};
ghost use Rattle.ode_ship.specs.Cuts.{IsCut};

use crate::framing::{HEAD_LEN, MAX_LENGTH, MIN_LENGTH};
use ode_host::take_u32;

/// What bytes of a stream begin with.
#[derive(Clone, Copy, Debug)]
pub enum Cut<'a> {
    /// A frame that isn't whole yet.
    Begun,
    /// A length that no payload has.
    NoLength,
    /// A whole payload; behind it stands the rest.
    Whole { payload: &'a [u8], rest: &'a [u8] },
}

// Whether a payload may have this length.
fn is_length(length: usize) -> bool
    ensures { result ≡ is_length length }
{
    MIN_LENGTH <= length && length <= MAX_LENGTH
}

/// What these bytes begin with, where a frame is to begin.
pub fn first_frame(bytes: &[u8]) -> Cut<'_>
    ensures { IsCut bytes.now result }
{
    let Some(length) = take_u32(bytes, 0) else {
        return Cut::Begun;
    };
    let length = length as usize;
    if !is_length(length) {
        return Cut::NoLength;
    }
    let (_, behind) = bytes.split_at(HEAD_LEN);
    if behind.len() < length {
        return Cut::Begun;
    }
    let (payload, rest) = behind.split_at(length);
    Cut::Whole { payload, rest }
}
