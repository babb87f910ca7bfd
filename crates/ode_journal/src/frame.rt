//! A frame whose memory is taken before it is filled.
ghost use Rattle.std.specs.Prelude.{◌≡◌, ◌+◌, ◌≤◌, ◌++◌, [], length, take, drop, IfOk};
ghost use Rattle.ode_journal.specs.Filling.{Filling, filled_by, IsFrame};

use ode_host::put_over;
use std::alloc::{AllocError, Global};
use std::marker::Model;

/// The length in front of a payload, in bytes.
pub const LENGTH_LEN: usize = 4;

/// What stands in front of a payload: a gate and its length, in bytes.
pub const FRAME_HEAD: usize = 1 + LENGTH_LEN;

/// What a frame takes besides its payload: what stands in front, and the gate behind, in bytes.
pub const FRAME_BYTES: usize = FRAME_HEAD + 1;

/// The bytes that are to stand behind a gate: a length, a payload, and a gate that is shut.
#[derive(Drop)]
pub struct Frame {
    bytes: Vec<u8>,
    filled: usize,
}

impl Model for Frame {
    ghost use Rattle.ode_journal.specs.Filling.{Filling, IsShaped, filling_of};

    ghost Value = { Filling };

    ghost view = { λ f. filling_of f.bytes.items f.filled };

    ghost invariant = { λ f. IsShaped f.bytes.items f.filled };
}

fn put_in(bytes: &mut Vec<u8>, at: usize, from: &[u8])
    requires { at + length from.now ≤ length bytes.old.items }
    ensures { bytes.new.items ≡ take at bytes.old.items ++ from.now ++ drop (at + length from.now) bytes.old.items }
{
    put_over(bytes, at, from);
}

impl Frame {
    /// A frame for a payload of this length, in bytes, of which none is there yet.
    pub fn reserve(alloc: Global, length: u32) -> Result<Frame, AllocError>
        ensures { IfOk result (λ frame. frame ≡ record { payload = []; spare = length }) }
    {
        let mut bytes = vec![in alloc; 0; LENGTH_LEN + length as usize + 1]?;
        put_in(&mut bytes, 0, &length.to_be_bytes());
        Ok(Frame { bytes, filled: 0 })
    }

    /// How many bytes of its payload aren't there yet.
    pub fn spare(&self) -> u32
        ensures { result ≡ self.now.spare }
    {
        (self.bytes.len() - LENGTH_LEN - 1 - self.filled) as u32
    }

    /// Adds bytes to the payload, at most as many as are spare.
    pub fn push(&mut self, bytes: &[u8])
        requires { length bytes.now ≤ self.old.spare }
        ensures { self.new ≡ filled_by self.old bytes.now }
    {
        put_in(&mut self.bytes, LENGTH_LEN + self.filled, bytes);
        self.filled += bytes.len();
    }

    // What is written behind the gate.
    pub(crate) fn as_bytes(&self) -> &[u8]
        requires { self.now.spare ≡ 0 }
        ensures { IsFrame self.now.payload result.now }
    {
        &self.bytes
    }
}
