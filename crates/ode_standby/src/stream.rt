//! How much of a stream came, and the frame that is begun there.
ghost use Rattle.std.specs.Prelude.{◌≡◌, ◌+◌, ◌≤◌, ◌++◌, OnErr, OnOk, [], drop, length};
ghost use Rattle.ode_value.specs.declared.limits.TheConstants.{SCRIPT_LIMIT};

use ode_value::limits::SCRIPT_LIMIT;
use std::alloc::{AllocError, Global};

/// Bytes of a stream that wait for the rest of their frame.
#[derive(Drop)]
pub struct Stream {
    /// The place in the stream where the first of them stands.
    pub start: u64,
    /// How many frames before were skipped.
    pub skipped: u64,
    /// The bytes.
    pub begun: Vec<u8>,
    ghost short: { start + length begun.items ≤ SCRIPT_LIMIT },
    ghost few: { skipped ≤ start },
}

impl Stream {
    /// A stream of which nothing came.
    pub fn new(alloc: Global) -> Stream
        ensures { (result.start ≡ 0) × (result.skipped ≡ 0) × (result.begun.items ≡ []) }
    {
        Stream {
            start: 0,
            skipped: 0,
            begun: Vec::new(alloc),
        }
    }

    /// How many bytes came.
    pub fn taken(&self) -> u64
        ensures { result ≡ self.now.start + length self.now.begun.items }
    {
        self.start + self.begun.len() as u64
    }

    /// More bytes came. Nothing changes where there is no memory.
    pub fn extend(&mut self, piece: &[u8]) -> Result<(), AllocError>
        requires { self.old.start + length self.old.begun.items + length piece.now ≤ SCRIPT_LIMIT }
        ensures ok { OnOk result (self.new.begun.items ≡ self.old.begun.items ++ piece.now) }
        ensures err { OnErr result (self.new.begun.items ≡ self.old.begun.items) }
        ensures start { self.new.start ≡ self.old.start }
        ensures skipped { self.new.skipped ≡ self.old.skipped }
    {
        self.begun.extend_from_slice(piece)
    }

    /// So many bytes in front were whole frames, of which so many were skipped. Nothing changes where there is no memory.
    pub fn pass(&mut self, alloc: Global, count: usize, skipped: u64) -> Result<(), AllocError>
        requires within { count ≤ length self.old.begun.items }
        requires few { skipped ≤ count }
        ensures ok { OnOk result ((self.new.start ≡ self.old.start + count) × (self.new.skipped ≡ self.old.skipped + skipped)
            × (self.new.begun.items ≡ drop count self.old.begun.items)) }
        ensures err { OnErr result (self.new ≡ self.old) }
    {
        if count == 0 {
            return Ok(());
        }
        let (_, rest) = self.begun.as_slice().split_at(count);
        let rest = Vec::from_slice(alloc, rest)?;
        self.begun = rest;
        self.start += count as u64;
        self.skipped += skipped;
        Ok(())
    }
}
