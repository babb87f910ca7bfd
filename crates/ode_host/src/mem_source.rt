//! A source in memory.
ghost use Rattle.std.specs.Prelude.{◌≡◌, ◌<◌, ◌≤◌, ◌↔◌, [], List, ℕ, Some, min, length, take, drop, IsErr, IfOk, IsTrue, Contains};
ghost use Rattle.std.specs.Io.{ReadsAtMost};
ghost use Rattle.std.specs.Io.KnownBytes.{ReadConsumes};
ghost use Rattle.ode_host.specs.Causes.{Counted, RoseIf};

use crate::faults::raise;
use crate::numbering::Numbering;
use crate::{Failed, Source};

/// Bytes in memory, given in front order. It tells what is left.
#[derive(Drop)]
pub struct MemSource {
    text: Vec<u8>,
    at: usize,
    fails: Vec<u64>,
    numbering: Numbering,
    most: u32,
    faults: u64,
    ghost within: { at ≤ length text.items },
    ghost some: { 1 ≤ most },
}

impl MemSource {
    ghost use Rattle.ode_host.specs.MemReads.{IsUnread};

    /// Gives at most `most` bytes a read. The reads of the numbers in `fails` fail, counted from 0.
    pub fn new(text: Vec<u8>, fails: Vec<u64>, most: u32) -> MemSource
        requires { 1 ≤ most }
        ensures { IsUnread text.items fails.items most result }
    {
        MemSource {
            text,
            at: 0,
            fails,
            numbering: Numbering::new(),
            most,
            faults: 0,
        }
    }
}

// Copies as many bytes as there are, as fit and as are allowed.
fn copy_some(from: &[u8], to: &mut [u8], most: usize) -> usize
    requires { 1 ≤ most }
    ensures count { result ≡ min (min (length from.now) (length to.old)) most }
    ensures within { result ≤ length from.now }
    ensures bound { result ≤ length to.old }
    ensures bytes { take result to.new ≡ take result from.now }
    ensures end { result ≡ 0 → 0 < length to.old → from.now ≡ [] }
{
    let count = from.len().min(to.len()).min(most);
    to[..count].copy_from_slice(&from[..count]);
    count
}

impl Source for MemSource {
    ghost use Rattle.ode_host.specs.MemReads.{ReadsOn, rest_of, fails_of, most_of, read_number_of};

    ghost left = { λ s. Some (rest_of s) };

    ghost faults = { λ s. s.faults };

    fn read(&mut self, to: &mut [u8]) -> Result<usize, Failed>
        requires { 0 < length to.old }
        ensures bound { ReadsAtMost result to.new }
        ensures bytes { ReadConsumes (Some (rest_of self.old)) (Some (rest_of self.new)) result to.new }
        ensures cause { RoseIf (IsErr result) self.old.faults self.new.faults }
        ensures exact { IsErr result ↔ Contains (fails_of self.old) (read_number_of self.old) }
        ensures counted { Counted result self.old.faults self.new.faults }
        ensures count { IfOk result (λ n. n ≡ min (min (length (rest_of self.old)) (length to.old)) (most_of self.old)) }
        ensures next { ReadsOn self.old self.new }
    {
        let fails = self.numbering.is_in(&self.fails);
        self.numbering.advance();
        if fails {
            raise(&mut self.faults);
            return Err(Failed);
        }
        let count = copy_some(&self.text[self.at..], to, self.most as usize);
        self.at += count;
        Ok(count)
    }
}
