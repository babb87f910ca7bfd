//! Bytes of a disk that are read ahead.
ghost use Rattle.std.specs.Prelude.{◌≡◌, ◌+◌, ◌-◌, ◌<◌, ◌≤◌, ◌^◌, List, ℕ, min, length, take, drop, IfOk, IsErr, IsTrue, OnOk};
ghost use Rattle.std.specs.Bool.{OnTrue};
ghost use Rattle.ode_journal.specs.declared.block.TheConstants.{BLOCK};
ghost use Rattle.ode_host.specs.Causes.{RoseIf};
ghost use Rattle.ode_host.specs.Host.{Looks, Tells};

use ode_host::{Failed, Host, read_exact, read_whole};
use std::alloc::{AllocError, Global};

// How many bytes a read asks for.
const BLOCK: usize = 65_536;

// From here on there is no room for a block in the numbers.
const LAST: u64 = u64::MAX - BLOCK as u64;

/// Some bytes of a disk and where they stand, so that many short reads at rising offsets are one.
#[derive(Drop)]
pub struct Block {
    pub(crate) bytes: Vec<u8>,
    pub(crate) at: u64,
    pub(crate) filled: usize,
    ghost long: { length bytes.items ≡ BLOCK },
    ghost within: { filled ≤ length bytes.items },
}

// Copies as many bytes as there are and as fit.
fn copy_some(from: &[u8], to: &mut [u8]) -> usize
    ensures count { result ≡ min (length from.now) (length to.old) }
    ensures bytes { take result to.new ≡ take result from.now }
{
    let count = from.len().min(to.len());
    to[..count].copy_from_slice(&from[..count]);
    count
}

// Reads a block.
fn read_block<H: Host>(host: &mut H, at: u64, bytes: &mut Vec<u8>) -> Result<usize, Failed>
    requires { at + length bytes.old.items < 2 ^ 64 }
    ensures long { length bytes.new.items ≡ length bytes.old.items }
    ensures within { IfOk result (λ n. n ≤ length bytes.old.items) }
    ensures count { IfOk result (λ n. (file : List ℕ) → Tells (H.view host.old) file → n ≡ min (length bytes.old.items) (length file - at)) }
    ensures bytes { IfOk result (λ n. (file : List ℕ) → Tells (H.view host.old) file → take n bytes.new.items ≡ take n (drop at file)) }
    ensures looks { Looks (H.view host.old) (H.view host.new) }
    ensures cause { RoseIf (IsErr result) (H.view host.old).disk_faults (H.view host.new).disk_faults }
{
    read_whole(host, at, bytes)
}

impl Block {
    ghost use Rattle.ode_journal.specs.Ahead.{IsOf, StaysOf, TellsAhead};

    /// Nothing is read yet.
    pub fn new(alloc: Global) -> Result<Block, AllocError>
        ensures { IfOk result (λ block. (file : List ℕ) → IsOf file block) }
    {
        Ok(Block {
            bytes: vec![in alloc; 0; BLOCK]?,
            at: 0,
            filled: 0,
        })
    }

    // Copies what it has of the bytes from an offset on.
    fn copy(&self, at: u64, to: &mut [u8]) -> usize
        ensures bound { result ≤ length to.old }
        ensures bytes { (file : List ℕ) → IsOf file self.now → take result to.new ≡ take result (drop at file) }
        ensures count { self.now.at ≡ at → result ≡ min self.now.filled (length to.old) }
    {
        if at < self.at || self.filled as u64 <= at - self.at {
            return 0;
        }
        let from = (at - self.at) as usize;
        copy_some(&self.bytes[from..self.filled], to)
    }

    // Reads the block from an offset on.
    fn refill<H: Host>(&mut self, host: &mut H, at: u64) -> Result<(), Failed>
        requires { at + BLOCK < 2 ^ 64 }
        ensures place { OnOk result (self.new.at ≡ at) }
        ensures count { OnOk result ((file : List ℕ) → Tells (H.view host.old) file → self.new.filled ≡ min BLOCK (length file - at)) }
        ensures bytes { OnOk result ((file : List ℕ) → Tells (H.view host.old) file → IsOf file self.new) }
        ensures looks { Looks (H.view host.old) (H.view host.new) }
        ensures cause { RoseIf (IsErr result) (H.view host.old).disk_faults (H.view host.new).disk_faults }
    {
        self.filled = 0;
        let count = read_block(host, at, &mut self.bytes)?;
        self.at = at;
        self.filled = count;
        Ok(())
    }

    // Fills all of `to` by a read, or by a block where it is shorter than one.
    fn read_on<H: Host>(&mut self, host: &mut H, at: u64, to: &mut [u8]) -> Result<bool, Failed>
        requires { at + length to.old < 2 ^ 64 }
        ensures bytes { IfOk result (λ b. OnTrue b (
            (file : List ℕ) → Tells (H.view host.old) file → to.new ≡ take (length to.old) (drop at file))) }
        ensures whole { IfOk result (λ b.
            (file : List ℕ) → Tells (H.view host.old) file → at + length to.old ≤ length file → IsTrue b) }
        ensures ahead { OnOk result (StaysOf (H.view host.old) self.old self.new) }
        ensures looks { Looks (H.view host.old) (H.view host.new) }
        ensures cause { RoseIf (IsErr result) (H.view host.old).disk_faults (H.view host.new).disk_faults }
    {
        if to.len() >= BLOCK || at >= LAST {
            return read_exact(host, at, to);
        }
        self.refill(host, at)?;
        Ok(self.copy(at, to) == to.len())
    }

    // Fills what stands behind the first bytes of `to`.
    fn read_rest<H: Host>(
        &mut self,
        host: &mut H,
        at: u64,
        have: usize,
        to: &mut [u8],
    ) -> Result<bool, Failed>
        requires within { have ≤ length to.old }
        requires fits { at + length to.old < 2 ^ 64 }
        ensures before { take have to.new ≡ take have to.old }
        ensures bytes { IfOk result (λ b. OnTrue b ((file : List ℕ) → Tells (H.view host.old) file
            → drop have to.new ≡ take (length to.old - have) (drop (at + have) file))) }
        ensures whole { IfOk result (λ b.
            (file : List ℕ) → Tells (H.view host.old) file → at + length to.old ≤ length file → IsTrue b) }
        ensures ahead { OnOk result (StaysOf (H.view host.old) self.old self.new) }
        ensures looks { Looks (H.view host.old) (H.view host.new) }
        ensures cause { RoseIf (IsErr result) (H.view host.old).disk_faults (H.view host.new).disk_faults }
    {
        self.read_on(host, at + have as u64, &mut to[have..])
    }

    /// Fills all of `to` with the bytes from an offset on, or answers `false` where there are too few. It takes what was
    /// read ahead first, and then reads 64 KiB or more, where there are so many.
    pub fn read_exact<H: Host>(
        &mut self,
        host: &mut H,
        at: u64,
        to: &mut [u8],
    ) -> Result<bool, Failed>
        requires { at + length to.old < 2 ^ 64 }
        ensures bytes { IfOk result (λ b. OnTrue b (
            (file : List ℕ) → TellsAhead (H.view host.old) self.old file → to.new ≡ take (length to.old) (drop at file))) }
        ensures whole { IfOk result (λ b.
            (file : List ℕ) → Tells (H.view host.old) file → at + length to.old ≤ length file → IsTrue b) }
        ensures ahead { OnOk result (StaysOf (H.view host.old) self.old self.new) }
        ensures looks { Looks (H.view host.old) (H.view host.new) }
        ensures cause { RoseIf (IsErr result) (H.view host.old).disk_faults (H.view host.new).disk_faults }
    {
        let have = self.copy(at, to);
        if have == to.len() {
            return Ok(true);
        }
        let whole = self.read_rest(host, at, have, to)?;
        Ok(whole)
    }
}
