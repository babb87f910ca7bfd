//! A standby: a file that goes on by a stream of frames.
ghost use Rattle.std.specs.Prelude.{◌≡◌, ◌+◌, ◌≤◌, ◌++◌, ◌↔◌, ℕ, IfOk, IsErrOf, IsTrue, OnErr, OnOk, Some, [], length};
ghost use Rattle.ode_host.specs.Host.{DiskCalls, LeavesOnly};
ghost use Rattle.ode_keep.specs.Entries.{Entries};
ghost use Rattle.ode_standby.specs.Courses.{next_of};
ghost use Rattle.ode_standby.specs.Feeding.{Feeds, IsLive};
ghost use Rattle.ode_standby.specs.Taking.{LeavesSome, from};
ghost use Rattle.ode_value.specs.declared.limits.TheConstants.{SCRIPT_LIMIT};

use crate::applying::{Taken, take_frames};
use crate::error::ShipError;
use crate::stream::Stream;
use ode_heap::Heap;
use ode_host::Host;
use ode_keep::Keep;
use ode_opened::Opened;
use std::alloc::Global;

/// A standby over the records of a file. It runs no action, and drains no queue.
#[derive(Drop)]
pub struct Standby<K> {
    pub heap: Heap<K>,
    pub stream: Stream,
    /// Whether no call failed.
    pub sound: bool,
    pub alloc: Global,
}

impl<K> Standby<K> {
    /// A standby over an opened file, to which nothing came.
    pub fn start(alloc: Global, opened: Opened<K>) -> Standby<K>
        ensures heap { result.heap ≡ opened.keeper }
        ensures stream { (result.stream.start ≡ 0) × (result.stream.skipped ≡ 0) × (result.stream.begun.items ≡ []) }
        ensures sound { IsTrue result.sound }
    {
        let Opened { keeper, .. } = opened;
        Standby {
            heap: Heap::new(keeper),
            stream: Stream::new(alloc),
            sound: true,
            alloc,
        }
    }

    /// Whether it may be fed: not after an error.
    pub fn live<H: Host>(&self) -> bool
    where
        K: Keep<H>,
        ensures { IsTrue result ↔ IsLive K.live self.now }
    {
        self.sound && self.heap.live::<H>()
    }

    /// How many bytes it was fed.
    pub fn taken(&self) -> u64
        ensures { result ≡ self.now.stream.start + length self.now.stream.begun.items }
    {
        self.stream.taken()
    }

    /// How many frames were skipped.
    pub fn skipped(&self) -> u64
        ensures { result ≡ self.now.stream.skipped }
    {
        self.stream.skipped
    }

    /// How many bytes of a frame that isn't whole it was fed.
    pub fn rest(&self) -> u32
        ensures { result ≡ length self.now.stream.begun.items }
    {
        self.stream.begun.len() as u32
    }

    /// Takes the next bytes of the stream: each frame that is whole is applied by one commit where it is of the next transaction, and skipped
    /// where it is of an earlier one. It answers how many were applied.
    pub fn feed<H: Host>(&mut self, host: &mut H, piece: &[u8]) -> Result<u64, ShipError>
    where
        K: Keep<H>,
        requires live { IsLive K.live self.old }
        requires small { self.old.stream.start + length self.old.stream.begun.items + length piece.now ≤ SCRIPT_LIMIT }
        ensures feeds { (most : ℕ) (entries : Entries) (next : ℕ) → ((keeper : K) → K.most keeper ≡ most) → K.holds self.old.heap (H.view host.old) entries
            → next_of entries ≡ Some next
            → Feeds most (from entries next self.old.stream.start) (self.old.stream.begun.items ++ piece.now) self.old.stream (λ after. K.holds self.new.heap (H.view host.new) after) self.new.stream result }
        ensures any_moment { (most : ℕ) (entries : Entries) (next : ℕ) → ((keeper : K) → K.most keeper ≡ most) → K.holds self.old.heap (H.view host.old) entries
            → next_of entries ≡ Some next
            → LeavesOnly (H.view host.old) (H.view host.new) (LeavesSome K.means most (from entries next self.old.stream.start) (self.old.stream.begun.items ++ piece.now) (H.view host.old)) }
        ensures taken { OnOk result (self.new.stream.start + length self.new.stream.begun.items ≡ self.old.stream.start + length self.old.stream.begun.items + length piece.now) }
        ensures few { IfOk result (λ applied. self.old.stream.start + applied ≤ self.new.stream.start) }
        ensures live { OnOk result (IsLive K.live self.new) }
        ensures dead { OnErr result (IsLive K.live self.new → ⊥) }
        ensures leaves { DiskCalls (IsErrOf result ShipError.DiskFault) (H.view host.old) (H.view host.new) }
    {
        self.sound = false;
        self.stream.extend(piece)?;
        let applied = self.take(host)?;
        self.sound = true;
        Ok(applied)
    }

    // Takes the frames of the bytes that wait.
    fn take<H: Host>(&mut self, host: &mut H) -> Result<u64, ShipError>
    where
        K: Keep<H>,
        requires live { IsTrue (K.live self.old.heap) }
        ensures feeds { (most : ℕ) (entries : Entries) (next : ℕ) → ((keeper : K) → K.most keeper ≡ most) → K.holds self.old.heap (H.view host.old) entries
            → next_of entries ≡ Some next
            → Feeds most (from entries next self.old.stream.start) self.old.stream.begun.items self.old.stream (λ after. K.holds self.new.heap (H.view host.new) after) self.new.stream result }
        ensures any_moment { (most : ℕ) (entries : Entries) (next : ℕ) → ((keeper : K) → K.most keeper ≡ most) → K.holds self.old.heap (H.view host.old) entries
            → next_of entries ≡ Some next
            → LeavesOnly (H.view host.old) (H.view host.new) (LeavesSome K.means most (from entries next self.old.stream.start) self.old.stream.begun.items (H.view host.old)) }
        ensures taken { OnOk result (self.new.stream.start + length self.new.stream.begun.items ≡ self.old.stream.start + length self.old.stream.begun.items) }
        ensures few { IfOk result (λ applied. self.old.stream.start + applied ≤ self.new.stream.start) }
        ensures usable { OnOk result (IsTrue (K.live self.new.heap)) }
        ensures sound { self.new.sound ≡ self.old.sound }
        ensures leaves { DiskCalls (IsErrOf result ShipError.DiskFault) (H.view host.old) (H.view host.new) }
    {
        let counters = self.heap.counters(self.alloc, host)?;
        let Taken {
            applied,
            skipped,
            rest,
        } = take_frames(
            self.alloc,
            &mut self.heap,
            host,
            counters.next_transaction,
            self.stream.start,
            self.stream.begun.as_slice(),
        )?;
        let count = self.stream.begun.len() - rest.len();
        self.stream.pass(self.alloc, count, skipped)?;
        Ok(applied)
    }
}
