//! The frames of some bytes are taken, one behind the other.
ghost use Rattle.std.specs.Prelude.{◌≡◌, ◌⊎◌, ◌+◌, ◌-◌, ◌<◌, ◌≤◌, ◌^◌, ℕ, IfErr, IfOk, IsErrOf, IsTrue, Some, length};
ghost use Rattle.ode_host.specs.Host.{DiskCalls, LeavesOnly};
ghost use Rattle.ode_keep.specs.Entries.{Entries};
ghost use Rattle.ode_standby.specs.Courses.{Course, next_of, step};
ghost use Rattle.ode_standby.specs.Failing.{is_usable};
ghost use Rattle.ode_ship.specs.Frames.{Frame, IsFrame, IsPayloadOf};
ghost use Rattle.ode_standby.specs.Taking.{LeavesSome, LeavesStep, Takes, TakesOne, from};
ghost use Rattle.ode_value.specs.declared.limits.TheConstants.{SCRIPT_LIMIT};

use crate::error::ShipError;
use ode_heap::Heap;
use ode_host::Host;
use ode_keep::Keep;
use ode_ship::{Cut, Shipped, first_frame, read_payload};
use std::alloc::Global;

/// How many frames were applied and skipped, and what stands behind them.
#[derive(Clone, Copy, Debug)]
pub(crate) struct Taken<'a> {
    pub applied: u64,
    pub skipped: u64,
    pub rest: &'a [u8],
}

// A frame is applied by one commit where it is of the next transaction, and skipped where it is of an earlier one. It answers whether it
// was applied.
fn take_frame<H: Host, K: Keep<H>>(
    heap: &mut Heap<K>,
    host: &mut H,
    next: u64,
    shipped: &Shipped,
) -> Result<bool, ShipError>
    requires live { IsTrue (K.live heap.old) }
    requires form { IsFrame (shipped.now.number, shipped.now.batch) }
    ensures takes { (most : ℕ) (c : Course) → ((keeper : K) → K.most keeper ≡ most) → K.holds heap.old (H.view host.old) c.entries → next ≡ c.next
        → TakesOne (step most c (shipped.now.number, shipped.now.batch)) c (shipped.now.number, shipped.now.batch) (λ after. K.holds heap.new (H.view host.new) after) result }
    ensures any_moment { (c : Course) → K.holds heap.old (H.view host.old) c.entries → next ≡ c.next
        → LeavesOnly (H.view host.old) (H.view host.new) (LeavesStep K.means c (shipped.now.number, shipped.now.batch) (H.view host.old)) }
    ensures applied { IfOk result (λ done. IsTrue done → next ≡ shipped.now.number) }
    ensures usable { K.live heap.new ≡ is_usable result }
    ensures leaves { DiskCalls (IsErrOf result ShipError.DiskFault) (H.view host.old) (H.view host.new) }
{
    if shipped.number < next {
        return Ok(false);
    }
    if next < shipped.number {
        return Err(ShipError::Gap {
            found: shipped.number,
            next,
        });
    }
    heap.stage(host, &shipped.batch)?;
    Ok(true)
}

// The place of a rest in the stream, of bytes that begin at this place.
fn place(start: u64, bytes: &[u8], rest: &[u8]) -> u64
    requires behind { length rest.now ≤ length bytes.now }
    requires small { start + length bytes.now ≤ SCRIPT_LIMIT }
    ensures { result ≡ start + (length bytes.now - length rest.now) }
{
    start + (bytes.len() - rest.len()) as u64
}

// The frame of a payload that is there whole.
fn frame_of(alloc: Global, payload: &[u8], at: u64) -> Result<Shipped, ShipError>
    ensures some { IfOk result (λ s. IsPayloadOf (s.number, s.batch) payload.now × (s.number + 1 < 2 ^ 64)) }
    ensures none { IfErr result (λ error. (error ≡ ShipError.Memory) ⊎ ((error ≡ ShipError.BadFrame at) × ((f : Frame) → IsPayloadOf f payload.now → ⊥))) }
{
    match read_payload(alloc, payload)? {
        Some(shipped) => Ok(shipped),
        None => Err(ShipError::BadFrame { at }),
    }
}

/// Takes the frames that some bytes begin with, of which the first begins at this place of the stream. The number is that of the
/// file's next transaction.
pub(crate) fn take_frames<'a, H: Host, K: Keep<H>>(
    alloc: Global,
    heap: &mut Heap<K>,
    host: &mut H,
    number: u64,
    start: u64,
    bytes: &'a [u8],
) -> Result<Taken<'a>, ShipError>
    requires live { IsTrue (K.live heap.old) }
    requires small { start + length bytes.now ≤ SCRIPT_LIMIT }
    ensures takes { (most : ℕ) (entries : Entries) → ((keeper : K) → K.most keeper ≡ most) → K.holds heap.old (H.view host.old) entries → next_of entries ≡ Some number
        → Takes most (from entries number start) bytes.now (λ after. K.holds heap.new (H.view host.new) after) result }
    ensures any_moment { (most : ℕ) (entries : Entries) → ((keeper : K) → K.most keeper ≡ most) → K.holds heap.old (H.view host.old) entries → next_of entries ≡ Some number
        → LeavesOnly (H.view host.old) (H.view host.new) (LeavesSome K.means most (from entries number start) bytes.now (H.view host.old)) }
    ensures few { IfOk result (λ taken. taken.applied + taken.skipped + length taken.rest.now ≤ length bytes.now) }
    ensures usable { K.live heap.new ≡ is_usable result }
    ensures leaves { DiskCalls (IsErrOf result ShipError.DiskFault) (H.view host.old) (H.view host.new) }
{
    let mut next = number;
    let mut applied: u64 = 0;
    let mut skipped: u64 = 0;
    let mut rest = bytes;
    'frames: loop {
        match first_frame(rest) {
            Cut::Begun => {
                return Ok(Taken {
                    applied,
                    skipped,
                    rest,
                });
            }
            Cut::NoLength => {
                return Err(ShipError::BadFrame {
                    at: place(start, bytes, rest),
                });
            }
            Cut::Whole {
                payload,
                rest: behind,
            } => {
                let shipped = frame_of(alloc, payload, place(start, bytes, rest))?;
                if take_frame(heap, host, next, &shipped)? {
                    applied += 1;
                    next += 1;
                } else {
                    skipped += 1;
                }
                rest = behind;
            }
        }
    }
}
