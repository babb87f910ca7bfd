//! A standby follows a stream to its end.
ghost use Rattle.std.specs.Prelude.{◌≡◌, ◌<◌, ◌≤◌, ◌+◌, ℕ, List as Items, Err, IfOk, OnOk, Some, length};
ghost use Rattle.ode_host.specs.Causes.{RoseIf};
ghost use Rattle.ode_host.specs.Host.{DiskCalls, LeavesOnly};
ghost use Rattle.ode_keep.specs.Entries.{Entries};
ghost use Rattle.ode_standby.specs.Courses.{Course, next_of};
ghost use Rattle.ode_standby.specs.Feeding.{IsFresh, IsLive};
ghost use Rattle.ode_standby.specs.Following.{Follows, IsDiskFault, IsReadFault};
ghost use Rattle.ode_standby.specs.Taking.{LeavesSome, from};
ghost use Rattle.ode_standby.specs.Turns.{Gives, Goes, GoesFurther, HoldsNext, IsFed, IsWithin, StaysSound};
ghost use Rattle.ode_value.specs.declared.key.Key.{Key};
ghost use Rattle.ode_value.specs.declared.limits.TheConstants.{SCRIPT_LIMIT};

use crate::error::ShipError;
use crate::standby::Standby;
use ode_host::{Failed, Host, Source};
use ode_keep::Keep;
use ode_value::limits::SCRIPT_LIMIT;

// How many bytes a read asks for.
const CHUNK: usize = 4096;

/// What following a stream came to.
#[derive(Clone, Copy, Debug, PartialEq, Eq)]
pub enum Followed {
    /// The stream ended: how many frames were applied and skipped, and how many bytes of a frame were left.
    Ended {
        applied: u64,
        skipped: u64,
        rest: u32,
    },
    /// The stream has more than `ode_value::limits::SCRIPT_LIMIT` bytes.
    Long,
    /// A read failed.
    ReadFault,
    /// The standby doesn't go on.
    Stopped(ShipError),
}

// What a read gave: so many bytes of the chunk, and whether more came than a stream may have.
#[derive(Clone, Copy)]
enum Chunk {
    End,
    Failed,
    Bytes { count: usize, is_long: bool },
}

// The next bytes of a stream of which so many came.
fn next_chunk<S: Source>(source: &mut S, taken: u64, to: &mut [u8; CHUNK]) -> Chunk
    requires small { taken ≤ SCRIPT_LIMIT }
    ensures bytes { (left : Items ℕ) → S.left source.old ≡ Some left → Gives left (S.left source.new) to.new result }
    ensures within { IsWithin taken to.new result }
    ensures further { GoesFurther taken result }
    ensures cause { RoseIf (result ≡ Chunk.Failed) (S.faults source.old) (S.faults source.new) }
{
    let room = SCRIPT_LIMIT - taken as usize;
    match source.read(to) {
        Ok(count) => {
            if count == 0 {
                Chunk::End
            } else if count > room {
                Chunk::Bytes {
                    count: room,
                    is_long: true,
                }
            } else {
                Chunk::Bytes {
                    count,
                    is_long: false,
                }
            }
        }
        Err(Failed) => Chunk::Failed,
    }
}

// Feeds the next bytes. It answers how many frames were applied with them and before, or what following came to.
fn turn<H: Host, K: Keep<H>, S: Source>(
    source: &mut S,
    host: &mut H,
    standby: &mut Standby<K>,
    applied: u64,
) -> Result<u64, Followed>
    requires live { IsLive K.live standby.old }
    requires few { applied ≤ standby.old.stream.start }
    ensures goes { (most : ℕ) (c : Course) (bytes : Items ℕ) → ((keeper : K) → K.most keeper ≡ most)
        → IsFed most c bytes (S.left source.old) standby.old.stream applied (λ after. K.holds standby.old.heap (H.view host.old) after)
        → Goes most c bytes (S.left source.new) standby.new.stream (λ after. K.holds standby.new.heap (H.view host.new) after) result }
    ensures any_moment { (most : ℕ) (c : Course) (bytes : Items ℕ) → ((keeper : K) → K.most keeper ≡ most)
        → IsFed most c bytes (S.left source.old) standby.old.stream applied (λ after. K.holds standby.old.heap (H.view host.old) after)
        → LeavesOnly (H.view host.old) (H.view host.new) (LeavesSome K.means most c bytes (H.view host.old)) }
    ensures sound { (most : ℕ) → ((keeper : K) → K.most keeper ≡ most) → HoldsNext (λ after. K.holds standby.old.heap (H.view host.old) after)
        → StaysSound (λ after. K.holds standby.new.heap (H.view host.new) after) result }
    ensures live { OnOk result (IsLive K.live standby.new) }
    ensures few { IfOk result (λ sum. sum ≤ standby.new.stream.start) }
    ensures further { OnOk result (standby.old.stream.start + length standby.old.stream.begun.items < standby.new.stream.start + length standby.new.stream.begun.items) }
    ensures leaves { DiskCalls (result ≡ Err (Followed.Stopped ShipError.DiskFault)) (H.view host.old) (H.view host.new) }
    ensures reads { RoseIf (result ≡ Err Followed.ReadFault) (S.faults source.old) (S.faults source.new) }
{
    let mut chunk = [0; CHUNK];
    match next_chunk(source, standby.taken(), &mut chunk) {
        Chunk::End => Err(Followed::Ended {
            applied,
            skipped: standby.skipped(),
            rest: standby.rest(),
        }),
        Chunk::Failed => Err(Followed::ReadFault),
        Chunk::Bytes { count, is_long } => match standby.feed(host, &chunk[..count]) {
            Ok(more) => {
                if is_long {
                    Err(Followed::Long)
                } else {
                    Ok(applied + more)
                }
            }
            Err(error) => Err(Followed::Stopped(error)),
        },
    }
}

/// Feeds a standby to which nothing came with a whole stream, in whatever chunks it comes, up to the first frame that stops it. Of bytes
/// behind the last that a stream may have none is taken.
pub fn follow<H: Host, K: Keep<H>, S: Source>(
    source: &mut S,
    host: &mut H,
    standby: &mut Standby<K>,
) -> Followed
    requires live { IsLive K.live standby.old }
    requires fresh { IsFresh standby.old.stream }
    ensures follows { (most : ℕ) (entries : Entries) (next : ℕ) (bytes : Items ℕ) → ((keeper : K) → K.most keeper ≡ most) → K.holds standby.old.heap (H.view host.old) entries
        → next_of entries ≡ Some next → S.left source.old ≡ Some bytes
        → Follows most (from entries next 0) bytes (λ after. K.holds standby.new.heap (H.view host.new) after) (S.left source.new) result }
    ensures any_moment { (most : ℕ) (entries : Entries) (next : ℕ) (bytes : Items ℕ) → ((keeper : K) → K.most keeper ≡ most) → K.holds standby.old.heap (H.view host.old) entries
        → next_of entries ≡ Some next → S.left source.old ≡ Some bytes
        → LeavesOnly (H.view host.old) (H.view host.new) (LeavesSome K.means most (from entries next 0) bytes (H.view host.old)) }
    ensures sound { (most : ℕ) (entries : Entries) (next : ℕ) → ((keeper : K) → K.most keeper ≡ most) → K.holds standby.old.heap (H.view host.old) entries
        → next_of entries ≡ Some next → (key : Key) → result ≡ Followed.Stopped (ShipError.Damaged key) → ⊥ }
    ensures leaves { DiskCalls (IsDiskFault result) (H.view host.old) (H.view host.new) }
    ensures reads { RoseIf (IsReadFault result) (S.faults source.old) (S.faults source.new) }
{
    let mut applied = 0;
    'turns: loop {
        match turn(source, host, standby, applied) {
            Ok(sum) => applied = sum,
            Err(followed) => return followed,
        }
    }
}
