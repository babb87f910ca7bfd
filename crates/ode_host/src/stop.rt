//! What a stop leaves of the pending writes.
ghost use Rattle.std.specs.Prelude.{◌≡◌, ◌+◌, ◌<◌, ◌^◌, List, ℕ, [], length, OnOk, IfOk};
ghost use Rattle.ode_host.specs.Host.{written_over};
ghost use Rattle.ode_host.specs.Pending.{IsLastSync, IsQuietFrom, Tears};
ghost use Rattle.ode_host.specs.Replay.{HostState, after, disk_after, step};
ghost use Rattle.ode_host.specs.Tears.{torn_behind, torn_image, torn_over};

use crate::call::Call;
use crate::image::overwrite;
use std::alloc::{AllocError, Global};

/// What the pending writes left on the disk when the host stopped.
#[derive(Clone, Copy, Debug, PartialEq, Eq)]
pub enum Torn {
    /// None of their bytes.
    Nothing,
    /// All of their bytes.
    Whole,
    /// So many of their bytes, counted through the writes in the order in which they were made.
    Front(u64),
    /// This byte in place of each of theirs.
    Fill(u8),
}

impl Torn {
    // How it goes on behind so many bytes.
    fn behind(self, bytes: usize) -> Torn
        ensures { result ≡ torn_behind self bytes }
    {
        match self {
            Torn::Front(count) => Torn::Front(count.saturating_sub(bytes as u64)),
            Torn::Nothing | Torn::Whole | Torn::Fill(_) => self,
        }
    }
}

// Where the calls behind the last sync begin.
fn last_sync(calls: &[Call]) -> usize
    ensures { IsLastSync result calls.now }
{
    let mut last = 0;
    for (i, call) in calls.iter().enumerate() {
        if let Call::Sync = call {
            last = i + 1;
        }
    }
    last
}

fn overwrite_checked(held: &mut Vec<u8>, at: u64, bytes: &[u8]) -> Result<(), AllocError>
    ensures { OnOk result (held.new.items ≡ written_over held.old.items at bytes.now) }
{
    if at.checked_add(bytes.len() as u64).is_none() {
        return Err(AllocError);
    }
    overwrite(held, at as usize, bytes)
}

fn write_front(held: &mut Vec<u8>, at: u64, bytes: &[u8], count: u64) -> Result<(), AllocError>
    ensures { OnOk result (held.new.items ≡ torn_over (Torn.Front count) held.old.items (at, bytes.now)) }
{
    if count == 0 {
        return Ok(());
    }
    let front = bytes.len().min(count as usize);
    overwrite_checked(held, at, &bytes[..front])
}

fn tear(
    alloc: Global,
    held: &mut Vec<u8>,
    at: u64,
    bytes: &[u8],
    torn: Torn,
) -> Result<(), AllocError>
    ensures { OnOk result (held.new.items ≡ torn_over torn held.old.items (at, bytes.now)) }
{
    match torn {
        Torn::Nothing => Ok(()),
        Torn::Whole => overwrite_checked(held, at, bytes),
        Torn::Front(count) => write_front(held, at, bytes, count),
        Torn::Fill(byte) => {
            let filled = vec![in alloc; byte; bytes.len()]?;
            overwrite_checked(held, at, &filled)
        }
    }
}

// Takes a call that no sync follows to what is held.
fn tear_call(alloc: Global, held: &mut Vec<u8>, call: &Call, torn: Torn) -> Result<Torn, AllocError>
    ensures { IfOk result (λ rest. Tears call.now torn rest held.old.items held.new.items) }
{
    match call {
        Call::Write(at, bytes) => {
            tear(alloc, held, *at, bytes, torn)?;
            Ok(torn.behind(bytes.len()))
        }
        Call::Sync | Call::Begin(_) | Call::End => Ok(torn),
    }
}

// Takes a call that a sync follows to what is held.
fn keep_call(held: &mut Vec<u8>, call: &Call) -> Result<(), AllocError>
    ensures { OnOk result ((s : HostState) → s.disk.image ≡ held.old.items → (step s call.now).disk.image ≡ held.new.items) }
{
    match call {
        Call::Write(at, bytes) => overwrite_checked(held, *at, bytes),
        Call::Sync | Call::Begin(_) | Call::End => Ok(()),
    }
}

// The disk as it reads after these calls.
fn image_after(alloc: Global, start: &[u8], calls: &[Call]) -> Result<Vec<u8>, AllocError>
    ensures { IfOk result (λ held. held.items ≡ (disk_after start.now calls.now).image) }
{
    let mut held = start.to_vec(alloc)?;
    for call in calls {
        keep_call(&mut held, call)?;
    }
    Ok(held)
}

// What is left of what is held after these calls, which no sync follows.
fn torn_after(
    alloc: Global,
    held: &mut Vec<u8>,
    calls: &[Call],
    torn: Torn,
) -> Result<(), AllocError>
    requires { IsQuietFrom 0 calls.now }
    ensures { OnOk result ((s : HostState) → s.disk.pending ≡ [] → s.disk.synced ≡ held.old.items
        → held.new.items ≡ torn_image torn (after calls.now s).disk.synced (after calls.now s).disk.pending) }
{
    let mut torn = torn;
    for call in calls {
        torn = tear_call(alloc, held, call, torn)?;
    }
    Ok(())
}

/// The image that a stop after these calls leaves.
pub fn held_after(
    alloc: Global,
    start: &[u8],
    calls: &[Call],
    torn: Torn,
) -> Result<Vec<u8>, AllocError>
    ensures { IfOk result (λ held. held.items ≡ torn_image torn (disk_after start.now calls.now).synced (disk_after start.now calls.now).pending) }
{
    let last = last_sync(calls);
    let mut held = image_after(alloc, start, &calls[..last])?;
    torn_after(alloc, &mut held, &calls[last..], torn)?;
    Ok(held)
}
