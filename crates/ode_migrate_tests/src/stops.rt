//! Migrations that a stop or a fault cuts short.
use crate::disk::{failing, smooth, stopping};
use crate::equal::equal;
use crate::found::{Records, found_in};
use ode_host::Torn;
use ode_migrate::{MigrateError, migrate};
use std::alloc::{AllocError, Global};
use std::process::Abort;

// What a migration answers that stops at a call, and what a file has behind it.
fn stopped(
    alloc: Global,
    image: &[u8],
    at: u64,
    torn: Torn,
) -> Result<(Result<(), MigrateError>, Option<Records>), AllocError> {
    let mut host = stopping(alloc, image, at, torn)?;
    let answer = migrate(alloc, &mut host);
    let left = host.after_stop()?;
    let found = found_in(alloc, left.image())?;
    Ok((answer, found.map(|f| f.1)))
}

// Migrates with a stop at a call, torn in each of these ways, and says whether there was such a call. The file has the same records.
fn stop_at(
    rt: &impl Abort,
    alloc: Global,
    image: &[u8],
    at: u64,
    records: Records,
    tears: &[Torn],
) -> Result<bool, AllocError> {
    for torn in tears {
        let (answer, found) = stopped(alloc, image, at, *torn)?;
        equal(rt, &(at, found), &(at, Some(records)));
        if answer.is_ok() {
            return Ok(false);
        }
        equal(rt, &answer, &Err(MigrateError::DiskFault));
    }
    Ok(true)
}

// Migrates where a call fails, and again behind that.
fn fail_at(
    rt: &impl Abort,
    alloc: Global,
    image: &[u8],
    at: u64,
    records: Records,
) -> Result<(), AllocError> {
    let mut host = failing(alloc, image, &[at])?;
    let answer = migrate(alloc, &mut host);
    equal(rt, &(at, answer), &(at, Err(MigrateError::DiskFault)));
    let mut again = smooth(alloc, host.image())?;
    equal(rt, &(at, migrate(alloc, &mut again)), &(at, Ok(())));
    let found = found_in(alloc, again.image())?;
    equal(rt, &(at, found.map(|f| f.1)), &(at, Some(records)));
    Ok(())
}

/// Migrates with a stop at each call, and answers how many there are.
pub fn stop_everywhere(
    rt: &impl Abort,
    alloc: Global,
    image: &[u8],
    records: Records,
    tears: &[Torn],
) -> Result<u64, AllocError> {
    for at in 0..100_u64 {
        if !stop_at(rt, alloc, image, at, records, tears)? {
            return Ok(at);
        }
    }
    Ok(0)
}

/// Migrates with a fault of each of so many calls.
pub fn fail_everywhere(
    rt: &impl Abort,
    alloc: Global,
    image: &[u8],
    records: Records,
    calls: u64,
) -> Result<(), AllocError> {
    for at in 0..calls {
        fail_at(rt, alloc, image, at, records)?;
    }
    Ok(())
}
