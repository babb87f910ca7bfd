//! Files of two areas.
ghost use Rattle.std.specs.Prelude.{◌≤◌, IfOk};
ghost use Rattle.ode_keep.specs.ShortValues.{HasShortValues};

use crate::disk::{patch, smooth};
use crate::equal::equal;
use crate::found::{Counting, Found, entry, found_in};
use crate::stops::stop_everywhere;
use ode_areas::Areas;
use ode_gate::{SLOT_LEN, TWO_AREAS, read_header};
use ode_host::{Host, MemHost, Torn};
use ode_keep::{Batch, Keep, KeepError, MAX_CHANGES, MAX_VALUE, StartError};
use ode_migrate::{MigrateError, migrate};
use ode_value::{Key, List};
use std::alloc::{AllocError, Global};
use std::process::Abort;
use std::test::Fail;

// A new file: one slot is open, and behind the counters' record stands a gate that is shut.
const SLOT: &[u8; 57] = b"\xA5ODEBASE1\0\0\0\x01\0\0\0\x01\0\0\0\0\0\0\0\x01\
    \0\0\0\0\0\0\x10\0\0\0\0\0\0\0\0\x40\
    \0\0\0\0\0\0\x10\x40\0\0\0\0\x02\0\x10\0";

// The key of a record and the length of its value, 45.
const COUNTERS: &[u8; 19] = b"\x01\0\0\0\0\0\0\0\0\0\0\0\0\0\0\0\0\0\x2D";

fn new_file(alloc: Global) -> Result<Vec<u8>, AllocError> {
    let mut image = vec![in alloc; 0; 4161]?;
    patch(&mut image, 0, SLOT);
    patch(&mut image, 4096, COUNTERS);
    Ok(image)
}

// A batch that puts values of this size and byte under the entries up to this one.
fn putting(alloc: Global, last: u64, size: usize, byte: u8) -> Result<Batch, AllocError>
    requires { size ≤ MAX_VALUE }
    ensures { IfOk result (λ batch. HasShortValues batch) }
{
    let mut batch = Batch::new(alloc);
    for a in 1..last {
        let value = List::from_vec(vec![in alloc; byte; size]?);
        batch.put(entry(a), value)?;
    }
    Ok(batch)
}

// The keeper of what stands on a disk.
fn start(alloc: Global, host: &mut MemHost) -> Result<Areas, StartError> {
    host.sync()?;
    let Ok(header) = read_header(host, &mut [0; SLOT_LEN]) else {
        return Err(StartError::DiskFault);
    };
    if header.layout != TWO_AREAS {
        return Err(StartError::DiskFault);
    }
    Areas::start(alloc, host, &header)
}

// Commits a batch, where the keeper may be used and the batch has few enough changes.
fn commit(host: &mut MemHost, keeper: &mut Areas, batch: &Batch) -> Result<(), KeepError>
    requires { HasShortValues batch.now }
{
    if !Keep::<MemHost>::live(keeper) || batch.len() > MAX_CHANGES {
        return Err(KeepError::DiskFault);
    }
    keeper.commit(host, batch)
}

// A file in which so many times values of this size were put under the entries before this one, and then one of a byte under the
// first of them.
fn filled(alloc: Global, times: u8, last: u64, size: usize) -> Result<Option<Vec<u8>>, AllocError>
    requires { size ≤ MAX_VALUE }
{
    let mut host = smooth(alloc, &new_file(alloc)?)?;
    let Ok(mut keeper) = start(alloc, &mut host) else {
        return Ok(None);
    };
    for byte in 0..times {
        let batch = putting(alloc, last, size, byte)?;
        if commit(&mut host, &mut keeper, &batch).is_err() {
            return Ok(None);
        }
    }
    let batch = putting(alloc, 2, 1, 7)?;
    if commit(&mut host, &mut keeper, &batch).is_err() {
        return Ok(None);
    }
    Ok(Some(host.image().to_vec(alloc)?))
}

// What an image has behind its migration.
fn migrated(alloc: Global, image: &[u8]) -> Result<Option<Found>, AllocError> {
    let mut host = smooth(alloc, image)?;
    match migrate(alloc, &mut host) {
        Ok(()) => found_in(alloc, host.image()),
        Err(_) => Ok(None),
    }
}

// The counters come first, and the value of one byte stands under the first entry.
const RECORDS: (Option<Key>, Option<(usize, u8)>) = (
    Some(Key {
        kind: 1,
        a: 0,
        b: 0,
    }),
    Some((1, 7)),
);

// A file that is filled so, with this header and its body there, gets this header.
fn becomes_pages(
    rt: &impl Abort,
    image: &Option<Vec<u8>>,
    alloc: Global,
    old: Counting,
    new: Counting,
) {
    let Some(image) = image else {
        equal(rt, &false, &true);
        return;
    };
    equal(rt, &found_in(alloc, image), &Ok(Some((old, RECORDS))));
    equal(rt, &migrated(alloc, image), &Ok(Some((new, RECORDS))));
}

#[test]
fn records_of_area_0_become_pages(rt: HostRuntime) -> Result<(), Fail> {
    let image = filled(rt.alloc(), 3, 6, 1000)?;
    let old = (1, 1, 0, 1, 4_160, 64);
    let new = (2, 2, 0, 3, 4_096, 0);
    becomes_pages(&rt, &image, rt.alloc(), old, new);
    Ok(())
}

// Eight frames of many values fit the first area: the ninth is in the second one, behind a snapshot of 4,082,752 bytes.
#[test]
fn records_of_area_1_become_pages(rt: HostRuntime) -> Result<(), Fail> {
    let image = filled(rt.alloc(), 9, 1025, MAX_VALUE)?;
    let old = (1, 1, 1, 2, 37_641_280, 4_082_752);
    let new = (2, 2, 0, 3, 4_096, 0);
    becomes_pages(&rt, &image, rt.alloc(), old, new);
    Ok(())
}

// The ways in which a stop tears what is pending: each opening reads an area, so they are few.
const TEARS: [Torn; 2] = [Torn::Whole, Torn::Fill(0xA5)];

// It reads both slots, the snapshot and the journal; moves the records by a write and a sync, and by a look, two writes and two
// syncs for the header; writes and syncs a gate, and the frame by four calls; and changes the header once more.
#[test]
fn their_migration_outlives_a_stop_at_each_call(rt: HostRuntime) -> Result<(), Fail> {
    let image = filled(rt.alloc(), 1, 3, 10)?;
    let Some(image) = image else {
        return Ok(());
    };
    let calls = stop_everywhere(&rt, rt.alloc(), &image, RECORDS, &TEARS);
    equal(&rt, &calls, &Ok(25));
    Ok(())
}

#[test]
fn a_file_that_isn_t_what_it_was_is_refused(rt: HostRuntime) -> Result<(), Fail> {
    let mut image = new_file(rt.alloc())?;
    patch(&mut image, 4_114, &[0x2E]);
    let mut host = smooth(rt.alloc(), &image)?;
    let refused = Err(MigrateError::Changed { at: 4_096 });
    equal(&rt, &migrate(rt.alloc(), &mut host), &refused);
    equal(&rt, &(host.image() == image.as_slice()), &true);
    Ok(())
}
