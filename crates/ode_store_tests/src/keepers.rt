//! The keeper of two areas.
ghost use Rattle.std.specs.Prelude.{◌≤◌, IfOk};
ghost use Rattle.ode_keep.specs.ShortValues.{HasShortValues};

use crate::disk::{TEARS, failing, smooth, stopping};
use crate::equal::equal;
use ode_areas::Areas;
use ode_gate::{SLOT_LEN, read_header};
use ode_host::{Host, MemHost, Torn};
use ode_keep::{Batch, Keep, KeepError, MAX_CHANGES, MAX_VALUE, StartError};
use ode_value::{Key, List};
use std::alloc::{AllocError, Global};
use std::ops::Range;
use std::process::Abort;
use std::test::Fail;

// A new file: one slot is open, and behind the counters' record stands a gate that is shut.
const SLOT: &[u8; 57] = b"\xA5ODEBASE1\0\0\0\x01\0\0\0\x01\0\0\0\0\0\0\0\x01\
    \0\0\0\0\0\0\x10\0\0\0\0\0\0\0\0\x40\
    \0\0\0\0\0\0\x10\x40\0\0\0\0\x02\0\x10\0";

// The key of a record and the length of its value, 45.
const COUNTERS: &[u8; 19] = b"\x01\0\0\0\0\0\0\0\0\0\0\0\0\0\0\0\0\0\x2D";

fn new_file(alloc: Global) -> Result<Vec<u8>, AllocError> {
    let mut image = vec![in alloc; 0; 4161]?;
    crate::disk::patch(&mut image, 0, SLOT);
    crate::disk::patch(&mut image, 4096, COUNTERS);
    Ok(image)
}

// A file made by hand: the first 516 records of kind 9 fill its first area up to 4,628 bytes behind their snapshot.
fn full_file(alloc: Global) -> Result<Vec<u8>, AllocError> {
    let mut image = vec![in alloc; 0; 33_553_901]?;
    crate::disk::patch(&mut image, 0, SLOT);
    crate::disk::patch(&mut image, 33, &33_549_804_u64.to_be_bytes());
    crate::disk::patch(&mut image, 41, &33_553_900_u64.to_be_bytes());
    let mut at = 4_096_usize;
    for a in 0..516_u64 {
        crate::disk::patch(&mut image, at, &[9]);
        crate::disk::patch(&mut image, at.saturating_add(1), &a.to_be_bytes());
        crate::disk::patch(&mut image, at.saturating_add(17), &65_000_u16.to_be_bytes());
        at = at.saturating_add(65_019);
    }
    Ok(image)
}

fn key(kind: u8, a: u64) -> Key {
    Key { kind, a, b: 0 }
}

// A batch that puts one byte under a key.
fn putting(alloc: Global, key: Key, byte: u8) -> Result<Batch, AllocError>
    ensures { IfOk result (λ batch. HasShortValues batch) }
{
    let value = List::from_slice(alloc, &[byte])?;
    let mut batch = Batch::new(alloc);
    batch.put(key, value)?;
    Ok(batch)
}

// A batch that removes what stands under a key.
fn removing(alloc: Global, key: Key) -> Result<Batch, AllocError>
    ensures { IfOk result (λ batch. HasShortValues batch) }
{
    let mut batch = Batch::new(alloc);
    batch.remove(key)?;
    Ok(batch)
}

// A batch that removes what stands under so many keys.
fn removing_many(alloc: Global, count: u64) -> Result<Batch, AllocError>
    ensures { IfOk result (λ batch. HasShortValues batch) }
{
    let mut batch = Batch::new(alloc);
    for a in 0..count {
        batch.remove(key(9, a))?;
    }
    Ok(batch)
}

// A batch that puts so many values of this size, each of this byte.
fn putting_many(alloc: Global, count: u64, size: usize, byte: u8) -> Result<Batch, AllocError>
    requires { size ≤ MAX_VALUE }
    ensures { IfOk result (λ batch. HasShortValues batch) }
{
    let mut batch = Batch::new(alloc);
    for a in 0..count {
        let value = List::from_vec(vec![in alloc; byte; size]?);
        batch.put(key(9, a), value)?;
    }
    Ok(batch)
}

// The keeper of what stands on a disk, after a sync.
fn start(alloc: Global, host: &mut MemHost) -> Result<Areas, StartError> {
    host.sync()?;
    let Ok(header) = read_header(host, &mut [0; SLOT_LEN]) else {
        return Err(StartError::DiskFault);
    };
    if header.layout != 1 {
        return Err(StartError::DiskFault);
    }
    Areas::start(alloc, host, &header)
}

// A disk and the keeper of what stands on it.
#[derive(Drop)]
struct Store {
    alloc: Global,
    keeper: Areas,
    host: MemHost,
}

impl Store {
    fn on(alloc: Global, mut host: MemHost) -> Result<Store, AllocError> {
        match start(alloc, &mut host) {
            Ok(keeper) => Ok(Store {
                alloc,
                keeper,
                host,
            }),
            Err(_) => Err(AllocError),
        }
    }

    // A new file, on which no call fails.
    fn new(alloc: Global) -> Result<Store, AllocError> {
        Store::on(alloc, smooth(alloc, &new_file(alloc)?)?)
    }

    // Whether the same file is opened again.
    fn reopens(&mut self) -> bool {
        let Ok(host) = smooth(self.alloc, self.host.image()) else {
            return false;
        };
        let Ok(store) = Store::on(self.alloc, host) else {
            return false;
        };
        *self = store;
        true
    }

    fn is_live(&self) -> bool {
        Keep::<MemHost>::live(&self.keeper)
    }

    // Commits a batch, where the keeper may be used and the batch has few enough changes.
    fn commit(&mut self, batch: &Batch) -> Result<(), KeepError>
        requires { HasShortValues batch.now }
    {
        if !Keep::<MemHost>::live(&self.keeper) || batch.len() > 1_024 {
            return Err(KeepError::DiskFault);
        }
        self.keeper.commit(&mut self.host, batch)
    }

    fn put(&mut self, a: u64, byte: u8) -> Result<(), KeepError> {
        let batch = putting(self.alloc, key(9, a), byte)?;
        self.commit(&batch)
    }

    fn remove(&mut self, a: u64) -> Result<(), KeepError> {
        let batch = removing(self.alloc, key(9, a))?;
        self.commit(&batch)
    }

    // 1,024 values of 3,968 bytes.
    fn put_many(&mut self, byte: u8) -> Result<(), KeepError> {
        let batch = putting_many(self.alloc, MAX_CHANGES as u64, MAX_VALUE, byte)?;
        self.commit(&batch)
    }

    // The first byte of what stands under a key.
    fn first_byte(&mut self, a: u64) -> Result<Option<u8>, KeepError> {
        if !Keep::<MemHost>::live(&self.keeper) {
            return Err(KeepError::DiskFault);
        }
        let found = self.keeper.get(&mut self.host, key(9, a))?;
        Ok(found.and_then(|value| value.as_slice().first().copied()))
    }

    fn least_from(&mut self, kind: u8, a: u64) -> Result<Option<Key>, KeepError> {
        if !Keep::<MemHost>::live(&self.keeper) {
            return Err(KeepError::DiskFault);
        }
        self.keeper.keys_from(&mut self.host, key(kind, a))
    }

    // The first byte of the first value at or above a key.
    fn first_byte_from(&mut self, kind: u8, a: u64) -> Result<Option<u8>, KeepError> {
        if !Keep::<MemHost>::live(&self.keeper) {
            return Err(KeepError::DiskFault);
        }
        let rows = self.keeper.rows_from(&mut self.host, key(kind, a))?;
        let first = rows.reader().next();
        Ok(first.and_then(|record| record.1.first().copied()))
    }

    // The slot and the generation of the header that counts, and where its area starts.
    fn counting(&mut self) -> Option<(u8, u64, u64)> {
        match read_header(&mut self.host, &mut [0; SLOT_LEN]) {
            Ok(header) => Some((header.slot, header.generation, header.body_at)),
            Err(_) => None,
        }
    }

    // Commits batches of many values, whose bytes count up from a number, and says which header counts then.
    fn filled(&mut self, bytes: Range<u8>) -> Option<(u8, u64, u64)> {
        for byte in bytes {
            if self.put_many(byte).is_err() {
                return None;
            }
        }
        self.counting()
    }

    // What stands under the first key after its stop, once the file is opened again.
    fn first_left(self) -> Result<Option<u8>, AllocError> {
        let Store { alloc, host, .. } = self;
        first_of(alloc, host.after_stop()?)
    }
}

fn first_of(alloc: Global, host: MemHost) -> Result<Option<u8>, AllocError> {
    let mut store = Store::on(alloc, host)?;
    match store.first_byte(0) {
        Ok(found) => Ok(found),
        Err(_) => Err(AllocError),
    }
}

#[test]
fn a_value_is_put_found_and_removed(rt: HostRuntime) -> Result<(), Fail> {
    let mut store = Store::new(rt.alloc())?;
    equal(&rt, &store.first_byte(1), &Ok(None));
    equal(&rt, &store.put(1, 7), &Ok(()));
    equal(&rt, &store.first_byte(1), &Ok(Some(7)));
    equal(&rt, &store.least_from(2, 0), &Ok(Some(key(9, 1))));
    equal(&rt, &store.least_from(9, 2), &Ok(None));
    equal(&rt, &store.first_byte_from(2, 0), &Ok(Some(7)));
    equal(&rt, &store.first_byte_from(9, 2), &Ok(None));
    Ok(())
}

#[test]
fn what_is_put_stands_when_the_file_is_opened_again(rt: HostRuntime) -> Result<(), Fail> {
    let mut store = Store::new(rt.alloc())?;
    equal(&rt, &store.put(1, 7), &Ok(()));
    equal(&rt, &store.put(1, 8), &Ok(()));
    equal(&rt, &store.reopens(), &true);
    equal(&rt, &store.first_byte(1), &Ok(Some(8)));
    equal(&rt, &store.remove(1), &Ok(()));
    equal(&rt, &store.first_byte(1), &Ok(None));
    equal(&rt, &store.least_from(2, 0), &Ok(None));
    equal(&rt, &store.least_from(0, 0), &Ok(Some(key(1, 0))));
    equal(&rt, &store.host.refused(), &0);
    Ok(())
}

// What a commit does to an image: the byte that it leaves under the first key.
#[derive(Clone, Copy)]
enum Step {
    One(u8),
    Many(u8),
}

impl Step {
    fn byte(&self) -> u8 {
        match self {
            Step::One(byte) | Step::Many(byte) => *byte,
        }
    }

    fn commit(&self, store: &mut Store) -> Result<(), KeepError> {
        match self {
            Step::One(byte) => store.put(0, *byte),
            Step::Many(byte) => store.put_many(*byte),
        }
    }
}

// Where a stop comes: before a step begins, at one of its calls, or behind it.
enum Place {
    Before,
    During,
    Behind,
}

// A step on this image that stops at a call: what it answers, if it begins, and what stands under the first key behind it.
fn step_stopped(
    alloc: Global,
    image: &[u8],
    step: Step,
    at: u64,
    torn: Torn,
) -> Result<Option<(Result<(), KeepError>, Option<u8>)>, AllocError> {
    let host = stopping(alloc, image, at, torn)?;
    let Ok(mut store) = Store::on(alloc, host) else {
        return Ok(None);
    };
    let answer = step.commit(&mut store);
    Ok(Some((answer, store.first_left()?)))
}

// Makes a step on this image with a stop at a call, torn in each of these ways. Opened again the file has what stood there
// before, or what the step put.
fn stop_at(
    rt: &impl Abort,
    alloc: Global,
    image: &[u8],
    step: Step,
    before: Option<u8>,
    at: u64,
    tears: &[Torn],
) -> Result<Place, AllocError> {
    let after = Some(step.byte());
    for torn in tears {
        let Some((answer, found)) = step_stopped(alloc, image, step, at, *torn)? else {
            return Ok(Place::Before);
        };
        if answer.is_ok() {
            equal(rt, &(at, found), &(at, after));
            return Ok(Place::Behind);
        }
        let expected = if found == before { before } else { after };
        equal(
            rt,
            &(at, answer, found),
            &(at, Err(KeepError::DiskFault), expected),
        );
    }
    Ok(Place::During)
}

// Makes a step with a stop at each of its calls from this one on, torn in each of these ways, and answers how many it has.
fn stop_everywhere(
    rt: &impl Abort,
    alloc: Global,
    image: &[u8],
    step: Step,
    before: Option<u8>,
    first: u64,
    tears: &[Torn],
) -> Result<u64, AllocError> {
    let mut calls = 0_u64;
    for at in first..100 {
        match stop_at(rt, alloc, image, step, before, at, tears)? {
            Place::Before => {}
            Place::During => calls = calls.saturating_add(1),
            Place::Behind => return Ok(calls),
        }
    }
    Ok(0)
}

// A write and a sync of the frame, a write and a sync of its gate.
#[test]
fn a_commit_makes_four_calls_and_outlives_a_stop_at_each(rt: HostRuntime) -> Result<(), Fail> {
    let image = new_file(rt.alloc())?;
    let calls = stop_everywhere(&rt, rt.alloc(), &image, Step::One(7), None, 0, &TEARS);
    equal(&rt, &calls, &Ok(4));
    Ok(())
}

// Whether a keeper may be used behind a put, on a disk of which this call fails, just where the put is made.
fn put_failing(alloc: Global, call: u64) -> Result<bool, AllocError> {
    let image = new_file(alloc)?;
    let host = failing(alloc, &image, &[call])?;
    match Store::on(alloc, host) {
        Ok(mut store) => Ok(store.put(1, 7).is_ok() == store.is_live()),
        Err(_) => Ok(true),
    }
}

#[test]
fn a_fault_ends_the_use_of_a_keeper(rt: HostRuntime) {
    for call in 0..20_u64 {
        equal(
            &rt,
            &(call, put_failing(rt.alloc(), call)),
            &(call, Ok(true)),
        );
    }
}

// Eight frames of many values fit the first area. Behind the snapshot in the second one seven do.
#[test]
fn records_go_over_to_the_other_area_and_back(rt: HostRuntime) -> Result<(), Fail> {
    let mut store = Store::new(rt.alloc())?;
    equal(&rt, &store.filled(0..8), &Some((0, 1, 4096)));
    equal(&rt, &store.filled(8..15), &Some((1, 2, 33_558_528)));
    equal(&rt, &store.filled(15..17), &Some((0, 3, 4096)));
    equal(&rt, &store.reopens(), &true);
    equal(&rt, &store.first_byte(1023), &Ok(Some(16)));
    equal(&rt, &store.least_from(9, 1024), &Ok(None));
    equal(&rt, &store.least_from(0, 0), &Ok(Some(key(1, 0))));
    Ok(())
}

// The frame of 300 removals takes 5,410 bytes, so it has a place neither in the journal nor behind a snapshot of what is
// there. The records that it leaves stand in a snapshot then.
#[test]
fn a_frame_without_a_place_comes_in_as_a_snapshot(rt: HostRuntime) -> Result<(), Fail> {
    let image = full_file(rt.alloc())?;
    let mut store = Store::on(rt.alloc(), smooth(rt.alloc(), &image)?)?;
    let batch = removing_many(rt.alloc(), 300)?;
    equal(&rt, &store.commit(&batch), &Ok(()));
    equal(&rt, &store.counting(), &Some((1, 2, 33_558_528)));
    equal(&rt, &store.least_from(9, 0), &Ok(Some(key(9, 300))));
    equal(&rt, &store.reopens(), &true);
    equal(&rt, &store.least_from(9, 0), &Ok(Some(key(9, 300))));
    equal(&rt, &store.put(0, 7), &Ok(()));
    equal(&rt, &store.first_byte(0), &Ok(Some(7)));
    Ok(())
}

// The call behind the opening of a file with eight frames: a sync, both slots, the snapshot, two reads for each frame, and two
// for the last gate.
const OPENED: u64 = 22;

// A checkpoint writes and syncs the snapshot, looks at the other slot's gate, writes and syncs its header and its gate, and
// adds the frame by four calls more. Each stop reads a whole area twice, so there are few in a test.
fn checkpoint_stopped(rt: &impl Abort, alloc: Global, tears: &[Torn]) -> Result<(), AllocError> {
    let mut store = Store::new(alloc)?;
    equal(rt, &store.filled(0..8), &Some((0, 1, 4096)));
    let image = store.host.image();
    let calls = stop_everywhere(rt, alloc, image, Step::Many(8), Some(7), OPENED, tears);
    equal(rt, &calls, &Ok(11));
    Ok(())
}

#[test]
fn a_checkpoint_outlives_a_stop_that_loses_what_is_pending(rt: HostRuntime) -> Result<(), Fail> {
    checkpoint_stopped(&rt, rt.alloc(), &[Torn::Nothing])?;
    Ok(())
}

#[test]
fn a_checkpoint_outlives_a_stop_that_keeps_what_is_pending(rt: HostRuntime) -> Result<(), Fail> {
    checkpoint_stopped(&rt, rt.alloc(), &[Torn::Whole])?;
    Ok(())
}

#[test]
fn a_checkpoint_outlives_a_stop_that_cuts_what_is_pending(rt: HostRuntime) -> Result<(), Fail> {
    checkpoint_stopped(&rt, rt.alloc(), &[Torn::Front(1)])?;
    Ok(())
}

#[test]
fn a_checkpoint_outlives_a_stop_that_spoils_what_is_pending(rt: HostRuntime) -> Result<(), Fail> {
    checkpoint_stopped(&rt, rt.alloc(), &[Torn::Fill(0xA5)])?;
    Ok(())
}
