//! The keeper of pages.
use crate::batches::key;
use crate::disk::{TEARS, failing, stopping};
use crate::equal::equal;
use crate::images::{NEW_LEN, new_file};
use crate::store::Store;
use ode_host::Torn;
use ode_keep::{KeepError, MAX_VALUE};
use std::alloc::{AllocError, Global};
use std::process::Abort;
use std::test::Fail;

#[test]
fn a_value_is_put_found_and_removed(rt: HostRuntime) -> Result<(), Fail> {
    let mut store = Store::new(rt.alloc(), 64)?;
    equal(&rt, &store.found(1), &Ok(None));
    equal(&rt, &store.put(1, 3, 7), &Ok(()));
    equal(&rt, &store.found(1), &Ok(Some((3, 7))));
    equal(&rt, &store.least_from(2, 0), &Ok(Some(key(9, 1))));
    equal(&rt, &store.rows_from(2, 0), &Ok((Some(7), false)));
    equal(&rt, &store.queued(), &Ok(1));
    equal(&rt, &store.remove(1), &Ok(()));
    equal(&rt, &store.found(1), &Ok(None));
    equal(&rt, &store.least_from(2, 0), &Ok(None));
    equal(&rt, &store.rows_from(2, 0), &Ok((None, false)));
    equal(&rt, &store.queued(), &Ok(0));
    Ok(())
}

#[test]
fn what_is_put_stands_when_the_file_is_opened_again(rt: HostRuntime) -> Result<(), Fail> {
    let mut store = Store::new(rt.alloc(), 64)?;
    equal(&rt, &store.put(1, 3, 7), &Ok(()));
    equal(&rt, &store.put(1, 4, 8), &Ok(()));
    equal(&rt, &store.reopens(64), &true);
    equal(&rt, &store.found(1), &Ok(Some((4, 8))));
    equal(&rt, &store.remove(1), &Ok(()));
    equal(&rt, &store.reopens(64), &true);
    equal(&rt, &store.found(1), &Ok(None));
    equal(&rt, &store.least_from(0, 0), &Ok(Some(key(1, 0))));
    Ok(())
}

// What is put under which entry, and what the frame of it has: how many images, and of which page the first one is.
type Put = (u64, usize, (u32, u32));

// Page 0 has the counters, which take 66 bytes with the number of entries. A value takes 19 more than it is long.
const PUTS: &[Put] = &[
    (1, 1, (1, 0)),
    (1, 3000, (1, 0)),
    (2, 2000, (1, 1)),
    (1, MAX_VALUE, (1, 0)),
    (3, 100, (1, 1)),
    (2, MAX_VALUE, (2, 1)),
    (4, 1, (1, 0)),
];

// Puts a value, and says which pages the frame of it has.
fn put_in_pages(store: &mut Store, a: u64, size: usize) -> Option<(u32, u32)> {
    let gate = store.host.image().len().saturating_sub(1);
    match store.put(a, size, 7) {
        Ok(()) => store.frame_at(gate),
        Err(_) => None,
    }
}

fn each_is_put(rt: &impl Abort, store: &mut Store, puts: &[Put]) {
    for (a, size, pages) in puts {
        let found = put_in_pages(store, *a, *size);
        equal(rt, &(*a, *size, found), &(*a, *size, Some(*pages)));
    }
}

// Each entry, and the size of its value.
const SIZES: &[(u64, usize)] = &[(1, MAX_VALUE), (2, MAX_VALUE), (3, 100), (4, 1)];

fn each_is_found(rt: &impl Abort, store: &mut Store, sizes: &[(u64, usize)]) {
    for (a, size) in sizes {
        equal(rt, &(*a, store.found(*a)), &(*a, Ok(Some((*size, 7)))));
    }
}

// A value that has no room in its page any more goes into one that has, or else into a new one behind the others.
#[test]
fn a_value_stands_in_a_page_that_has_room(rt: HostRuntime) -> Result<(), Fail> {
    let mut store = Store::new(rt.alloc(), 64)?;
    each_is_put(&rt, &mut store, PUTS);
    each_is_found(&rt, &mut store, SIZES);
    equal(&rt, &store.reopens(64), &true);
    each_is_found(&rt, &mut store, SIZES);
    Ok(())
}

// Page 0 has 23 bytes left then, and page 1 has 3,975.
const MORE: &[Put] = &[(5, 4, (1, 0)), (6, 1, (1, 2)), (7, 3000, (1, 1))];

#[test]
fn a_keeper_that_is_started_uses_the_room_that_pages_have(rt: HostRuntime) -> Result<(), Fail> {
    let mut store = Store::new(rt.alloc(), 64)?;
    each_is_put(&rt, &mut store, PUTS);
    equal(&rt, &store.reopens(1), &true);
    each_is_put(&rt, &mut store, MORE);
    Ok(())
}

// Each value has a page of its own but for the first, which has room in page 0.
#[test]
fn a_batch_of_many_values_is_one_frame(rt: HostRuntime) -> Result<(), Fail> {
    let mut store = Store::new(rt.alloc(), 1)?;
    let gate = NEW_LEN.saturating_sub(1);
    equal(&rt, &store.put_many(0..50, 7), &Ok(()));
    equal(&rt, &store.frame_at(gate), &Some((50, 0)));
    equal(&rt, &store.queued(), &Ok(50));
    equal(&rt, &store.reopens(1), &true);
    equal(&rt, &store.found(0), &Ok(Some((MAX_VALUE, 7))));
    equal(&rt, &store.found(49), &Ok(Some((MAX_VALUE, 7))));
    equal(&rt, &store.least_from(9, 50), &Ok(None));
    Ok(())
}

// A value of one byte takes 20: so long is the image of page 0 then, behind a head of 6 and the number of images.
#[test]
fn a_commit_adds_a_frame_and_nothing_else_changes(rt: HostRuntime) -> Result<(), Fail> {
    let mut store = Store::new(rt.alloc(), 64)?;
    equal(&rt, &store.put(1, 1, 7), &Ok(()));
    let new = new_file(rt.alloc())?;
    let before = NEW_LEN.saturating_sub(1);
    let image = store.host.image();
    equal(&rt, &image.len(), &(NEW_LEN + 5 + 96));
    equal(&rt, &image.get(..before), &new.get(..before));
    equal(&rt, &image.get(before), &Some(&0xA5));
    equal(&rt, &image.last(), &Some(&0));
    Ok(())
}

// A commit on an image that stops at a call: what it answers, and what stands under the first entry behind it.
fn put_stopped(
    alloc: Global,
    image: &[u8],
    at: u64,
    torn: Torn,
) -> Result<(Result<(), KeepError>, Option<(usize, u8)>), AllocError> {
    let mut store = Store::on(alloc, stopping(alloc, image, at, torn)?, 64)?;
    let answer = store.put(1, 3000, 8);
    let left = store.host.after_stop()?;
    let mut opened = Store::on(alloc, left, 64)?;
    match opened.found(1) {
        Ok(found) => Ok((answer, found)),
        Err(_) => Err(AllocError),
    }
}

// What the value of the first entry is before a commit, and behind it.
type Change = (Option<(usize, u8)>, Option<(usize, u8)>);

// Makes a commit on this image with a stop at a call, torn in each of these ways, which cuts it. Opened again the file has what
// stood there before, or what was put.
fn stop_at(
    rt: &impl Abort,
    alloc: Global,
    image: &[u8],
    change: Change,
    at: u64,
    tears: &[Torn],
) -> Result<(), AllocError> {
    let (before, after) = change;
    for torn in tears {
        let (answer, found) = put_stopped(alloc, image, at, *torn)?;
        let expected = if found == before { before } else { after };
        equal(
            rt,
            &(at, *torn, answer, found),
            &(at, *torn, Err(KeepError::DiskFault), expected),
        );
    }
    Ok(())
}

// The numbers of the calls of an opening, and of a commit behind it.
fn calls_of(alloc: Global, image: &[u8]) -> Result<(u64, u64), AllocError> {
    let mut store = Store::of(alloc, image, 64)?;
    let opening = store.host.calls;
    match store.put(1, 3000, 8) {
        Ok(()) => Ok((opening, store.host.calls)),
        Err(_) => Err(AllocError),
    }
}

/// Makes a commit on this image with a stop at each of its calls, torn in each of these ways, and answers how many it has.
pub fn stop_everywhere(
    rt: &impl Abort,
    alloc: Global,
    image: &[u8],
    before: Option<(usize, u8)>,
    tears: &[Torn],
) -> Result<u64, AllocError> {
    let (first, end) = calls_of(alloc, image)?;
    let change = (before, Some((3000, 8)));
    for at in first..end {
        stop_at(rt, alloc, image, change, at, tears)?;
    }
    Ok(end.saturating_sub(first))
}

// A write and a sync of the frame, a write and a sync of its gate.
#[test]
fn a_commit_makes_four_calls_and_outlives_a_stop_at_each(rt: HostRuntime) -> Result<(), Fail> {
    let image = new_file(rt.alloc())?;
    let calls = stop_everywhere(&rt, rt.alloc(), &image, None, &TEARS);
    equal(&rt, &calls, &Ok(4));
    Ok(())
}

// Whether a keeper may be used behind a put, on a disk of which this call fails, just where the put is made.
fn put_failing(alloc: Global, call: u64) -> Result<bool, AllocError> {
    let image = new_file(alloc)?;
    let host = failing(alloc, &image, &[call])?;
    match Store::on(alloc, host, 64) {
        Ok(mut store) => Ok(store.put(1, 1, 7).is_ok() == store.is_live()),
        Err(_) => Ok(true),
    }
}

#[test]
fn a_fault_ends_the_use_of_a_keeper(rt: HostRuntime) {
    for call in 0..20_u64 {
        equal(
            &rt,
            &(call, put_failing(rt.alloc(), call)),
            &(call, Ok(true)),
        );
    }
}
