//! Journals that are full, and files that are.
use crate::batches::key;
use crate::equal::equal;
use crate::images::{LAST, LAST_SIZE, full_file, worn_again_file, worn_file};
use crate::keepers::stop_everywhere;
use crate::store::{Counting, Store};
use ode_host::Torn;
use ode_keep::MAX_RECORD_BYTES;
use std::process::Abort;
use std::test::Fail;

// A commit on a file whose journal is full: the header that counts before it, and the one behind it.
fn goes_over(rt: &impl Abort, store: &mut Store, before: Counting, behind: Counting) {
    equal(rt, &store.counting(), &Some(before));
    equal(rt, &store.found(1), &Ok(Some((1, 0))));
    equal(rt, &store.put(2, 300, 7), &Ok(()));
    equal(rt, &store.counting(), &Some(behind));
    equal(rt, &store.reopens(64), &true);
    equal(rt, &store.found(1), &Ok(Some((1, 0))));
    equal(rt, &store.found(2), &Ok(Some((300, 7))));
    equal(rt, &store.least_from(0, 0), &Ok(Some(key(9, 1))));
    equal(rt, &store.put(3, 1, 9), &Ok(()));
    equal(rt, &store.counting(), &Some(behind));
}

const IN_REGION_0: Counting = (0, 1, 4096, 0);

const IN_REGION_1: Counting = (1, 2, 16_781_312, 1);

const BACK_IN_REGION_0: Counting = (0, 3, 4096, 1);

#[test]
fn the_journal_goes_over_to_the_other_region(rt: HostRuntime) -> Result<(), Fail> {
    let mut store = Store::of(rt.alloc(), &worn_file(rt.alloc())?, 64)?;
    goes_over(&rt, &mut store, IN_REGION_0, IN_REGION_1);
    Ok(())
}

#[test]
fn the_journal_goes_back(rt: HostRuntime) -> Result<(), Fail> {
    let mut store = Store::of(rt.alloc(), &worn_again_file(rt.alloc())?, 64)?;
    goes_over(&rt, &mut store, IN_REGION_1, BACK_IN_REGION_0);
    Ok(())
}

// The ways in which a checkpoint's stop tears what is pending: each opening reads a whole region, so they are few.
const TEARS: [Torn; 2] = [Torn::Whole, Torn::Fill(0xA5)];

// A checkpoint writes and syncs the one page, and the first gate of the other region, looks at the other slot's gate, writes and
// syncs its header and its gate, and adds the frame by four calls more.
#[test]
fn a_checkpoint_outlives_a_stop_at_each_call(rt: HostRuntime) -> Result<(), Fail> {
    let image = worn_file(rt.alloc())?;
    let calls = stop_everywhere(&rt, rt.alloc(), &image, Some((1, 0)), &TEARS);
    equal(&rt, &calls, &Ok(13));
    Ok(())
}

// The bytes of the records, and what stands under the last entry.
fn is_full(rt: &impl Abort, store: &mut Store) {
    equal(rt, &store.keeper.bytes(), &MAX_RECORD_BYTES);
    let size = usize::from(LAST_SIZE);
    equal(rt, &store.found(u64::from(LAST)), &Ok(Some((size, 0))));
}

#[test]
fn pages_take_more_records_than_two_areas(rt: HostRuntime) -> Result<(), Fail> {
    let mut store = Store::of(rt.alloc(), &full_file(rt.alloc())?, 64)?;
    is_full(&rt, &mut store);
    let size = usize::from(LAST_SIZE).saturating_add(1);
    let last = u64::from(LAST);
    equal(&rt, &store.put(last, size, 3), &Ok(()));
    equal(&rt, &store.found(last), &Ok(Some((size, 3))));
    equal(&rt, &store.keeper.bytes(), &(MAX_RECORD_BYTES + 1));
    Ok(())
}
