//! How much is read for a value, and which pages are in memory then.
use crate::batches::key;
use crate::equal::equal;
use crate::images::placed_file;
use crate::store::Store;
use std::process::Abort;
use std::test::Fail;

// So many bytes has a page.
const PAGE: u64 = 4096;

// An entry, and how many bytes are read for it.
type Get = (u64, u64);

// Room for so many pages in memory, and what is got one after the other.
type Row = (u32, &'static [Get]);

// Each entry stands in the page of its number, and there is no page 3.
const ROWS: &[Row] = &[
    (0, &[(0, PAGE), (0, PAGE), (1, PAGE), (3, 0)]),
    (
        1,
        &[
            (0, PAGE),
            (0, 0),
            (1, PAGE),
            (1, 0),
            (0, PAGE),
            (3, 0),
            (0, 0),
        ],
    ),
    (
        2,
        &[
            (0, PAGE),
            (1, PAGE),
            (0, 0),
            (2, PAGE),
            (0, 0),
            (1, PAGE),
            (2, PAGE),
        ],
    ),
    (
        64,
        &[
            (0, PAGE),
            (1, PAGE),
            (2, PAGE),
            (0, 0),
            (1, 0),
            (2, 0),
            (3, 0),
        ],
    ),
];

// How many bytes a get reads, where it finds what stands under the entry.
fn read_for(store: &mut Store, a: u64) -> Option<u64> {
    let before = store.host.fetched;
    let found = store.found(a);
    let expected = if a < 3 { Some((a as usize, 0)) } else { None };
    if found != Ok(expected) {
        return None;
    }
    Some(store.host.fetched.saturating_sub(before))
}

fn each_reads(rt: &impl Abort, store: &mut Store, room: u32, gets: &[Get]) {
    for (a, bytes) in gets {
        let found = read_for(store, *a);
        equal(rt, &(room, *a, found), &(room, *a, Some(*bytes)));
    }
}

#[test]
fn a_page_is_read_where_it_is_not_in_memory(rt: HostRuntime) -> Result<(), Fail> {
    let image = placed_file(rt.alloc(), 3)?;
    for (room, gets) in ROWS {
        let mut store = Store::of(rt.alloc(), &image, *room)?;
        each_reads(&rt, &mut store, *room, gets);
    }
    Ok(())
}

// How many bytes are read for the least key from the second entry on, and for the rows from there on.
fn read_for_rows(rt: &impl Abort, store: &mut Store) -> (u64, u64) {
    let before = store.host.fetched;
    equal(rt, &store.least_from(9, 1), &Ok(Some(key(9, 1))));
    let between = store.host.fetched;
    equal(rt, &store.rows_from(9, 1), &Ok((Some(0), false)));
    let behind = store.host.fetched;
    (
        between.saturating_sub(before),
        behind.saturating_sub(between),
    )
}

#[test]
fn one_page_is_read_for_rows_and_none_for_a_key(rt: HostRuntime) -> Result<(), Fail> {
    let image = placed_file(rt.alloc(), 3)?;
    let mut store = Store::of(rt.alloc(), &image, 1)?;
    equal(&rt, &read_for_rows(&rt, &mut store), &(0, PAGE));
    equal(&rt, &read_for_rows(&rt, &mut store), &(0, 0));
    equal(&rt, &read_for(&mut store, 2), &Some(PAGE));
    equal(&rt, &read_for_rows(&rt, &mut store), &(0, PAGE));
    Ok(())
}

// A commit reads the page that it changes. Its image is in memory from then on.
#[test]
fn a_page_that_was_changed_is_not_read_again(rt: HostRuntime) -> Result<(), Fail> {
    let image = placed_file(rt.alloc(), 3)?;
    let mut store = Store::of(rt.alloc(), &image, 1)?;
    let before = store.host.fetched;
    equal(&rt, &store.put(1, 1, 0), &Ok(()));
    let behind = store.host.fetched;
    equal(&rt, &behind.saturating_sub(before), &PAGE);
    equal(&rt, &read_for(&mut store, 1), &Some(0));
    equal(&rt, &read_for(&mut store, 0), &Some(PAGE));
    equal(&rt, &read_for(&mut store, 1), &Some(0));
    Ok(())
}
