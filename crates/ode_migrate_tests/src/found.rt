//! What a file has.
use crate::disk::smooth;
use ode_gate::{SLOT_LEN, read_header};
use ode_host::{Host, MemHost};
use ode_keep::Keep;
use ode_keeper::Keeper;
use ode_value::Key;
use std::alloc::{AllocError, Global};

/// The header that counts: its format, its layout, its slot, its generation, where its journal begins, and its body's length.
pub type Counting = (u32, u32, u8, u64, u64, u64);

/// The first key, and the size and the first byte of the value under the entry 1.
pub type Records = (Option<Key>, Option<(usize, u8)>);

/// The header that counts in this image, and what it has.
pub type Found = (Counting, Records);

/// The key of an entry.
pub fn entry(a: u64) -> Key {
    Key { kind: 9, a, b: 0 }
}

// What the keeper of a file has, if none of its calls fails.
fn records_of(host: &mut MemHost, mut keeper: Keeper) -> Option<Records> {
    if !Keep::<MemHost>::live(&keeper) {
        return None;
    }
    let least = keeper
        .keys_from(
            host,
            Key {
                kind: 0,
                a: 0,
                b: 0,
            },
        )
        .ok()?;
    if !Keep::<MemHost>::live(&keeper) {
        return None;
    }
    let value = keeper.get(host, entry(1)).ok()?;
    let first = value.map(|v| (
        v.as_slice().len(),
        v.as_slice().first().copied().unwrap_or(0),
    ));
    Some((least, first))
}

// What stands on a disk.
fn found_on(alloc: Global, host: &mut MemHost) -> Option<Found> {
    host.sync().ok()?;
    let header = read_header(host, &mut [0; SLOT_LEN]).ok()?;
    let keeper = Keeper::start(alloc, host, &header).ok()?;
    let counting = (
        header.format,
        header.layout,
        header.slot,
        header.generation,
        header.journal_at,
        header.body_len,
    );
    Some((counting, records_of(host, keeper)?))
}

/// What an image has, if it is opened.
pub fn found_in(alloc: Global, image: &[u8]) -> Result<Option<Found>, AllocError> {
    let mut host = smooth(alloc, image)?;
    Ok(found_on(alloc, &mut host))
}
