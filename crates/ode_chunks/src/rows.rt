//! The records of one chunk.
ghost use Rattle.std.specs.Prelude.{◌≡◌, ◌≤◌, ◌++◌, [], drop, take, vec_len, IfOk, None, OnErr, OnOk, Some};
ghost use Rattle.std.specs.Vec.{vec_capacity};
ghost use Rattle.std.specs.Bool.{OnTrue};
ghost use Rattle.std.specs.List.{AllByRecursion};
ghost use Rattle.ode_value.specs.Keys.{key_cmp};
ghost use Rattle.ode_value.specs.Records.{snapshot};
ghost use Rattle.ode_keep.specs.Entries.{HasRisingKeys, changed, entries_from, value_under};
ghost use Rattle.ode_keep.specs.Snapshots.{FitsRow};
ghost use Rattle.ode_chunks.specs.Cuts.{BeginBy, IsPlace};

use ode_keep::put_row;
use ode_value::{Key, List};
use std::alloc::AllocError;
use std::mem::replace;

/// A key, and the value under it.
pub type Row = (Key, List<u8>);

// Whether there are records, and the first of them is at or below a key.
pub(crate) fn begin_by(rows: &[Row], key: Key) -> bool
    ensures { OnTrue result (BeginBy rows.now key) }
{
    match rows.first() {
        None => false,
        Some((least, _)) => least.cmp(&key).is_le(),
    }
}

// Where the record of this key is, or where it would be.
fn place(rows: &[Row], key: Key) -> Result<usize, usize>
    requires { HasRisingKeys rows.now }
    ensures { IsPlace rows.now key result }
{
    if let Some((greatest, _)) = rows.last() {
        if greatest.cmp(&key).is_lt() {
            return Err(rows.len());
        }
    }
    rows.binary_search_by(|row| row.0.cmp(&key))
}

// The records at or above a key.
pub(crate) fn rows_at_or_above(rows: &[Row], key: Key) -> &[Row]
    requires { HasRisingKeys rows.now }
    ensures { result.now ≡ entries_from rows.now key }
{
    let at = match place(rows, key) {
        Ok(at) => at,
        Err(at) => at,
    };
    &rows[at..]
}

// This value stands under the key from now on; what stood there comes back. It takes no memory where something did.
pub(crate) fn put(
    rows: &mut Vec<Row>,
    key: Key,
    value: List<u8>,
) -> Result<Option<List<u8>>, AllocError>
    requires { HasRisingKeys rows.old.items }
    ensures put { OnOk result (rows.new.items ≡ changed rows.old.items key (Some value)) }
    ensures old { IfOk result (λ old. old ≡ value_under rows.old.items key) }
    ensures same { OnErr result (rows.new.items ≡ rows.old.items) }
    ensures absent { OnErr result (value_under rows.old.items key ≡ None) }
{
    match place(rows, key) {
        Ok(at) => Ok(Some(replace(&mut rows[at].1, value))),
        Err(at) => {
            rows.insert(at, (key, value))?;
            Ok(None)
        }
    }
}

// No record stands under the key from now on; what stood there comes back.
pub(crate) fn take(rows: &mut Vec<Row>, key: Key) -> Option<List<u8>>
    requires { HasRisingKeys rows.old.items }
    ensures rest { rows.new.items ≡ changed rows.old.items key None }
    ensures old { result ≡ value_under rows.old.items key }
{
    match place(rows, key) {
        Ok(at) => {
            let (_, value) = rows.remove(at);
            Some(value)
        }
        Err(_) => None,
    }
}

// Takes the first of some records away, as many as this; the others are moved to memory that has room for them.
pub(crate) fn take_first(rows: &mut Vec<Row>, mut rest: Vec<Row>, count: usize) -> Vec<Row>
    requires within { count ≤ vec_len rows.old }
    requires empty { rest.items ≡ [] }
    requires room { vec_len rows.old ≤ vec_capacity rest }
    ensures first { result.items ≡ take count rows.old.items }
    ensures rest { rows.new.items ≡ drop count rows.old.items }
{
    while rows.len() > count {
        if let Some(row) = rows.pop() {
            rest.push_reserved(row);
        }
    }
    rest.reverse();
    replace(rows, rest)
}

// Puts records behind these bytes as a snapshot has them.
pub(crate) fn put_rows(bytes: &mut Vec<u8>, rows: &[Row]) -> Result<(), AllocError>
    ensures { OnOk result (AllByRecursion FitsRow rows.now → bytes.new.items ≡ bytes.old.items ++ snapshot rows.now) }
{
    for (key, value) in rows {
        put_row(bytes, *key, value.as_slice())?;
    }
    Ok(())
}
