//! Records are spelled as a snapshot, and read from its bytes.
ghost use Rattle.std.specs.Prelude.{◌≡◌, ◌-◌, ◌<◌, ◌≤◌, ◌^◌, ◌++◌, [], ◌∷◌, IfOk, length, min};
ghost use Rattle.std.specs.Option.{IfNone, IfSome};
ghost use Rattle.ode_keep.specs.Snapshots.{IsBrokenSnapshot, IsSnapshot};
ghost use Rattle.ode_value.specs.Records.{snapshot};

use crate::map::Map;
use ode_gate::SHUT;
use ode_host::put_u8;
use ode_keep::next_row;
use ode_value::List;
use std::alloc::{AllocError, Global};

/// The length of the snapshot of these records in bytes, or the greatest number where that is less.
pub(crate) fn snapshot_length(map: &Map) -> u64
    ensures { result ≡ min (length (snapshot map.now)) (2 ^ 64 - 1) }
{
    let bytes = map.bytes();
    let fields = 2 * map.records.len() as u64;
    bytes.saturating_add(fields)
}

/// The snapshot of these records.
pub(crate) fn snapshot_of(alloc: Global, map: &Map) -> Result<Vec<u8>, AllocError>
    ensures { IfOk result (λ bytes. IsSnapshot map.now bytes.items) }
{
    let mut bytes = Vec::new(alloc);
    map.records.put_rows(&mut bytes)?;
    Ok(bytes)
}

/// The snapshot of these records, of this length in bytes, and one shut gate behind it.
pub(crate) fn shut_snapshot(alloc: Global, map: &Map, length: usize) -> Result<Vec<u8>, AllocError>
    requires { length < 2 ^ 63 }
    ensures { IfOk result (λ bytes. bytes.items ≡ snapshot map.now ++ SHUT ∷ []) }
{
    let mut bytes = Vec::with_capacity(alloc, length + 1)?;
    map.records.put_rows(&mut bytes)?;
    put_u8(&mut bytes, SHUT)?;
    Ok(bytes)
}

/// Puts the records of a snapshot of this many bytes, of which some may be missing at its end, into an empty map. Answers
/// at which byte it is broken, if it is.
pub(crate) fn load_rows(
    alloc: Global,
    bytes: &[u8],
    size: usize,
    map: &mut Map,
) -> Result<Option<usize>, AllocError>
    requires empty { map.old ≡ [] }
    requires within { length bytes.now ≤ size }
    ensures whole { IfOk result (λ place. IfNone place (IsSnapshot map.new bytes.now × (length bytes.now ≡ size))) }
    ensures broken { IfOk result (λ place. IfSome place (λ at. IsBrokenSnapshot size at bytes.now)) }
{
    let mut rest = bytes;
    let mut last = None;
    let mut at = 0;
    'rows: while at < size {
        let Some(row) = next_row(rest, last) else {
            return Ok(Some(at));
        };
        let value = List::from_slice(alloc, row.value)?;
        map.put(row.key, value)?;
        rest = row.rest;
        last = Some(row.key);
        at = bytes.len() - rest.len();
    }
    Ok(None)
}

/// A map of the same records.
pub(crate) fn copy_of(alloc: Global, map: &Map) -> Result<Map, AllocError>
    ensures { IfOk result (λ copy. copy ≡ map.now) }
{
    let bytes = snapshot_of(alloc, map)?;
    let mut copy = Map::new(alloc);
    match load_rows(alloc, &bytes, bytes.len(), &mut copy)? {
        None => Ok(copy),
        Some(_) => unreachable!(),
    }
}
