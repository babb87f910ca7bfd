//! Changes of records: what they put, and those of two batches.
ghost use Rattle.std.specs.Prelude.{◌≡◌, ◌≤◌, ◌+◌, ◌-◌, ◌^◌, min, OnOk, length};
ghost use Rattle.ode_keep.specs.Entries.{Entries, applied, value_under};
ghost use Rattle.ode_keep.specs.Growth.{put_bytes};
ghost use Rattle.ode_keep.specs.ShortValues.{HasShortValues};
ghost use Rattle.ode_value.specs.declared.key.Key.{Key as Row};

use ode_keep::{Batch, KEY_LEN};
use ode_value::List;
use std::alloc::{AllocError, Global};

/// The bytes of the records that a batch puts, or the greatest number, where there are more.
pub fn bytes_put(batch: &Batch) -> u64
    ensures { result ≡ min (put_bytes batch.now) (2 ^ 64 - 1) }
{
    let mut bytes = 0u64;
    for change in batch.iter() {
        if let Some(value) = &change.value {
            bytes = bytes
                .saturating_add(KEY_LEN as u64)
                .saturating_add(value.len() as u64);
        }
    }
    bytes
}

/// The changes of a batch behind those of another one.
pub(crate) fn put_all(alloc: Global, batch: &mut Batch, more: &Batch) -> Result<(), AllocError>
    // They leave what both leave in turn.
    ensures both { OnOk result ((base : Entries) (q : Row) → value_under (applied batch.new base) q ≡ value_under (applied more.now (applied batch.old base)) q) }
    ensures short { OnOk result (HasShortValues batch.old → HasShortValues more.now → HasShortValues batch.new) }
    ensures few { OnOk result (length batch.new ≤ length batch.old + length more.now) }
{
    for change in more.iter() {
        match &change.value {
            Some(value) => batch.put(change.key, List::from_slice(alloc, value.as_slice())?)?,
            None => batch.remove(change.key)?,
        }
    }
    Ok(())
}
