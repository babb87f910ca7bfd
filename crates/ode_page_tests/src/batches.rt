//! Keys, and batches of changes.
ghost use Rattle.std.specs.Prelude.{◌≤◌, IfOk};
ghost use Rattle.ode_keep.specs.ShortValues.{HasShortValues};

use ode_keep::{Batch, MAX_VALUE};
use ode_value::{Key, List};
use std::alloc::{AllocError, Global};
use std::ops::Range;

/// The key of this kind and first number.
pub fn key(kind: u8, a: u64) -> Key {
    Key { kind, a, b: 0 }
}

/// A batch that puts a value of so many of a byte under a key.
pub fn putting(alloc: Global, key: Key, size: usize, byte: u8) -> Result<Batch, AllocError>
    requires { size ≤ MAX_VALUE }
    ensures { IfOk result (λ batch. HasShortValues batch) }
{
    let value = List::from_vec(vec![in alloc; byte; size]?);
    let mut batch = Batch::new(alloc);
    batch.put(key, value)?;
    Ok(batch)
}

/// A batch that removes what stands under a key.
pub fn removing(alloc: Global, key: Key) -> Result<Batch, AllocError>
    ensures { IfOk result (λ batch. HasShortValues batch) }
{
    let mut batch = Batch::new(alloc);
    batch.remove(key)?;
    Ok(batch)
}

/// A batch that puts the longest values, each of this byte, under the entries of these numbers.
pub fn putting_many(alloc: Global, numbers: Range<u64>, byte: u8) -> Result<Batch, AllocError>
    ensures { IfOk result (λ batch. HasShortValues batch) }
{
    let mut batch = Batch::new(alloc);
    for a in numbers {
        let value = List::from_vec(vec![in alloc; byte; MAX_VALUE]?);
        batch.put(key(9, a), value)?;
    }
    Ok(batch)
}
