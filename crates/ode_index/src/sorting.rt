//! Rows in the order of the values in front of them.
ghost use Rattle.std.specs.Prelude.{◌≡◌, IfOk};
ghost use Rattle.ode_index.specs.Sorting.{sorted};

use crate::order::values_cmp;
use ode_value::{List, Value};
use std::alloc::AllocError;

/// Rows in the order of the values in front of them. Those that tie stay in their order.
pub fn sort_rows<T: Drop>(
    rows: List<(List<Value>, T)>,
) -> Result<List<(List<Value>, T)>, AllocError>
    ensures { IfOk result (λ new. new ≡ sorted rows) }
{
    let mut rows = rows.into_vec();
    rows.sort_by(|a, b| values_cmp(a.0.as_slice(), b.0.as_slice()))?;
    Ok(List::from_vec(rows))
}
