//! Which numbers stand beside which values.
ghost use Rattle.std.specs.Prelude.{◌≡◌, ℕ, List as Rows, map, IfOk};
ghost use Rattle.std.specs.List.Sorted.{IsSortedByKey};
ghost use Rattle.ode_index.specs.Order.{value_cmp};
ghost use Rattle.ode_value.specs.declared.value.Value.{Value as AValue};
ghost use Rattle.ode_index.specs.Numbers.{AreNumbers, IsBeside, IsOf, number_of, value_of};

use crate::order::value_cmp;
use ode_value::{List, Value};
use std::alloc::{AllocError, Global};

/// Which numbers stand beside which values. A number is found in time that grows with the logarithm of the rows.
#[derive(Drop)]
pub struct Index {
    rows: List<(Value, u64)>,
    alloc: Global,
}

fn copy_rows(alloc: Global, rows: &[(Value, u64)]) -> Result<Vec<(Value, u64)>, AllocError>
    ensures { IfOk result (λ copy. copy.items ≡ rows.now) }
{
    let mut copy = Vec::new(alloc);
    for row in rows {
        let value = row.0.copy(alloc)?;
        copy.push((value, row.1))?;
    }
    Ok(copy)
}

// The rows of a value, which stand one behind the other.
fn rows_of<'a>(rows: &'a [(Value, u64)], v: &Value) -> &'a [(Value, u64)]
    ensures { IsSortedByKey value_of value_cmp rows.now → IsBeside v.now rows.now result.now }
{
    let first = rows.partition_point(|row| value_cmp(&row.0, v).is_lt());
    let (_, rest) = rows.split_at(first);
    let count = rest.partition_point(|row| value_cmp(&row.0, v).is_le());
    let (same, _) = rest.split_at(count);
    same
}

fn numbers_of(alloc: Global, rows: &[(Value, u64)]) -> Result<Vec<u64>, AllocError>
    ensures { IfOk result (λ numbers. numbers.items ≡ map number_of rows.now) }
{
    let mut numbers = Vec::with_capacity(alloc, rows.len())?;
    for row in rows {
        numbers.push(row.1)?;
    }
    Ok(numbers)
}

impl Index {
    /// The index of rows, each a value and a number.
    pub fn of(alloc: Global, rows: &List<(Value, u64)>) -> Result<Index, AllocError>
        ensures { IfOk result (λ index. IsOf rows.now index) }
    {
        let mut copy = copy_rows(alloc, rows.as_slice())?;
        copy.sort_by(|a, b| value_cmp(&a.0, &b.0))?;
        let rows = List::from_vec(copy);
        Ok(Index { rows, alloc })
    }

    /// The numbers beside a value, each once, in rising order.
    pub fn find(&self, v: &Value) -> Result<List<u64>, AllocError>
        ensures { IfOk result (λ numbers. (rows : Rows (AValue × ℕ)) → IsOf rows self.now → AreNumbers rows v.now numbers) }
    {
        let mut numbers = numbers_of(self.alloc, rows_of(self.rows.as_slice(), v))?;
        numbers.sort_unstable();
        numbers.dedup();
        Ok(List::from_vec(numbers))
    }
}
