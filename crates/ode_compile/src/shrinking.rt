//! The least tables with the same answers.
ghost use Rattle.std.specs.Prelude.{IfOk};
ghost use Rattle.ode_compile.specs.Compiling.{AreLeastOf, IsLeastOf};

use ode_minimal::shrink;
use ode_table::Table;
use ode_value::List;
use std::alloc::{AllocError, Global};

fn least_of(alloc: Global, table: &Table) -> Result<Table, AllocError>
    ensures { IfOk result (IsLeastOf table.now) }
{
    let least = shrink(alloc, table)?;
    // Read, so that its parts are known to fit each other.
    let _rows = least.rows();
    Ok(least)
}

/// For each of these tables, in order, the least one with the same answers.
pub(crate) fn shrink_all(alloc: Global, tables: &[Table]) -> Result<List<Table>, AllocError>
    ensures { IfOk result (AreLeastOf tables.now) }
{
    let mut least = List::new(alloc);
    for table in tables {
        let small = least_of(alloc, table)?;
        least.push(small)?;
    }
    Ok(least)
}
