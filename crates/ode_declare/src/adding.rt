//! A file gets one more class.
ghost use Rattle.std.specs.Prelude.{◌≡◌, ◌<◌, ◌+◌, ◌++◌, ◌∷◌, [], ◌^◌, IfOk, OnOk, length};
ghost use Rattle.ode_types.specs.Checked.{IsChecked};

use ode_compile::{Compiled, put_behind};
use ode_opened::Opened;
use ode_table::Table;
use ode_value::List;
use std::alloc::AllocError;

// The place of the first of some tables behind others.
fn first_place(tables: &List<Table>, own: &List<Table>) -> Result<u32, AllocError>
    ensures is { IfOk result (λ first. first ≡ length tables.now) }
    ensures few { OnOk result (length tables.now + length own.now < 2 ^ 32) }
{
    let Ok(first) = u32::try_from(tables.len()) else {
        return Err(AllocError);
    };
    let Ok(more) = u32::try_from(own.len()) else {
        return Err(AllocError);
    };
    match first.checked_add(more) {
        Some(_) => Ok(first),
        None => Err(AllocError),
    }
}

/// The file with a class behind the others, and these bytes.
pub(crate) fn with_class<K: Drop>(
    rest: Opened<K>,
    made: Compiled,
    bytes: u64,
) -> Result<Opened<K>, AllocError>
    requires checked { IsChecked rest.classes made.class }
    ensures is { IfOk result (λ o. o ≡ record rest {
      classes = rest.classes ++ made.class ∷ [];
      tables = rest.tables ++ made.tables;
      alphabets = rest.alphabets ++ made.alphabets;
      maps = rest.maps ++ length rest.tables ∷ [];
      bytes = bytes;
    }) }
    ensures few { OnOk result (length rest.tables + length made.tables < 2 ^ 32) }
{
    let mut rest = rest;
    let Compiled {
        class,
        tables,
        alphabets,
        ..
    } = made;
    let first = first_place(&rest.tables, &tables)?;
    rest.maps.push(first)?;
    put_behind(&mut rest.tables, tables)?;
    put_behind(&mut rest.alphabets, alphabets)?;
    rest.classes.add(class)?;
    rest.bytes = bytes;
    Ok(rest)
}
