//! The tables of triggers.
ghost use Rattle.std.specs.Prelude.{◌≡◌, ◌<◌, ◌++◌, ◌^◌, [], ◌∷◌, IfOk, OnOk, length, map};
ghost use Rattle.std.specs.List.{AllByRecursion, enumerate_from, flat_map};
ghost use Rattle.ode_codec.specs.StoredRows.{bit, table_bytes, u16};
ghost use Rattle.ode_class_records.specs.ClassRows.{IsSized, head_at, pieces_at};
ghost use Rattle.ode_class_records.specs.Puts.{with_rows};

use crate::pieces::{Parted, put_pieces};
use crate::putting::put;
use ode_codec::Record;
use ode_host::{put_u8, put_u16};
use ode_keep::Batch;
use ode_table::Table;
use ode_value::List;
use std::alloc::{AllocError, Global};

fn put_states(out: &mut Vec<u8>, states: &[u16]) -> Result<(), AllocError>
    ensures { OnOk result (out.new.items ≡ out.old.items ++ flat_map u16 states.now) }
{
    for state in states {
        put_u16(out, *state)?;
    }
    Ok(())
}

fn put_bits(out: &mut Vec<u8>, bits: &[bool]) -> Result<(), AllocError>
    ensures { OnOk result (out.new.items ≡ out.old.items ++ map bit bits.now) }
{
    for b in bits {
        put_u8(out, u8::from(*b))?;
    }
    Ok(())
}

#[tactic(auto, using(crate::proofs::PieceLaws::table_sized))]
fn table_bytes(alloc: Global, table: &Table) -> Result<List<u8>, AllocError>
    ensures bytes { IfOk result (λ bytes. bytes ≡ table_bytes table.now) }
    ensures sized { OnOk result (IsSized table.now) }
{
    // Read, so that their ranges are known.
    let _size = (table.states(), table.symbols());
    let mut out = Vec::new(alloc);
    put_states(&mut out, table.rows())?;
    put_bits(&mut out, table.answers())?;
    Ok(List::from_vec(out))
}

#[tactic(auto, unfolding(ode_codec::specs::Spelling::key_of, ode_codec::specs::Spelling::value_of, ode_codec::specs::Rules::IsCounted))]
fn put_table_head(
    alloc: Global,
    batch: &mut Batch,
    class: u32,
    place: u16,
    table: &Table,
) -> Result<(), AllocError>
    ensures { OnOk result (batch.new ≡ with_rows (head_at class (place, table.now) ∷ []) batch.old) }
{
    let head = Record::TableHead {
        class,
        trigger: place,
        states: table.states(),
        symbols: table.symbols(),
    };
    put(alloc, batch, &head)
}

/// Puts the heads of the tables of a class's triggers.
pub(crate) fn put_table_heads(
    alloc: Global,
    batch: &mut Batch,
    class: u32,
    tables: &[Table],
) -> Result<(), AllocError>
    requires { length tables.now < 2 ^ 16 }
    ensures { OnOk result (batch.new ≡ with_rows (map (head_at class) (enumerate_from 0 tables.now)) batch.old) }
{
    for (place, table) in tables.iter().enumerate() {
        put_table_head(alloc, batch, class, place as u16, table)?;
    }
    Ok(())
}

#[tactic(auto, using(crate::proofs::PieceLaws::pieces_fit))]
fn put_table(
    alloc: Global,
    batch: &mut Batch,
    class: u32,
    place: u16,
    table: &Table,
) -> Result<(), AllocError>
    ensures rows { OnOk result (batch.new ≡ with_rows (pieces_at class (place, table.now)) batch.old) }
    ensures sized { OnOk result (IsSized table.now) }
{
    let bytes = table_bytes(alloc, table)?;
    put_pieces(alloc, batch, class, Parted::Table(place), bytes.as_slice())
}

/// Puts the pieces of the tables of a class's triggers.
pub(crate) fn put_tables(
    alloc: Global,
    batch: &mut Batch,
    class: u32,
    tables: &[Table],
) -> Result<(), AllocError>
    requires { length tables.now < 2 ^ 16 }
    ensures rows { OnOk result (batch.new ≡ with_rows (flat_map (pieces_at class) (enumerate_from 0 tables.now)) batch.old) }
    ensures sized { OnOk result (AllByRecursion IsSized tables.now) }
{
    for (place, table) in tables.iter().enumerate() {
        put_table(alloc, batch, class, place as u16, table)?;
    }
    Ok(())
}
