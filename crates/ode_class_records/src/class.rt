//! The changes that store a class.
ghost use Rattle.std.specs.Prelude.{◌≡◌, ◌≤◌, [], ◌∷◌, ℕ, IfOk, OnOk, length, map};
ghost use Rattle.ode_value.specs.Lengths.{class_records};
ghost use Rattle.ode_value.specs.Limits.{class_limit};
ghost use Rattle.ode_value.specs.Tables.{Table};
ghost use Rattle.ode_value.specs.Worlds.{Declared};
ghost use Rattle.ode_keep.specs.ShortValues.{HasShortValues};
ghost use Rattle.ode_class_records.specs.ClassRows.{IsStoredBy, class_head, class_rows};
ghost use Rattle.ode_compile.specs.Compiling.{size_of_table};
ghost use Rattle.ode_class_records.specs.Puts.{puts, with_rows};

use crate::pieces::{Parted, put_pieces};
use crate::putting::put;
use crate::tables::{put_table_heads, put_tables};
use ode_codec::Record;
use ode_keep::Batch;
use ode_table::Table;
use ode_value::Class;
use std::alloc::{AllocError, Global};

#[tactic(auto, using(crate::proofs::HeadLaws::head_spelled), unfolding(ode_codec::specs::Rules::IsCounted))]
fn put_head(
    alloc: Global,
    batch: &mut Batch,
    class: &Class,
    text_length: u32,
    triggers: u16,
) -> Result<(), AllocError>
    ensures { OnOk result (batch.new ≡ with_rows (class_head class.now text_length triggers ∷ []) batch.old) }
{
    let head = Record::ClassHead {
        class: class.number,
        name: class.name.copy(alloc)?,
        parent: class.parent.unwrap_or(0),
        text_length,
        triggers,
    };
    put(alloc, batch, &head)
}

/// The changes that put all records of a class with this printed text and these tables of its triggers, which are no more than a class
/// may have.
pub fn class_changes(
    alloc: Global,
    class: &Class,
    text: &[u8],
    tables: &[Table],
) -> Result<Batch, AllocError>
    requires few { class_records (length text.now) (map size_of_table tables.now) ≤ class_limit }
    ensures rows { IfOk result (λ batch. (by : ℕ → ℕ → Table) (c : Declared) → IsStoredBy by c class.now text.now tables.now
        → batch ≡ puts (class_rows by c)) }
    ensures count { IfOk result (λ batch. length batch ≡ class_records (length text.now) (map size_of_table tables.now)) }
    ensures short { IfOk result HasShortValues }
{
    // Read, so that its length is known.
    let _name = class.name.as_bytes();
    let mut batch = Batch::new(alloc);
    put_head(
        alloc,
        &mut batch,
        class,
        text.len() as u32,
        tables.len() as u16,
    )?;
    put_pieces(alloc, &mut batch, class.number, Parted::Text, text)?;
    put_table_heads(alloc, &mut batch, class.number, tables)?;
    put_tables(alloc, &mut batch, class.number, tables)?;
    Ok(batch)
}
