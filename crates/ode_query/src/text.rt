//! The text of rows, and of the reasons why a query has none.
ghost use Rattle.std.specs.Prelude.{◌≡◌, ◌++◌, codes, IfOk, OnOk, length};
ghost use Rattle.std.specs.List.{flat_map};
ghost use Rattle.std.specs.Option.{option_map};
ghost use Rattle.ode_value.specs.Decimal.{digits_of};
ghost use Rattle.ode_query.specs.Texts.{blank_value, count_line, fits, row_line, rows_text, unanswered_by, unanswered_text};

use crate::error::QueryError;
use crate::row::Row;
use ode_print::put_value;
use ode_run_frame::reason_of;
use ode_script::reason_text;
use ode_value::{List, Value};
use std::alloc::{AllocError, Global};

/// The bytes of a query's text.
const TEXT_LIMIT: usize = 16_777_216;

fn put_values(alloc: Global, text: &mut Vec<u8>, values: &[Value]) -> Result<(), AllocError>
    ensures { OnOk result (text.new.items ≡ text.old.items ++ flat_map blank_value values.now) }
{
    for value in values {
        text.push(b' ')?;
        put_value(alloc, text, value)?;
    }
    Ok(())
}

fn put_row(alloc: Global, text: &mut Vec<u8>, row: &Row) -> Result<(), AllocError>
    ensures { OnOk result (text.new.items ≡ text.old.items ++ row_line row.now) }
{
    text.extend_from_slice(b"row")?;
    put_values(alloc, text, row.values.as_slice())?;
    text.push(b'\n')?;
    Ok(())
}

fn put_count(alloc: Global, text: &mut Vec<u8>, count: usize) -> Result<(), AllocError>
    ensures { OnOk result (text.new.items ≡ text.old.items ++ count_line count) }
{
    let line = format!(in alloc; "rows {count}\n")?;
    text.extend_from_slice(line.as_bytes())
}

/// The line of each row, and behind them how many they are.
#[tactic(auto, unfolding(crate::specs::Texts::rows_text))]
pub fn rows_text(alloc: Global, rows: &[Row]) -> Result<List<u8>, AllocError>
    ensures { IfOk result (λ text. text ≡ rows_text rows.now) }
{
    let mut text = Vec::new(alloc);
    for row in rows {
        put_row(alloc, &mut text, row)?;
    }
    put_count(alloc, &mut text, rows.len())?;
    Ok(List::from_vec(text))
}

// The bytes of a row's line.
fn row_length(alloc: Global, row: &Row) -> Result<usize, AllocError>
    ensures { IfOk result (λ n. n ≡ length (row_line row.now)) }
{
    let mut text = Vec::new(alloc);
    put_row(alloc, &mut text, row)?;
    Ok(text.len())
}

// Those of the line behind them.
fn count_length(alloc: Global, count: usize) -> Result<usize, AllocError>
    ensures { IfOk result (λ n. n ≡ length (count_line count)) }
{
    let mut text = Vec::new(alloc);
    put_count(alloc, &mut text, count)?;
    Ok(text.len())
}

/// Whether the text of rows isn't too long. It isn't made for that.
#[tactic(auto, unfolding(crate::specs::Texts::rows_text, crate::specs::Texts::text_limit))]
pub(crate) fn fits(alloc: Global, rows: &[Row]) -> Result<bool, AllocError>
    ensures { IfOk result (λ is. is ≡ fits rows.now) }
{
    let mut left = TEXT_LIMIT;
    for row in rows {
        let length = row_length(alloc, row)?;
        if length > left {
            return Ok(false);
        }
        left -= length;
    }
    let last = count_length(alloc, rows.len())?;
    Ok(last <= left)
}

// More combinations than are gone through.
fn too_many(alloc: Global, count: u128) -> Result<List<u8>, AllocError>
    ensures { IfOk result (λ text. text ≡ codes "too many rows " ++ digits_of count) }
{
    let mut text = Vec::from_slice(alloc, b"too many rows ")?;
    text.extend_from_slice(count.to_string(alloc)?.as_bytes())?;
    Ok(List::from_vec(text))
}

/// Why a query has no rows, in words. Want of memory, a fault of the disk and a damaged record are no such reason.
pub fn unanswered_text(alloc: Global, error: &QueryError) -> Result<Option<List<u8>>, AllocError>
    ensures { IfOk result (λ text. text ≡ option_map unanswered_text (unanswered_by error.now)) }
{
    match error {
        QueryError::TooManyRows { count } => Ok(Some(too_many(alloc, *count)?)),
        QueryError::Fault(fault) => Ok(Some(reason_text(alloc, &reason_of(*fault))?)),
        QueryError::Output => Ok(Some(List::from_slice(alloc, b"output")?)),
        QueryError::Memory | QueryError::DiskFault | QueryError::Damaged { .. } => Ok(None),
    }
}
