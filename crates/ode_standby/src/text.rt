//! What is said of a stream that was followed, as text.
ghost use Rattle.std.specs.Prelude.{◌≡◌, IfOk};
ghost use Rattle.ode_standby.specs.Texts.{followed_line, stopped_line};

use crate::error::ShipError;
use ode_value::List;
use std::alloc::{AllocError, Global};

/// `followed N skipped S rest R`, with the end of the line.
pub fn followed_line(
    alloc: Global,
    applied: u64,
    skipped: u64,
    rest: u32,
) -> Result<List<u8>, AllocError>
    ensures { IfOk result (λ text. text ≡ followed_line applied skipped rest) }
{
    let line = format!(in alloc; "followed {applied} skipped {skipped} rest {rest}\n")?;
    Ok(List::from_vec(line.into_bytes()))
}

/// `bad frame AT`, `gap FOUND NEXT` or `too large TOTAL`, with the end of the line, and no line where something else stopped the standby.
pub fn stopped_line(alloc: Global, error: &ShipError) -> Result<Option<List<u8>>, AllocError>
    ensures { IfOk result (λ text. text ≡ stopped_line error.now) }
{
    let line = match error {
        ShipError::BadFrame { at } => format!(in alloc; "bad frame {at}\n")?,
        ShipError::Gap { found, next } => format!(in alloc; "gap {found} {next}\n")?,
        ShipError::TooLarge { total } => format!(in alloc; "too large {total}\n")?,
        ShipError::Memory | ShipError::DiskFault | ShipError::Damaged { .. } => return Ok(None),
    };
    Ok(Some(List::from_vec(line.into_bytes())))
}
