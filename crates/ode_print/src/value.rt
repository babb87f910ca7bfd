//! Values.
ghost use Rattle.std.specs.Prelude.{◌≡◌, ◌++◌, cond, codes, OnOk};
ghost use Rattle.std.specs.List.{flat_map};
ghost use Rattle.ode_value.specs.Decimal.{digits_of};
ghost use Rattle.ode_value.specs.Texts.{escaped, value_text};

use crate::put::put;
use ode_value::{List, Value, decimal, int_text, ref_text};
use std::alloc::{AllocError, Global};

// Puts a byte of a text at the end, a quote or a backslash behind a backslash.
fn put_escaped(out: &mut Vec<u8>, byte: u8) -> Result<(), AllocError>
    ensures { OnOk result (out.new.items ≡ out.old.items ++ escaped byte) }
{
    if byte == b'"' || byte == b'\\' {
        out.push(b'\\')?;
    }
    out.push(byte)?;
    Ok(())
}

// Puts the bytes of a text at the end as they are written between quotes.
fn put_content(out: &mut Vec<u8>, text: &[u8]) -> Result<(), AllocError>
    ensures { OnOk result (out.new.items ≡ out.old.items ++ flat_map escaped text.now) }
{
    for byte in text {
        put_escaped(out, *byte)?;
    }
    Ok(())
}

// Puts a text that was made for it at the end, and lets it go.
fn put_made(out: &mut Vec<u8>, text: List<u8>) -> Result<(), AllocError>
    ensures { OnOk result (out.new.items ≡ out.old.items ++ text) }
{
    let done = put(out, text.as_slice());
    drop(text);
    done
}

/// Puts a number at the end, in decimal.
pub fn put_number(alloc: Global, out: &mut Vec<u8>, number: u64) -> Result<(), AllocError>
    ensures { OnOk result (out.new.items ≡ out.old.items ++ digits_of number) }
{
    put_made(out, decimal(alloc, number)?)
}

/// Puts the text of a value at the end.
pub fn put_value(alloc: Global, out: &mut Vec<u8>, value: &Value) -> Result<(), AllocError>
    ensures { OnOk result (out.new.items ≡ out.old.items ++ value_text value.now) }
{
    match value {
        Value::Int(number) => put_made(out, int_text(alloc, *number)?),
        Value::Bool(true) => put(out, b"true"),
        Value::Bool(false) => put(out, b"false"),
        Value::Text(text) => {
            put(out, b"\"")?;
            put_content(out, text.as_bytes())?;
            put(out, b"\"")
        }
        Value::Reference(reference) => put_made(out, ref_text(alloc, *reference)?),
    }
}
