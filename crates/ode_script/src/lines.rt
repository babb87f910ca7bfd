//! The lines that a run prints.
ghost use Rattle.std.specs.Prelude.{◌≡◌, ◌++◌, codes, OnOk};
ghost use Rattle.ode_value.specs.Decimal.{digits_of};
ghost use Rattle.ode_value.specs.Texts.{aborted_line, active_line, changed_line, class_line, committed_line, dropped_line, fired_line, new_line, said_line, value_line, version_line};

use crate::texts::{put_name, put_number, put_reason, put_ref};
use ode_print::put_value as put_value_text;
use ode_value::{Name, OdeText, Reason, Ref, Value};
use std::alloc::{AllocError, Global};

/// `class NAME`
pub fn put_class(text: &mut Vec<u8>, name: &Name) -> Result<(), AllocError>
    ensures { OnOk result (text.new.items ≡ text.old.items ++ class_line name.now) }
{
    text.extend_from_slice(b"class ")?;
    text.extend_from_slice(name.as_bytes())?;
    text.extend_from_slice(b"\n")
}

/// `changed C`
pub fn put_changed(text: &mut Vec<u8>, name: &Name) -> Result<(), AllocError>
    ensures { OnOk result (text.new.items ≡ text.old.items ++ changed_line name.now) }
{
    text.extend_from_slice(b"changed ")?;
    text.extend_from_slice(name.as_bytes())?;
    text.extend_from_slice(b"\n")
}

/// `new #N`
pub fn put_new(alloc: Global, text: &mut Vec<u8>, id: u64) -> Result<(), AllocError>
    ensures { OnOk result (text.new.items ≡ text.old.items ++ new_line id) }
{
    let line = format!(in alloc; "new #{id}\n")?;
    text.extend_from_slice(line.as_bytes())
}

/// `version #N@V`
pub fn put_version(alloc: Global, text: &mut Vec<u8>, of: Ref) -> Result<(), AllocError>
    ensures { OnOk result (text.new.items ≡ text.old.items ++ version_line of) }
{
    put_ref(alloc, text, b"version ", of)?;
    text.extend_from_slice(b"\n")
}

/// `active ID`
pub fn put_active(alloc: Global, text: &mut Vec<u8>, number: u64) -> Result<(), AllocError>
    ensures { OnOk result (text.new.items ≡ text.old.items ++ active_line number) }
{
    let line = format!(in alloc; "active {number}\n")?;
    text.extend_from_slice(line.as_bytes())
}

/// `value V`
pub fn put_value(alloc: Global, text: &mut Vec<u8>, value: &Value) -> Result<(), AllocError>
    ensures { OnOk result (text.new.items ≡ text.old.items ++ value_line value.now) }
{
    text.extend_from_slice(b"value ")?;
    put_value_text(alloc, text, value)?;
    text.extend_from_slice(b"\n")
}

/// `said TEXT`
pub fn put_said(text: &mut Vec<u8>, said: &OdeText) -> Result<(), AllocError>
    ensures { OnOk result (text.new.items ≡ text.old.items ++ said_line said.now) }
{
    text.extend_from_slice(b"said ")?;
    text.extend_from_slice(said.as_bytes())?;
    text.extend_from_slice(b"\n")
}

// A trigger's name, and the object that it is on.
fn put_on(
    alloc: Global,
    text: &mut Vec<u8>,
    front: &[u8],
    trigger: &[u8],
    id: u64,
) -> Result<(), AllocError>
    ensures { OnOk result (text.new.items ≡ text.old.items ++ (front.now ++ (trigger.now ++ (codes " on #" ++ digits_of id)))) }
{
    text.extend_from_slice(front)?;
    text.extend_from_slice(trigger)?;
    put_number(alloc, text, b" on #", u128::from(id))
}

/// `fired T on #N`
pub fn put_fired(
    alloc: Global,
    text: &mut Vec<u8>,
    trigger: &[u8],
    id: u64,
) -> Result<(), AllocError>
    ensures { OnOk result (text.new.items ≡ text.old.items ++ fired_line trigger.now id) }
{
    put_on(alloc, text, b"fired ", trigger, id)?;
    text.extend_from_slice(b"\n")
}

/// `dropped T on #N`
pub fn put_dropped(
    alloc: Global,
    text: &mut Vec<u8>,
    trigger: &[u8],
    id: u64,
) -> Result<(), AllocError>
    ensures { OnOk result (text.new.items ≡ text.old.items ++ dropped_line trigger.now id) }
{
    put_on(alloc, text, b"dropped ", trigger, id)?;
    text.extend_from_slice(b"\n")
}

/// `tx K committed`
pub fn put_committed(alloc: Global, text: &mut Vec<u8>, number: u64) -> Result<(), AllocError>
    ensures { OnOk result (text.new.items ≡ text.old.items ++ committed_line number) }
{
    let line = format!(in alloc; "tx {number} committed\n")?;
    text.extend_from_slice(line.as_bytes())
}

/// `tx K aborted REASON`
pub fn put_aborted(
    alloc: Global,
    text: &mut Vec<u8>,
    number: u64,
    reason: &Reason,
) -> Result<(), AllocError>
    ensures { OnOk result (text.new.items ≡ text.old.items ++ aborted_line number reason.now) }
{
    let front = format!(in alloc; "tx {number} aborted ")?;
    text.extend_from_slice(front.as_bytes())?;
    put_reason(alloc, text, reason)?;
    text.extend_from_slice(b"\n")
}
