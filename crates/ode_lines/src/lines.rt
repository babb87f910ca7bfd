//! Lines that stand alone: where there is no memory for one, no text has a part of it.
ghost use Rattle.std.specs.Prelude.{◌≡◌, IfOk};
ghost use Rattle.ode_value.specs.Expressions.{text_in};
ghost use Rattle.ode_value.specs.Texts.{aborted_line, active_line, changed_line, class_line, committed_line, dropped_line, fired_line, new_line, said_line, value_line, version_line};

use ode_script::{
    put_aborted, put_active, put_changed, put_class, put_committed, put_dropped, put_fired,
    put_new, put_said, put_value, put_version,
};
use ode_value::{List, Name, Reason, Ref, Value};
use std::alloc::{AllocError, Global};

/// The line of a class that is declared.
pub fn class_line(alloc: Global, name: &Name) -> Result<List<u8>, AllocError>
    ensures { IfOk result (λ text. text ≡ class_line name.now) }
{
    let mut text = Vec::new(alloc);
    put_class(&mut text, name)?;
    Ok(List::from_vec(text))
}

/// The line of a class that got fields.
pub fn changed_line(alloc: Global, name: &Name) -> Result<List<u8>, AllocError>
    ensures { IfOk result (λ text. text ≡ changed_line name.now) }
{
    let mut text = Vec::new(alloc);
    put_changed(&mut text, name)?;
    Ok(List::from_vec(text))
}

/// The line of a new object.
pub fn new_line(alloc: Global, id: u64) -> Result<List<u8>, AllocError>
    ensures { IfOk result (λ text. text ≡ new_line id) }
{
    let mut text = Vec::new(alloc);
    put_new(alloc, &mut text, id)?;
    Ok(List::from_vec(text))
}

/// The line of a new version.
pub fn version_line(alloc: Global, of: Ref) -> Result<List<u8>, AllocError>
    ensures { IfOk result (λ text. text ≡ version_line of) }
{
    let mut text = Vec::new(alloc);
    put_version(alloc, &mut text, of)?;
    Ok(List::from_vec(text))
}

/// The line of a new activation.
pub fn active_line(alloc: Global, number: u64) -> Result<List<u8>, AllocError>
    ensures { IfOk result (λ text. text ≡ active_line number) }
{
    let mut text = Vec::new(alloc);
    put_active(alloc, &mut text, number)?;
    Ok(List::from_vec(text))
}

/// The line of a value that is shown.
pub fn value_line(alloc: Global, value: &Value) -> Result<List<u8>, AllocError>
    ensures { IfOk result (λ text. text ≡ value_line value.now) }
{
    let mut text = Vec::new(alloc);
    put_value(alloc, &mut text, value)?;
    Ok(List::from_vec(text))
}

/// The line of a text that is said. A value that isn't a text says the empty one.
pub fn said_line(alloc: Global, said: &Value) -> Result<List<u8>, AllocError>
    ensures { IfOk result (λ text. text ≡ said_line (text_in said.now)) }
{
    let mut text = Vec::new(alloc);
    match said {
        Value::Text(said) => put_said(&mut text, said)?,
        _ => text.extend_from_slice(b"said \n")?,
    }
    Ok(List::from_vec(text))
}

/// The line of a firing, by its trigger's name.
pub fn fired_line(alloc: Global, trigger: &[u8], object: u64) -> Result<List<u8>, AllocError>
    ensures { IfOk result (λ text. text ≡ fired_line trigger.now object) }
{
    let mut text = Vec::new(alloc);
    put_fired(alloc, &mut text, trigger, object)?;
    Ok(List::from_vec(text))
}

/// The line of a firing for which there was no room.
pub fn dropped_line(alloc: Global, trigger: &[u8], object: u64) -> Result<List<u8>, AllocError>
    ensures { IfOk result (λ text. text ≡ dropped_line trigger.now object) }
{
    let mut text = Vec::new(alloc);
    put_dropped(alloc, &mut text, trigger, object)?;
    Ok(List::from_vec(text))
}

/// The last line of a transaction that committed.
pub fn committed_line(alloc: Global, number: u64) -> Result<List<u8>, AllocError>
    ensures { IfOk result (λ text. text ≡ committed_line number) }
{
    let mut text = Vec::new(alloc);
    put_committed(alloc, &mut text, number)?;
    Ok(List::from_vec(text))
}

/// The last line of a transaction that aborted.
pub fn aborted_line(alloc: Global, number: u64, reason: &Reason) -> Result<List<u8>, AllocError>
    ensures { IfOk result (λ text. text ≡ aborted_line number reason.now) }
{
    let mut text = Vec::new(alloc);
    put_aborted(alloc, &mut text, number, reason)?;
    Ok(List::from_vec(text))
}
