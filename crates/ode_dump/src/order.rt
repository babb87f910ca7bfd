//! Lines in the order of a dump.
ghost use Rattle.std.specs.Prelude.{◌≡◌, ◌++◌, IfOk, OnOk};
ghost use Rattle.std.specs.List.{flat_map};
ghost use Rattle.ode_value.specs.Keys.{class_head_kind, object_kind};
ghost use Rattle.ode_keep.specs.Entries.{HasRisingKeys};
ghost use Rattle.ode_dump.specs.Order.{in_order, joined, of_kind, with_parts, with_tables};

use crate::search::under;
use ode_value::{Key, List};
use std::alloc::{AllocError, Global};

fn put_all(text: &mut Vec<u8>, lines: &[(Key, List<u8>)]) -> Result<(), AllocError>
    ensures { OnOk result (text.new.items ≡ text.old.items ++ joined lines.now) }
{
    for line in lines {
        text.extend_from_slice(line.1.as_slice())?;
    }
    Ok(())
}

fn put_kind(text: &mut Vec<u8>, lines: &[(Key, List<u8>)], kind: u8) -> Result<(), AllocError>
    ensures { OnOk result (text.new.items ≡ text.old.items ++ joined (of_kind kind lines.now)) }
{
    for line in lines {
        if line.0.kind == kind {
            text.extend_from_slice(line.1.as_slice())?;
        }
    }
    Ok(())
}

// A class, and the tables of its triggers.
fn put_class(
    text: &mut Vec<u8>,
    lines: &[(Key, List<u8>)],
    class: &(Key, List<u8>),
) -> Result<(), AllocError>
    ensures { OnOk result (HasRisingKeys lines.now → text.new.items ≡ text.old.items ++ with_tables lines.now class.now) }
{
    text.extend_from_slice(class.1.as_slice())?;
    put_all(text, under(lines, Key::TABLE_HEAD, class.0.a))
}

// An object, its versions and its activations.
fn put_object(
    text: &mut Vec<u8>,
    lines: &[(Key, List<u8>)],
    object: &(Key, List<u8>),
) -> Result<(), AllocError>
    ensures { OnOk result (HasRisingKeys lines.now → text.new.items ≡ text.old.items ++ with_parts lines.now object.now) }
{
    text.extend_from_slice(object.1.as_slice())?;
    put_all(text, under(lines, Key::VERSION, object.0.a))?;
    put_all(text, under(lines, Key::ACTIVATION, object.0.a))
}

fn put_classes(text: &mut Vec<u8>, lines: &[(Key, List<u8>)]) -> Result<(), AllocError>
    ensures { OnOk result (HasRisingKeys lines.now
        → text.new.items ≡ text.old.items ++ flat_map (with_tables lines.now) (of_kind class_head_kind lines.now)) }
{
    for line in lines {
        if line.0.kind == Key::CLASS_HEAD {
            put_class(text, lines, line)?;
        }
    }
    Ok(())
}

fn put_objects(text: &mut Vec<u8>, lines: &[(Key, List<u8>)]) -> Result<(), AllocError>
    ensures { OnOk result (HasRisingKeys lines.now
        → text.new.items ≡ text.old.items ++ flat_map (with_parts lines.now) (of_kind object_kind lines.now)) }
{
    for line in lines {
        if line.0.kind == Key::OBJECT {
            put_object(text, lines, line)?;
        }
    }
    Ok(())
}

/// Lines whose keys rise, in the order of a dump.
pub(crate) fn in_order(alloc: Global, lines: &[(Key, List<u8>)]) -> Result<List<u8>, AllocError>
    ensures { IfOk result (λ text. HasRisingKeys lines.now → text ≡ in_order lines.now) }
{
    let mut text = Vec::new(alloc);
    put_kind(&mut text, lines, Key::COUNTERS)?;
    put_classes(&mut text, lines)?;
    put_objects(&mut text, lines)?;
    put_kind(&mut text, lines, Key::ENTRY)?;
    Ok(List::from_vec(text))
}
