//! The lines of records.
ghost use Rattle.std.specs.Prelude.{◌≡◌, ◌++◌, codes, IfOk, OnOk};
ghost use Rattle.ode_value.specs.Texts.{line};
ghost use Rattle.ode_dump.specs.Names.{class_name, trigger_name};
ghost use Rattle.ode_dump.specs.Lines.{activation_line, class_line, clock_line, counters_line, entry_line, object_line, record_line, table_line, values_text, version_line};

use crate::names::{class_name, trigger_name};
use crate::numbers::put_number;
use ode_codec::{Activation, Counters, Entry, Record};
use ode_print::put_value;
use ode_types::Classes;
use ode_value::{List, Value};
use std::alloc::{AllocError, Global};

fn put_values(alloc: Global, text: &mut Vec<u8>, values: &[Value]) -> Result<(), AllocError>
    ensures { OnOk result (text.new.items ≡ text.old.items ++ values_text values.now) }
{
    for value in values {
        text.push(b' ')?;
        put_value(alloc, text, value)?;
    }
    Ok(())
}

// The name of a trigger.
fn put_trigger(text: &mut Vec<u8>, trigger: &[u8]) -> Result<(), AllocError>
    ensures { OnOk result (text.new.items ≡ text.old.items ++ (codes " trigger " ++ trigger.now)) }
{
    text.extend_from_slice(b" trigger ")?;
    text.extend_from_slice(trigger)
}

// Values, and the end of the line.
fn end_line(alloc: Global, text: &mut Vec<u8>, values: &[Value]) -> Result<(), AllocError>
    ensures { OnOk result (text.new.items ≡ text.old.items ++ line (values_text values.now)) }
{
    put_values(alloc, text, values)?;
    text.push(b'\n')?;
    Ok(())
}

#[tactic(auto, using(crate::proofs::Joining::joined_texts))]
fn put_counters(alloc: Global, text: &mut Vec<u8>, counters: &Counters) -> Result<(), AllocError>
    ensures { OnOk result (text.new.items ≡ text.old.items ++ counters_line counters.now) }
{
    let Counters {
        next_number,
        next_transaction,
        next_entry,
        ..
    } = *counters;
    put_number(alloc, text, b"counters next ", next_number)?;
    put_number(alloc, text, b" tx ", next_transaction)?;
    put_number(alloc, text, b" entry ", next_entry)?;
    text.push(b'\n')?;
    Ok(())
}

fn put_clock(alloc: Global, text: &mut Vec<u8>, counters: &Counters) -> Result<(), AllocError>
    ensures { OnOk result (text.new.items ≡ text.old.items ++ clock_line counters.now) }
{
    if !counters.clock_set {
        return text.extend_from_slice(b"clock none\n");
    }
    let Counters {
        instant,
        object,
        place,
        ..
    } = *counters;
    let line = format!(in alloc; "clock {instant} {object} {place}\n")?;
    text.extend_from_slice(line.as_bytes())
}

fn put_class(
    alloc: Global,
    text: &mut Vec<u8>,
    classes: &Classes,
    class: u32,
) -> Result<(), AllocError>
    ensures { OnOk result (text.new.items ≡ text.old.items ++ class_line class (class_name classes.now class)) }
{
    let front = format!(in alloc; "class {class} ")?;
    text.extend_from_slice(front.as_bytes())?;
    text.extend_from_slice(class_name(classes, class))?;
    text.push(b'\n')?;
    Ok(())
}

fn put_table(
    alloc: Global,
    text: &mut Vec<u8>,
    class: u32,
    trigger: u16,
    states: u16,
    symbols: u8,
) -> Result<(), AllocError>
    ensures { OnOk result (text.new.items ≡ text.old.items ++ table_line class trigger states symbols) }
{
    let front = format!(in alloc; "table {class} {trigger}")?;
    let back = format!(in alloc; " states {states} symbols {symbols}\n")?;
    text.extend_from_slice(front.as_bytes())?;
    text.extend_from_slice(back.as_bytes())
}

fn put_object(
    alloc: Global,
    text: &mut Vec<u8>,
    classes: &Classes,
    object: u64,
    class: u32,
    last: u32,
) -> Result<(), AllocError>
    ensures { OnOk result (text.new.items ≡ text.old.items ++ object_line object (class_name classes.now class) last) }
{
    let front = format!(in alloc; "object #{object} class ")?;
    let back = format!(in alloc; " last {last}\n")?;
    text.extend_from_slice(front.as_bytes())?;
    text.extend_from_slice(class_name(classes, class))?;
    text.extend_from_slice(back.as_bytes())
}

fn put_version(
    alloc: Global,
    text: &mut Vec<u8>,
    object: u64,
    number: u32,
    parent: u32,
    fields: &[Value],
) -> Result<(), AllocError>
    ensures { OnOk result (text.new.items ≡ text.old.items ++ version_line object number parent fields.now) }
{
    let front = format!(in alloc; "version #{object}@{number} parent {parent}")?;
    text.extend_from_slice(front.as_bytes())?;
    end_line(alloc, text, fields)
}

#[tactic(auto, using(crate::proofs::Joining::joined_texts))]
fn put_activation(
    alloc: Global,
    text: &mut Vec<u8>,
    classes: &Classes,
    activation: &Activation,
) -> Result<(), AllocError>
    ensures { OnOk result (text.new.items ≡ text.old.items
        ++ activation_line (trigger_name classes.now activation.now.class activation.now.trigger) activation.now) }
{
    let trigger = trigger_name(classes, activation.class, activation.trigger);
    put_number(alloc, text, b"active ", activation.number)?;
    put_number(alloc, text, b" on #", activation.object)?;
    put_trigger(text, trigger)?;
    put_number(alloc, text, b" state ", u64::from(activation.state))?;
    end_line(alloc, text, activation.args.as_slice())
}

#[tactic(auto, using(crate::proofs::Joining::joined_texts))]
fn put_entry(
    alloc: Global,
    text: &mut Vec<u8>,
    classes: &Classes,
    number: u64,
    entry: &Entry,
) -> Result<(), AllocError>
    ensures { OnOk result (text.new.items ≡ text.old.items
        ++ entry_line (trigger_name classes.now entry.now.class entry.now.trigger) number entry.now) }
{
    let Entry {
        object,
        generation,
        args,
        ..
    } = entry;
    let back = format!(in alloc; " on #{object} generation {generation}")?;
    put_number(alloc, text, b"entry ", number)?;
    put_trigger(text, trigger_name(classes, entry.class, entry.trigger))?;
    text.extend_from_slice(back.as_bytes())?;
    end_line(alloc, text, args.as_slice())
}

// The line of a record, behind a text.
fn put_record(
    alloc: Global,
    text: &mut Vec<u8>,
    classes: &Classes,
    row: &Record,
) -> Result<(), AllocError>
    ensures { OnOk result (text.new.items ≡ text.old.items ++ record_line classes.now row.now) }
{
    match row {
        Record::Counters(counters) => {
            put_counters(alloc, text, counters)?;
            put_clock(alloc, text, counters)
        }
        Record::ClassHead { class, .. } => put_class(alloc, text, classes, *class),
        Record::TableHead {
            class,
            trigger,
            states,
            symbols,
        } => put_table(alloc, text, *class, *trigger, *states, *symbols),
        Record::Object {
            object,
            class,
            last,
        } => put_object(alloc, text, classes, *object, *class, *last),
        Record::Version {
            object,
            number,
            parent,
            fields,
            ..
        } => put_version(alloc, text, *object, *number, *parent, fields.as_slice()),
        Record::Activation(activation) => put_activation(alloc, text, classes, activation),
        Record::Entry { number, entry } => put_entry(alloc, text, classes, *number, entry),
        Record::ClassPiece { .. } | Record::TablePiece { .. } | Record::Added { .. } => Ok(()),
    }
}

/// The line of a record, by the classes; of a record that has none an empty text.
pub(crate) fn record_line(
    alloc: Global,
    classes: &Classes,
    row: &Record,
) -> Result<List<u8>, AllocError>
    ensures { IfOk result (λ text. text ≡ record_line classes.now row.now) }
{
    let mut text = Vec::new(alloc);
    put_record(alloc, &mut text, classes, row)?;
    Ok(List::from_vec(text))
}
