//! The key and the value of a record.
ghost use Rattle.std.specs.Prelude.{◌≡◌, ◌++◌, ◌<◌, ◌^◌, Some, length, IfOk, OnOk};
ghost use Rattle.std.specs.Int.{w16, w64, cast_unsigned, to_be_bytes};
ghost use Rattle.std.specs.Option.{unwrap_or};
ghost use Rattle.ode_value.specs.Keys.{key};
ghost use Rattle.ode_value.specs.Records.{byte, counted, spelled_value, stamp_bytes, stamped_count, version_bytes};
ghost use Rattle.ode_codec.specs.Reading.{record_under};
ghost use Rattle.ode_codec.specs.Rules.{IsCounted, IsRecord};
ghost use Rattle.ode_codec.specs.Spelling.{activation_value, clock_value, counters_value, entry_value, nexts_value, key_of, spelled, truth, u16, u32, u64, value_of, values};

use crate::record::{
    Activation, BOOL_TAG, Counters, Entry, INT_TAG, REFERENCE_TAG, Record, STAMPED, TABLE_PLACES,
    TEXT_TAG,
};
use ode_host::{put_i64, put_u8, put_u16, put_u32, put_u64};
use ode_value::{Key, List, Name, Ref, Value};
use std::alloc::{AllocError, Global};

fn put_bool(out: &mut Vec<u8>, b: bool) -> Result<(), AllocError>
    ensures { OnOk result (out.new.items ≡ out.old.items ++ truth b) }
{
    put_u8(out, u8::from(b))
}

fn put_text(out: &mut Vec<u8>, text: &[u8]) -> Result<(), AllocError>
    requires { length text.now < 2 ^ 16 }
    ensures { OnOk result (out.new.items ≡ out.old.items ++ (to_be_bytes w16 (length text.now) ++ text.now)) }
{
    put_u16(out, text.len() as u16)?;
    out.extend_from_slice(text)
}

fn put_reference(out: &mut Vec<u8>, reference: Ref) -> Result<(), AllocError>
    ensures { OnOk result (out.new.items ≡ out.old.items ++ (u64 reference.object ++ u32 (unwrap_or reference.version 0))) }
{
    put_u64(out, reference.object)?;
    put_u32(out, reference.version.unwrap_or(0))
}

fn put_value(out: &mut Vec<u8>, value: &Value) -> Result<(), AllocError>
    ensures { OnOk result (out.new.items ≡ out.old.items ++ spelled_value value.now) }
{
    match value {
        Value::Int(number) => {
            put_u8(out, INT_TAG)?;
            put_i64(out, *number)
        }
        Value::Bool(truth) => {
            put_u8(out, BOOL_TAG)?;
            put_bool(out, *truth)
        }
        Value::Text(text) => {
            put_u8(out, TEXT_TAG)?;
            put_text(out, text.as_bytes())
        }
        Value::Reference(reference) => {
            put_u8(out, REFERENCE_TAG)?;
            put_reference(out, *reference)
        }
    }
}

fn put_values(out: &mut Vec<u8>, all: &[Value]) -> Result<(), AllocError>
    ensures { OnOk result (out.new.items ≡ out.old.items ++ values all.now) }
{
    for value in all {
        put_value(out, value)?;
    }
    Ok(())
}

// How many counts of arguments a byte has.
const ARG_COUNTS: usize = 256;

fn put_args(out: &mut Vec<u8>, args: &[Value]) -> Result<(), AllocError>
    ensures { OnOk result (out.new.items ≡ out.old.items ++ (counted args.now ++ values args.now)) }
{
    put_u8(out, (args.len() % ARG_COUNTS) as u8)?;
    put_values(out, args)
}

fn put_numbers_and_clock(out: &mut Vec<u8>, counters: &Counters) -> Result<(), AllocError>
    ensures { OnOk result (out.new.items ≡ out.old.items ++ nexts_value counters.now) }
{
    put_u64(out, counters.next_number)?;
    put_u64(out, counters.next_transaction)?;
    put_u64(out, counters.next_entry)?;
    put_clock(out, counters)
}

fn put_counters(out: &mut Vec<u8>, counters: &Counters) -> Result<(), AllocError>
    ensures { OnOk result (out.new.items ≡ out.old.items ++ counters_value counters.now) }
{
    put_numbers_and_clock(out, counters)?;
    put_stamp(out, counters.added)
}

// A stamp, or how many fields were added; 0 isn't spelled.
fn put_stamp(out: &mut Vec<u8>, stamp: u32) -> Result<(), AllocError>
    ensures { OnOk result (out.new.items ≡ out.old.items ++ stamp_bytes stamp) }
{
    if stamp == 0 {
        return Ok(());
    }
    put_u32(out, stamp)
}

fn put_clock(out: &mut Vec<u8>, counters: &Counters) -> Result<(), AllocError>
    ensures { OnOk result (out.new.items ≡ out.old.items ++ clock_value counters.now) }
{
    put_bool(out, counters.clock_set)?;
    put_instant(out, counters)?;
    put_u64(out, counters.object)?;
    put_u32(out, counters.place)
}

fn put_instant(out: &mut Vec<u8>, counters: &Counters) -> Result<(), AllocError>
    ensures { OnOk result (out.new.items ≡ out.old.items ++ u64 (cast_unsigned w64 counters.now.instant)) }
{
    put_i64(out, counters.instant)
}

fn put_name(out: &mut Vec<u8>, name: &Name) -> Result<(), AllocError>
    ensures { OnOk result (out.new.items ≡ out.old.items ++ (byte (length name.now) ++ name.now)) }
{
    let bytes = name.as_bytes();
    put_u8(out, bytes.len() as u8)?;
    out.extend_from_slice(bytes)
}

fn put_class_head(
    out: &mut Vec<u8>,
    name: &Name,
    parent: u32,
    text_length: u32,
    triggers: u16,
) -> Result<(), AllocError>
    ensures { OnOk result (out.new.items ≡ out.old.items
        ++ ((byte (length name.now) ++ name.now) ++ (u32 parent ++ (u32 text_length ++ u16 triggers)))) }
{
    put_name(out, name)?;
    put_u32(out, parent)?;
    put_u32(out, text_length)?;
    put_u16(out, triggers)
}

fn put_table_head(out: &mut Vec<u8>, states: u16, symbols: u8) -> Result<(), AllocError>
    ensures { OnOk result (out.new.items ≡ out.old.items ++ (u16 states ++ byte symbols)) }
{
    put_u16(out, states)?;
    put_u8(out, symbols)
}

fn put_object(out: &mut Vec<u8>, class: u32, last: u32) -> Result<(), AllocError>
    ensures { OnOk result (out.new.items ≡ out.old.items ++ (u32 class ++ u32 last)) }
{
    put_u32(out, class)?;
    put_u32(out, last)
}

// How many fields a version has, with whether a stamp follows.
fn stamped_count(stamp: u32, count: u16) -> u16
    requires { count < 2 ^ 15 }
    ensures { result ≡ stamped_count stamp count }
{
    if stamp == 0 { count } else { count + STAMPED }
}

fn put_version(
    out: &mut Vec<u8>,
    parent: u32,
    stamp: u32,
    fields: &[Value],
) -> Result<(), AllocError>
    requires { length fields.now < 2 ^ 15 }
    ensures { OnOk result (out.new.items ≡ out.old.items ++ version_bytes parent stamp fields.now) }
{
    put_u32(out, parent)?;
    put_u16(out, stamped_count(stamp, fields.len() as u16))?;
    put_stamp(out, stamp)?;
    put_values(out, fields)
}

fn put_activation(out: &mut Vec<u8>, activation: &Activation) -> Result<(), AllocError>
    ensures { OnOk result (out.new.items ≡ out.old.items ++ activation_value activation.now) }
{
    put_u32(out, activation.class)?;
    put_u16(out, activation.trigger)?;
    put_u16(out, activation.state)?;
    put_args(out, activation.args.as_slice())
}

fn put_entry(out: &mut Vec<u8>, entry: &Entry) -> Result<(), AllocError>
    ensures { OnOk result (out.new.items ≡ out.old.items ++ entry_value entry.now) }
{
    put_u64(out, entry.object)?;
    put_u32(out, entry.class)?;
    put_u16(out, entry.trigger)?;
    put_firing(out, entry)
}

fn put_firing(out: &mut Vec<u8>, entry: &Entry) -> Result<(), AllocError>
    ensures { OnOk result (out.new.items ≡ out.old.items
        ++ (byte entry.now.generation ++ (counted entry.now.args ++ values entry.now.args))) }
{
    put_u8(out, entry.generation)?;
    put_args(out, entry.args.as_slice())
}

fn put_added(
    out: &mut Vec<u8>,
    name: &Name,
    sort: u8,
    of: u32,
    literal: &Value,
) -> Result<(), AllocError>
    ensures { OnOk result (out.new.items ≡ out.old.items
        ++ ((byte (length name.now) ++ name.now) ++ (byte sort ++ (u32 of ++ spelled_value literal.now)))) }
{
    put_name(out, name)?;
    put_u8(out, sort)?;
    put_u32(out, of)?;
    put_value(out, literal)
}

// An arm for each kind of records.
macro_rules! by_variant {
    ($record:expr; $($shape:pat => $arm:expr),* $(,)?) => {
        match $record {
            $($shape => $arm,)*
        }
    };
}

fn make_key(kind: u8, a: u64, b: u64) -> Key
    ensures { result ≡ key kind a b }
{
    Key { kind, a, b }
}

#[tactic(auto, unfolding(crate::specs::Spelling::key_of))]
fn key_of(one: &Record) -> Key
    ensures { result ≡ key_of one.now }
{
    by_variant!(one;
        Record::Counters(_) => make_key(Key::COUNTERS, 0, 0),
        Record::ClassHead { class, .. } => make_key(Key::CLASS_HEAD, u64::from(*class), 0),
        Record::ClassPiece { class, piece, .. } => make_key(Key::CLASS_PIECE, u64::from(*class), u64::from(*piece)),
        Record::TableHead { class, trigger, .. } => make_key(Key::TABLE_HEAD, u64::from(*class), u64::from(*trigger)),
        Record::TablePiece { class, trigger, piece, .. } => {
            make_key(Key::TABLE_PIECE, u64::from(*class), u64::from(*trigger) * u64::from(TABLE_PLACES) + u64::from(*piece))
        },
        Record::Object { object, .. } => make_key(Key::OBJECT, *object, 0),
        Record::Version { object, number, .. } => make_key(Key::VERSION, *object, u64::from(*number)),
        Record::Activation(activation) => make_key(Key::ACTIVATION, activation.object, activation.number),
        Record::Entry { number, .. } => make_key(Key::ENTRY, *number, 0),
        Record::Added { class, birth, .. } => make_key(Key::ADDED, u64::from(*class), u64::from(*birth)),
    )
}

#[tactic(auto, unfolding(crate::specs::Spelling::value_of, crate::specs::Rules::IsCounted))]
fn put_record(out: &mut Vec<u8>, one: &Record) -> Result<(), AllocError>
    requires { IsCounted one.now }
    ensures { OnOk result (out.new.items ≡ out.old.items ++ value_of one.now) }
{
    by_variant!(one;
        Record::Counters(counters) => put_counters(out, counters),
        Record::ClassHead { name, parent, text_length, triggers, .. } => {
            put_class_head(out, name, *parent, *text_length, *triggers)
        },
        Record::ClassPiece { bytes, .. } => out.extend_from_slice(bytes.as_slice()),
        Record::TableHead { states, symbols, .. } => put_table_head(out, *states, *symbols),
        Record::TablePiece { bytes, .. } => out.extend_from_slice(bytes.as_slice()),
        Record::Object { class, last, .. } => put_object(out, *class, *last),
        Record::Version { parent, stamp, fields, .. } => put_version(out, *parent, *stamp, fields.as_slice()),
        Record::Activation(activation) => put_activation(out, activation),
        Record::Entry { entry, .. } => put_entry(out, entry),
        Record::Added { name, sort, of, literal, .. } => put_added(out, name, *sort, *of, literal),
    )
}

fn encoded(alloc: Global, one: &Record) -> Result<(Key, List<u8>), AllocError>
    requires { IsCounted one.now }
    ensures { IfOk result (λ row. row ≡ spelled one.now) }
{
    let mut out = Vec::new(alloc);
    put_record(&mut out, one)?;
    Ok((key_of(one), List::from_vec(out)))
}

/// The spelling of a record. Where the record keeps the numbers, lengths and zeros of its kind, and no reference in it has version 0 or is
/// null with a version, it is decoded again from its spelling.
pub fn encode(alloc: Global, one: &Record) -> Result<(Key, List<u8>), AllocError>
    requires { IsCounted one.now }
    ensures spelled { IfOk result (λ row. row ≡ spelled one.now) }
    ensures again { IsRecord one.now → IfOk result (λ row. record_under row.0 row.1 ≡ Some one.now) }
{
    encoded(alloc, one)
}
