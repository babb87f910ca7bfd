//! Whether the records of classes are complete: by their keys, and by the heads of classes and tables.
ghost use Rattle.std.specs.Prelude.{◌≡◌, ◌≤◌, ◌*◌, ◌+◌, ◌^◌, ◌<◌, cond, drop, length, map, IfOk, IfSome};
ghost use Rattle.std.specs.List.{range_with_len};
ghost use Rattle.std.specs.Option.{option_map_or};
ghost use Rattle.ode_value.specs.Keys.{class_head_key};
ghost use Rattle.ode_value.specs.Lengths.{piece_count, table_length};
ghost use Rattle.ode_passes.specs.Complete.{class_count, complete, is_head, keys_by, keys_of, head_keys, next_are, next_is, none_left, of_head, run};
ghost use Rattle.ode_passes.specs.Steps.{Goes, keys_in};

use crate::cause::Cause;
use ode_codec::Record;
use ode_value::Key;
use ode_value::limits::VALUE_LIMIT;
use std::cmp::Ordering;

// The places of one trigger's pieces among those of its class: as many as 16 bits count, as in the codec.
const TABLE_PLACES: u64 = 65_536;

/// What the heads of classes and tables bring, in the order of keys.
#[derive(Clone, Copy, Debug, PartialEq, Eq)]
pub enum Part {
    Texts,
    TableHeads,
    Tables,
}

/// So many keys of one kind with one first number.
#[derive(Clone, Copy, Debug)]
pub(crate) struct Run {
    kind: u8,
    a: u64,
    first: u64,
    count: u64,
}

/// A class's number and its text's length, where a record is a class's head.
pub fn of_head(row: &Record) -> Option<(u32, u32)>
    ensures { result ≡ of_head row.now }
{
    match row {
        Record::ClassHead {
            class,
            text_length,
            ..
        } => Some((*class, *text_length)),
        _ => None,
    }
}

#[tactic(auto, unfolding(crate::specs::Complete::is_head))]
fn is_head(found: &(Key, Record)) -> bool
    ensures { result ≡ is_head found.now }
{
    of_head(&found.1).is_some()
}

// One more, where a record is a head.
fn counted(count: usize, found: &(Key, Record)) -> usize
    requires { count < usize.MAX }
    ensures { result ≡ count + cond (is_head found.now) 1 0 }
{
    if is_head(found) { count + 1 } else { count }
}

/// How many classes there are.
pub fn class_count(records: &[(Key, Record)]) -> usize
    ensures { result ≡ class_count records.now }
{
    let mut count = 0;
    for found in records {
        count = counted(count, found);
    }
    count
}

// How many pieces so many bytes have.
#[tactic(auto, unfolding(ode_value::specs::Limits::value_limit))]
fn piece_count(length: u64) -> u64
    requires { length < 2 ^ 32 }
    ensures { result ≡ piece_count length }
{
    let limit = VALUE_LIMIT as u64;
    (length + (limit - 1)) / limit
}

fn table_length(states: u16, symbols: u8) -> u64
    ensures value { result ≡ table_length states symbols }
    ensures small { result < 2 ^ 32 }
{
    let states = u64::from(states);
    2 * (states * u64::from(symbols)) + states
}

// The keys that a record brings.
fn run_by(part: Part, row: &Record) -> Option<Run>
    ensures keys { keys_in result ≡ keys_by part row.now }
    ensures small { IfSome result (λ run. (run.first < 2 ^ 32) × (run.count < 2 ^ 32)) }
{
    match part {
        Part::Texts => text_run(row),
        Part::TableHeads => table_head_run(row),
        Part::Tables => table_run(row),
    }
}

fn text_run(row: &Record) -> Option<Run>
    ensures keys { keys_in result ≡ keys_by Part.Texts row.now }
    ensures small { IfSome result (λ run. (run.first < 2 ^ 32) × (run.count < 2 ^ 32)) }
{
    match row {
        Record::ClassHead {
            class,
            text_length,
            ..
        } => Some(Run {
            kind: Key::CLASS_PIECE,
            a: u64::from(*class),
            first: 0,
            count: piece_count(u64::from(*text_length)),
        }),
        _ => None,
    }
}

fn table_head_run(row: &Record) -> Option<Run>
    ensures keys { keys_in result ≡ keys_by Part.TableHeads row.now }
    ensures small { IfSome result (λ run. (run.first < 2 ^ 32) × (run.count < 2 ^ 32)) }
{
    match row {
        Record::ClassHead {
            class,
            triggers,
            ..
        } => Some(Run {
            kind: Key::TABLE_HEAD,
            a: u64::from(*class),
            first: 0,
            count: u64::from(*triggers),
        }),
        _ => None,
    }
}

fn table_run(row: &Record) -> Option<Run>
    ensures keys { keys_in result ≡ keys_by Part.Tables row.now }
    ensures small { IfSome result (λ run. (run.first < 2 ^ 32) × (run.count < 2 ^ 32)) }
{
    match row {
        Record::TableHead {
            class,
            trigger,
            states,
            symbols,
        } => Some(Run {
            kind: Key::TABLE_PIECE,
            a: u64::from(*class),
            first: u64::from(*trigger) * TABLE_PLACES,
            count: piece_count(table_length(*states, *symbols)),
        }),
        _ => None,
    }
}

// The place behind the record at one, where that record has this key.
fn expect(records: &[(Key, Record)], at: usize, key: Key) -> Result<usize, Cause>
    ensures goes { Goes (next_is key (drop at records.now)) records.now result }
    ensures inside { IfOk result (λ at. at ≤ length records.now) }
{
    let Some((found, _)) = records.get(at) else {
        return Err(Cause::Missing(key));
    };
    match key.cmp(found) {
        Ordering::Less => Err(Cause::Missing(key)),
        Ordering::Equal => Ok(at + 1),
        Ordering::Greater => Err(Cause::Record(*found)),
    }
}

// The place behind the records of a run of keys.
fn expect_run(records: &[(Key, Record)], at: usize, wanted: Run) -> Result<usize, Cause>
    requires { (wanted.first < 2 ^ 32) × (wanted.count < 2 ^ 32) }
    ensures { Goes (next_are (run wanted.kind wanted.a wanted.first wanted.count) (drop at records.now)) records.now result }
{
    let mut at = at;
    for place in 0..wanted.count {
        let key = Key {
            kind: wanted.kind,
            a: wanted.a,
            b: wanted.first + place,
        };
        at = expect(records, at, key)?;
    }
    Ok(at)
}

// The place behind the records that one of them brings.
fn expect_by(records: &[(Key, Record)], at: usize, part: Part, row: &Record) -> Result<usize, Cause>
    ensures { Goes (next_are (keys_by part row.now) (drop at records.now)) records.now result }
{
    match run_by(part, row) {
        Some(wanted) => expect_run(records, at, wanted),
        None => Ok(at),
    }
}

// The place behind the records that all of them bring.
fn expect_part(records: &[(Key, Record)], at: usize, part: Part) -> Result<usize, Cause>
    ensures { Goes (next_are (keys_of part records.now) (drop at records.now)) records.now result }
{
    let mut at = at;
    for found in records {
        at = expect_by(records, at, part, &found.1)?;
    }
    Ok(at)
}

// The place behind the heads of the classes, which are numbered from 1.
fn expect_heads(records: &[(Key, Record)]) -> Result<usize, Cause>
    ensures { Goes (next_are (head_keys records.now) records.now) records.now result }
{
    let mut at = 0;
    let count = class_count(records);
    for place in 0..count {
        let key = Key {
            kind: Key::CLASS_HEAD,
            a: place as u64 + 1,
            b: 0,
        };
        at = expect(records, at, key)?;
    }
    Ok(at)
}

fn expect_none(records: &[(Key, Record)], at: usize) -> Result<(), Cause>
    ensures { result ≡ none_left (drop at records.now) }
{
    match records.get(at) {
        Some((found, _)) => Err(Cause::Record(*found)),
        None => Ok(()),
    }
}

/// Whether classes are numbered from 1, and each has exactly its pieces, its tables' heads and their pieces.
#[tactic(auto, unfolding(crate::specs::Complete::complete))]
pub fn complete(records: &[(Key, Record)]) -> Result<(), Cause>
    ensures { result ≡ complete records.now }
{
    let at = expect_heads(records)?;
    let at = expect_part(records, at, Part::Texts)?;
    let at = expect_part(records, at, Part::TableHeads)?;
    let at = expect_part(records, at, Part::Tables)?;
    expect_none(records, at)
}
