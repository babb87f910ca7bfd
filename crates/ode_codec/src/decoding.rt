//! The record of a key and a value.
ghost use Rattle.ode_codec.specs.declared.record.Record.{Record as Row};
ghost use Rattle.std.specs.Prelude.{◌≡◌, ◌^◌, IfOk, IfSome, List as Items, None, ℕ, Some, if◌then◌else◌};
ghost use Rattle.std.specs.Int.{w16, w32, w64};
ghost use Rattle.std.specs.Option.{is_some};
ghost use Rattle.ode_value.specs.Text.{is_name};
ghost use Rattle.ode_codec.specs.Formats.{Finds, Gives, ended, fit, is_sort};
ghost use Rattle.ode_codec.specs.Rules.{IsRecord};
ghost use Rattle.ode_codec.specs.Spelling.{spelled};
ghost use Rattle.ode_codec.specs.Reading.{activation_under, added_count_in, added_under, class_head_under, class_piece_under, clock_in, counters_under};
ghost use Rattle.ode_codec.specs.Reading.{entry_under, is_clock, is_counters, is_next, is_piece, name_in, object_under, record_under};
ghost use Rattle.ode_codec.specs.Reading.{table_head_under, table_piece_under, version_under};

use crate::outside::{OutsideGrammar, Unread};
use crate::passing::{
    pass_activation, pass_added, pass_class_head, pass_entry, pass_piece, pass_version,
};
use crate::reading::{
    read_bool, read_i64, read_part, read_some, read_u8, read_u16, read_u32, read_u64,
};
use crate::record::{Activation, Counters, Entry, REFERENCE_SORT, Record, TABLE_PLACES};
use crate::values::{read_args, read_fields, read_value};
use ode_value::limits::{NUMBER_LIMIT, TRANSACTION_LIMIT, VALUE_LIMIT};
use ode_value::{Key, List, Name, OdeText, TextError};
use std::alloc::{AllocError, Global};

pub(crate) fn fit_u32(number: u64) -> Result<u32, OutsideGrammar>
    ensures { Finds (λ x. x) result (fit (2 ^ 32) number) }
{
    if number > u64::from(u32::MAX) {
        return Err(OutsideGrammar);
    }
    Ok(number as u32)
}

pub(crate) fn fit_u16(number: u64) -> Result<u16, OutsideGrammar>
    ensures { Finds (λ x. x) result (fit (2 ^ 16) number) }
{
    if number > u64::from(u16::MAX) {
        return Err(OutsideGrammar);
    }
    Ok(number as u16)
}

pub(crate) fn nothing_left(rest: &[u8]) -> Result<(), OutsideGrammar>
    ensures { Finds (λ x. x) result (ended rest.now) }
{
    if rest.is_empty() {
        Ok(())
    } else {
        Err(OutsideGrammar)
    }
}

fn is_next(limit: u64, number: u64) -> bool
    ensures { result ≡ is_next limit number }
{
    1 <= number && number <= limit
}

fn is_clock(counters: &Counters) -> bool
    ensures { result ≡ is_clock counters.now }
{
    counters.clock_set || counters.instant == 0 && counters.object == 0 && counters.place == 0
}

/// Whether counters lie within their limits, and their clock is one that is spelled.
#[tactic(auto, unfolding(crate::specs::Reading::is_counters))]
pub fn is_counters(counters: &Counters) -> bool
    ensures { result ≡ is_counters counters.now }
{
    is_next(NUMBER_LIMIT, counters.next_number)
        && is_next(TRANSACTION_LIMIT, counters.next_transaction)
        && is_next(NUMBER_LIMIT, counters.next_entry)
        && is_clock(counters)
}

// How many fields were added, in all that is left; 0 isn't spelled.
#[tactic(auto, unfolding(crate::specs::Reading::added_count_in))]
fn read_added_count(bytes: &[u8]) -> Result<u32, OutsideGrammar>
    ensures { Finds (λ x. x) result (added_count_in bytes.now) }
{
    match bytes {
        [] => Ok(0),
        [_, ..] => {
            let (added, rest) = read_some(bytes)?;
            nothing_left(rest)?;
            Ok(added)
        }
    }
}

#[tactic(auto, unfolding(crate::specs::Reading::counters_under, crate::specs::Reading::clock_in))]
fn read_counters(key: Key, bytes: &[u8]) -> Result<Record, OutsideGrammar>
    ensures { Finds (λ x. x) result (counters_under key bytes.now) }
{
    if key.a != 0 || key.b != 0 {
        return Err(OutsideGrammar);
    }
    let (next_number, rest) = read_u64(bytes)?;
    let (next_transaction, rest) = read_u64(rest)?;
    let (next_entry, rest) = read_u64(rest)?;
    let (clock_set, rest) = read_bool(rest)?;
    let (instant, rest) = read_i64(rest)?;
    let (object, rest) = read_u64(rest)?;
    let (place, rest) = read_u32(rest)?;
    let added = read_added_count(rest)?;
    let counters = Counters {
        next_number,
        next_transaction,
        next_entry,
        clock_set,
        instant,
        object,
        place,
        added,
    };
    if is_counters(&counters) {
        Ok(Record::Counters(counters))
    } else {
        Err(OutsideGrammar)
    }
}

#[tactic(auto, unfolding(crate::specs::Reading::name_in))]
fn read_name(alloc: Global, bytes: &[u8]) -> Result<(Name, &[u8]), Unread>
    ensures { Gives (λ x. (x.0, x.1.now)) result (name_in bytes.now) }
{
    let (length, rest) = read_u8(bytes)?;
    let (name, rest) = read_part(usize::from(length), rest)?;
    let name = name_of(alloc, name)?;
    Ok((name, rest))
}

fn name_of(alloc: Global, bytes: &[u8]) -> Result<Name, Unread>
    ensures { Gives (λ x. x) result (if is_name bytes.now then Some bytes.now else None) }
{
    match OdeText::new(alloc, bytes) {
        Ok(text) => Name::new(text).ok_or(Unread::Outside),
        Err(TextError::Memory) => Err(Unread::Memory),
        Err(TextError::TooLong) => Err(Unread::Outside),
        Err(TextError::BadByte { .. }) => Err(Unread::Outside),
    }
}

#[tactic(auto, unfolding(crate::specs::Reading::class_head_under))]
fn read_class_head(alloc: Global, key: Key, bytes: &[u8]) -> Result<Record, Unread>
    ensures { Gives (λ x. x) result (class_head_under key bytes.now) }
{
    let class = fit_u32(key.a)?;
    if key.b != 0 {
        return Err(Unread::Outside);
    }
    let (name, rest) = read_name(alloc, bytes)?;
    let (parent, rest) = read_u32(rest)?;
    let (text_length, rest) = read_u32(rest)?;
    let (triggers, rest) = read_u16(rest)?;
    nothing_left(rest)?;
    Ok(Record::ClassHead {
        class,
        name,
        parent,
        text_length,
        triggers,
    })
}

// What stands in a piece of a text or a table.
#[tactic(auto, unfolding(ode_value::specs::Limits::value_limit))]
pub(crate) fn is_piece(bytes: &[u8]) -> bool
    ensures { result ≡ is_piece bytes.now }
{
    1 <= bytes.len() && bytes.len() <= VALUE_LIMIT
}

#[tactic(auto, unfolding(crate::specs::Reading::class_piece_under))]
fn read_class_piece(alloc: Global, key: Key, bytes: &[u8]) -> Result<Record, Unread>
    ensures { Gives (λ x. x) result (class_piece_under key bytes.now) }
{
    let class = fit_u32(key.a)?;
    let piece = fit_u32(key.b)?;
    if !is_piece(bytes) {
        return Err(Unread::Outside);
    }
    let bytes = List::from_slice(alloc, bytes)?;
    Ok(Record::ClassPiece {
        class,
        piece,
        bytes,
    })
}

#[tactic(auto, unfolding(crate::specs::Reading::table_head_under))]
fn read_table_head(key: Key, bytes: &[u8]) -> Result<Record, OutsideGrammar>
    ensures { Finds (λ x. x) result (table_head_under key bytes.now) }
{
    let class = fit_u32(key.a)?;
    let trigger = fit_u16(key.b)?;
    let (states, rest) = read_u16(bytes)?;
    let (symbols, rest) = read_u8(rest)?;
    nothing_left(rest)?;
    Ok(Record::TableHead {
        class,
        trigger,
        states,
        symbols,
    })
}

#[tactic(auto, unfolding(crate::specs::Reading::table_piece_under))]
fn read_table_piece(alloc: Global, key: Key, bytes: &[u8]) -> Result<Record, Unread>
    ensures { Gives (λ x. x) result (table_piece_under key bytes.now) }
{
    let class = fit_u32(key.a)?;
    let place = fit_u32(key.b)?;
    if !is_piece(bytes) {
        return Err(Unread::Outside);
    }
    let bytes = List::from_slice(alloc, bytes)?;
    Ok(Record::TablePiece {
        class,
        trigger: (place / TABLE_PLACES) as u16,
        piece: (place % TABLE_PLACES) as u16,
        bytes,
    })
}

#[tactic(auto, unfolding(crate::specs::Reading::object_under))]
fn read_object(key: Key, bytes: &[u8]) -> Result<Record, OutsideGrammar>
    ensures { Finds (λ x. x) result (object_under key bytes.now) }
{
    if key.b != 0 {
        return Err(OutsideGrammar);
    }
    let (class, rest) = read_u32(bytes)?;
    let (last, rest) = read_u32(rest)?;
    nothing_left(rest)?;
    Ok(Record::Object {
        object: key.a,
        class,
        last,
    })
}

#[tactic(auto, unfolding(crate::specs::Reading::version_under))]
fn read_version(alloc: Global, key: Key, bytes: &[u8]) -> Result<Record, Unread>
    ensures { Gives (λ x. x) result (version_under key bytes.now) }
{
    let number = fit_u32(key.b)?;
    let (parent, rest) = read_u32(bytes)?;
    let (stamp, fields, rest) = read_fields(alloc, rest)?;
    nothing_left(rest)?;
    Ok(Record::Version {
        object: key.a,
        number,
        parent,
        stamp,
        fields,
    })
}

#[tactic(auto, unfolding(crate::specs::Reading::activation_under))]
fn read_activation(alloc: Global, key: Key, bytes: &[u8]) -> Result<Record, Unread>
    ensures { Gives (λ x. x) result (activation_under key bytes.now) }
{
    let (class, rest) = read_u32(bytes)?;
    let (trigger, rest) = read_u16(rest)?;
    let (state, rest) = read_u16(rest)?;
    let (args, rest) = read_args(alloc, rest)?;
    nothing_left(rest)?;
    Ok(Record::Activation(Activation {
        object: key.a,
        number: key.b,
        class,
        trigger,
        state,
        args,
    }))
}

#[tactic(auto, unfolding(crate::specs::Reading::entry_under))]
fn read_entry(alloc: Global, key: Key, bytes: &[u8]) -> Result<Record, Unread>
    ensures { Gives (λ x. x) result (entry_under key bytes.now) }
{
    if key.b != 0 {
        return Err(Unread::Outside);
    }
    let (object, rest) = read_u64(bytes)?;
    let (class, rest) = read_u32(rest)?;
    let (trigger, rest) = read_u16(rest)?;
    let (generation, rest) = read_u8(rest)?;
    let (args, rest) = read_args(alloc, rest)?;
    nothing_left(rest)?;
    Ok(Record::Entry {
        number: key.a,
        entry: Entry {
            object,
            class,
            trigger,
            generation,
            args,
        },
    })
}

// A sort as it is stored; of a reference there may be a class.
pub(crate) fn is_sort(sort: u8, of: u32) -> bool
    ensures { result ≡ is_sort sort of }
{
    sort == REFERENCE_SORT || sort < REFERENCE_SORT && of == 0
}

#[tactic(auto, unfolding(crate::specs::Reading::added_under))]
fn read_added(alloc: Global, key: Key, bytes: &[u8]) -> Result<Record, Unread>
    ensures { Gives (λ x. x) result (added_under key bytes.now) }
{
    let class = fit_u32(key.a)?;
    let birth = fit_u32(key.b)?;
    let (name, rest) = read_name(alloc, bytes)?;
    let (sort, rest) = read_u8(rest)?;
    let (of, rest) = read_u32(rest)?;
    let (literal, rest) = read_value(alloc, rest)?;
    nothing_left(rest)?;
    if !is_sort(sort, of) {
        return Err(Unread::Outside);
    }
    Ok(Record::Added {
        class,
        birth,
        name,
        sort,
        of,
        literal,
    })
}

// An arm for each kind of records.
macro_rules! by_kind {
    ($key:expr, $other:expr; $($kind:ident => $read:expr),* $(,)?) => {
        match $key.kind {
            $(Key::$kind => $read,)*
            _ => $other,
        }
    };
}

#[tactic(auto, unfolding(crate::specs::Reading::record_under))]
fn read_record(alloc: Global, key: Key, bytes: &[u8]) -> Result<Record, Unread>
    ensures { Gives (λ x. x) result (record_under key bytes.now) }
{
    by_kind!(key, Err(Unread::Outside);
        COUNTERS => Ok(read_counters(key, bytes)?),
        CLASS_HEAD => read_class_head(alloc, key, bytes),
        CLASS_PIECE => read_class_piece(alloc, key, bytes),
        TABLE_HEAD => Ok(read_table_head(key, bytes)?),
        TABLE_PIECE => read_table_piece(alloc, key, bytes),
        OBJECT => Ok(read_object(key, bytes)?),
        VERSION => read_version(alloc, key, bytes),
        ACTIVATION => read_activation(alloc, key, bytes),
        ENTRY => read_entry(alloc, key, bytes),
        ADDED => read_added(alloc, key, bytes),
    )
}

fn decoded(alloc: Global, key: Key, bytes: &[u8]) -> Result<Option<Record>, AllocError>
    ensures { IfOk result (λ found. found ≡ record_under key bytes.now) }
{
    match read_record(alloc, key, bytes) {
        Ok(found) => Ok(Some(found)),
        Err(Unread::Outside) => Ok(None),
        Err(Unread::Memory) => Err(AllocError),
    }
}

/// The record whose spelling the key and the bytes are, and none where no record has that spelling.
pub fn decode(alloc: Global, key: Key, bytes: &[u8]) -> Result<Option<Record>, AllocError>
    ensures value { IfOk result (λ found. found ≡ record_under key bytes.now) }
    ensures found { IfOk result (λ found. IfSome found (λ r. IsRecord r × ((key, bytes.now) ≡ spelled r))) }
    ensures only { (r : Row) → IsRecord r → (key, bytes.now) ≡ spelled r → IfOk result (λ found. found ≡ Some r) }
{
    decoded(alloc, key, bytes)
}

/// Whether there is a record whose spelling the key and the bytes are. It takes no memory.
#[tactic(auto, unfolding(crate::specs::Reading::record_under))]
pub fn is_record(key: Key, bytes: &[u8]) -> bool
    ensures { result ≡ is_some (record_under key bytes.now) }
{
    by_kind!(key, false;
        COUNTERS => read_counters(key, bytes).is_ok(),
        CLASS_HEAD => pass_class_head(key, bytes).is_ok(),
        CLASS_PIECE => pass_piece(key, bytes).is_ok(),
        TABLE_HEAD => read_table_head(key, bytes).is_ok(),
        TABLE_PIECE => pass_piece(key, bytes).is_ok(),
        OBJECT => read_object(key, bytes).is_ok(),
        VERSION => pass_version(key, bytes).is_ok(),
        ACTIVATION => pass_activation(key, bytes).is_ok(),
        ENTRY => pass_entry(key, bytes).is_ok(),
        ADDED => pass_added(key, bytes).is_ok(),
    )
}
