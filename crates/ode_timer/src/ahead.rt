//! The clock events that are due.
ghost use Rattle.std.specs.Prelude.{◌≡◌, ◌≤◌, ◌<◌, ◌+◌, ◌*◌, ◌-◌, ◌^◌, ◌++◌, ℕ, pos, ◌+ℤ◌, ◌≤ℤ◌, ℤ, All, length, min, IfOk, IfErr, IfSome, OnOk};
ghost use Rattle.std.specs.Int.{int_gap};
ghost use Rattle.std.specs.List.{filter};
ghost use Rattle.ode_value.specs.Limits.{due_limit};
ghost use Rattle.ode_timer.specs.Counts.{AreIdle, IsBetween, IsIdleKind, IsIdleRow, idle_for, kind_times, row_times, times_behind};
ghost use Rattle.ode_timer.specs.Due.{AllRecur, HasPlaces, Recurs, due, due_at, due_in, is_above, is_due, position_at};

use crate::clock::{Clock, DueError, TimeRow};
use ode_value::limits::DUE_LIMIT;
use ode_value::{Kind, List};
use std::alloc::{AllocError, Global};

// How far the least second lies before 1970.
const SECONDS_BEFORE: i128 = 1 << 63;

// Whether a kind is due at a second.
fn is_due(kind: &Kind, second: i64) -> bool
    requires { Recurs kind.now }
    ensures { result ≡ is_due second kind.now }
{
    match kind {
        Kind::TimeEvery(number) => second.rem_euclid(i64::from(*number)) == 0,
        Kind::TimeAt(at) => second == *at,
        _ => false,
    }
}

// Whether a place of an object lies at a second above a position.
fn is_above(old: &Clock, second: i64, object: u64, place: usize) -> bool
    ensures { result ≡ is_above old.now (position_at second object place) }
{
    old.instant < second
        || (old.instant == second
            && (old.object < object || (old.object == object && (old.place as usize) < place)))
}

// A second, counted from one that the number divides and that lies before all.
fn mark(number: u32, second: i64) -> u128
    requires { 1 ≤ number }
    ensures value { pos result ≡ second +ℤ pos (number * 2 ^ 63) }
    ensures small { result < 2 ^ 96 }
{
    (i128::from(number) * SECONDS_BEFORE + i128::from(second)) as u128
}

// How far a second is above another.
fn gap(after: i64, last: i64) -> u128
    requires order { after ≤ℤ last }
    ensures { result ≡ int_gap after last }
{
    (i128::from(last) - i128::from(after)) as u128
}

// At how many seconds behind one, up to another, a number divides the second.
fn multiples(number: u32, after: i64, last: i64) -> u128
    requires some { 1 ≤ number }
    requires order { after ≤ℤ last }
    ensures value { result ≡ times_behind after (int_gap after last) (Kind.TimeEvery number) }
    ensures small { result ≤ 2 ^ 96 }
{
    let every = u128::from(number);
    mark(number, last) / every - mark(number, after) / every
}

// The same of one second.
fn once(second: i64, after: i64, last: i64) -> u128
    requires order { after ≤ℤ last }
    ensures value { result ≡ times_behind after (int_gap after last) (Kind.TimeAt second) }
    ensures small { result ≤ 2 ^ 96 }
{
    if after < second && second <= last {
        1
    } else {
        0
    }
}

// At how many seconds behind one, up to another, a kind is due.
fn times_behind(kind: &Kind, after: i64, last: i64) -> u128
    requires recurs { Recurs kind.now }
    requires order { after ≤ℤ last }
    ensures value { result ≡ times_behind after (int_gap after last) kind.now }
    ensures small { result ≤ 2 ^ 96 }
{
    match kind {
        Kind::TimeEvery(number) => multiples(*number, after, last),
        Kind::TimeAt(second) => once(*second, after, last),
        _ => 0,
    }
}

// How often a kind at a place of an object is due above a position, up to a second.
fn kind_times(old: &Clock, new: i64, object: u64, place: usize, kind: &Kind) -> u128
    requires recurs { Recurs kind.now }
    requires order { old.now.instant ≤ℤ new }
    ensures value { result ≡ kind_times old.now (int_gap old.now.instant new) object (place, kind.now) }
    ensures small { result ≤ 2 ^ 97 }
{
    let at_once = is_due(kind, old.instant) && is_above(old, old.instant, object, place);
    u128::from(at_once) + times_behind(kind, old.instant, new)
}

// How often the kinds of an object are, as far as the type goes.
fn row_times(old: &Clock, new: i64, row: &TimeRow) -> u128
    requires recur { All Recurs row.now.kinds }
    requires order { old.now.instant ≤ℤ new }
    ensures { result ≡ min (row_times old.now (int_gap old.now.instant new) row.now) (2 ^ 128 - 1) }
{
    let kinds = row.kinds.as_slice();
    let mut times = 0u128;
    for (place, kind) in kinds.iter().enumerate() {
        times = times.saturating_add(kind_times(old, new, row.object, place, kind));
    }
    times
}

// How many events are due, as far as the type goes.
fn count_due(rows: &[TimeRow], old: &Clock, new: i64) -> u128
    requires recur { AllRecur rows.now }
    ensures { result ≡ min (length (due rows.now old.now new)) (2 ^ 128 - 1) }
{
    let mut count = 0u128;
    if old.instant <= new {
        for row in rows {
            count = count.saturating_add(row_times(old, new, row));
        }
    }
    count
}

// The first second behind one, up to another, that a number divides.
fn next_multiple(number: u32, after: i64, last: i64) -> Option<i64>
    requires some { 1 ≤ number }
    requires order { after ≤ℤ last }
    ensures within { IfSome result (IsBetween after last) }
    ensures idle { IsIdleKind after (idle_for after last result) (Kind.TimeEvery number) }
{
    let every = u128::from(number);
    let wait = every - mark(number, after) % every;
    if wait <= gap(after, last) {
        Some(after + wait as i64)
    } else {
        None
    }
}

// A second, if it lies behind one and not behind another.
fn within(second: i64, after: i64, last: i64) -> Option<i64>
    requires order { after ≤ℤ last }
    ensures within { IfSome result (IsBetween after last) }
    ensures idle { IsIdleKind after (idle_for after last result) (Kind.TimeAt second) }
{
    if after < second && second <= last {
        Some(second)
    } else {
        None
    }
}

// The first second behind one, up to another, at which a kind is due.
fn next_of(kind: &Kind, after: i64, last: i64) -> Option<i64>
    requires recurs { Recurs kind.now }
    requires order { after ≤ℤ last }
    ensures within { IfSome result (IsBetween after last) }
    ensures idle { IsIdleKind after (idle_for after last result) kind.now }
{
    match kind {
        Kind::TimeEvery(number) => next_multiple(*number, after, last),
        Kind::TimeAt(second) => within(*second, after, last),
        _ => None,
    }
}

// The earlier of two seconds that may be there.
fn earlier(one: Option<i64>, other: Option<i64>) -> Option<i64>
    ensures within { (after last : ℤ) → IfSome one (IsBetween after last) → IfSome other (IsBetween after last) → IfSome result (IsBetween after last) }
    ensures first { (after last : ℤ) → IfSome one (IsBetween after last) → IfSome other (IsBetween after last)
        → (idle_for after last result ≤ idle_for after last one) × (idle_for after last result ≤ idle_for after last other) }
{
    match (one, other) {
        (Some(one), Some(other)) => Some(if one < other { one } else { other }),
        (Some(one), None) => Some(one),
        (None, other) => other,
    }
}

// The first second behind one, up to another, at which something is due of an object.
fn next_in(row: &TimeRow, after: i64, last: i64) -> Option<i64>
    requires recur { All Recurs row.now.kinds }
    requires order { after ≤ℤ last }
    ensures within { IfSome result (IsBetween after last) }
    ensures idle { IsIdleRow after (idle_for after last result) row.now }
{
    let kinds = row.kinds.as_slice();
    let mut next = None;
    for kind in kinds {
        next = earlier(next, next_of(kind, after, last));
    }
    next
}

// The first second behind one, up to another, at which something is due.
fn next_due(rows: &[TimeRow], after: i64, last: i64) -> Option<i64>
    requires recur { AllRecur rows.now }
    requires order { after ≤ℤ last }
    ensures within { IfSome result (IsBetween after last) }
    ensures idle { AreIdle after (idle_for after last result) rows.now }
{
    let mut next = None;
    for row in rows {
        next = earlier(next, next_in(row, after, last));
    }
    next
}

// Puts at the end what is due of an object at a second above a position.
fn put_row(
    events: &mut List<Clock>,
    row: &TimeRow,
    old: &Clock,
    second: i64,
) -> Result<(), AllocError>
    requires recur { All Recurs row.now.kinds }
    ensures { OnOk result (HasPlaces row.now → events.new ≡ events.old ++ filter (is_above old.now) (due_in second row.now)) }
{
    let kinds = row.kinds.as_slice();
    for (place, kind) in kinds.iter().enumerate() {
        // A position has no place for a kind behind these.
        let Ok(number) = u32::try_from(place) else {
            break;
        };
        if is_due(kind, second) && is_above(old, second, row.object, place) {
            events.push(Clock {
                instant: second,
                object: row.object,
                place: number,
            })?;
        }
    }
    Ok(())
}

// Puts at the end what is due at a second above a position.
fn put_second(
    events: &mut List<Clock>,
    rows: &[TimeRow],
    old: &Clock,
    second: i64,
) -> Result<(), AllocError>
    requires recur { AllRecur rows.now }
    ensures { OnOk result (All HasPlaces rows.now → events.new ≡ events.old ++ filter (is_above old.now) (due_at rows.now second)) }
{
    for row in rows {
        put_row(events, row, old, second)?;
    }
    Ok(())
}

// The events that are due, second by second, from one with an event to the next.
fn list_due(
    alloc: Global,
    rows: &[TimeRow],
    old: &Clock,
    new: i64,
) -> Result<List<Clock>, AllocError>
    requires recur { AllRecur rows.now }
    ensures { IfOk result (λ events. All HasPlaces rows.now → events ≡ due rows.now old.now new) }
{
    let mut events = List::new(alloc);
    if new < old.instant {
        return Ok(events);
    }
    put_second(&mut events, rows, old, old.instant)?;
    let mut second = old.instant;
    while let Some(next) = next_due(rows, second, new) {
        put_second(&mut events, rows, old, next)?;
        second = next;
    }
    Ok(events)
}

/// The clock events above a position, up to and with a second, in order: by second, then by row, then by place. The work is
/// in the events and kinds, not in the seconds.
pub fn due(
    alloc: Global,
    rows: &List<TimeRow>,
    old: &Clock,
    new: i64,
) -> Result<List<Clock>, DueError>
    requires recur { AllRecur rows.now }
    // Where a row has more kinds than a position has places, nothing is said of the list.
    ensures events { IfOk result (λ events. All HasPlaces rows.now → events ≡ due rows.now old.now new) }
    ensures few { OnOk result (length (due rows.now old.now new) ≤ due_limit) }
    ensures too_many { IfErr result (λ e. (count : ℕ) → e ≡ DueError.TooManyDue count
        → (due_limit < length (due rows.now old.now new)) × (count ≡ min (length (due rows.now old.now new)) (2 ^ 128 - 1))) }
{
    let count = count_due(rows.as_slice(), old, new);
    if count > DUE_LIMIT as u128 {
        return Err(DueError::TooManyDue { count });
    }
    Ok(list_due(alloc, rows.as_slice(), old, new)?)
}
