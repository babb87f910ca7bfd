//! Clock events that are due.
ghost use Rattle.std.specs.Prelude.{All, IfOk};
ghost use Rattle.ode_timer.specs.Due.{AllRecur, Recurs};

use ode_timer::{Clock, DueError, TimeRow, due};
use ode_value::{Kind, List};
use std::alloc::{AllocError, Global};
use std::io;

// How many events are printed one by one.
const FEW: usize = 12;

// `every N`, `at SECOND`, or a word for a kind that is no time's.
fn kind_of(words: &str) -> Kind
    ensures { Recurs result }
{
    match words.trim().split_once(' ') {
        Some(("every", number)) => Kind::TimeEvery(number.parse::<u32>().unwrap_or(1).max(1)),
        Some(("at", second)) => Kind::TimeAt(second.parse::<i64>().unwrap_or(0)),
        _ => Kind::Create,
    }
}

// An object and its kinds.
fn row_of(alloc: Global, words: &str) -> Result<TimeRow, AllocError>
    ensures { IfOk result (λ row. All Recurs row.kinds) }
{
    let words = words.trim();
    let (object, words) = words.split_once(' ').unwrap_or((words, ""));
    let mut kinds = List::new(alloc);
    for kind in words.split(',') {
        kinds.push(kind_of(kind))?;
    }
    Ok(TimeRow {
        object: object.parse::<u64>().unwrap_or(0),
        kinds,
    })
}

fn rows_of(alloc: Global, words: &str) -> Result<List<TimeRow>, AllocError>
    ensures { IfOk result AllRecur }
{
    let mut rows = List::new(alloc);
    for row in words.split('|') {
        rows.push(row_of(alloc, row)?)?;
    }
    Ok(rows)
}

fn number_in(words: &str, at: usize) -> i128 {
    match words.split_whitespace().nth(at) {
        Some(word) => word.parse::<i128>().unwrap_or(0),
        None => 0,
    }
}

fn second_in(words: &str, at: usize) -> i64 {
    i64::try_from(number_in(words, at)).unwrap_or(0)
}

// The position that the first three numbers give.
fn position_in(words: &str) -> Clock {
    Clock {
        instant: second_in(words, 0),
        object: u64::try_from(number_in(words, 1)).unwrap_or(0),
        place: u32::try_from(number_in(words, 2)).unwrap_or(0),
    }
}

fn print_event<R: Print>(rt: &R, event: &Clock) -> io::Result<()> {
    print!(rt; " {} {}/{}", event.instant, event.object, event.place)
}

fn print_events<R: Print>(rt: &R, events: &[Clock]) -> io::Result<()> {
    if events.len() > FEW {
        print!(rt; " {} events", events.len())?;
        return match (events.first(), events.last()) {
            (Some(first), Some(last)) => {
                print_event(rt, first)?;
                print_event(rt, last)
            }
            _ => Ok(()),
        };
    }
    for event in events {
        print_event(rt, event)?;
    }
    Ok(())
}

/// Prints the events that are due by this line.
pub fn print_due<R: Print + AllocGlobal>(rt: &R, line: &str) -> io::Result<()> {
    let (position, rows) = line.split_once('|').unwrap_or((line, ""));
    let rows = rows_of(rt.alloc(), rows)?;
    let old = position_in(position);
    print!(rt; "due {line}:")?;
    match due(rt.alloc(), &rows, &old, second_in(position, 3)) {
        Ok(events) => print_events(rt, events.as_slice())?,
        Err(DueError::TooManyDue { count }) => print!(rt; " too many {count}")?,
        Err(DueError::Memory) => print!(rt; " no memory")?,
    }
    println!(rt)
}
