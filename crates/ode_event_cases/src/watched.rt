//! A trigger's event with its alphabet and its table.
ghost use Rattle.std.specs.Prelude.{◌<◌, ◌^◌, length};

use crate::making::keeps_numbers;
use crate::pairs::is_least;
use ode_checker::check_class;
use ode_classyn::parse_class;
use ode_eventsyn::SyntaxError;
use ode_minimal::shrink;
use ode_symbols::{Alphabet, AlphabetError};
use ode_table::{BuildError, Table, build};
use ode_types::{CheckStop, Classes};
use ode_value::{Class, ClassDecl, EventExpr, List, TriggerDecl};
use std::alloc::{AllocError, Global};
use std::io;

/// An event, its table and its alphabet, each at place 0, if there are any.
#[derive(Drop)]
pub struct Watched {
    pub events: List<EventExpr>,
    pub tables: List<Table>,
    pub alphabets: List<Alphabet>,
}

impl Watched {
    /// None.
    pub fn new(alloc: Global) -> Watched {
        Watched {
            events: List::new(alloc),
            tables: List::new(alloc),
            alphabets: List::new(alloc),
        }
    }
}

/// Why there is none.
#[derive(Drop)]
pub enum Stop {
    Memory,
    /// The text is no class with a trigger.
    Unread,
    /// A static rule is broken.
    Broken,
    TooManySymbols(u32),
    TooManyStates,
}

impl From<AllocError> for Stop {
    fn from(_: AllocError) -> Stop {
        Stop::Memory
    }
}

fn stop_of(stop: CheckStop) -> Stop {
    match stop {
        CheckStop::Memory => Stop::Memory,
        CheckStop::Broken(_) => Stop::Broken,
    }
}

fn checked_by(alloc: Global, classes: &Classes, class: &ClassDecl) -> Result<Class, Stop> {
    match check_class(alloc, classes, class) {
        Ok(checked) => Ok(checked),
        Err(stop) => Err(stop_of(stop)),
    }
}

fn checked(alloc: Global, class: &ClassDecl) -> Result<Class, Stop> {
    let classes = Classes::new(alloc);
    checked_by(alloc, &classes, class)
}

fn class_of(alloc: Global, text: &[u8]) -> Result<Class, Stop>
    requires { length text.now < 2 ^ 32 }
{
    match parse_class(alloc, text) {
        Ok(class) => checked(alloc, &class),
        Err(SyntaxError::Memory) => Err(Stop::Memory),
        Err(_) => Err(Stop::Unread),
    }
}

fn last_event(alloc: Global, triggers: &[TriggerDecl]) -> Result<EventExpr, Stop> {
    match triggers.last() {
        Some(trigger) => Ok(trigger.event.copy(alloc)?),
        None => Err(Stop::Unread),
    }
}

// The event of the last trigger of a class.
fn event_of(alloc: Global, text: &[u8]) -> Result<EventExpr, Stop>
    requires { length text.now < 2 ^ 32 }
{
    let class = class_of(alloc, text)?;
    last_event(alloc, class.triggers.as_slice())
}

fn alphabet_of(alloc: Global, e: &EventExpr) -> Result<Alphabet, Stop> {
    match Alphabet::of(alloc, e) {
        Ok(alphabet) => Ok(alphabet),
        Err(AlphabetError::Memory) => Err(Stop::Memory),
        Err(AlphabetError::TooManySymbols { count }) => Err(Stop::TooManySymbols(count)),
    }
}

fn table_of(alloc: Global, e: &EventExpr, alphabet: &Alphabet) -> Result<Table, Stop> {
    if !keeps_numbers(e) {
        return Err(Stop::Unread);
    }
    match build(alloc, e, alphabet) {
        Ok(table) => Ok(table),
        Err(BuildError::Memory) => Err(Stop::Memory),
        Err(BuildError::TooManyStates) => Err(Stop::TooManyStates),
    }
}

fn add_parts(alloc: Global, e: &EventExpr, watched: &mut Watched) -> Result<(), Stop> {
    let alphabet = alphabet_of(alloc, e)?;
    watched.tables.push(table_of(alloc, e, &alphabet)?)?;
    watched.alphabets.push(alphabet)?;
    Ok(())
}

/// Adds the event of the last trigger of the class that a text has.
pub fn watch(alloc: Global, text: &str, watched: &mut Watched) -> Result<(), Stop> {
    let text = text.as_bytes();
    if text.len() >= 4_294_967_296 {
        return Err(Stop::Unread);
    }
    let event = event_of(alloc, text)?;
    add_parts(alloc, &event, watched)?;
    watched.events.push(event)?;
    Ok(())
}

fn print_size<R: Print + AllocGlobal>(rt: &R, table: &Table, small: &Table) -> io::Result<()> {
    println!(rt; "{} states, {} at least", table.states(), small.states())?;
    if is_least(rt.alloc(), table, small)? {
        Ok(())
    } else {
        println!(rt; "differs")
    }
}

fn print_states<R: Print + AllocGlobal>(rt: &R, table: &Table) -> io::Result<()> {
    let small = shrink(rt.alloc(), table)?;
    print_size(rt, table, &small)
}

/// Prints how many symbols and states there are.
pub fn print_sizes<R: Print + AllocGlobal>(rt: &R, watched: &Watched) -> io::Result<()> {
    for alphabet in watched.alphabets.as_slice() {
        print!(rt; "{} symbols, ", alphabet.size())?;
    }
    for table in watched.tables.as_slice() {
        print_states(rt, table)?;
    }
    Ok(())
}

/// Prints why there is no table.
pub fn print_stop<R: Print>(rt: &R, stop: Stop) -> io::Result<()> {
    match stop {
        Stop::Memory => println!(rt; "no memory"),
        Stop::Unread => println!(rt; "unread"),
        Stop::Broken => println!(rt; "a broken rule"),
        Stop::TooManySymbols(count) => println!(rt; "too many symbols, {count}"),
        Stop::TooManyStates => println!(rt; "too many states"),
    }
}
