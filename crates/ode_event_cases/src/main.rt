//! Prints of event expressions on standard input where they occur, by their tables and by their trees.
//!
//! - `members MEMBERS` and `params PARAMS` are the members of the class and the parameters of the trigger with the events below. In a
//!   word each letter is a point after a call of the method of that name; `words WORD..` are those for the events below.
//! - `event EVENT` is answered with how many symbols the event has, how many states its table, and how many the least one with the
//!   same answers; or with why it has none. Behind it stand the words, with a capital for each point at which the event occurs.
//!   `differs` says that its trees answer otherwise, or that the tables aren't related as they should be.
//! - `point M / PARAMS / ARGS / FIELDS` is a call with these values: which symbol of the last event it is, for each of its leaves
//!   whether it holds, and what a single leaf's mask comes to. `marks` are those of all its symbols.
//! - `on NUMBER CLASS PLACE` and `off ..` are activations of the last event's trigger, and `call M` is answered with the numbers of
//!   those that fire, and their states.
//! - `table STATES SYMBOLS / NEXT / ANSWERS` is a table of these parts, if they fit each other, and `relate` relates the last two.
//! - `== WORDS` is a heading.
#![tactic(auto)]

mod going;
mod making;
mod pairs;
mod points;
mod watched;
mod words;

use going::{activation_of, print_fired};
use ode_table::Table;
use ode_types::Running;
use ode_value::List;
use pairs::{print_relation, print_table, table_of};
use points::{print_marks, print_point};
use std::alloc::{AllocError, Global};
use std::io;
use watched::{Stop, Watched, print_sizes, print_stop, watch};
use words::print_words;

/// What the lines so far say.
#[derive(Drop)]
struct Lines {
    members: String,
    params: String,
    words: String,
    watched: Watched,
    acts: List<Running>,
    tables: List<Table>,
}

impl Lines {
    fn new(alloc: Global) -> Lines {
        Lines {
            members: String::new(alloc),
            params: String::new(alloc),
            words: String::new(alloc),
            watched: Watched::new(alloc),
            acts: List::new(alloc),
            tables: List::new(alloc),
        }
    }

    // A class with these members and a trigger with this event.
    fn class_text(&self, alloc: Global, event: &str) -> Result<String, AllocError> {
        let (members, params) = (self.members.as_str(), self.params.as_str());
        format!(in alloc; "class C {{ {members} trigger t({params}): {event} ==> {{ }} }}")
    }

    fn watch(&mut self, alloc: Global, event: &str) -> Result<(), Stop> {
        self.acts = List::new(alloc);
        self.watched = Watched::new(alloc);
        let text = self.class_text(alloc, event)?;
        watch(alloc, text.as_str(), &mut self.watched)
    }
}

fn print_watched<R: Print + AllocGlobal>(rt: &R, lines: &Lines) -> io::Result<()> {
    print_sizes(rt, &lines.watched)?;
    print_words(rt, &lines.watched, lines.words.as_str())
}

fn print_event<R: Print + AllocGlobal>(rt: &R, lines: &mut Lines, event: &str) -> io::Result<()> {
    print!(rt; "{event}: ")?;
    match lines.watch(rt.alloc(), event) {
        Ok(()) => print_watched(rt, lines),
        Err(stop) => print_stop(rt, stop),
    }
}

fn add(alloc: Global, acts: &mut List<Running>, line: &str, on: bool) -> io::Result<()> {
    acts.push(activation_of(alloc, line, on))?;
    Ok(())
}

// The first word of a line, and what is behind it.
fn split(line: &str) -> (&str, &str) {
    line.split_once(' ').unwrap_or((line, ""))
}

// A line that speaks of the last event.
fn print_of_event<R: Print + AllocGlobal>(
    rt: &R,
    watched: &Watched,
    acts: &mut List<Running>,
    sort: &str,
    line: &str,
) -> io::Result<()> {
    match sort {
        "point" => print_point(rt, watched, line),
        "marks" => print_marks(rt, watched),
        "call" => print_fired(rt, watched, acts, line),
        "on" => add(rt.alloc(), acts, line, true),
        "off" => add(rt.alloc(), acts, line, false),
        _ => println!(rt; "{sort} {line}: what?"),
    }
}

fn print_of_last<R: Print + AllocGlobal>(rt: &R, lines: &mut Lines, line: &str) -> io::Result<()> {
    let (sort, rest) = split(line);
    if lines.watched.events.is_empty() {
        println!(rt; "{line}: no event")
    } else {
        print_of_event(rt, &lines.watched, &mut lines.acts, sort, rest)
    }
}

// A line of a table.
fn add_table<R: Print + AllocGlobal>(
    rt: &R,
    tables: &mut List<Table>,
    line: &str,
) -> io::Result<()> {
    let Some(table) = table_of(rt.alloc(), line)? else {
        return println!(rt; "{line}: no table");
    };
    print_table(rt, line, &table)?;
    tables.push(table)?;
    Ok(())
}

fn keep(alloc: Global, text: &mut String, line: &str) -> io::Result<()> {
    *text = line.to_string(alloc)?;
    Ok(())
}

fn print_line<R: Print + AllocGlobal>(rt: &R, lines: &mut Lines, line: &str) -> io::Result<()> {
    let (sort, rest) = split(line);
    match sort {
        "members" => keep(rt.alloc(), &mut lines.members, rest),
        "params" => keep(rt.alloc(), &mut lines.params, rest),
        "words" => keep(rt.alloc(), &mut lines.words, rest),
        "event" => print_event(rt, lines, rest),
        "table" => add_table(rt, &mut lines.tables, rest),
        "relate" => print_relation(rt, lines.tables.as_slice()),
        "==" | "" => println!(rt; "{line}"),
        _ => print_of_last(rt, lines, line),
    }
}

fn print_lines<R: Print + AllocGlobal>(rt: &R, lines: &mut Lines, text: &str) -> io::Result<()> {
    for line in text.lines() {
        print_line(rt, lines, line)?;
    }
    Ok(())
}

fn print_text<R: Print + AllocGlobal>(rt: &R, text: &str) -> io::Result<()> {
    let mut lines = Lines::new(rt.alloc());
    print_lines(rt, &mut lines, text)
}

fn main(rt: HostRuntime) -> io::Result<()> {
    let text = io::read_to_string(rt.alloc(), rt.reader())?;
    print_text(&rt, text.as_str())
}
