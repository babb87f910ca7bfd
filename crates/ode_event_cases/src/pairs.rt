//! Tables of parts, and two tables related.

use ode_minimal::shrink;
use ode_table::Table;
use ode_value::List;
use ode_walk::{RelateError, relate};
use std::alloc::{AllocError, Global};
use std::io;

/// How two tables are related.
#[derive(Drop)]
enum Related {
    /// They haven't as many symbols.
    Apart,
    /// The built states of the stored ones.
    Same(List<Option<u16>>),
    /// A word that tells them apart.
    Differs(List<u8>),
}

fn relation(alloc: Global, stored: &Table, built: &Table) -> Result<Related, AllocError> {
    if stored.symbols() != built.symbols() {
        return Ok(Related::Apart);
    }
    match relate(alloc, stored, built) {
        Ok(numbers) => Ok(Related::Same(numbers)),
        Err(RelateError::Differs { word }) => Ok(Related::Differs(word)),
        Err(RelateError::Memory) => Err(AllocError),
    }
}

fn agree(alloc: Global, stored: &Table, built: &Table) -> Result<bool, AllocError> {
    Ok(matches!(relation(alloc, stored, built)?, Related::Same(_)))
}

// Whether each state has itself as its built one.
fn are_own(numbers: &[Option<u16>]) -> bool {
    for (q, number) in numbers.iter().enumerate() {
        if number.map(usize::from) != Some(q) {
            return false;
        }
    }
    true
}

fn has_own_states(alloc: Global, table: &Table) -> Result<bool, AllocError> {
    match relation(alloc, table, table)? {
        Related::Same(numbers) => Ok(are_own(numbers.as_slice())),
        _ => Ok(false),
    }
}

fn least_states(alloc: Global, table: &Table) -> Result<u16, AllocError> {
    let small = shrink(alloc, table)?;
    Ok(small.states())
}

/// Whether a smaller table agrees with a table, can't be made smaller, and each has its own states.
pub fn is_least(alloc: Global, table: &Table, small: &Table) -> Result<bool, AllocError> {
    Ok(
        small.states() <= table.states()
            && least_states(alloc, small)? == small.states()
            && agree(alloc, table, small)?
            && agree(alloc, small, table)?
            && has_own_states(alloc, table)?
            && has_own_states(alloc, small)?,
    )
}

fn number(word: Option<&str>) -> u64 {
    match word {
        Some(word) => word.parse::<u64>().unwrap_or(0),
        None => 0,
    }
}

fn next_of(alloc: Global, words: &str) -> Result<List<u16>, AllocError> {
    let mut next = List::new(alloc);
    for word in words.split_whitespace() {
        next.push(word.parse::<u16>().unwrap_or(0))?;
    }
    Ok(next)
}

fn answers_of(alloc: Global, words: &str) -> Result<List<bool>, AllocError> {
    let mut answers = List::new(alloc);
    for word in words.split_whitespace() {
        answers.push(word == "yes")?;
    }
    Ok(answers)
}

// The table of these parts, if they fit each other.
fn table_with(sizes: &str, next: List<u16>, answers: List<bool>) -> Option<Table> {
    let mut sizes = sizes.split_whitespace();
    let states = u16::try_from(number(sizes.next())).unwrap_or(0);
    let symbols = u8::try_from(number(sizes.next())).unwrap_or(0);
    Table::from_parts(states, symbols, next, answers)
}

/// The table of the parts on a line, if they fit each other.
pub fn table_of(alloc: Global, line: &str) -> Result<Option<Table>, AllocError> {
    let mut parts = line.split('/');
    let sizes = parts.next().unwrap_or("");
    let next = next_of(alloc, parts.next().unwrap_or(""))?;
    let answers = answers_of(alloc, parts.next().unwrap_or(""))?;
    Ok(table_with(sizes, next, answers))
}

/// Prints answers, each behind a blank.
pub fn print_answers<R: Print>(rt: &R, answers: &[bool]) -> io::Result<()> {
    for yes in answers {
        print!(rt; " {}", if *yes { "yes" } else { "no" })?;
    }
    Ok(())
}

fn print_least<R: Print>(rt: &R, line: &str, small: &Table) -> io::Result<()> {
    print!(rt; "{line}: {} at least:", small.states())?;
    print_answers(rt, small.answers())?;
    println!(rt)
}

/// Prints the least table with the same answers.
pub fn print_table<R: Print + AllocGlobal>(rt: &R, line: &str, table: &Table) -> io::Result<()> {
    let small = shrink(rt.alloc(), table)?;
    print_least(rt, line, &small)
}

fn print_numbers<R: Print>(rt: &R, numbers: &[Option<u16>]) -> io::Result<()> {
    print!(rt; "related:")?;
    for number in numbers {
        match number {
            Some(number) => print!(rt; " {number}")?,
            None => print!(rt; " none")?,
        }
    }
    println!(rt)
}

fn print_word<R: Print>(rt: &R, word: &[u8]) -> io::Result<()> {
    print!(rt; "told apart by")?;
    for symbol in word {
        print!(rt; " {symbol}")?;
    }
    println!(rt)
}

/// Prints how the last two tables are related, the first of them as the stored one.
pub fn print_relation<R: Print + AllocGlobal>(rt: &R, tables: &[Table]) -> io::Result<()> {
    let [.., stored, built] = tables else {
        return println!(rt; "no two tables");
    };
    match relation(rt.alloc(), stored, built)? {
        Related::Apart => println!(rt; "of other symbols"),
        Related::Same(numbers) => print_numbers(rt, numbers.as_slice()),
        Related::Differs(word) => print_word(rt, word.as_slice()),
    }
}
