//! Words of calls, and where an event occurs in them.
ghost use Rattle.std.specs.Prelude.{◌≡◌, true};
ghost use Rattle.ode_value.specs.Numbers.{has_numbers};

use crate::making::{after, keeps_numbers};
use crate::watched::Watched;
use ode_symbols::Alphabet;
use ode_table::Table;
use ode_trees::{StateTree, init, out, step};
use ode_value::EventExpr;
use std::alloc::{AllocError, Global};
use std::io;

fn symbol_of(alloc: Global, alphabet: &Alphabet, letter: u8) -> Result<u8, AllocError> {
    let kind = after(alloc, &[letter])?;
    Ok(alphabet.symbol(&[], &kind, &[], &[]))
}

fn tree_after(
    alloc: Global,
    e: &EventExpr,
    alphabet: &Alphabet,
    tree: &StateTree,
    symbol: u8,
) -> Result<StateTree, AllocError>
    requires { has_numbers e.now ≡ true }
{
    let mark = alphabet.mark(e, symbol)?;
    step(alloc, e, tree, mark.as_slice())
}

// The state of a table and the tree behind a word.
#[derive(Drop)]
struct Place {
    q: u16,
    tree: StateTree,
}

// Whether the event occurs at the next letter, where its tree answers as its table.
fn occurs(
    alloc: Global,
    e: &EventExpr,
    alphabet: &Alphabet,
    table: &Table,
    place: &mut Place,
    letter: u8,
) -> Result<Option<bool>, AllocError>
    requires { has_numbers e.now ≡ true }
{
    let symbol = symbol_of(alloc, alphabet, letter)?;
    if place.q >= table.states() || symbol >= table.symbols() {
        return Ok(None);
    }
    let q = table.next(place.q, symbol);
    place.q = q;
    place.tree = tree_after(alloc, e, alphabet, &place.tree, symbol)?;
    let yes = table.yes(q);
    Ok(if yes == out(e, &place.tree) {
        Some(yes)
    } else {
        None
    })
}

fn start(alloc: Global, e: &EventExpr) -> Result<Place, AllocError> {
    let tree = init(alloc, e)?;
    Ok(Place { q: 0, tree })
}

// Puts the letters of a word behind others, with a capital for each point at which the event occurs; or its trees don't answer
// as its table does.
fn add_letters(
    alloc: Global,
    e: &EventExpr,
    alphabet: &Alphabet,
    table: &Table,
    place: &mut Place,
    word: &[u8],
    shown: &mut Vec<u8>,
) -> Result<bool, AllocError>
    requires { has_numbers e.now ≡ true }
{
    for letter in word {
        let Some(yes) = occurs(alloc, e, alphabet, table, place, *letter)? else {
            return Ok(false);
        };
        shown.push(if yes {
            letter.to_ascii_uppercase()
        } else {
            *letter
        })?;
    }
    Ok(true)
}

fn add_shown(
    alloc: Global,
    e: &EventExpr,
    alphabet: &Alphabet,
    table: &Table,
    word: &[u8],
    shown: &mut Vec<u8>,
) -> Result<bool, AllocError>
    requires { has_numbers e.now ≡ true }
{
    let mut place = start(alloc, e)?;
    add_letters(alloc, e, alphabet, table, &mut place, word, shown)
}

// The word with a capital for each point at which the event occurs, where its trees answer as its table.
fn shown(
    alloc: Global,
    e: &EventExpr,
    alphabet: &Alphabet,
    table: &Table,
    word: &[u8],
) -> Result<Option<Vec<u8>>, AllocError> {
    if !keeps_numbers(e) {
        return Ok(None);
    }
    let mut shown = Vec::new(alloc);
    let is_same = add_shown(alloc, e, alphabet, table, word, &mut shown)?;
    Ok(if is_same { Some(shown) } else { None })
}

fn print_shown<R: Print + AllocGlobal>(
    rt: &R,
    e: &EventExpr,
    alphabet: &Alphabet,
    table: &Table,
    word: &str,
) -> io::Result<()> {
    match shown(rt.alloc(), e, alphabet, table, word.as_bytes())? {
        Some(word) => print!(rt; " {}", str::from_utf8(word.as_slice()).unwrap_or("?")),
        None => print!(rt; " {word} differs"),
    }
}

// A word behind a blank.
fn print_word<R: Print + AllocGlobal>(rt: &R, watched: &Watched, word: &str) -> io::Result<()> {
    let (alphabets, tables) = (watched.alphabets.as_slice(), watched.tables.as_slice());
    let Some(e) = watched.events.as_slice().first() else {
        return Ok(());
    };
    for (alphabet, table) in alphabets.iter().zip(tables) {
        print_shown(rt, e, alphabet, table, word)?;
    }
    Ok(())
}

/// Prints the words with a capital for each point at which the event occurs.
pub fn print_words<R: Print + AllocGlobal>(
    rt: &R,
    watched: &Watched,
    words: &str,
) -> io::Result<()> {
    for word in words.split_whitespace() {
        print_word(rt, watched, word)?;
    }
    if words.is_empty() {
        Ok(())
    } else {
        println!(rt)
    }
}
