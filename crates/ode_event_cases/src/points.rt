//! Symbols, marks and masks.

use crate::making::{after, values_of};
use crate::pairs::print_answers;
use crate::watched::Watched;
use ode_symbols::{Alphabet, test};
use ode_value::{EventExpr, Fault, Kind, List, Value};
use std::alloc::{AllocError, Global};
use std::io;

fn print_fault<R: Print>(rt: &R, fault: Fault) -> io::Result<()> {
    match fault {
        Fault::Overflow => println!(rt; ", overflow"),
        Fault::DivideByZero => println!(rt; ", zero divisor"),
        Fault::NoObject(object) => println!(rt; ", no object {object}"),
        Fault::NoVersion(of) => println!(rt; ", no version of {}", of.object),
    }
}

// What the mask of a single leaf comes to.
fn print_mask<R: Print>(
    rt: &R,
    e: &EventExpr,
    params: &[Value],
    args: &[Value],
    own: &[Value],
) -> io::Result<()> {
    match e {
        EventExpr::Leaf(_, Some(mask)) => match test(mask, params, args, own) {
            Ok(holds) => println!(rt; ", {holds}"),
            Err(fault) => print_fault(rt, fault),
        },
        _ => println!(rt),
    }
}

fn print_mark<R: Print>(rt: &R, alphabet: &Alphabet, e: &EventExpr, symbol: u8) -> io::Result<()> {
    print!(rt; "symbol {symbol}:")?;
    let mark = alphabet.mark(e, symbol)?;
    print_answers(rt, mark.as_slice())
}

fn print_all<R: Print>(rt: &R, alphabet: &Alphabet, e: &EventExpr) -> io::Result<()> {
    for symbol in 0..alphabet.size() {
        print_mark(rt, alphabet, e, symbol)?;
        println!(rt)?;
    }
    Ok(())
}

/// Prints for each symbol whether each leaf holds at it.
pub fn print_marks<R: Print>(rt: &R, watched: &Watched) -> io::Result<()> {
    let (alphabets, events) = (watched.alphabets.as_slice(), watched.events.as_slice());
    for (alphabet, e) in alphabets.iter().zip(events) {
        print_all(rt, alphabet, e)?;
    }
    Ok(())
}

fn print_symbol<R: Print>(
    rt: &R,
    alphabet: &Alphabet,
    e: &EventExpr,
    kind: &Kind,
    lists: &List<List<Value>>,
) -> io::Result<()> {
    let (params, args, own) = (
        values_at(lists, 0),
        values_at(lists, 1),
        values_at(lists, 2),
    );
    let symbol = alphabet.symbol(params, kind, args, own);
    print_mark(rt, alphabet, e, symbol)?;
    print_mask(rt, e, params, args, own)
}

fn print_symbols<R: Print>(
    rt: &R,
    watched: &Watched,
    kind: &Kind,
    lists: &List<List<Value>>,
) -> io::Result<()> {
    let (alphabets, events) = (watched.alphabets.as_slice(), watched.events.as_slice());
    for (alphabet, e) in alphabets.iter().zip(events) {
        print_symbol(rt, alphabet, e, kind, lists)?;
    }
    Ok(())
}

// The values of the parts behind the first.
fn lists_of(alloc: Global, line: &str) -> Result<List<List<Value>>, AllocError> {
    let mut lists = List::new(alloc);
    for part in line.split('/').skip(1) {
        lists.push(values_of(alloc, part)?)?;
    }
    Ok(lists)
}

fn values_at(lists: &List<List<Value>>, at: usize) -> &[Value] {
    match lists.as_slice().get(at) {
        Some(values) => values.as_slice(),
        None => &[],
    }
}

fn kind_of(alloc: Global, line: &str) -> Result<Kind, AllocError> {
    let name = line.split('/').next().unwrap_or("").trim();
    after(alloc, name.as_bytes())
}

/// Prints which symbol a call with these values is, whether each leaf holds at it, and what a single mask comes to.
pub fn print_point<R: Print + AllocGlobal>(
    rt: &R,
    watched: &Watched,
    line: &str,
) -> io::Result<()> {
    print!(rt; "{line}: ")?;
    let kind = kind_of(rt.alloc(), line)?;
    let lists = lists_of(rt.alloc(), line)?;
    print_symbols(rt, watched, &kind, &lists)
}
