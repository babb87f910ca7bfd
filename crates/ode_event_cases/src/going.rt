//! Activations at points.

use crate::making::after;
use crate::watched::Watched;
use ode_states::{Fired, advance};
use ode_types::{Classes, Running};
use ode_value::List;
use std::alloc::{AllocError, Global};
use std::io;

fn number_in(words: &str, at: usize) -> u64 {
    match words.split_whitespace().nth(at) {
        Some(word) => word.parse::<u64>().unwrap_or(0),
        None => 0,
    }
}

/// A new activation with this number, of the trigger at this place of this class.
pub fn activation_of(alloc: Global, words: &str, on: bool) -> Running {
    Running {
        id: number_in(words, 0),
        class: u32::try_from(number_in(words, 1)).unwrap_or(0),
        trigger: u16::try_from(number_in(words, 2)).unwrap_or(0),
        args: List::new(alloc),
        state: 0,
        on,
        table: 0,
    }
}

// Lets the activations go on by a call of this method, and gives those that fire.
fn fired_by(
    alloc: Global,
    watched: &Watched,
    acts: &mut List<Running>,
    method: &str,
) -> Result<List<Fired>, AllocError> {
    let kind = after(alloc, method.as_bytes())?;
    let classes = Classes::new(alloc);
    advance(
        alloc,
        &watched.tables,
        &watched.alphabets,
        acts,
        &classes,
        &kind,
        &[],
        &[],
    )
}

fn print_numbers<R: Print>(rt: &R, fired: &[Fired]) -> io::Result<()> {
    for f in fired {
        print!(rt; " {}", f.activation)?;
    }
    Ok(())
}

fn print_states<R: Print>(rt: &R, acts: &[Running]) -> io::Result<()> {
    print!(rt; "; states")?;
    for a in acts {
        print!(rt; " {}", a.state)?;
    }
    println!(rt)
}

/// Lets the activations go on by a call of this method, and prints the numbers of those that fire, and the states of all.
pub fn print_fired<R: Print + AllocGlobal>(
    rt: &R,
    watched: &Watched,
    acts: &mut List<Running>,
    method: &str,
) -> io::Result<()> {
    print!(rt; "{method} fires")?;
    let fired = fired_by(rt.alloc(), watched, acts, method)?;
    print_numbers(rt, fired.as_slice())?;
    print_states(rt, acts.as_slice())
}
