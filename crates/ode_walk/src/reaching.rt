//! The states of a table that words lead to.
ghost use Rattle.std.specs.Prelude.{◌≡◌, ℕ, ◌<◌, ◌+◌, ◌++◌, ◌∷◌, [], IfOk, OnOk, false, length, replicate, slice_index_or, slice_set, true};
ghost use Rattle.ode_value.specs.Tables.{Table as Automaton};
ghost use Rattle.ode_table.specs.Whole.{IsWhole};
ghost use Rattle.ode_walk.specs.Reaching.{IsFront, is_reached};
ghost use Rattle.ode_walk.specs.Relation.{IsReached};

use ode_table::Table;
use ode_value::List;
use std::alloc::{AllocError, Global};

/// The states that were found so far, and for each state whether it is one of them.
#[derive(Drop)]
pub(crate) struct Front {
    pub(crate) states: List<u16>,
    pub(crate) seen: List<bool>,
}

fn none_seen(alloc: Global, states: u16) -> Result<List<bool>, AllocError>
    ensures { IfOk result (λ seen. seen ≡ replicate states false) }
{
    let seen = vec![in alloc; false; usize::from(states)]?;
    Ok(List::from_vec(seen))
}

// Adds a state, unless it was found.
fn add(front: &mut Front, q: u16) -> Result<(), AllocError>
    requires { q < length front.old.seen }
    ensures known { OnOk result (slice_index_or front.old.seen q false ≡ true
        → (front.new.states ≡ front.old.states) × (front.new.seen ≡ front.old.seen)) }
    ensures new { OnOk result (slice_index_or front.old.seen q false ≡ false
        → (front.new.states ≡ front.old.states ++ q ∷ []) × (front.new.seen ≡ slice_set front.old.seen q true)) }
{
    if front.seen.as_slice()[usize::from(q)] {
        return Ok(());
    }
    front.states.push(q)?;
    front.seen.set(usize::from(q), true);
    Ok(())
}

// Steps a found state by a symbol.
fn step(table: &Table, front: &mut Front, head: usize, symbol: u8) -> Result<(), AllocError>
    requires head { head < length front.old.states }
    requires symbol { symbol < table.now.symbols }
    requires front { IsFront table.now front.old.states front.old.seen head symbol }
    ensures front { OnOk result (IsFront table.now front.new.states front.new.seen head (symbol + 1)) }
    ensures head { OnOk result (head < length front.new.states) }
{
    let q = table.next(front.states.as_slice()[head], symbol);
    add(front, q)?;
    Ok(())
}

// Steps a found state by each symbol.
fn step_by_each(table: &Table, front: &mut Front, head: usize) -> Result<(), AllocError>
    requires head { head < length front.old.states }
    requires front { IsFront table.now front.old.states front.old.seen head 0 }
    ensures { OnOk result (IsFront table.now front.new.states front.new.seen (head + 1) 0) }
{
    for symbol in 0..table.symbols() {
        step(table, front, head, symbol)?;
    }
    Ok(())
}

// The start alone.
fn begin(alloc: Global, table: &Table) -> Result<Front, AllocError>
    ensures { IfOk result (λ front. IsFront table.now front.states front.seen 0 0) }
{
    let mut front = Front {
        states: List::new(alloc),
        seen: none_seen(alloc, table.states())?,
    };
    add(&mut front, 0)?;
    Ok(front)
}

/// For each state of a table whether some word, perhaps empty, leads to it. Each entry of the table is looked at once.
pub fn reached(alloc: Global, table: &Table) -> Result<List<bool>, AllocError>
    ensures { IfOk result (λ seen. (q : ℕ) → slice_index_or seen q false ≡ is_reached table.now q) }
{
    let mut front = begin(alloc, table)?;
    let mut head = 0;
    while head < front.states.len() {
        step_by_each(table, &mut front, head)?;
        head += 1;
    }
    let Front { seen, .. } = front;
    Ok(seen)
}

/// The states that are told without a word are those that a word leads to.
pub fn words_lead_to_reached_states()
    ensures words { (t : Automaton) (q : ℕ) → IsWhole t → IsReached t q → is_reached t q ≡ true }
    ensures reached { (t : Automaton) (q : ℕ) → is_reached t q ≡ true → IsReached t q }
{}
