//! The table of an event expression.
ghost use Rattle.std.specs.Prelude.{◌≡◌, ◌<◌, ◌≤◌, All, Bool, EachIndex, IfErr, IfOk, List as Items, length, map, slice_index, true};
ghost use Rattle.std.specs.List.{range_with_len};
ghost use Rattle.ode_value.specs.Symbols.{alphabet, mark_among, size_of};
ghost use Rattle.ode_table.specs.Built.{IsBuilt, IsOver, IsRefused, table_by};
ghost use Rattle.ode_table.specs.Whole.{IsWhole};
ghost use Rattle.ode_value.specs.declared.event.EventExpr.{EventExpr};
ghost use Rattle.ode_value.specs.Limits.{state_limit};
ghost use Rattle.ode_value.specs.Marks.{spelled};
ghost use Rattle.ode_value.specs.Numbers.{has_numbers};
ghost use Rattle.ode_value.specs.Tables.{Means};
ghost use Rattle.ode_value.specs.TreeCount.{tree_count};
ghost use Rattle.ode_value.specs.Trees.{answers};

use crate::automaton::Table;
use crate::error::BuildError;
use ode_symbols::Alphabet;
use ode_trees::{Reached, out, reach};
use ode_value::{EventExpr, List, StateTree};
use std::alloc::{AllocError, Global};

// For each symbol whether each leaf of the expression, and then each of its masks on composite events, holds at it.
fn marks_of(alloc: Global, e: &EventExpr, a: &Alphabet) -> Result<List<List<bool>>, AllocError>
    ensures { IfOk result (λ marks. marks ≡ map (λ s. spelled e.now (mark_among a.now s)) (range_with_len 0 (size_of a.now))) }
{
    let mut marks = List::new(alloc);
    for s in 0..a.size() {
        marks.push(a.mark(e, s)?)?;
    }
    Ok(marks)
}

fn answers_of(alloc: Global, e: &EventExpr, trees: &[StateTree]) -> Result<List<bool>, AllocError>
    ensures { IfOk result (λ yes. yes ≡ map (answers e.now) trees.now) }
{
    let mut yes = List::new(alloc);
    for s in trees {
        yes.push(out(e, s))?;
    }
    Ok(yes)
}

fn numbers_of(alloc: Global, numbers: &[usize]) -> Result<List<u16>, AllocError>
    requires { EachIndex numbers.now (λ k. slice_index numbers.now k < state_limit) }
    ensures { IfOk result (λ next. next ≡ numbers.now) }
{
    let mut next = List::new(alloc);
    for n in numbers {
        next.push(*n as u16)?;
    }
    Ok(next)
}

// The table of an expression's trees. It has symbols as many as the marks, of which the trees were reached.
fn table_of(
    alloc: Global,
    e: &EventExpr,
    symbols: u8,
    reached: &Reached,
) -> Result<Table, AllocError>
    requires fits { IsWhole (table_by e.now symbols reached.now) }
    requires few { length reached.now.trees ≤ state_limit }
    ensures { IfOk result (λ t. t ≡ table_by e.now symbols reached.now) }
{
    let yes = answers_of(alloc, e, reached.trees.as_slice())?;
    let next = numbers_of(alloc, reached.next.as_slice())?;
    let states = reached.trees.len() as u16;
    Ok(Table::of_parts(states, symbols, next, yes))
}

/// The table of an expression over an alphabet that has its leaves and its masks on composite events.
/// Each number of a `choose` or an `every` is within the limit.
pub fn build(alloc: Global, e: &EventExpr, a: &Alphabet) -> Result<Table, BuildError>
    requires numbers { has_numbers e.now ≡ true }
    ensures built { IfOk result (λ t. (of : EventExpr) → IsOver e.now of a.now → IsBuilt e.now of t) }
    ensures means { IfOk result (λ t. a.now ≡ alphabet e.now → Means t e.now) }
    ensures count { IfOk result (λ t. a.now ≡ alphabet e.now → t.states ≡ tree_count e.now) }
    ensures few { IfOk result (λ t. t.states ≤ state_limit) }
    ensures whole { IfOk result IsWhole }
    ensures refused { IfErr result (λ error. (of : EventExpr) → IsOver e.now of a.now → IsRefused e.now of error) }
{
    let marks = marks_of(alloc, e, a)?;
    match reach(alloc, e, marks.as_slice())? {
        Some(reached) => Ok(table_of(alloc, e, a.size(), &reached)?),
        None => Err(BuildError::TooManyStates),
    }
}
