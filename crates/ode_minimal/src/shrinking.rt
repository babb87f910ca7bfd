//! A smaller table with the same answers.
ghost use Rattle.std.specs.Prelude.{◌≡◌, ◌<◌, ◌≤◌, EachIndex, IfOk, map, slice_index};
ghost use Rattle.ode_value.specs.Tables.{says_yes};
ghost use Rattle.ode_minimal.specs.Minimal.{AnswersAs, IsMinimal, IsReached};

use crate::collapse::{Collapse, collapse_alike};
use crate::marking::apart;
use ode_table::Table;
use ode_value::List;
use std::alloc::{AllocError, Global};

fn answers_of(alloc: Global, t: &Table, states: &[u16]) -> Result<List<bool>, AllocError>
    requires { EachIndex states.now (λ n. slice_index states.now n < t.now.states) }
    ensures { IfOk result (λ yes. yes ≡ map (says_yes t.now) states.now) }
{
    let mut yes = List::new(alloc);
    for q in states {
        yes.push(t.yes(*q))?;
    }
    Ok(yes)
}

/// The least table with the same answers on every word, the empty one included.
pub fn shrink(alloc: Global, t: &Table) -> Result<Table, AllocError>
    ensures answers { IfOk result (AnswersAs t.now) }
    ensures reached { IfOk result IsReached }
    ensures minimal { IfOk result IsMinimal }
    ensures few { IfOk result (λ small. small.states ≤ t.now.states) }
{
    let marked = apart(alloc, t)?;
    let kept = collapse_alike(alloc, t, marked.as_slice())?;
    let yes = answers_of(alloc, t, kept.states.as_slice())?;
    let states = kept.states.len() as u16;
    let Collapse { next, .. } = kept;
    match Table::from_parts(states, t.symbols(), next, yes) {
        Some(small) => Ok(small),
        None => unreachable!(),
    }
}
