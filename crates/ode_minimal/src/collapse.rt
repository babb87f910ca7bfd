//! Alike states put together.
ghost use Rattle.std.specs.Prelude.{◌≡◌, ◌<◌, ◌+◌, ◌^◌, IfOk, None, OnOk, count_by, is_some, length, replicate, slice_index_or};
ghost use Rattle.ode_minimal.specs.Minimal.{IsAlike};
ghost use Rattle.ode_minimal.specs.Marking.{IsDecided};
ghost use Rattle.ode_minimal.specs.Collapse.{IsCollapse, IsFirst, IsNumbered};

use ode_table::Table;
use ode_value::List;
use std::alloc::{AllocError, Global};

/// The states that are kept.
#[derive(Drop)]
pub(crate) struct Collapse {
    /// The state of each number.
    pub(crate) states: List<u16>,
    /// The number of each state, where it has one.
    pub(crate) numbers: List<Option<u16>>,
    /// The rows of the smaller table so far.
    pub(crate) next: List<u16>,
}

// The first state that is alike.
fn first_alike(t: &Table, marked: &[bool], q: u16) -> u16
    requires below { q < t.now.states }
    requires decided { IsDecided t.now marked.now }
    ensures below { result < t.now.states }
    ensures alike { IsAlike t.now result q }
    ensures first { IsFirst t.now result }
{
    for p in 0..q {
        if !marked[usize::from(p) * usize::from(t.states()) + usize::from(q)] {
            return p;
        }
    }
    q
}

// The number of a state, a new one where it has none.
fn number(kept: &mut Collapse, q: u16) -> Result<u16, AllocError>
    requires below { q < length kept.old.numbers }
    requires few { length kept.old.numbers < 2 ^ 16 }
    requires once { count_by is_some kept.old.numbers ≡ length kept.old.states }
    ensures { IfOk result (IsNumbered (slice_index_or kept.old.numbers q None) kept.old kept.new q) }
{
    if let Some(n) = kept.numbers.as_slice()[usize::from(q)] {
        return Ok(n);
    }
    let n = kept.states.len() as u16;
    kept.states.push(q)?;
    kept.numbers.set(usize::from(q), Some(n));
    Ok(n)
}

// Adds the number of what a symbol leads a kept state to.
fn step(
    t: &Table,
    marked: &[bool],
    kept: &mut Collapse,
    head: usize,
    s: u8,
) -> Result<(), AllocError>
    requires head { head < length kept.old.states }
    requires symbol { s < t.now.symbols }
    requires decided { IsDecided t.now marked.now }
    requires collapse { IsCollapse t.now kept.old head s }
    ensures head { OnOk result (head < length kept.new.states) }
    ensures collapse { OnOk result (IsCollapse t.now kept.new head (s + 1)) }
{
    let to = t.next(kept.states.as_slice()[head], s);
    let q = first_alike(t, marked, to);
    let n = number(kept, q)?;
    kept.next.push(n)?;
    Ok(())
}

// Adds the row of a kept state.
fn add_row(t: &Table, marked: &[bool], kept: &mut Collapse, head: usize) -> Result<(), AllocError>
    requires head { head < length kept.old.states }
    requires decided { IsDecided t.now marked.now }
    requires collapse { IsCollapse t.now kept.old head 0 }
    ensures { OnOk result (IsCollapse t.now kept.new (head + 1) 0) }
{
    for s in 0..t.symbols() {
        step(t, marked, kept, head, s)?;
    }
    Ok(())
}

// For each of so many states no number.
fn none_numbered(alloc: Global, states: u16) -> Result<List<Option<u16>>, AllocError>
    ensures { IfOk result (λ numbers. numbers ≡ replicate states None) }
{
    let numbers = vec![in alloc; None; usize::from(states)]?;
    Ok(List::from_vec(numbers))
}

// The start alone.
fn begin(alloc: Global, t: &Table) -> Result<Collapse, AllocError>
    ensures { IfOk result (λ kept. IsCollapse t.now kept 0 0) }
{
    let numbers = none_numbered(alloc, t.states())?;
    let mut kept = Collapse {
        states: List::new(alloc),
        numbers,
        next: List::new(alloc),
    };
    number(&mut kept, 0)?;
    Ok(kept)
}

/// The first states of their kind that words lead to, with their rows.
pub(crate) fn collapse_alike(
    alloc: Global,
    t: &Table,
    marked: &[bool],
) -> Result<Collapse, AllocError>
    requires { IsDecided t.now marked.now }
    ensures { IfOk result (λ kept. IsCollapse t.now kept (length kept.states) 0) }
{
    let mut kept = begin(alloc, t)?;
    let mut head = 0;
    while head < kept.states.len() {
        add_row(t, marked, &mut kept, head)?;
        head += 1;
    }
    Ok(kept)
}
