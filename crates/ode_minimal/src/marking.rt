//! Which states some word tells apart.
ghost use Rattle.std.specs.Prelude.{◌≡◌, ◌≢◌, ℕ, ◌<◌, ◌+◌, ◌*◌, IfOk, OnOk, false, length, replicate, slice_index, slice_index_or, true};
ghost use Rattle.ode_value.specs.Tables.{next_state, says_yes};
ghost use Rattle.ode_minimal.specs.Minimal.{IsApart};
ghost use Rattle.ode_minimal.specs.Marking.{Grows, IsDecided, IsMarked, IsMarking, MarksAll, MarksSources, MarksUnequal, pair_at};
ghost use Rattle.ode_minimal.specs.Sources.{IsSources};

use crate::sources::{sources_at, sources_of};
use ode_table::Table;
use ode_value::List;
use std::alloc::{AllocError, Global};

/// Pairs of states that some word tells apart, and for each pair whether it is one of them.
#[derive(Drop)]
pub(crate) struct Marks {
    pub(crate) pairs: List<(u16, u16)>,
    pub(crate) marked: List<bool>,
}

fn none_marked(alloc: Global, t: &Table) -> Result<Marks, AllocError>
    ensures { IfOk result (IsMarking t.now) }
{
    let pairs = usize::from(t.states()) * usize::from(t.states());
    let marked = vec![in alloc; false; pairs]?;
    Ok(Marks {
        pairs: List::new(alloc),
        marked: List::from_vec(marked),
    })
}

// Marks a pair, unless it is marked.
fn mark(t: &Table, marks: &mut Marks, p: u16, q: u16) -> Result<(), AllocError>
    requires first { p < t.now.states }
    requires second { q < t.now.states }
    requires apart { IsApart t.now p q }
    requires marking { IsMarking t.now marks.old }
    ensures marking { OnOk result (IsMarking t.now marks.new) }
    ensures grows { OnOk result (Grows marks.old marks.new) }
    ensures marked { OnOk result (IsMarked t.now marks.new p q) }
{
    let place = usize::from(p) * usize::from(t.states()) + usize::from(q);
    if marks.marked.as_slice()[place] {
        return Ok(());
    }
    marks.pairs.push((p, q))?;
    marks.marked.set(place, true);
    Ok(())
}

// Marks the pairs of a state with each of these.
fn mark_with(t: &Table, marks: &mut Marks, p: u16, others: &[u16]) -> Result<(), AllocError>
    requires first { p < t.now.states }
    requires apart { (j : ℕ) → j < length others.now → (slice_index others.now j < t.now.states) × IsApart t.now p (slice_index others.now j) }
    requires marking { IsMarking t.now marks.old }
    ensures marking { OnOk result (IsMarking t.now marks.new) }
    ensures grows { OnOk result (Grows marks.old marks.new) }
    ensures marked { OnOk result (MarksAll t.now marks.new p others.now) }
{
    for q in others {
        mark(t, marks, p, *q)?;
    }
    Ok(())
}

// Marks the pairs of one of these with one of those.
fn mark_each(
    t: &Table,
    marks: &mut Marks,
    firsts: &[u16],
    seconds: &[u16],
) -> Result<(), AllocError>
    requires first { (i : ℕ) → i < length firsts.now → slice_index firsts.now i < t.now.states }
    requires apart { (i j : ℕ) → i < length firsts.now → j < length seconds.now
        → (slice_index seconds.now j < t.now.states) × IsApart t.now (slice_index firsts.now i) (slice_index seconds.now j) }
    requires marking { IsMarking t.now marks.old }
    ensures marking { OnOk result (IsMarking t.now marks.new) }
    ensures grows { OnOk result (Grows marks.old marks.new) }
    ensures marked { OnOk result ((i : ℕ) → i < length firsts.now → MarksAll t.now marks.new (slice_index firsts.now i) seconds.now) }
{
    for p in firsts {
        mark_with(t, marks, *p, seconds)?;
    }
    Ok(())
}

// Marks the pairs that a symbol leads to a marked pair.
fn step_back(
    t: &Table,
    sources: &Vec<List<u16>>,
    marks: &mut Marks,
    head: usize,
) -> Result<(), AllocError>
    requires head { head < length marks.old.pairs }
    requires sources { IsSources t.now sources.now.items }
    requires marking { IsMarking t.now marks.old }
    ensures marking { OnOk result (IsMarking t.now marks.new) }
    ensures grows { OnOk result (Grows marks.old marks.new) }
    ensures marked { OnOk result (MarksSources t.now marks.new (pair_at marks.old.pairs head) t.now.symbols) }
{
    let (p, q) = marks.pairs.as_slice()[head];
    for s in 0..t.symbols() {
        let to_p = sources_at(t, sources, p, s);
        let to_q = sources_at(t, sources, q, s);
        mark_each(t, marks, to_p, to_q)?;
    }
    Ok(())
}

// Marks the pairs of a state with each that has another answer.
fn mark_unequal(t: &Table, marks: &mut Marks, p: u16) -> Result<(), AllocError>
    requires below { p < t.now.states }
    requires marking { IsMarking t.now marks.old }
    ensures marking { OnOk result (IsMarking t.now marks.new) }
    ensures grows { OnOk result (Grows marks.old marks.new) }
    ensures marked { OnOk result (MarksUnequal t.now marks.new p t.now.states) }
{
    for q in 0..t.states() {
        if t.yes(p) != t.yes(q) {
            mark(t, marks, p, q)?;
        }
    }
    Ok(())
}

// The pairs of states with two answers.
fn begin(alloc: Global, t: &Table) -> Result<Marks, AllocError>
    ensures marking { IfOk result (IsMarking t.now) }
    ensures marked { IfOk result (λ marks. (p : ℕ) → p < t.now.states → MarksUnequal t.now marks p t.now.states) }
{
    let mut marks = none_marked(alloc, t)?;
    for p in 0..t.states() {
        mark_unequal(t, &mut marks, p)?;
    }
    Ok(marks)
}

/// For each pair of states whether some word, perhaps empty, tells them apart.
pub(crate) fn apart(alloc: Global, t: &Table) -> Result<List<bool>, AllocError>
    ensures { IfOk result (IsDecided t.now) }
{
    let sources = sources_of(alloc, t)?;
    let mut marks = begin(alloc, t)?;
    let mut head = 0;
    while head < marks.pairs.len() {
        step_back(t, &sources, &mut marks, head)?;
        head += 1;
    }
    let Marks { marked, .. } = marks;
    Ok(marked)
}
