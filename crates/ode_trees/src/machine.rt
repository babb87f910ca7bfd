//! The first tree of an expression, a step and the answer.
ghost use Rattle.std.specs.Prelude.{◌≡◌, ◌&&◌, ◌+◌, ◌<◌, ◌≤◌, ◌∷◌, [], IfOk, OnOk, cond, filter, length, map, min, true};
ghost use Rattle.std.specs.List.{list_any};
ghost use Rattle.ode_trees.specs.ListMachines.{condition_count, leaf_count, list_machine, mask_count, next_listed, pairs_after, past, start, unanswered_after};
ghost use Rattle.ode_value.specs.Limits.{choose_limit};
ghost use Rattle.ode_value.specs.Marks.{Mark, spelled};
ghost use Rattle.ode_value.specs.Numbers.{has_numbers};
ghost use Rattle.ode_value.specs.TreeOrder.{all_joined, joined, pair_cmp, tree_cmp};
ghost use Rattle.ode_value.specs.Trees.{answers, first_tree, is_spent, left, machine, next_count, next_tree, next_turn, right, with_first};

use crate::copying::copy;
use crate::cursor::{Cursor, mask_count, past, start};
use crate::part::{bit, count, left, pairs, right, started};
use crate::set::join;
use ode_value::{Boxed, EventExpr, List, StateTree};
use std::alloc::{AllocError, Global};

fn seen(alloc: Global, bit: bool, part: StateTree) -> Result<StateTree, AllocError>
    ensures { IfOk result (λ t. t ≡ StateTree.Seen bit part) }
{
    Ok(StateTree::Seen(bit, Boxed::new(alloc, part)?))
}

fn both(alloc: Global, first: StateTree, second: StateTree) -> Result<StateTree, AllocError>
    ensures { IfOk result (λ t. t ≡ StateTree.Both first second) }
{
    Ok(StateTree::Both(Boxed::new(alloc, first)?, Boxed::new(alloc, second)?))
}

fn flagged(
    alloc: Global,
    first: StateTree,
    second: StateTree,
    flag: bool,
) -> Result<StateTree, AllocError>
    ensures { IfOk result (λ t. t ≡ StateTree.Flag first second flag) }
{
    Ok(StateTree::Flag(Boxed::new(alloc, first)?, Boxed::new(alloc, second)?, flag))
}

fn counted(alloc: Global, part: StateTree, count: u32) -> Result<StateTree, AllocError>
    ensures { IfOk result (λ t. t ≡ StateTree.Count part count) }
{
    Ok(StateTree::Count(Boxed::new(alloc, part)?, count))
}

fn with_started(
    alloc: Global,
    part: StateTree,
    set: List<StateTree>,
) -> Result<StateTree, AllocError>
    ensures { IfOk result (λ t. t ≡ StateTree.Started part set) }
{
    Ok(StateTree::Started(Boxed::new(alloc, part)?, set))
}

fn with_pairs(
    alloc: Global,
    part: StateTree,
    set: List<(StateTree, StateTree)>,
) -> Result<StateTree, AllocError>
    ensures { IfOk result (λ t. t ≡ StateTree.Pairs part set) }
{
    Ok(StateTree::Pairs(Boxed::new(alloc, part)?, set))
}

fn waiting(
    alloc: Global,
    first: StateTree,
    third: StateTree,
    set: List<StateTree>,
) -> Result<StateTree, AllocError>
    ensures { IfOk result (λ t. t ≡ StateTree.Waiting first third set) }
{
    Ok(StateTree::Waiting(Boxed::new(alloc, first)?, Boxed::new(alloc, third)?, set))
}

fn masked(alloc: Global, part: StateTree, holds: bool) -> Result<StateTree, AllocError>
    ensures { IfOk result (λ t. t ≡ StateTree.Masked part holds) }
{
    Ok(StateTree::Masked(Boxed::new(alloc, part)?, holds))
}

fn alone(alloc: Global, s: StateTree) -> Result<List<StateTree>, AllocError>
    ensures { IfOk result (λ set. set ≡ s ∷ []) }
{
    let mut set = List::new(alloc);
    set.push(s)?;
    Ok(set)
}

/// The tree before the first point.
#[tactic(auto, using(crate::proofs::MachineLaws::machines))]
pub fn init(alloc: Global, e: &EventExpr) -> Result<StateTree, AllocError>
    ensures { IfOk result (λ s. s ≡ first_tree e.now) }
{
    match e {
        EventExpr::Leaf(_, _) => Ok(StateTree::Bit(false)),
        EventExpr::Any => Ok(StateTree::Bit(false)),
        EventExpr::First => Ok(StateTree::Place(0)),
        EventExpr::Not(e) => {
            let part = init(alloc, e.get())?;
            seen(alloc, false, part)
        }
        EventExpr::And(e, f) => {
            let first = init(alloc, e.get())?;
            let second = init(alloc, f.get())?;
            both(alloc, first, second)
        }
        EventExpr::Or(e, f) => {
            let first = init(alloc, e.get())?;
            let second = init(alloc, f.get())?;
            both(alloc, first, second)
        }
        EventExpr::Relative(e, _) => {
            let part = init(alloc, e.get())?;
            with_started(alloc, part, List::new(alloc))
        }
        EventExpr::Prior(e, f) => {
            let first = init(alloc, e.get())?;
            let second = init(alloc, f.get())?;
            flagged(alloc, first, second, false)
        }
        EventExpr::Sequence(e, f) => {
            let first = init(alloc, e.get())?;
            let second = init(alloc, f.get())?;
            flagged(alloc, first, second, false)
        }
        EventExpr::Choose(_, e) => {
            let part = init(alloc, e.get())?;
            counted(alloc, part, 0)
        }
        EventExpr::Every(_, e) => {
            let part = init(alloc, e.get())?;
            counted(alloc, part, 0)
        }
        EventExpr::Fa(e, _, _) => {
            let part = init(alloc, e.get())?;
            with_pairs(alloc, part, List::new(alloc))
        }
        EventExpr::RelPlus(e) => {
            let first = init(alloc, e.get())?;
            Ok(StateTree::Chained(alone(alloc, first)?))
        }
        EventExpr::Pipe(e, f) => {
            let first = init(alloc, e.get())?;
            let second = init(alloc, f.get())?;
            flagged(alloc, first, second, false)
        }
        EventExpr::FaAbs(e, _, g) => {
            let first = init(alloc, e.get())?;
            let third = init(alloc, g.get())?;
            waiting(alloc, first, third, List::new(alloc))
        }
        EventExpr::Masked(e, _) => {
            let part = init(alloc, e.get())?;
            masked(alloc, part, false)
        }
    }
}

/// Whether a tree answers.
#[cycle(out)]
#[tactic(auto, using(crate::proofs::MachineLaws::machines))]
pub fn out(e: &EventExpr, s: &StateTree) -> bool
    ensures { result ≡ answers e.now s.now }
{
    match e {
        EventExpr::Leaf(_, _) => bit(s),
        EventExpr::Any => bit(s),
        EventExpr::First => count(s) == 1,
        EventExpr::Not(e) => bit(s) && !out(e.get(), left(s)),
        EventExpr::And(e, f) => out(e.get(), left(s)) && out(f.get(), right(s)),
        EventExpr::Or(e, f) => out(e.get(), left(s)) || out(f.get(), right(s)),
        EventExpr::Relative(_, f) => any_out(f.get(), started(s)),
        EventExpr::Prior(_, f) => bit(s) && out(f.get(), right(s)),
        EventExpr::Sequence(_, f) => bit(s) && out(f.get(), right(s)),
        EventExpr::Choose(n, e) => out(e.get(), left(s)) && count(s) == *n,
        EventExpr::Every(_, e) => out(e.get(), left(s)) && count(s) == 0,
        EventExpr::Fa(_, f, _) => any_first_out(f.get(), pairs(s)),
        EventExpr::RelPlus(e) => any_out(e.get(), started(s)),
        EventExpr::Pipe(_, _) => bit(s),
        EventExpr::FaAbs(_, f, _) => any_out(f.get(), started(s)),
        EventExpr::Masked(e, _) => out(e.get(), left(s)) && bit(s),
    }
}

#[cycle(out)]
fn any_out(e: &EventExpr, set: &[StateTree]) -> bool
    ensures { result ≡ list_any (answers e.now) set.now }
{
    for s in set {
        if out(e, s) {
            return true;
        }
    }
    false
}

#[cycle(out)]
fn any_first_out(e: &EventExpr, set: &[(StateTree, StateTree)]) -> bool
    ensures { result ≡ list_any (λ x. answers e.now x.0) set.now }
{
    for s in set {
        if out(e, &s.0) {
            return true;
        }
    }
    false
}

fn place_after(c: u32) -> u8
    ensures { result ≡ min (c + 1) 2 }
{
    if c < 2 { c as u8 + 1 } else { 2 }
}

fn count_after(n: u32, answers: bool, c: u32) -> u32
    requires { n ≤ choose_limit }
    ensures { result ≡ next_count n answers c }
{
    if answers && c <= n {
        c + 1
    } else if answers {
        n + 1
    } else {
        c
    }
}

fn turn_after(n: u32, answers: bool, c: u32) -> u32
    requires { 0 < n }
    ensures { result ≡ next_turn n answers c }
{
    if answers {
        ((u64::from(c) + 1) % u64::from(n)) as u32
    } else {
        c
    }
}

// The tree after one more point, of which the list says from two places on which leaves and masks hold.
#[cycle(step)]
#[tactic(auto, using(crate::proofs::ListMachineLaws::steps))]
fn step_at(
    alloc: Global,
    e: &EventExpr,
    s: &StateTree,
    mark: &[bool],
    at: Cursor,
) -> Result<StateTree, AllocError>
    requires leaf { at.leaf + leaf_count e.now ≤ length mark.now }
    requires mask { at.mask + mask_count e.now ≤ length mark.now }
    requires numbers { has_numbers e.now ≡ true }
    ensures { IfOk result (λ t. t ≡ next_listed e.now at mark.now s.now) }
{
    match e {
        EventExpr::Leaf(_, _) => Ok(StateTree::Bit(mark[at.leaf])),
        EventExpr::Any => Ok(StateTree::Bit(true)),
        EventExpr::First => Ok(StateTree::Place(place_after(count(s)))),
        EventExpr::Not(e) => {
            let part = step_at(alloc, e.get(), left(s), mark, at)?;
            seen(alloc, true, part)
        }
        EventExpr::And(e, f) => {
            let (first, second) = step_two(alloc, e.get(), f.get(), s, mark, at)?;
            both(alloc, first, second)
        }
        EventExpr::Or(e, f) => {
            let (first, second) = step_two(alloc, e.get(), f.get(), s, mark, at)?;
            both(alloc, first, second)
        }
        EventExpr::Relative(e, f) => step_relative(alloc, e.get(), f.get(), s, mark, at),
        EventExpr::Prior(e, f) => {
            let flag = bit(s) || out(e.get(), left(s));
            let (first, second) = step_two(alloc, e.get(), f.get(), s, mark, at)?;
            flagged(alloc, first, second, flag)
        }
        EventExpr::Sequence(e, f) => {
            let flag = out(e.get(), left(s));
            let (first, second) = step_two(alloc, e.get(), f.get(), s, mark, at)?;
            flagged(alloc, first, second, flag)
        }
        EventExpr::Choose(n, e) => {
            let part = step_at(alloc, e.get(), left(s), mark, at)?;
            let answers = out(e.get(), &part);
            counted(alloc, part, count_after(*n, answers, count(s)))
        }
        EventExpr::Every(n, e) => {
            let part = step_at(alloc, e.get(), left(s), mark, at)?;
            let answers = out(e.get(), &part);
            counted(alloc, part, turn_after(*n, answers, count(s)))
        }
        EventExpr::Fa(e, f, g) => step_fa(alloc, e.get(), f.get(), g.get(), s, mark, at),
        EventExpr::RelPlus(e) => step_relplus(alloc, e.get(), s, mark, at),
        EventExpr::Pipe(e, f) => step_pipe(alloc, e.get(), f.get(), s, mark, at),
        EventExpr::FaAbs(e, f, g) => step_faabs(alloc, e.get(), f.get(), g.get(), s, mark, at),
        EventExpr::Masked(e, _) => {
            let part = step_at(alloc, e.get(), left(s), mark, at)?;
            masked(alloc, part, mark[at.mask + mask_count(e.get())])
        }
    }
}

// Both parts of a tree.
#[cycle(step)]
fn step_two(
    alloc: Global,
    e: &EventExpr,
    f: &EventExpr,
    s: &StateTree,
    mark: &[bool],
    at: Cursor,
) -> Result<(StateTree, StateTree), AllocError>
    requires leaf { at.leaf + (leaf_count e.now + leaf_count f.now) ≤ length mark.now }
    requires mask { at.mask + (mask_count e.now + mask_count f.now) ≤ length mark.now }
    requires numbers { has_numbers e.now ≡ true }
    requires numbers_too { has_numbers f.now ≡ true }
    ensures first { IfOk result (λ t. t.0 ≡ next_listed e.now at mark.now (left s.now)) }
    ensures second { IfOk result (λ t. t.1 ≡ next_listed f.now (past (list_machine e.now) at) mark.now (right s.now)) }
{
    let first = step_at(alloc, e, left(s), mark, at)?;
    let second = step_at(alloc, f, right(s), mark, past(e, at))?;
    Ok((first, second))
}

// A first tree joins where there is an answer.
fn begin(
    alloc: Global,
    answers: bool,
    f: &EventExpr,
    set: &mut List<StateTree>,
) -> Result<(), AllocError>
    ensures { OnOk result (set.new ≡ with_first answers (joined tree_cmp (first_tree f.now)) set.old) }
{
    if answers {
        let first = init(alloc, f)?;
        join(set, first)?;
    }
    Ok(())
}

// The first pair joins where there is an answer.
fn begin_pair(
    alloc: Global,
    answers: bool,
    f: &EventExpr,
    g: &EventExpr,
    set: &mut List<(StateTree, StateTree)>,
) -> Result<(), AllocError>
    ensures { OnOk result (set.new ≡ with_first answers (joined pair_cmp (first_tree f.now, first_tree g.now)) set.old) }
{
    if answers {
        let first = init(alloc, f)?;
        let second = init(alloc, g)?;
        join(set, (first, second))?;
    }
    Ok(())
}

// The tree of `pipe` with these parts after a step, where the first one answers or doesn't.
fn passed(
    alloc: Global,
    starts: bool,
    f: &EventExpr,
    part: StateTree,
    second: StateTree,
) -> Result<StateTree, AllocError>
    ensures { IfOk result (λ t. t ≡ StateTree.Flag part second (starts && answers f.now second)) }
{
    let flag = starts && out(f, &second);
    flagged(alloc, part, second, flag)
}

// The members of a set that answer.
fn answering(
    alloc: Global,
    e: &EventExpr,
    set: List<StateTree>,
) -> Result<List<StateTree>, AllocError>
    ensures { IfOk result (λ kept. kept ≡ filter (answers e.now) set) }
{
    let mut kept = List::new(alloc);
    for s in set.into_vec() {
        if out(e, &s) {
            kept.push(s)?;
        }
    }
    Ok(kept)
}

// The tree of `relplus` with this set after a step.
fn chain(alloc: Global, e: &EventExpr, set: List<StateTree>) -> Result<StateTree, AllocError>
    ensures { IfOk result (λ t. t ≡ StateTree.Chained (with_first (list_any (answers e.now) set) (joined tree_cmp (first_tree e.now)) set)) }
{
    let mut set = set;
    let answers = any_out(e, set.as_slice());
    begin(alloc, answers, e, &mut set)?;
    Ok(StateTree::Chained(set))
}

// The set itself, or its members that answer.
fn unspoilt(
    alloc: Global,
    spoilt: bool,
    f: &EventExpr,
    set: List<StateTree>,
) -> Result<List<StateTree>, AllocError>
    ensures { IfOk result (λ kept. kept ≡ cond spoilt (filter (answers f.now) set) set) }
{
    if spoilt {
        answering(alloc, f, set)
    } else {
        Ok(set)
    }
}

// The tree of `faabs` with these parts after a step: where G answers, those that don't answer go; where E does, a first tree joins.
fn wait(
    alloc: Global,
    starts: bool,
    spoilt: bool,
    f: &EventExpr,
    first: StateTree,
    third: StateTree,
    set: List<StateTree>,
) -> Result<StateTree, AllocError>
    ensures { IfOk result (λ t. t ≡ StateTree.Waiting first third (with_first starts (joined tree_cmp (first_tree f.now)) (cond spoilt (filter (answers f.now) set) set))) }
{
    let mut set = unspoilt(alloc, spoilt, f, set)?;
    begin(alloc, starts, f, &mut set)?;
    waiting(alloc, first, third, set)
}

#[cycle(step)]
#[tactic(auto, using(crate::proofs::ListMachineLaws::steps))]
fn step_relative(
    alloc: Global,
    e: &EventExpr,
    f: &EventExpr,
    s: &StateTree,
    mark: &[bool],
    at: Cursor,
) -> Result<StateTree, AllocError>
    requires leaf { at.leaf + (leaf_count e.now + leaf_count f.now) ≤ length mark.now }
    requires mask { at.mask + (mask_count e.now + mask_count f.now) ≤ length mark.now }
    requires numbers { has_numbers e.now ≡ true }
    requires numbers_too { has_numbers f.now ≡ true }
    ensures { IfOk result (λ t. t ≡ next_listed (EventExpr.Relative e.now f.now) at mark.now s.now) }
{
    let part = step_at(alloc, e, left(s), mark, at)?;
    let mut set = step_all(alloc, f, started(s), mark, past(e, at))?;
    let answers = out(e, &part);
    begin(alloc, answers, f, &mut set)?;
    with_started(alloc, part, set)
}

#[cycle(step)]
#[tactic(auto, using(crate::proofs::ListMachineLaws::steps))]
fn step_fa(
    alloc: Global,
    e: &EventExpr,
    f: &EventExpr,
    g: &EventExpr,
    s: &StateTree,
    mark: &[bool],
    at: Cursor,
) -> Result<StateTree, AllocError>
    requires leaf { at.leaf + (leaf_count e.now + leaf_count f.now + leaf_count g.now) ≤ length mark.now }
    requires mask { at.mask + (mask_count e.now + mask_count f.now + mask_count g.now) ≤ length mark.now }
    requires numbers { has_numbers e.now ≡ true }
    requires numbers_too { has_numbers f.now ≡ true }
    requires numbers_also { has_numbers g.now ≡ true }
    ensures { IfOk result (λ t. t ≡ next_listed (EventExpr.Fa e.now f.now g.now) at mark.now s.now) }
{
    let part = step_at(alloc, e, left(s), mark, at)?;
    let mut set = step_pairs(alloc, f, g, pairs(s), mark, past(e, at))?;
    let answers = out(e, &part);
    begin_pair(alloc, answers, f, g, &mut set)?;
    with_pairs(alloc, part, set)
}

#[cycle(step)]
#[tactic(auto, using(crate::proofs::ListMachineLaws::steps))]
fn step_relplus(
    alloc: Global,
    e: &EventExpr,
    s: &StateTree,
    mark: &[bool],
    at: Cursor,
) -> Result<StateTree, AllocError>
    requires leaf { at.leaf + leaf_count e.now ≤ length mark.now }
    requires mask { at.mask + mask_count e.now ≤ length mark.now }
    requires numbers { has_numbers e.now ≡ true }
    ensures { IfOk result (λ t. t ≡ next_listed (EventExpr.RelPlus e.now) at mark.now s.now) }
{
    let set = step_all(alloc, e, started(s), mark, at)?;
    chain(alloc, e, set)
}

#[cycle(step)]
#[tactic(auto, using(crate::proofs::ListMachineLaws::steps))]
fn step_pipe(
    alloc: Global,
    e: &EventExpr,
    f: &EventExpr,
    s: &StateTree,
    mark: &[bool],
    at: Cursor,
) -> Result<StateTree, AllocError>
    requires leaf { at.leaf + (leaf_count e.now + leaf_count f.now) ≤ length mark.now }
    requires mask { at.mask + (mask_count e.now + mask_count f.now) ≤ length mark.now }
    requires numbers { has_numbers e.now ≡ true }
    requires numbers_too { has_numbers f.now ≡ true }
    ensures { IfOk result (λ t. t ≡ next_listed (EventExpr.Pipe e.now f.now) at mark.now s.now) }
{
    let part = step_at(alloc, e, left(s), mark, at)?;
    let starts = out(e, &part);
    let second = step_if(alloc, starts, f, right(s), mark, past(e, at))?;
    passed(alloc, starts, f, part, second)
}

// The tree after one more point, or the same tree.
#[cycle(step)]
fn step_if(
    alloc: Global,
    goes: bool,
    e: &EventExpr,
    s: &StateTree,
    mark: &[bool],
    at: Cursor,
) -> Result<StateTree, AllocError>
    requires leaf { at.leaf + leaf_count e.now ≤ length mark.now }
    requires mask { at.mask + mask_count e.now ≤ length mark.now }
    requires numbers { has_numbers e.now ≡ true }
    ensures { IfOk result (λ t. t ≡ cond goes (next_listed e.now at mark.now s.now) s.now) }
{
    if goes {
        step_at(alloc, e, s, mark, at)
    } else {
        copy(alloc, s)
    }
}

#[cycle(step)]
#[tactic(auto, using(crate::proofs::ListMachineLaws::steps))]
fn step_faabs(
    alloc: Global,
    e: &EventExpr,
    f: &EventExpr,
    g: &EventExpr,
    s: &StateTree,
    mark: &[bool],
    at: Cursor,
) -> Result<StateTree, AllocError>
    requires leaf { at.leaf + (leaf_count e.now + leaf_count f.now + leaf_count g.now) ≤ length mark.now }
    requires mask { at.mask + (mask_count e.now + mask_count f.now + mask_count g.now) ≤ length mark.now }
    requires numbers { has_numbers e.now ≡ true }
    requires numbers_too { has_numbers f.now ≡ true }
    requires numbers_also { has_numbers g.now ≡ true }
    ensures { IfOk result (λ t. t ≡ next_listed (EventExpr.FaAbs e.now f.now g.now) at mark.now s.now) }
{
    let second = past(e, at);
    let part = step_at(alloc, e, left(s), mark, at)?;
    let third = step_at(alloc, g, right(s), mark, past(f, second))?;
    let set = step_unanswered(alloc, f, started(s), mark, second)?;
    let starts = out(e, &part);
    let spoilt = out(g, &third);
    wait(alloc, starts, spoilt, f, part, third, set)
}

// The members of a set after their steps, as a set.
#[cycle(step)]
fn step_all(
    alloc: Global,
    e: &EventExpr,
    set: &[StateTree],
    mark: &[bool],
    at: Cursor,
) -> Result<List<StateTree>, AllocError>
    requires leaf { at.leaf + leaf_count e.now ≤ length mark.now }
    requires mask { at.mask + mask_count e.now ≤ length mark.now }
    requires numbers { has_numbers e.now ≡ true }
    ensures { IfOk result (λ t. t ≡ all_joined tree_cmp [] (map (next_listed e.now at mark.now) set.now)) }
{
    let mut after = List::new(alloc);
    for s in set {
        let next = step_at(alloc, e, s, mark, at)?;
        join(&mut after, next)?;
    }
    Ok(after)
}

// The same of those that don't answer.
#[cycle(step)]
fn step_unanswered(
    alloc: Global,
    e: &EventExpr,
    set: &[StateTree],
    mark: &[bool],
    at: Cursor,
) -> Result<List<StateTree>, AllocError>
    requires leaf { at.leaf + leaf_count e.now ≤ length mark.now }
    requires mask { at.mask + mask_count e.now ≤ length mark.now }
    requires numbers { has_numbers e.now ≡ true }
    ensures { IfOk result (λ t. t ≡ unanswered_after e.now at mark.now [] set.now) }
{
    let mut after = List::new(alloc);
    for s in set {
        if !out(e, s) {
            let next = step_at(alloc, e, s, mark, at)?;
            join(&mut after, next)?;
        }
    }
    Ok(after)
}

#[cycle(step)]
fn step_pairs(
    alloc: Global,
    f: &EventExpr,
    g: &EventExpr,
    set: &[(StateTree, StateTree)],
    mark: &[bool],
    at: Cursor,
) -> Result<List<(StateTree, StateTree)>, AllocError>
    requires leaf { at.leaf + (leaf_count f.now + leaf_count g.now) ≤ length mark.now }
    requires mask { at.mask + (mask_count f.now + mask_count g.now) ≤ length mark.now }
    requires numbers { has_numbers f.now ≡ true }
    requires numbers_too { has_numbers g.now ≡ true }
    ensures { IfOk result (λ t. t ≡ pairs_after f.now g.now at mark.now [] set.now) }
{
    let mut after = List::new(alloc);
    for s in set {
        if !out(f, &s.0) && !out(g, &s.1) {
            let first = step_at(alloc, f, &s.0, mark, at)?;
            let second = step_at(alloc, g, &s.1, mark, past(f, at))?;
            join(&mut after, (first, second))?;
        }
    }
    Ok(after)
}

/// The tree after one more point, of which the mark says of each leaf, in the order of the text, whether it holds, and then of each mask on
/// a composite event.
pub fn step(
    alloc: Global,
    e: &EventExpr,
    s: &StateTree,
    mark: &[bool],
) -> Result<StateTree, AllocError>
    requires whole { length mark.now ≡ condition_count e.now }
    requires numbers { has_numbers e.now ≡ true }
    ensures { IfOk result (λ t. (m : Mark) → mark.now ≡ spelled e.now m → t ≡ next_tree e.now m s.now) }
{
    step_listed(alloc, e, s, mark)
}

/// The same, said of the list.
pub(crate) fn step_listed(
    alloc: Global,
    e: &EventExpr,
    s: &StateTree,
    mark: &[bool],
) -> Result<StateTree, AllocError>
    requires whole { length mark.now ≡ condition_count e.now }
    requires numbers { has_numbers e.now ≡ true }
    ensures { IfOk result (λ t. t ≡ next_listed e.now (start e.now) mark.now s.now) }
{
    step_at(alloc, e, s, mark, start(e))
}
