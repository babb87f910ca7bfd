//! The trees that words of marks reach, each with a number.
ghost use Rattle.std.specs.Prelude.{◌≡◌, ◌<◌, ◌≤◌, ◌++◌, ◌∷◌, [], All, Bool, IfOk, IfSome, List as Items, None, OnOk, Some, flat_map, fold, false, length, map, slice_index_or, true};
ghost use Rattle.std.specs.List.{list_any, slice_get};
ghost use Rattle.ode_trees.specs.Codes.{code};
ghost use Rattle.ode_trees.specs.Found.{Covers, IsAnswer, Leads};
ghost use Rattle.ode_trees.specs.ListMachines.{condition_count, each_step, listed_count};
ghost use Rattle.ode_value.specs.declared.tree.StateTree.{StateTree as Tree};
ghost use Rattle.ode_value.specs.Limits.{state_limit};
ghost use Rattle.ode_value.specs.Marks.{Mark, spelled};
ghost use Rattle.ode_value.specs.Numbers.{has_numbers};
ghost use Rattle.ode_value.specs.TreeCount.{counted, with_tree};
ghost use Rattle.ode_value.specs.TreeOrder.{same_tree};
ghost use Rattle.ode_value.specs.Trees.{first_tree};

use crate::codes::write;
use crate::machine::{init, step_listed};
use crate::order::same;
use ode_value::limits::STATE_LIMIT;
use ode_value::{EventExpr, List, StateTree};
use std::alloc::{AllocError, Global};
use std::collections::BTreeMap;

/// The trees of an expression that words of some marks reach.
#[derive(Drop)]
pub struct Reached {
    /// The first tree, and then each other in the order in which steps of those before it reach it.
    pub trees: List<StateTree>,
    /// For each tree in turn, the number of the tree after it by each mark in turn.
    pub next: List<usize>,
}

// The trees so far, their numbers under their codes, and the numbers of the trees after those that were stepped.
#[derive(Drop)]
struct Search {
    trees: List<StateTree>,
    numbers: BTreeMap<Vec<u64>, usize>,
    next: List<usize>,
}

// The number of a tree, where it is this one.
fn number_if(trees: &[StateTree], number: usize, s: &StateTree) -> Option<usize>
    ensures { IfSome result (λ n. slice_get trees.now n ≡ Some s.now) }
{
    if number < trees.len() && same(s, &trees[number]) {
        Some(number)
    } else {
        None
    }
}

// The number of a tree, looked for among all.
fn find(trees: &[StateTree], s: &StateTree) -> Option<usize>
    ensures some { IfSome result (λ n. slice_get trees.now n ≡ Some s.now) }
    ensures none { result ≡ None → list_any (same_tree s.now) trees.now ≡ false }
{
    for (i, t) in trees.iter().enumerate() {
        if same(s, t) {
            return Some(i);
        }
    }
    None
}

// The number that stands under a code, where it is that of the tree. Trees of one code are equal, but no clause says so: a tree
// that stands under another one's code would be looked for among all.
fn number(found: &Search, key: &[u64], s: &StateTree) -> Option<usize>
    requires key { key.now ≡ code s.now }
    requires covers { Covers found.now.trees found.now.numbers.entries (λ k. k.items) }
    ensures some { IfSome result (λ n. slice_get found.now.trees n ≡ Some s.now) }
    ensures none { result ≡ None → list_any (same_tree s.now) found.now.trees ≡ false }
{
    match found.numbers.get(key) {
        Some(n) => match number_if(found.trees.as_slice(), *n, s) {
            Some(n) => Some(n),
            None => find(found.trees.as_slice(), s),
        },
        None => None,
    }
}

// Adds a tree under its code.
fn add(found: &mut Search, key: Vec<u64>, s: StateTree) -> Result<(), AllocError>
    requires key { key.items ≡ code s }
    requires covers { Covers found.old.trees found.old.numbers.entries (λ k. k.items) }
    ensures covers { OnOk result (Covers found.new.trees found.new.numbers.entries (λ k. k.items)) }
    ensures trees { OnOk result (found.new.trees ≡ found.old.trees ++ s ∷ []) }
    ensures next { found.new.next ≡ found.old.next }
{
    let n = found.trees.len();
    found.numbers.insert(key, n)?;
    found.trees.push(s)
}

fn key_of(alloc: Global, s: &StateTree) -> Result<Vec<u64>, AllocError>
    ensures { IfOk result (λ key. key.items ≡ code s.now) }
{
    let mut key = Vec::new(alloc);
    write(s, &mut key)?;
    Ok(key)
}

// Adds the number of a tree, and the tree where it is new.
fn note(alloc: Global, found: &mut Search, s: StateTree) -> Result<(), AllocError>
    requires covers { Covers found.old.trees found.old.numbers.entries (λ k. k.items) }
    ensures covers { OnOk result (Covers found.new.trees found.new.numbers.entries (λ k. k.items)) }
    ensures trees { OnOk result (found.new.trees ≡ with_tree found.old.trees s) }
    ensures next { OnOk result ((steps : Items Tree) → Leads found.old.trees found.old.next steps
        → Leads found.new.trees found.new.next (steps ++ s ∷ [])) }
{
    let key = key_of(alloc, &s)?;
    match number(found, key.as_slice(), &s) {
        Some(n) => found.next.push(n),
        None => {
            let n = found.trees.len();
            add(found, key, s)?;
            found.next.push(n)
        }
    }
}

fn note_each(alloc: Global, found: &mut Search, new: List<StateTree>) -> Result<(), AllocError>
    requires covers { Covers found.old.trees found.old.numbers.entries (λ k. k.items) }
    ensures covers { OnOk result (Covers found.new.trees found.new.numbers.entries (λ k. k.items)) }
    ensures trees { OnOk result (found.new.trees ≡ fold with_tree found.old.trees new) }
    ensures next { OnOk result ((steps : Items Tree) → Leads found.old.trees found.old.next steps
        → Leads found.new.trees found.new.next (steps ++ new)) }
{
    for s in new.into_vec() {
        note(alloc, found, s)?;
    }
    Ok(())
}

// What steps of one tree by each of the marks give.
fn step_by_each(
    alloc: Global,
    e: &EventExpr,
    marks: &[List<bool>],
    s: &StateTree,
) -> Result<List<StateTree>, AllocError>
    requires whole { All (λ (mark : Items Bool). length mark ≡ condition_count e.now) marks.now }
    requires numbers { has_numbers e.now ≡ true }
    ensures { IfOk result (λ new. new ≡ each_step e.now marks.now s.now) }
{
    let mut new = List::new(alloc);
    for mark in marks {
        new.push(step_listed(alloc, e, s, mark.as_slice())?)?;
    }
    Ok(new)
}

// Adds what steps of the tree of this number give.
fn add_row(
    alloc: Global,
    e: &EventExpr,
    marks: &[List<bool>],
    found: &mut Search,
    q: usize,
) -> Result<(), AllocError>
    requires within { q < length found.old.trees }
    requires covers { Covers found.old.trees found.old.numbers.entries (λ k. k.items) }
    requires whole { All (λ (mark : Items Bool). length mark ≡ condition_count e.now) marks.now }
    requires numbers { has_numbers e.now ≡ true }
    ensures covers { OnOk result (Covers found.new.trees found.new.numbers.entries (λ k. k.items)) }
    ensures trees { OnOk result (found.new.trees
        ≡ fold with_tree found.old.trees (each_step e.now marks.now (slice_index_or found.old.trees q (first_tree e.now)))) }
    ensures next { OnOk result ((steps : Items Tree) → Leads found.old.trees found.old.next steps
        → Leads found.new.trees found.new.next (steps ++ each_step e.now marks.now (slice_index_or found.old.trees q (first_tree e.now)))) }
{
    let new = step_by_each(alloc, e, marks, &found.trees.as_slice()[q])?;
    note_each(alloc, found, new)
}

fn begin(alloc: Global, e: &EventExpr) -> Result<Search, AllocError>
    ensures covers { IfOk result (λ found. Covers found.trees found.numbers.entries (λ k. k.items)) }
    ensures trees { IfOk result (λ found. found.trees ≡ first_tree e.now ∷ []) }
    ensures next { IfOk result (λ found. found.next ≡ []) }
{
    let first = init(alloc, e)?;
    let key = key_of(alloc, &first)?;
    let mut found = Search {
        trees: List::new(alloc),
        numbers: BTreeMap::new(alloc),
        next: List::new(alloc),
    };
    add(&mut found, key, first)?;
    Ok(found)
}

// All trees that words reach, with the trees after each, or more of them than a trigger may have.
fn explore(alloc: Global, e: &EventExpr, marks: &[List<bool>]) -> Result<Search, AllocError>
    requires whole { All (λ (mark : Items Bool). length mark ≡ condition_count e.now) marks.now }
    requires numbers { has_numbers e.now ≡ true }
    ensures count { IfOk result (λ found. counted (length found.trees) ≡ counted (listed_count e.now marks.now)) }
    ensures first { IfOk result (λ found. slice_get found.trees 0 ≡ Some (first_tree e.now)) }
    ensures next { IfOk result (λ found. length found.trees ≤ state_limit → Leads found.trees found.next (flat_map (each_step e.now marks.now) found.trees)) }
{
    let mut found = begin(alloc, e)?;
    let mut q = 0;
    while q < found.trees.len() && found.trees.len() <= STATE_LIMIT {
        add_row(alloc, e, marks, &mut found, q)?;
        q += 1;
    }
    Ok(found)
}

/// The trees that words of these marks reach, where a trigger may have so many. A mark says of each leaf, in the order of the text,
/// whether it holds, and then of each mask on a composite event.
pub fn reach(
    alloc: Global,
    e: &EventExpr,
    marks: &[List<bool>],
) -> Result<Option<Reached>, AllocError>
    requires whole { All (λ (mark : Items Bool). length mark ≡ condition_count e.now) marks.now }
    requires numbers { has_numbers e.now ≡ true }
    ensures few { IfOk result (λ answer. IfSome answer (λ reached. length reached.trees ≤ state_limit)) }
    ensures answer { IfOk result (λ answer. (ms : Items Mark) → marks.now ≡ map (spelled e.now) ms → IsAnswer e.now ms answer) }
{
    let found = explore(alloc, e, marks)?;
    if found.trees.len() <= STATE_LIMIT {
        let Search { trees, next, .. } = found;
        Ok(Some(Reached { trees, next }))
    } else {
        Ok(None)
    }
}
