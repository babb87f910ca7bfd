//! Copies of trees.
ghost use Rattle.std.specs.Prelude.{◌≡◌, IfOk};

use ode_value::{Boxed, List, StateTree};
use std::alloc::{AllocError, Global};

/// The same tree again.
#[cycle(copy)]
pub fn copy(alloc: Global, s: &StateTree) -> Result<StateTree, AllocError>
    ensures { IfOk result (λ copy. copy ≡ s.now) }
{
    match s {
        StateTree::Bit(b) => Ok(StateTree::Bit(*b)),
        StateTree::Place(n) => Ok(StateTree::Place(*n)),
        StateTree::Seen(b, e) => Ok(StateTree::Seen(*b, copy_boxed(alloc, e.get())?)),
        StateTree::Both(e, f) => {
            let e = copy_boxed(alloc, e.get())?;
            let f = copy_boxed(alloc, f.get())?;
            Ok(StateTree::Both(e, f))
        }
        StateTree::Flag(e, f, b) => {
            let e = copy_boxed(alloc, e.get())?;
            let f = copy_boxed(alloc, f.get())?;
            Ok(StateTree::Flag(e, f, *b))
        }
        StateTree::Count(e, n) => Ok(StateTree::Count(copy_boxed(alloc, e.get())?, *n)),
        StateTree::Started(e, set) => {
            let e = copy_boxed(alloc, e.get())?;
            let set = copy_all(alloc, set.as_slice())?;
            Ok(StateTree::Started(e, set))
        }
        StateTree::Pairs(e, set) => {
            let e = copy_boxed(alloc, e.get())?;
            let set = copy_pairs(alloc, set.as_slice())?;
            Ok(StateTree::Pairs(e, set))
        }
        StateTree::Chained(set) => Ok(StateTree::Chained(copy_all(alloc, set.as_slice())?)),
        StateTree::Waiting(e, f, set) => {
            let e = copy_boxed(alloc, e.get())?;
            let f = copy_boxed(alloc, f.get())?;
            let set = copy_all(alloc, set.as_slice())?;
            Ok(StateTree::Waiting(e, f, set))
        }
        StateTree::Masked(e, b) => Ok(StateTree::Masked(copy_boxed(alloc, e.get())?, *b)),
    }
}

#[cycle(copy)]
fn copy_boxed(alloc: Global, s: &StateTree) -> Result<Boxed<StateTree>, AllocError>
    ensures { IfOk result (λ copy. copy ≡ s.now) }
{
    let copy = copy(alloc, s)?;
    Boxed::new(alloc, copy)
}

#[cycle(copy)]
fn copy_all(alloc: Global, set: &[StateTree]) -> Result<List<StateTree>, AllocError>
    ensures { IfOk result (λ copies. copies ≡ set.now) }
{
    let mut copies = List::new(alloc);
    for s in set {
        let copy = copy(alloc, s)?;
        copies.push(copy)?;
    }
    Ok(copies)
}

#[cycle(copy)]
fn copy_pairs(
    alloc: Global,
    set: &[(StateTree, StateTree)],
) -> Result<List<(StateTree, StateTree)>, AllocError>
    ensures { IfOk result (λ copies. copies ≡ set.now) }
{
    let mut copies = List::new(alloc);
    for s in set {
        let first = copy(alloc, &s.0)?;
        let second = copy(alloc, &s.1)?;
        copies.push((first, second))?;
    }
    Ok(copies)
}
