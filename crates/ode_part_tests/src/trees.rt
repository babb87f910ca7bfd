//! How many trees of states expressions have.
ghost use Rattle.std.specs.Prelude.{◌≡◌, ◌<◌, ◌≤◌, IfOk, true};
ghost use Rattle.ode_trees.specs.ListMachines.{condition_count};
ghost use Rattle.ode_value.specs.Limits.{choose_limit};
ghost use Rattle.ode_value.specs.Numbers.{has_numbers};

use crate::equal::equal;
use ode_trees::count_trees;
use ode_value::{Boxed, EventExpr, Kind, List};
use std::alloc::{AllocError, Global};

// `relative(after create, choose n (any))`
#[tactic(auto, using(ode_value::proofs::LeafLaws::forms))]
fn relative(alloc: Global, n: u32) -> Result<EventExpr, AllocError>
    requires some { 0 < n }
    requires small { n ≤ choose_limit }
    ensures one { IfOk result (λ e. condition_count e ≡ 1) }
    ensures numbers { IfOk result (λ e. has_numbers e ≡ true) }
{
    let start = Boxed::new(alloc, EventExpr::Leaf(Kind::Create, None))?;
    let any = Boxed::new(alloc, EventExpr::Any)?;
    let nth = Boxed::new(alloc, EventExpr::Choose(n, any))?;
    Ok(EventExpr::Relative(start, nth))
}

// `relplus(choose n (after create))`
#[tactic(auto, using(ode_value::proofs::LeafLaws::forms))]
fn chained(alloc: Global, n: u32) -> Result<EventExpr, AllocError>
    requires some { 0 < n }
    requires small { n ≤ choose_limit }
    ensures one { IfOk result (λ e. condition_count e ≡ 1) }
    ensures numbers { IfOk result (λ e. has_numbers e ≡ true) }
{
    let start = Boxed::new(alloc, EventExpr::Leaf(Kind::Create, None))?;
    let nth = Boxed::new(alloc, EventExpr::Choose(n, start))?;
    Ok(EventExpr::RelPlus(nth))
}

// `pipe(after create, choose n (any))`
#[tactic(auto, using(ode_value::proofs::LeafLaws::forms))]
fn piped(alloc: Global, n: u32) -> Result<EventExpr, AllocError>
    requires some { 0 < n }
    requires small { n ≤ choose_limit }
    ensures one { IfOk result (λ e. condition_count e ≡ 1) }
    ensures numbers { IfOk result (λ e. has_numbers e ≡ true) }
{
    let start = Boxed::new(alloc, EventExpr::Leaf(Kind::Create, None))?;
    let any = Boxed::new(alloc, EventExpr::Any)?;
    let nth = Boxed::new(alloc, EventExpr::Choose(n, any))?;
    Ok(EventExpr::Pipe(start, nth))
}

// How many trees an expression of one leaf has over its two symbols.
fn count(alloc: Global, e: &EventExpr) -> Result<Option<u32>, AllocError>
    requires one { condition_count e.now ≡ 1 }
    requires numbers { has_numbers e.now ≡ true }
{
    let without = List::from_slice(alloc, &[false])?;
    let with = List::from_slice(alloc, &[true])?;
    count_trees(alloc, e, &[without, with])
}

fn trees_of(alloc: Global, made: Result<EventExpr, AllocError>) -> Result<Option<u32>, AllocError>
    requires one { IfOk made (λ e. condition_count e ≡ 1) }
    requires numbers { IfOk made (λ e. has_numbers e ≡ true) }
{
    match made {
        Ok(e) => count(alloc, &e),
        Err(error) => Err(error),
    }
}

#[test]
fn trees_are_counted_up_to_512(rt: HostRuntime) {
    let alloc = rt.alloc();
    equal(&rt, &trees_of(alloc, relative(alloc, 5)), &Ok(Some(128)));
    equal(&rt, &trees_of(alloc, relative(alloc, 7)), &Ok(Some(512)));
    equal(&rt, &trees_of(alloc, relative(alloc, 8)), &Ok(None));
}

#[test]
fn trees_of_chains_and_pipes_are_counted(rt: HostRuntime) {
    let alloc = rt.alloc();
    equal(&rt, &trees_of(alloc, chained(alloc, 2)), &Ok(Some(9)));
    equal(&rt, &trees_of(alloc, piped(alloc, 2)), &Ok(Some(7)));
}
