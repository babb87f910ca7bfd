//! The order of trees.
ghost use Rattle.std.specs.Prelude.{◌≡◌};
ghost use Rattle.std.specs.Ordering.{bool_cmp, nat_cmp, ordering_then};
ghost use Rattle.ode_value.specs.TreeOrder.{list_cmp, pair_cmp, same_tree, tree_cmp};

use ode_value::StateTree;
use std::cmp::Ordering;

fn compare_bools(b: bool, c: bool) -> Ordering
    ensures { result ≡ bool_cmp b c }
{
    b.cmp(&c)
}

fn compare_places(m: u8, n: u8) -> Ordering
    ensures { result ≡ nat_cmp m n }
{
    m.cmp(&n)
}

fn compare_counts(m: u32, n: u32) -> Ordering
    ensures { result ≡ nat_cmp m n }
{
    m.cmp(&n)
}

fn then(first: Ordering, next: Ordering) -> Ordering
    ensures { result ≡ ordering_then first next }
{
    match first {
        Ordering::Less => Ordering::Less,
        Ordering::Equal => next,
        Ordering::Greater => Ordering::Greater,
    }
}

/// The order of two trees of one expression, part by part.
#[cycle(order)]
#[tactic(auto, using(crate::proofs::OrderLaws::orders))]
pub fn compare(s: &StateTree, t: &StateTree) -> Ordering
    ensures { result ≡ tree_cmp s.now t.now }
{
    match s {
        StateTree::Bit(b) => match t {
            StateTree::Bit(c) => compare_bools(*b, *c),
            _ => Ordering::Less,
        },
        StateTree::Place(m) => match t {
            StateTree::Place(n) => compare_places(*m, *n),
            _ => Ordering::Less,
        },
        StateTree::Seen(b, e) => match t {
            StateTree::Seen(c, f) => then(compare_bools(*b, *c), compare(e.get(), f.get())),
            _ => Ordering::Less,
        },
        StateTree::Both(e, f) => match t {
            StateTree::Both(g, h) => then(compare(e.get(), g.get()), compare(f.get(), h.get())),
            _ => Ordering::Less,
        },
        StateTree::Flag(e, f, b) => match t {
            StateTree::Flag(g, h, c) => then(
                compare(e.get(), g.get()),
                then(compare(f.get(), h.get()), compare_bools(*b, *c)),
            ),
            _ => Ordering::Less,
        },
        StateTree::Count(e, m) => match t {
            StateTree::Count(f, n) => then(compare(e.get(), f.get()), compare_counts(*m, *n)),
            _ => Ordering::Less,
        },
        StateTree::Started(e, x) => match t {
            StateTree::Started(f, y) => then(
                compare(e.get(), f.get()),
                compare_trees(x.as_slice(), y.as_slice()),
            ),
            _ => Ordering::Less,
        },
        StateTree::Pairs(e, x) => match t {
            StateTree::Pairs(f, y) => then(
                compare(e.get(), f.get()),
                compare_pairs(x.as_slice(), y.as_slice()),
            ),
            _ => Ordering::Less,
        },
        StateTree::Chained(x) => match t {
            StateTree::Chained(y) => compare_trees(x.as_slice(), y.as_slice()),
            _ => Ordering::Less,
        },
        StateTree::Waiting(e, f, x) => match t {
            StateTree::Waiting(g, h, y) => then(
                compare(e.get(), g.get()),
                then(
                    compare(f.get(), h.get()),
                    compare_trees(x.as_slice(), y.as_slice()),
                ),
            ),
            _ => Ordering::Less,
        },
        StateTree::Masked(e, b) => match t {
            StateTree::Masked(f, c) => then(compare(e.get(), f.get()), compare_bools(*b, *c)),
            _ => Ordering::Less,
        },
    }
}

#[cycle(order)]
fn compare_trees(xs: &[StateTree], ys: &[StateTree]) -> Ordering
    ensures { result ≡ list_cmp tree_cmp xs.now ys.now }
{
    for (i, x) in xs.iter().enumerate() {
        if i >= ys.len() {
            return Ordering::Greater;
        }
        let order = compare(x, &ys[i]);
        if order != Ordering::Equal {
            return order;
        }
    }
    if xs.len() < ys.len() {
        Ordering::Less
    } else {
        Ordering::Equal
    }
}

#[cycle(order)]
fn compare_pairs(xs: &[(StateTree, StateTree)], ys: &[(StateTree, StateTree)]) -> Ordering
    ensures { result ≡ list_cmp pair_cmp xs.now ys.now }
{
    for (i, x) in xs.iter().enumerate() {
        if i >= ys.len() {
            return Ordering::Greater;
        }
        let y = &ys[i];
        let order = then(compare(&x.0, &y.0), compare(&x.1, &y.1));
        if order != Ordering::Equal {
            return order;
        }
    }
    if xs.len() < ys.len() {
        Ordering::Less
    } else {
        Ordering::Equal
    }
}

/// The order of two pairs of trees.
pub fn compare_pair(x: &(StateTree, StateTree), y: &(StateTree, StateTree)) -> Ordering
    ensures { result ≡ pair_cmp x.now y.now }
{
    then(compare(&x.0, &y.0), compare(&x.1, &y.1))
}

/// Whether two trees are the same.
pub fn same(s: &StateTree, t: &StateTree) -> bool
    ensures { result ≡ same_tree s.now t.now }
{
    compare(s, t) == Ordering::Equal
}
