//! The parts of a tree of states. A tree of another form has itself, false, 0 or nothing in their place.
ghost use Rattle.std.specs.Prelude.{◌≡◌};
ghost use Rattle.ode_value.specs.Trees.{bit, count, left, pairs, right, started};

use ode_value::StateTree;

#[tactic(auto, using(ode_value::specs::declared::tree::StateTree::the_lemmas), unfolding(ode_value::specs::Trees::left))]
pub fn left(s: &StateTree) -> &StateTree
    ensures { result.now ≡ left s.now }
{
    match s {
        StateTree::Seen(_, e) => e.get(),
        StateTree::Both(e, _) => e.get(),
        StateTree::Flag(e, _, _) => e.get(),
        StateTree::Count(e, _) => e.get(),
        StateTree::Started(e, _) => e.get(),
        StateTree::Pairs(e, _) => e.get(),
        StateTree::Waiting(e, _, _) => e.get(),
        StateTree::Masked(e, _) => e.get(),
        _ => s,
    }
}

#[tactic(auto, using(ode_value::specs::declared::tree::StateTree::the_lemmas), unfolding(ode_value::specs::Trees::right))]
pub fn right(s: &StateTree) -> &StateTree
    ensures { result.now ≡ right s.now }
{
    match s {
        StateTree::Both(_, f) => f.get(),
        StateTree::Flag(_, f, _) => f.get(),
        StateTree::Waiting(_, g, _) => g.get(),
        _ => s,
    }
}

#[tactic(auto, using(ode_value::specs::declared::tree::StateTree::the_lemmas), unfolding(ode_value::specs::Trees::bit))]
pub fn bit(s: &StateTree) -> bool
    ensures { result ≡ bit s.now }
{
    match s {
        StateTree::Bit(b) => *b,
        StateTree::Seen(b, _) => *b,
        StateTree::Flag(_, _, b) => *b,
        StateTree::Masked(_, b) => *b,
        _ => false,
    }
}

#[tactic(auto, using(ode_value::specs::declared::tree::StateTree::the_lemmas), unfolding(ode_value::specs::Trees::count))]
pub fn count(s: &StateTree) -> u32
    ensures { result ≡ count s.now }
{
    match s {
        StateTree::Place(c) => u32::from(*c),
        StateTree::Count(_, c) => *c,
        _ => 0,
    }
}

#[tactic(auto, using(ode_value::specs::declared::tree::StateTree::the_lemmas), unfolding(ode_value::specs::Trees::started))]
pub fn started(s: &StateTree) -> &[StateTree]
    ensures { result.now ≡ started s.now }
{
    match s {
        StateTree::Started(_, set) => set.as_slice(),
        StateTree::Chained(set) => set.as_slice(),
        StateTree::Waiting(_, _, set) => set.as_slice(),
        _ => &[],
    }
}

#[tactic(auto, using(ode_value::specs::declared::tree::StateTree::the_lemmas), unfolding(ode_value::specs::Trees::pairs))]
pub fn pairs(s: &StateTree) -> &[(StateTree, StateTree)]
    ensures { result.now ≡ pairs s.now }
{
    match s {
        StateTree::Pairs(_, set) => set.as_slice(),
        _ => &[],
    }
}
