//! Sets of trees, as lists in rising order.
ghost use Rattle.std.specs.Prelude.{◌≡◌, OnErr, OnOk};
ghost use Rattle.std.specs.declared.cmp.Ordering.{Ordering};
ghost use Rattle.ode_value.specs.TreeOrder.{joined, pair_cmp, tree_cmp};

use crate::order::{compare, compare_pair};
use ode_value::{List, StateTree};
use std::alloc::AllocError;
use std::cmp::Ordering;

/// What stands in a set.
pub trait Member: Drop {
    ghost cmp: { Self → Self → Ordering };

    /// The order of two members.
    fn order(&self, other: &Self) -> Ordering
        ensures { result ≡ cmp self.now other.now };
}

impl Member for StateTree {
    ghost cmp = { tree_cmp };

    fn order(&self, other: &StateTree) -> Ordering {
        compare(self, other)
    }
}

impl Member for (StateTree, StateTree) {
    ghost cmp = { pair_cmp };

    fn order(&self, other: &(StateTree, StateTree)) -> Ordering {
        compare_pair(self, other)
    }
}

/// Puts a member into its place, unless it is there. The set stays as it was where there is no memory.
pub fn join<T: Member>(set: &mut List<T>, member: T) -> Result<(), AllocError>
    ensures ok { OnOk result (set.new ≡ joined T.cmp member set.old) }
    ensures err { OnErr result (set.new ≡ set.old) }
{
    let mut at = 0;
    while at < set.len() {
        match member.order(&set.as_slice()[at]) {
            Ordering::Less => {
                return set.insert(at, member);
            }
            Ordering::Equal => return Ok(()),
            Ordering::Greater => {}
        }
        at += 1;
    }
    set.push(member)
}
