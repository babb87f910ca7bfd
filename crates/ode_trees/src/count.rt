//! How many trees an expression has.
ghost use Rattle.std.specs.Prelude.{◌≡◌, All, Bool, IfOk, List as Items, length, map, true};
ghost use Rattle.ode_trees.specs.ListMachines.{condition_count};
ghost use Rattle.ode_value.specs.Marks.{Mark, spelled};
ghost use Rattle.ode_value.specs.Numbers.{has_numbers};
ghost use Rattle.ode_value.specs.TreeCount.{count_over, counted};

use crate::growth::reach;
use ode_value::{EventExpr, List};
use std::alloc::{AllocError, Global};

/// The number of trees that words of these marks reach, up to the limit; None where it is more. A mark says of each leaf, in the order
/// of the text, whether it holds, and then of each mask on a composite event.
pub fn count_trees(
    alloc: Global,
    e: &EventExpr,
    marks: &[List<bool>],
) -> Result<Option<u32>, AllocError>
    requires whole { All (λ (mark : Items Bool). length mark ≡ condition_count e.now) marks.now }
    requires numbers { has_numbers e.now ≡ true }
    ensures { IfOk result (λ n. (ms : Items Mark) → marks.now ≡ map (spelled e.now) ms → n ≡ counted (count_over e.now ms)) }
{
    match reach(alloc, e, marks)? {
        Some(reached) => Ok(Some(reached.trees.len() as u32)),
        None => Ok(None),
    }
}
