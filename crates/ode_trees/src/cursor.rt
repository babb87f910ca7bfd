//! Where the truths of an expression's leaves, and those of its masks on composite events, begin in a list.
ghost use Rattle.std.specs.Prelude.{◌≡◌, ◌+◌, ◌<◌, ◌^◌};
ghost use Rattle.ode_trees.specs.ListMachines.{leaf_count, list_machine, mask_count, past, start};

use ode_value::EventExpr;

/// A place among the truths of leaves, and one among those of masks.
#[derive(Clone, Copy)]
pub struct Cursor {
    pub leaf: usize,
    pub mask: usize,
}

// How many leaves the expression has.
#[tactic(auto, using(crate::proofs::ListMachineLaws::leaf_listings))]
fn leaf_count(e: &EventExpr) -> usize
    requires { leaf_count e.now < 2 ^ 64 }
    ensures { result ≡ leaf_count e.now }
{
    match e {
        EventExpr::Leaf(_, _) => 1,
        EventExpr::Any => 0,
        EventExpr::First => 0,
        EventExpr::Not(e) => leaf_count(e.get()),
        EventExpr::And(e, f) => leaf_count(e.get()) + leaf_count(f.get()),
        EventExpr::Or(e, f) => leaf_count(e.get()) + leaf_count(f.get()),
        EventExpr::Relative(e, f) => leaf_count(e.get()) + leaf_count(f.get()),
        EventExpr::RelPlus(e) => leaf_count(e.get()),
        EventExpr::Prior(e, f) => leaf_count(e.get()) + leaf_count(f.get()),
        EventExpr::Sequence(e, f) => leaf_count(e.get()) + leaf_count(f.get()),
        EventExpr::Pipe(e, f) => leaf_count(e.get()) + leaf_count(f.get()),
        EventExpr::Choose(_, e) => leaf_count(e.get()),
        EventExpr::Every(_, e) => leaf_count(e.get()),
        EventExpr::Fa(e, f, g) => leaf_count(e.get()) + leaf_count(f.get()) + leaf_count(g.get()),
        EventExpr::FaAbs(e, f, g) => {
            leaf_count(e.get()) + leaf_count(f.get()) + leaf_count(g.get())
        }
        EventExpr::Masked(e, _) => leaf_count(e.get()),
    }
}

/// How many masks on composite events the expression has.
#[tactic(auto, using(crate::proofs::ListMachineLaws::mask_listings))]
pub fn mask_count(e: &EventExpr) -> usize
    requires { mask_count e.now < 2 ^ 64 }
    ensures { result ≡ mask_count e.now }
{
    match e {
        EventExpr::Leaf(_, _) => 0,
        EventExpr::Any => 0,
        EventExpr::First => 0,
        EventExpr::Not(e) => mask_count(e.get()),
        EventExpr::And(e, f) => mask_count(e.get()) + mask_count(f.get()),
        EventExpr::Or(e, f) => mask_count(e.get()) + mask_count(f.get()),
        EventExpr::Relative(e, f) => mask_count(e.get()) + mask_count(f.get()),
        EventExpr::RelPlus(e) => mask_count(e.get()),
        EventExpr::Prior(e, f) => mask_count(e.get()) + mask_count(f.get()),
        EventExpr::Sequence(e, f) => mask_count(e.get()) + mask_count(f.get()),
        EventExpr::Pipe(e, f) => mask_count(e.get()) + mask_count(f.get()),
        EventExpr::Choose(_, e) => mask_count(e.get()),
        EventExpr::Every(_, e) => mask_count(e.get()),
        EventExpr::Fa(e, f, g) => mask_count(e.get()) + mask_count(f.get()) + mask_count(g.get()),
        EventExpr::FaAbs(e, f, g) => {
            mask_count(e.get()) + mask_count(f.get()) + mask_count(g.get())
        }
        EventExpr::Masked(e, _) => mask_count(e.get()) + 1,
    }
}

/// The places behind those of an expression.
pub fn past(e: &EventExpr, at: Cursor) -> Cursor
    requires leaf { at.leaf + leaf_count e.now < 2 ^ 64 }
    requires mask { at.mask + mask_count e.now < 2 ^ 64 }
    ensures is { result ≡ past (list_machine e.now) at }
    ensures leaf { result.leaf ≡ at.leaf + leaf_count e.now }
    ensures mask { result.mask ≡ at.mask + mask_count e.now }
{
    Cursor {
        leaf: at.leaf + leaf_count(e),
        mask: at.mask + mask_count(e),
    }
}

/// The places in a list of all truths.
pub fn start(e: &EventExpr) -> Cursor
    requires { leaf_count e.now < 2 ^ 64 }
    ensures is { result ≡ start e.now }
    ensures leaf { result.leaf ≡ 0 }
    ensures mask { result.mask ≡ leaf_count e.now }
{
    Cursor {
        leaf: 0,
        mask: leaf_count(e),
    }
}
