//! Numbers that stand for a tree. Those of different trees differ, which no clause needs.
ghost use Rattle.std.specs.Prelude.{◌≡◌, ◌++◌, ◌∷◌, [], OnOk, cond, flat_map, length};
ghost use Rattle.ode_trees.specs.Codes.{code, pair_code};

use ode_value::StateTree;
use std::alloc::AllocError;

fn put(to: &mut Vec<u64>, form: u64, number: u64) -> Result<(), AllocError>
    ensures { OnOk result (to.new.items ≡ to.old.items ++ form ∷ number ∷ []) }
{
    to.push(form)?;
    to.push(number)?;
    Ok(())
}

/// Adds the numbers of a tree.
#[cycle(code)]
#[tactic(auto, using(crate::proofs::CodeLaws::codes))]
pub fn write(s: &StateTree, to: &mut Vec<u64>) -> Result<(), AllocError>
    ensures { OnOk result (to.new.items ≡ to.old.items ++ code s.now) }
{
    match s {
        StateTree::Bit(b) => put(to, 0, u64::from(*b)),
        StateTree::Place(n) => put(to, 1, u64::from(*n)),
        StateTree::Seen(b, e) => {
            put(to, 2, u64::from(*b))?;
            write(e.get(), to)
        }
        StateTree::Both(e, f) => {
            put(to, 3, 0)?;
            write(e.get(), to)?;
            write(f.get(), to)
        }
        StateTree::Flag(e, f, b) => {
            put(to, 4, u64::from(*b))?;
            write(e.get(), to)?;
            write(f.get(), to)
        }
        StateTree::Count(e, n) => {
            put(to, 5, u64::from(*n))?;
            write(e.get(), to)
        }
        StateTree::Started(e, set) => {
            put(to, 6, set.len() as u64)?;
            write(e.get(), to)?;
            write_all(set.as_slice(), to)
        }
        StateTree::Pairs(e, set) => {
            put(to, 7, set.len() as u64)?;
            write(e.get(), to)?;
            write_pairs(set.as_slice(), to)
        }
        StateTree::Chained(set) => {
            put(to, 8, set.len() as u64)?;
            write_all(set.as_slice(), to)
        }
        StateTree::Waiting(e, f, set) => {
            put(to, 9, set.len() as u64)?;
            write(e.get(), to)?;
            write(f.get(), to)?;
            write_all(set.as_slice(), to)
        }
        StateTree::Masked(e, b) => {
            put(to, 10, u64::from(*b))?;
            write(e.get(), to)
        }
    }
}

#[cycle(code)]
fn write_all(set: &[StateTree], to: &mut Vec<u64>) -> Result<(), AllocError>
    ensures { OnOk result (to.new.items ≡ to.old.items ++ flat_map code set.now) }
{
    for s in set {
        write(s, to)?;
    }
    Ok(())
}

#[cycle(code)]
fn write_pairs(set: &[(StateTree, StateTree)], to: &mut Vec<u64>) -> Result<(), AllocError>
    ensures { OnOk result (to.new.items ≡ to.old.items ++ flat_map pair_code set.now) }
{
    for s in set {
        write(&s.0, to)?;
        write(&s.1, to)?;
    }
    Ok(())
}
