//! The trees of classes, as they were declared.
ghost use Rattle.std.specs.Prelude.{◌≡◌, IsErrOf, IsTrue, Some, drop, true};
ghost use Rattle.std.specs.Option.{option_copied};
ghost use Rattle.ode_host.specs.Causes.{RoseIf};
ghost use Rattle.ode_host.specs.Host.{Looks};
ghost use Rattle.ode_keep.specs.Entries.{Entries};
ghost use Rattle.ode_language.specs.Languages.{ode};
ghost use Rattle.ode_opening.specs.Declaring.{read_in};
ghost use Rattle.ode_opening.specs.Trees.{Grows, tree_by, trees_in, trees_of};
ghost use Rattle.ode_passes.specs.Answers.{Answers, UnlessFault, is_usable};
ghost use Rattle.ode_passes.specs.Complete.{of_head};
ghost use Rattle.ode_passes.specs.Rules.{found};
ghost use Rattle.ode_passes.specs.declared.cause.Cause.TheVariants as cause;

use crate::births::read_added;
use crate::declaring::{class_among, read_in, text_in};
use ode_codec::Record;
use ode_host::Host;
use ode_keep::Keep;
use ode_passes::{Cause, Found, OpenError, class_count, of_head, walk};
use ode_value::{Added, ClassDecl, Key, List};
use std::alloc::Global;

// The tree of a class, where it was read.
fn tree_of(alloc: Global, read: Option<&ClassDecl>, number: u32) -> Result<ClassDecl, OpenError>
    ensures meant { Answers (found (cause.Class number) (option_copied read.entry)) result }
    ensures calm { IsErrOf result OpenError.DiskFault → ⊥ }
{
    match read {
        Some(tree) => Ok(tree.copy(alloc)?),
        None => Err(OpenError::BadFile(Cause::Class(number))),
    }
}

// The tree of a class that a text is read as.
fn tree_in(alloc: Global, text: &[u8], number: u32) -> Result<ClassDecl, OpenError>
    ensures meant { Answers (found (cause.Class number) (read_in ode text.now)) result }
    ensures calm { IsErrOf result OpenError.DiskFault → ⊥ }
{
    let read = read_in(alloc, text)?;
    let tree = tree_of(alloc, class_among(&read), number)?;
    Ok(tree)
}

// One more tree, and the place behind the pieces of its text.
#[tactic(auto, using(crate::proofs::Grown::cut_stops_tree, crate::proofs::Grown::read_stops_tree, crate::proofs::Grown::tree_put))]
fn put_tree(
    alloc: Global,
    trees: &mut List<ClassDecl>,
    records: &[(Key, Record)],
    at: usize,
    number: u32,
    length: u32,
) -> Result<usize, OpenError>
    ensures meant { Grows (tree_by ode (Some (number, length)) (trees.old, drop at records.now)) trees.new records.now result }
    ensures calm { IsErrOf result OpenError.DiskFault → ⊥ }
{
    let cut = text_in(alloc, records, at, number, length)?;
    let (text, next) = cut;
    let tree = tree_in(alloc, text.as_slice(), number)?;
    trees.push(tree)?;
    Ok(next)
}

// The same where a record is a head.
fn next_tree(
    alloc: Global,
    trees: &mut List<ClassDecl>,
    records: &[(Key, Record)],
    at: usize,
    row: &Record,
) -> Result<usize, OpenError>
    ensures meant { Grows (tree_by ode (of_head row.now) (trees.old, drop at records.now)) trees.new records.now result }
    ensures calm { IsErrOf result OpenError.DiskFault → ⊥ }
{
    match of_head(row) {
        Some((number, length)) => put_tree(alloc, trees, records, at, number, length),
        None => Ok(at),
    }
}

// The trees of all classes, whose pieces stand behind their heads.
#[tactic(auto, unfolding(crate::specs::Trees::trees_of))]
fn trees_of(alloc: Global, records: &[(Key, Record)]) -> Result<List<ClassDecl>, OpenError>
    ensures meant { Answers (trees_of ode records.now) result }
    ensures calm { IsErrOf result OpenError.DiskFault → ⊥ }
    ensures usable { is_usable result ≡ true }
{
    let mut trees = List::new(alloc);
    let mut at = class_count(records);
    for found in records {
        at = next_tree(alloc, &mut trees, records, at, &found.1)?;
    }
    Ok(trees)
}

/// What classes were declared as, in order, and the fields that were added to them, of which there are to be so many. Nothing is written.
#[tactic(auto, unfolding(crate::specs::Trees::trees_in))]
pub fn read_trees<H: Host, K: Keep<H>>(
    alloc: Global,
    keeper: &mut K,
    host: &mut H,
    count: u32,
) -> Result<(List<ClassDecl>, List<Added>), OpenError>
    requires live { IsTrue (K.live keeper.old) }
    ensures meant { (entries : Entries) → K.holds keeper.old (H.view host.old) entries → Answers (trees_in ode count entries) result }
    ensures holds { UnlessFault result ((entries : Entries) → K.holds keeper.old (H.view host.old) entries
        → K.holds keeper.new (H.view host.new) entries) }
    ensures looks { Looks (H.view host.old) (H.view host.new) }
    ensures usable { K.live keeper.new ≡ is_usable result }
    ensures cause { RoseIf (IsErrOf result OpenError.DiskFault) (H.view host.old).disk_faults (H.view host.new).disk_faults }
{
    let mut records: Found = List::new(alloc);
    walk(
        alloc,
        keeper,
        host,
        Key::CLASS_HEAD,
        Key::CLASS_PIECE,
        &mut records,
    )?;
    let trees = trees_of(alloc, records.as_slice())?;
    let added = read_added(alloc, keeper, host, records.as_slice(), count)?;
    Ok((trees, added))
}
