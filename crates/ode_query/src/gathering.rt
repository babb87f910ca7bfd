//! All combinations in order, and the rows of those that pass.
ghost use Rattle.std.specs.Prelude.{◌≡◌, ◌∷◌, ◌+◌, ◌++◌, [], IfOk, IsErrOf, IsTrue, length, true};
ghost use Rattle.ode_host.specs.Causes.{RoseIf};
ghost use Rattle.ode_host.specs.Host.{Looks};
ghost use Rattle.ode_keep.specs.Entries.{Entries};
ghost use Rattle.ode_query.specs.Answers.{Says, UnlessFault, behind, leaving};
ghost use Rattle.ode_query.specs.Lookups.{AreRanges, numbers_of};
ghost use Rattle.ode_query.specs.Rows.{begun_by, rows_from};
ghost use Rattle.ode_run_frame.specs.Reads.{Reads};
ghost use Rattle.ode_value.specs.Worlds.{Bones};

use crate::combination::{passes, row_of, scene_of};
use crate::error::QueryError;
use crate::lookup::{Range, candidates};
use crate::row::Row;
use ode_asksyn::Query;
use ode_heap::Heap;
use ode_host::Host;
use ode_keep::Keep;
use ode_overlay::Overlay;
use ode_types::Classes;
use ode_value::{List, Value};
use std::alloc::{AllocError, Global};

// Adds the row of a combination, where it passes.
fn add_one<H: Host, K: Keep<H>>(
    alloc: Global,
    q: &Query,
    classes: &Classes,
    overlay: &Overlay,
    heap: &mut Heap<K>,
    host: &mut H,
    numbers: &[u64],
    rows: &mut List<(List<Value>, Row)>,
) -> Result<(), QueryError>
    requires live { IsTrue (K.live heap.old) }
    ensures value { (base : Entries) (b : Bones) → K.holds heap.old (H.view host.old) base → Reads classes.now base overlay.now b
        → Says (behind rows.old (rows_from b q.now (numbers.now ∷ []))) (leaving rows.new result) }
    ensures holds { (base : Entries) (b : Bones) → K.holds heap.old (H.view host.old) base → Reads classes.now base overlay.now b
        → UnlessFault result (K.holds heap.new (H.view host.new) base) }
    ensures usable { UnlessFault result (K.live heap.new ≡ true) }
    ensures looks { Looks (H.view host.old) (H.view host.new) }
    ensures cause { RoseIf (IsErrOf result QueryError.DiskFault) (H.view host.old).disk_faults (H.view host.new).disk_faults }
{
    let scene = scene_of(alloc, numbers)?;
    if !passes(alloc, &scene, classes, overlay, heap, host, &q.test)? {
        return Ok(());
    }
    let row = row_of(alloc, &scene, classes, overlay, heap, host, q)?;
    rows.push(row)?;
    Ok(())
}

// Numbers with one more.
fn with_number(alloc: Global, numbers: &[u64], number: u64) -> Result<List<u64>, AllocError>
    ensures { IfOk result (λ more. more ≡ numbers.now ++ number ∷ []) }
{
    let mut more = List::from_slice(alloc, numbers)?;
    more.push(number)?;
    Ok(more)
}

/// Adds the rows of the combinations that begin with these numbers and go on with one of each range, the last fastest.
#[cycle(gather)]
pub(crate) fn gather<H: Host, K: Keep<H>>(
    alloc: Global,
    q: &Query,
    classes: &Classes,
    overlay: &Overlay,
    heap: &mut Heap<K>,
    host: &mut H,
    chosen: &[u64],
    ranges: &[Range],
    rows: &mut List<(List<Value>, Row)>,
) -> Result<(), QueryError>
    requires live { IsTrue (K.live heap.old) }
    ensures value { (base : Entries) (b : Bones) → K.holds heap.old (H.view host.old) base → Reads classes.now base overlay.now b
        → AreRanges b q.now.test (length chosen.now) ranges.now → Says (behind rows.old (rows_from b q.now (begun_by chosen.now (numbers_of ranges.now)))) (leaving rows.new result) }
    ensures holds { (base : Entries) (b : Bones) → K.holds heap.old (H.view host.old) base → Reads classes.now base overlay.now b
        → UnlessFault result (K.holds heap.new (H.view host.new) base) }
    ensures usable { UnlessFault result (K.live heap.new ≡ true) }
    ensures looks { Looks (H.view host.old) (H.view host.new) }
    ensures cause { RoseIf (IsErrOf result QueryError.DiskFault) (H.view host.old).disk_faults (H.view host.new).disk_faults }
{
    match ranges {
        [] => add_one(alloc, q, classes, overlay, heap, host, chosen, rows),
        [range, ranges @ ..] => {
            let found = candidates(alloc, classes, overlay, heap, host, chosen, range)?;
            let found = found.as_slice();
            gather_from(
                alloc, q, classes, overlay, heap, host, chosen, found, ranges, rows,
            )
        }
    }
}

// The same, with one of these numbers before one of each range.
#[cycle(gather)]
fn gather_from<H: Host, K: Keep<H>>(
    alloc: Global,
    q: &Query,
    classes: &Classes,
    overlay: &Overlay,
    heap: &mut Heap<K>,
    host: &mut H,
    chosen: &[u64],
    numbers: &[u64],
    ranges: &[Range],
    rows: &mut List<(List<Value>, Row)>,
) -> Result<(), QueryError>
    requires live { IsTrue (K.live heap.old) }
    ensures value { (base : Entries) (b : Bones) → K.holds heap.old (H.view host.old) base → Reads classes.now base overlay.now b
        → AreRanges b q.now.test (length chosen.now + 1) ranges.now → Says (behind rows.old (rows_from b q.now (begun_by chosen.now (numbers.now ∷ numbers_of ranges.now)))) (leaving rows.new result) }
    ensures holds { (base : Entries) (b : Bones) → K.holds heap.old (H.view host.old) base → Reads classes.now base overlay.now b
        → UnlessFault result (K.holds heap.new (H.view host.new) base) }
    ensures usable { UnlessFault result (K.live heap.new ≡ true) }
    ensures looks { Looks (H.view host.old) (H.view host.new) }
    ensures cause { RoseIf (IsErrOf result QueryError.DiskFault) (H.view host.old).disk_faults (H.view host.new).disk_faults }
{
    for number in numbers {
        let more = with_number(alloc, chosen, *number)?;
        let more = more.as_slice();
        gather(alloc, q, classes, overlay, heap, host, more, ranges, rows)?;
    }
    Ok(())
}
