//! The answer to a query.
ghost use Rattle.std.specs.Prelude.{◌≡◌, IfOk, IsErrOf, IsTrue, List as Items, [], map, true};
ghost use Rattle.std.specs.List.{AllByRecursion};
ghost use Rattle.ode_heap.specs.Answering.{class_of};
ghost use Rattle.ode_heap_laws.specs.Few.{HoldsCounted};
ghost use Rattle.ode_host.specs.Causes.{RoseIf};
ghost use Rattle.ode_host.specs.Host.{Looks};
ghost use Rattle.ode_index.specs.Sorting.{sorted};
ghost use Rattle.ode_keep.specs.Entries.{Entries};
ghost use Rattle.ode_query.specs.Answers.{IsAnswer, Says, UnlessFault};
ghost use Rattle.ode_query.specs.Rows.{combinations, rows_from};
ghost use Rattle.ode_query.specs.Texts.{answered};
ghost use Rattle.ode_query.specs.declared.row.Row.{Row as ARow};
ghost use Rattle.ode_run_frame.specs.Reads.{Reads};
ghost use Rattle.ode_value.specs.GoodWorlds.{RiseFrom};
ghost use Rattle.ode_value.specs.Language.{Language, ListWorld};
ghost use Rattle.ode_value.specs.declared.class.Class.{Class as AClass};
ghost use Rattle.ode_value.specs.declared.value.Value.{Value as AValue};

use crate::error::QueryError;
use crate::gathering::gather;
use crate::instances::{count_combinations, read_all};
use crate::lookup::ranges_of;
use crate::row::Row;
use crate::text::fits;
use ode_asksyn::Query;
use ode_codec::Counters;
use ode_heap::Heap;
use ode_host::Host;
use ode_index::sort_rows;
use ode_keep::Keep;
use ode_known_laws::{transactions_begin_known, views_read_known};
use ode_overlay::{Origin, Overlay};
use ode_types::Classes;
use ode_value::{List, Value};
use std::alloc::{AllocError, Global};

/// The combinations of a query.
pub const COMBINATION_LIMIT: u128 = 1_000_000;

// What is read through, with nothing changed. Of the counters nothing is read.
fn unchanged(alloc: Global) -> Overlay
    ensures { result.objects ≡ [] }
{
    let counters = Counters {
        next_number: 1,
        next_transaction: 1,
        next_entry: 1,
        clock_set: false,
        instant: 0,
        object: 0,
        place: 0,
        added: 0,
    };
    Overlay::begin(alloc, counters, 0, Origin::Script)
}

// Such an overlay, through which each world that records hold is read.
fn reading(alloc: Global) -> Overlay
    ensures { (l : Language) (entries : Entries) (w : ListWorld) → HoldsCounted l entries w → (classes : Items AClass)
        → classes ≡ map class_of w.bones.classes → Reads classes entries result w.bones }
{
    transactions_begin_known();
    views_read_known();
    unchanged(alloc)
}

// The rows of the combinations that pass, behind what they are sorted by.
fn gather_all<H: Host, K: Keep<H>>(
    alloc: Global,
    q: &Query,
    classes: &Classes,
    heap: &mut Heap<K>,
    host: &mut H,
    lists: &[List<u64>],
) -> Result<List<(List<Value>, Row)>, QueryError>
    requires live { IsTrue (K.live heap.old) }
    ensures value { (l : Language) (entries : Entries) (w : ListWorld) → HoldsCounted l entries w → K.holds heap.old (H.view host.old) entries
        → classes.now ≡ map class_of w.bones.classes → AllByRecursion (RiseFrom 0) lists.now → Says (rows_from w.bones q.now (combinations lists.now)) result }
    ensures holds { (l : Language) (entries : Entries) (w : ListWorld) → HoldsCounted l entries w → K.holds heap.old (H.view host.old) entries
        → classes.now ≡ map class_of w.bones.classes → UnlessFault result (K.holds heap.new (H.view host.new) entries) }
    ensures usable { UnlessFault result (K.live heap.new ≡ true) }
    ensures looks { Looks (H.view host.old) (H.view host.new) }
    ensures cause { RoseIf (IsErrOf result QueryError.DiskFault) (H.view host.old).disk_faults (H.view host.new).disk_faults }
{
    let overlay = reading(alloc);
    let ranges = ranges_of(alloc, &q.test, classes, &overlay, heap, host, lists)?;
    let mut rows = List::new(alloc);
    gather(
        alloc,
        q,
        classes,
        &overlay,
        heap,
        host,
        &[],
        ranges.as_slice(),
        &mut rows,
    )?;
    Ok(rows)
}

// Rows in the order of what they are sorted by.
fn in_order(alloc: Global, rows: List<(List<Value>, Row)>) -> Result<List<Row>, AllocError>
    ensures { IfOk result (λ ordered. ordered ≡ map (λ (r : Items AValue × ARow). r.1) (sorted rows)) }
{
    let mut ordered = List::new(alloc);
    for (_, row) in sort_rows(rows)?.into_vec() {
        ordered.push(row)?;
    }
    Ok(ordered)
}

/// The rows of a query that was checked against these classes, with the classes that its literals' objects have. Over records that hold a
/// world they are the world's rows of the query, or why it isn't answered. Nothing is written.
pub fn answer<H: Host, K: Keep<H>>(
    alloc: Global,
    q: &Query,
    classes: &Classes,
    heap: &mut Heap<K>,
    host: &mut H,
) -> Result<List<Row>, QueryError>
    requires live { IsTrue (K.live heap.old) }
    ensures rows { (l : Language) (entries : Entries) (w : ListWorld) → HoldsCounted l entries w → K.holds heap.old (H.view host.old) entries
        → classes.now ≡ map class_of w.bones.classes → IsAnswer (answered w.bones q.now) result }
    ensures holds { (l : Language) (entries : Entries) (w : ListWorld) → HoldsCounted l entries w → K.holds heap.old (H.view host.old) entries
        → classes.now ≡ map class_of w.bones.classes → UnlessFault result (K.holds heap.new (H.view host.new) entries) }
    ensures usable { UnlessFault result (K.live heap.new ≡ true) }
    ensures looks { Looks (H.view host.old) (H.view host.new) }
    ensures cause { RoseIf (IsErrOf result QueryError.DiskFault) (H.view host.old).disk_faults (H.view host.new).disk_faults }
{
    let lists = read_all(alloc, q, classes, heap, host)?;
    let Some(count) = count_combinations(lists.as_slice()) else {
        return Err(QueryError::Memory);
    };
    if count > COMBINATION_LIMIT {
        return Err(QueryError::TooManyRows { count });
    }
    let found = gather_all(alloc, q, classes, heap, host, lists.as_slice())?;
    let rows = in_order(alloc, found)?;
    if fits(alloc, rows.as_slice())? {
        Ok(rows)
    } else {
        Err(QueryError::Output)
    }
}
