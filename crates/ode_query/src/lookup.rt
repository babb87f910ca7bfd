//! The objects of variables, which a test's comparisons look up.
ghost use Rattle.std.specs.Prelude.{◌≡◌, ℕ, IfOk, IsErrOf, IsTrue, List as Items, Ok, Option as Perhaps, length, true};
ghost use Rattle.std.specs.List.{AllByRecursion};
ghost use Rattle.std.specs.Option.{IfSome};
ghost use Rattle.ode_host.specs.Causes.{RoseIf};
ghost use Rattle.ode_host.specs.Host.{Looks};
ghost use Rattle.ode_keep.specs.Entries.{Entries};
ghost use Rattle.ode_links.specs.Linking.{field_of_local};
ghost use Rattle.ode_query.specs.Answers.{Gives, Says, UnlessFault};
ghost use Rattle.ode_query.specs.Lookups.{AreEnough, AreRanges, IsLookup, IsRange, numbers_of, unless_fault, valued};
ghost use Rattle.ode_query.specs.Rows.{frame_of};
ghost use Rattle.ode_run_frame.specs.Reads.{Reads};
ghost use Rattle.ode_value.specs.Evaluation.{evaluate as meant_by};
ghost use Rattle.ode_value.specs.GoodWorlds.{RiseFrom};
ghost use Rattle.ode_value.specs.Worlds.{Bones};
ghost use Rattle.ode_value.specs.declared.statement.Expr.{Expr as AnExpr};

use crate::combination::{scene_of, value_of};
use crate::error::QueryError;
use ode_heap::Heap;
use ode_host::Host;
use ode_index::Index;
use ode_keep::Keep;
use ode_links::{Link, link_of};
use ode_overlay::Overlay;
use ode_types::Classes;
use ode_value::{Boxed, Expr, List, Value};
use std::alloc::{AllocError, Global};

/// What a field of a variable's object must be equal to, and an index of that field.
#[derive(Drop)]
pub(crate) struct Lookup {
    pub link: Link,
    pub index: Index,
}

/// The objects of a variable, in rising order.
#[derive(Drop)]
pub(crate) struct Range {
    pub numbers: List<u64>,
    pub lookup: Option<Lookup>,
}

// The value of an expression over these objects, where it isn't a fault.
fn value_at<H: Host, K: Keep<H>>(
    alloc: Global,
    classes: &Classes,
    overlay: &Overlay,
    heap: &mut Heap<K>,
    host: &mut H,
    chosen: &[u64],
    e: &Expr,
) -> Result<Option<Value>, QueryError>
    requires live { IsTrue (K.live heap.old) }
    ensures value { (base : Entries) (b : Bones) → K.holds heap.old (H.view host.old) base → Reads classes.now base overlay.now b
        → Says (Ok (unless_fault (meant_by e.now b (frame_of chosen.now)))) result }
    ensures holds { (base : Entries) (b : Bones) → K.holds heap.old (H.view host.old) base → Reads classes.now base overlay.now b
        → UnlessFault result (K.holds heap.new (H.view host.new) base) }
    ensures usable { UnlessFault result (K.live heap.new ≡ true) }
    ensures looks { Looks (H.view host.old) (H.view host.new) }
    ensures cause { RoseIf (IsErrOf result QueryError.DiskFault) (H.view host.old).disk_faults (H.view host.new).disk_faults }
{
    let scene = scene_of(alloc, chosen)?;
    match value_of(alloc, &scene, classes, overlay, heap, host, e) {
        Ok(value) => Ok(Some(value)),
        Err(QueryError::Fault(_)) => Ok(None),
        Err(error) => Err(error),
    }
}

// A field of the object that the first local refers to.
fn first_field(alloc: Global, place: u16) -> Result<Expr, AllocError>
    ensures { IfOk result (λ e. e ≡ field_of_local 0 place) }
{
    let first = Boxed::new(alloc, Expr::Local(0))?;
    Ok(Expr::Slot(first, place))
}

// The objects whose field has a value, each behind it.
fn read_fields<H: Host, K: Keep<H>>(
    alloc: Global,
    classes: &Classes,
    overlay: &Overlay,
    heap: &mut Heap<K>,
    host: &mut H,
    numbers: &[u64],
    field: &Expr,
) -> Result<List<(Value, u64)>, QueryError>
    requires live { IsTrue (K.live heap.old) }
    ensures value { (base : Entries) (b : Bones) (place : ℕ) → K.holds heap.old (H.view host.old) base → Reads classes.now base overlay.now b
        → field.now ≡ field_of_local 0 place → Says (Ok (valued b place numbers.now)) result }
    ensures holds { (base : Entries) (b : Bones) → K.holds heap.old (H.view host.old) base → Reads classes.now base overlay.now b
        → UnlessFault result (K.holds heap.new (H.view host.new) base) }
    ensures usable { UnlessFault result (K.live heap.new ≡ true) }
    ensures looks { Looks (H.view host.old) (H.view host.new) }
    ensures cause { RoseIf (IsErrOf result QueryError.DiskFault) (H.view host.old).disk_faults (H.view host.new).disk_faults }
{
    let mut rows = List::new(alloc);
    for number in numbers {
        let value = value_at(alloc, classes, overlay, heap, host, &[*number], field)?;
        if let Some(value) = value {
            rows.push((value, *number))?;
        }
    }
    Ok(rows)
}

// What the test says of the objects of a variable, where it says that a field of theirs is equal to what is known before.
fn lookup_of<H: Host, K: Keep<H>>(
    alloc: Global,
    test: &Option<Expr>,
    classes: &Classes,
    overlay: &Overlay,
    heap: &mut Heap<K>,
    host: &mut H,
    variable: u16,
    numbers: &[u64],
) -> Result<Option<Lookup>, QueryError>
    requires live { IsTrue (K.live heap.old) }
    ensures value { (base : Entries) (b : Bones) → K.holds heap.old (H.view host.old) base → Reads classes.now base overlay.now b
        → Gives (λ lookup. IfSome lookup (IsLookup b test.now variable numbers.now)) result }
    ensures holds { (base : Entries) (b : Bones) → K.holds heap.old (H.view host.old) base → Reads classes.now base overlay.now b
        → UnlessFault result (K.holds heap.new (H.view host.new) base) }
    ensures usable { UnlessFault result (K.live heap.new ≡ true) }
    ensures looks { Looks (H.view host.old) (H.view host.new) }
    ensures cause { RoseIf (IsErrOf result QueryError.DiskFault) (H.view host.old).disk_faults (H.view host.new).disk_faults }
{
    let Some(test) = test else {
        return Ok(None);
    };
    let Some(link) = link_of(alloc, test, variable)? else {
        return Ok(None);
    };
    let field = first_field(alloc, link.place)?;
    let rows = read_fields(alloc, classes, overlay, heap, host, numbers, &field)?;
    let index = Index::of(alloc, &rows)?;
    Ok(Some(Lookup { link, index }))
}

// With these numbers the same combinations pass, behind those chosen, as with all.
fn look_up<H: Host, K: Keep<H>>(
    alloc: Global,
    classes: &Classes,
    overlay: &Overlay,
    heap: &mut Heap<K>,
    host: &mut H,
    chosen: &[u64],
    lookup: &Lookup,
) -> Result<List<u64>, QueryError>
    requires live { IsTrue (K.live heap.old) }
    ensures value { (base : Entries) (b : Bones) (test : Perhaps AnExpr) (numbers : Items ℕ) → K.holds heap.old (H.view host.old) base → Reads classes.now base overlay.now b
        → RiseFrom 0 numbers → IsLookup b test (length chosen.now) numbers lookup.now → Gives (λ found. AreEnough b test chosen.now found numbers) result }
    ensures holds { (base : Entries) (b : Bones) → K.holds heap.old (H.view host.old) base → Reads classes.now base overlay.now b
        → UnlessFault result (K.holds heap.new (H.view host.new) base) }
    ensures usable { UnlessFault result (K.live heap.new ≡ true) }
    ensures looks { Looks (H.view host.old) (H.view host.new) }
    ensures cause { RoseIf (IsErrOf result QueryError.DiskFault) (H.view host.old).disk_faults (H.view host.new).disk_faults }
{
    let other = &lookup.link.other;
    match value_at(alloc, classes, overlay, heap, host, chosen, other)? {
        Some(value) => Ok(lookup.index.find(&value)?),
        None => Ok(List::new(alloc)),
    }
}

/// Numbers of a range with which, behind those chosen, the same combinations pass as with all.
pub(crate) fn candidates<H: Host, K: Keep<H>>(
    alloc: Global,
    classes: &Classes,
    overlay: &Overlay,
    heap: &mut Heap<K>,
    host: &mut H,
    chosen: &[u64],
    range: &Range,
) -> Result<List<u64>, QueryError>
    requires live { IsTrue (K.live heap.old) }
    ensures value { (base : Entries) (b : Bones) (test : Perhaps AnExpr) → K.holds heap.old (H.view host.old) base → Reads classes.now base overlay.now b
        → IsRange b test (length chosen.now) range.now → Gives (λ found. AreEnough b test chosen.now found range.now.numbers) result }
    ensures holds { (base : Entries) (b : Bones) → K.holds heap.old (H.view host.old) base → Reads classes.now base overlay.now b
        → UnlessFault result (K.holds heap.new (H.view host.new) base) }
    ensures usable { UnlessFault result (K.live heap.new ≡ true) }
    ensures looks { Looks (H.view host.old) (H.view host.new) }
    ensures cause { RoseIf (IsErrOf result QueryError.DiskFault) (H.view host.old).disk_faults (H.view host.new).disk_faults }
{
    match &range.lookup {
        Some(lookup) => look_up(alloc, classes, overlay, heap, host, chosen, lookup),
        None => Ok(List::from_slice(alloc, range.numbers.as_slice())?),
    }
}

/// The ranges of variables, in their order.
pub(crate) fn ranges_of<H: Host, K: Keep<H>>(
    alloc: Global,
    test: &Option<Expr>,
    classes: &Classes,
    overlay: &Overlay,
    heap: &mut Heap<K>,
    host: &mut H,
    lists: &[List<u64>],
) -> Result<List<Range>, QueryError>
    requires live { IsTrue (K.live heap.old) }
    ensures value { (base : Entries) (b : Bones) → K.holds heap.old (H.view host.old) base → Reads classes.now base overlay.now b
        → AllByRecursion (RiseFrom 0) lists.now → Gives (λ ranges. (numbers_of ranges ≡ lists.now) × AreRanges b test.now 0 ranges) result }
    ensures holds { (base : Entries) (b : Bones) → K.holds heap.old (H.view host.old) base → Reads classes.now base overlay.now b
        → UnlessFault result (K.holds heap.new (H.view host.new) base) }
    ensures usable { UnlessFault result (K.live heap.new ≡ true) }
    ensures looks { Looks (H.view host.old) (H.view host.new) }
    ensures cause { RoseIf (IsErrOf result QueryError.DiskFault) (H.view host.old).disk_faults (H.view host.new).disk_faults }
{
    let mut ranges = List::new(alloc);
    let mut variable = 0u16;
    for numbers in lists {
        let numbers = numbers.as_slice();
        let lookup = lookup_of(alloc, test, classes, overlay, heap, host, variable, numbers)?;
        let numbers = List::from_slice(alloc, numbers)?;
        ranges.push(Range { numbers, lookup })?;
        variable = variable.checked_add(1).ok_or(QueryError::Memory)?;
    }
    Ok(ranges)
}
