//! The objects of classes, and how many combinations they make.
ghost use Rattle.std.specs.Prelude.{◌≡◌, ◌<◌, ◌+◌, ◌^◌, ◌≤◌, ◌∷◌, ◌++◌, ℕ, [], IsErrOf, IsTrue, List as Items, None, Ok, OnOk, cond, length, map, true};
ghost use Rattle.std.specs.Option.{IfSome};
ghost use Rattle.ode_heap.specs.Answering.{class_of};
ghost use Rattle.ode_heap_laws.specs.Few.{HoldsCounted};
ghost use Rattle.ode_host.specs.Causes.{RoseIf};
ghost use Rattle.ode_host.specs.Host.{Looks};
ghost use Rattle.ode_keep.specs.Entries.{Entries};
ghost use Rattle.ode_query.specs.Answers.{Says, UnlessFault};
ghost use Rattle.ode_query.specs.Rows.{all_instances, instances, product};
ghost use Rattle.ode_value.specs.Keys.{object_key};
ghost use Rattle.ode_value.specs.Language.{Language, ListWorld};

use crate::error::QueryError;
use ode_asksyn::Query;
use ode_heap::Heap;
use ode_heap_laws::heaps_show_held_worlds;
use ode_host::Host;
use ode_keep::Keep;
use ode_schema::inherits;
use ode_types::Classes;
use ode_value::{Key, List, Name};
use std::alloc::{AllocError, Global};

// An object whose record isn't there, or whose number no object has.
fn damaged(id: u64) -> QueryError
    ensures { result ≡ QueryError.Damaged (object_key id) }
{
    QueryError::Damaged {
        key: Key {
            kind: Key::OBJECT,
            a: id,
            b: 0,
        },
    }
}

// The number above one that was found from this number on.
fn above(from: u64, found: u64) -> Option<u64>
    ensures next { IfSome result (λ n. (n ≡ found + 1) × (from < n)) }
    ensures none { (result ≡ None) → from ≤ found → found + 1 < 2 ^ 64 → ⊥ }
{
    if from <= found {
        found.checked_add(1)
    } else {
        None
    }
}

// The number of an object goes behind others where it is one of them.
fn add_member(numbers: &mut List<u64>, object: u64, member: bool) -> Result<(), AllocError>
    ensures { OnOk result (numbers.new ≡ cond member (numbers.old ++ object ∷ []) numbers.old) }
{
    if member {
        numbers.push(object)?;
    }
    Ok(())
}

// The numbers of the objects of a class and of those that inherit from it, in rising order.
fn read_instances<H: Host, K: Keep<H>>(
    alloc: Global,
    classes: &Classes,
    heap: &mut Heap<K>,
    host: &mut H,
    class: &Name,
) -> Result<List<u64>, QueryError>
    requires live { IsTrue (K.live heap.old) }
    ensures value { (l : Language) (entries : Entries) (w : ListWorld) → HoldsCounted l entries w → K.holds heap.old (H.view host.old) entries
        → classes.now ≡ map class_of w.bones.classes → Says (Ok (instances w.bones class.now)) result }
    ensures holds { UnlessFault result ((entries : Entries) → K.holds heap.old (H.view host.old) entries → K.holds heap.new (H.view host.new) entries) }
    ensures usable { UnlessFault result (K.live heap.new ≡ true) }
    ensures looks { Looks (H.view host.old) (H.view host.new) }
    ensures cause { RoseIf (IsErrOf result QueryError.DiskFault) (H.view host.old).disk_faults (H.view host.new).disk_faults }
{
    heaps_show_held_worlds();
    let mut numbers = List::new(alloc);
    let mut from = 0u64;
    'objects: loop {
        let Some(object) = heap.object_from(host, from)? else {
            return Ok(numbers);
        };
        let Some(next) = above(from, object) else {
            return Err(damaged(object));
        };
        let Some(head) = heap.load_object(alloc, host, object)? else {
            return Err(damaged(object));
        };
        add_member(&mut numbers, object, inherits(classes, head.class, class))?;
        from = next;
    }
}

/// The objects of each variable's class.
pub(crate) fn read_all<H: Host, K: Keep<H>>(
    alloc: Global,
    q: &Query,
    classes: &Classes,
    heap: &mut Heap<K>,
    host: &mut H,
) -> Result<List<List<u64>>, QueryError>
    requires live { IsTrue (K.live heap.old) }
    ensures value { (l : Language) (entries : Entries) (w : ListWorld) → HoldsCounted l entries w → K.holds heap.old (H.view host.old) entries
        → classes.now ≡ map class_of w.bones.classes → Says (Ok (all_instances w.bones q.now)) result }
    ensures holds { UnlessFault result ((entries : Entries) → K.holds heap.old (H.view host.old) entries → K.holds heap.new (H.view host.new) entries) }
    ensures usable { UnlessFault result (K.live heap.new ≡ true) }
    ensures looks { Looks (H.view host.old) (H.view host.new) }
    ensures cause { RoseIf (IsErrOf result QueryError.DiskFault) (H.view host.old).disk_faults (H.view host.new).disk_faults }
{
    let mut lists = List::new(alloc);
    for range in q.over.as_slice() {
        let numbers = read_instances(alloc, classes, heap, host, &range.1)?;
        lists.push(numbers)?;
    }
    Ok(lists)
}

/// How many combinations lists make, below 2^128. More don't fit in memory.
pub(crate) fn count_combinations(lists: &[List<u64>]) -> Option<u128>
    ensures { IfSome result (λ count. count ≡ product (map (λ (ns : Items ℕ). length ns) lists.now)) }
{
    match lists {
        [] => Some(1),
        [numbers, lists @ ..] => (numbers.len() as u128).checked_mul(count_combinations(lists)?),
    }
}
