//! The overlay, and what it is seen as.
ghost use Rattle.std.specs.Prelude.{◌≡◌, ◌+◌, ◌≤◌, ◌<◌, ◌^◌, None, Ok, Some, IfErr, IfOk, IsErrOf, OnErr, OnOk, nat_le, slice_get, true};
ghost use Rattle.std.specs.BTreeMap.{insert_entry};
ghost use Rattle.std.specs.List.{list_any};
ghost use Rattle.std.specs.Ordering.{nat_cmp};
ghost use Rattle.ode_codec.specs.Rules.{IsKeptCounters};
ghost use Rattle.ode_overlay.specs.Answers.{Answer, Answers, Gives, Leaves, is_usable};
ghost use Rattle.ode_overlay.specs.Changing.{live, object_of, put_new, put_now, with_now};
ghost use Rattle.ode_overlay.specs.Layers.{IsGeneration, Layer, begun, first_count, generation_of, holding, is_touched, key_count, tracked_at};
ghost use Rattle.ode_value.specs.Limits.{change_limit, queue_limit, transaction_limit};
ghost use Rattle.std.specs.Option.{option_copied};

use crate::error::OverlayError;
use crate::origin::Origin;
use indexmap::IndexSet;
use ode_codec::Counters;
use ode_objects::{KeptArgs, Object, Tracked, with_key};
use ode_value::limits::CHANGE_LIMIT;
use ode_value::{Key, List};
use std::alloc::{AllocError, Global};
use std::collections::BTreeMap;
use std::marker::Model;

/// A firing for the queue: its object, its trigger, its generation, its arguments, and whether it stays at an abort.
#[derive(Drop)]
pub(crate) struct Collected {
    pub object: u64,
    pub class: u32,
    pub trigger: u16,
    pub generation: u8,
    pub args: KeptArgs,
    pub independent: bool,
}

/// What becomes of an object, and the keys that are held then.
#[derive(Drop)]
pub(crate) struct Change {
    pub object: Object,
    pub keys: List<Key>,
}

/// What a transaction has changed, over the records that a heap reads. An object is read whole when it is first touched or changed.
#[derive(Drop)]
pub struct Overlay {
    pub(crate) first: Counters,
    pub(crate) queued: u32,
    pub(crate) origin: Origin,
    pub(crate) next: u64,
    pub(crate) objects: BTreeMap<u64, Tracked>,
    pub(crate) keys: List<Key>,
    pub(crate) touched: IndexSet<u64>,
    pub(crate) collected: List<Collected>,
    pub(crate) gathered: u32,
    pub(crate) looked: List<u64>,
    pub(crate) drew: bool,
    pub(crate) met_queue: bool,
    pub(crate) alloc: Global,
}

impl Model for Overlay {
    ghost use Rattle.ode_overlay.specs.Layers.{IsLayer, Layer};

    ghost Value = { Layer };

    ghost view = { λ o. record { first = o.first; queued = o.queued; origin = o.origin; next = o.next; objects = o.objects.entries; keys = o.keys; touched = o.touched.keys; collected = o.collected; gathered = o.gathered; footprint = record { looked = o.looked; drew = o.drew; queued = o.met_queue } } };

    ghost invariant = { λ o. IsLayer (record { first = o.first; queued = o.queued; origin = o.origin; next = o.next; objects = o.objects.entries; keys = o.keys; touched = o.touched.keys; collected = o.collected; gathered = o.gathered; footprint = record { looked = o.looked; drew = o.drew; queued = o.met_queue } }) };
}

impl Overlay {
    /// The overlay at the start of a transaction: the counters of the world there, the number of its entries without the one that
    /// runs, and what the transaction comes from.
    #[tactic(auto, unfolding(ode_value::specs::Limits::change_limit))]
    pub fn begin(alloc: Global, counters: Counters, queued: u32, origin: Origin) -> Overlay
        requires counters { IsKeptCounters counters }
        requires transaction { counters.next_transaction < transaction_limit }
        requires queued { queued ≤ queue_limit }
        requires generation { IsGeneration origin }
        ensures { result ≡ begun counters queued origin }
    {
        Overlay {
            first: counters,
            queued,
            origin,
            next: counters.next_number,
            objects: BTreeMap::new(alloc),
            keys: List::new(alloc),
            touched: IndexSet::new(alloc),
            collected: List::new(alloc),
            gathered: 0,
            looked: List::new(alloc),
            drew: false,
            met_queue: false,
            alloc,
        }
    }

    /// The object at a place in the order of touching.
    pub fn touched(&self, at: usize) -> Option<u64>
        ensures { result ≡ slice_get self.now.touched at }
    {
        self.touched.get_index(at).copied()
    }

    /// An object that was read or made, as it was and as it is.
    pub fn tracked(&self, id: u64) -> Option<&Tracked>
        ensures { option_copied result ≡ tracked_at id self.now }
    {
        self.objects.get(&id)
    }

    /// The generation of the transaction: 0 from a script or the clock, else the entry's.
    pub fn generation(&self) -> u8
        ensures { result ≡ generation_of self.now.origin }
    {
        match self.origin {
            Origin::Entry { generation, .. } => generation,
            _ => 0,
        }
    }

    /// Whether an object was touched.
    pub(crate) fn is_touched(&self, id: u64) -> bool
        ensures { result ≡ is_touched id self.now }
    {
        self.touched.contains(&id)
    }

    // How many keys beside those of objects are held: the counters', that of the entry that runs, and one a collected firing.
    fn other_keys(&self) -> usize
        ensures count { result ≡ first_count self.now.origin + self.now.gathered }
        ensures small { result < 2 ^ 33 }
    {
        let first = match self.origin {
            Origin::Entry { .. } => 2,
            _ => 1,
        };
        first + self.gathered as usize
    }

    /// Whether so many keys of objects are few enough.
    #[tactic(auto, unfolding(ode_value::specs::Limits::change_limit))]
    pub(crate) fn are_few(&self, keys: usize) -> bool
        ensures { result ≡ nat_le (first_count self.now.origin + keys + self.now.gathered) change_limit }
    {
        keys <= CHANGE_LIMIT && keys + self.other_keys() <= CHANGE_LIMIT
    }

    /// The keys with these among them.
    #[tactic(auto, unfolding(crate::specs::Layers::holding))]
    pub(crate) fn holding(&self, keys: &[Key]) -> Result<List<Key>, OverlayError>
        ensures value { Answers result (holding keys.now self.now) }
        ensures few { IfOk result (λ keys. key_count keys self.now ≤ change_limit) }
        ensures usable { is_usable result ≡ true }
        ensures calm { IsErrOf result OverlayError.DiskFault → ⊥ }
    {
        let mut all = List::from_slice(self.alloc, self.keys.as_slice())?;
        for key in keys {
            all = with_key(self.alloc, all.as_slice(), *key)?;
        }
        if self.are_few(all.len()) {
            Ok(all)
        } else {
            Err(OverlayError::TooManyChanges)
        }
    }

    /// The object of a number: the one that is new, or else the one that is tracked.
    pub(crate) fn object_of<'a>(&'a self, new: &'a Option<Tracked>, id: u64) -> Option<&'a Tracked>
        ensures { option_copied result ≡ object_of new.now id self.now }
    {
        match new {
            Some(tracked) => Some(tracked),
            None => self.objects.get(&id),
        }
    }

    /// The object of a number where it is there.
    pub(crate) fn live<'a>(
        &'a self,
        new: &'a Option<Tracked>,
        id: u64,
    ) -> Result<&'a Object, OverlayError>
        ensures value { Gives (λ o. o.now) result (live new.now id self.now) }
        ensures usable { is_usable result ≡ true }
        ensures calm { IsErrOf result OverlayError.DiskFault → ⊥ }
    {
        match self.object_of(new, id) {
            Some(tracked) => {
                let object = &tracked.current;
                if object.live {
                    Ok(object)
                } else {
                    Err(OverlayError::NoObject(id))
                }
            }
            None => Err(OverlayError::NoObject(id)),
        }
    }

    /// What becomes of an object, and the keys with these among them.
    pub(crate) fn change(
        &self,
        keys: &[Key],
        object: Result<Object, AllocError>,
    ) -> Result<Change, OverlayError>
        ensures value { Gives (λ c. c.keys) result (holding keys.now self.now) }
        ensures object { IfOk result (λ c. object ≡ Ok c.object) }
        ensures few { IfOk result (λ c. key_count c.keys self.now ≤ change_limit) }
        ensures usable { is_usable result ≡ true }
        ensures calm { IsErrOf result OverlayError.DiskFault → ⊥ }
    {
        let keys = self.holding(keys)?;
        match object {
            Ok(object) => Ok(Change { object, keys }),
            Err(_) => Err(OverlayError::Memory),
        }
    }

    /// An object is this from now on, and these are the keys. It is tracked where it is new. Nothing changes where there is no
    /// memory.
    pub(crate) fn put(
        &mut self,
        id: u64,
        new: Option<Tracked>,
        change: Change,
    ) -> Result<(), OverlayError>
        requires { key_count change.keys self.old ≤ change_limit }
        ensures ok { OnOk result (self.new ≡ with_now id new change.object change.keys self.old) }
        ensures memory { IfErr result (λ why. why ≡ OverlayError.Memory) }
        ensures err { OnErr result (self.new ≡ self.old) }
    {
        let Change { object, keys } = change;
        put_now(&mut self.objects, id, new, object)?;
        self.keys = keys;
        Ok(())
    }

    /// The same of a change that may not have been made.
    pub(crate) fn put_made(
        &mut self,
        id: u64,
        new: Option<Tracked>,
        made: Result<Change, OverlayError>,
    ) -> Result<(), OverlayError>
        requires few { IfOk made (λ c. key_count c.keys self.old ≤ change_limit) }
        requires calm { IsErrOf made OverlayError.DiskFault → ⊥ }
        ensures acts { (answer : Answer (Unit {0} × Layer)) → Gives (λ c. (tt, with_now id new c.object c.keys self.old)) made answer → Leaves result self.new answer }
        ensures err { OnErr result (self.new ≡ self.old) }
        ensures usable { is_usable result ≡ true }
        ensures calm { IsErrOf result OverlayError.DiskFault → ⊥ }
    {
        match made {
            Ok(change) => self.put(id, new, change),
            Err(why) => Err(why),
        }
    }
}

/// A value stands under a number from now on.
pub(crate) fn insert<T: Drop>(
    map: &mut BTreeMap<u64, T>,
    id: u64,
    value: T,
) -> Result<(), AllocError>
    ensures ok { OnOk result (map.new.entries ≡ insert_entry nat_cmp map.old.entries id value) }
    ensures err { OnErr result (map.new.entries ≡ map.old.entries) }
{
    map.insert(id, value)?;
    Ok(())
}

// An object is this from now on, and one that isn't tracked is made.
#[tactic(auto, using(crate::proofs::Maps::written_is_inserted))]
fn put_tracked(objects: &mut BTreeMap<u64, Tracked>, id: u64, now: Object) -> Result<(), AllocError>
    ensures ok { OnOk result (objects.new.entries ≡ put_now id None now objects.old.entries) }
    ensures err { OnErr result (objects.new.entries ≡ objects.old.entries) }
{
    match objects.get_mut(&id) {
        Some(tracked) => {
            tracked.change(now);
            Ok(())
        }
        None => insert(objects, id, Tracked::made(now)),
    }
}

/// An object that is new is tracked from now on.
pub(crate) fn put_new(
    objects: &mut BTreeMap<u64, Tracked>,
    id: u64,
    new: Option<Tracked>,
) -> Result<(), AllocError>
    ensures ok { OnOk result (objects.new.entries ≡ put_new id new objects.old.entries) }
    ensures err { OnErr result (objects.new.entries ≡ objects.old.entries) }
{
    match new {
        Some(tracked) => insert(objects, id, tracked),
        None => Ok(()),
    }
}

/// An object, which is new or tracked, is this from now on; one that is neither is made.
pub(crate) fn put_now(
    objects: &mut BTreeMap<u64, Tracked>,
    id: u64,
    new: Option<Tracked>,
    now: Object,
) -> Result<(), AllocError>
    ensures ok { OnOk result (objects.new.entries ≡ put_now id new now objects.old.entries) }
    ensures err { OnErr result (objects.new.entries ≡ objects.old.entries) }
{
    match new {
        Some(tracked) => {
            let mut tracked = tracked;
            tracked.change(now);
            insert(objects, id, tracked)
        }
        None => put_tracked(objects, id, now),
    }
}
