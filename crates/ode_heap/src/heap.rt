//! The heap over a keeper.
ghost use Rattle.std.specs.Prelude.{◌≡◌, ◌<◌, ◌≤◌, length, IsErrOf, IsTrue, OnOk};
ghost use Rattle.ode_host.specs.Causes.{RoseIf};
ghost use Rattle.ode_host.specs.Host.{DiskCalls, LeavesOnly, Looks};
ghost use Rattle.ode_keep.specs.ShortValues.{HasShortValues};
ghost use Rattle.ode_keep.specs.Entries.{Entries, applied, record_bytes};
ghost use Rattle.ode_keep.specs.Keeping.{LeavesOldOrNew};
ghost use Rattle.ode_heap.specs.Activations.{activations_in};
ghost use Rattle.ode_heap.specs.Answers.{Answers, OnDamaged, There, UnlessFault, is_usable};
ghost use Rattle.ode_heap.specs.Looking.{bytes_in, counters_in, entry_from, object_from, stamped_in, version_in};
ghost use Rattle.ode_heap.specs.Objects.{IsOfObject, object_in};
ghost use Rattle.ode_heap.specs.Queue.{queued_in};
ghost use Rattle.ode_heap.specs.Staging.{OnRefusal, OnTooLarge, first_key};
ghost use Rattle.ode_value.specs.Keys.{activation_kind, counters_key, entry_kind, object_key, version_key};

use crate::activations::read_activations;
use crate::counters::read_counters;
use crate::error::{HeapError, at_key};
use crate::fields::{Stamped, count_bytes, read_stamped, read_version};
use crate::object::{ObjectHead, read_object, read_object_from};
use crate::queue::{count_entries, read_entry_from};
use crate::staging::first_key;
use ode_codec::{Activation, Counters, Entry};
use ode_host::Host;
use ode_keep::{Batch, Keep, MAX_CHANGES};
use ode_types::Classes;
use ode_value::{Class, List, Value};
use std::alloc::Global;
use std::marker::Model;

/// The records of a database, read through a keeper. Contracts see the keeper.
#[derive(Drop)]
pub struct Heap<K> {
    keeper: K,
}

impl<K> Model for Heap<K> {
    ghost Value = { K };

    ghost coded = { K.code };

    ghost view = { λ heap. heap.keeper };
}

impl<K> Heap<K> {
    /// The heap over a keeper.
    pub fn new(keeper: K) -> Heap<K>
        ensures { result ≡ keeper }
    {
        Heap { keeper }
    }

    /// Its keeper.
    pub fn into_keeper(self) -> K
        ensures { result ≡ self }
    {
        let Heap { keeper } = self;
        keeper
    }

    /// Whether the keeper may be used: not after `DiskFault`.
    pub fn live<H: Host>(&self) -> bool
    where
        K: Keep<H>,
        ensures { result ≡ K.live self.now }
    {
        self.keeper.live()
    }

    /// The counters.
    pub fn counters<H: Host>(&mut self, alloc: Global, host: &mut H) -> Result<Counters, HeapError>
    where
        K: Keep<H>,
        requires live { IsTrue (K.live self.old) }
        ensures value { (entries : Entries) → K.holds self.old (H.view host.old) entries → Answers result (counters_in entries) }
        ensures holds { UnlessFault result ((entries : Entries) → K.holds self.old (H.view host.old) entries
            → K.holds self.new (H.view host.new) entries) }
        ensures looks { Looks (H.view host.old) (H.view host.new) }
        ensures usable { K.live self.new ≡ is_usable result }
        ensures cause { RoseIf (IsErrOf result HeapError.DiskFault) (H.view host.old).disk_faults (H.view host.new).disk_faults }
        ensures too_large { OnTooLarge result (λ _. ⊥) }
        ensures at { OnDamaged result (λ k. k ≡ counters_key) }
    {
        read_counters(alloc, &mut self.keeper, host)
    }

    /// The class and the versions of an object, if there is that object. Its own records are read and no others.
    pub fn load_object<H: Host>(
        &mut self,
        alloc: Global,
        host: &mut H,
        id: u64,
    ) -> Result<Option<ObjectHead>, HeapError>
    where
        K: Keep<H>,
        requires live { IsTrue (K.live self.old) }
        ensures value { (entries : Entries) → K.holds self.old (H.view host.old) entries → Answers result (object_in entries id) }
        ensures holds { UnlessFault result ((entries : Entries) → K.holds self.old (H.view host.old) entries
            → K.holds self.new (H.view host.new) entries) }
        ensures looks { Looks (H.view host.old) (H.view host.new) }
        ensures usable { K.live self.new ≡ is_usable result }
        ensures cause { RoseIf (IsErrOf result HeapError.DiskFault) (H.view host.old).disk_faults (H.view host.new).disk_faults }
        ensures too_large { OnTooLarge result (λ _. ⊥) }
        ensures at { OnDamaged result (λ k. IsOfObject id k) }
    {
        read_object(alloc, &mut self.keeper, host, id)
    }

    /// The fields of a version of an object of this class, if there is that version.
    pub fn load_version<H: Host>(
        &mut self,
        alloc: Global,
        host: &mut H,
        id: u64,
        number: u32,
        class: &Class,
    ) -> Result<Option<List<Value>>, HeapError>
    where
        K: Keep<H>,
        requires live { IsTrue (K.live self.old) }
        ensures value { (entries : Entries) → K.holds self.old (H.view host.old) entries → Answers result (version_in entries id number class.now) }
        ensures holds { UnlessFault result ((entries : Entries) → K.holds self.old (H.view host.old) entries
            → K.holds self.new (H.view host.new) entries) }
        ensures looks { Looks (H.view host.old) (H.view host.new) }
        ensures usable { K.live self.new ≡ is_usable result }
        ensures cause { RoseIf (IsErrOf result HeapError.DiskFault) (H.view host.old).disk_faults (H.view host.new).disk_faults }
        ensures too_large { OnTooLarge result (λ _. ⊥) }
        ensures at { OnDamaged result (λ k. k ≡ version_key id number) }
    {
        read_version(alloc, &mut self.keeper, host, id, number, class)
    }

    /// The fields of a version of an object of this class with its stamp, if there is that version.
    pub fn load_stamped<H: Host>(
        &mut self,
        alloc: Global,
        host: &mut H,
        id: u64,
        number: u32,
        class: &Class,
    ) -> Result<Option<Stamped>, HeapError>
    where
        K: Keep<H>,
        requires live { IsTrue (K.live self.old) }
        ensures value { (entries : Entries) → K.holds self.old (H.view host.old) entries → Answers result (stamped_in entries id number class.now) }
        ensures holds { UnlessFault result ((entries : Entries) → K.holds self.old (H.view host.old) entries
            → K.holds self.new (H.view host.new) entries) }
        ensures looks { Looks (H.view host.old) (H.view host.new) }
        ensures usable { K.live self.new ≡ is_usable result }
        ensures cause { RoseIf (IsErrOf result HeapError.DiskFault) (H.view host.old).disk_faults (H.view host.new).disk_faults }
        ensures too_large { OnTooLarge result (λ _. ⊥) }
        ensures at { OnDamaged result (λ k. k ≡ version_key id number) }
    {
        read_stamped(alloc, &mut self.keeper, host, id, number, class)
    }

    /// The bytes of the record of a version, if there is that version.
    pub fn version_bytes<H: Host>(
        &mut self,
        host: &mut H,
        id: u64,
        number: u32,
    ) -> Result<Option<u64>, HeapError>
    where
        K: Keep<H>,
        requires live { IsTrue (K.live self.old) }
        ensures value { (entries : Entries) → K.holds self.old (H.view host.old) entries → Answers result (There (bytes_in entries id number)) }
        ensures holds { UnlessFault result ((entries : Entries) → K.holds self.old (H.view host.old) entries
            → K.holds self.new (H.view host.new) entries) }
        ensures looks { Looks (H.view host.old) (H.view host.new) }
        ensures usable { K.live self.new ≡ is_usable result }
        ensures cause { RoseIf (IsErrOf result HeapError.DiskFault) (H.view host.old).disk_faults (H.view host.new).disk_faults }
        ensures too_large { OnTooLarge result (λ _. ⊥) }
        ensures at { OnDamaged result (λ k. k ≡ version_key id number) }
    {
        count_bytes(&mut self.keeper, host, id, number)
    }

    /// The activations of an object, in the order of their numbers. Its own records are read and no others.
    pub fn activations_of<H: Host>(
        &mut self,
        alloc: Global,
        host: &mut H,
        id: u64,
        classes: &Classes,
    ) -> Result<List<Activation>, HeapError>
    where
        K: Keep<H>,
        requires live { IsTrue (K.live self.old) }
        ensures value { (entries : Entries) → K.holds self.old (H.view host.old) entries → Answers result (activations_in entries id classes.now) }
        ensures holds { UnlessFault result ((entries : Entries) → K.holds self.old (H.view host.old) entries
            → K.holds self.new (H.view host.new) entries) }
        ensures looks { Looks (H.view host.old) (H.view host.new) }
        ensures usable { K.live self.new ≡ is_usable result }
        ensures cause { RoseIf (IsErrOf result HeapError.DiskFault) (H.view host.old).disk_faults (H.view host.new).disk_faults }
        ensures too_large { OnTooLarge result (λ _. ⊥) }
        ensures at { OnDamaged result (λ k. (k.kind ≡ activation_kind) × (k.a ≡ id)) }
    {
        read_activations(alloc, &mut self.keeper, host, id, classes)
    }

    /// The least number of an object at or above this one.
    pub fn object_from<H: Host>(&mut self, host: &mut H, id: u64) -> Result<Option<u64>, HeapError>
    where
        K: Keep<H>,
        requires live { IsTrue (K.live self.old) }
        ensures value { (entries : Entries) → K.holds self.old (H.view host.old) entries → Answers result (There (object_from entries id)) }
        ensures holds { UnlessFault result ((entries : Entries) → K.holds self.old (H.view host.old) entries
            → K.holds self.new (H.view host.new) entries) }
        ensures looks { Looks (H.view host.old) (H.view host.new) }
        ensures usable { K.live self.new ≡ is_usable result }
        ensures cause { RoseIf (IsErrOf result HeapError.DiskFault) (H.view host.old).disk_faults (H.view host.new).disk_faults }
        ensures too_large { OnTooLarge result (λ _. ⊥) }
        ensures at { OnDamaged result (λ k. k ≡ object_key id) }
    {
        read_object_from(&mut self.keeper, host, id)
    }

    /// The entry with the least number at or above this one, with its number.
    pub fn entry_from<H: Host>(
        &mut self,
        alloc: Global,
        host: &mut H,
        number: u64,
    ) -> Result<Option<(u64, Entry)>, HeapError>
    where
        K: Keep<H>,
        requires live { IsTrue (K.live self.old) }
        ensures value { (entries : Entries) → K.holds self.old (H.view host.old) entries → Answers result (entry_from entries number) }
        ensures holds { UnlessFault result ((entries : Entries) → K.holds self.old (H.view host.old) entries
            → K.holds self.new (H.view host.new) entries) }
        ensures looks { Looks (H.view host.old) (H.view host.new) }
        ensures usable { K.live self.new ≡ is_usable result }
        ensures cause { RoseIf (IsErrOf result HeapError.DiskFault) (H.view host.old).disk_faults (H.view host.new).disk_faults }
        ensures too_large { OnTooLarge result (λ _. ⊥) }
        ensures at { OnDamaged result (λ k. (k.kind ≡ entry_kind) × (number ≤ k.a)) }
    {
        read_entry_from(alloc, &mut self.keeper, host, number)
    }

    /// The number of entries, as the keeper counts them. No record is read.
    pub fn queued<H: Host>(&mut self, host: &mut H) -> Result<u32, HeapError>
    where
        K: Keep<H>,
        requires live { IsTrue (K.live self.old) }
        ensures value { (entries : Entries) → K.holds self.old (H.view host.old) entries → Answers result (There (queued_in entries)) }
        ensures holds { UnlessFault result ((entries : Entries) → K.holds self.old (H.view host.old) entries
            → K.holds self.new (H.view host.new) entries) }
        ensures looks { Looks (H.view host.old) (H.view host.new) }
        ensures usable { K.live self.new ≡ is_usable result }
        ensures cause { RoseIf (IsErrOf result HeapError.DiskFault) (H.view host.old).disk_faults (H.view host.new).disk_faults }
        ensures too_large { OnTooLarge result (λ _. ⊥) }
        ensures at { OnDamaged result (λ k. k.kind ≡ entry_kind) }
    {
        count_entries(&mut self.keeper, host)
    }

    /// Makes the changes of a batch. A stop on the way leaves the records before it or those after it. What is damaged has
    /// the batch's least key, or that of the counters where it has none.
    pub fn stage<H: Host>(&mut self, host: &mut H, batch: &Batch) -> Result<(), HeapError>
    where
        K: Keep<H>,
        requires live { IsTrue (K.live self.old) }
        requires few { length batch.now ≤ MAX_CHANGES }
        requires short { HasShortValues batch.now }
        ensures done { OnOk result ((entries : Entries) → K.holds self.old (H.view host.old) entries
            → K.holds self.new (H.view host.new) (applied batch.now entries)) }
        ensures fits { OnOk result ((entries : Entries) → K.holds self.old (H.view host.old) entries
            → record_bytes (applied batch.now entries) ≤ K.most self.old) }
        ensures too_large { OnTooLarge result (λ total. (entries : Entries) → K.holds self.old (H.view host.old) entries
            → (total ≡ record_bytes (applied batch.now entries)) × (K.most self.old < total)) }
        ensures refused { OnRefusal result ((entries : Entries) → K.holds self.old (H.view host.old) entries
            → K.holds self.new (H.view host.new) entries) }
        ensures looks { OnRefusal result (Looks (H.view host.old) (H.view host.new)) }
        ensures any_moment { (entries : Entries) → K.holds self.old (H.view host.old) entries
            → LeavesOnly (H.view host.old) (H.view host.new) (LeavesOldOrNew K.means entries batch.now (H.view host.old)) }
        ensures usable { K.live self.new ≡ is_usable result }
        ensures leaves { DiskCalls (IsErrOf result HeapError.DiskFault) (H.view host.old) (H.view host.new) }
        ensures damaged { OnDamaged result (λ key. (key ≡ first_key batch.now)
            × ((entries : Entries) → K.holds self.old (H.view host.old) entries → ⊥)) }
    {
        match self.keeper.commit(host, batch) {
            Ok(()) => Ok(()),
            Err(error) => Err(at_key(error, first_key(batch))),
        }
    }
}
