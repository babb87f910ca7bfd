//! Versions are written, made and removed; objects are touched, made and removed.
ghost use Rattle.std.specs.Prelude.{◌≡◌, ◌+◌, ◌≤◌, ◌<◌, ◌^◌, [], ◌∷◌, false, true, None, Ok, Some, IfErr, IfOk, IsErrOf, IsTrue, OnErr, OnOk, nat_lt, slice_set};
ghost use Rattle.ode_host.specs.Causes.{RoseIf};
ghost use Rattle.ode_host.specs.Host.{Looks};
ghost use Rattle.ode_keep.specs.Entries.{Entries};
ghost use Rattle.ode_overlay.specs.Answers.{◌>>=◌ as bind, Answers, Gives, Leaves, UnlessFault, from_records, is_usable};
ghost use Rattle.ode_objects.specs.Objects.{activation_keys, dead, derived, values_of, without, written};
ghost use Rattle.ode_objects.specs.Tracked.{read_object};
ghost use Rattle.std.specs.Option.{option_map};
ghost use Rattle.ode_overlay.specs.Layers.{holding, key_count, touching};
ghost use Rattle.ode_overlay.specs.declared.error.OverlayError.TheVariants.{NoNumber};
ghost use Rattle.ode_value.specs.Keys.{object_key, version_key};
ghost use Rattle.ode_value.specs.Limits.{change_limit, number_limit, version_limit};
ghost use Rattle.ode_overlay.specs.Changing.{create, created, denoted_in, derive, derive_with, drop_version, drop_with, fresh, kept_as, left_by, live, needs, next_drawn, next_number, remove, remove_with, touch, touch_first, touch_with, touched_with, with_now, write, write_with};

use crate::error::OverlayError;
use crate::overlay::{Change, Overlay, put_new, put_now};
use crate::reading::not_null;
use ode_host::Host;
use ode_keep::Keep;
use ode_objects::{
    Heap, KeptFields, Object, Tracked, Version, activation_keys, load, object_key, object_keys,
    version_key,
};
use ode_types::Classes;
use ode_value::limits::{NUMBER_LIMIT, VERSION_LIMIT};
use ode_value::{Key, List, Ref, Value};
use std::alloc::{AllocError, Global};

// A copy of fields with a value in a slot, if there is one.
#[tactic(auto, using(crate::proofs::Slots::set_past))]
fn with_value(
    alloc: Global,
    slot: u16,
    value: Value,
    fields: &List<Value>,
) -> Result<List<Value>, AllocError>
    ensures { IfOk result (λ set. set ≡ slice_set fields.now slot value) }
{
    let slot = usize::from(slot);
    let mut fields = fields.copy(alloc)?;
    if slot < fields.len() {
        fields.set(slot, value);
    }
    Ok(fields)
}

/// The version of an object that a reference denotes.
fn denoted(of: Ref, object: &Object) -> Result<&Version, OverlayError>
    ensures value { Gives (λ v. v.now) result (denoted_in of object.now) }
    ensures usable { is_usable result ≡ true }
    ensures calm { IsErrOf result OverlayError.DiskFault → ⊥ }
{
    match object.version(of.version) {
        Some(version) => Ok(version),
        None => Err(OverlayError::NoVersion(of)),
    }
}

// The fields of a version with a value in a slot, where a record can hold them.
fn fields_with(
    alloc: Global,
    stamp: u32,
    slot: u16,
    value: Value,
    version: &Version,
) -> Result<KeptFields, OverlayError>
    ensures value { Answers result (kept_as stamp (slice_set (values_of version.now.fields) slot value)) }
    ensures usable { is_usable result ≡ true }
    ensures calm { IsErrOf result OverlayError.DiskFault → ⊥ }
{
    let fields = with_value(alloc, slot, value, version.fields.values())?;
    match KeptFields::new(stamp, fields) {
        Some(fields) => Ok(fields),
        None => Err(OverlayError::TooLong),
    }
}

// An object that was read, where there was one.
fn as_read(found: Option<Object>) -> Option<Tracked>
    ensures { result ≡ option_map read_object found }
{
    match found {
        Some(object) => Some(Tracked::read(object)),
        None => None,
    }
}

// The fields of a version again, where a record can hold them.
fn kept_fields(alloc: Global, stamp: u32, version: &Version) -> Result<KeptFields, OverlayError>
    ensures value { Answers result (kept_as stamp (values_of version.now.fields)) }
    ensures usable { is_usable result ≡ true }
    ensures calm { IsErrOf result OverlayError.DiskFault → ⊥ }
{
    match KeptFields::new(stamp, version.fields.values().copy(alloc)?) {
        Some(fields) => Ok(fields),
        None => Err(OverlayError::TooLong),
    }
}

// An object again, with these fields in its version of a number.
fn written_in(
    alloc: Global,
    object: &Object,
    number: u32,
    fields: KeptFields,
) -> Result<Object, AllocError>
    ensures { IfOk result (λ o. o ≡ written number fields object.now) }
{
    Ok(object.copy(alloc)?.written(number, fields))
}

// An object again, with a new version that is derived from the one of a number, with these fields.
fn derived_in(
    alloc: Global,
    object: &Object,
    from: u32,
    fields: KeptFields,
) -> Result<Object, AllocError>
    requires { object.now.last + 1 < 2 ^ 32 }
    ensures { IfOk result (λ o. o ≡ derived from fields object.now) }
{
    object.copy(alloc)?.derived(from, fields)
}

// An object again, without its version of a number.
fn without_in(alloc: Global, object: &Object, number: u32) -> Result<Object, AllocError>
    ensures { IfOk result (λ o. o ≡ without number object.now) }
{
    Ok(object.copy(alloc)?.without(number))
}

// An object again, which isn't live any more.
fn dead_in(alloc: Global, object: &Object) -> Result<Object, AllocError>
    ensures { IfOk result (λ o. o ≡ dead object.now) }
{
    Ok(object.copy(alloc)?.dead())
}

impl Overlay {
    /// What the records have of an object that isn't tracked.
    #[tactic(auto, unfolding(crate::specs::Changing::fresh))]
    pub(crate) fn fresh<H: Host, K: Keep<H>>(
        &self,
        classes: &Classes,
        heap: &mut Heap<K>,
        host: &mut H,
        id: u64,
    ) -> Result<Option<Tracked>, OverlayError>
        requires live { IsTrue (K.live heap.old) }
        ensures value { (base : Entries) → K.holds heap.old (H.view host.old) base → Answers result (fresh classes.now base id self.now) }
        ensures holds { UnlessFault result ((base : Entries) → K.holds heap.old (H.view host.old) base → K.holds heap.new (H.view host.new) base) }
        ensures looks { Looks (H.view host.old) (H.view host.new) }
        ensures usable { K.live heap.new ≡ is_usable result }
        ensures cause { RoseIf (IsErrOf result OverlayError.DiskFault) (H.view host.old).disk_faults (H.view host.new).disk_faults }
    {
        if self.objects.contains_key(&id) {
            return Ok(None);
        }
        Ok(as_read(load(self.alloc, classes, heap, host, id)?))
    }

    // What becomes of an object where a field is set.
    #[tactic(auto, unfolding(crate::specs::Changing::fields_with, crate::specs::Changing::write_with))]
    fn written(
        &self,
        new: &Option<Tracked>,
        of: Ref,
        slot: u16,
        value: Value,
    ) -> Result<Change, OverlayError>
        ensures value { Gives (λ c. (tt, with_now of.object new.now c.object c.keys self.now)) result (write_with new.now of slot value self.now) }
        ensures few { IfOk result (λ c. key_count c.keys self.now ≤ change_limit) }
        ensures usable { is_usable result ≡ true }
        ensures calm { IsErrOf result OverlayError.DiskFault → ⊥ }
    {
        let object = self.live(new, of.object)?;
        let version = denoted(of, object)?;
        let fields = fields_with(self.alloc, self.first.added, slot, value, version)?;
        let number = version.number;
        let now = written_in(self.alloc, object, number, fields);
        self.change(&[version_key(of.object, u64::from(number))], now)
    }

    // Sets a field, where the object is new or tracked.
    fn write_in(
        &mut self,
        new: Option<Tracked>,
        of: Ref,
        slot: u16,
        value: Value,
    ) -> Result<(), OverlayError>
        ensures acts { Leaves result self.new (write_with new of slot value self.old) }
        ensures err { OnErr result (self.new ≡ self.old) }
        ensures usable { is_usable result ≡ true }
        ensures calm { IsErrOf result OverlayError.DiskFault → ⊥ }
    {
        let made = self.written(&new, of, slot, value);
        self.put_made(of.object, new, made)
    }

    /// Sets a field of the version that a reference denotes. Where there is no such slot, its fields stay as they are.
    #[tactic(auto, unfolding(crate::specs::Changing::write))]
    pub fn write<H: Host, K: Keep<H>>(
        &mut self,
        classes: &Classes,
        heap: &mut Heap<K>,
        host: &mut H,
        of: Ref,
        slot: u16,
        value: Value,
    ) -> Result<(), OverlayError>
        requires live { IsTrue (K.live heap.old) }
        ensures acts { (base : Entries) → K.holds heap.old (H.view host.old) base → Leaves result self.new (write classes.now base of slot value self.old) }
        ensures err { OnErr result (self.new ≡ self.old) }
        ensures holds { UnlessFault result ((base : Entries) → K.holds heap.old (H.view host.old) base → K.holds heap.new (H.view host.new) base) }
        ensures looks { Looks (H.view host.old) (H.view host.new) }
        ensures usable { K.live heap.new ≡ is_usable result }
        ensures cause { RoseIf (IsErrOf result OverlayError.DiskFault) (H.view host.old).disk_faults (H.view host.new).disk_faults }
    {
        not_null(of)?;
        match self.fresh(classes, heap, host, of.object) {
            Ok(new) => self.write_in(new, of, slot, value),
            Err(why) => Err(why),
        }
    }

    // The keys with those of a new version of an object, where a number is left for it.
    #[tactic(auto, unfolding(ode_value::specs::Limits::version_limit))]
    fn derive_keys(&self, id: u64, object: &Object) -> Result<List<Key>, OverlayError>
        ensures value { Answers result (bind (holding (object_key id ∷ version_key id (object.now.last + 1) ∷ []) self.now) (λ keys. bind (needs NoNumber (nat_lt object.now.last version_limit)) (λ _. Ok keys))) }
        ensures small { IfOk result (λ _. object.now.last + 1 < 2 ^ 32) }
        ensures few { IfOk result (λ keys. key_count keys self.now ≤ change_limit) }
        ensures usable { is_usable result ≡ true }
        ensures calm { IsErrOf result OverlayError.DiskFault → ⊥ }
    {
        let keys = self.holding(&[object_key(id), version_key(id, object.next_version())])?;
        if object.last < VERSION_LIMIT {
            Ok(keys)
        } else {
            Err(OverlayError::NoNumber)
        }
    }

    // What becomes of an object with a new version. The new version's number is its last.
    #[tactic(auto, unfolding(crate::specs::Changing::derive_with))]
    fn derived(&self, new: &Option<Tracked>, of: Ref) -> Result<Change, OverlayError>
        ensures value { Gives (λ c. (record { object = of.object; version = Some c.object.last }, with_now of.object new.now c.object c.keys self.now)) result (derive_with new.now of self.now) }
        ensures few { IfOk result (λ c. key_count c.keys self.now ≤ change_limit) }
        ensures usable { is_usable result ≡ true }
        ensures calm { IsErrOf result OverlayError.DiskFault → ⊥ }
    {
        let object = self.live(new, of.object)?;
        let version = denoted(of, object)?;
        let fields = kept_fields(self.alloc, self.first.added, version)?;
        let keys = self.derive_keys(of.object, object)?;
        match derived_in(self.alloc, object, version.number, fields) {
            Ok(object) => Ok(Change { object, keys }),
            Err(_) => Err(OverlayError::Memory),
        }
    }

    fn derive_in(&mut self, new: Option<Tracked>, of: Ref) -> Result<Ref, OverlayError>
        ensures acts { Leaves result self.new (derive_with new of self.old) }
        ensures err { OnErr result (self.new ≡ self.old) }
        ensures usable { is_usable result ≡ true }
        ensures calm { IsErrOf result OverlayError.DiskFault → ⊥ }
    {
        match self.derived(&new, of) {
            Ok(change) => {
                let version = Some(change.object.last);
                match self.put(of.object, new, change) {
                    Ok(()) => Ok(Ref {
                        object: of.object,
                        version,
                    }),
                    Err(why) => Err(why),
                }
            }
            Err(why) => Err(why),
        }
    }

    /// A new version of an object, derived from the one that a reference denotes, and the reference to it.
    #[tactic(auto, unfolding(crate::specs::Changing::derive))]
    pub fn derive<H: Host, K: Keep<H>>(
        &mut self,
        classes: &Classes,
        heap: &mut Heap<K>,
        host: &mut H,
        of: Ref,
    ) -> Result<Ref, OverlayError>
        requires live { IsTrue (K.live heap.old) }
        ensures acts { (base : Entries) → K.holds heap.old (H.view host.old) base → Leaves result self.new (derive classes.now base of self.old) }
        ensures err { OnErr result (self.new ≡ self.old) }
        ensures holds { UnlessFault result ((base : Entries) → K.holds heap.old (H.view host.old) base → K.holds heap.new (H.view host.new) base) }
        ensures looks { Looks (H.view host.old) (H.view host.new) }
        ensures usable { K.live heap.new ≡ is_usable result }
        ensures cause { RoseIf (IsErrOf result OverlayError.DiskFault) (H.view host.old).disk_faults (H.view host.new).disk_faults }
    {
        not_null(of)?;
        match self.fresh(classes, heap, host, of.object) {
            Ok(new) => self.derive_in(new, of),
            Err(why) => Err(why),
        }
    }

    // What becomes of an object without a version.
    #[tactic(auto, unfolding(crate::specs::Changing::drop_with))]
    fn dropped(&self, new: &Option<Tracked>, of: Ref) -> Result<Change, OverlayError>
        ensures value { Gives (λ c. (tt, with_now of.object new.now c.object c.keys self.now)) result (drop_with new.now of self.now) }
        ensures few { IfOk result (λ c. key_count c.keys self.now ≤ change_limit) }
        ensures usable { is_usable result ≡ true }
        ensures calm { IsErrOf result OverlayError.DiskFault → ⊥ }
    {
        let object = self.live(new, of.object)?;
        let number = denoted(of, object)?.number;
        if object.versions.len() <= 1 {
            return Err(OverlayError::LastVersion(of.object));
        }
        let now = without_in(self.alloc, object, number);
        self.change(&[version_key(of.object, u64::from(number))], now)
    }

    fn drop_in(&mut self, new: Option<Tracked>, of: Ref) -> Result<(), OverlayError>
        ensures acts { Leaves result self.new (drop_with new of self.old) }
        ensures err { OnErr result (self.new ≡ self.old) }
        ensures usable { is_usable result ≡ true }
        ensures calm { IsErrOf result OverlayError.DiskFault → ⊥ }
    {
        let made = self.dropped(&new, of);
        self.put_made(of.object, new, made)
    }

    /// Removes the version that a reference denotes, where it isn't the only one.
    #[tactic(auto, unfolding(crate::specs::Changing::drop_version))]
    pub fn drop_version<H: Host, K: Keep<H>>(
        &mut self,
        classes: &Classes,
        heap: &mut Heap<K>,
        host: &mut H,
        of: Ref,
    ) -> Result<(), OverlayError>
        requires live { IsTrue (K.live heap.old) }
        ensures acts { (base : Entries) → K.holds heap.old (H.view host.old) base → Leaves result self.new (drop_version classes.now base of self.old) }
        ensures err { OnErr result (self.new ≡ self.old) }
        ensures holds { UnlessFault result ((base : Entries) → K.holds heap.old (H.view host.old) base → K.holds heap.new (H.view host.new) base) }
        ensures looks { Looks (H.view host.old) (H.view host.new) }
        ensures usable { K.live heap.new ≡ is_usable result }
        ensures cause { RoseIf (IsErrOf result OverlayError.DiskFault) (H.view host.old).disk_faults (H.view host.new).disk_faults }
    {
        not_null(of)?;
        match self.fresh(classes, heap, host, of.object) {
            Ok(new) => self.drop_in(new, of),
            Err(why) => Err(why),
        }
    }

    // The keys with those of the activations of an object.
    fn first_keys(&self, new: &Option<Tracked>, id: u64) -> Result<List<Key>, OverlayError>
        ensures value { Answers result (bind (live new.now id self.now) (λ o. holding (activation_keys id o.activations) self.now)) }
        ensures few { IfOk result (λ keys. key_count keys self.now ≤ change_limit) }
        ensures usable { is_usable result ≡ true }
        ensures calm { IsErrOf result OverlayError.DiskFault → ⊥ }
    {
        let object = self.live(new, id)?;
        let keys = activation_keys(self.alloc, id, object)?;
        self.holding(keys.as_slice())
    }

    // Counts an object as touched, with these keys.
    fn put_touched(
        &mut self,
        id: u64,
        new: Option<Tracked>,
        keys: List<Key>,
    ) -> Result<bool, OverlayError>
        requires { key_count keys self.old ≤ change_limit }
        ensures ok { OnOk result (self.new ≡ touched_with new keys id self.old) }
        ensures first { IfOk result (λ first. first ≡ true) }
        ensures memory { IfErr result (λ why. why ≡ OverlayError.Memory) }
        ensures err { OnErr result (self.new ≡ self.old) }
    {
        self.touched.reserve(1)?;
        put_new(&mut self.objects, id, new)?;
        let _ = self.touched.insert(id);
        self.keys = keys;
        Ok(true)
    }

    // An object that was touched is touched again, where it is there.
    fn touch_again(&self, new: &Option<Tracked>, id: u64) -> Result<bool, OverlayError>
        ensures value { Answers result (bind (live new.now id self.now) (λ _. Ok false)) }
        ensures usable { is_usable result ≡ true }
        ensures calm { IsErrOf result OverlayError.DiskFault → ⊥ }
    {
        match self.live(new, id) {
            Ok(_) => Ok(false),
            Err(why) => Err(why),
        }
    }

    // An object is touched for the first time, where it is there.
    fn touch_first(&mut self, new: Option<Tracked>, id: u64) -> Result<bool, OverlayError>
        ensures acts { Leaves result self.new (bind (live new id self.old) (λ o. touch_first new id o self.old)) }
        ensures err { OnErr result (self.new ≡ self.old) }
        ensures usable { is_usable result ≡ true }
        ensures calm { IsErrOf result OverlayError.DiskFault → ⊥ }
    {
        match self.first_keys(&new, id) {
            Ok(keys) => self.put_touched(id, new, keys),
            Err(why) => Err(why),
        }
    }

    #[tactic(auto, unfolding(crate::specs::Changing::touch_with))]
    fn touch_in(&mut self, new: Option<Tracked>, id: u64) -> Result<bool, OverlayError>
        ensures acts { Leaves result self.new (touch_with new id self.old) }
        ensures err { OnErr result (self.new ≡ self.old) }
        ensures usable { is_usable result ≡ true }
        ensures calm { IsErrOf result OverlayError.DiskFault → ⊥ }
    {
        if self.is_touched(id) {
            self.touch_again(&new, id)
        } else {
            self.touch_first(new, id)
        }
    }

    /// Counts an object as touched, with the keys of its activations. Whether it wasn't before.
    #[tactic(auto, unfolding(crate::specs::Changing::touch))]
    pub fn touch<H: Host, K: Keep<H>>(
        &mut self,
        classes: &Classes,
        heap: &mut Heap<K>,
        host: &mut H,
        id: u64,
    ) -> Result<bool, OverlayError>
        requires live { IsTrue (K.live heap.old) }
        ensures acts { (base : Entries) → K.holds heap.old (H.view host.old) base → Leaves result self.new (touch classes.now base id self.old) }
        ensures err { OnErr result (self.new ≡ self.old) }
        ensures holds { UnlessFault result ((base : Entries) → K.holds heap.old (H.view host.old) base → K.holds heap.new (H.view host.new) base) }
        ensures looks { Looks (H.view host.old) (H.view host.new) }
        ensures usable { K.live heap.new ≡ is_usable result }
        ensures cause { RoseIf (IsErrOf result OverlayError.DiskFault) (H.view host.old).disk_faults (H.view host.new).disk_faults }
    {
        match self.fresh(classes, heap, host, id) {
            Ok(new) => self.touch_in(new, id),
            Err(why) => Err(why),
        }
    }

    /// What becomes of an object, and the keys with these among them, where a number is left.
    pub(crate) fn change_drawn(
        &self,
        keys: &[Key],
        object: Result<Object, AllocError>,
    ) -> Result<Change, OverlayError>
        ensures value { Gives (λ c. c.keys) result (bind (holding keys.now self.now) (λ keys. bind (next_number self.now) (λ _. Ok keys))) }
        ensures object { IfOk result (λ c. object ≡ Ok c.object) }
        ensures small { IfOk result (λ _. self.now.next < number_limit) }
        ensures few { IfOk result (λ c. key_count c.keys self.now ≤ change_limit) }
        ensures usable { is_usable result ≡ true }
        ensures calm { IsErrOf result OverlayError.DiskFault → ⊥ }
    {
        let change = self.change(keys, object)?;
        if self.next < NUMBER_LIMIT {
            Ok(change)
        } else {
            Err(OverlayError::NoNumber)
        }
    }

    // A call that draws a number ended so: where none was left, that is marked.
    pub(crate) fn undrawn(&mut self, why: OverlayError) -> OverlayError
        ensures same { result ≡ why }
        ensures left { self.new ≡ left_by why self.old }
    {
        if let OverlayError::NoNumber = why {
            self.drew = true;
        }
        why
    }

    // Makes an object with these fields.
    fn create_kept(&mut self, class: u32, fields: KeptFields) -> Result<u64, OverlayError>
        ensures acts { Leaves result self.new (bind (holding (object_key self.old.next ∷ version_key self.old.next 1 ∷ []) self.old) (λ keys. bind (next_number self.old) (λ id. Ok (id, created class fields keys self.old)))) }
        ensures err { IfErr result (λ why. self.new ≡ left_by why self.old) }
    {
        let keys = [object_key(self.next), version_key(self.next, 1)];
        match self.change_drawn(&keys, Object::made(self.alloc, class, fields)) {
            Ok(change) => self.put_created(change),
            Err(why) => Err(self.undrawn(why)),
        }
    }

    // An object is made, and counts as touched.
    fn put_created(&mut self, change: Change) -> Result<u64, OverlayError>
        requires few { key_count change.keys self.old ≤ change_limit }
        requires small { self.old.next < number_limit }
        ensures ok { OnOk result (self.new ≡ touching self.old.next (next_drawn (with_now self.old.next None change.object change.keys self.old))) }
        ensures number { IfOk result (λ n. n ≡ self.old.next) }
        ensures memory { IfErr result (λ why. why ≡ OverlayError.Memory) }
        ensures err { OnErr result (self.new ≡ self.old) }
    {
        let Change { object, keys } = change;
        let id = self.next;
        self.touched.reserve(1)?;
        put_now(&mut self.objects, id, None, object)?;
        let _ = self.touched.insert(id);
        self.keys = keys;
        self.next = id + 1;
        self.drew = true;
        Ok(id)
    }

    #[tactic(auto, unfolding(crate::specs::Changing::create))]
    fn create_in(&mut self, class: u32, fields: List<Value>) -> Result<u64, OverlayError>
        ensures acts { Leaves result self.new (create class fields self.old) }
        ensures err { IfErr result (λ why. self.new ≡ left_by why self.old) }
    {
        let Some(fields) = KeptFields::new(self.first.added, fields) else {
            return Err(OverlayError::TooLong);
        };
        self.create_kept(class, fields)
    }

    /// Makes an object of a class with its first version, and answers its number. It counts as touched.
    #[tactic(auto, unfolding(crate::specs::Changing::create))]
    pub fn create<H: Host, K: Keep<H>>(
        &mut self,
        _classes: &Classes,
        _heap: &mut Heap<K>,
        _host: &mut H,
        class: u32,
        fields: List<Value>,
    ) -> Result<u64, OverlayError>
        ensures acts { Leaves result self.new (create class fields self.old) }
        ensures err { IfErr result (λ why. self.new ≡ left_by why self.old) }
        ensures heap { _heap.new ≡ _heap.old }
        ensures host { _host.new ≡ _host.old }
    {
        self.create_in(class, fields)
    }

    // What becomes of an object that is removed.
    #[tactic(auto, unfolding(crate::specs::Changing::remove_with))]
    fn removed(&self, new: &Option<Tracked>, id: u64) -> Result<Change, OverlayError>
        ensures value { Gives (λ c. (tt, with_now id new.now c.object c.keys self.now)) result (remove_with new.now id self.now) }
        ensures few { IfOk result (λ c. key_count c.keys self.now ≤ change_limit) }
        ensures usable { is_usable result ≡ true }
        ensures calm { IsErrOf result OverlayError.DiskFault → ⊥ }
    {
        let object = self.live(new, id)?;
        let keys = object_keys(self.alloc, id, object)?;
        self.change(keys.as_slice(), dead_in(self.alloc, object))
    }

    fn remove_in(&mut self, new: Option<Tracked>, id: u64) -> Result<(), OverlayError>
        ensures acts { Leaves result self.new (remove_with new id self.old) }
        ensures err { OnErr result (self.new ≡ self.old) }
        ensures usable { is_usable result ≡ true }
        ensures calm { IsErrOf result OverlayError.DiskFault → ⊥ }
    {
        let made = self.removed(&new, id);
        self.put_made(id, new, made)
    }

    /// Removes an object, with all its versions and activations.
    #[tactic(auto, unfolding(crate::specs::Changing::remove))]
    pub fn remove<H: Host, K: Keep<H>>(
        &mut self,
        classes: &Classes,
        heap: &mut Heap<K>,
        host: &mut H,
        id: u64,
    ) -> Result<(), OverlayError>
        requires live { IsTrue (K.live heap.old) }
        ensures acts { (base : Entries) → K.holds heap.old (H.view host.old) base → Leaves result self.new (remove classes.now base id self.old) }
        ensures err { OnErr result (self.new ≡ self.old) }
        ensures holds { UnlessFault result ((base : Entries) → K.holds heap.old (H.view host.old) base → K.holds heap.new (H.view host.new) base) }
        ensures looks { Looks (H.view host.old) (H.view host.new) }
        ensures usable { K.live heap.new ≡ is_usable result }
        ensures cause { RoseIf (IsErrOf result OverlayError.DiskFault) (H.view host.old).disk_faults (H.view host.new).disk_faults }
    {
        match self.fresh(classes, heap, host, id) {
            Ok(new) => self.remove_in(new, id),
            Err(why) => Err(why),
        }
    }
}
