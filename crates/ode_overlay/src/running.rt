//! Activations go on and off, and take over states.
ghost use Rattle.std.specs.Prelude.{◌≡◌, ◌≤◌, ◌<◌, [], ◌∷◌, true, IfErr, IfOk, IsErrOf, IsTrue, OnErr, OnOk};
ghost use Rattle.ode_host.specs.Causes.{RoseIf};
ghost use Rattle.ode_host.specs.Host.{Looks};
ghost use Rattle.ode_keep.specs.Entries.{Entries};
ghost use Rattle.ode_overlay.specs.Answers.{Gives, Leaves, UnlessFault, is_usable};
ghost use Rattle.ode_overlay.specs.Changing.{activate, activate_with, deactivate, deactivate_with, left_by, next_drawn, put_acts, put_with, with_now};
ghost use Rattle.ode_objects.specs.Objects.{activated, activation_keys, switched_off, with_states};
ghost use Rattle.ode_overlay.specs.Layers.{holding, key_count};
ghost use Rattle.ode_value.specs.Keys.{activation_key};
ghost use Rattle.ode_value.specs.Limits.{change_limit, number_limit};

use crate::error::OverlayError;
use crate::overlay::{Change, Overlay};
use ode_host::Host;
use ode_keep::Keep;
use ode_objects::{Active, Heap, KeptArgs, Object, Tracked, activation_key, activation_keys};
use ode_types::{Classes, Running};
use ode_value::{List, Value};
use std::alloc::{AllocError, Global};

// An object again, with a new activation.
fn activated_in(alloc: Global, object: &Object, active: Active) -> Result<Object, AllocError>
    ensures { IfOk result (λ o. o ≡ activated active object.now) }
{
    object.copy(alloc)?.activated(active)
}

// An object again, with the activation of a number off.
fn switched_off_in(alloc: Global, object: &Object, number: u64) -> Result<Object, AllocError>
    ensures { IfOk result (λ o. o ≡ switched_off number object.now) }
{
    Ok(object.copy(alloc)?.switched_off(number))
}

// An object again, with states taken over.
fn taken_over_in(alloc: Global, object: &Object, acts: &[Running]) -> Result<Object, AllocError>
    ensures { IfOk result (λ o. o ≡ with_states acts.now object.now) }
{
    Ok(object.copy(alloc)?.taken_over(acts))
}

impl Overlay {
    // What becomes of an object with a new activation.
    #[tactic(auto, unfolding(crate::specs::Changing::activate_with))]
    fn activated(
        &self,
        new: &Option<Tracked>,
        id: u64,
        class: u32,
        trigger: u16,
        args: List<Value>,
    ) -> Result<Change, OverlayError>
        ensures value { Gives (λ c. (self.now.next, next_drawn (with_now id new.now c.object c.keys self.now))) result (activate_with new.now id class trigger args self.now) }
        ensures small { IfOk result (λ _. self.now.next < number_limit) }
        ensures few { IfOk result (λ c. key_count c.keys self.now ≤ change_limit) }
        ensures usable { is_usable result ≡ true }
        ensures calm { IsErrOf result OverlayError.DiskFault → ⊥ }
    {
        let object = self.live(new, id)?;
        let Some(args) = KeptArgs::new(args) else {
            return Err(OverlayError::TooLong);
        };
        let active = Active::new(self.next, class, trigger, args);
        let now = activated_in(self.alloc, object, active);
        self.change_drawn(&[activation_key(id, self.next)], now)
    }

    // An object is this from now on, and a number is drawn.
    fn put_drawn(
        &mut self,
        id: u64,
        new: Option<Tracked>,
        change: Change,
    ) -> Result<u64, OverlayError>
        requires few { key_count change.keys self.old ≤ change_limit }
        requires small { self.old.next < number_limit }
        ensures ok { OnOk result (self.new ≡ next_drawn (with_now id new change.object change.keys self.old)) }
        ensures number { IfOk result (λ n. n ≡ self.old.next) }
        ensures memory { IfErr result (λ why. why ≡ OverlayError.Memory) }
        ensures err { OnErr result (self.new ≡ self.old) }
    {
        let number = self.next;
        self.put(id, new, change)?;
        self.next = number + 1;
        self.drew = true;
        Ok(number)
    }

    fn activate_in(
        &mut self,
        new: Option<Tracked>,
        id: u64,
        class: u32,
        trigger: u16,
        args: List<Value>,
    ) -> Result<u64, OverlayError>
        ensures acts { Leaves result self.new (activate_with new id class trigger args self.old) }
        ensures err { IfErr result (λ why. self.new ≡ left_by why self.old) }
        ensures usable { is_usable result ≡ true }
        ensures calm { IsErrOf result OverlayError.DiskFault → ⊥ }
    {
        match self.activated(&new, id, class, trigger, args) {
            Ok(change) => self.put_drawn(id, new, change),
            Err(why) => Err(self.undrawn(why)),
        }
    }

    /// A new activation of a trigger for an object, and its number. The class is the one that declares the trigger.
    #[tactic(auto, unfolding(crate::specs::Changing::activate))]
    pub fn activate<H: Host, K: Keep<H>>(
        &mut self,
        classes: &Classes,
        heap: &mut Heap<K>,
        host: &mut H,
        id: u64,
        class: u32,
        trigger: u16,
        args: List<Value>,
    ) -> Result<u64, OverlayError>
        requires live { IsTrue (K.live heap.old) }
        ensures acts { (base : Entries) → K.holds heap.old (H.view host.old) base → Leaves result self.new (activate classes.now base id class trigger args self.old) }
        ensures err { IfErr result (λ why. self.new ≡ left_by why self.old) }
        ensures holds { UnlessFault result ((base : Entries) → K.holds heap.old (H.view host.old) base → K.holds heap.new (H.view host.new) base) }
        ensures looks { Looks (H.view host.old) (H.view host.new) }
        ensures usable { K.live heap.new ≡ is_usable result }
        ensures cause { RoseIf (IsErrOf result OverlayError.DiskFault) (H.view host.old).disk_faults (H.view host.new).disk_faults }
    {
        match self.fresh(classes, heap, host, id) {
            Ok(new) => self.activate_in(new, id, class, trigger, args),
            Err(why) => Err(self.undrawn(why)),
        }
    }

    // What becomes of an object whose activation of a number goes off.
    fn switched_off(
        &self,
        object: &Object,
        id: u64,
        activation: u64,
    ) -> Result<Change, OverlayError>
        ensures value { Gives (λ c. c.keys) result (holding (activation_key id activation ∷ []) self.now) }
        ensures object { IfOk result (λ c. c.object ≡ switched_off activation object.now) }
        ensures few { IfOk result (λ c. key_count c.keys self.now ≤ change_limit) }
        ensures usable { is_usable result ≡ true }
        ensures calm { IsErrOf result OverlayError.DiskFault → ⊥ }
    {
        let now = switched_off_in(self.alloc, object, activation);
        self.change(&[activation_key(id, activation)], now)
    }

    #[tactic(auto, unfolding(crate::specs::Changing::deactivate_with))]
    fn deactivate_in(
        &mut self,
        new: Option<Tracked>,
        id: u64,
        activation: u64,
    ) -> Result<(), OverlayError>
        ensures acts { Leaves result self.new (deactivate_with new id activation self.old) }
        ensures err { OnErr result (self.new ≡ self.old) }
        ensures usable { is_usable result ≡ true }
        ensures calm { IsErrOf result OverlayError.DiskFault → ⊥ }
    {
        match self.live(&new, id) {
            Ok(object) => {
                if !object.is_on(activation) {
                    return Ok(());
                }
                let made = self.switched_off(object, id, activation);
                self.put_made(id, new, made)
            }
            Err(why) => Err(why),
        }
    }

    /// An activation of an object goes off, where there is one of this number that is on.
    #[tactic(auto, unfolding(crate::specs::Changing::deactivate))]
    pub fn deactivate<H: Host, K: Keep<H>>(
        &mut self,
        classes: &Classes,
        heap: &mut Heap<K>,
        host: &mut H,
        id: u64,
        activation: u64,
    ) -> Result<(), OverlayError>
        requires live { IsTrue (K.live heap.old) }
        ensures acts { (base : Entries) → K.holds heap.old (H.view host.old) base → Leaves result self.new (deactivate classes.now base id activation self.old) }
        ensures err { OnErr result (self.new ≡ self.old) }
        ensures holds { UnlessFault result ((base : Entries) → K.holds heap.old (H.view host.old) base → K.holds heap.new (H.view host.new) base) }
        ensures looks { Looks (H.view host.old) (H.view host.new) }
        ensures usable { K.live heap.new ≡ is_usable result }
        ensures cause { RoseIf (IsErrOf result OverlayError.DiskFault) (H.view host.old).disk_faults (H.view host.new).disk_faults }
    {
        match self.fresh(classes, heap, host, id) {
            Ok(new) => self.deactivate_in(new, id, activation),
            Err(why) => Err(why),
        }
    }

    // What becomes of an object that takes over states.
    fn taken_over(&self, object: &Object, id: u64, acts: &[Running]) -> Result<Change, OverlayError>
        ensures value { Gives (λ c. c.keys) result (holding (activation_keys id object.now.activations) self.now) }
        ensures object { IfOk result (λ c. c.object ≡ with_states acts.now object.now) }
        ensures few { IfOk result (λ c. key_count c.keys self.now ≤ change_limit) }
        ensures usable { is_usable result ≡ true }
        ensures calm { IsErrOf result OverlayError.DiskFault → ⊥ }
    {
        let keys = activation_keys(self.alloc, id, object)?;
        self.change(keys.as_slice(), taken_over_in(self.alloc, object, acts))
    }

    #[tactic(auto, unfolding(crate::specs::Changing::put_with))]
    fn put_acts_in(
        &mut self,
        new: Option<Tracked>,
        id: u64,
        acts: &[Running],
    ) -> Result<(), OverlayError>
        ensures acts { Leaves result self.new (put_with new id acts.now self.old) }
        ensures err { OnErr result (self.new ≡ self.old) }
        ensures usable { is_usable result ≡ true }
        ensures calm { IsErrOf result OverlayError.DiskFault → ⊥ }
    {
        match self.object_of(&new, id) {
            Some(tracked) => {
                let made = self.taken_over(&tracked.current, id, acts);
                self.put_made(id, new, made)
            }
            None => Ok(()),
        }
    }

    /// The activations of an object take over states, and whether they are on, one from each in order.
    #[tactic(auto, unfolding(crate::specs::Changing::put_acts))]
    pub fn put_acts<H: Host, K: Keep<H>>(
        &mut self,
        classes: &Classes,
        heap: &mut Heap<K>,
        host: &mut H,
        id: u64,
        acts: List<Running>,
    ) -> Result<(), OverlayError>
        requires live { IsTrue (K.live heap.old) }
        ensures acts { (base : Entries) → K.holds heap.old (H.view host.old) base → Leaves result self.new (put_acts classes.now base id acts self.old) }
        ensures err { OnErr result (self.new ≡ self.old) }
        ensures holds { UnlessFault result ((base : Entries) → K.holds heap.old (H.view host.old) base → K.holds heap.new (H.view host.new) base) }
        ensures looks { Looks (H.view host.old) (H.view host.new) }
        ensures usable { K.live heap.new ≡ is_usable result }
        ensures cause { RoseIf (IsErrOf result OverlayError.DiskFault) (H.view host.old).disk_faults (H.view host.new).disk_faults }
    {
        match self.fresh(classes, heap, host, id) {
            Ok(new) => self.put_acts_in(new, id, acts.as_slice()),
            Err(why) => Err(why),
        }
    }
}
