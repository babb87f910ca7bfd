//! What holds of each object of the world now, behind each call of the overlay: the numbers of its activations were drawn and
//! rise, and its class has their triggers. Laws of definitions, each carried by the contract of a function that does nothing.
#![tactic(auto)]

ghost use Rattle.std.specs.Prelude.{◌≡◌, ◌≤◌, ℕ, List as Items, Some};
ghost use Rattle.ode_codec.specs.Standing.{StandsAs};
ghost use Rattle.ode_keep.specs.Entries.{Entries};
ghost use Rattle.ode_laws.specs.Alike.{NumberTx, NumberWorld};
ghost use Rattle.ode_object_laws.specs.Objects.{HaveNumbers, HaveTriggers, StillHaveNumbers, StillHaveTriggers, TakesTrigger};
ghost use Rattle.ode_overlay.specs.Changing.{activate, create, deactivate, derive, drop_version, put_acts, remove, touch, write};
ghost use Rattle.ode_overlay.specs.Layers.{Layer};
ghost use Rattle.ode_overlay_laws.specs.Standing.{Stands};
ghost use Rattle.ode_types.specs.declared.running.Running.{Running};
ghost use Rattle.ode_value.specs.Denoting.{object_numbered};
ghost use Rattle.ode_value.specs.GoodWorlds.{IsGood};
ghost use Rattle.ode_value.specs.Language.{Language, ListWorld};
ghost use Rattle.ode_value.specs.Pasts.{numbers};
ghost use Rattle.ode_value.specs.Settling.{aborted};
ghost use Rattle.ode_value.specs.Tables.{Table};
ghost use Rattle.ode_value.specs.Worlds.{Declared, Object};
ghost use Rattle.ode_value.specs.declared.class.Class.{Class};
ghost use Rattle.ode_value.specs.declared.value.Ref.{Ref};
ghost use Rattle.ode_value.specs.declared.value.Value.{Value};
ghost use Rattle.ode_version_laws.specs.Denoting.{IsRead};

/// Where the numbers of each object and of its activations were drawn, and the latter rise, so it is behind each call, in every transaction
/// that goes on and for which the overlay then stands: one that reads, where what it reads is what the world now has. No number is given back.
pub fn calls_keep_numbers()
    ensures write { (classes : Items Class) (base : Entries) (x : Layer) (y : NumberTx) (r : Ref) (slot : ℕ) (value : Value) → Stands x y → HaveNumbers y.now.bones → IsRead classes base x y r.object → StillHaveNumbers y (write classes base r slot value x) }
    ensures derive { (classes : Items Class) (base : Entries) (x : Layer) (y : NumberTx) (r : Ref) → Stands x y → HaveNumbers y.now.bones → IsRead classes base x y r.object → StillHaveNumbers y (derive classes base r x) }
    ensures drop { (classes : Items Class) (base : Entries) (x : Layer) (y : NumberTx) (r : Ref) → Stands x y → HaveNumbers y.now.bones → IsRead classes base x y r.object → StillHaveNumbers y (drop_version classes base r x) }
    ensures touch { (classes : Items Class) (base : Entries) (x : Layer) (y : NumberTx) (id : ℕ) → Stands x y → HaveNumbers y.now.bones → IsRead classes base x y id → StillHaveNumbers y (touch classes base id x) }
    ensures create { (class : ℕ) (fields : Items Value) (x : Layer) (y : NumberTx) → Stands x y → HaveNumbers y.now.bones → StillHaveNumbers y (create class fields x) }
    ensures remove { (classes : Items Class) (base : Entries) (x : Layer) (y : NumberTx) (id : ℕ) → Stands x y → HaveNumbers y.now.bones → IsRead classes base x y id → StillHaveNumbers y (remove classes base id x) }
    ensures activate { (classes : Items Class) (base : Entries) (x : Layer) (y : NumberTx) (id class trigger : ℕ) (args : Items Value) → Stands x y → HaveNumbers y.now.bones → IsRead classes base x y id → StillHaveNumbers y (activate classes base id class trigger args x) }
    ensures deactivate { (classes : Items Class) (base : Entries) (x : Layer) (y : NumberTx) (id number : ℕ) → Stands x y → HaveNumbers y.now.bones → IsRead classes base x y id → StillHaveNumbers y (deactivate classes base id number x) }
    ensures put { (classes : Items Class) (base : Entries) (x : Layer) (y : NumberTx) (id : ℕ) (rs : Items Running) → Stands x y → HaveNumbers y.now.bones → IsRead classes base x y id → StillHaveNumbers y (put_acts classes base id rs x) }
{}

/// Where the class of each object has the triggers of its activations, by any classes, so it is behind each call likewise;
/// a new activation is of a trigger that the object's class has.
pub fn calls_keep_triggers()
    ensures write { (known : Items Declared) (classes : Items Class) (base : Entries) (x : Layer) (y : NumberTx) (r : Ref) (slot : ℕ) (value : Value) → Stands x y → HaveTriggers known y.now.bones → IsRead classes base x y r.object → StillHaveTriggers known y (write classes base r slot value x) }
    ensures derive { (known : Items Declared) (classes : Items Class) (base : Entries) (x : Layer) (y : NumberTx) (r : Ref) → Stands x y → HaveTriggers known y.now.bones → IsRead classes base x y r.object → StillHaveTriggers known y (derive classes base r x) }
    ensures drop { (known : Items Declared) (classes : Items Class) (base : Entries) (x : Layer) (y : NumberTx) (r : Ref) → Stands x y → HaveTriggers known y.now.bones → IsRead classes base x y r.object → StillHaveTriggers known y (drop_version classes base r x) }
    ensures touch { (known : Items Declared) (classes : Items Class) (base : Entries) (x : Layer) (y : NumberTx) (id : ℕ) → Stands x y → HaveTriggers known y.now.bones → IsRead classes base x y id → StillHaveTriggers known y (touch classes base id x) }
    ensures create { (known : Items Declared) (class : ℕ) (fields : Items Value) (x : Layer) (y : NumberTx) → Stands x y → HaveTriggers known y.now.bones → StillHaveTriggers known y (create class fields x) }
    ensures remove { (known : Items Declared) (classes : Items Class) (base : Entries) (x : Layer) (y : NumberTx) (id : ℕ) → Stands x y → HaveTriggers known y.now.bones → IsRead classes base x y id → StillHaveTriggers known y (remove classes base id x) }
    ensures activate { (known : Items Declared) (classes : Items Class) (base : Entries) (x : Layer) (y : NumberTx) (id class trigger : ℕ) (args : Items Value) → Stands x y → HaveTriggers known y.now.bones → IsRead classes base x y id
        → ((o : Object) → object_numbered id y.now.bones.objects ≡ Some o → TakesTrigger known o.class class trigger) → StillHaveTriggers known y (activate classes base id class trigger args x) }
    ensures deactivate { (known : Items Declared) (classes : Items Class) (base : Entries) (x : Layer) (y : NumberTx) (id number : ℕ) → Stands x y → HaveTriggers known y.now.bones → IsRead classes base x y id → StillHaveTriggers known y (deactivate classes base id number x) }
    ensures put { (known : Items Declared) (classes : Items Class) (base : Entries) (x : Layer) (y : NumberTx) (id : ℕ) (rs : Items Running) → Stands x y → HaveTriggers known y.now.bones → IsRead classes base x y id → StillHaveTriggers known y (put_acts classes base id rs x) }
{}

/// So it is behind what an abort takes back, where it was so in the first world.
pub fn rewinds_keep_objects()
    ensures numbers { (tables : ℕ → ℕ → Table) (y : NumberTx) → HaveNumbers y.first.bones → y.first.bones.next ≤ y.now.bones.next
        → HaveNumbers (aborted (numbers tables) y).now.bones }
    ensures triggers { (tables : ℕ → ℕ → Table) (y : NumberTx) (known : Items Declared) → HaveTriggers known y.first.bones → HaveTriggers known (aborted (numbers tables) y).now.bones }
{}

/// In a world that stands for a good one the class of each object has the triggers of its activations.
pub fn good_worlds_have_triggers()
    ensures { (l : Language) (tables : ℕ → ℕ → Table) (v : NumberWorld) (w : ListWorld) → IsGood l w → StandsAs tables v w → HaveTriggers v.bones.classes v.bones }
{}
