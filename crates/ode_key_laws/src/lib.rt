//! The keys of all activations of touched objects are held, whatever a transaction changes: laws of definitions, each carried by the contract
//! of a function that does nothing.
#![tactic(auto)]

ghost use Rattle.std.specs.Prelude.{◌≡◌, ◌≤◌, ℕ, List as Items, Bool, Some, true};
ghost use Rattle.ode_codec.specs.declared.record.Counters.{Counters};
ghost use Rattle.ode_codec.specs.declared.record.Entry.{Entry};
ghost use Rattle.ode_key_laws.specs.Keys.{HoldsKeys, IsAtHand, StillHoldsKeys};
ghost use Rattle.ode_keep.specs.Entries.{Entries};
ghost use Rattle.ode_laws.specs.Alike.{NumberTx, NumberWorld};
ghost use Rattle.ode_overlay.specs.Changing.{activate, create, deactivate, derive, drop_version, put_acts, remove, touch, write};
ghost use Rattle.ode_overlay.specs.Layers.{Layer, begun, is_touched, key_count};
ghost use Rattle.ode_overlay.specs.Rewinding.{rewind};
ghost use Rattle.ode_overlay.specs.Settling.{collect};
ghost use Rattle.ode_overlay.specs.declared.origin.Origin.{Origin};
ghost use Rattle.ode_overlay_laws.specs.Following.{IsNewNumber};
ghost use Rattle.ode_overlay_laws.specs.Standing.{Stands};
ghost use Rattle.ode_types.specs.declared.running.Running.{Running};
ghost use Rattle.ode_value.specs.Denoting.{object_numbered};
ghost use Rattle.ode_value.specs.Limits.{change_limit};
ghost use Rattle.ode_value.specs.Worlds.{Object};
ghost use Rattle.ode_value.specs.declared.class.Class.{Class};
ghost use Rattle.ode_value.specs.declared.value.Ref.{Ref};
ghost use Rattle.ode_value.specs.declared.value.Value.{Value};
ghost use Rattle.ode_version_laws.specs.Denoting.{IsRead};
ghost use Rattle.ode_version_laws.specs.Remembering.{Remembers};

/// A touched object of the world now is tracked, and a point finds the keys of all its activations held, where no more keys are held than
/// may be.
pub fn touched_objects_are_at_hand()
    ensures { (x : Layer) (y : NumberTx) (id : ℕ) (o : Object) → Stands x y → HoldsKeys y.first x → key_count x.keys x ≤ change_limit → is_touched id x ≡ true
        → object_numbered id y.now.bones.objects ≡ Some o → IsAtHand x id o }
{}

/// An overlay that begins holds the keys so, and goes on behind each call on any object: one that reads, where what it reads is what the world
/// now has; the making of an object, where the next number is a new one; `collect`; and `rewind`, where it remembers what its objects were.
pub fn calls_keep_keys()
    ensures begun { (first : NumberWorld) (counters : Counters) (queued : ℕ) (origin : Origin) → HoldsKeys first (begun counters queued origin) }
    ensures write { (classes : Items Class) (base : Entries) (x : Layer) (y : NumberTx) (r : Ref) (slot : ℕ) (value : Value) → Stands x y → HoldsKeys y.first x
        → IsRead classes base x y r.object → StillHoldsKeys y.first (write classes base r slot value x) }
    ensures derive { (classes : Items Class) (base : Entries) (x : Layer) (y : NumberTx) (r : Ref) → Stands x y → HoldsKeys y.first x
        → IsRead classes base x y r.object → StillHoldsKeys y.first (derive classes base r x) }
    ensures drop { (classes : Items Class) (base : Entries) (x : Layer) (y : NumberTx) (r : Ref) → Stands x y → HoldsKeys y.first x
        → IsRead classes base x y r.object → StillHoldsKeys y.first (drop_version classes base r x) }
    ensures touch { (classes : Items Class) (base : Entries) (x : Layer) (y : NumberTx) (id : ℕ) → Stands x y → HoldsKeys y.first x
        → IsRead classes base x y id → StillHoldsKeys y.first (touch classes base id x) }
    ensures create { (class : ℕ) (fields : Items Value) (x : Layer) (y : NumberTx) → Stands x y → HoldsKeys y.first x
        → IsNewNumber x y x.next → StillHoldsKeys y.first (create class fields x) }
    ensures remove { (classes : Items Class) (base : Entries) (x : Layer) (y : NumberTx) (id : ℕ) → Stands x y → HoldsKeys y.first x
        → IsRead classes base x y id → StillHoldsKeys y.first (remove classes base id x) }
    ensures activate { (classes : Items Class) (base : Entries) (x : Layer) (y : NumberTx) (id class trigger : ℕ) (args : Items Value) → Stands x y
        → HoldsKeys y.first x → IsRead classes base x y id → StillHoldsKeys y.first (activate classes base id class trigger args x) }
    ensures deactivate { (classes : Items Class) (base : Entries) (x : Layer) (y : NumberTx) (id number : ℕ) → Stands x y → HoldsKeys y.first x
        → IsRead classes base x y id → StillHoldsKeys y.first (deactivate classes base id number x) }
    ensures put { (classes : Items Class) (base : Entries) (x : Layer) (y : NumberTx) (id : ℕ) (rs : Items Running) → Stands x y → HoldsKeys y.first x
        → IsRead classes base x y id → StillHoldsKeys y.first (put_acts classes base id rs x) }
    ensures collect { (first : NumberWorld) (x : Layer) (e : Entry) (independent : Bool) → HoldsKeys first x → HoldsKeys first (collect e independent x).1 }
    ensures rewind { (first : NumberWorld) (classes : Items Class) (x : Layer) → Remembers x.objects first → HoldsKeys first x → HoldsKeys first (rewind classes x) }
{}
