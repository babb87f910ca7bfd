//! Versions are derived, removed and written, in the overlay and in the machine.
ghost use Rattle.std.specs.Prelude.{ℕ, List as Items};
ghost use Rattle.ode_keep.specs.Entries.{Entries};
ghost use Rattle.ode_laws.specs.Alike.{NumberTx};
ghost use Rattle.ode_overlay.specs.Changing.{activate, create, deactivate, derive, drop_version, put_acts, remove, touch, write};
ghost use Rattle.ode_overlay.specs.Layers.{Layer};
ghost use Rattle.ode_overlay_laws.specs.Following.{Follows};
ghost use Rattle.ode_overlay_laws.specs.Standing.{Stands};
ghost use Rattle.ode_types.specs.declared.running.Running.{Running};
ghost use Rattle.ode_value.specs.Acts.{gives};
ghost use Rattle.ode_value.specs.Making.{derives, drops, sets_field};
ghost use Rattle.ode_value.specs.declared.class.Class.{Class};
ghost use Rattle.ode_value.specs.declared.value.Ref.{Ref};
ghost use Rattle.ode_value.specs.declared.value.Value.{Value};
ghost use Rattle.ode_version_laws.specs.Denoting.{HasVersionsAt, HaveVersions, IsRead, tells_version};
ghost use Rattle.ode_version_laws.specs.Leaving.{StillHaveVersions};

/// A version is derived in the overlay as in the machine, up to its line.
pub fn derivations_follow()
    ensures { (classes : Items Class) (base : Entries) (x : Layer) (y : NumberTx) (r : Ref) → Stands x y → IsRead classes base x y r.object
        → Follows y tells_version (derive classes base r x) (derives r y) }
{}

/// A version is removed in the overlay as in the machine, where the numbers of its object's versions rise.
pub fn version_removals_follow()
    ensures { (classes : Items Class) (base : Entries) (x : Layer) (y : NumberTx) (r : Ref) → Stands x y → IsRead classes base x y r.object → HasVersionsAt y r.object
        → Follows y gives (drop_version classes base r x) (drops r y) }
{}

/// A field is set in the overlay as in the machine, where the numbers of the object's versions rise.
pub fn writes_follow()
    ensures { (classes : Items Class) (base : Entries) (x : Layer) (y : NumberTx) (r : Ref) (slot : ℕ) (value : Value) → Stands x y
        → IsRead classes base x y r.object → HasVersionsAt y r.object
        → Follows y gives (write classes base r slot value x) (sets_field r slot value y) }
{}

/// Where each object has versions, so it does behind each call, in every transaction that goes on and for which the overlay then stands: one
/// that reads, where what it reads is what the world now has.
pub fn calls_keep_versions()
    ensures write { (classes : Items Class) (base : Entries) (x : Layer) (y : NumberTx) (r : Ref) (slot : ℕ) (value : Value) → Stands x y → HaveVersions y.now.bones
        → IsRead classes base x y r.object → StillHaveVersions y (write classes base r slot value x) }
    ensures derive { (classes : Items Class) (base : Entries) (x : Layer) (y : NumberTx) (r : Ref) → Stands x y → HaveVersions y.now.bones
        → IsRead classes base x y r.object → StillHaveVersions y (derive classes base r x) }
    ensures drop { (classes : Items Class) (base : Entries) (x : Layer) (y : NumberTx) (r : Ref) → Stands x y → HaveVersions y.now.bones
        → IsRead classes base x y r.object → StillHaveVersions y (drop_version classes base r x) }
    ensures touch { (classes : Items Class) (base : Entries) (x : Layer) (y : NumberTx) (id : ℕ) → Stands x y → HaveVersions y.now.bones
        → IsRead classes base x y id → StillHaveVersions y (touch classes base id x) }
    ensures create { (class : ℕ) (fields : Items Value) (x : Layer) (y : NumberTx) → Stands x y → HaveVersions y.now.bones → StillHaveVersions y (create class fields x) }
    ensures remove { (classes : Items Class) (base : Entries) (x : Layer) (y : NumberTx) (id : ℕ) → Stands x y → HaveVersions y.now.bones
        → IsRead classes base x y id → StillHaveVersions y (remove classes base id x) }
    ensures activate { (classes : Items Class) (base : Entries) (x : Layer) (y : NumberTx) (id class trigger : ℕ) (args : Items Value) → Stands x y
        → HaveVersions y.now.bones → IsRead classes base x y id → StillHaveVersions y (activate classes base id class trigger args x) }
    ensures deactivate { (classes : Items Class) (base : Entries) (x : Layer) (y : NumberTx) (id number : ℕ) → Stands x y → HaveVersions y.now.bones
        → IsRead classes base x y id → StillHaveVersions y (deactivate classes base id number x) }
    ensures put { (classes : Items Class) (base : Entries) (x : Layer) (y : NumberTx) (id : ℕ) (rs : Items Running) → Stands x y → HaveVersions y.now.bones
        → IsRead classes base x y id → StillHaveVersions y (put_acts classes base id rs x) }
{}
