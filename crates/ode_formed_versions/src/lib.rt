//! Changes of versions hold the keys of all records that they change: a law of definitions, carried by the contract of a function that does
//! nothing.
#![tactic(auto)]

ghost use Rattle.std.specs.Prelude.{◌≡◌, ℕ, List as Items, Option, Some};
ghost use Rattle.ode_formed_laws.specs.Staying.{IsStored, StaysFormed};
ghost use Rattle.ode_keep.specs.Entries.{Entries};
ghost use Rattle.ode_objects.specs.declared.tracked.Tracked.{Tracked};
ghost use Rattle.ode_overlay.specs.Changing.{derive_with, drop_with, object_of, write_with};
ghost use Rattle.ode_overlay.specs.Layers.{Layer};
ghost use Rattle.ode_overlay_laws.specs.Standing.{object_as};
ghost use Rattle.ode_settling_laws.specs.Formed.{IsFormed};
ghost use Rattle.ode_value.specs.Worlds.{Declared};
ghost use Rattle.ode_value.specs.declared.value.Ref.{Ref};
ghost use Rattle.ode_value.specs.declared.value.Value.{Value};
ghost use Rattle.ode_version_laws.specs.Denoting.{HasVersions};

/// Setting a field leaves the overlay so that the keys it holds are those of all records that differ, and so do deriving and removing a
/// version, where the numbers of the object's versions rise and its last number is at least each.
pub fn versions_stay_formed()
    ensures write { (classes : Items Declared) (base : Entries) (x : Layer) (r : Ref) (slot : ℕ) (value : Value) (new : Option Tracked) → IsFormed classes base x → IsStored classes base r.object new
        → StaysFormed classes base (write_with new r slot value x) }
    ensures derive { (classes : Items Declared) (base : Entries) (x : Layer) (r : Ref) (new : Option Tracked) → IsFormed classes base x → IsStored classes base r.object new
        → ((t : Tracked) → object_of new r.object x ≡ Some t → HasVersions (object_as r.object t.current)) → StaysFormed classes base (derive_with new r x) }
    ensures drop { (classes : Items Declared) (base : Entries) (x : Layer) (r : Ref) (new : Option Tracked) → IsFormed classes base x → IsStored classes base r.object new
        → ((t : Tracked) → object_of new r.object x ≡ Some t → HasVersions (object_as r.object t.current)) → StaysFormed classes base (drop_with new r x) }
{}
