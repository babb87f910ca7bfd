//! The keys that an overlay holds are those of all records that it changes: laws of definitions, each carried by the contract of a function
//! that does nothing.
#![tactic(auto)]

ghost use Rattle.std.specs.Prelude.{◌≡◌, ℕ, List as Items, map, Bool, Option, Ok};
ghost use Rattle.ode_codec.specs.declared.record.Counters.{Counters};
ghost use Rattle.ode_codec.specs.declared.record.Entry.{Entry};
ghost use Rattle.ode_formed_laws.specs.Staying.{IsStored, IsUnused, StaysFormed};
ghost use Rattle.ode_heap.specs.Answering.{class_of};
ghost use Rattle.ode_heap_laws.specs.Few.{HoldsCounted};
ghost use Rattle.ode_keep.specs.Entries.{Entries};
ghost use Rattle.ode_objects.specs.declared.tracked.Tracked.{Tracked};
ghost use Rattle.ode_overlay.specs.Changing.{activate_with, create, deactivate_with, fresh, put_with, remove_with, touch_with};
ghost use Rattle.ode_overlay.specs.Layers.{Layer, begun};
ghost use Rattle.ode_overlay.specs.Settling.{collect};
ghost use Rattle.ode_overlay.specs.declared.origin.Origin.{Origin};
ghost use Rattle.ode_settling_laws.specs.Formed.{IsFormed};
ghost use Rattle.ode_types.specs.declared.running.Running.{Running};
ghost use Rattle.ode_value.specs.Language.{Language, ListWorld};
ghost use Rattle.ode_value.specs.Worlds.{Declared};
ghost use Rattle.ode_value.specs.declared.value.Value.{Value};

use ode_heap_laws::{heaps_show_held_worlds, held_worlds_can_be_read};

/// What an overlay reads of an object from records that hold a world stands under the object's keys, and nothing of it was written.
pub fn objects_are_read_as_stored()
    ensures { (l : Language) (records : Entries) (w : ListWorld) (x : Layer) (id : ℕ) (new : Option Tracked) → HoldsCounted l records w
        → fresh (map class_of w.bones.classes) records id x ≡ Ok new → IsStored w.bones.classes records id new }
{
    held_worlds_can_be_read();
    heaps_show_held_worlds();
}

/// An overlay begins so, over any records.
pub fn overlays_begin_formed()
    ensures { (classes : Items Declared) (base : Entries) (counters : Counters) (queued : ℕ) (origin : Origin) → IsFormed classes base (begun counters queued origin) }
{}

/// Touching, making and removing objects, and switching activations on and off or giving them states, leave it so, where what was read of
/// an object stands under its keys and nothing stands under those of a new number. So does collecting a firing.
pub fn changes_stay_formed()
    ensures touch { (classes : Items Declared) (base : Entries) (x : Layer) (id : ℕ) (new : Option Tracked) → IsFormed classes base x → IsStored classes base id new → StaysFormed classes base (touch_with new id x) }
    ensures make { (classes : Items Declared) (base : Entries) (x : Layer) (class : ℕ) (fields : Items Value) → IsFormed classes base x → IsUnused base x.next → StaysFormed classes base (create class fields x) }
    ensures remove { (classes : Items Declared) (base : Entries) (x : Layer) (id : ℕ) (new : Option Tracked) → IsFormed classes base x → IsStored classes base id new → StaysFormed classes base (remove_with new id x) }
    ensures activate { (classes : Items Declared) (base : Entries) (x : Layer) (id class trigger : ℕ) (args : Items Value) (new : Option Tracked) → IsFormed classes base x → IsStored classes base id new
        → StaysFormed classes base (activate_with new id class trigger args x) }
    ensures deactivate { (classes : Items Declared) (base : Entries) (x : Layer) (id number : ℕ) (new : Option Tracked) → IsFormed classes base x → IsStored classes base id new → StaysFormed classes base (deactivate_with new id number x) }
    ensures put { (classes : Items Declared) (base : Entries) (x : Layer) (id : ℕ) (acts : Items Running) (new : Option Tracked) → IsFormed classes base x → IsStored classes base id new → StaysFormed classes base (put_with new id acts x) }
    ensures collect { (classes : Items Declared) (base : Entries) (x : Layer) (e : Entry) (independent : Bool) → IsFormed classes base x → IsFormed classes base (collect e independent x).1 }
{}
