//! Objects and fields are seen through the overlay as in the machine.
ghost use Rattle.std.specs.Prelude.{◌≡◌, ℕ, List as Items, Ok, map};
ghost use Rattle.std.specs.Option.{option_map};
ghost use Rattle.ode_heap.specs.Answering.{class_of, head_of_object};
ghost use Rattle.ode_heap_laws.specs.Few.{HoldsCounted};
ghost use Rattle.ode_keep.specs.Entries.{Entries};
ghost use Rattle.ode_laws.specs.Alike.{NumberTx};
ghost use Rattle.ode_overlay.specs.Layers.{Layer};
ghost use Rattle.ode_overlay.specs.Reading.{ReadsAs, object, read};
ghost use Rattle.ode_overlay_laws.specs.Standing.{Stands};
ghost use Rattle.ode_value.specs.Denoting.{denoted, object_at};
ghost use Rattle.ode_value.specs.Evaluation.{field_of};
ghost use Rattle.ode_value.specs.Language.{Language, ListWorld};
ghost use Rattle.ode_value.specs.Records.{Row};
ghost use Rattle.ode_value.specs.declared.value.Ref.{Ref};
ghost use Rattle.ode_version_laws.specs.Denoting.{HasVersionsAt};
ghost use Rattle.ode_version_laws.specs.Showing.{AreSettled, IsSettledAt, Shows, number_in, number_seen};

use ode_heap_laws::heaps_show_held_worlds;

/// Records that hold a world show it, and it is settled, where its classes have no more fields and their triggers no more parameters than a
/// record counts.
pub fn held_worlds_are_shown()
    ensures shows { (l : Language) (records : Items Row) (w : ListWorld) (held : HoldsCounted l records w) → Shows records held.world.stored.world }
    ensures settled { (l : Language) (records : Items Row) (w : ListWorld) (held : HoldsCounted l records w) → AreSettled held.world.stored.world }
{
    heaps_show_held_worlds();
}

/// Over records that show the first world, an object's head is that of the live object of the world now; a reference denotes the version
/// that is found in the head, or there is none for the same reason; and a field that is read is the machine's, with the same fault where
/// there is none.
pub fn reads_follow()
    ensures object { (base : Entries) (x : Layer) (y : NumberTx) (id : ℕ) → Stands x y → Shows base y.first → IsSettledAt y.first id → HasVersionsAt y id
        → object base id x ≡ Ok (option_map head_of_object (object_at y.now.bones id)) }
    ensures number { (base : Entries) (x : Layer) (y : NumberTx) (r : Ref) → Stands x y → Shows base y.first → IsSettledAt y.first r.object
        → HasVersionsAt y r.object → ReadsAs (number_seen base r x) (number_in (denoted y.now.bones r)) }
    ensures field { (base : Entries) (x : Layer) (y : NumberTx) (r : Ref) (slot : ℕ) → Stands x y → Shows base y.first → IsSettledAt y.first r.object
        → HasVersionsAt y r.object
        → ReadsAs (read (map class_of y.first.bones.classes) base r slot x) (field_of y.now.bones slot r) }
{}
