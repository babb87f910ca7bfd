//! Points arise in the overlay as in the machine: a law of definitions, carried by the contract of a function that does nothing.
#![tactic(auto)]

ghost use Rattle.std.specs.Prelude.{◌≡◌, ℕ, List as Items, true, Some, Ok};
ghost use Rattle.ode_point_laws.specs.Points.{Arises, HoldsActivations, all_behind, all_fired, point_of, whole_behind, whole_fired};
ghost use Rattle.ode_keep.specs.Entries.{Entries};
ghost use Rattle.ode_laws.specs.Alike.{NumberTx};
ghost use Rattle.ode_objects.specs.declared.tracked.Tracked.{Tracked};
ghost use Rattle.ode_overlay.specs.Changing.{put_acts};
ghost use Rattle.ode_overlay.specs.Layers.{Layer, tracked_at};
ghost use Rattle.ode_overlay.specs.Reading.{acts};
ghost use Rattle.ode_overlay_laws.specs.Standing.{Stands, object_as};
ghost use Rattle.ode_states.specs.Machine.{AreOf};
ghost use Rattle.ode_types.specs.declared.running.Running.{Running};
ghost use Rattle.ode_value.specs.Firings.{arises, both_lists, whole_list};
ghost use Rattle.ode_value.specs.Pasts.{numbers};
ghost use Rattle.ode_value.specs.Symbols.{Alphabet};
ghost use Rattle.ode_value.specs.Tables.{Table as States};
ghost use Rattle.ode_value.specs.declared.class.Class.{Class};
ghost use Rattle.ode_value.specs.declared.event.Kind.{Kind};
ghost use Rattle.ode_value.specs.declared.value.Value.{Value};

/// The activations that an overlay has of a live object, gone on by a point and put back, are what the machine leaves where the point
/// arises, with the same firings in the same order. Their keys are held; their places have their triggers' tables and alphabets. At an
/// abort those that see whole histories go on alone, and alone they fire.
pub fn points_follow()
    ensures both { (by : ℕ → ℕ → States) (tables : Items States) (alphabets : Items Alphabet) (maps : Items ℕ) (classes : Items Class) (base : Entries) (kind : Kind) (args : Items Value)
        (x : Layer) (y : NumberTx) (id : ℕ) (t : Tracked) (running : Items Running) → Stands x y → tracked_at id x ≡ Some t → t.current.live ≡ true → HoldsActivations id t.current x
        → acts classes base id maps x ≡ Ok running → AreOf by tables alphabets y.now.bones.classes (object_as id t.current) running
        → Arises y (all_fired tables alphabets y.now.bones.classes (point_of id t.current kind args) running)
        (put_acts classes base id (all_behind tables alphabets y.now.bones.classes (point_of id t.current kind args) running) x)
        (arises (numbers by) (both_lists (numbers by)) id kind args y) }
    ensures whole { (by : ℕ → ℕ → States) (tables : Items States) (alphabets : Items Alphabet) (maps : Items ℕ) (classes : Items Class) (base : Entries) (kind : Kind) (args : Items Value)
        (x : Layer) (y : NumberTx) (id : ℕ) (t : Tracked) (running : Items Running) → Stands x y → tracked_at id x ≡ Some t → t.current.live ≡ true → HoldsActivations id t.current x
        → acts classes base id maps x ≡ Ok running → AreOf by tables alphabets y.now.bones.classes (object_as id t.current) running
        → Arises y (whole_fired tables alphabets y.now.bones.classes (point_of id t.current kind args) running)
        (put_acts classes base id (whole_behind tables alphabets y.now.bones.classes (point_of id t.current kind args) running) x)
        (arises (numbers by) (whole_list (numbers by)) id kind args y) }
{}
