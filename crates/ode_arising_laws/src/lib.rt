//! Points of touched objects arise through an overlay as in the machine on its view, and the activations that it has go on. Laws of
//! definitions, each carried by the contract of a function that does nothing.
#![tactic(auto)]

ghost use Rattle.std.specs.Prelude.{◌≡◌, ℕ, List as Items, None, Some, Ok, map, true};
ghost use Rattle.std.specs.List.{AllByRecursion};
ghost use Rattle.ode_arising_laws.specs.Arising.{AllGo, IsGoing, firing_by, live_in};
ghost use Rattle.ode_interpreter.specs.Seen.{firing};
ghost use Rattle.ode_keep.specs.Entries.{Entries};
ghost use Rattle.ode_key_laws.specs.Keys.{HoldsKeys};
ghost use Rattle.ode_laws.specs.Alike.{NumberWorld};
ghost use Rattle.ode_laws.specs.Numbered.{AreNumbered};
ghost use Rattle.ode_object_laws.specs.Objects.{HaveTriggers, TakesTrigger};
ghost use Rattle.ode_objects.specs.declared.object.Object.{Object};
ghost use Rattle.ode_overlay.specs.Changing.{put_acts};
ghost use Rattle.ode_overlay.specs.Layers.{Layer, is_touched};
ghost use Rattle.ode_overlay.specs.Reading.{acts};
ghost use Rattle.ode_point_laws.specs.Points.{all_behind, all_fired, point_of, whole_behind, whole_fired};
ghost use Rattle.ode_schema.specs.Parts.{AreFit, Parts, table_by, trigger_of};
ghost use Rattle.ode_states.specs.Machine.{checked};
ghost use Rattle.ode_types.specs.Checked.{AreChecked};
ghost use Rattle.ode_types.specs.declared.running.Running.{Running};
ghost use Rattle.ode_value.specs.Acts.{Aborted, Done};
ghost use Rattle.ode_value.specs.Classes.{Trigger, initial_triggers, trigger_named};
ghost use Rattle.ode_value.specs.Firings.{Place, arises, both_lists, whole_list};
ghost use Rattle.ode_value.specs.Pasts.{numbers};
ghost use Rattle.ode_value.specs.Worlds.{Declared};
ghost use Rattle.ode_value.specs.declared.event.Kind.{Kind};
ghost use Rattle.ode_value.specs.declared.reason.Reason.TheVariants.{NoObject};
ghost use Rattle.ode_value.specs.declared.value.Value.{Value};
ghost use Rattle.ode_view_laws.specs.Showing.{IsViewed};
ghost use Rattle.ode_view_laws.specs.Viewing.{Beside, running, world_now};

/// Where the activations that an overlay has of a touched object, each of which goes on by its trigger's table, are put back gone on by a
/// point, the view is what the machine leaves where the point arises, with the same firings in the same order [`both`]; so it is in the list
/// of all points [`whole`]. Where the overlay hasn't the object, neither has its view [`none`].
pub fn points_show()
    ensures both { (classes : Items Declared) (first : NumberWorld) (beside : Beside) (x : Layer) → IsViewed first x → HoldsKeys first x
        → AreNumbered (world_now first.bones.classes first x).bones
        → (p : Parts) → AreChecked p.classes → checked classes ≡ p.classes → (base : Entries) (id : ℕ) (kind : Kind) (args : Items Value) (o : Object) (there : Items Running)
        → is_touched id x ≡ true → live_in id x ≡ Some o → acts p.classes base id p.maps x ≡ Ok there → AllByRecursion (IsGoing p o.class) there
        → (left : Layer) → put_acts p.classes base id (all_behind p.tables p.alphabets classes (point_of id o kind args) there) x ≡ Ok (tt, left)
        → arises (numbers (table_by p.tables p.maps)) (both_lists (numbers (table_by p.tables p.maps))) id kind args (running classes first x beside)
        ≡ Done (map (firing (trigger_of p.classes)) (map (firing_by id) (all_fired p.tables p.alphabets classes (point_of id o kind args) there))) (running classes first left beside) }
    ensures whole { (classes : Items Declared) (first : NumberWorld) (beside : Beside) (x : Layer) → IsViewed first x → HoldsKeys first x
        → AreNumbered (world_now first.bones.classes first x).bones
        → (p : Parts) → AreChecked p.classes → checked classes ≡ p.classes → (base : Entries) (id : ℕ) (kind : Kind) (args : Items Value) (o : Object) (there : Items Running)
        → is_touched id x ≡ true → live_in id x ≡ Some o → acts p.classes base id p.maps x ≡ Ok there → AllByRecursion (IsGoing p o.class) there
        → (left : Layer) → put_acts p.classes base id (whole_behind p.tables p.alphabets classes (point_of id o kind args) there) x ≡ Ok (tt, left)
        → arises (numbers (table_by p.tables p.maps)) (whole_list (numbers (table_by p.tables p.maps))) id kind args (running classes first x beside)
        ≡ Done (map (firing (trigger_of p.classes)) (map (firing_by id) (whole_fired p.tables p.alphabets classes (point_of id o kind args) there))) (running classes first left beside) }
    ensures none { (classes : Items Declared) (first : NumberWorld) (beside : Beside) (x : Layer) → IsViewed first x → HoldsKeys first x
        → (p : Parts) (place : Place (Unit {0}) ℕ) (id : ℕ) (kind : Kind) (args : Items Value) → is_touched id x ≡ true → live_in id x ≡ None
        → arises (numbers (table_by p.tables p.maps)) place id kind args (running classes first x beside) ≡ Aborted (NoObject 0) (running classes first x beside) }
{}

/// Where the class of each object has the triggers of its activations, those that the overlay has of an object that is there are given by a
/// program of the first world's classes whose tables fit, and each goes on by its trigger's table.
pub fn activations_go_on()
    ensures { (first : NumberWorld) (x : Layer) → IsViewed first x → HaveTriggers first.bones.classes (world_now first.bones.classes first x).bones
        → (p : Parts) → AreFit p → AreChecked p.classes → checked first.bones.classes ≡ p.classes
        → (base : Entries) (id : ℕ) (o : Object) → live_in id x ≡ Some o → AllGo p o.class (acts p.classes base id p.maps x) }
{}

/// The trigger that a class has under a name [`named`] and those that its new objects begin with [`initial`] are triggers that it has, by
/// other texts of the same classes too.
pub fn triggers_are_taken()
    ensures named { (classes others : Items Declared) → checked classes ≡ checked others → (number : ℕ) (name : Items ℕ) (t : Trigger) → trigger_named classes number name ≡ Some t
        → TakesTrigger others number t.class t.place }
    ensures initial { (classes others : Items Declared) → checked classes ≡ checked others → (number : ℕ)
        → AllByRecursion (λ (t : Trigger). TakesTrigger others number t.class t.place) (initial_triggers classes number) }
{}
