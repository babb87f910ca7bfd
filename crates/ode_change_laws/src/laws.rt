//! Laws of the places of fields.
ghost use Rattle.std.specs.Prelude.{◌≡◌, ◌≤◌, ◌+◌, ℕ, [], List as Items, length, map};
ghost use Rattle.std.specs.List.{AllByRecursion, sum_by};
ghost use Rattle.ode_codec.specs.Standing.{HoldsWorld, StandsAs};
ghost use Rattle.ode_codec.specs.StoredRows.{Stored, rows};
ghost use Rattle.ode_value.specs.declared.change.Change.{Change};
ghost use Rattle.ode_value.specs.declared.event.EventExpr.{EventExpr};
ghost use Rattle.ode_value.specs.declared.event.Point.{Point};
ghost use Rattle.ode_value.specs.declared.value.Value.{Value};
ghost use Rattle.ode_value.specs.Changing.{added_by, changed_bones, changed_number, changed_world, point_with};
ghost use Rattle.ode_value.specs.GoodWorlds.{AreAdded, AreClasses, IsGood};
ghost use Rattle.ode_value.specs.Language.{Language, ListWorld};
ghost use Rattle.ode_value.specs.Lengths.{counters_length};
ghost use Rattle.ode_value.specs.Limits.{weight_limit};
ghost use Rattle.ode_value.specs.Marks.{Mark, spelled};
ghost use Rattle.ode_value.specs.Moving.{moved_event};
ghost use Rattle.ode_value.specs.Objects.{Histories, Starts, IsWithin, altered};
ghost use Rattle.ode_value.specs.Pasts.{StandsFor, Watch, lists, numbers};
ghost use Rattle.ode_value.specs.Points.{fires};
ghost use Rattle.ode_value.specs.Tables.{Table, Means};
ghost use Rattle.ode_value.specs.Weights.{added_weight, weight};
ghost use Rattle.ode_value.specs.Worlds.{Bones, Declared};
ghost use Rattle.ode_change_laws.specs.Moves.{AreBehind, AreWatched, HasValues, IsFound, moved_watch};
ghost use Rattle.ode_change_laws.specs.Rows.{bones_passed, rows_behind, rows_between, world_passed};

/// An event whose masks are moved fires as it did, on marks that are spelled as they were.
pub fn moved_events_fire()
    ensures { (at more : ℕ) (e : EventExpr) (m n : Items Mark) → map (spelled (moved_event at more e)) m ≡ map (spelled e) n
        → fires (moved_event at more e) m ≡ fires e n }
{}

/// A table that means an event means it with its masks moved.
pub fn tables_mean_moved_events()
    ensures { (at more : ℕ) (e : EventExpr) (t : Table) → Means t e → Means t (moved_event at more e) }
{}

/// A state number goes on standing for an activation's view, where each point of the object gets values at a place.
pub fn numbers_stand_for_altered_views()
    ensures { (tables : ℕ → ℕ → Table) (w : Watch) (new : Items Value) (at : ℕ) (h : Histories) (start : Starts) (state : ℕ)
        → StandsFor tables w h start state → StandsFor tables (moved_watch at (length new) w) (altered (point_with at new) h) start state }
{}

/// A start within its lists stays there where the points are changed.
pub fn starts_stay_within_altered()
    ensures { (change : Point → Point) (h : Histories) (start : Starts) → IsWithin start h → IsWithin start (altered change h) }
{}

/// The stored database stands for the world behind a change, with the same tables and state numbers.
pub fn changed_worlds_are_stood_for()
    ensures { (s : Stored) (w : ListWorld) (c : Change) (classes : Items Declared) → StandsAs s.tables s.world w → AreBehind w.bones c classes
        → AllByRecursion (IsFound w.bones c classes) w.bones.objects → AllByRecursion (AreWatched w.bones c classes) w.bones.objects
        → StandsAs s.tables (changed_world (numbers s.tables) classes c s.world) (changed_world lists classes c w) }
{}

/// All records stay but the counters, and those of the added fields come behind.
pub fn changed_worlds_keep_records()
    ensures { (s : Stored) (c : Change) (classes : Items Declared) → AreBehind s.world.bones c classes
        → AllByRecursion (HasValues s.world.bones c classes) s.world.bones.objects
        → rows (record { world = changed_world (numbers s.tables) classes c s.world; tables = s.tables })
        ≡ rows_behind (changed_bones s.world.bones c classes) (rows_between s) }
{}

/// The records behind a change and its transaction hold the world that it leaves, where that is good, with the same tables.
pub fn changed_worlds_are_held()
    ensures { (l : Language) (s : Stored) (w : ListWorld) (c : Change) (classes : Items Declared) → StandsAs s.tables s.world w → AreBehind w.bones c classes
        → AllByRecursion (IsFound w.bones c classes) w.bones.objects → AllByRecursion (AreWatched w.bones c classes) w.bones.objects
        → AllByRecursion (HasValues w.bones c classes) w.bones.objects → IsGood l (world_passed (changed_world lists classes c w))
        → (after : HoldsWorld l (rows_behind (bones_passed (changed_bones w.bones c classes)) (rows_between s)) (world_passed (changed_world lists classes c w))) × (after.stored.tables ≡ s.tables) }
{}

/// A good world in which a class gets fields is good again, where the classes behind it and the fields are, and it isn't too heavy.
pub fn changed_worlds_are_good()
    ensures { (l : Language) (w : ListWorld) (c : Change) (classes : Items Declared) → IsGood l w → AreBehind w.bones c classes
        → AreClasses l (changed_bones w.bones c classes).added [] classes → AreAdded classes 1 (changed_bones w.bones c classes).added
        → weight (changed_bones w.bones c classes) ≤ weight_limit → IsGood l (changed_world lists classes c w) }
{}

/// A world in which a class gets fields weighs what the records of the fields, and their number in the counters, take more.
pub fn changed_worlds_weigh_more()
    ensures { (b : Bones) (c : Change) (classes : Items Declared) → AreBehind b c classes → AllByRecursion (HasValues b c classes) b.objects
        → weight (changed_bones b c classes) + counters_length (length b.added)
        ≡ weight b + counters_length (length (changed_bones b c classes).added) + sum_by added_weight (added_by (changed_number b c) (length b.added) c) }
{}
