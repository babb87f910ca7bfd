//! Classes that are checked anew.
ghost use Rattle.std.specs.Prelude.{◌≡◌, ◌≤◌, ℕ, Bool, List as Items, Ok, length};
ghost use Rattle.std.specs.List.{AllByRecursion};
ghost use Rattle.std.specs.Option.{IsSome};
ghost use Rattle.ode_value.specs.declared.change.Added.{Added};
ghost use Rattle.ode_value.specs.declared.change.Change.{Change};
ghost use Rattle.ode_value.specs.declared.class.Class.{Class};
ghost use Rattle.ode_value.specs.declared.class.Field.{Field};
ghost use Rattle.ode_value.specs.declared.member.TriggerDecl.{TriggerDecl};
ghost use Rattle.ode_value.specs.declared.statement.ClassDecl.{ClassDecl};
ghost use Rattle.ode_value.specs.GoodWorlds.{IsObject};
ghost use Rattle.ode_value.specs.Moving.{moved_event};
ghost use Rattle.ode_value.specs.Worlds.{Bones, Declared};
ghost use Rattle.ode_types.specs.Checked.{AreChecked};
ghost use Rattle.ode_types.specs.Families.{class_named};
ghost use Rattle.ode_types.specs.Static.{check_grown};
ghost use Rattle.ode_sound_laws.specs.Sound.{checked_classes};
ghost use Rattle.ode_change_laws.specs.Moves.{AreBehind, AreWatched};
ghost use Rattle.ode_anew_laws.specs.Anew.{AreAnew, IsCheckedAnew, Way};

/// A class that is checked twice, the second time behind classes that are anew, comes out anew with its triggers, where it gets the new
/// fields by itself or by its parent.
pub fn classes_come_out_anew()
    ensures { (at : ℕ) (new : Items Field) (test : ℕ → Bool) (known others : Items Class) → AreChecked known → AreChecked others → AreAnew at new test known others
        → (d : ClassDecl) (own then : Items Added) (c e : Class) → Way at new test own then c → check_grown known own d ≡ Ok c → check_grown others then d ≡ Ok e
        → IsCheckedAnew at new test c e }
{}

/// The masks of a class name its own fields alone: with more fields at a place behind these they stay as they are.
pub fn masks_name_own_fields()
    ensures { (at more : ℕ) (known : Items Class) (added : Items Added) (d : ClassDecl) (c : Class) → check_grown known added d ≡ Ok c → length c.fields ≤ at
        → AllByRecursion (λ (t : TriggerDecl). moved_event at more t.event ≡ t.event) c.triggers }
{}

/// Each activation of an object watches behind a change for what it did, with the places in its masks moved where the object gets the
/// fields.
pub fn activations_are_watched()
    ensures { (b : Bones) (c : Change) (classes : Items Declared) → AreChecked (checked_classes b.classes) → IsSome (class_named (checked_classes b.classes) c.class)
        → AreBehind b c classes → AllByRecursion (IsObject b) b.objects → AllByRecursion (AreWatched b c classes) b.objects }
{}
