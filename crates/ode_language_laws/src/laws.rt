//! Laws of the language of scripts.
ghost use Rattle.std.specs.Prelude.{◌≡◌, ◌<◌, ◌^◌, FitsSigned, ℕ, ℤ, List as Items, Ok, Some, length};
ghost use Rattle.std.specs.Int.{w64};
ghost use Rattle.std.specs.List.{All, AllByRecursion};
ghost use Rattle.ode_value.specs.declared.change.Change.{Change};
ghost use Rattle.ode_value.specs.declared.statement.Statement.TheVariants.{Simple};
ghost use Rattle.ode_value.specs.declared.statement.Stmt.{Stmt};
ghost use Rattle.ode_value.specs.GoodWorlds.{IsGood, IsPosition};
ghost use Rattle.ode_value.specs.Language.{ListWorld};
ghost use Rattle.ode_value.specs.References.{IsRef};
ghost use Rattle.ode_value.specs.Worlds.{Declared, Position, empty_world};
ghost use Rattle.ode_timer.specs.Dates.{instant_of};
ghost use Rattle.ode_timer.specs.Due.{AllRecur, HasPlaces, due};
ghost use Rattle.ode_machine.specs.Refusals.{changed_in};
ghost use Rattle.ode_machine.specs.TimeRows.{time_rows};
ghost use Rattle.ode_machine.specs.Runs.{trace, worlds};
ghost use Rattle.ode_types.specs.Literals.{literals};
ghost use Rattle.ode_accepted_laws.specs.Languages.{HasSoundRules};
ghost use Rattle.ode_change_laws.specs.Behind.{IsBehind};
ghost use Rattle.ode_good_laws.specs.Changed.{HasSoundChanges};
ghost use Rattle.ode_good_laws.specs.Well.{IsWell};
ghost use Rattle.ode_good_runs.specs.Reading.{ReadsWell};
ghost use Rattle.ode_language.specs.Languages.{ode, statement_of};
ghost use Rattle.ode_sound_laws.specs.Typed.{AreFromOne};

/// The language of scripts has sound rules.
pub fn language_has_sound_rules()
    ensures { HasSoundRules ode }
{}

/// The literals of a statement that is read are references, and the second of an instant has 64 bits.
pub fn what_is_read_is_in_range()
    ensures literals { (piece : Items ℕ) (s : Stmt) → statement_of piece ≡ Ok (Simple s) → AllByRecursion IsRef (literals s) }
    ensures instants { (text : Items ℕ) (t : ℤ) → instant_of text ≡ Some t → FitsSigned w64 t }
{}

/// In a good world each kind of event that comes again does so after at least a second, a position has a place for each kind of an object,
/// and fewer events are due up to any instant than a number of 128 bits counts.
pub fn clock_events_are_in_range()
    ensures recur { (w : ListWorld) → IsGood ode w → AllRecur (time_rows w.bones) }
    ensures places { (w : ListWorld) → IsGood ode w → All HasPlaces (time_rows w.bones) }
    ensures counts { (w : ListWorld) → IsGood ode w → (old : Position) → IsPosition old → (t : ℤ) → FitsSigned w64 t → length (due (time_rows w.bones) old t) < 2 ^ 128 }
{}

/// The language of scripts reads well: the literals of what is read are references, a class that is read is read again from its printed
/// text, and instants have 64 bits.
pub fn language_reads_well()
    ensures { ReadsWell ode }
{}

/// A change of a class that was read, and is accepted over a well world, leaves a well world where that isn't too heavy.
pub fn language_has_sound_changes()
    ensures { HasSoundChanges ode }
{}

/// Behind such a change the classes are good ones, each as it was but for the new fields where it gets them, its bodies and the places in
/// its masks; all added fields are good; and each activation watches for what it did.
pub fn changes_are_behind()
    ensures { (piece : Items ℕ) (c : Change) → ode.change_of piece ≡ Some (Ok c) → (w : ListWorld) → IsWell ode w → (classes : Items Declared) → changed_in ode w.bones c ≡ Ok classes
        → IsBehind ode w.bones c classes }
{}

/// A run of any script from a fresh database, or from a good world whose versions' numbers begin at 1, has good worlds alone, of sound
/// classes.
pub fn runs_of_the_language_stay_good()
    ensures fresh { (script : Items ℕ) → AllByRecursion (IsWell ode) (worlds (trace ode empty_world script)) }
    ensures good { (w : ListWorld) → IsGood ode w → AreFromOne w.bones → (script : Items ℕ) → AllByRecursion (IsWell ode) (worlds (trace ode w script)) }
{}
