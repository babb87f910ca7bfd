//! What an opening reads of records is what they hold: laws of definitions, each carried by the contract of a function that does nothing.
#![tactic(auto)]

ghost use Rattle.std.specs.Prelude.{◌≡◌, ℕ, List as Items, Ok, length, map};
ghost use Rattle.ode_codec.specs.Standing.{HoldsWorld};
ghost use Rattle.ode_keep.specs.Entries.{Entries};
ghost use Rattle.ode_language.specs.Languages.{ode};
ghost use Rattle.ode_opening.specs.Classes.{classes_in};
ghost use Rattle.ode_opening_laws.specs.Holding.{HoldClasses, class_of, stored_tables};
ghost use Rattle.ode_opening_tables.specs.Tables.{TablesIn, all_triggers};
ghost use Rattle.ode_value.specs.Language.{ListWorld};
ghost use Rattle.ode_value.specs.declared.change.Added.{Added};
ghost use Rattle.ode_value.specs.Tables.{Table};
ghost use Rattle.ode_value.specs.Worlds.{Declared};

use ode_codec::one_spelling;

/// Records that hold classes are read as these classes.
pub fn held_classes_are_read()
    ensures { (entries : Entries) (tables : ℕ → ℕ → Table) (added : Items Added) (ds : Items Declared) → HoldClasses entries tables added ds
        → classes_in ode (length added) entries ≡ Ok (map class_of ds) }
{
    one_spelling();
}

/// Each trigger of these classes has the table that is held with it.
pub fn held_tables_are_there()
    ensures { (entries : Entries) (tables : ℕ → ℕ → Table) (added : Items Added) (ds : Items Declared) → HoldClasses entries tables added ds
        → TablesIn entries (all_triggers (map class_of ds)) (Ok (stored_tables tables ds)) }
{}

/// Records that hold a world hold its classes with the tables that are stored.
pub fn held_worlds_hold_classes()
    ensures { (records : Entries) (w : ListWorld) (is : HoldsWorld ode records w) → HoldClasses records is.stored.tables w.bones.added w.bones.classes }
{}

/// So they are read as the world's classes.
pub fn held_worlds_open_to_their_classes()
    ensures { (records : Entries) (w : ListWorld) → HoldsWorld ode records w → classes_in ode (length w.bones.added) records ≡ Ok (map class_of w.bones.classes) }
{
    held_worlds_hold_classes();
    held_classes_are_read();
}
