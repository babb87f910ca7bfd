//! The changes that store a declared class leave the world with that class behind the others: laws of definitions, each carried by the
//! contract of a function that does nothing.
#![tactic(auto)]

ghost use Rattle.std.specs.Prelude.{◌≡◌, ◌≤◌, List as Items, length};
ghost use Rattle.std.specs.List.{AllByRecursion};
ghost use Rattle.ode_value.specs.GoodWorlds.{AreAdded, IsClass};
ghost use Rattle.ode_value.specs.Language.{Language, ListWorld};
ghost use Rattle.ode_value.specs.Limits.{weight_limit};
ghost use Rattle.ode_value.specs.PrintedClasses.{decl_text};
ghost use Rattle.ode_value.specs.Records.{Row};
ghost use Rattle.ode_value.specs.Symbols.{Alphabet};
ghost use Rattle.ode_value.specs.Tables.{Table};
ghost use Rattle.ode_value.specs.Weights.{weight};
ghost use Rattle.ode_value.specs.Worlds.{Declared};
ghost use Rattle.ode_codec.specs.Standing.{HoldsWorld};
ghost use Rattle.ode_codec.specs.StoredRows.{Stored, rows};
ghost use Rattle.ode_compile.specs.Compiling.{AreCompiled};
ghost use Rattle.ode_keep.specs.Entries.{applied};
ghost use Rattle.ode_class_records.specs.ClassRows.{IsSized, IsStoredBy, class_rows};
ghost use Rattle.ode_class_records.specs.Puts.{puts};
ghost use Rattle.ode_class_laws.specs.Declaring.{AreBefore, AreOf, bones_with, stored_with, tables_with, world_with};

/// The changes that put the rows of a class with a number above all others make the rows of a stored database whose objects are of its
/// classes, as the fields that were added are, those of the same database with the class behind the others, and with its tables.
pub fn declared_classes_are_stored()
    ensures own { (s : Stored) (c : Declared) (own : Items Table) → length own ≡ length c.class.triggers
        → IsStoredBy (stored_with c own s).tables c c.class (decl_text c.tree) own }
    ensures rows { (s : Stored) (c : Declared) (own : Items Table) → length own ≡ length c.class.triggers → AllByRecursion IsSized own
        → AreBefore c.class.number s.world.bones.classes → AreOf s.world.bones.classes s.world.bones.objects → AreAdded s.world.bones.classes 1 s.world.bones.added
        → applied (puts (class_rows (stored_with c own s).tables c)) (rows s) ≡ rows (stored_with c own s) }
{}

/// Over records that hold a world, the changes that put the rows of an accepted class with its compiled tables make records that hold the
/// world with the class behind the others, where that isn't too heavy: what is stored is the database of before with the class and its tables.
pub fn declared_classes_are_held()
    ensures { (l : Language) (records : Items Row) (w : ListWorld) (held : HoldsWorld l records w) (c : Declared) (own : Items Table) (alphabets : Items Alphabet)
        → IsClass l w.bones.added w.bones.classes c → AreCompiled c.class.triggers own alphabets → weight (bones_with c w.bones) ≤ weight_limit
        → (after : HoldsWorld l (applied (puts (class_rows (stored_with c own held.stored).tables c)) records) (world_with c w)) × (after.stored ≡ stored_with c own held.stored) }
{}
