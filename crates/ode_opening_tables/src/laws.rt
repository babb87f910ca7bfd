//! A trigger has one table alone, so the rule on tables comes to one thing: laws of definitions, each carried by the contract of a function
//! that does nothing.
ghost use Rattle.std.specs.Prelude.{◌≡◌, ℕ, List};
ghost use Rattle.ode_keep.specs.Entries.{Entries};
ghost use Rattle.ode_opening_tables.specs.Tables.{IsStored, TablesIn};
ghost use Rattle.ode_passes.specs.Rules.{Ruled};
ghost use Rattle.ode_table.specs.Whole.{IsWhole};
ghost use Rattle.ode_value.specs.Classes.{Trigger};
ghost use Rattle.ode_value.specs.Tables.{Table};

/// Records store one table alone under a class and a place whose parts fit each other.
pub fn one_table_is_stored()
    ensures { (entries : Entries) (class place : ℕ) (t u : Table) → IsStored entries class place t → IsWhole t → IsStored entries class place u → IsWhole u → t ≡ u }
{}

/// What the rule on tables comes to is one thing.
pub fn tables_come_to_one_thing()
    ensures { (entries : Entries) (triggers : List Trigger) (found other : Ruled (List Table)) → TablesIn entries triggers found → TablesIn entries triggers other → found ≡ other }
{
    one_table_is_stored();
}
