//! What is opened is one thing alone: a law of definitions, carried by the contract of a function that does nothing.
ghost use Rattle.std.specs.Prelude.{◌≡◌, Bool, Ok, false};
ghost use Rattle.ode_keep.specs.Entries.{Entries};
ghost use Rattle.ode_opening_records.specs.Reading.{AreOpened};
ghost use Rattle.ode_opening_records.specs.declared.base.Base.{Base};
ghost use Rattle.ode_passes.specs.Rules.{Ruled};
ghost use Rattle.ode_value.specs.Language.{Language};

use ode_opening_tables::tables_come_to_one_thing;

/// Records are opened to one thing alone.
pub fn records_are_opened_to_one_thing()
    ensures { (first : Bool) (l : Language) (entries : Entries) (opened other : Ruled Base) → AreOpened first l entries opened → AreOpened first l entries other → opened ≡ other }
{
    tables_come_to_one_thing();
}

/// Records that are opened as those of the first format are opened to the same as others.
pub fn records_of_the_first_format_are_opened_alike()
    ensures { (first : Bool) (l : Language) (entries : Entries) (base : Base) → AreOpened first l entries (Ok base) → AreOpened false l entries (Ok base) }
{}
