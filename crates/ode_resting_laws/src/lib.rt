//! What is opened of records is what they hold, so that a run may begin on it: laws of definitions, each carried by the contract of a
//! function that does nothing.
#![tactic(auto)]

ghost use Rattle.std.specs.Prelude.{[], Bool, List as Items, Ok};
ghost use Rattle.std.specs.List.{AllByRecursion};
ghost use Rattle.ode_codec.specs.Standing.{HoldsWorld};
ghost use Rattle.ode_heap_laws.specs.Few.{HasFewParts};
ghost use Rattle.ode_keep.specs.Entries.{Entries};
ghost use Rattle.ode_language.specs.Languages.{ode};
ghost use Rattle.ode_opening_records.specs.Reading.{AreOpened};
ghost use Rattle.ode_opening_records.specs.declared.base.Base.{Base};
ghost use Rattle.ode_sound_laws.specs.Typed.{AreFromOne};
ghost use Rattle.ode_value.specs.GoodWorlds.{AreClasses};
ghost use Rattle.ode_value.specs.Language.{ListWorld};
ghost use Rattle.ode_value.specs.Worlds.{Declared};
ghost use Rattle.ode_value.specs.declared.change.Added.{Added};
ghost use Rattle.ode_resting_laws.specs.Showing.{IsShown};

use ode_again_laws::parameters_of_classes_are_few;
pub use ode_opened_laws::held_worlds_are_opened;
use ode_opening_records::{
    records_are_opened_to_one_thing, records_of_the_first_format_are_opened_alike,
};
use ode_settled_laws::tables_may_differ;

/// Classes that are read and accepted one behind the other have parts that a record can count: their fields, and their triggers' parameters.
pub fn read_classes_have_few_parts()
    ensures { (added : Items Added) (ds : Items Declared) → AreClasses ode added [] ds → AllByRecursion HasFewParts ds }
{
    parameters_of_classes_are_few();
}

/// What records that hold a world, whose versions are numbered from 1 on, are opened to is this world's.
pub fn opened_records_show_their_world()
    ensures { (first : Bool) (records : Entries) (w : ListWorld) (opened : Base) → HoldsWorld ode records w → AreFromOne w.bones
        → AreOpened first ode records (Ok opened) → IsShown records w opened }
{
    read_classes_have_few_parts();
    held_worlds_are_opened();
    records_of_the_first_format_are_opened_alike();
    records_are_opened_to_one_thing();
    tables_may_differ();
}
