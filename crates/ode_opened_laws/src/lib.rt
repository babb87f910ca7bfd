//! Records that hold a world are opened to it: a law of definitions, carried by the contract of a function that does nothing.
#![tactic(auto)]

ghost use Rattle.std.specs.Prelude.{Bool, Ok};
ghost use Rattle.ode_heap_laws.specs.Few.{HoldsCounted};
ghost use Rattle.ode_keep.specs.Entries.{Entries};
ghost use Rattle.ode_language.specs.Languages.{ode};
ghost use Rattle.ode_opened_laws.specs.WorldBases.{FitsFirst, world_base};
ghost use Rattle.ode_opening_records.specs.Reading.{AreOpened};
ghost use Rattle.ode_sound_laws.specs.Typed.{AreFromOne};
ghost use Rattle.ode_value.specs.Language.{ListWorld};

use ode_codec::{one_spelling, stored_lengths_are_counts};
use ode_heap_laws::held_worlds_can_be_read;
use ode_opening_laws::{
    held_tables_are_there, held_worlds_hold_classes, held_worlds_open_to_their_classes,
};
use ode_value::lengths_are_counts;
use ode_walk::words_lead_to_reached_states;

/// Records that hold a world whose classes have no more fields and whose triggers no more parameters than a record counts, and whose
/// versions are numbered from 1 on, are opened to the world's classes with the stored tables, and to its weight; records of the first format
/// where that has a form for them.
pub fn held_worlds_are_opened()
    ensures { (first : Bool) (records : Entries) (w : ListWorld) (is : HoldsCounted ode records w) → AreFromOne w.bones → FitsFirst first w.bones
        → AreOpened first ode records (Ok (world_base is.world.stored.tables w.bones)) }
{
    one_spelling();
    lengths_are_counts();
    stored_lengths_are_counts();
    words_lead_to_reached_states();
    held_worlds_can_be_read();
    held_worlds_hold_classes();
    held_worlds_open_to_their_classes();
    held_tables_are_there();
}
