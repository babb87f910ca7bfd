//! What a file is opened to that holds a world: a law of definitions, carried by the contract of a function that does nothing.
#![tactic(auto)]

ghost use Rattle.std.specs.Prelude.{ℕ, List as Items, Err, Ok};
ghost use Rattle.ode_keeper.specs.Files.{FileMeans};
ghost use Rattle.ode_codec.specs.Standing.{HoldsWorld};
ghost use Rattle.ode_keep.specs.Entries.{Entries};
ghost use Rattle.ode_language.specs.Languages.{ode};
ghost use Rattle.ode_open.specs.Opening.{IsOpenedTo};
ghost use Rattle.ode_open.specs.declared.error.OpenError.{OpenError};
ghost use Rattle.ode_resting_laws.specs.Showing.{world_base};
ghost use Rattle.ode_sound_laws.specs.Typed.{AreFromOne};
ghost use Rattle.ode_file_laws.specs.Fitting.{FitsFile};
ghost use Rattle.ode_value.specs.Language.{ListWorld};

use ode_opening_records::records_are_opened_to_one_thing;
use ode_resting_laws::{held_worlds_are_opened, read_classes_have_few_parts};

/// A file whose records hold a world with versions from 1 on, which has a form in the file's format, is opened to the world's classes, the
/// tables of their triggers and its weight, so it breaks no rule.
pub fn files_of_worlds_are_opened()
    ensures opened { (image : Items ℕ) (entries : Entries) (w : ListWorld) → FileMeans image entries → (is : HoldsWorld ode entries w) → AreFromOne w.bones → FitsFile image w.bones
        → IsOpenedTo image (Ok (world_base is.stored.tables w.bones)) }
    ensures unbroken { (image : Items ℕ) (entries : Entries) (w : ListWorld) → FileMeans image entries → HoldsWorld ode entries w → AreFromOne w.bones → FitsFile image w.bones
        → (error : OpenError) → IsOpenedTo image (Err error) → ⊥ }
{
    read_classes_have_few_parts();
    held_worlds_are_opened();
    records_are_opened_to_one_thing();
}
