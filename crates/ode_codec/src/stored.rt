//! A database as it is stored, and what stands for a world over lists of points: laws of the definitions, each carried by the
//! contract of a function that does nothing.
ghost use Rattle.std.specs.Prelude.{◌≡◌, [], ◌∷◌, ℕ, List as Items};
ghost use Rattle.ode_value.specs.Lengths.{activation_length, entry_length};
ghost use Rattle.ode_value.specs.Objects.{Activation};
ghost use Rattle.ode_value.specs.GoodWorlds.{IsGood};
ghost use Rattle.ode_value.specs.Language.{Language, ListWorld};
ghost use Rattle.ode_value.specs.Records.{Row, row_weight};
ghost use Rattle.ode_value.specs.Tables.{Table};
ghost use Rattle.ode_value.specs.Worlds.{Entry, empty_bones, empty_world};
ghost use Rattle.ode_codec.specs.Standing.{HoldsWorld};
ghost use Rattle.ode_codec.specs.StoredRows.{activation_row, counters_row, entry_row, rows};

use ode_value::lengths_are_counts;

/// A fresh database is stored as its counters alone.
pub fn fresh_databases_are_counters()
    ensures { (tables : ℕ → ℕ → Table) → rows (record { world = empty_world; tables = tables }) ≡ counters_row empty_bones ∷ [] }
{}

/// Records hold good worlds alone.
pub fn held_worlds_are_good()
    ensures { (l : Language) (records : Items Row) (w : ListWorld) → HoldsWorld l records w → IsGood l w }
{}

/// The lengths of activations and entries that are counted are those of their bytes.
pub fn stored_lengths_are_counts()
    ensures activation { (id state : ℕ) (a : Activation) → row_weight (activation_row id state a) ≡ activation_length a.args }
    ensures entry { (number : ℕ) (e : Entry) → row_weight (entry_row (number, e)) ≡ entry_length e.args }
{
    lengths_are_counts();
}
