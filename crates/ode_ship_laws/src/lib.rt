//! What a primary keeps of its transactions is what its standbys ask of shipped frames: laws of definitions, each carried by the contract of
//! a function that does nothing.
#![tactic(auto)]

ghost use Rattle.std.specs.Prelude.{◌≡◌, ◌≤◌, ℕ, List as Items, IsTrue, Some, length, map, take};
ghost use Rattle.std.specs.List.{AllByRecursion};
ghost use Rattle.std.specs.Option.{is_some};
ghost use Rattle.ode_codec.specs.Reading.{record_under};
ghost use Rattle.ode_codec.specs.Standing.{HoldsWorld};
ghost use Rattle.ode_keep.specs.Entries.{Entries, value_under};
ghost use Rattle.ode_keep.specs.Snapshots.{FitsKey};
ghost use Rattle.ode_keep.specs.declared.limits.TheConstants.{MAX_PAGED_BYTES};
ghost use Rattle.ode_language.specs.Languages.{ode};
ghost use Rattle.ode_number_laws.specs.Counting.{CountUp};
ghost use Rattle.ode_ship.specs.Frames.{FitsFrame};
ghost use Rattle.ode_ship_laws.specs.Worlds.{world_of};
ghost use Rattle.ode_standby.specs.Courses.{next_of};
ghost use Rattle.ode_standby.specs.Primary.{ShippedFrom, after_first};
ghost use Rattle.ode_transact.specs.Logging.{AreKept, AreOf, Kept, behind};
ghost use Rattle.ode_value.specs.Draining.{world_after};
ghost use Rattle.ode_value.specs.Language.{ListWorld, Settlings};
ghost use Rattle.ode_value.specs.declared.key.Key.{Key};

use ode_heap_laws::heaps_show_held_worlds;
use ode_resting_laws::{held_worlds_are_opened, read_classes_have_few_parts};

/// Records that hold a world tell the number of its next transaction.
pub fn held_worlds_tell_their_next_number()
    ensures { (entries : Entries) (w : ListWorld) → HoldsWorld ode entries w → next_of entries ≡ Some w.bones.transaction }
{
    read_classes_have_few_parts();
    heaps_show_held_worlds();
}

/// Each record of a world, whose versions are numbered from 1 on, decodes.
pub fn held_records_decode()
    ensures { (entries : Entries) (w : ListWorld) (k : Key) (v : Items ℕ) → AreOf ode entries w → FitsKey k → value_under entries k ≡ Some v
        → IsTrue (is_some (record_under k v)) }
{
    read_classes_have_few_parts();
    held_worlds_are_opened();
}

/// What was kept of transactions that settled one after the other, with consecutive numbers, is what a primary ships: frames of the form,
/// each of the next transaction, whose records a keeper of pages takes.
pub fn kept_transactions_are_shipped()
    ensures { (w : ListWorld) (entries : Entries) (settled : Settlings) (kept : Items Kept) → AreOf ode entries w → AreKept ode w entries settled kept
        → CountUp w.bones.transaction (map world_of settled) → AllByRecursion FitsFrame kept → ShippedFrom MAX_PAGED_BYTES entries kept }
{
    held_worlds_tell_their_next_number();
    held_records_decode();
}

/// The records behind the first of them hold the world behind as many transactions, and those behind all are the last ones.
pub fn shipped_records_hold_their_worlds()
    ensures holds { (w : ListWorld) (entries : Entries) (settled : Settlings) (kept : Items Kept) (k : ℕ) → AreOf ode entries w → AreKept ode w entries settled kept
        → k ≤ length kept → AreOf ode (after_first k entries kept) (world_after w (take k settled)) }
    ensures last { (entries : Entries) (kept : Items Kept) → after_first (length kept) entries kept ≡ behind entries kept }
{}
