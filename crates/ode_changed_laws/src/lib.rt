//! What a change of a class finds in records that hold a world, and what its transaction leaves of them: laws of definitions, each carried by
//! the contract of a function that does nothing.
#![tactic(auto)]

ghost use Rattle.std.specs.Prelude.{◌≡◌, ◌≤◌, ◌+◌, Ok, List as Items, length, map};
ghost use Rattle.std.specs.List.{AllByRecursion};
ghost use Rattle.ode_change_laws.specs.Behind.{IsBehind};
ghost use Rattle.ode_change_laws.specs.Moves.{AreBehind};
ghost use Rattle.ode_changed_laws.specs.Changed.{ChangedOver};
ghost use Rattle.ode_changed_laws.specs.Known.{class_by_class};
ghost use Rattle.ode_changed_laws.specs.Records.{count_more, fields_put, new_in, with_counters};
ghost use Rattle.ode_codec.specs.Standing.{HoldsWorld};
ghost use Rattle.ode_evolve.specs.Evolving.{change_class};
ghost use Rattle.ode_heap.specs.Answering.{class_of, counters_of};
ghost use Rattle.ode_heap_laws.specs.Few.{HasFewParts, HoldsCounted};
ghost use Rattle.ode_keep.specs.Entries.{Entries, applied};
ghost use Rattle.ode_keep.specs.Growth.{put_bytes};
ghost use Rattle.ode_language.specs.Languages.{ode};
ghost use Rattle.ode_machine.specs.Refusals.{trees_in};
ghost use Rattle.ode_machine.specs.Works.{changes_class};
ghost use Rattle.ode_opening.specs.Trees as opening;
ghost use Rattle.ode_types.specs.Checked.{AreChecked};
ghost use Rattle.ode_types.specs.Limits.{field_limit};
ghost use Rattle.ode_value.specs.Changing.{changed_bones};
ghost use Rattle.ode_value.specs.GoodWorlds.{AreBones, IsGood};
ghost use Rattle.ode_value.specs.Language.{Language, ListWorld};
ghost use Rattle.ode_value.specs.Limits.{name_limit, weight_limit};
ghost use Rattle.ode_value.specs.Pasts.{lists};
ghost use Rattle.ode_value.specs.Settling.{transaction};
ghost use Rattle.ode_value.specs.Transactions.{Script};
ghost use Rattle.ode_value.specs.Weights.{weight};
ghost use Rattle.ode_value.specs.Worlds.{Bones, Declared};
ghost use Rattle.ode_value.specs.declared.change.Change.{Change};

use ode_codec::one_spelling;
pub use ode_declared_laws::changes_settle;
use ode_opening_laws::held_worlds_hold_classes;

/// From records that hold a world its classes are read as they were declared, and its added fields, class by class.
pub fn held_trees_are_read()
    ensures { (entries : Entries) (w : ListWorld) → HoldsWorld ode entries w
        → opening.trees_in ode (length w.bones.added) entries ≡ Ok (trees_in w.bones, class_by_class w.bones) }
{
    one_spelling();
    held_worlds_hold_classes();
}

/// A change is judged by the added fields class by class as by them in the order of their births.
pub fn changes_are_judged_class_by_class()
    ensures count { (l : Language) (b : Bones) → AreBones l b → length (class_by_class b) ≡ length b.added }
    ensures judged { (l : Language) (b : Bones) (c : Change) → AreBones l b → change_class (trees_in b) (class_by_class b) c ≡ change_class (trees_in b) b.added c }
{}

/// The classes behind a change, where all were checked, have parts that a record can count, where those before it have; and the change has no
/// more fields than a class may have.
pub fn changed_classes_have_few_parts()
    ensures parts { (b : Bones) (c : Change) (classes : Items Declared) → AreBehind b c classes → AreChecked (map class_of classes) → AllByRecursion HasFewParts b.classes
        → AllByRecursion HasFewParts classes }
    ensures fields { (l : Language) (b : Bones) (c : Change) (classes : Items Declared) → IsBehind l b c classes → AreChecked (map class_of b.classes) → AreChecked (map class_of classes)
        → length c.fields ≤ field_limit }
{}

/// With the fields of a change a good world weighs as many bytes more as their records, and their number in the counters, take.
pub fn changes_weigh_their_records()
    ensures { (l : Language) (w : ListWorld) (c : Change) (classes : Items Declared) → IsGood l w → IsBehind l w.bones c classes
        → let plain = map class_of classes in
        weight (changed_bones w.bones c classes)
        ≡ weight w.bones + put_bytes (fields_put plain (new_in plain (length w.bones.added) c)) + count_more (length w.bones.added) (length c.fields) }
{}

/// Over records that hold a world, the changes that put the records of a change's fields, and the counters behind its transaction, make
/// records that hold what the transaction leaves, where the world isn't too heavy with the fields.
pub fn known_changes_settle()
    ensures { (l : Language) (base : Entries) (w : ListWorld) (held : HoldsCounted l base w) (c : Change) (classes : Items Declared)
        → IsBehind l w.bones c classes → AllByRecursion HasFewParts classes → length c.class ≤ name_limit → weight (changed_bones w.bones c classes) ≤ weight_limit
        → let b = w.bones in let plain = map class_of classes in
        ChangedOver l held.world.stored.tables (applied (with_counters (counters_of b) (length b.added + length c.fields) (fields_put plain (new_in plain (length b.added) c))) base)
        w c classes (transaction lists Script (changes_class lists classes c) w) }
{}
