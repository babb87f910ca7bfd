//! What the declaration of a class leaves, over records that hold a world: laws of definitions, each carried by the contract of a function
//! that does nothing.
#![tactic(auto)]

ghost use Rattle.std.specs.Prelude.{◌≡◌, ◌<◌, ◌≤◌, ◌+◌, ◌^◌, ◌++◌, [], ◌∷◌, ℕ, List as Items, length, map};
ghost use Rattle.std.specs.List.{AllByRecursion};
ghost use Rattle.ode_class_laws.specs.Declaring.{bones_with, tables_with, world_with};
ghost use Rattle.ode_class_records.specs.ClassRows.{IsStoredBy, class_rows};
ghost use Rattle.ode_class_records.specs.Puts.{puts};
ghost use Rattle.ode_class_records.specs.Weighing.{spare_beside};
ghost use Rattle.ode_compile.specs.Compiling.{AreCompiled, tree_counts};
ghost use Rattle.ode_declared_laws.specs.Adding.{parts_with, tables_in};
ghost use Rattle.ode_schema.specs.Parts.{AreAligned, AreFit, Parts};
ghost use Rattle.ode_declared_laws.specs.Declared.{DeclaredOver, IsDeclared};
ghost use Rattle.ode_heap_laws.specs.Few.{HasFewParams, HasFewParts, HoldsCounted};
ghost use Rattle.ode_keep.specs.Entries.{Changes, Entries, HasRisingKeys, applied, value_under};
ghost use Rattle.ode_keep.specs.Growth.{put_bytes};
ghost use Rattle.ode_laws.specs.Alike.{AgreesOn};
ghost use Rattle.ode_machine.specs.Works.{changes_class, declares};
ghost use Rattle.ode_overlay.specs.After.{stands_after};
ghost use Rattle.ode_overlay.specs.declared.origin.Origin.TheVariants as from;
ghost use Rattle.ode_types.specs.Checked.{AreChecked, IsChecked};
ghost use Rattle.ode_value.specs.Acts.{with_line};
ghost use Rattle.ode_value.specs.Changing.{changed_bones, changed_world};
ghost use Rattle.ode_value.specs.GoodWorlds.{IsGood};
ghost use Rattle.ode_value.specs.Language.{Language, ListWorld};
ghost use Rattle.ode_value.specs.Limits.{name_limit, weight_limit};
ghost use Rattle.ode_value.specs.Pasts.{lists};
ghost use Rattle.ode_value.specs.PrintedClasses.{decl_text};
ghost use Rattle.ode_value.specs.Settling.{abort, commit, transaction};
ghost use Rattle.ode_value.specs.Symbols.{Alphabet};
ghost use Rattle.ode_value.specs.Tables.{Table};
ghost use Rattle.ode_value.specs.Texts.{changed_line, class_line, committed_line};
ghost use Rattle.ode_value.specs.Transactions.{Script, begun};
ghost use Rattle.ode_value.specs.Weights.{class_weight, weight};
ghost use Rattle.ode_value.specs.Worlds.{Declared};
ghost use Rattle.ode_value.specs.declared.change.Change.{Change};
ghost use Rattle.ode_value.specs.declared.class.Class.{Class};
ghost use Rattle.ode_value.specs.declared.key.Key.{Key};
ghost use Rattle.ode_value.specs.declared.reason.Reason.TheVariants.{Space};
ghost use Rattle.ode_view_laws.specs.Viewing.{began_over};

use ode_batch_laws::transactions_hold_worlds;
use ode_class_laws::{declared_classes_are_held, declared_classes_are_stored};
use ode_known_laws::transactions_begin_known;
use ode_laws::{acts_run_alike, good_worlds_are_numbered};
use ode_settled_laws::tables_may_differ;
use ode_view_laws::{overlays_have_views, transactions_begin_with_views};

/// The records of a class with its compiled tables are as many bytes as the class weighs, with what its tables count more.
pub fn classes_weigh_their_records()
    ensures { (by : ℕ → ℕ → Table) (c : Declared) (own : Items Table) (alphabets : Items Alphabet) → IsStoredBy by c c.class (decl_text c.tree) own → AreCompiled c.class.triggers own alphabets
        → put_bytes (puts (class_rows by c)) + spare_beside (tree_counts c.class.triggers) own ≡ class_weight c }
{}

/// A checked class has fields that a record can count; and so have its triggers parameters, where these are few.
pub fn checked_classes_have_few_parts()
    ensures { (known : Items Class) (c : Declared) → AreChecked known → IsChecked known c.class → AllByRecursion HasFewParams c.class.triggers → HasFewParts c }
{}

/// A program takes one more checked class, with its compiled tables behind the others.
pub fn programs_take_classes()
    ensures fit { (p : Parts) (c : Class) (own : Items Table) (alphabets : Items Alphabet) → AreFit p → AreAligned p → IsChecked p.classes c → AreCompiled c.triggers own alphabets
        → length p.tables + length own < 2 ^ 32 → AreFit (parts_with c own alphabets p) }
    ensures aligned { (p : Parts) (c : Class) (own : Items Table) (alphabets : Items Alphabet) → AreAligned p → AreCompiled c.triggers own alphabets → AreAligned (parts_with c own alphabets p) }
    ensures agrees { (p : Parts) (classes : Items Declared) (c : Declared) (own : Items Table) (alphabets : Items Alphabet) → p.classes ≡ map (λ (d : Declared). d.class) classes → AreChecked p.classes
        → AreFit p → AreAligned p → IsChecked p.classes c.class → AreCompiled c.class.triggers own alphabets
        → AllByRecursion (AgreesOn (tables_with c.class.number own (tables_in p)) (tables_in (parts_with c.class own alphabets p))) (classes ++ c ∷ []) }
{}

/// A declaration that isn't too heavy settles as a transaction that begins with the class and prints its line; one that is too heavy aborts
/// behind its line, as one that did nothing else.
pub fn declarations_settle()
    ensures light { (l : Language) (w : ListWorld) (c : Declared) → IsGood l w → length c.class.name ≤ name_limit → weight (bones_with c w.bones) ≤ weight_limit
        → transaction lists Script (declares c) w ≡ commit lists (with_line (class_line c.class.name) (begun Script (world_with c w))) }
    ensures heavy { (l : Language) (w : ListWorld) (c : Declared) → IsGood l w → length c.class.name ≤ name_limit → weight_limit < weight (bones_with c w.bones)
        → transaction lists Script (declares c) w ≡ abort lists Space (with_line (class_line c.class.name) (begun Script w)) }
{}

/// A change of a class settles so too: where its world isn't too heavy, as a transaction that begins with that world and prints its line,
/// which leaves as much weight where that world is good.
pub fn changes_settle()
    ensures light { (w : ListWorld) (c : Change) (classes : Items Declared) → length c.class ≤ name_limit → weight (changed_bones w.bones c classes) ≤ weight_limit
        → transaction lists Script (changes_class lists classes c) w ≡ commit lists (with_line (changed_line c.class) (begun Script (changed_world lists classes c w))) }
    ensures heavy { (w : ListWorld) (c : Change) (classes : Items Declared) → length c.class ≤ name_limit → weight_limit < weight (changed_bones w.bones c classes)
        → transaction lists Script (changes_class lists classes c) w ≡ abort lists Space (with_line (changed_line c.class) (begun Script w)) }
    ensures weighs { (l : Language) (v : ListWorld) → IsGood l v → (text : Items ℕ) → weight (commit lists (with_line text (begun Script v))).0.bones ≡ weight v.bones }
{}

/// A transaction that does nothing to a good world but print a text leaves all of it, and takes its number.
pub fn commits_of_nothing_keep_all()
    ensures { (l : Language) (v : ListWorld) → IsGood l v → (text : Items ℕ) → commit lists (with_line text (begun Script v))
        ≡ (record v { bones = record v.bones { transaction = v.bones.transaction + 1 } }, text ++ committed_line v.bones.transaction) }
{}

/// Over records that hold a world, changes that put a declared class's records, and then do what a transaction does that began with this
/// world and changed nothing, make records that hold what the declaration leaves: by any tables that are the stored ones for each trigger.
pub fn declared_classes_settle()
    ensures { (l : Language) (base : Entries) (w : ListWorld) (held : HoldsCounted l base w) (c : Declared) (own : Items Table) (alphabets : Items Alphabet) (rows rest all : Changes) (tables : ℕ → ℕ → Table)
        → HasRisingKeys base → IsDeclared l w c own alphabets → length c.class.name ≤ name_limit
        → ((by : ℕ → ℕ → Table) → IsStoredBy by c c.class (decl_text c.tree) own → rows ≡ puts (class_rows by c))
        → ((at : Entries) (q : Key) → value_under (applied rest at) q ≡ stands_after (began_over from.Script held.world.stored.world) at q)
        → ((at : Entries) (q : Key) → value_under (applied all at) q ≡ value_under (applied rest (applied rows at)) q)
        → AllByRecursion (AgreesOn (tables_with c.class.number own held.world.stored.tables) tables) (w.bones.classes ++ c ∷ [])
        → DeclaredOver l tables (applied all base) w c (transaction lists Script (declares c) w) }
{
    declared_classes_are_stored();
    declared_classes_are_held();
    transactions_begin_known();
    transactions_begin_with_views();
    overlays_have_views();
    good_worlds_are_numbered();
    acts_run_alike();
    transactions_hold_worlds();
    tables_may_differ();
}
