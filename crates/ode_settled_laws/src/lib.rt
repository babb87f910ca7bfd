//! What a transaction of an overlay settles, over records that hold a world: laws of definitions, each carried by the contract of a function
//! that does nothing.
#![tactic(auto)]

ghost use Rattle.std.specs.Prelude.{◌≡◌, ◌∷◌, ℕ, List as Items, map};
ghost use Rattle.std.specs.List.{AllByRecursion};
ghost use Rattle.ode_batch_laws.specs.Formed.{IsFormed};
ghost use Rattle.ode_heap.specs.Answering.{class_of};
ghost use Rattle.ode_heap_laws.specs.Few.{HoldsCounted};
ghost use Rattle.ode_keep.specs.Entries.{Changes, Entries, HasRisingKeys, applied, value_under};
ghost use Rattle.ode_laws.specs.Alike.{AgreesOn, NumberWorld, RunsAs};
ghost use Rattle.ode_overlay.specs.After.{stands_after};
ghost use Rattle.ode_overlay.specs.Layers.{Layer};
ghost use Rattle.ode_overlay.specs.Settling.{growth_told};
ghost use Rattle.ode_settled_laws.specs.Holding.{IsHeldBy, SettledOver};
ghost use Rattle.ode_value.specs.Firings.{both_lists, whole_list};
ghost use Rattle.ode_value.specs.GoodWorlds.{IsGood};
ghost use Rattle.ode_value.specs.Language.{Language, ListTx, ListWorld};
ghost use Rattle.ode_value.specs.Pasts.{lists, numbers};
ghost use Rattle.ode_value.specs.Posting.{waiting};
ghost use Rattle.ode_value.specs.Settling.{abort, aborted, commit, posted};
ghost use Rattle.ode_value.specs.Tables.{Table};
ghost use Rattle.ode_value.specs.Texts.{aborted_line, committed_line};
ghost use Rattle.ode_value.specs.Transactions.{Queue};
ghost use Rattle.ode_value.specs.Worlds.{Entry};
ghost use Rattle.ode_value.specs.declared.event.Kind.TheVariants.{TAbort, TCommit};
ghost use Rattle.ode_value.specs.declared.key.Key.{Key};
ghost use Rattle.ode_value.specs.declared.reason.Reason.{Reason};
ghost use Rattle.ode_version_laws.specs.Growing.{GoesOnNumbered};
ghost use Rattle.ode_version_laws.specs.Remembering.{Remembers};
ghost use Rattle.ode_view_laws.specs.Viewing.{Beside, IsOver, running};

use ode_batch_laws::transactions_hold_worlds;
use ode_commit_laws::commits_may_clean_last;
use ode_laws::{good_worlds_are_numbered, tables_may_grow, transactions_settle_alike};
use ode_version_laws::{
    changed_objects_weighed_less, growths_are_the_worlds, held_worlds_are_shown,
};
use ode_view_laws::overlays_have_views;

/// Over records that hold a world: where the view of an overlay is a transaction by state numbers that runs as one over lists of points, and
/// the view of a formed overlay is that transaction behind its last points, the transaction over lists settled over the records behind that
/// overlay's changes, by the same tables, and the world grew as that overlay tells: by commit [`commit`], and by abort, behind the last
/// points of what is taken back [`abort`].
pub fn transactions_settle_over_records()
    ensures commit { (l : Language) (base : Entries) (changes : Changes) (v : ListWorld) (held : HoldsCounted l base v) (x now : Layer) (old new : Beside) (t : ListTx)
        → let tables = held.world.stored.tables in let first = held.world.stored.world in
        HasRisingKeys base → RunsAs tables (running first.bones.classes first x old) t
        → running first.bones.classes first now new ≡ posted (numbers tables) (both_lists (numbers tables)) TCommit (running first.bones.classes first x old)
        → IsOver first now → Remembers now.objects first → GoesOnNumbered (running first.bones.classes first now new) → IsFormed first.bones.classes base now → ((q : Key) → value_under (applied changes base) q ≡ stands_after now base q)
        → SettledOver l tables v (growth_told (map class_of first.bones.classes) now) (applied changes base) new.text (committed_line v.bones.transaction) (commit lists t) }
    ensures abort { (l : Language) (base : Entries) (changes : Changes) (v : ListWorld) (held : HoldsCounted l base v) (x now : Layer) (old new : Beside) (reason : Reason) (t : ListTx)
        → let tables = held.world.stored.tables in let first = held.world.stored.world in
        HasRisingKeys base → RunsAs tables (running first.bones.classes first x old) t
        → running first.bones.classes first now new ≡ posted (numbers tables) (whole_list (numbers tables)) TAbort (aborted (numbers tables) (running first.bones.classes first x old))
        → IsOver first now → Remembers now.objects first → GoesOnNumbered (running first.bones.classes first now new) → IsFormed first.bones.classes base now → ((q : Key) → value_under (applied changes base) q ≡ stands_after now base q)
        → SettledOver l tables v (growth_told (map class_of first.bones.classes) now) (applied changes base) new.text (aborted_line v.bones.transaction reason) (abort lists reason t) }
{
    transactions_hold_worlds();
    transactions_settle_alike();
    commits_may_clean_last();
    overlays_have_views();
    held_worlds_are_shown();
    growths_are_the_worlds();
    changed_objects_weighed_less();
}

/// Records hold a world by any tables that are the stored ones for each declared trigger.
pub fn tables_may_differ()
    ensures { (l : Language) (records : Entries) (w : ListWorld) (held : HoldsCounted l records w) (tables : ℕ → ℕ → Table) → AllByRecursion (AgreesOn held.world.stored.tables tables) w.bones.classes
        → IsHeldBy l tables records w }
{
    good_worlds_are_numbered();
    tables_may_grow();
}

/// While the front entry of a good world's queue runs, those behind it wait.
pub fn front_entries_run()
    ensures { (l : Language) (w : ListWorld) → IsGood l w → (q : ℕ × Entry) (more : Items (ℕ × Entry)) (generation : ℕ) → w.bones.queue ≡ q ∷ more → waiting (Queue q.0 generation) w.bones.queue ≡ more }
{}
