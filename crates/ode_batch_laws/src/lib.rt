//! The records behind the batch of a settling hold the world that the machine leaves: laws of definitions, each carried by the contract of a
//! function that does nothing.
#![tactic(auto)]

ghost use Rattle.std.specs.Prelude.{◌≡◌};
ghost use Rattle.ode_codec.specs.Standing.{HoldsWorld, StandsAs};
ghost use Rattle.ode_keep.specs.Entries.{Changes, Entries, HasRisingKeys, applied, value_under};
ghost use Rattle.ode_laws.specs.Alike.{NumberTx, RunsAs};
ghost use Rattle.ode_laws.specs.Numbered.{AreNumbered};
ghost use Rattle.ode_overlay.specs.After.{stands_after};
ghost use Rattle.ode_overlay.specs.Layers.{Layer};
ghost use Rattle.ode_overlay_laws.specs.Standing.{Stands};
ghost use Rattle.ode_settling_laws.specs.Formed.{IsFormed};
ghost use Rattle.ode_value.specs.Firings.{both_lists, whole_list};
ghost use Rattle.ode_value.specs.GoodWorlds.{IsGood};
ghost use Rattle.ode_value.specs.Language.{Language, ListTx, ListWorld};
ghost use Rattle.ode_value.specs.Pasts.{lists, numbers};
ghost use Rattle.ode_value.specs.Settling.{abort, aborted, commit, posted, settled_world};
ghost use Rattle.ode_value.specs.declared.event.Kind.TheVariants.{TAbort, TCommit};
ghost use Rattle.ode_value.specs.declared.key.Key.{Key};
ghost use Rattle.ode_value.specs.declared.reason.Reason.{Reason};

use ode_commit_laws::commits_may_clean_last;
use ode_laws::transactions_settle_alike;

/// Where records hold a world, an overlay stands for a transaction from it, and the world that this leaves settled stands for a good one over
/// lists of points, then the records behind the overlay's batch hold that one, by the same tables.
pub fn batches_hold_worlds()
    ensures { (l : Language) (base : Entries) (changes : Changes) (v w : ListWorld) (x : Layer) (y : NumberTx) (held : HoldsWorld l base v) → HasRisingKeys base
        → y.first ≡ held.stored.world → Stands x y → AreNumbered y.now.bones → y.now.bones.classes ≡ y.first.bones.classes → IsFormed held.stored.world.bones.classes base x
        → ((q : Key) → value_under (applied changes base) q ≡ stands_after x base q)
        → StandsAs held.stored.tables (settled_world y) w → IsGood l w → (after : HoldsWorld l (applied changes base) w) × (after.stored.tables ≡ held.stored.tables) }
{}

/// So it is at the end of a transaction that runs as one over lists: behind the last points of a commit the records hold the world that the
/// commit over lists leaves [`commit`], and behind those of an abort the one that the abort leaves [`abort`], where these are good; by the
/// same tables.
pub fn transactions_hold_worlds()
    ensures commit { (l : Language) (base : Entries) (changes : Changes) (v : ListWorld) (x : Layer) (y : NumberTx) (t : ListTx) (held : HoldsWorld l base v) → HasRisingKeys base
        → y.first ≡ held.stored.world → RunsAs held.stored.tables y t
        → Stands x (posted (numbers held.stored.tables) (both_lists (numbers held.stored.tables)) TCommit y) → IsFormed held.stored.world.bones.classes base x
        → ((q : Key) → value_under (applied changes base) q ≡ stands_after x base q)
        → IsGood l (commit lists t).0 → (after : HoldsWorld l (applied changes base) (commit lists t).0) × (after.stored.tables ≡ held.stored.tables) }
    ensures abort { (l : Language) (base : Entries) (changes : Changes) (v : ListWorld) (x : Layer) (reason : Reason) (y : NumberTx) (t : ListTx) (held : HoldsWorld l base v) → HasRisingKeys base
        → y.first ≡ held.stored.world → RunsAs held.stored.tables y t
        → Stands x (posted (numbers held.stored.tables) (whole_list (numbers held.stored.tables)) TAbort (aborted (numbers held.stored.tables) y)) → IsFormed held.stored.world.bones.classes base x
        → ((q : Key) → value_under (applied changes base) q ≡ stands_after x base q)
        → IsGood l (abort lists reason t).0 → (after : HoldsWorld l (applied changes base) (abort lists reason t).0) × (after.stored.tables ≡ held.stored.tables) }
{
    commits_may_clean_last();
    transactions_settle_alike();
}
