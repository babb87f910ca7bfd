//! What typed transactions do is typed, and the worlds that they leave fit again.
ghost use Rattle.std.specs.Prelude.{ℕ, List as Items};
ghost use Rattle.std.specs.List.{AllByRecursion};
ghost use Rattle.ode_value.specs.declared.event.Kind.{Kind};
ghost use Rattle.ode_value.specs.declared.reason.Reason.{Reason};
ghost use Rattle.ode_value.specs.declared.statement.Stmt.{Stmt};
ghost use Rattle.ode_value.specs.declared.value.Ref.{Ref};
ghost use Rattle.ode_value.specs.declared.value.Value.{Value};
ghost use Rattle.ode_value.specs.Acts.{Deed};
ghost use Rattle.ode_value.specs.Completing.{completes};
ghost use Rattle.ode_value.specs.Draining.{drain, entry_settled};
ghost use Rattle.ode_value.specs.Executing.{commands, first_actions};
ghost use Rattle.ode_value.specs.GoodWorlds.{IsGood};
ghost use Rattle.ode_value.specs.Language.{Language, ListTx, ListWorld};
ghost use Rattle.ode_value.specs.Objects.{Histories, Starts};
ghost use Rattle.ode_value.specs.Pasts.{lists};
ghost use Rattle.ode_value.specs.Posting.{posts, runs, touches};
ghost use Rattle.ode_value.specs.Settling.{Settled, abort, commit, transaction};
ghost use Rattle.ode_value.specs.Transactions.{Firing, Origin, begun};
ghost use Rattle.ode_value.specs.Worlds.{Entry, empty_bones};
ghost use Rattle.ode_sound_laws.specs.Fits.{FitsEntry, FitsFiring, FitsLiteral};
ghost use Rattle.ode_types.specs.Kept.{IsTypedStatement};
ghost use Rattle.ode_sound_laws.specs.Sound.{AreSound, checked_classes};
ghost use Rattle.ode_sound_laws.specs.Typed.{AreFromOne, IsTyped, IsTypedWorld, StaysTyped};

/// A fresh database is typed. From a good world with sound classes, whose versions' numbers begin at 1, a transaction is typed: what its
/// objects, deferred firings and collected entries hold fits, and its objects keep their classes. So it stays over typed statements whose
/// literals have objects of their classes, over touches, points, firings that fit, and completion, done or aborted.
pub fn transactions_stay_typed()
    ensures fresh { IsTypedWorld empty_bones }
    ensures good { (l : Language) (w : ListWorld) → IsGood l w → AreSound w.bones.classes → AreFromOne w.bones → IsTypedWorld w.bones }
    ensures begun { (origin : Origin) (w : ListWorld) → IsTypedWorld w.bones → IsTyped (begun origin w) }
    ensures statement { (x : ListTx) → IsTyped x → (literals : Items (Ref × ℕ)) → AllByRecursion (FitsLiteral x.now.bones) literals →
        (s : Stmt) → IsTypedStatement (checked_classes x.now.bones.classes) literals s → StaysTyped (commands lists s x) }
    ensures touch { (x : ListTx) → IsTyped x → (id : ℕ) → StaysTyped (touches lists (first_actions lists) id x) }
    ensures point { (x : ListTx) → IsTyped x → (id : ℕ) (kind : Kind) (args : Items Value) → StaysTyped (posts lists (first_actions lists) id kind args x) }
    ensures firing { (x : ListTx) → IsTyped x → (f : Firing) → FitsFiring x.now.bones f → StaysTyped (runs (first_actions lists) f x) }
    ensures completion { (x : ListTx) → IsTyped x → StaysTyped (completes lists x) }
{}

/// A typed transaction leaves a world that fits, by commit and by abort. So does a whole transaction whose work is typed, the
/// transaction of an entry that fits, and each of a drain.
pub fn worlds_stay_typed()
    ensures commit { (x : ListTx) → IsTyped x → IsTypedWorld (commit lists x).0.bones }
    ensures abort { (reason : Reason) (x : ListTx) → IsTyped x → IsTypedWorld (abort lists reason x).0.bones }
    ensures whole { (origin : Origin) (work : Deed Histories Starts) (w : ListWorld) → IsTypedWorld w.bones → StaysTyped (work (begun origin w)) →
        IsTypedWorld (transaction lists origin work w).0.bones }
    ensures entry { (w : ListWorld) → IsTypedWorld w.bones → (q : ℕ × Entry) → FitsEntry w.bones q.1 → IsTypedWorld (entry_settled lists w q).0.bones }
    ensures drain { (most : ℕ) (w : ListWorld) → IsTypedWorld w.bones → AllByRecursion (λ (s : Settled Histories Starts). IsTypedWorld s.0.bones) (drain lists most w) }
{}
