//! The next numbers, the queue, the last versions and the weight stay in their ranges. Each law is carried by the contract of a function
//! that does nothing.
ghost use Rattle.std.specs.Prelude.{◌≡◌, ◌≤◌};
ghost use Rattle.ode_value.specs.declared.reason.Reason.{Reason};
ghost use Rattle.ode_value.specs.declared.statement.Stmt.{Stmt};
ghost use Rattle.ode_value.specs.Acts.{Done};
ghost use Rattle.ode_value.specs.Completing.{completes};
ghost use Rattle.ode_value.specs.Executing.{commands};
ghost use Rattle.ode_value.specs.GoodWorlds.{IsGood};
ghost use Rattle.ode_value.specs.Keeping.{kept_bones};
ghost use Rattle.ode_value.specs.Language.{Language, ListTx, ListWorld};
ghost use Rattle.ode_value.specs.Limits.{weight_limit};
ghost use Rattle.ode_value.specs.Pasts.{lists};
ghost use Rattle.ode_value.specs.Settling.{abort, commit};
ghost use Rattle.ode_value.specs.Transactions.{Origin, begun};
ghost use Rattle.ode_value.specs.Weights.{weight};
ghost use Rattle.ode_laws.specs.Counted.{AreCounted, CountsOn, StaysCounted};
ghost use Rattle.ode_laws.specs.Sized.{AreSized, IsSized, StaysSized};

/// From a world whose next numbers, queue and last versions lie in their ranges, as a good world's do, each transaction leaves one
/// of which the same holds, whatever its statements are.
pub fn counters_stay_in_range()
    ensures good { (l : Language) (w : ListWorld) → IsGood l w → AreCounted w.bones }
    ensures begun { (origin : Origin) (w : ListWorld) → AreCounted w.bones → CountsOn (begun origin w) }
    ensures statement { (x : ListTx) → CountsOn x → (s : Stmt) → StaysCounted (commands lists s x) }
    ensures completion { (x : ListTx) → CountsOn x → StaysCounted (completes lists x) }
    ensures commit { (x : ListTx) → CountsOn x → AreCounted (commit lists x).0.bones }
    ensures abort { (reason : Reason) (x : ListTx) → CountsOn x → AreCounted (abort lists reason x).0.bones }
{}

/// A completion that is done has weighed what is kept, and its commit leaves no more than that; an abort leaves no more than the first
/// world weighs.
pub fn worlds_stay_light()
    ensures completion { (x y : ListTx) → completes lists x ≡ Done tt y → weight (kept_bones y.now.bones) ≤ weight_limit }
    ensures commit { (x : ListTx) → weight (kept_bones x.now.bones) ≤ weight_limit → weight (commit lists x).0.bones ≤ weight_limit }
    ensures abort { (reason : Reason) (x : ListTx) → weight x.first.bones ≤ weight_limit → weight (abort lists reason x).0.bones ≤ weight_limit }
{}

/// Where the values of all versions' records and the arguments of all activations are short enough, they are behind each statement,
/// completion, commit and abort.
pub fn records_stay_short()
    ensures statement { (x : ListTx) → IsSized x → (s : Stmt) → StaysSized (commands lists s x) }
    ensures completion { (x : ListTx) → IsSized x → StaysSized (completes lists x) }
    ensures commit { (x : ListTx) → IsSized x → AreSized (commit lists x).0.bones }
    ensures abort { (reason : Reason) (x : ListTx) → IsSized x → AreSized (abort lists reason x).0.bones }
{}
