//! What a transaction keeps within its limits, and what of it stays. Each law is carried by the contract of a function that does
//! nothing.
ghost use Rattle.std.specs.Prelude.{◌≡◌, ◌≤◌, ℕ};
ghost use Rattle.ode_value.specs.declared.event.Kind.TheVariants.{TAbort, TCommit};
ghost use Rattle.ode_value.specs.declared.reason.Reason.{Reason};
ghost use Rattle.ode_value.specs.declared.statement.Stmt.{Stmt};
ghost use Rattle.ode_value.specs.Changes.{key_count};
ghost use Rattle.ode_value.specs.Completing.{completes, goes_round, rounds};
ghost use Rattle.ode_value.specs.Executing.{commands};
ghost use Rattle.ode_value.specs.Firings.{both_lists, whole_list};
ghost use Rattle.ode_value.specs.Language.{ListTx, ListWorld};
ghost use Rattle.ode_value.specs.Limits.{change_limit};
ghost use Rattle.ode_value.specs.Pasts.{lists, numbers};
ghost use Rattle.ode_value.specs.Settling.{abort, aborted, commit, committed, posted};
ghost use Rattle.ode_value.specs.Tables.{Table};
ghost use Rattle.ode_value.specs.Transactions.{Origin, begun};
ghost use Rattle.ode_laws.specs.Alike.{NumberTx};
ghost use Rattle.ode_laws.specs.Bounds.{IsBounded, Prints, StaysBounded};

/// A transaction begins within its limits, and statements and completion keep it there, whether they are done or aborted: its text
/// goes on, its first world stays, and its keys are never fewer.
pub fn transactions_stay_bounded()
    ensures begun { (origin : Origin) (w : ListWorld) → IsBounded (begun origin w) }
    ensures statement { (x : ListTx) → IsBounded x → (s : Stmt) → StaysBounded x (commands lists s x) }
    ensures completion { (x : ListTx) → IsBounded x → StaysBounded x (completes lists x) }
{}

/// Behind the last points of a settling the keys, with what was collected, are within their limit, and the text begins with what the
/// transaction had printed.
pub fn settling_stays_bounded()
    ensures commit_keys { (x : ListTx) → key_count x ≤ change_limit → key_count (posted lists (both_lists lists) TCommit (committed lists x)) ≤ change_limit }
    ensures abort_keys { (x : ListTx) → key_count x ≤ change_limit → key_count (posted lists (whole_list lists) TAbort (aborted lists x)) ≤ change_limit }
    ensures commit_text { (x : ListTx) → key_count x ≤ change_limit → Prints x (commit lists x).1 }
    ensures abort_text { (reason : Reason) (x : ListTx) → key_count x ≤ change_limit → Prints x (abort lists reason x).1 }
{}

/// Completion ends because nothing is left, and not because its rounds are used up: with any more of them it does the same.
pub fn rounds_suffice()
    ensures lists { (x : ListTx) → IsBounded x → (n : ℕ) → rounds x ≤ n → goes_round lists n 0 0 x ≡ goes_round lists (rounds x) 0 0 x }
    ensures numbers { (tables : ℕ → ℕ → Table) (x : NumberTx) → IsBounded x → (n : ℕ) → rounds x ≤ n →
        goes_round (numbers tables) n 0 0 x ≡ goes_round (numbers tables) (rounds x) 0 0 x }
{}
