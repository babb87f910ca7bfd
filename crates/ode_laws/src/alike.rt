//! Over state numbers the machine runs as over lists of points, where the table of each declared trigger means its event. Each law is
//! carried by the contract of a function that does nothing.
ghost use Rattle.std.specs.Prelude.{ℕ, List as Items};
ghost use Rattle.std.specs.List.{AllByRecursion, AllZip};
ghost use Rattle.ode_value.specs.declared.event.Kind.{Kind};
ghost use Rattle.ode_value.specs.declared.reason.Reason.{Reason};
ghost use Rattle.ode_value.specs.declared.statement.Stmt.{Stmt};
ghost use Rattle.ode_value.specs.declared.value.Value.{Value};
ghost use Rattle.ode_value.specs.Acts.{Deed, go_on};
ghost use Rattle.ode_value.specs.Completing.{completes};
ghost use Rattle.ode_value.specs.Draining.{drain, entry_settled};
ghost use Rattle.ode_value.specs.Executing.{commands, first_actions};
ghost use Rattle.ode_value.specs.GoodWorlds.{IsGood};
ghost use Rattle.ode_value.specs.Language.{Language, ListTx, ListWorld};
ghost use Rattle.ode_value.specs.Objects.{Histories, Starts};
ghost use Rattle.ode_value.specs.Pasts.{lists, numbers};
ghost use Rattle.ode_value.specs.Posting.{posts, runs, touches};
ghost use Rattle.ode_value.specs.Settling.{abort, commit, transaction};
ghost use Rattle.ode_value.specs.Tables.{Table};
ghost use Rattle.ode_value.specs.Transactions.{Firing, Origin, begun};
ghost use Rattle.ode_value.specs.Worlds.{Entry};
ghost use Rattle.ode_laws.specs.Alike.{AgreesOn, IsAlike, NumberTx, NumberWorld, RunAlike, RunsAs, SettledAs};
ghost use Rattle.ode_laws.specs.Numbered.{AreNumbered};

/// The numbers of a good world's classes, objects and activations tell these apart.
pub fn good_worlds_are_numbered()
    ensures { (l : Language) (w : ListWorld) → IsGood l w → AreNumbered w.bones }
{}

/// The acts of a transaction over state numbers end as those over lists do, done or aborted with one reason, with the same bones,
/// text and all else, and numbers that stand for the views again.
pub fn acts_run_alike()
    ensures begun { (tables : ℕ → ℕ → Table) (origin : Origin) (v : NumberWorld) (w : ListWorld) → IsAlike tables v w → RunsAs tables (begun origin v) (begun origin w) }
    ensures next { (tables : ℕ → ℕ → Table) (a f : Deed (Unit {0}) ℕ) (b g : Deed Histories Starts) → RunAlike tables a b → RunAlike tables f g →
        RunAlike tables (λ (y : NumberTx). go_on (a y) (λ u. f)) (λ (x : ListTx). go_on (b x) (λ u. g)) }
    ensures statement { (tables : ℕ → ℕ → Table) (s : Stmt) → RunAlike tables (commands (numbers tables) s) (commands lists s) }
    ensures touch { (tables : ℕ → ℕ → Table) (id : ℕ) → RunAlike tables (touches (numbers tables) (first_actions (numbers tables)) id) (touches lists (first_actions lists) id) }
    ensures point { (tables : ℕ → ℕ → Table) (id : ℕ) (kind : Kind) (args : Items Value) →
        RunAlike tables (posts (numbers tables) (first_actions (numbers tables)) id kind args) (posts lists (first_actions lists) id kind args) }
    ensures firing { (tables : ℕ → ℕ → Table) (f : Firing) → RunAlike tables (runs (first_actions (numbers tables)) f) (runs (first_actions lists) f) }
    ensures completion { (tables : ℕ → ℕ → Table) → RunAlike tables (completes (numbers tables)) (completes lists) }
{}

/// Transactions that run alike settle alike: by commit and by abort they leave worlds of which one stands for the other, with numbers
/// that tell their parts apart, and print the same.
pub fn transactions_settle_alike()
    ensures commit { (tables : ℕ → ℕ → Table) (y : NumberTx) (x : ListTx) → RunsAs tables y x → SettledAs tables (commit (numbers tables) y) (commit lists x) }
    ensures abort { (tables : ℕ → ℕ → Table) (reason : Reason) (y : NumberTx) (x : ListTx) → RunsAs tables y x → SettledAs tables (abort (numbers tables) reason y) (abort lists reason x) }
    ensures whole { (tables : ℕ → ℕ → Table) (origin : Origin) (a : Deed (Unit {0}) ℕ) (b : Deed Histories Starts) → RunAlike tables a b → (v : NumberWorld) (w : ListWorld) → IsAlike tables v w →
        SettledAs tables (transaction (numbers tables) origin a v) (transaction lists origin b w) }
    ensures entry { (tables : ℕ → ℕ → Table) (v : NumberWorld) (w : ListWorld) → IsAlike tables v w → (q : ℕ × Entry) → SettledAs tables (entry_settled (numbers tables) v q) (entry_settled lists w q) }
    ensures drain { (tables : ℕ → ℕ → Table) (most : ℕ) (v : NumberWorld) (w : ListWorld) → IsAlike tables v w →
        AllZip (SettledAs tables) (drain (numbers tables) most v) (drain lists most w) }
{}

/// By other tables, which are the same for all declared triggers, worlds stay alike: so a class that is to be declared may bring its
/// own.
pub fn tables_may_grow()
    ensures { (tables other : ℕ → ℕ → Table) (v : NumberWorld) (w : ListWorld) → IsAlike tables v w →
        AllByRecursion (AgreesOn tables other) w.bones.classes → IsAlike other v w }
{}
