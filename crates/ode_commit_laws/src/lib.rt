//! A commit may drop what is gone behind its last points: a law of the machine's definitions, carried by the contract of a function that
//! does nothing.
#![tactic(auto)]

ghost use Rattle.std.specs.Prelude.{◌≡◌, ℕ};
ghost use Rattle.ode_laws.specs.Alike.{NumberTx};
ghost use Rattle.ode_laws.specs.Numbered.{AreNumbered};
ghost use Rattle.ode_value.specs.Firings.{both_lists};
ghost use Rattle.ode_value.specs.Pasts.{numbers};
ghost use Rattle.ode_value.specs.Settling.{commit, settled};
ghost use Rattle.ode_value.specs.Tables.{Table};
ghost use Rattle.ode_value.specs.Texts.{committed_line};
ghost use Rattle.ode_value.specs.declared.event.Kind.TheVariants.{TCommit};

/// Over state numbers a commit leaves the same world and prints the same where its last points are posted before objects that aren't live
/// and activations that are off are dropped: behind the points they are dropped all the same.
pub fn commits_may_clean_last()
    ensures { (tables : ℕ → ℕ → Table) (y : NumberTx) → AreNumbered y.now.bones
        → commit (numbers tables) y ≡ settled (numbers tables) (both_lists (numbers tables)) TCommit (committed_line y.first.bones.transaction) y }
{}
