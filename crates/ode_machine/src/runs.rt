//! Examples of runs, computed, each carried by the contract of a function that does nothing.
ghost use Rattle.std.specs.Prelude.{◌≡◌, [], ◌∷◌, ◌++◌, ℕ, List as Items};
ghost use Rattle.ode_host.specs.declared.status.Status.TheVariants as status;
ghost use Rattle.ode_value.specs.Language.{Language, ListWorld};
ghost use Rattle.ode_value.specs.Worlds.{Bones, empty_world};
ghost use Rattle.ode_machine.specs.Runs.{Refuses, Settles, final, run_status, run_text, run_world, text_until, world_at, worlds};
ghost use Rattle.ode_machine.specs.Stability.{IsStable};

/// A script of no bytes over a fresh database prints nothing and leaves it.
pub fn empty_scripts()
    ensures text { (l : Language) → run_text l empty_world [] ≡ [] }
    ensures world { (l : Language) → run_world l empty_world [] ≡ empty_world }
    ensures status { (l : Language) → run_status l empty_world [] ≡ status.Ok }
{}

/// A refusal's line belongs to the settled transaction before it; one world alone is stable.
pub fn texts_go_with_worlds()
    ensures text { (w v : ListWorld) (a b c : Items ℕ) → text_until 1 (Settles w a ∷ Refuses b ∷ Settles v c ∷ []) ≡ a ++ (b ++ []) }
    ensures world { (w v : ListWorld) (a b c : Items ℕ) → world_at 1 empty_world (Settles w a ∷ Refuses b ∷ Settles v c ∷ []) ≡ w }
    ensures last { (w v : ListWorld) (a b c : Items ℕ) → final empty_world (Settles w a ∷ Refuses b ∷ Settles v c ∷ []) ≡ v }
    ensures worlds { (w v : ListWorld) (a b c : Items ℕ) → worlds (Settles w a ∷ Refuses b ∷ Settles v c ∷ []) ≡ w ∷ v ∷ [] }
    ensures stable { (w : Bones) → IsStable w [] }
{}
