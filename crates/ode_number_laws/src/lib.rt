//! The numbers of settled transactions: a law of the machine's definitions, carried by the contract of a function that does nothing.
#![tactic(auto)]

ghost use Rattle.std.specs.Prelude.{ℕ, List as Items};
ghost use Rattle.ode_machine.specs.Runs.{trace, worlds};
ghost use Rattle.ode_number_laws.specs.Counting.{CountUp};
ghost use Rattle.ode_value.specs.Language.{Language, ListWorld};

/// The transactions that a run settles have their numbers one after the other, whatever is read in it: behind each the next one is one
/// more.
pub fn runs_count_up()
    ensures { (l : Language) (w : ListWorld) (script : Items ℕ) → CountUp w.bones.transaction (worlds (trace l w script)) }
{}
