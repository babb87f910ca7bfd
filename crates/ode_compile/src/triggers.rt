//! The tables and the alphabets of triggers.
ghost use Rattle.std.specs.Prelude.{◌≡◌, IfOk, true};
ghost use Rattle.std.specs.List.{AllByRecursion};
ghost use Rattle.ode_value.specs.ClassLimits.{limits_trigger, limits_triggers};
ghost use Rattle.ode_value.specs.Numbers.{has_numbers};
ghost use Rattle.ode_value.specs.TreeCount.{tree_count};
ghost use Rattle.ode_value.specs.Symbols.{alphabet};
ghost use Rattle.ode_compile.specs.Answers.{Passes};
ghost use Rattle.ode_compile.specs.Compiling.{AreCompiled, IsCompiled, few_states, few_symbols, tree_counts};

use crate::stop::CompileStop;
use ode_symbols::{Alphabet, AlphabetError};
use ode_table::{BuildError, Table, build};
use ode_value::{List, Refusal, TriggerDecl};
use std::alloc::Global;

#[tactic(auto, using(crate::proofs::LimitLaws::symbols_pass, crate::proofs::LimitLaws::symbols_stop))]
fn alphabet_of(alloc: Global, trigger: &TriggerDecl) -> Result<Alphabet, CompileStop>
    ensures few { Passes (few_symbols trigger.now) result }
    ensures rows { IfOk result (λ rows. rows ≡ alphabet trigger.now.event) }
{
    match Alphabet::of(alloc, &trigger.event) {
        Ok(alphabet) => Ok(alphabet),
        Err(AlphabetError::Memory) => Err(CompileStop::Memory),
        Err(AlphabetError::TooManySymbols { count }) => {
            let trigger = trigger.name.copy(alloc)?;
            Err(CompileStop::Refused(Refusal::TooManySymbols { trigger, count }))
        }
    }
}

// The table over the trigger's own alphabet whose states are the trees of its event.
#[tactic(auto, using(crate::proofs::TriggerLaws::built_as))]
fn built(alloc: Global, trigger: &TriggerDecl, symbols: &Alphabet) -> Result<Table, CompileStop>
    requires numbers { has_numbers trigger.now.event ≡ true }
    requires own { symbols.now ≡ alphabet trigger.now.event }
    ensures few { Passes (few_states trigger.now) result }
    ensures table { IfOk result (λ table. IsCompiled trigger.now table symbols.now) }
    ensures count { IfOk result (λ table. table.states ≡ tree_count trigger.now.event) }
{
    match build(alloc, &trigger.event, symbols) {
        Ok(table) => {
            // Read, so that its parts are known to fit each other.
            let _rows = table.rows();
            Ok(table)
        }
        Err(BuildError::Memory) => Err(CompileStop::Memory),
        Err(BuildError::TooManyStates) => {
            let trigger = trigger.name.copy(alloc)?;
            Err(CompileStop::Refused(Refusal::TooManyStates { trigger }))
        }
    }
}

#[tactic(auto, using(crate::proofs::AnswerLaws::stops_through))]
fn compile_trigger(
    alloc: Global,
    trigger: &TriggerDecl,
) -> Result<(Table, Alphabet, u16), CompileStop>
    requires { has_numbers trigger.now.event ≡ true }
    ensures limits { Passes (limits_trigger trigger.now) result }
    ensures compiled { IfOk result (λ made. IsCompiled trigger.now made.0 made.1) }
    ensures count { IfOk result (λ made. made.2 ≡ tree_count trigger.now.event) }
{
    let alphabet = alphabet_of(alloc, trigger)?;
    let table = built(alloc, trigger, &alphabet)?;
    let count = table.states();
    Ok((table, alphabet, count))
}

/// For each of these triggers, in order, a table whose states are the trees of its event, its alphabet and how many trees there are, or
/// the first refusal.
pub(crate) fn compile_triggers(
    alloc: Global,
    triggers: &[TriggerDecl],
) -> Result<(List<Table>, List<Alphabet>, List<u16>), CompileStop>
    requires { AllByRecursion (λ t. has_numbers t.event ≡ true) triggers.now }
    ensures limits { Passes (limits_triggers triggers.now) result }
    ensures compiled { IfOk result (λ made. AreCompiled triggers.now made.0 made.1) }
    ensures counts { IfOk result (λ made. made.2 ≡ tree_counts triggers.now) }
{
    let mut tables = List::new(alloc);
    let mut alphabets = List::new(alloc);
    let mut counts = List::new(alloc);
    for trigger in triggers {
        let (table, alphabet, count) = compile_trigger(alloc, trigger)?;
        tables.push(table)?;
        alphabets.push(alphabet)?;
        counts.push(count)?;
    }
    Ok((tables, alphabets, counts))
}
