//! Two event expressions compared by their tables, over the symbols of both.
ghost use Rattle.std.specs.Prelude.{◌≡◌, ◌≤◌, IfErr, IfOk, OnOk, true};
ghost use Rattle.ode_same.specs.Differing.{IsAllowed, IsCause, IsVerdict, either};
ghost use Rattle.ode_same.specs.Parts.{IsAlphabetCause, IsBuildCause, IsComparison};
ghost use Rattle.ode_table.specs.Built.{IsBuilt, IsOver};
ghost use Rattle.ode_value.specs.declared.event.EventExpr.{EventExpr};
ghost use Rattle.ode_value.specs.Limits.{state_limit, symbol_limit};
ghost use Rattle.ode_value.specs.Numbers.{has_numbers};
ghost use Rattle.ode_value.specs.Symbols.{alphabet, symbol_count};
ghost use Rattle.ode_value.specs.Tables.{run, says_yes};

use crate::error::SameError;
use crate::verdict::Verdict;
use ode_symbols::{Alphabet, AlphabetError};
use ode_table::{BuildError, Table, build};
use ode_value::{Boxed, EventExpr};
use ode_walk::{RelateError, relate};
use std::alloc::{AllocError, Global};

// The expression that has the leaves and the masks of both.
#[tactic(auto, using(crate::proofs::BothLaws::either_is))]
fn either(alloc: Global, e: &EventExpr, f: &EventExpr) -> Result<EventExpr, AllocError>
    ensures { IfOk result (λ both. both ≡ either e.now f.now) }
{
    let first = Boxed::new(alloc, e.copy(alloc)?)?;
    let second = Boxed::new(alloc, f.copy(alloc)?)?;
    Ok(EventExpr::Or(first, second))
}

fn alphabet_of(alloc: Global, of: &EventExpr) -> Result<Alphabet, SameError>
    ensures alphabet { IfOk result (λ a. a ≡ alphabet of.now) }
    ensures few { OnOk result (symbol_count of.now ≤ symbol_limit) }
    ensures cause { IfErr result (IsAlphabetCause of.now) }
{
    match Alphabet::of(alloc, of) {
        Ok(a) => Ok(a),
        Err(AlphabetError::Memory) => Err(SameError::Memory),
        Err(AlphabetError::TooManySymbols { count }) => Err(SameError::TooManySymbols { count }),
    }
}

/// The alphabet of two expressions together.
#[tactic(auto, using(crate::proofs::VerdictLaws::cause_alphabet))]
pub fn alphabet_of_both(alloc: Global, e: &EventExpr, f: &EventExpr) -> Result<Alphabet, SameError>
    ensures alphabet { IfOk result (λ a. a ≡ alphabet (either e.now f.now)) }
    ensures few { OnOk result (symbol_count (either e.now f.now) ≤ symbol_limit) }
    ensures cause { IfErr result (IsCause e.now f.now) }
{
    let both = either(alloc, e, f)?;
    alphabet_of(alloc, &both)
}

// The table of one of two expressions over an alphabet.
fn table_of(alloc: Global, e: &EventExpr, a: &Alphabet, second: bool) -> Result<Table, SameError>
    requires { has_numbers e.now ≡ true }
    ensures built { IfOk result (λ t. (of : EventExpr) → IsOver e.now of a.now → IsBuilt e.now of t) }
    ensures few { IfOk result (λ t. t.states ≤ state_limit) }
    ensures cause { IfErr result (λ error. (of : EventExpr) → IsOver e.now of a.now → IsBuildCause e.now of second error) }
{
    match build(alloc, e, a) {
        Ok(table) => Ok(table),
        Err(BuildError::Memory) => Err(SameError::Memory),
        Err(BuildError::TooManyStates) => Err(SameError::TooManyStates { second }),
    }
}

// The answer of a table after a word.
fn answer(table: &Table, word: &[u8]) -> bool
    ensures { result ≡ says_yes table.now (run table.now 0 word.now) }
{
    let mut state = 0;
    for symbol in word {
        state = table.step(state, *symbol);
    }
    table.says(state)
}

// Whether two tables answer alike, or the least word on which they don't.
fn compare(alloc: Global, first: &Table, second: &Table) -> Result<Verdict, AllocError>
    requires { first.now.symbols ≡ second.now.symbols }
    ensures { IfOk result (IsComparison first.now second.now) }
{
    match relate(alloc, first, second) {
        Ok(_) => Ok(Verdict::Same),
        Err(RelateError::Memory) => Err(AllocError),
        Err(RelateError::Differs { word }) => {
            let first = answer(first, word.as_slice());
            Ok(Verdict::Differs { word, first })
        }
    }
}

/// The same as `same`, with the alphabet of both.
pub(crate) fn same_over(
    alloc: Global,
    e: &EventExpr,
    f: &EventExpr,
    a: &Alphabet,
) -> Result<Verdict, SameError>
    requires first { has_numbers e.now ≡ true }
    requires second { has_numbers f.now ≡ true }
    requires alphabet { a.now ≡ alphabet (either e.now f.now) }
    requires few { symbol_count (either e.now f.now) ≤ symbol_limit }
    ensures verdict { IfOk result (IsVerdict e.now f.now) }
    ensures allowed { OnOk result (IsAllowed e.now f.now) }
    ensures cause { IfErr result (IsCause e.now f.now) }
{
    let first = table_of(alloc, e, a, false)?;
    let second = table_of(alloc, f, a, true)?;
    Ok(compare(alloc, &first, &second)?)
}

/// Whether two event expressions fire on the marks of the same words over the symbols of both; else the least of the shortest words on
/// which one alone does. Each number of a `choose` or an `every` is within the limit.
pub fn same(alloc: Global, e: &EventExpr, f: &EventExpr) -> Result<Verdict, SameError>
    requires first { has_numbers e.now ≡ true }
    requires second { has_numbers f.now ≡ true }
    ensures verdict { IfOk result (IsVerdict e.now f.now) }
    ensures allowed { OnOk result (IsAllowed e.now f.now) }
    ensures cause { IfErr result (IsCause e.now f.now) }
{
    let a = alphabet_of_both(alloc, e, f)?;
    same_over(alloc, e, f, &a)
}
