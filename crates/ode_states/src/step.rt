//! One activation's step.
ghost use Rattle.std.specs.Prelude.{◌≡◌};
ghost use Rattle.std.specs.Option.{option_copied, unwrap_or};
ghost use Rattle.ode_states.specs.Advance.{no_alphabet, no_table, once, step_by};
ghost use Rattle.ode_value.specs.Symbols.{symbol_among};
ghost use Rattle.ode_value.specs.Tables.{next_state, says_yes};

use ode_symbols::Alphabet;
use ode_table::Table;
use ode_types::{Classes, Running};
use ode_value::{Kind, List, Value};

/// What a point does to an activation.
#[derive(Clone, Copy)]
pub(crate) struct Step {
    pub(crate) state: u16,
    pub(crate) fires: bool,
    pub(crate) on: bool,
}

// Whether an activation ends by a firing.
fn is_once(classes: &Classes, a: &Running) -> bool
    ensures { result ≡ once classes.now a.now }
{
    match classes.class(a.class) {
        Some(class) => match class.triggers.as_slice().get(usize::from(a.trigger)) {
            Some(trigger) => !trigger.perpetual,
            None => false,
        },
        None => false,
    }
}

// The symbol of a point in an alphabet, where there is one.
fn symbol_in(
    alphabet: Option<&Alphabet>,
    params: &[Value],
    kind: &Kind,
    args: &[Value],
    own: &[Value],
) -> u8
    ensures { result ≡ symbol_among (unwrap_or (option_copied alphabet.entry) no_alphabet) params.now (record { kind = kind.now; args = args.now; fields = own.now }) }
{
    match alphabet {
        Some(alphabet) => alphabet.symbol(params, kind, args, own),
        None => 0,
    }
}

// The state behind a symbol by a table, where there is one.
fn next_in(table: Option<&Table>, state: u16, symbol: u8) -> u16
    ensures { result ≡ next_state (unwrap_or (option_copied table.entry) no_table) state symbol }
{
    match table {
        Some(table) => table.step(state, symbol),
        None => 0,
    }
}

// What a table says of a state, where there is one.
fn says_in(table: Option<&Table>, state: u16) -> bool
    ensures { result ≡ says_yes (unwrap_or (option_copied table.entry) no_table) state }
{
    match table {
        Some(table) => table.says(state),
        None => false,
    }
}

/// The step of an activation at a point. Where its place isn't one of both lists, or its state none of its table's, it goes to the start.
#[tactic(auto, using(crate::proofs::PlaceLaws::at_place))]
pub(crate) fn step_of(
    tables: &List<Table>,
    alphabets: &List<Alphabet>,
    classes: &Classes,
    a: &Running,
    kind: &Kind,
    args: &[Value],
    own: &[Value],
) -> Step
    ensures { result ≡ step_by tables.now alphabets.now classes.now (record { kind = kind.now; args = args.now; fields = own.now }) a.now }
{
    let table = tables.as_slice().get(a.table as usize);
    let alphabet = alphabets.as_slice().get(a.table as usize);
    let symbol = symbol_in(alphabet, a.args.as_slice(), kind, args, own);
    let state = next_in(table, a.state, symbol);
    let fires = a.on && says_in(table, state);
    Step {
        state,
        fires,
        on: a.on && !(fires && is_once(classes, a)),
    }
}
