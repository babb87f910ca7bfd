//! A table out of the bytes of its records.
ghost use Rattle.std.specs.Prelude.{◌≡◌, ◌<◌, ◌≤◌, ◌*◌, ◌^◌, ◌∷◌, [], IfOk, IfSome, length, take};
ghost use Rattle.std.specs.List.{AllByRecursion, flat_map};
ghost use Rattle.std.specs.Option.{option_map};
ghost use Rattle.ode_codec.specs.StoredRows.{u16 as u16_bytes};
ghost use Rattle.ode_opening_tables.specs.Answers.{AreAnswers, IsSize, TableOf};
ghost use Rattle.ode_value.specs.Lengths.{table_length};

use ode_codec::TABLE_HEAD_LEN;
use ode_host::{take_u8, take_u16};
use ode_table::Table;
use ode_value::List;
use std::alloc::{AllocError, Global};

// The bytes of a state's number.
const STATE_LEN: usize = 2;

/// The states and symbols of a table by the value of its head.
pub(crate) fn size_in(value: &[u8]) -> Option<(u16, u8)>
    ensures size { IsSize value.now result }
    ensures small { IfSome result (λ size. (size.0 < 2 ^ 16) × (size.1 < 2 ^ 8)) }
{
    if value.len() != TABLE_HEAD_LEN {
        return None;
    }
    let states = take_u16(value, 0)?;
    let symbols = take_u8(value, STATE_LEN)?;
    Some((states, symbols))
}

// The numbers of so many states.
fn states_in(alloc: Global, bytes: &[u8], count: usize) -> Result<List<u16>, AllocError>
    requires { 2 * count ≤ length bytes.now }
    ensures states { IfOk result (λ next. flat_map u16_bytes next ≡ take (2 * count) bytes.now) }
    ensures count { IfOk result (λ next. length next ≡ count) }
    ensures short { IfOk result (AllByRecursion (λ n. n < 2 ^ 16)) }
{
    let mut next = List::new(alloc);
    for place in 0..count {
        let Some(state) = take_u16(bytes, STATE_LEN * place) else {
            return Ok(next);
        };
        next.push(state)?;
    }
    Ok(next)
}

// An answer in a byte.
fn answer_in(byte: u8) -> Option<bool>
    ensures { AreAnswers (byte ∷ []) (option_map (λ yes. yes ∷ []) result) }
{
    match byte {
        0 => Some(false),
        1 => Some(true),
        _ => None,
    }
}

// The answers in these bytes.
fn answers_in(alloc: Global, bytes: &[u8]) -> Result<Option<List<bool>>, AllocError>
    ensures { IfOk result (λ found. AreAnswers bytes.now found) }
{
    let mut yes = List::new(alloc);
    for byte in bytes {
        let Some(answer) = answer_in(*byte) else {
            return Ok(None);
        };
        yes.push(answer)?;
    }
    Ok(Some(yes))
}

/// The table of these bytes, where they are those of a table of this size whose parts fit each other.
pub(crate) fn table_in(
    alloc: Global,
    states: u16,
    symbols: u8,
    bytes: &[u8],
) -> Result<Option<Table>, AllocError>
    requires { length bytes.now ≡ table_length states symbols }
    ensures { IfOk result (λ found. TableOf states symbols bytes.now found) }
{
    let count = usize::from(states) * usize::from(symbols);
    let (rows, answers) = bytes.split_at(STATE_LEN * count);
    let next = states_in(alloc, rows, count)?;
    let Some(yes) = answers_in(alloc, answers)? else {
        return Ok(None);
    };
    Ok(Table::from_parts(states, symbols, next, yes))
}
