//! How many records a class takes.
ghost use Rattle.std.specs.Prelude.{◌≡◌, ◌+◌, ◌<◌, ◌^◌, IfSome, length};
ghost use Rattle.ode_value.specs.Lengths.{class_records, piece_count, table_length, table_records};
ghost use Rattle.ode_compile.specs.Compiling.{counted_sizes};

use ode_table::Table;
use ode_value::limits::VALUE_LIMIT;

/// How many pieces so many bytes have.
#[tactic(auto, unfolding(ode_value::specs::Limits::value_limit))]
pub fn piece_count(length: u32) -> u32
    ensures count { result ≡ piece_count length }
    ensures small { result < 2 ^ 21 }
{
    let limit = VALUE_LIMIT as u64;
    ((u64::from(length) + (limit - 1)) / limit) as u32
}

/// How many bytes a table of so many states and symbols has.
pub fn table_length(states: u16, symbols: u8) -> u32
    ensures { result ≡ table_length states symbols }
{
    let states = u32::from(states);
    2 * (states * u32::from(symbols)) + states
}

// A table's head and its pieces.
fn table_records(states: u16, symbols: u8) -> u32
    ensures { result ≡ table_records (states, symbols) }
{
    1 + piece_count(table_length(states, symbols))
}

/// How many records a class with this text and these tables takes, each of which counts with so many states, where 32 bits count the
/// text's bytes and the records.
pub(crate) fn class_records(text: &[u8], counts: &[u16], tables: &[Table]) -> Option<u32>
    requires { length counts.now ≡ length tables.now }
    ensures { IfSome result (λ count. count ≡ class_records (length text.now) (counted_sizes counts.now tables.now)) }
{
    let length = u32::try_from(text.len()).ok()?;
    let mut count = 1 + piece_count(length);
    for (place, table) in tables.iter().enumerate() {
        count = count.checked_add(table_records(counts[place], table.symbols()))?;
    }
    Some(count)
}
