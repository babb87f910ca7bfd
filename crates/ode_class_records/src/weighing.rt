//! What tables count more than their records take.
ghost use Rattle.std.specs.Prelude.{◌≡◌, ◌<◌, ◌^◌, length};
ghost use Rattle.ode_class_records.specs.Weighing.{spare_beside};
ghost use Rattle.ode_value.specs.Lengths.{trigger_length};

use ode_codec::TABLE_HEAD_LEN;
use ode_compile::{piece_count, table_length};
use ode_keep::KEY_LEN;
use ode_table::Table;

// The bytes of the records of a table of so many states and symbols.
fn weight_of(states: u16, symbols: u8) -> u64
    ensures weight { result ≡ trigger_length states symbols }
    ensures small { result < 2 ^ 27 }
{
    let bytes = table_length(states, symbols);
    let key = KEY_LEN as u64;
    key + TABLE_HEAD_LEN as u64 + (key * u64::from(piece_count(bytes)) + u64::from(bytes))
}

/// The bytes that the records of stored tables would take more with as many states as these, each with those beside it.
pub fn spare(counts: &[u16], stored: &[Table]) -> u64
    requires { length counts.now < 2 ^ 32 }
    ensures spare { result ≡ spare_beside counts.now stored.now }
    ensures small { result < 2 ^ 59 }
{
    let mut spare = 0;
    for (place, table) in stored.iter().enumerate() {
        if place < counts.len() {
            let own = weight_of(table.states(), table.symbols());
            spare += weight_of(counts[place], table.symbols()).saturating_sub(own);
        }
    }
    spare
}
