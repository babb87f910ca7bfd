//! An example of a page.
ghost use Rattle.std.specs.Prelude.{◌≡◌, ◌≢◌, length, Err};

use crate::page::{NoRoom, PageOf};
use ode_value::Key;

/// In a page of 128 bytes an entry with a value of 100 leaves room for 7, and one with a value of 10 needs 29.
pub fn second_of_two(
    first: Key,
    second: Key,
    long: &[u8],
    short: &[u8],
) -> (usize, Result<(), NoRoom>)
    requires different { first ≢ second }
    requires long { length long.now ≡ 100 }
    requires short { length short.now ≡ 10 }
    ensures room { result.0 ≡ 7 }
    ensures refused { result.1 ≡ Err (record { need = 29; room = 7 }) }
{
    let mut page: PageOf<128> = PageOf::empty();
    let _ = page.put(first, long);
    let room = page.room();
    (room, page.put(second, short))
}
