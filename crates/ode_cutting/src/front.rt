//! The records at the front of a snapshot that a page has room for.
ghost use Rattle.std.specs.Prelude.{◌≡◌, ◌+◌, ◌≤◌, length};
ghost use Rattle.std.specs.List.{AllByRecursion};
ghost use Rattle.ode_keep.specs.Entries.{Entries};
ghost use Rattle.ode_keep.specs.Snapshots.{FitsRow};
ghost use Rattle.ode_value.specs.Records.{snapshot};
ghost use Rattle.ode_cutting.specs.Cutting.{IsFront};

use ode_gate::PAGE_LEN;
use ode_keep::first_row;
use ode_pages::COUNT_LEN;

/// So many bytes of a page are for its records.
pub const PAGE_ROOM: usize = PAGE_LEN as usize - COUNT_LEN;

/// Records at the front of a snapshot: how many they are, and how many bytes they have.
#[derive(Clone, Copy)]
pub(crate) struct Front {
    pub(crate) rows: u16,
    pub(crate) bytes: usize,
}

/// As many records at the front of a snapshot as a page has room for.
pub(crate) fn front_of(bytes: &[u8]) -> Front
    ensures within { result.bytes ≤ length bytes.now }
    ensures room { result.bytes ≤ PAGE_ROOM }
    ensures front { (entries : Entries) → bytes.now ≡ snapshot entries → AllByRecursion FitsRow entries → IsFront entries result }
{
    let mut front = Front { rows: 0, bytes: 0 };
    let mut rest = bytes;
    'rows: loop {
        let Some(row) = first_row(rest) else {
            return front;
        };
        let end = bytes.len() - row.rest.len();
        if end > PAGE_ROOM {
            return front;
        }
        front = Front {
            rows: front.rows + 1,
            bytes: end,
        };
        rest = row.rest;
    }
}
