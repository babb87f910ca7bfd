//! Entries are read from the bytes of a page, one behind the other.
ghost use Rattle.std.specs.Prelude.{◌≡◌, ◌∷◌, [], ◌++◌, length, replicate, IsTrue, ◌↔◌, List, ℕ};
ghost use Rattle.std.specs.Option.{IfNone, IfSome};
ghost use Rattle.ode_value.specs.Records.{snapshot};
ghost use Rattle.ode_keep.specs.Entries.{Entries};
ghost use Rattle.ode_keep.specs.Snapshots.{FitsSnapshot};

use ode_keep::{first_row, next_row};
use ode_value::Key;
use std::marker::Model;

/// The entries of a page that are still to be read. Contracts see them.
#[derive(Drop)]
pub struct Reader<'a> {
    /// How many they are.
    pub(crate) left: u16,
    /// Their bytes, and others behind them.
    pub(crate) bytes: &'a [u8],
}

impl<'a> Model for Reader<'a> {
    ghost use Rattle.ode_keep.specs.Entries.{Entries};
    ghost use Rattle.ode_pages.specs.Readings.{BeginsWith, entries_at};

    ghost Value = { Entries };

    ghost view = { λ it. entries_at it.left it.bytes.now };

    ghost invariant = { λ it. BeginsWith (entries_at it.left it.bytes.now) it.bytes.now };
}

impl<'a> Reader<'a> {
    /// The next one.
    pub fn next(&mut self) -> Option<(Key, &'a [u8])>
        ensures some { IfSome result (λ e. self.old ≡ (e.0, e.1.now) ∷ self.new) }
        ensures none { IfNone result (self.old ≡ []) }
    {
        if self.left == 0 {
            return None;
        }
        let row = first_row(self.bytes)?;
        self.left -= 1;
        self.bytes = row.rest;
        Some((row.key, row.value))
    }
}

/// What stands behind so many entries in rising order of their keys, and none where the bytes don't begin with so many.
pub(crate) fn behind_entries(bytes: &[u8], count: u16) -> Option<&[u8]>
    ensures some { IfSome result (λ rest. (entries : Entries) × FitsSnapshot entries × (length entries ≡ count)
        × (bytes.now ≡ snapshot entries ++ rest.now)) }
    ensures none { IfNone result ((entries : Entries) (rest : List ℕ) → FitsSnapshot entries → length entries ≡ count
        → bytes.now ≡ snapshot entries ++ rest → ⊥) }
{
    let mut rest = bytes;
    let mut last = None;
    'entries: for _read in 0..count {
        let row = next_row(rest, last)?;
        last = Some(row.key);
        rest = row.rest;
    }
    Some(rest)
}

/// Whether the bytes are zeros.
pub(crate) fn are_zeros(bytes: &[u8]) -> bool
    ensures { IsTrue result ↔ (bytes.now ≡ replicate (length bytes.now) 0) }
{
    bytes.iter().all(|byte| *byte == 0)
}
