//! Records that were copied out of a keeper, in two pieces of memory.
ghost use Rattle.std.specs.Prelude.{◌≡◌, [], ◌∷◌, IfOk};
ghost use Rattle.std.specs.Option.{IfNone, IfSome};

use ode_value::{Key, List};
use std::alloc::{AllocError, Global};
use std::marker::Model;

// How many bytes a short value has, for room that is made ahead.
const SHORT_VALUE: usize = 16;

/// Some records, one behind the other. Contracts see them so.
#[derive(Drop)]
pub struct Rows {
    // The keys, each with the length of its value.
    keys: Vec<(Key, usize)>,
    // The values, one behind the other.
    bytes: Vec<u8>,
}

impl Model for Rows {
    ghost use Rattle.std.specs.Prelude.{◌≡◌, length};
    ghost use Rattle.ode_keep.specs.Entries.{Entries};
    ghost use Rattle.ode_keep.specs.Spans.{span, spanned};

    ghost Value = { Entries };

    ghost view = { λ rows. spanned rows.keys.items rows.bytes.items };

    ghost invariant = { λ rows. span rows.keys.items ≡ length rows.bytes.items };
}

impl Rows {
    /// A copy of these records.
    pub fn copy(alloc: Global, rows: &[(Key, List<u8>)]) -> Result<Rows, AllocError>
        ensures { IfOk result (λ it. it ≡ rows.now) }
    {
        let mut keys = Vec::with_capacity(alloc, rows.len())?;
        let mut bytes = Vec::with_capacity(alloc, rows.len().saturating_mul(SHORT_VALUE))?;
        for (key, value) in rows {
            keys.push((*key, value.len()))?;
            bytes.extend_from_slice(value.as_slice())?;
        }
        Ok(Rows { keys, bytes })
    }

    /// All of them, to be read.
    pub fn reader(&self) -> Reader<'_>
        ensures { result ≡ self.now }
    {
        Reader {
            keys: self.keys.as_slice(),
            bytes: self.bytes.as_slice(),
        }
    }
}

/// The records that are still to be read.
#[derive(Drop)]
pub struct Reader<'a> {
    keys: &'a [(Key, usize)],
    bytes: &'a [u8],
}

impl<'a> Model for Reader<'a> {
    ghost use Rattle.std.specs.Prelude.{◌≡◌, length};
    ghost use Rattle.ode_keep.specs.Entries.{Entries};
    ghost use Rattle.ode_keep.specs.Spans.{span, spanned};

    ghost Value = { Entries };

    ghost view = { λ it. spanned it.keys.now it.bytes.now };

    ghost invariant = { λ it. span it.keys.now ≡ length it.bytes.now };
}

impl<'a> Reader<'a> {
    /// The next one.
    pub fn next(&mut self) -> Option<(Key, &'a [u8])>
        ensures some { IfSome result (λ e. self.old ≡ (e.0, e.1.now) ∷ self.new) }
        ensures none { IfNone result (self.old ≡ []) }
    {
        match self.keys {
            [] => None,
            [(key, length), keys @ ..] => {
                let (value, bytes) = self.bytes.split_at(*length);
                self.keys = keys;
                self.bytes = bytes;
                Some((*key, value))
            }
        }
    }
}
