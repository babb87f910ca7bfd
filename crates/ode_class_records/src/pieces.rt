//! The pieces of a text or a table.
ghost use Rattle.std.specs.Prelude.{◌≡◌, ◌*◌, ◌<◌, ◌^◌, OnOk, drop, length, map, take};
ghost use Rattle.ode_value.specs.Lengths.{piece_count};
ghost use Rattle.ode_value.specs.Limits.{value_limit};
ghost use Rattle.ode_codec.specs.Rules.{IsCounted, IsPiece};
ghost use Rattle.ode_codec.specs.Spelling.{spelled};
ghost use Rattle.ode_codec.specs.StoredRows.{pieces_of};
ghost use Rattle.ode_class_records.specs.ClassRows.{piece_row};
ghost use Rattle.ode_class_records.specs.Puts.{with_rows};

use crate::putting::put;
use ode_codec::Record;
use ode_keep::Batch;
use ode_value::List;
use ode_value::limits::VALUE_LIMIT;
use std::alloc::{AllocError, Global};

/// What a piece is of.
#[derive(Clone, Copy, Debug, PartialEq, Eq)]
pub(crate) enum Parted {
    Text,
    /// The table of the trigger at this place.
    Table(u16),
}

// A piece with its number.
#[tactic(auto, unfolding(ode_codec::specs::Spelling::key_of, ode_codec::specs::Spelling::value_of, ode_codec::specs::Rules::IsCounted))]
fn piece_record(class: u32, of: Parted, place: u16, bytes: List<u8>) -> Record
    requires { IsPiece bytes }
    ensures spelled { spelled result ≡ piece_row class of (place, bytes) }
    ensures kept { IsCounted result }
{
    match of {
        Parted::Text => Record::ClassPiece {
            class,
            piece: u32::from(place),
            bytes,
        },
        Parted::Table(trigger) => Record::TablePiece {
            class,
            trigger,
            piece: place,
            bytes,
        },
    }
}

// The bytes of a piece.
#[tactic(auto, unfolding(ode_value::specs::Limits::value_limit))]
fn piece(bytes: &[u8], place: u16) -> &[u8]
    requires { place < piece_count (length bytes.now) }
    ensures bytes { result.now ≡ take value_limit (drop (place * value_limit) bytes.now) }
    ensures piece { IsPiece result.now }
{
    let (_, rest) = bytes.split_at(usize::from(place) * VALUE_LIMIT);
    let (first, _) = rest.split_at(VALUE_LIMIT.min(rest.len()));
    first
}

// How many pieces there are.
#[tactic(auto, unfolding(ode_value::specs::Limits::value_limit))]
fn piece_count(length: usize) -> u16
    requires { piece_count length < 2 ^ 16 }
    ensures { result ≡ piece_count length }
{
    ((length + (VALUE_LIMIT - 1)) / VALUE_LIMIT) as u16
}

/// Puts the pieces of some bytes, of which all but the last are full.
pub(crate) fn put_pieces(
    alloc: Global,
    batch: &mut Batch,
    class: u32,
    of: Parted,
    bytes: &[u8],
) -> Result<(), AllocError>
    requires { piece_count (length bytes.now) < 2 ^ 16 }
    ensures { OnOk result (batch.new ≡ with_rows (map (piece_row class of) (pieces_of bytes.now)) batch.old) }
{
    for place in 0..piece_count(bytes.len()) {
        let one = List::from_slice(alloc, piece(bytes, place))?;
        put(alloc, batch, &piece_record(class, of, place, one))?;
    }
    Ok(())
}
