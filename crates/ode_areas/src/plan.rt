//! What a commit writes before its frame.
ghost use Rattle.std.specs.Prelude.{◌≡◌, ◌<◌, ◌≤◌, ◌++◌, [], ◌∷◌, IfOk, MatchOption};
ghost use Rattle.std.specs.Bool.{OnFalse, OnTrue};
ghost use Rattle.std.specs.Option.{IfSome};
ghost use Rattle.ode_gate.specs.Slots.{IsSlot};
ghost use Rattle.ode_journal.specs.Appends.{room_of};
ghost use Rattle.ode_value.specs.Records.{snapshot};
ghost use Rattle.ode_areas.specs.Steps.{HasNoPlace, HasPlace, IsNext, MovesOver, empty_under};

use crate::map::Map;
use crate::snapshot::{shut_snapshot, snapshot_length};
use ode_gate::{
    AREA_0, AREA_1, AREA_LEN, AREAS_END, FIRST_FORMAT, Header, SHUT, TWO_AREAS, next_generation,
};
use ode_journal::{Frame, Journal};
use std::alloc::{AllocError, Global};

/// A snapshot for the other area, with a shut gate behind it, and the header that is to follow.
#[derive(Drop)]
pub(crate) struct Checkpoint {
    pub(crate) header: Header,
    pub(crate) bytes: Vec<u8>,
}

/// What a commit writes.
#[derive(Drop)]
pub(crate) enum Ready {
    /// A frame, and before it a checkpoint where one is due.
    Framed {
        frame: Frame,
        due: Option<Checkpoint>,
    },
    /// A checkpoint of the records behind the batch, where its frame has no place.
    Moved {
        checkpoint: Checkpoint,
    },
}

// The header of the other area, in the other slot, over a snapshot of this length.
fn next_header(older: &Header, length: u64) -> Header
    requires { length < AREA_LEN }
    ensures follows { IsNext older.now result }
    ensures long { result.body_len ≡ length }
{
    let (body_at, journal_end) = if older.body_at == AREA_0 {
        (AREA_1, AREAS_END)
    } else {
        (AREA_0, AREA_1)
    };
    let slot = if older.slot == 0 { 1 } else { 0 };
    Header {
        format: FIRST_FORMAT,
        layout: TWO_AREAS,
        generation: next_generation(older.generation),
        body_at,
        body_len: length,
        journal_at: body_at + length,
        journal_end,
        slot,
    }
}

/// A checkpoint of these records, of which the snapshot has this length, into the other area.
pub(crate) fn checkpoint_of(
    alloc: Global,
    header: &Header,
    map: &Map,
    size: u64,
) -> Result<Checkpoint, AllocError>
    requires { size < AREA_LEN }
    ensures follows { IfOk result (λ c. IsNext header.now c.header) }
    ensures long { IfOk result (λ c. c.header.body_len ≡ size) }
    ensures spelled { IfOk result (λ c. c.bytes.items ≡ snapshot map.now ++ SHUT ∷ []) }
{
    let bytes = shut_snapshot(alloc, map, size as usize)?;
    let header = next_header(header, size);
    Ok(Checkpoint { header, bytes })
}

// Whether a journal has room for a frame that takes so many bytes.
fn has_room(journal: &Journal, need: u64) -> bool
    ensures fits { OnTrue result (need ≤ room_of journal.now) }
    ensures full { OnFalse result (room_of journal.now < need) }
{
    need <= journal.end.saturating_sub(journal.at)
}

/// Whether a frame that takes so many bytes fits its journal, or an area behind a snapshot of these records.
pub(crate) fn has_place(journal: &Journal, map: &Map, need: u64) -> bool
    ensures place { OnTrue result (HasPlace journal.now map.now need) }
    ensures none { OnFalse result (HasNoPlace journal.now map.now need) }
{
    has_room(journal, need) || snapshot_length(map).saturating_add(need) <= AREA_LEN
}

/// The checkpoint that is due before a frame that takes so many bytes, and none where the frame fits its journal.
pub(crate) fn checkpoint_for(
    alloc: Global,
    header: &Header,
    journal: &Journal,
    map: &Map,
    need: u64,
) -> Result<Option<Checkpoint>, AllocError>
    requires { HasPlace journal.now map.now need }
    ensures room { IfOk result (λ due. MatchOption due (need ≤ room_of journal.now)
        (λ c. need ≤ room_of (empty_under c.header))) }
    ensures needed { IfOk result (λ due. IfSome due (λ c. room_of journal.now < need)) }
    ensures moves { IfOk result (λ due. IfSome due (λ c. MovesOver header.now map.now c.header c.bytes.items)) }
    ensures slot { IfOk result (λ due. IfSome due (λ c. IsSlot c.header.slot)) }
{
    if has_room(journal, need) {
        return Ok(None);
    }
    let checkpoint = checkpoint_of(alloc, header, map, snapshot_length(map))?;
    Ok(Some(checkpoint))
}
