//! The records of a table.
ghost use Rattle.std.specs.Prelude.{◌≡◌, ◌<◌, ◌+◌, ◌*◌, ◌^◌, IfOk, IfSome, IsErrOf, IsTrue, length, min};
ghost use Rattle.ode_host.specs.Causes.{RoseIf};
ghost use Rattle.ode_host.specs.Host.{Looks};
ghost use Rattle.ode_keep.specs.Entries.{Entries, value_under};
ghost use Rattle.ode_opening_tables.specs.Answers.{IsHeadOf, IsPiece, Joins, TableUnder};
ghost use Rattle.ode_passes.specs.Answers.{OnBroken, UnlessFault, is_usable};
ghost use Rattle.ode_value.specs.Keys.{key, table_piece_kind};
ghost use Rattle.ode_value.specs.Lengths.{piece_count};
ghost use Rattle.ode_value.specs.Limits.{value_limit};

use crate::bytes::{size_in, table_in};
use ode_codec::TABLE_PLACES;
use ode_compile::table_length;
use ode_host::Host;
use ode_keep::Keep;
use ode_passes::OpenError;
use ode_table::Table;
use ode_value::limits::VALUE_LIMIT;
use ode_value::{Key, List};
use std::alloc::Global;

/// A trigger by the class that declares it and its place there.
#[derive(Clone, Copy, Debug, PartialEq, Eq)]
pub(crate) struct Place {
    pub(crate) class: u32,
    pub(crate) trigger: u16,
}

// The size in a table's head.
fn read_size<H: Host, K: Keep<H>>(
    keeper: &mut K,
    host: &mut H,
    place: Place,
) -> Result<Option<(u16, u8)>, OpenError>
    requires live { IsTrue (K.live keeper.old) }
    ensures meant { IfOk result (λ size. (entries : Entries) → K.holds keeper.old (H.view host.old) entries
        → IsHeadOf entries place.class place.trigger size) }
    ensures small { IfOk result (λ size. IfSome size (λ s. (s.0 < 2 ^ 16) × (s.1 < 2 ^ 8))) }
    ensures unbroken { OnBroken result ((entries : Entries) → K.holds keeper.old (H.view host.old) entries → ⊥) }
    ensures holds { UnlessFault result ((entries : Entries) → K.holds keeper.old (H.view host.old) entries
        → K.holds keeper.new (H.view host.new) entries) }
    ensures looks { Looks (H.view host.old) (H.view host.new) }
    ensures usable { K.live keeper.new ≡ is_usable result }
    ensures cause { RoseIf (IsErrOf result OpenError.DiskFault) (H.view host.old).disk_faults (H.view host.new).disk_faults }
{
    let head = Key {
        kind: Key::TABLE_HEAD,
        a: u64::from(place.class),
        b: u64::from(place.trigger),
    };
    match keeper.get(host, head)? {
        Some(value) => Ok(size_in(value.as_slice())),
        None => Ok(None),
    }
}

fn piece_key(place: Place, piece: u16) -> Key
    ensures { result ≡ key table_piece_kind place.class (place.trigger * TABLE_PLACES + piece) }
{
    Key {
        kind: Key::TABLE_PIECE,
        a: u64::from(place.class),
        b: u64::from(place.trigger) * u64::from(TABLE_PLACES) + u64::from(piece),
    }
}

// A piece of a table of which so many bytes are left: all pieces but the last are full.
#[tactic(auto, unfolding(ode_value::specs::Limits::value_limit))]
fn read_piece<H: Host, K: Keep<H>>(
    keeper: &mut K,
    host: &mut H,
    key: Key,
    left: usize,
) -> Result<Option<List<u8>>, OpenError>
    requires live { IsTrue (K.live keeper.old) }
    ensures meant { IfOk result (λ found. (entries : Entries) → K.holds keeper.old (H.view host.old) entries
        → IsPiece (value_under entries key) left found) }
    ensures long { IfOk result (λ found. IfSome found (λ piece. length piece ≡ min left value_limit)) }
    ensures unbroken { OnBroken result ((entries : Entries) → K.holds keeper.old (H.view host.old) entries → ⊥) }
    ensures holds { UnlessFault result ((entries : Entries) → K.holds keeper.old (H.view host.old) entries
        → K.holds keeper.new (H.view host.new) entries) }
    ensures looks { Looks (H.view host.old) (H.view host.new) }
    ensures usable { K.live keeper.new ≡ is_usable result }
    ensures cause { RoseIf (IsErrOf result OpenError.DiskFault) (H.view host.old).disk_faults (H.view host.new).disk_faults }
{
    match keeper.get(host, key)? {
        Some(piece) if piece.len() == left.min(VALUE_LIMIT) => Ok(Some(piece)),
        _ => Ok(None),
    }
}

// The bytes of a table, so many, out of its pieces, whose numbers two bytes count.
fn read_bytes<H: Host, K: Keep<H>>(
    alloc: Global,
    keeper: &mut K,
    host: &mut H,
    place: Place,
    count: usize,
) -> Result<Option<List<u8>>, OpenError>
    requires live { IsTrue (K.live keeper.old) }
    requires few { piece_count count < 2 ^ 16 }
    ensures meant { IfOk result (λ found. (entries : Entries) → K.holds keeper.old (H.view host.old) entries
        → Joins entries place.class place.trigger count found) }
    ensures count { IfOk result (λ found. IfSome found (λ bytes. length bytes ≡ count)) }
    ensures unbroken { OnBroken result ((entries : Entries) → K.holds keeper.old (H.view host.old) entries → ⊥) }
    ensures holds { UnlessFault result ((entries : Entries) → K.holds keeper.old (H.view host.old) entries
        → K.holds keeper.new (H.view host.new) entries) }
    ensures looks { Looks (H.view host.old) (H.view host.new) }
    ensures usable { K.live keeper.new ≡ is_usable result }
    ensures cause { RoseIf (IsErrOf result OpenError.DiskFault) (H.view host.old).disk_faults (H.view host.new).disk_faults }
{
    let mut bytes = Vec::new(alloc);
    let mut piece = 0u16;
    while bytes.len() < count {
        let left = count - bytes.len();
        let Some(next) = read_piece(keeper, host, piece_key(place, piece), left)? else {
            return Ok(None);
        };
        bytes.extend_from_slice(next.as_slice())?;
        piece += 1;
    }
    Ok(Some(List::from_vec(bytes)))
}

/// The table that is stored under a class and a place there, where there is one whose parts fit each other.
pub(crate) fn read_table<H: Host, K: Keep<H>>(
    alloc: Global,
    keeper: &mut K,
    host: &mut H,
    place: Place,
) -> Result<Option<Table>, OpenError>
    requires live { IsTrue (K.live keeper.old) }
    ensures meant { IfOk result (λ found. (entries : Entries) → K.holds keeper.old (H.view host.old) entries
        → TableUnder entries place.class place.trigger found) }
    ensures unbroken { OnBroken result ((entries : Entries) → K.holds keeper.old (H.view host.old) entries → ⊥) }
    ensures holds { UnlessFault result ((entries : Entries) → K.holds keeper.old (H.view host.old) entries
        → K.holds keeper.new (H.view host.new) entries) }
    ensures looks { Looks (H.view host.old) (H.view host.new) }
    ensures usable { K.live keeper.new ≡ is_usable result }
    ensures cause { RoseIf (IsErrOf result OpenError.DiskFault) (H.view host.old).disk_faults (H.view host.new).disk_faults }
{
    let Some((states, symbols)) = read_size(keeper, host, place)? else {
        return Ok(None);
    };
    let count = table_length(states, symbols) as usize;
    let Some(bytes) = read_bytes(alloc, keeper, host, place, count)? else {
        return Ok(None);
    };
    Ok(table_in(alloc, states, symbols, bytes.as_slice())?)
}
