//! Pages are spelled as a frame.
ghost use Rattle.std.specs.Prelude.{◌≡◌, ◌+◌, ◌<◌, ◌≤◌, ◌++◌, length, IfOk};
ghost use Rattle.std.specs.Int.{w32, to_be_bytes};
ghost use Rattle.std.specs.Option.{IfNone, IfSome};
ghost use Rattle.ode_journal.specs.Appends.{need_of};
ghost use Rattle.ode_keep.specs.Entries.{Entries};
ghost use Rattle.ode_keep.specs.Snapshots.{IsSnapshot};
ghost use Rattle.ode_cutting.specs.Cutting.{FitFrame, SpellsPagesOf};

use crate::cutting::{Pages, cut};
use ode_gate::REGION_LEN;
use ode_journal::{FRAME_BYTES, Frame};
use ode_keep::COUNT_LEN;
use std::alloc::{AllocError, Global};

/// Bytes in the keys and values of records that one frame of pages has room for in any case.
pub const MAX_MOVED_BYTES: u64 = 12_582_912;

// A full frame of pages. None where an empty region has no room for it.
fn frame_of(alloc: Global, pages: &Pages) -> Result<Option<Frame>, AllocError>
    ensures payload { IfOk result (λ found. IfSome found (λ frame.
        frame.payload ≡ to_be_bytes w32 pages.now.count ++ pages.now.images.items)) }
    ensures full { IfOk result (λ found. IfSome found (λ frame. frame.spare ≡ 0)) }
    ensures fits { IfOk result (λ found. IfSome found (λ frame. need_of frame.payload ≤ REGION_LEN)) }
    ensures long { IfOk result (λ found. IfNone found (REGION_LEN < COUNT_LEN + length pages.now.images.items + FRAME_BYTES)) }
{
    let length = COUNT_LEN + pages.images.len();
    if length > REGION_LEN as usize - FRAME_BYTES {
        return Ok(None);
    }
    let mut frame = Frame::reserve(alloc, length as u32)?;
    frame.push(&pages.count.to_be_bytes());
    frame.push(&pages.images);
    Ok(Some(frame))
}

/// A full frame with the images of pages that have the records of a snapshot between them, from page 0 on. It fits an empty
/// region. None where a record is too long for a page, or all are too many for a frame.
pub fn frame_of_pages(alloc: Global, bytes: &[u8]) -> Result<Option<Frame>, AllocError>
    ensures pages { IfOk result (λ found. IfSome found (λ frame. (entries : Entries) → IsSnapshot entries bytes.now
        → SpellsPagesOf entries frame.payload)) }
    ensures full { IfOk result (λ found. IfSome found (λ frame. frame.spare ≡ 0)) }
    ensures fits { IfOk result (λ found. IfSome found (λ frame. need_of frame.payload ≤ REGION_LEN)) }
    ensures long { IfOk result (λ found. IfNone found ((entries : Entries) → IsSnapshot entries bytes.now → FitFrame entries → ⊥)) }
{
    let Some(pages) = cut(alloc, bytes)? else {
        return Ok(None);
    };
    frame_of(alloc, &pages)
}
