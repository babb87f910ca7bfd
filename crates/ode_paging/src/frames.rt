//! The frames of a journal are read, and their images laid one over the other.
ghost use Rattle.std.specs.Prelude.{IfOk, IsErrOf, List, ℕ};
ghost use Rattle.ode_host.specs.Causes.{RoseIf};
ghost use Rattle.ode_host.specs.Host.{Looks, Tells};
ghost use Rattle.ode_journal.specs.Histories.{IsBadFrom, IsReplayed};
ghost use Rattle.ode_paging.specs.Images.{IsPayload};
ghost use Rattle.ode_paging.specs.Overlays.{laid};

use crate::images::Images;
use crate::payload::lay;
use ode_host::Host;
use ode_journal::{Block, FRAME_HEAD, Journal, JournalError, next_frame};
use std::alloc::Global;

/// Lays the images of all frames from the gate at `start` on over others, and answers where the journal stands behind
/// them. All places are offsets in the file. It is `BadJournal` at the first gate, in order, at which something is wrong.
pub(crate) fn lay_frames<H: Host>(
    alloc: Global,
    host: &mut H,
    start: u64,
    end: u64,
    images: &mut Images,
) -> Result<Journal, JournalError>
    ensures found { IfOk result (λ journal. (file : List ℕ) → Tells (H.view host.old) file
        → IsReplayed IsPayload laid start end images.old images.new journal file) }
    ensures bad { (at : ℕ) → IsErrOf result (JournalError.BadJournal at)
        → (file : List ℕ) → Tells (H.view host.old) file → IsBadFrom IsPayload start end at file }
    ensures looks { Looks (H.view host.old) (H.view host.new) }
    ensures cause { RoseIf (IsErrOf result JournalError.DiskFault) (H.view host.old).disk_faults (H.view host.new).disk_faults }
{
    let mut ahead = Block::new(alloc)?;
    let mut at = start;
    'frames: loop {
        let Some(payload) = next_frame(alloc, host, &mut ahead, at, end)? else {
            return Ok(Journal { at, end });
        };
        if !lay(alloc, payload.as_slice(), images)? {
            return Err(JournalError::BadJournal { at });
        }
        at += FRAME_HEAD as u64 + payload.len() as u64;
    }
}
