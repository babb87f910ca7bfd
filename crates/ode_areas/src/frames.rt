//! The frames of a journal are read, and what they change is made.
ghost use Rattle.std.specs.Prelude.{IfOk, IsErrOf, List, ℕ};
ghost use Rattle.ode_host.specs.Causes.{RoseIf};
ghost use Rattle.ode_host.specs.Host.{Looks, Tells};
ghost use Rattle.ode_journal.specs.Histories.{IsBadFrom, IsReplayed};
ghost use Rattle.ode_keep.specs.Entries.{applied};
ghost use Rattle.ode_keep.specs.Payloads.{IsPayload};

use crate::map::Map;
use crate::payload::replay;
use ode_host::Host;
use ode_journal::{Block, FRAME_HEAD, Journal, JournalError, next_frame};
use std::alloc::Global;

/// Makes the changes of all frames from the gate at `start` on, and answers where the journal stands behind them. All
/// places are offsets in the file. It is `BadJournal` at the first gate, in order, at which something is wrong.
pub(crate) fn replay_frames<H: Host>(
    alloc: Global,
    host: &mut H,
    start: u64,
    end: u64,
    map: &mut Map,
) -> Result<Journal, JournalError>
    ensures found { IfOk result (λ journal. (file : List ℕ) → Tells (H.view host.old) file
        → IsReplayed IsPayload applied start end map.old map.new journal file) }
    ensures bad { (at : ℕ) → IsErrOf result (JournalError.BadJournal at)
        → (file : List ℕ) → Tells (H.view host.old) file → IsBadFrom IsPayload start end at file }
    ensures looks { Looks (H.view host.old) (H.view host.new) }
    ensures cause { RoseIf (IsErrOf result JournalError.DiskFault) (H.view host.old).disk_faults (H.view host.new).disk_faults }
{
    let mut ahead = Block::new(alloc)?;
    let mut at = start;
    'frames: loop {
        let Some(payload) = next_frame(alloc, host, &mut ahead, at, end)? else {
            return Ok(Journal { at, end });
        };
        if !replay(alloc, payload.as_slice(), map)? {
            return Err(JournalError::BadJournal { at });
        }
        at += FRAME_HEAD as u64 + payload.len() as u64;
    }
}
