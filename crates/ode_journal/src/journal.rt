//! A frame is added to a journal.
ghost use Rattle.std.specs.Prelude.{◌≡◌, ◌<◌, ◌++◌, [], ◌∷◌, ◌↔◌, List, ℕ, OnOk, OnErr, IsErrOf};
ghost use Rattle.ode_host.specs.Host.{DiskCalls, LeavesOnly, Puts};

use crate::error::AppendError;
use crate::frame::Frame;
use ode_gate::OPEN;
use ode_host::{Host, write_synced};

/// Where a journal stands in a file. Both places are offsets, in bytes.
#[derive(Clone, Copy, Debug, PartialEq, Eq)]
pub struct Journal {
    /// Where its last gate stands, which is shut.
    pub at: u64,
    /// Where its region ends.
    pub end: u64,
}

impl Journal {
    ghost use Rattle.ode_journal.specs.Appends.{JournalStands, IsBeforeOrAfter, SameOutside, need_of, room_of, longer_by};

    /// Adds a full frame behind the last gate, and then opens that gate. A stop leaves the frame whole or not at all.
    /// At `AreaFull` nothing was written. After `DiskFault` the file is to be opened again, since the frame may be there.
    pub fn append<H: Host>(&mut self, host: &mut H, frame: &Frame) -> Result<(), AppendError>
        requires { frame.now.spare ≡ 0 }
        ensures acknowledged { OnOk result ((start : ℕ) (file : List ℕ) (frames : List (List ℕ))
            → JournalStands start frames file self.old (H.view host.old)
            → (next : List ℕ) × JournalStands start (frames ++ frame.now.payload ∷ []) next self.new (H.view host.new)
            × SameOutside start self.old.end file next) }
        ensures any_moment { (start : ℕ) (file : List ℕ) (frames : List (List ℕ))
            → JournalStands start frames file self.old (H.view host.old)
            → LeavesOnly (H.view host.old) (H.view host.new)
            (IsBeforeOrAfter start self.old.end frames frame.now.payload file (H.view host.old)) }
        ensures puts { OnOk result (Puts (need_of frame.now.payload) (H.view host.old) (H.view host.new)) }
        ensures longer { OnOk result (self.new ≡ longer_by self.old frame.now.payload) }
        ensures unchanged { OnErr result (self.new ≡ self.old) }
        ensures full { (need room : ℕ) → IsErrOf result (AppendError.AreaFull need room)
            ↔ ((need ≡ need_of frame.now.payload) × (room ≡ room_of self.old) × (room < need)) }
        ensures untouched { (need room : ℕ) → IsErrOf result (AppendError.AreaFull need room) → host.new ≡ host.old }
        ensures leaves { DiskCalls (IsErrOf result AppendError.DiskFault) (H.view host.old) (H.view host.new) }
    {
        let bytes = frame.as_bytes();
        let need = bytes.len() as u64 + 1;
        let room = self.end.saturating_sub(self.at);
        if room < need {
            return Err(AppendError::AreaFull { need, room });
        }
        write_synced(host, self.at + 1, bytes)?;
        write_synced(host, self.at, &[OPEN])?;
        self.at += bytes.len() as u64;
        Ok(())
    }
}
