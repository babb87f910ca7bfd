//! The records move to area 1, which leaves area 0 free.
ghost use Rattle.std.specs.Prelude.{◌≡◌, ◌≢◌, ◌≤◌, IfOk, IsErrOf, IsTrue, OnOk};
ghost use Rattle.ode_gate.specs.Changes.{WritesAtMost};
ghost use Rattle.ode_host.specs.Host.{DiskCalls, LeavesOnly, Looks};
ghost use Rattle.ode_keep.specs.Entries.{Entries};
ghost use Rattle.ode_keep.specs.Keeping.{OnDamaged, OnRefusal, OnTooLarge, is_usable};
ghost use Rattle.ode_keep.specs.Snapshots.{IsSnapshot};
ghost use Rattle.ode_areas.specs.Holding.{AreasHold, IsInOne, header_of, held, held_bytes, is_live};
ghost use Rattle.ode_areas.specs.Steps.{LeavesMap, checkpoint_length};

use crate::areas::Areas;
use crate::plan::checkpoint_of;
use crate::snapshot::{snapshot_length, snapshot_of};
use crate::steps::move_over;
use ode_gate::{AREA_0, Header};
use ode_host::Host;
use ode_keep::{KeepError, MAX_RECORD_BYTES};
use std::alloc::{AllocError, Global};

impl Areas {
    // Moves the records to the other area, in a checkpoint.
    fn move_to_other<H: Host>(&mut self, host: &mut H) -> Result<(), KeepError>
        requires live { IsTrue (is_live self.old) }
        requires within { held_bytes self.old ≤ MAX_RECORD_BYTES }
        ensures moved { OnOk result ((entries : Entries) → AreasHold self.old (H.view host.old) entries
            → AreasHold self.new (H.view host.new) entries) }
        ensures other { OnOk result ((header_of self.new).body_at ≢ (header_of self.old).body_at) }
        ensures any_moment { (entries : Entries) → AreasHold self.old (H.view host.old) entries
            → LeavesOnly (H.view host.old) (H.view host.new) (LeavesMap entries (H.view host.old)) }
        ensures refused { OnRefusal result (self.new ≡ self.old) }
        ensures looks { OnRefusal result (Looks (H.view host.old) (H.view host.new)) }
        ensures not_too_large { OnTooLarge result (λ _. ⊥) }
        ensures not_damaged { OnDamaged result ⊥ }
        ensures most { OnOk result ((entries : Entries) → AreasHold self.old (H.view host.old) entries
            → WritesAtMost (checkpoint_length entries) (H.view host.old) (H.view host.new)) }
        ensures leaves { DiskCalls (IsErrOf result KeepError.DiskFault) (H.view host.old) (H.view host.new) }
        ensures usable { is_live self.new ≡ is_usable result }
    {
        let length = snapshot_length(&self.map);
        let checkpoint = checkpoint_of(self.alloc, &self.header, &self.map, length)?;
        match move_over(host, &mut self.header, &mut self.journal, &checkpoint) {
            Ok(()) => Ok(()),
            Err(_) => {
                self.is_live = false;
                Err(KeepError::DiskFault)
            }
        }
    }

    /// Moves the records to area 1, in a checkpoint, where they stand in area 0, and leaves them there where they stand in
    /// it already. A stop on the way leaves the same records. At `Memory` nothing changed.
    pub fn move_to_one<H: Host>(&mut self, host: &mut H) -> Result<(), KeepError>
        requires live { IsTrue (is_live self.old) }
        requires within { held_bytes self.old ≤ MAX_RECORD_BYTES }
        ensures moved { OnOk result ((entries : Entries) → AreasHold self.old (H.view host.old) entries
            → AreasHold self.new (H.view host.new) entries × IsInOne self.new) }
        ensures there { IsInOne self.old → Looks (H.view host.old) (H.view host.new) }
        ensures any_moment { (entries : Entries) → AreasHold self.old (H.view host.old) entries
            → LeavesOnly (H.view host.old) (H.view host.new) (LeavesMap entries (H.view host.old)) }
        ensures refused { OnRefusal result (self.new ≡ self.old) }
        ensures looks { OnRefusal result (Looks (H.view host.old) (H.view host.new)) }
        ensures not_too_large { OnTooLarge result (λ _. ⊥) }
        ensures not_damaged { OnDamaged result ⊥ }
        ensures most { OnOk result ((entries : Entries) → AreasHold self.old (H.view host.old) entries
            → WritesAtMost (checkpoint_length entries) (H.view host.old) (H.view host.new)) }
        ensures leaves { DiskCalls (IsErrOf result KeepError.DiskFault) (H.view host.old) (H.view host.new) }
        ensures usable { is_live self.new ≡ is_usable result }
    {
        if self.header.body_at != AREA_0 {
            return Ok(());
        }
        self.move_to_other(host)
    }

    /// The header under which its records stand.
    pub fn header(&self) -> &Header
        ensures { result.now ≡ header_of self.now }
    {
        &self.header
    }

    /// The snapshot of its records.
    pub fn snapshot(&self, alloc: Global) -> Result<Vec<u8>, AllocError>
        ensures { IfOk result (λ bytes. IsSnapshot (held self.now) bytes.items) }
    {
        snapshot_of(alloc, &self.map)
    }
}
