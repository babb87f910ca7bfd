//! A write that is on the disk when it returns.
ghost use Rattle.std.specs.Prelude.{List, ℕ, length, IsErr, OnOk, OnErr};
ghost use Rattle.ode_host.specs.Causes.{RoseIf};
ghost use Rattle.ode_host.specs.Host.{written_over, Stands, Tells, LeavesOnly, LeavesTorn, MayHaveWritten, Puts};

use crate::host::{Failed, Host};

/// Writes at an offset, and syncs. Until it answers `Ok` a stop may leave the write torn, and after an error it may read as
/// torn.
pub fn write_synced<H: Host>(host: &mut H, at: u64, from: &[u8]) -> Result<(), Failed>
    ensures stands { OnOk result (
        (file : List ℕ) → Tells (H.view host.old) file → Stands (written_over file at from.now) (H.view host.new)) }
    ensures torn { OnErr result (MayHaveWritten at (length from.now) (H.view host.old) (H.view host.new)) }
    ensures any_moment { (file : List ℕ) → Stands file (H.view host.old)
        → LeavesOnly (H.view host.old) (H.view host.new) (LeavesTorn at (length from.now) file (H.view host.old)) }
    ensures puts { Puts (length from.now) (H.view host.old) (H.view host.new) }
    ensures cause { RoseIf (IsErr result) (H.view host.old).disk_faults (H.view host.new).disk_faults }
{
    host.write_at(at, from)?;
    host.sync()
}
