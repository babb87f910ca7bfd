//! The header is changed: its slot is closed, filled and opened.
ghost use Rattle.std.specs.Prelude.{◌≡◌, ◌+◌, ◌≤◌, ◌↔◌, [], ◌∷◌, List, ℕ, IfOk, IfErr, IsErr, OnOk, IsTrue};
ghost use Rattle.ode_host.specs.Causes.{RoseIf};
ghost use Rattle.ode_host.specs.Host.{DiskCalls, Looks, LeavesOnly, LeavesTorn, Puts, Stands, Tells, written_over};
ghost use Rattle.ode_gate.specs.declared.error.GateError.TheVariants.{DiskFault};
ghost use Rattle.ode_gate.specs.declared.header.Header.{Header};
ghost use Rattle.ode_gate.specs.Headers.{header_bytes};
ghost use Rattle.ode_gate.specs.Slots.{IsOpen, IsShut, IsSlot, bytes_of, place_of};
ghost use Rattle.ode_gate.specs.Changes.{IsChanged, LeavesHeader, MayReplace, WritesAtMost, header_change_length};

use crate::error::GateError;
use crate::gate::{OPEN, SHUT};
use crate::header::Header;
use crate::places::{HEADER_LEN, SLOT_LEN};
use crate::slot::place_of;
use ode_host::{Failed, Host, read_whole, write_synced};

// Whether the gate at a place is open.
fn is_open<H: Host>(host: &mut H, slot: u8) -> Result<bool, Failed>
    requires { IsSlot slot }
    ensures opened { IfOk result (λ b. (image : List ℕ) → Tells (H.view host.old) image
        → (IsTrue b ↔ IsOpen (bytes_of slot image))) }
    ensures looks { Looks (H.view host.old) (H.view host.new) }
    ensures cause { RoseIf (IsErr result) (H.view host.old).disk_faults (H.view host.new).disk_faults }
{
    let mut gate = [SHUT];
    let count = read_whole(host, place_of(slot), &mut gate)?;
    Ok(count == 1 && gate[0] == OPEN)
}

/// Closes the gate of a slot and syncs. Where the gate already reads closed nothing is written.
pub fn close_slot<H: Host>(host: &mut H, slot: u8) -> Result<(), GateError>
    requires { IsSlot slot }
    ensures nothing { (image : List ℕ) → Tells (H.view host.old) image → IsShut (bytes_of slot image)
        → Looks (H.view host.old) (H.view host.new) }
    ensures closed { OnOk result ((image : List ℕ) → Tells (H.view host.old) image → IsOpen (bytes_of slot image)
        → Stands (written_over image (place_of slot) (SHUT ∷ [])) (H.view host.new)) }
    ensures any_moment { (image : List ℕ) → Stands image (H.view host.old)
        → LeavesOnly (H.view host.old) (H.view host.new) (LeavesTorn (place_of slot) 1 image (H.view host.old)) }
    ensures most { OnOk result (WritesAtMost 1 (H.view host.old) (H.view host.new)) }
    ensures kind { IfErr result (λ e. e ≡ DiskFault) }
    ensures leaves { DiskCalls (IsErr result) (H.view host.old) (H.view host.new) }
{
    if is_open(host, slot)? {
        write_synced(host, place_of(slot), &[SHUT])?;
    }
    Ok(())
}

/// Writes a header behind the gate of a slot and syncs. The buffer is room to spell it in.
pub fn fill_slot<H: Host>(
    host: &mut H,
    slot: u8,
    h: &Header,
    buffer: &mut [u8; SLOT_LEN],
) -> Result<(), GateError>
    requires { IsSlot slot }
    ensures filled { OnOk result ((image : List ℕ) → Tells (H.view host.old) image
        → Stands (written_over image (place_of slot + 1) (header_bytes h.now)) (H.view host.new)) }
    ensures any_moment { (image : List ℕ) → Stands image (H.view host.old)
        → LeavesOnly (H.view host.old) (H.view host.new) (LeavesTorn (place_of slot + 1) HEADER_LEN image (H.view host.old)) }
    ensures puts { Puts HEADER_LEN (H.view host.old) (H.view host.new) }
    ensures kind { IfErr result (λ e. e ≡ DiskFault) }
    ensures cause { RoseIf (IsErr result) (H.view host.old).disk_faults (H.view host.new).disk_faults }
{
    h.fill(buffer);
    write_synced(host, place_of(slot) + 1, &buffer[1..])?;
    Ok(())
}

/// Opens the gate of a slot and syncs.
pub fn open_slot<H: Host>(host: &mut H, slot: u8) -> Result<(), GateError>
    requires { IsSlot slot }
    ensures opened { OnOk result ((image : List ℕ) → Tells (H.view host.old) image
        → Stands (written_over image (place_of slot) (OPEN ∷ [])) (H.view host.new)) }
    ensures any_moment { (image : List ℕ) → Stands image (H.view host.old)
        → LeavesOnly (H.view host.old) (H.view host.new) (LeavesTorn (place_of slot) 1 image (H.view host.old)) }
    ensures puts { Puts 1 (H.view host.old) (H.view host.new) }
    ensures kind { IfErr result (λ e. e ≡ DiskFault) }
    ensures cause { RoseIf (IsErr result) (H.view host.old).disk_faults (H.view host.new).disk_faults }
{
    write_synced(host, place_of(slot), &[OPEN])?;
    Ok(())
}

/// Writes a header into the slot that it names, beside the one that counts: closes the slot, fills it, and opens it.
/// A stop leaves the one or the other. The buffer is room to spell it in.
pub fn change_header<H: Host>(
    host: &mut H,
    h: &Header,
    buffer: &mut [u8; SLOT_LEN],
) -> Result<(), GateError>
    requires { IsSlot h.now.slot }
    ensures changed { OnOk result ((image : List ℕ) (older : Header) → MayReplace image older h.now
        → Stands image (H.view host.old)
        → (next : List ℕ) × Stands next (H.view host.new) × IsChanged image h.now next) }
    ensures any_moment { (image : List ℕ) (older : Header) → MayReplace image older h.now
        → Stands image (H.view host.old)
        → LeavesOnly (H.view host.old) (H.view host.new) (LeavesHeader image older h.now (H.view host.old)) }
    ensures most { OnOk result (WritesAtMost header_change_length (H.view host.old) (H.view host.new)) }
    ensures kind { IfErr result (λ e. e ≡ DiskFault) }
    ensures leaves { DiskCalls (IsErr result) (H.view host.old) (H.view host.new) }
{
    close_slot(host, h.slot)?;
    fill_slot(host, h.slot, h, buffer)?;
    open_slot(host, h.slot)
}
