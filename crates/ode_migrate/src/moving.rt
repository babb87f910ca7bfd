//! Records of area 1 become pages.
ghost use Rattle.std.specs.Prelude.{◌≡◌, ◌≤◌, IsErr, OnOk};
ghost use Rattle.ode_cutting.specs.Cutting.{SpellsPagesOf};
ghost use Rattle.ode_gate.specs.Slots.{IsSlot};
ghost use Rattle.ode_host.specs.Host.{DiskCalls, LeavesOnly};
ghost use Rattle.ode_journal.specs.Appends.{need_of};
ghost use Rattle.ode_keep.specs.Entries.{Entries};
ghost use Rattle.ode_migrate.specs.Migrating.{IsMigratedTo, IsStaged, LeavesRecords, StandInOne, paged};

use crate::renewing::slot_beside;
use ode_gate::{
    FORMAT, Header, PAGES, PAGES_AT, REGION_0, REGION_1, REGION_LEN, SHUT, SLOT_LEN, change_header,
    next_generation,
};
use ode_host::{Failed, Host, write_synced};
use ode_journal::{AppendError, Frame, Journal};

// The header that comes after one of area 1: of pages, none of which is in place, behind a journal in region 0.
fn paged(older: &Header) -> Header
    ensures paged { result ≡ paged older.now }
    ensures slot { IsSlot result.slot }
{
    Header {
        format: FORMAT,
        layout: PAGES,
        generation: next_generation(older.generation),
        body_at: PAGES_AT,
        body_len: 0,
        journal_at: REGION_0,
        journal_end: REGION_1,
        slot: slot_beside(older.slot),
    }
}

// Writes a journal of this frame alone into region 0, which no header counts.
fn stage<H: Host>(host: &mut H, frame: &Frame) -> Result<(), Failed>
    requires full { frame.now.spare ≡ 0 }
    requires fits { need_of frame.now.payload ≤ REGION_LEN }
    ensures staged { OnOk result ((header : Header) (entries : Entries) → StandInOne header entries (H.view host.old)
        → IsStaged header entries frame.now.payload (H.view host.new)) }
    ensures any_moment { (header : Header) (entries : Entries) → StandInOne header entries (H.view host.old)
        → LeavesOnly (H.view host.old) (H.view host.new) (LeavesRecords entries (H.view host.old)) }
    ensures leaves { DiskCalls (IsErr result) (H.view host.old) (H.view host.new) }
{
    write_synced(host, REGION_0, &[SHUT])?;
    let mut journal = Journal {
        at: REGION_0,
        end: REGION_1,
    };
    match journal.append(host, frame) {
        Ok(()) => Ok(()),
        Err(AppendError::DiskFault) => Err(Failed),
        Err(AppendError::AreaFull { .. }) => unreachable!(),
    }
}

/// Writes a frame of pages that have the records of area 1, and then changes the header to these. A stop leaves the same
/// records.
pub(crate) fn move_to_pages<H: Host>(
    host: &mut H,
    header: &Header,
    frame: &Frame,
) -> Result<(), Failed>
    requires full { frame.now.spare ≡ 0 }
    requires fits { need_of frame.now.payload ≤ REGION_LEN }
    ensures moved { OnOk result ((entries : Entries) → StandInOne header.now entries (H.view host.old)
        → SpellsPagesOf entries frame.now.payload → IsMigratedTo entries (H.view host.new)) }
    ensures any_moment { (entries : Entries) → StandInOne header.now entries (H.view host.old)
        → SpellsPagesOf entries frame.now.payload
        → LeavesOnly (H.view host.old) (H.view host.new) (LeavesRecords entries (H.view host.old)) }
    ensures leaves { DiskCalls (IsErr result) (H.view host.old) (H.view host.new) }
{
    stage(host, frame)?;
    let next = paged(header);
    match change_header(host, &next, &mut [0; SLOT_LEN]) {
        Ok(()) => Ok(()),
        Err(_) => Err(Failed),
    }
}
