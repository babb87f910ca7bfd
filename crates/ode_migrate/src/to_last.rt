//! A file of the first format becomes one of the last.
ghost use Rattle.std.specs.Prelude.{◌≡◌, List, ℕ, IsErrOf, OnOk};
ghost use Rattle.ode_cutting.specs.Cutting.{FitFrame};
ghost use Rattle.ode_gate.specs.Headers.{IsHeader, IsOfAreas};
ghost use Rattle.ode_gate.specs.Slots.{Counts};
ghost use Rattle.ode_gate.specs.declared.header.Header.{Header as FileHeader};
ghost use Rattle.ode_host.specs.Host.{DiskCalls, LeavesOnly, Looks, Stands, Tells};
ghost use Rattle.ode_keep.specs.Entries.{Entries};
ghost use Rattle.ode_areas.specs.Image.{HasMap};
ghost use Rattle.ode_keeper.specs.Files.{FileMeans};
ghost use Rattle.ode_migrate.specs.Migrating.{IsMigratedTo, LeavesRecords};

use crate::error::MigrateError;
use crate::moving::move_to_pages;
use crate::renewing::renew;
use ode_areas::Areas;
use ode_cutting::{MAX_MOVED_BYTES, frame_of_pages};
use ode_gate::{FORMAT, Header, PAGES, SLOT_LEN, read_header};
use ode_host::Host;
use std::alloc::Global;

// Migrates a file of two areas. All that is written is made in memory first.
fn migrate_areas<H: Host>(alloc: Global, host: &mut H, header: &Header) -> Result<(), MigrateError>
    requires rules { IsHeader header.now }
    requires areas { IsOfAreas header.now }
    ensures migrated { OnOk result ((file : List ℕ) (entries : Entries) → Stands file (H.view host.old)
        → Counts file header.now → HasMap header.now file entries → IsMigratedTo entries (H.view host.new)) }
    ensures any_moment { (file : List ℕ) (entries : Entries) → Stands file (H.view host.old)
        → Counts file header.now → HasMap header.now file entries
        → LeavesOnly (H.view host.old) (H.view host.new) (LeavesRecords entries (H.view host.old)) }
    ensures same { (at : ℕ) → IsErrOf result (MigrateError.Changed at) → (file : List ℕ) (entries : Entries)
        → Stands file (H.view host.old) → Counts file header.now → HasMap header.now file entries → FitFrame entries → ⊥ }
    ensures leaves { DiskCalls (IsErrOf result MigrateError.DiskFault) (H.view host.old) (H.view host.new) }
{
    let mut areas = Areas::start(alloc, host, header)?;
    let bytes = areas.bytes();
    if bytes > MAX_MOVED_BYTES {
        return Err(MigrateError::Changed { at: header.body_at });
    }
    let snapshot = areas.snapshot(alloc)?;
    let Some(frame) = frame_of_pages(alloc, &snapshot)? else {
        return Err(MigrateError::Changed { at: header.body_at });
    };
    areas.move_to_one(host)?;
    move_to_pages(host, areas.header(), &frame)?;
    Ok(())
}

/// Makes a file of the first format one of the last: pages, with the same records. A file of the last format stays as it
/// is. A stop on the way leaves the same records in one of the two formats. It is `Changed` where the file isn't what it
/// was when it was opened: where its header, its snapshot or its journal is bad, or one frame of pages has no room for its
/// records.
pub fn migrate<H: Host>(alloc: Global, host: &mut H) -> Result<(), MigrateError>
    ensures migrated { OnOk result ((file : List ℕ) (entries : Entries) → Stands file (H.view host.old)
        → FileMeans file entries → IsMigratedTo entries (H.view host.new)) }
    ensures any_moment { (file : List ℕ) (entries : Entries) → Stands file (H.view host.old)
        → FileMeans file entries
        → LeavesOnly (H.view host.old) (H.view host.new) (LeavesRecords entries (H.view host.old)) }
    ensures same { (at : ℕ) → IsErrOf result (MigrateError.Changed at) → (file : List ℕ) (entries : Entries)
        → Stands file (H.view host.old) → FileMeans file entries → FitFrame entries → ⊥ }
    ensures there { (file : List ℕ) (header : FileHeader) → Tells (H.view host.old) file → Counts file header
        → header.format ≡ FORMAT → Looks (H.view host.old) (H.view host.new) }
    ensures leaves { DiskCalls (IsErrOf result MigrateError.DiskFault) (H.view host.old) (H.view host.new) }
{
    let header = read_header(host, &mut [0; SLOT_LEN])?;
    if header.format == FORMAT {
        return Ok(());
    }
    if header.layout == PAGES {
        renew(host, &header)?;
        return Ok(());
    }
    migrate_areas(alloc, host, &header)
}
