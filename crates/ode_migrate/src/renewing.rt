//! A file of pages gets the last format.
ghost use Rattle.std.specs.Prelude.{◌≡◌, ◌≤◌, List, ℕ, IsErr, OnOk};
ghost use Rattle.ode_gate.specs.Changes.{WritesAtMost, header_change_length};
ghost use Rattle.ode_gate.specs.Headers.{IsOfPages};
ghost use Rattle.ode_gate.specs.Slots.{Counts, IsSlot};
ghost use Rattle.ode_host.specs.Host.{DiskCalls, LeavesOnly, Stands};
ghost use Rattle.ode_keep.specs.Entries.{Entries};
ghost use Rattle.ode_paging.specs.Meaning.{HasMap};
ghost use Rattle.ode_migrate.specs.Migrating.{IsMigratedTo, LeavesRecords, beside, renewed};

use ode_gate::{FORMAT, Header, SLOT_LEN, change_header, next_generation};
use ode_host::{Failed, Host};

/// The slot beside this one.
pub(crate) fn slot_beside(slot: u8) -> u8
    ensures beside { result ≡ beside slot }
    ensures small { result ≤ 1 }
{
    if slot == 0 { 1 } else { 0 }
}

// The header that comes after one of pages, with the last format.
fn renewed(older: &Header) -> Header
    ensures renewed { result ≡ renewed older.now }
    ensures slot { IsSlot result.slot }
{
    Header {
        format: FORMAT,
        layout: older.layout,
        generation: next_generation(older.generation),
        body_at: older.body_at,
        body_len: older.body_len,
        journal_at: older.journal_at,
        journal_end: older.journal_end,
        slot: slot_beside(older.slot),
    }
}

/// Changes the header of a file of pages to one with the last format. A stop leaves the same records.
pub(crate) fn renew<H: Host>(host: &mut H, header: &Header) -> Result<(), Failed>
    requires { IsOfPages header.now }
    ensures renewed { OnOk result ((file : List ℕ) (entries : Entries) → Stands file (H.view host.old)
        → Counts file header.now → HasMap header.now file entries → IsMigratedTo entries (H.view host.new)) }
    ensures any_moment { (file : List ℕ) (entries : Entries) → Stands file (H.view host.old)
        → Counts file header.now → HasMap header.now file entries
        → LeavesOnly (H.view host.old) (H.view host.new) (LeavesRecords entries (H.view host.old)) }
    ensures most { OnOk result (WritesAtMost header_change_length (H.view host.old) (H.view host.new)) }
    ensures leaves { DiskCalls (IsErr result) (H.view host.old) (H.view host.new) }
{
    let next = renewed(header);
    match change_header(host, &next, &mut [0; SLOT_LEN]) {
        Ok(()) => Ok(()),
        Err(_) => Err(Failed),
    }
}
