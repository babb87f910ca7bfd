//! A checkpoint: the pages that have images are written to their places, and the journal starts anew.
ghost use Rattle.std.specs.Prelude.{◌≡◌, ◌+◌, ◌*◌, ◌≤◌, [], List, length, IfOk, IsErr, OnOk};
ghost use Rattle.ode_gate.specs.Changes.{WritesAtMost};
ghost use Rattle.ode_gate.specs.Headers.{IsOfPages};
ghost use Rattle.ode_gate.specs.declared.header.Header.{Header};
ghost use Rattle.ode_host.specs.Host.{DiskCalls, LeavesOnly, Puts};
ghost use Rattle.ode_journal.specs.declared.journal.Journal.{Journal};
ghost use Rattle.ode_keep.specs.Entries.{Entries};
ghost use Rattle.ode_paging.specs.Images.{Image};
ghost use Rattle.ode_pagemap.specs.Steps.{BothStand, IsNext, IsOf, LeavesPages, StandUnder, checkpoint_length, empty_under};

use crate::placing::place_images;
use crate::plan::next_header;
use ode_gate::{Header, MAX_PAGES, PAGE_LEN, SHUT, SLOT_LEN, change_header};
use ode_host::{Failed, Host, write_synced};
use ode_paging::Images;

/// The images that a checkpoint writes to the places of their pages, and how many pages there are with them.
#[derive(Drop)]
pub(crate) struct Checkpoint {
    pub(crate) images: Images,
    pub(crate) count: u64,
}

// Writes images to the places of their pages, and shuts the first gate of the region that no header counts.
fn stage<H: Host>(host: &mut H, images: &Images, next: &Header) -> Result<(), Failed>
    ensures staged { OnOk result ((older : Header) (place : Journal) (pages : List Entries)
        → StandUnder older place images.now pages (H.view host.old) → IsNext older next.now → next.now.body_len ≡ length pages
        → BothStand older place images.now next.now pages (H.view host.new)) }
    ensures any_moment { (older : Header) (place : Journal) (pages : List Entries)
        → StandUnder older place images.now pages (H.view host.old) → IsNext older next.now
        → LeavesOnly (H.view host.old) (H.view host.new) (LeavesPages older.format pages (H.view host.old)) }
    ensures puts { OnOk result (Puts (PAGE_LEN * length images.now + 1) (H.view host.old) (H.view host.new)) }
    ensures leaves { DiskCalls (IsErr result) (H.view host.old) (H.view host.new) }
{
    place_images(host, images)?;
    write_synced(host, next.journal_at, &[SHUT])
}

/// Writes the images of a journal to the places of their pages, and then changes the header to one that counts these pages
/// and has an empty journal. A stop leaves the records as they are. It answers the header.
pub(crate) fn make_checkpoint<H: Host>(
    host: &mut H,
    header: &Header,
    checkpoint: &Checkpoint,
) -> Result<Header, Failed>
    requires form { IsOfPages header.now }
    requires few { checkpoint.now.count ≤ MAX_PAGES }
    ensures done { IfOk result (λ h. (place : Journal) (images : List Image) (pages : List Entries)
        → StandUnder header.now place images pages (H.view host.old) → IsOf images pages checkpoint.now
        → StandUnder h (empty_under h) [] pages (H.view host.new)) }
    ensures form { IfOk result IsOfPages }
    ensures format { IfOk result (λ h. h.format ≡ header.now.format) }
    ensures any_moment { (place : Journal) (images : List Image) (pages : List Entries)
        → StandUnder header.now place images pages (H.view host.old) → IsOf images pages checkpoint.now
        → LeavesOnly (H.view host.old) (H.view host.new) (LeavesPages header.now.format pages (H.view host.old)) }
    ensures most { OnOk result (WritesAtMost (checkpoint_length checkpoint.now.images) (H.view host.old) (H.view host.new)) }
    ensures leaves { DiskCalls (IsErr result) (H.view host.old) (H.view host.new) }
{
    let next = next_header(header, checkpoint.count);
    stage(host, &checkpoint.images, &next)?;
    match change_header(host, &next, &mut [0; SLOT_LEN]) {
        Ok(()) => Ok(next),
        Err(_) => Err(Failed),
    }
}
