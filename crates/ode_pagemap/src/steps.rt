//! The writes of a commit, each of which leaves the records before it or those after it.
ghost use Rattle.std.specs.Prelude.{◌≡◌, ◌+◌, ◌≤◌, [], List, None, IsErr, MatchOption, OnOk};
ghost use Rattle.std.specs.Option.{IfSome, option_copied};
ghost use Rattle.ode_gate.specs.Changes.{WritesAtMost};
ghost use Rattle.ode_gate.specs.Headers.{IsOfPages};
ghost use Rattle.ode_gate.specs.declared.header.Header.{Header};
ghost use Rattle.ode_gate.specs.declared.places.TheConstants.{REGION_LEN};
ghost use Rattle.ode_host.specs.Host.{DiskCalls, LeavesOnly, Puts};
ghost use Rattle.ode_journal.specs.Appends.{need_of, room_of};
ghost use Rattle.ode_keep.specs.Entries.{Changes, Entries};
ghost use Rattle.ode_keep.specs.Keeping.{LeavesOldOrNew};
ghost use Rattle.ode_paging.specs.Gathering.{gathered};
ghost use Rattle.ode_paging.specs.Images.{Image};
ghost use Rattle.ode_paging.specs.Meaning.{PagesMeanIn};
ghost use Rattle.ode_paging.specs.Overlays.{laid};
ghost use Rattle.ode_pagemap.specs.Steps.{ChangesRegion, IsOf, Makes, StandUnder, bytes_before, images_after};

use crate::checkpoint::{Checkpoint, make_checkpoint};
use ode_gate::{Header, MAX_PAGES};
use ode_host::{Failed, Host};
use ode_journal::{AppendError, Frame, Journal};

// Adds a frame to a journal that has room for it.
fn add_frame<H: Host>(host: &mut H, journal: &mut Journal, frame: &Frame) -> Result<(), Failed>
    requires full { frame.now.spare ≡ 0 }
    requires room { need_of frame.now.payload ≤ room_of journal.old }
    ensures added { OnOk result ((header : Header) (images over : List Image) (pages later : List Entries) (changes : Changes)
        → StandUnder header journal.old images pages (H.view host.old) → Makes changes over frame.now.payload pages later
        → StandUnder header journal.new (laid over images) later (H.view host.new)) }
    ensures any_moment { (header : Header) (images over : List Image) (pages later : List Entries) (changes : Changes)
        → StandUnder header journal.old images pages (H.view host.old) → Makes changes over frame.now.payload pages later
        → LeavesOnly (H.view host.old) (H.view host.new) (LeavesOldOrNew (PagesMeanIn header.format) (gathered [] pages) changes (H.view host.old)) }
    ensures region { OnOk result ((header : Header) (images : List Image) (pages : List Entries)
        → (stand : StandUnder header journal.old images pages (H.view host.old))
        → ChangesRegion header journal.old stand.file (H.view host.new)) }
    ensures puts { OnOk result (Puts (need_of frame.now.payload) (H.view host.old) (H.view host.new)) }
    ensures leaves { DiskCalls (IsErr result) (H.view host.old) (H.view host.new) }
{
    match journal.append(host, frame) {
        Ok(()) => Ok(()),
        Err(AppendError::DiskFault) => Err(Failed),
        Err(AppendError::AreaFull { .. }) => unreachable!(),
    }
}

/// Makes a checkpoint where one is due, and adds a frame.
pub(crate) fn write_changes<H: Host>(
    host: &mut H,
    header: &mut Header,
    journal: &mut Journal,
    due: Option<&Checkpoint>,
    frame: &Frame,
) -> Result<(), Failed>
    requires form { IsOfPages header.old }
    requires full { frame.now.spare ≡ 0 }
    requires pages { IfSome due (λ c. c.now.count ≤ MAX_PAGES) }
    requires room { MatchOption due (need_of frame.now.payload ≤ room_of journal.old) (λ _. need_of frame.now.payload ≤ REGION_LEN) }
    ensures written { OnOk result ((images over : List Image) (pages later : List Entries) (changes : Changes)
        → StandUnder header.old journal.old images pages (H.view host.old)
        → IfSome due.entry (λ c. IsOf images pages c.now)
        → Makes changes over frame.now.payload pages later
        → StandUnder header.new journal.new (images_after (option_copied due.entry) over images) later (H.view host.new)) }
    ensures any_moment { (images over : List Image) (pages later : List Entries) (changes : Changes)
        → StandUnder header.old journal.old images pages (H.view host.old)
        → IfSome due.entry (λ c. IsOf images pages c.now)
        → Makes changes over frame.now.payload pages later
        → LeavesOnly (H.view host.old) (H.view host.new) (LeavesOldOrNew (PagesMeanIn header.old.format) (gathered [] pages) changes (H.view host.old)) }
    ensures form { IsOfPages header.new }
    ensures format { header.new.format ≡ header.old.format }
    ensures region { due.entry ≡ None → OnOk result ((images : List Image) (pages : List Entries)
        → (stand : StandUnder header.old journal.old images pages (H.view host.old))
        → ChangesRegion header.old journal.old stand.file (H.view host.new)) }
    ensures puts { due.entry ≡ None → OnOk result (Puts (need_of frame.now.payload) (H.view host.old) (H.view host.new)) }
    ensures most { OnOk result (WritesAtMost (bytes_before (option_copied due.entry) + need_of frame.now.payload) (H.view host.old) (H.view host.new)) }
    ensures leaves { DiskCalls (IsErr result) (H.view host.old) (H.view host.new) }
{
    match due {
        None => add_frame(host, journal, frame),
        Some(checkpoint) => {
            *header = make_checkpoint(host, header, checkpoint)?;
            *journal = Journal {
                at: header.journal_at,
                end: header.journal_end,
            };
            add_frame(host, journal, frame)
        }
    }
}
