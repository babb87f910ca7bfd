//! The writes of a commit, each of which leaves the records before it or those after it.
ghost use Rattle.std.specs.Prelude.{◌≡◌, ◌+◌, ◌≤◌, length, MatchOption, None, IsErr, OnOk};
ghost use Rattle.std.specs.Option.{IfSome};
ghost use Rattle.ode_gate.specs.Changes.{WritesAtMost, header_change_length};
ghost use Rattle.ode_gate.specs.Slots.{IsSlot};
ghost use Rattle.ode_gate.specs.declared.header.Header.{Header};
ghost use Rattle.ode_host.specs.Host.{DiskCalls, LeavesOnly, Puts};
ghost use Rattle.ode_journal.specs.declared.journal.Journal.{Journal};
ghost use Rattle.ode_journal.specs.Appends.{need_of, room_of};
ghost use Rattle.ode_keep.specs.Entries.{Changes, Entries, applied};
ghost use Rattle.ode_keep.specs.Keeping.{LeavesOldOrNew};
ghost use Rattle.ode_areas.specs.Image.{AreasMean};
ghost use Rattle.ode_areas.specs.Ready.{IsReady};
ghost use Rattle.ode_keep.specs.Payloads.{IsPayload, payload_of};
ghost use Rattle.ode_keep.specs.Snapshots.{FitsSnapshot};
ghost use Rattle.ode_areas.specs.Steps.{MovesOver, StandUnder, bytes_before, checkpoint_length, empty_under};

use crate::plan::{Checkpoint, Ready};
use ode_gate::{Header, SLOT_LEN, change_header};
use ode_host::{Failed, Host, write_synced};
use ode_journal::{AppendError, Frame, Journal};

/// Writes a snapshot of the records behind some changes into the area that no header counts, and then changes the header
/// to it.
pub(crate) fn move_over<H: Host>(
    host: &mut H,
    header: &mut Header,
    journal: &mut Journal,
    checkpoint: &Checkpoint,
) -> Result<(), Failed>
    requires { IsSlot checkpoint.now.header.slot }
    ensures moved { OnOk result ((entries : Entries) (changes : Changes)
        → StandUnder header.old journal.old entries (H.view host.old) → FitsSnapshot (applied changes entries)
        → MovesOver header.old (applied changes entries) checkpoint.now.header checkpoint.now.bytes.items
        → StandUnder header.new journal.new (applied changes entries) (H.view host.new)) }
    ensures under { OnOk result (header.new ≡ checkpoint.now.header) }
    ensures empty { OnOk result (journal.new ≡ empty_under checkpoint.now.header) }
    ensures any_moment { (entries : Entries) (changes : Changes)
        → StandUnder header.old journal.old entries (H.view host.old) → FitsSnapshot (applied changes entries)
        → MovesOver header.old (applied changes entries) checkpoint.now.header checkpoint.now.bytes.items
        → LeavesOnly (H.view host.old) (H.view host.new) (LeavesOldOrNew AreasMean entries changes (H.view host.old)) }
    ensures most { OnOk result (WritesAtMost (length checkpoint.now.bytes.items + header_change_length) (H.view host.old) (H.view host.new)) }
    ensures leaves { DiskCalls (IsErr result) (H.view host.old) (H.view host.new) }
{
    write_synced(host, checkpoint.header.body_at, &checkpoint.bytes)?;
    match change_header(host, &checkpoint.header, &mut [0; SLOT_LEN]) {
        Ok(()) => {
            *header = checkpoint.header;
            *journal = Journal {
                at: header.journal_at,
                end: header.journal_end,
            };
            Ok(())
        }
        Err(_) => Err(Failed),
    }
}

// Adds a frame to a journal that has room for it.
fn add_frame<H: Host>(host: &mut H, journal: &mut Journal, frame: &Frame) -> Result<(), Failed>
    requires full { frame.now.spare ≡ 0 }
    requires room { need_of frame.now.payload ≤ room_of journal.old }
    ensures added { OnOk result ((header : Header) (entries : Entries) (changes : Changes)
        → StandUnder header journal.old entries (H.view host.old) → IsPayload changes frame.now.payload
        → StandUnder header journal.new (applied changes entries) (H.view host.new)) }
    ensures any_moment { (header : Header) (entries : Entries) (changes : Changes)
        → StandUnder header journal.old entries (H.view host.old) → IsPayload changes frame.now.payload
        → LeavesOnly (H.view host.old) (H.view host.new) (LeavesOldOrNew AreasMean entries changes (H.view host.old)) }
    ensures puts { OnOk result (Puts (need_of frame.now.payload) (H.view host.old) (H.view host.new)) }
    ensures leaves { DiskCalls (IsErr result) (H.view host.old) (H.view host.new) }
{
    match journal.append(host, frame) {
        Ok(()) => Ok(()),
        Err(AppendError::DiskFault) => Err(Failed),
        Err(AppendError::AreaFull { .. }) => unreachable!(),
    }
}

// Moves the records over where a checkpoint is due, and adds a frame.
fn write_changes<H: Host>(
    host: &mut H,
    header: &mut Header,
    journal: &mut Journal,
    due: &Option<Checkpoint>,
    frame: &Frame,
) -> Result<(), Failed>
    requires full { frame.now.spare ≡ 0 }
    requires slot { IfSome due.now (λ c. IsSlot c.header.slot) }
    requires room { MatchOption due.now (need_of frame.now.payload ≤ room_of journal.old)
        (λ c. need_of frame.now.payload ≤ room_of (empty_under c.header)) }
    ensures written { OnOk result ((entries : Entries) (changes : Changes)
        → StandUnder header.old journal.old entries (H.view host.old)
        → IfSome due.now (λ c. MovesOver header.old entries c.header c.bytes.items)
        → IsPayload changes frame.now.payload
        → StandUnder header.new journal.new (applied changes entries) (H.view host.new)) }
    ensures any_moment { (entries : Entries) (changes : Changes)
        → StandUnder header.old journal.old entries (H.view host.old)
        → IfSome due.now (λ c. MovesOver header.old entries c.header c.bytes.items)
        → IsPayload changes frame.now.payload
        → LeavesOnly (H.view host.old) (H.view host.new) (LeavesOldOrNew AreasMean entries changes (H.view host.old)) }
    ensures puts { OnOk result (due.now ≡ None → Puts (need_of frame.now.payload) (H.view host.old) (H.view host.new)) }
    ensures most { OnOk result (WritesAtMost (bytes_before due.now + need_of frame.now.payload) (H.view host.old) (H.view host.new)) }
    ensures leaves { DiskCalls (IsErr result) (H.view host.old) (H.view host.new) }
{
    match due {
        None => add_frame(host, journal, frame),
        Some(checkpoint) => {
            move_over(host, header, journal, checkpoint)?;
            add_frame(host, journal, frame)
        }
    }
}

/// Writes what is ready. A stop leaves the records before the changes or those behind them.
pub(crate) fn write_ready<H: Host>(
    host: &mut H,
    header: &mut Header,
    journal: &mut Journal,
    ready: &Ready,
) -> Result<(), Failed>
    requires { (changes : Changes) × (entries : Entries) × IsReady changes header.old journal.old entries ready.now }
    ensures written { OnOk result ((entries : Entries) (changes : Changes)
        → StandUnder header.old journal.old entries (H.view host.old)
        → IsReady changes header.old journal.old entries ready.now
        → StandUnder header.new journal.new (applied changes entries) (H.view host.new)) }
    ensures any_moment { (entries : Entries) (changes : Changes)
        → StandUnder header.old journal.old entries (H.view host.old)
        → IsReady changes header.old journal.old entries ready.now
        → LeavesOnly (H.view host.old) (H.view host.new) (LeavesOldOrNew AreasMean entries changes (H.view host.old)) }
    ensures frame { OnOk result ((entries : Entries) (changes : Changes)
        → IsReady changes header.old journal.old entries ready.now
        → need_of (payload_of changes) ≤ room_of journal.old
        → Puts (need_of (payload_of changes)) (H.view host.old) (H.view host.new)) }
    ensures most { OnOk result ((entries : Entries) (changes : Changes)
        → IsReady changes header.old journal.old entries ready.now
        → WritesAtMost (checkpoint_length entries + need_of (payload_of changes)) (H.view host.old) (H.view host.new)) }
    ensures leaves { DiskCalls (IsErr result) (H.view host.old) (H.view host.new) }
{
    match ready {
        Ready::Framed { frame, due } => write_changes(host, header, journal, due, frame),
        Ready::Moved { checkpoint } => move_over(host, header, journal, checkpoint),
    }
}
