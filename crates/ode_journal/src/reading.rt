//! Frames are read again.
ghost use Rattle.std.specs.Prelude.{◌≡◌, ◌+◌, ◌≤◌, ◌<◌, ◌^◌, List, ℕ, length, take, drop, Option, IfOk, IfSome, IsErrOf, OnOk};
ghost use Rattle.std.specs.Bool.{OnTrue, OnFalse};
ghost use Rattle.std.specs.Int.{w32, to_be_bytes};
ghost use Rattle.ode_host.specs.Causes.{RoseIf};
ghost use Rattle.ode_host.specs.Fields.{number_at};
ghost use Rattle.ode_host.specs.Host.{Looks, Tells};
ghost use Rattle.ode_journal.specs.Ahead.{StaysOf, TellsAhead};
ghost use Rattle.ode_journal.specs.Answers.{Answers};
ghost use Rattle.ode_journal.specs.Frames.{gate_behind, limit, HasGate, IsShut, IsBad, IsJournal, IsBroken, NextIs};

use crate::block::Block;
use crate::error::JournalError;
use crate::frame::{FRAME_HEAD, LENGTH_LEN};
use crate::journal::Journal;
use ode_gate::OPEN;
use ode_host::Host;
use ode_value::List;
use std::alloc::Global;

// Whether the gate at this place is open.
fn is_open<H: Host>(
    host: &mut H,
    ahead: &mut Block,
    at: u64,
    end: u64,
) -> Result<bool, JournalError>
    ensures within { IfOk result (λ _. at < end) }
    ensures opened { IfOk result (λ b. OnTrue b ((file : List ℕ) → TellsAhead (H.view host.old) ahead.old file → HasGate at OPEN file)) }
    ensures shut { IfOk result (λ b. OnFalse b ((file : List ℕ) → TellsAhead (H.view host.old) ahead.old file → IsShut end at file)) }
    ensures bad { (place : ℕ) → IsErrOf result (JournalError.BadJournal place)
        → (place ≡ at) × ((file : List ℕ) → TellsAhead (H.view host.old) ahead.old file → limit end file ≤ at) }
    ensures ahead { OnOk result (StaysOf (H.view host.old) ahead.old ahead.new) }
    ensures looks { Looks (H.view host.old) (H.view host.new) }
    ensures cause { RoseIf (IsErrOf result JournalError.DiskFault) (H.view host.old).disk_faults (H.view host.new).disk_faults }
{
    let mut gate = [0u8; 1];
    if at >= end || !ahead.read_exact(host, at, &mut gate)? {
        return Err(JournalError::BadJournal { at });
    }
    Ok(gate[0] == OPEN)
}

// The number that four bytes spell.
fn number(bytes: &[u8]) -> u32
    requires { length bytes.now ≡ LENGTH_LEN }
    ensures { to_be_bytes w32 result ≡ bytes.now }
{
    u32::from_be_bytes([bytes[0], bytes[1], bytes[2], bytes[3]])
}

// The length behind the gate at this place.
fn read_length<H: Host>(
    host: &mut H,
    ahead: &mut Block,
    at: u64,
    end: u64,
) -> Result<u32, JournalError>
    requires { at < end }
    ensures within { IfOk result (λ n. at + FRAME_HEAD + n ≤ end) }
    ensures spelled { IfOk result (λ n. (file : List ℕ) → TellsAhead (H.view host.old) ahead.old file → take LENGTH_LEN (drop (at + 1) file) ≡ to_be_bytes w32 n) }
    ensures bad { (place : ℕ) → IsErrOf result (JournalError.BadJournal place)
        → (place ≡ at) × ((file : List ℕ) → TellsAhead (H.view host.old) ahead.old file → limit end file < at + FRAME_HEAD + number_at w32 file (at + 1)) }
    ensures ahead { OnOk result (StaysOf (H.view host.old) ahead.old ahead.new) }
    ensures looks { Looks (H.view host.old) (H.view host.new) }
    ensures cause { RoseIf (IsErrOf result JournalError.DiskFault) (H.view host.old).disk_faults (H.view host.new).disk_faults }
{
    let bad = JournalError::BadJournal { at };
    let room = end - at - 1;
    let mut head = [0u8; LENGTH_LEN];
    if room < LENGTH_LEN as u64 || !ahead.read_exact(host, at + 1, &mut head)? {
        return Err(bad);
    }
    let length = number(&head);
    if room - (LENGTH_LEN as u64) < length as u64 {
        return Err(bad);
    }
    Ok(length)
}

// The payload behind the gate at this place and its length.
fn read_payload<H: Host>(
    alloc: Global,
    host: &mut H,
    ahead: &mut Block,
    at: u64,
    count: u32,
) -> Result<List<u8>, JournalError>
    requires { at + FRAME_HEAD + count < 2 ^ 64 }
    ensures long { IfOk result (λ payload. length payload ≡ count) }
    ensures bytes { IfOk result (λ payload. (file : List ℕ) → TellsAhead (H.view host.old) ahead.old file → payload ≡ take count (drop (at + FRAME_HEAD) file)) }
    ensures bad { (place : ℕ) → IsErrOf result (JournalError.BadJournal place)
        → (place ≡ at) × ((file : List ℕ) → TellsAhead (H.view host.old) ahead.old file → length file < at + FRAME_HEAD + count) }
    ensures ahead { OnOk result (StaysOf (H.view host.old) ahead.old ahead.new) }
    ensures looks { Looks (H.view host.old) (H.view host.new) }
    ensures cause { RoseIf (IsErrOf result JournalError.DiskFault) (H.view host.old).disk_faults (H.view host.new).disk_faults }
{
    let mut payload = vec![in alloc; 0; count as usize]?;
    if !ahead.read_exact(host, at + FRAME_HEAD as u64, &mut payload)? {
        return Err(JournalError::BadJournal { at });
    }
    Ok(List::from_vec(payload))
}

/// The payload of the frame whose gate stands at this offset, and none where that gate is shut, by what was read ahead. It is `BadJournal` where
/// the gate would stand at or past `end` or the file's end, or is open and its frame runs past one of them.
pub fn next_frame<H: Host>(
    alloc: Global,
    host: &mut H,
    ahead: &mut Block,
    at: u64,
    end: u64,
) -> Result<Option<List<u8>>, JournalError>
    ensures found { IfOk result (λ next. (file : List ℕ) → TellsAhead (H.view host.old) ahead.old file → NextIs end at next file) }
    ensures within { IfOk result (λ next. IfSome next (λ payload. at + FRAME_HEAD + length payload ≤ end)) }
    ensures bad { (place : ℕ) → IsErrOf result (JournalError.BadJournal place)
        → (place ≡ at) × ((file : List ℕ) → TellsAhead (H.view host.old) ahead.old file → IsBad end at file) }

    // What stands there is answered, unless the outside fails.
    ensures whole { (file : List ℕ) (next : Option (List ℕ)) → TellsAhead (H.view host.old) ahead.old file → NextIs end at next file → Answers result (Ok next) }
    ensures broken { (file : List ℕ) → TellsAhead (H.view host.old) ahead.old file → IsBad end at file → Answers result (Err (JournalError.BadJournal at)) }
    ensures ahead { OnOk result (StaysOf (H.view host.old) ahead.old ahead.new) }
    ensures looks { Looks (H.view host.old) (H.view host.new) }
    ensures cause { RoseIf (IsErrOf result JournalError.DiskFault) (H.view host.old).disk_faults (H.view host.new).disk_faults }
{
    if !is_open(host, ahead, at, end)? {
        return Ok(None);
    }
    let length = read_length(host, ahead, at, end)?;
    let payload = read_payload(alloc, host, ahead, at, length)?;
    Ok(Some(payload))
}

/// The payloads of the frames from the gate at `start` on, in order, and where the journal stands behind them. All
/// places are offsets in the file, in bytes. It is `BadJournal` at the first gate, in order, at which something is wrong.
pub fn scan<H: Host>(
    alloc: Global,
    host: &mut H,
    start: u64,
    end: u64,
) -> Result<(Journal, List<List<u8>>), JournalError>
    ensures found { IfOk result (λ r. (file : List ℕ) → Tells (H.view host.old) file → IsJournal start end r.1 file) }
    ensures place { IfOk result (λ r. r.0 ≡ record { at = gate_behind start r.1; end = end }) }
    ensures bad { (place : ℕ) → IsErrOf result (JournalError.BadJournal place)
        → (file : List ℕ) → Tells (H.view host.old) file → IsBroken start end place file }

    // What the file is is answered, unless the outside fails.
    ensures whole { (file : List ℕ) (frames : List (List ℕ)) → Tells (H.view host.old) file → IsJournal start end frames file
        → Answers result (Ok (record { at = gate_behind start frames; end = end }, frames)) }
    ensures broken { (file : List ℕ) (place : ℕ) → Tells (H.view host.old) file → IsBroken start end place file
        → Answers result (Err (JournalError.BadJournal place)) }
    ensures looks { Looks (H.view host.old) (H.view host.new) }
    ensures cause { RoseIf (IsErrOf result JournalError.DiskFault) (H.view host.old).disk_faults (H.view host.new).disk_faults }
{
    let mut ahead = Block::new(alloc)?;
    let mut frames = List::new(alloc);
    let mut at = start;
    'frames: loop {
        match next_frame(alloc, host, &mut ahead, at, end)? {
            None => return Ok((Journal { at, end }, frames)),
            Some(payload) => {
                at += FRAME_HEAD as u64 + payload.len() as u64;
                frames.push(payload)?;
            }
        }
    }
}
