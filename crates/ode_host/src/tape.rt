//! The calls that had an effect, and what they left.
ghost use Rattle.std.specs.Prelude.{◌≡◌, ◌+◌, ◌<◌, ◌^◌, ◌++◌, [], ◌∷◌, List, ℕ, length, OnOk, OnErr, IfOk};
ghost use Rattle.ode_host.specs.Disk.{settled, written_on};
ghost use Rattle.ode_host.specs.Host.{written_over, Nothing, TornWrite, CutPrint};
ghost use Rattle.ode_host.specs.Noted.{Noted, NotedPrint};
ghost use Rattle.ode_host.specs.Replay.{IsTape, LeftAt, Passes, disk_after};

use crate::call::Call;
use crate::image::overwrite;
use std::alloc::{AllocError, Global};

/// An image at the start, the calls since then, and the image and the text that they lead to.
#[derive(Drop)]
pub struct Tape {
    pub alloc: Global,
    pub start: Vec<u8>,
    pub calls: Vec<Call>,
    pub image: Vec<u8>,
    pub text: Vec<u8>,
    ghost kept: { IsTape start.items image.items text.items calls.items },
}

impl Tape {
    /// No calls yet.
    pub fn new(alloc: Global, image: Vec<u8>) -> Result<Tape, AllocError>
        ensures start { IfOk result (λ tape. tape.start.items ≡ image.items) }
        ensures calls { IfOk result (λ tape. tape.calls.items ≡ []) }
        ensures image { IfOk result (λ tape. tape.image.items ≡ image.items) }
        ensures text { IfOk result (λ tape. tape.text.items ≡ []) }
    {
        Ok(Tape {
            alloc,
            start: image.to_vec(alloc)?,
            calls: Vec::new(alloc),
            image,
            text: Vec::new(alloc),
        })
    }

    /// Writes and keeps the call, or does neither.
    pub fn write(&mut self, at: u64, from: &[u8]) -> Result<(), AllocError>
        ensures time { Passes (TornWrite at (length from.now)) self.old.start.items self.old.calls.items self.new.calls.items }
        ensures start { self.new.start.items ≡ self.old.start.items }
        ensures text { self.new.text.items ≡ self.old.text.items }
        ensures ok { OnOk result (self.new.image.items ≡ written_over self.old.image.items at from.now) }
        ensures disk { OnOk result (disk_after self.old.start.items self.new.calls.items ≡ written_on (disk_after self.old.start.items self.old.calls.items) at from.now) }
        ensures err { OnErr result (self.new.image.items ≡ self.old.image.items) }
        ensures calls { OnErr result (self.new.calls.items ≡ self.old.calls.items) }
    {
        note_write(self.alloc, &mut self.calls, &mut self.image, at, from)?;
        Ok(())
    }

    /// Keeps the call, after which nothing is pending.
    pub fn sync(&mut self) -> Result<(), AllocError>
        ensures time { Passes Nothing self.old.start.items self.old.calls.items self.new.calls.items }
        ensures start { self.new.start.items ≡ self.old.start.items }
        ensures text { self.new.text.items ≡ self.old.text.items }
        ensures image { self.new.image.items ≡ self.old.image.items }
        ensures durable { OnOk result ((c o : List ℕ) → LeftAt self.new.start.items self.new.calls.items (length self.new.calls.items) c o → c ≡ self.new.image.items) }
        ensures disk { OnOk result (disk_after self.old.start.items self.new.calls.items ≡ settled self.old.image.items) }
        ensures calls { OnErr result (self.new.calls.items ≡ self.old.calls.items) }
    {
        note_sync(&mut self.calls)?;
        Ok(())
    }

    /// Prints and keeps the call, or does neither.
    pub fn print(&mut self, piece: &[u8]) -> Result<(), AllocError>
        ensures time { Passes (CutPrint piece.now) self.old.start.items self.old.calls.items self.new.calls.items }
        ensures start { self.new.start.items ≡ self.old.start.items }
        ensures image { self.new.image.items ≡ self.old.image.items }
        ensures ok { OnOk result (self.new.text.items ≡ self.old.text.items ++ piece.now) }
        ensures disk { disk_after self.old.start.items self.new.calls.items ≡ disk_after self.old.start.items self.old.calls.items }
        ensures err { OnErr result (self.new.text.items ≡ self.old.text.items) }
    {
        note_print(self.alloc, &mut self.calls, &mut self.text, piece)?;
        Ok(())
    }
}

fn note_write(
    alloc: Global,
    calls: &mut Vec<Call>,
    image: &mut Vec<u8>,
    at: u64,
    from: &[u8],
) -> Result<(), AllocError>
    ensures ok { OnOk result (Noted at from.now calls.old.items calls.new.items image.old.items image.new.items) }
    ensures err { OnErr result ((calls.new.items ≡ calls.old.items) × (image.new.items ≡ image.old.items)) }
{
    if at.checked_add(from.len() as u64).is_none() {
        return Err(AllocError);
    }
    calls.push(Call::Write(at, from.to_vec(alloc)?))?;
    if let Err(error) = overwrite(image, at as usize, from) {
        calls.pop();
        return Err(error);
    }
    Ok(())
}

fn note_print(
    alloc: Global,
    calls: &mut Vec<Call>,
    text: &mut Vec<u8>,
    piece: &[u8],
) -> Result<(), AllocError>
    ensures ok { OnOk result (NotedPrint piece.now calls.old.items calls.new.items text.old.items text.new.items) }
    ensures err { OnErr result ((calls.new.items ≡ calls.old.items) × (text.new.items ≡ text.old.items)) }
{
    let copy = piece.to_vec(alloc)?;
    calls.push(Call::Begin(copy))?;
    if let Err(error) = calls.push(Call::End) {
        calls.pop();
        return Err(error.into());
    }
    if let Err(error) = text.extend_from_slice(piece) {
        calls.pop();
        calls.pop();
        return Err(error);
    }
    Ok(())
}

fn note_sync(calls: &mut Vec<Call>) -> Result<(), AllocError>
    ensures ok { OnOk result (calls.new.items ≡ calls.old.items ++ Call.Sync ∷ []) }
    ensures err { OnErr result (calls.new.items ≡ calls.old.items) }
{
    calls.push(Call::Sync)?;
    Ok(())
}
