//! A script of questions, piece by piece.
ghost use Rattle.std.specs.Prelude.{◌≡◌, ◌||◌, ℕ, IsOk, IsTrue, List as Items, Ok, Some, map};
ghost use Rattle.ode_heap.specs.Answering.{class_of};
ghost use Rattle.ode_heap_laws.specs.Few.{HoldsCounted};
ghost use Rattle.ode_host.specs.Causes.{RoseIf};
ghost use Rattle.ode_host.specs.Host.{HostCalls, Spares};
ghost use Rattle.ode_keep.specs.Entries.{Entries};
ghost use Rattle.ode_value.specs.Language.{Language, ListWorld};
ghost use Rattle.ode_questions.specs.Answers.{IsAnswered, IsPossible};
ghost use Rattle.ode_questions.specs.Steps.{ended_by};

use crate::asked::Asked;
use crate::saying::say_piece;
use crate::stop::Stop;
use ode_ends::{status_at_end, status_of_script};
use ode_heap::Heap;
use ode_host::{Host, Source, Status};
use ode_keep::Keep;
use ode_script::{Piece, Reader};
use ode_types::Classes;
use ode_value::Key;
use std::alloc::Global;

// What a run ends with where a piece isn't answered: a status, or the key of a record that was found damaged.
fn ended_by(stop: Stop) -> Result<Status, Key>
    ensures { result ≡ ended_by stop }
{
    match stop {
        Stop::Memory => Ok(Status::Memory),
        Stop::DiskFault => Ok(Status::DiskFault),
        Stop::WriteFault => Ok(Status::WriteFault),
        Stop::Damaged { key } => Err(key),
    }
}

// Whether a piece was refused, so far or now.
fn either(so_far: bool, now: bool) -> bool
    ensures { result ≡ (so_far || now) }
{
    so_far || now
}

/// Answers the questions of a script over the world that the records of a heap hold, piece by piece, in whatever chunks the script comes,
/// and prints what each says. Nothing is written. The classes are the world's. It answers the key of a record that isn't what is to be
/// there, which no records that hold a world have.
pub fn answer_script<H: Host, K: Keep<H>, S: Source>(
    alloc: Global,
    asked: Asked,
    script: &mut S,
    host: &mut H,
    classes: &Classes,
    heap: &mut Heap<K>,
) -> Result<Status, Key>
    requires live { IsTrue (K.live heap.old) }
    // Where it ends by itself, its status and its text are the script's; where it is cut short, a front of the text was printed.
    ensures answered { (l : Language) (entries : Entries) (w : ListWorld) (bytes text : Items ℕ) → S.left script.old ≡ Some bytes → (H.view host.old).text ≡ Some text
        → HoldsCounted l entries w → K.holds heap.old (H.view host.old) entries → classes.now ≡ map class_of w.bones.classes
        → IsAnswered asked w.bones bytes text (S.left script.new) (H.view host.new) result }
    // No record is damaged where they hold a world.
    ensures sound { (l : Language) (entries : Entries) (w : ListWorld) → HoldsCounted l entries w → K.holds heap.old (H.view host.old) entries
        → classes.now ≡ map class_of w.bones.classes → IsOk result }
    ensures statuses { IsPossible result }
    // The file stays as it was, at each moment.
    ensures spares { Spares (H.view host.old) (H.view host.new) }
    // A fault is told exactly where its count rose, whatever the records are.
    ensures leaves { HostCalls (result ≡ Ok Status.DiskFault) (result ≡ Ok Status.WriteFault) (H.view host.old) (H.view host.new) }
    ensures reads { RoseIf (result ≡ Ok Status.ReadFault) (S.faults script.old) (S.faults script.new) }
{
    let mut reader = Reader::new(alloc);
    let mut refused = false;
    'pieces: loop {
        let (text, line) = match reader.read_statement(script) {
            Ok(Piece::Statement { text, line }) => (text, line),
            Ok(Piece::End) => return Ok(status_at_end(refused)),
            Err(error) => return Ok(status_of_script(error)),
        };
        match say_piece(alloc, asked, classes, heap, host, line, text.as_slice()) {
            Ok(now) => refused = either(refused, now),
            Err(stop) => return ended_by(stop),
        }
    }
}
