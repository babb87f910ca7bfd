//! What a piece says, printed.
ghost use Rattle.std.specs.Prelude.{◌≡◌, ◌≤◌, IfOk, IsErrOf, IsTrue, OnOk, length, map, true};
ghost use Rattle.ode_heap.specs.Answering.{class_of};
ghost use Rattle.ode_heap_laws.specs.Few.{HoldsCounted};
ghost use Rattle.ode_host.specs.Host.{HostCalls, Spares};
ghost use Rattle.ode_keep.specs.Entries.{Entries};
ghost use Rattle.ode_run_frame.specs.Knowing.{Since};
ghost use Rattle.ode_value.specs.Language.{Language, ListWorld};
ghost use Rattle.ode_value.specs.Limits.{statement_limit};
ghost use Rattle.ode_questions.specs.Saying.{refused_text, said, told, why_text};
ghost use Rattle.ode_questions.specs.Steps.{AnswersOver, PrintsOver, Says, stopped_by};

use crate::asked::Asked;
use crate::comparisons::comparison_told;
use crate::queries::query_told;
use crate::stop::Stop;
use crate::turned::{Turned, Why};
use ode_heap::Heap;
use ode_host::{Failed, Host};
use ode_keep::Keep;
use ode_script::refusal_line;
use ode_types::Classes;
use ode_value::List;
use std::alloc::{AllocError, Global};

/// What of a piece is printed, and whether it is refused.
#[derive(Drop)]
pub struct Said {
    pub text: List<u8>,
    pub refused: bool,
}

// What a piece says: the text of its answer, or why there is none.
#[tactic(auto, unfolding(ode_value::specs::Limits::statement_limit))]
fn told<H: Host, K: Keep<H>>(
    alloc: Global,
    asked: Asked,
    classes: &Classes,
    heap: &mut Heap<K>,
    host: &mut H,
    text: &[u8],
) -> Result<List<u8>, Turned>
    requires live { IsTrue (K.live heap.old) }
    requires short { length text.now ≤ statement_limit }
    ensures over { (l : Language) (entries : Entries) (w : ListWorld) → HoldsCounted l entries w → K.holds heap.old (H.view host.old) entries
        → classes.now ≡ map class_of w.bones.classes → AnswersOver (told asked w.bones text.now) result (K.holds heap.new (H.view host.new) entries) }
    ensures since { Since (H.view host.old) (H.view host.new) (K.live heap.new) (stopped_by result) }
{
    match asked {
        Asked::Queries => query_told(alloc, classes, heap, host, text),
        Asked::Comparisons => comparison_told(alloc, classes, text),
    }
}

// `refused LINE REASON`, of a reason in words.
fn refused_text(alloc: Global, line: u64, reason: &[u8]) -> Result<List<u8>, AllocError>
    ensures { IfOk result (λ text. text ≡ refused_text line reason.now) }
{
    let mut text = Vec::new(alloc);
    let front = format!(in alloc; "refused {line} ")?;
    text.extend_from_slice(front.as_bytes())?;
    text.extend_from_slice(reason)?;
    text.extend_from_slice(b"\n")?;
    Ok(List::from_vec(text))
}

// The line of a refusal.
fn refused_line(alloc: Global, line: u64, why: &Why) -> Result<List<u8>, AllocError>
    ensures { IfOk result (λ text. text ≡ refused_text line (why_text why.now)) }
{
    match why {
        Why::Refusal(refusal) => refusal_line(alloc, line, refusal),
        Why::NoRows(reason) => refused_text(alloc, line, reason.as_slice()),
    }
}

// What is printed of what a piece on this line comes to, or why nothing is.
fn said_of(alloc: Global, line: u64, told: Result<List<u8>, Turned>) -> Result<Said, Stop>
    ensures { Says line told result }
{
    match told {
        Ok(text) => Ok(Said {
            text,
            refused: false,
        }),
        Err(Turned::Refused(why)) => Ok(Said {
            text: refused_line(alloc, line, &why)?,
            refused: true,
        }),
        Err(Turned::Memory) => Err(Stop::Memory),
        Err(Turned::DiskFault) => Err(Stop::DiskFault),
        Err(Turned::Damaged { key }) => Err(Stop::Damaged { key }),
    }
}

/// Answers a piece and prints what it says: whether it is refused.
pub(crate) fn say_piece<H: Host, K: Keep<H>>(
    alloc: Global,
    asked: Asked,
    classes: &Classes,
    heap: &mut Heap<K>,
    host: &mut H,
    line: u64,
    text: &[u8],
) -> Result<bool, Stop>
    requires live { IsTrue (K.live heap.old) }
    requires short { length text.now ≤ statement_limit }
    ensures over { (l : Language) (entries : Entries) (w : ListWorld) → HoldsCounted l entries w → K.holds heap.old (H.view host.old) entries
        → classes.now ≡ map class_of w.bones.classes
        → PrintsOver (said asked w.bones line text.now) result (K.holds heap.new (H.view host.new) entries) (H.view host.old) (H.view host.new) }
    ensures usable { OnOk result (K.live heap.new ≡ true) }
    ensures spares { Spares (H.view host.old) (H.view host.new) }
    ensures leaves { HostCalls (IsErrOf result Stop.DiskFault) (IsErrOf result Stop.WriteFault) (H.view host.old) (H.view host.new) }
{
    let said = said_of(alloc, line, told(alloc, asked, classes, heap, host, text))?;
    match host.print(said.text.as_slice()) {
        Ok(()) => Ok(said.refused),
        Err(Failed) => Err(Stop::WriteFault),
    }
}
