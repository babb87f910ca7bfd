//! The text of a query's answer.
ghost use Rattle.std.specs.Prelude.{◌≡◌, ◌<◌, ◌^◌, IsTrue, Some, length, map};
ghost use Rattle.ode_heap.specs.Answering.{class_of};
ghost use Rattle.ode_heap_laws.specs.Few.{HoldsCounted};
ghost use Rattle.ode_keep.specs.Entries.{Entries};
ghost use Rattle.ode_query.specs.Texts.{Unanswered, answered, unanswered_by};
ghost use Rattle.ode_run_frame.specs.Knowing.{Since};
ghost use Rattle.ode_value.specs.Language.{Language, ListWorld};
ghost use Rattle.ode_questions.specs.Saying.{checked_in, query_told, rows_told};
ghost use Rattle.ode_questions.specs.Steps.{AnswersOver, IsTurnedBy, TurnsFor, stopped_by};

use crate::literals::classes_behind;
use crate::turned::{Turned, Why};
use ode_asksyn::{Query, read_query};
use ode_heap::Heap;
use ode_host::Host;
use ode_keep::Keep;
use ode_query::{QueryError, answer, check_query, query_literals, rows_text, unanswered_text};
use ode_types::Classes;
use ode_value::List;
use std::alloc::Global;

// A query as it is checked: its literals in the records, then the static rules.
fn checked<H: Host, K: Keep<H>>(
    alloc: Global,
    classes: &Classes,
    heap: &mut Heap<K>,
    host: &mut H,
    q: &Query,
) -> Result<Query, Turned>
    requires live { IsTrue (K.live heap.old) }
    ensures over { (l : Language) (entries : Entries) (w : ListWorld) → HoldsCounted l entries w → K.holds heap.old (H.view host.old) entries
        → classes.now ≡ map class_of w.bones.classes → AnswersOver (checked_in w.bones q.now) result (K.holds heap.new (H.view host.new) entries) }
    ensures since { Since (H.view host.old) (H.view host.new) (K.live heap.new) (stopped_by result) }
{
    let refs = query_literals(alloc, q)?;
    let literals = classes_behind(alloc, heap, host, refs.as_slice())?;
    let q = check_query(alloc, classes, &literals, q)?;
    Ok(q)
}

// A reason why a query has no rows, in words.
fn no_rows(alloc: Global, error: &QueryError) -> Turned
    ensures { (why : Unanswered) → unanswered_by error.now ≡ Some why → TurnsFor why result }
{
    match unanswered_text(alloc, error) {
        Ok(Some(reason)) => Turned::Refused(Why::NoRows(reason)),
        Ok(None) | Err(_) => Turned::Memory,
    }
}

// Why a query has no rows, or what stopped it.
fn unanswered(alloc: Global, error: QueryError) -> Turned
    ensures { IsTurnedBy error result }
{
    match error {
        QueryError::Memory => Turned::Memory,
        QueryError::DiskFault => Turned::DiskFault,
        QueryError::Damaged { key } => Turned::Damaged { key },
        QueryError::TooManyRows { .. } | QueryError::Fault(_) | QueryError::Output => {
            no_rows(alloc, &error)
        }
    }
}

// The text of the rows of a checked query.
fn rows_of<H: Host, K: Keep<H>>(
    alloc: Global,
    classes: &Classes,
    heap: &mut Heap<K>,
    host: &mut H,
    q: &Query,
) -> Result<List<u8>, Turned>
    requires live { IsTrue (K.live heap.old) }
    ensures over { (l : Language) (entries : Entries) (w : ListWorld) → HoldsCounted l entries w → K.holds heap.old (H.view host.old) entries
        → classes.now ≡ map class_of w.bones.classes → AnswersOver (rows_told (answered w.bones q.now)) result (K.holds heap.new (H.view host.new) entries) }
    ensures since { Since (H.view host.old) (H.view host.new) (K.live heap.new) (stopped_by result) }
{
    match answer(alloc, q, classes, heap, host) {
        Ok(rows) => Ok(rows_text(alloc, rows.as_slice())?),
        Err(error) => Err(unanswered(alloc, error)),
    }
}

/// The text of the answer to a query, which is a piece of fewer than 2^32 bytes, or why there is none.
#[tactic(auto, unfolding(crate::specs::Saying::query_told))]
pub(crate) fn query_told<H: Host, K: Keep<H>>(
    alloc: Global,
    classes: &Classes,
    heap: &mut Heap<K>,
    host: &mut H,
    text: &[u8],
) -> Result<List<u8>, Turned>
    requires live { IsTrue (K.live heap.old) }
    requires short { length text.now < 2 ^ 32 }
    ensures over { (l : Language) (entries : Entries) (w : ListWorld) → HoldsCounted l entries w → K.holds heap.old (H.view host.old) entries
        → classes.now ≡ map class_of w.bones.classes → AnswersOver (query_told w.bones text.now) result (K.holds heap.new (H.view host.new) entries) }
    ensures since { Since (H.view host.old) (H.view host.new) (K.live heap.new) (stopped_by result) }
{
    let q = read_query(alloc, text)?;
    let q = checked(alloc, classes, heap, host, &q)?;
    rows_of(alloc, classes, heap, host, &q)
}
