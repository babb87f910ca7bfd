//! One combination of objects: whether it passes, and its row.
ghost use Rattle.std.specs.Prelude.{◌≡◌, ℕ, IfOk, IsErrOf, IsTrue, List as Items, Ok, true};
ghost use Rattle.ode_host.specs.Causes.{RoseIf};
ghost use Rattle.ode_host.specs.Host.{Looks};
ghost use Rattle.ode_keep.specs.Entries.{Entries};
ghost use Rattle.ode_query.specs.Answers.{Says, UnlessFault};
ghost use Rattle.ode_query.specs.Errors.{stopped_by};
ghost use Rattle.ode_query.specs.Rows.{frame_of, passes, reference_to, row_of, values_of};
ghost use Rattle.ode_run_frame.specs.Reads.{Reads};
ghost use Rattle.ode_value.specs.Evaluation.{evaluate as meant_by};
ghost use Rattle.ode_value.specs.Worlds.{Bones};

use crate::error::QueryError;
use crate::row::Row;
use ode_asksyn::Query;
use ode_expr::EvalStop;
use ode_heap::Heap;
use ode_host::Host;
use ode_interpreter::Scene;
use ode_keep::Keep;
use ode_overlay::Overlay;
use ode_run_frame::{Evaluated, Unread, evaluate};
use ode_types::Classes;
use ode_value::{Expr, List, Ref, Value};
use std::alloc::{AllocError, Global};

fn reference_to(number: u64) -> Value
    ensures { result ≡ reference_to number }
{
    Value::Reference(Ref {
        object: number,
        version: None,
    })
}

/// What a combination's expressions are evaluated on: a reference to each of its objects.
pub(crate) fn scene_of(alloc: Global, numbers: &[u64]) -> Result<Scene, AllocError>
    ensures { IfOk result (λ scene. record { this = scene.this; locals = scene.locals } ≡ frame_of numbers.now) }
{
    let mut locals = List::new(alloc);
    for number in numbers {
        locals.push(reference_to(*number))?;
    }
    Ok(Scene {
        this: Ref {
            object: 0,
            version: None,
        },
        locals,
    })
}

fn stopped_by(stop: EvalStop<Unread>) -> QueryError
    ensures { result ≡ stopped_by stop }
{
    match stop {
        EvalStop::Memory => QueryError::Memory,
        EvalStop::Fault(fault) => QueryError::Fault(fault),
        EvalStop::Frame(Unread::DiskFault) => QueryError::DiskFault,
        EvalStop::Frame(Unread::Damaged { key }) => QueryError::Damaged { key },
    }
}

pub(crate) fn value_of<H: Host, K: Keep<H>>(
    alloc: Global,
    scene: &Scene,
    classes: &Classes,
    overlay: &Overlay,
    heap: &mut Heap<K>,
    host: &mut H,
    e: &Expr,
) -> Result<Value, QueryError>
    requires live { IsTrue (K.live heap.old) }
    ensures value { (base : Entries) (b : Bones) → K.holds heap.old (H.view host.old) base → Reads classes.now base overlay.now b
        → Says (meant_by e.now b (record { this = scene.now.this; locals = scene.now.locals })) result }
    ensures holds { (base : Entries) (b : Bones) → K.holds heap.old (H.view host.old) base → Reads classes.now base overlay.now b
        → UnlessFault result (K.holds heap.new (H.view host.new) base) }
    ensures usable { UnlessFault result (K.live heap.new ≡ true) }
    ensures looks { Looks (H.view host.old) (H.view host.new) }
    ensures cause { RoseIf (IsErrOf result QueryError.DiskFault) (H.view host.old).disk_faults (H.view host.new).disk_faults }
{
    let Evaluated { value, .. } = evaluate(alloc, scene, classes, overlay, heap, host, e);
    match value {
        Ok(value) => Ok(value),
        Err(stop) => Err(stopped_by(stop)),
    }
}

// The values of expressions, or the first fault.
fn values_of<H: Host, K: Keep<H>>(
    alloc: Global,
    scene: &Scene,
    classes: &Classes,
    overlay: &Overlay,
    heap: &mut Heap<K>,
    host: &mut H,
    es: &[Expr],
) -> Result<List<Value>, QueryError>
    requires live { IsTrue (K.live heap.old) }
    ensures value { (base : Entries) (b : Bones) (numbers : Items ℕ) → K.holds heap.old (H.view host.old) base → Reads classes.now base overlay.now b
        → record { this = scene.now.this; locals = scene.now.locals } ≡ frame_of numbers → Says (values_of b es.now numbers) result }
    ensures holds { (base : Entries) (b : Bones) → K.holds heap.old (H.view host.old) base → Reads classes.now base overlay.now b
        → UnlessFault result (K.holds heap.new (H.view host.new) base) }
    ensures usable { UnlessFault result (K.live heap.new ≡ true) }
    ensures looks { Looks (H.view host.old) (H.view host.new) }
    ensures cause { RoseIf (IsErrOf result QueryError.DiskFault) (H.view host.old).disk_faults (H.view host.new).disk_faults }
{
    let mut values = List::new(alloc);
    for e in es {
        let value = value_of(alloc, scene, classes, overlay, heap, host, e)?;
        values.push(value)?;
    }
    Ok(values)
}

/// Whether the test is true. A fault isn't.
pub(crate) fn passes<H: Host, K: Keep<H>>(
    alloc: Global,
    scene: &Scene,
    classes: &Classes,
    overlay: &Overlay,
    heap: &mut Heap<K>,
    host: &mut H,
    test: &Option<Expr>,
) -> Result<bool, QueryError>
    requires live { IsTrue (K.live heap.old) }
    ensures value { (base : Entries) (b : Bones) (numbers : Items ℕ) → K.holds heap.old (H.view host.old) base → Reads classes.now base overlay.now b
        → record { this = scene.now.this; locals = scene.now.locals } ≡ frame_of numbers → Says (Ok (passes b test.now numbers)) result }
    ensures holds { (base : Entries) (b : Bones) → K.holds heap.old (H.view host.old) base → Reads classes.now base overlay.now b
        → UnlessFault result (K.holds heap.new (H.view host.new) base) }
    ensures usable { UnlessFault result (K.live heap.new ≡ true) }
    ensures looks { Looks (H.view host.old) (H.view host.new) }
    ensures cause { RoseIf (IsErrOf result QueryError.DiskFault) (H.view host.old).disk_faults (H.view host.new).disk_faults }
{
    let Some(e) = test else {
        return Ok(true);
    };
    match value_of(alloc, scene, classes, overlay, heap, host, e) {
        Ok(Value::Bool(passed)) => Ok(passed),
        Ok(_) | Err(QueryError::Fault(_)) => Ok(false),
        Err(error) => Err(error),
    }
}

/// The row of a combination behind what it is sorted by, or the first fault of these.
pub(crate) fn row_of<H: Host, K: Keep<H>>(
    alloc: Global,
    scene: &Scene,
    classes: &Classes,
    overlay: &Overlay,
    heap: &mut Heap<K>,
    host: &mut H,
    q: &Query,
) -> Result<(List<Value>, Row), QueryError>
    requires live { IsTrue (K.live heap.old) }
    ensures value { (base : Entries) (b : Bones) (numbers : Items ℕ) → K.holds heap.old (H.view host.old) base → Reads classes.now base overlay.now b
        → record { this = scene.now.this; locals = scene.now.locals } ≡ frame_of numbers → Says (row_of b q.now numbers) result }
    ensures holds { (base : Entries) (b : Bones) → K.holds heap.old (H.view host.old) base → Reads classes.now base overlay.now b
        → UnlessFault result (K.holds heap.new (H.view host.new) base) }
    ensures usable { UnlessFault result (K.live heap.new ≡ true) }
    ensures looks { Looks (H.view host.old) (H.view host.new) }
    ensures cause { RoseIf (IsErrOf result QueryError.DiskFault) (H.view host.old).disk_faults (H.view host.new).disk_faults }
{
    let by = values_of(alloc, scene, classes, overlay, heap, host, q.by.as_slice())?;
    let show = q.show.as_slice();
    let values = values_of(alloc, scene, classes, overlay, heap, host, show)?;
    Ok((by, Row { values }))
}
