//! The value of an expression over a heap and an overlay.
ghost use Rattle.std.specs.Prelude.{◌≡◌, ◌++◌, IsTrue, None};
ghost use Rattle.ode_expr.specs.Answers.{Answers, LookedAs, stopped_by};
ghost use Rattle.ode_keep.specs.Entries.{Entries};
ghost use Rattle.ode_run_frame.specs.Knowing.{Behind, Since};
ghost use Rattle.ode_run_frame.specs.Reads.{Reads};
ghost use Rattle.ode_value.specs.Evaluation.{evaluate as value_of, looks_in};
ghost use Rattle.ode_value.specs.Worlds.{Bones};

use crate::reading::Reading;
use crate::unread::Unread;
use ode_expr::{EvalStop, eval};
use ode_heap::Heap;
use ode_host::Host;
use ode_interpreter::Scene;
use ode_keep::Keep;
use ode_overlay::Overlay;
use ode_types::Classes;
use ode_value::{Expr, List, Value};
use std::alloc::Global;

/// What an expression came to, and the objects that it looked at, in order.
#[derive(Drop)]
pub struct Evaluated {
    pub value: Result<Value, EvalStop<Unread>>,
    pub looked: List<u64>,
}

// The value of an expression, or its fault; what it looks at joins a list.
fn evaluate_in<'a, H: Host, K: Keep<H>>(
    alloc: Global,
    scene: &'a Scene,
    classes: &'a Classes,
    overlay: &'a Overlay,
    heap: &'a mut Heap<K>,
    host: &'a mut H,
    looked: &'a mut List<u64>,
    e: &Expr,
) -> Result<Value, EvalStop<Unread>>
    requires live { IsTrue (K.live heap.old) }
    ensures value { (base : Entries) (b : Bones) → K.holds heap.old (H.view host.old) base → Reads classes.now base overlay.now b
        → Answers (value_of e.now b (record { this = scene.now.this; locals = scene.now.locals })) result }
    ensures looks { (base : Entries) (b : Bones) → K.holds heap.old (H.view host.old) base → Reads classes.now base overlay.now b
        → LookedAs result looked.new (looked.old ++ looks_in e.now b (record { this = scene.now.this; locals = scene.now.locals })) }
    ensures behind { (base : Entries) (b : Bones) → K.holds heap.old (H.view host.old) base → Reads classes.now base overlay.now b
        → Behind (H.view host.old) (H.view host.new) (K.holds heap.new (H.view host.new)) (K.live heap.new) (stopped_by result None) base }
    ensures since { Since (H.view host.old) (H.view host.new) (K.live heap.new) (stopped_by result None) }
{
    let mut frame = Reading {
        scene,
        classes,
        overlay,
        heap,
        host,
        looked,
        stopped: None,
    };
    eval(alloc, e, &mut frame)
}

/// The value of an expression, or its fault, and what it looked at: those of the machine over the bones that are read through the
/// overlay.
pub fn evaluate<H: Host, K: Keep<H>>(
    alloc: Global,
    scene: &Scene,
    classes: &Classes,
    overlay: &Overlay,
    heap: &mut Heap<K>,
    host: &mut H,
    e: &Expr,
) -> Evaluated
    requires live { IsTrue (K.live heap.old) }
    ensures value { (base : Entries) (b : Bones) → K.holds heap.old (H.view host.old) base → Reads classes.now base overlay.now b
        → Answers (value_of e.now b (record { this = scene.now.this; locals = scene.now.locals })) result.value }
    ensures looks { (base : Entries) (b : Bones) → K.holds heap.old (H.view host.old) base → Reads classes.now base overlay.now b
        → LookedAs result.value result.looked (looks_in e.now b (record { this = scene.now.this; locals = scene.now.locals })) }
    ensures behind { (base : Entries) (b : Bones) → K.holds heap.old (H.view host.old) base → Reads classes.now base overlay.now b
        → Behind (H.view host.old) (H.view host.new) (K.holds heap.new (H.view host.new)) (K.live heap.new) (stopped_by result.value None) base }
    ensures since { Since (H.view host.old) (H.view host.new) (K.live heap.new) (stopped_by result.value None) }
{
    let mut looked = List::new(alloc);
    let value = evaluate_in(alloc, scene, classes, overlay, heap, host, &mut looked, e);
    Evaluated { value, looked }
}
