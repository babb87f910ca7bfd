//! What a transaction looks at.
ghost use Rattle.std.specs.Prelude.{◌≡◌, IfErr, IfOk, OnOk, slice_get, true};
ghost use Rattle.std.specs.Option.{IfSome, is_some, option_and_then, option_map};
ghost use Rattle.ode_heap.specs.Answering.{head_of_object};
ghost use Rattle.ode_interpreter.specs.Seen.{IsFault};
ghost use Rattle.ode_run.specs.Contexts.{ContextRuns, parts_of};
ghost use Rattle.ode_run.specs.Knowing.{IsSound};
ghost use Rattle.ode_run.specs.Serving.{LeavesUsable};
ghost use Rattle.ode_schema.specs.Parts.{AreFit, trigger_under};
ghost use Rattle.ode_types.specs.Families.{class_numbered};
ghost use Rattle.ode_value.specs.Denoting.{object_at};
ghost use Rattle.ode_value.specs.Language.{Language, ListTx, ListWorld};
ghost use Rattle.ode_value.specs.declared.class.Class.{Class};
ghost use Rattle.ode_versions.specs.Versions.{IsVersionList};

use ode_heap::ObjectHead;
use ode_host::Host;
use ode_keep::Keep;
use ode_run::{Ctx, Stop, read, views_read_known};
use ode_types::Classes;
use ode_value::Kind;
use std::alloc::{AllocError, Global};

/// The class and the versions of an object, where it is there.
pub fn head<H: Host, K: Keep<H>>(
    ctx: &mut Ctx<K>,
    host: &mut H,
    id: u64,
) -> Result<Option<ObjectHead>, Stop>
    requires fit { AreFit (parts_of ctx.old) }
    ensures is { (l : Language) (w : ListWorld) (t : ListTx) → ContextRuns H.view K.holds K.live l w ctx.old host.old t
        → IfOk result (λ found. found ≡ option_map head_of_object (object_at t.now.bones id)) }
    ensures versions { IfOk result (λ found. IfSome found (λ head. IsVersionList head.versions)) }
    ensures stays { (l : Language) (w : ListWorld) (t : ListTx) → ContextRuns H.view K.holds K.live l w ctx.old host.old t
        → OnOk result (ContextRuns H.view K.holds K.live l w ctx.new host.new t) }
    // No record of such a context is damaged.
    ensures sound { (l : Language) (w : ListWorld) (t : ListTx) → ContextRuns H.view K.holds K.live l w ctx.old host.old t → IfErr result IsSound }
    // The keeper and the host's faults, whatever the records are.
    ensures faults { K.live ctx.old.heap ≡ true → LeavesUsable result (K.live ctx.new.heap) (H.view host.old) (H.view host.new) }
    ensures fault { IfErr result IsFault }
    ensures same { (parts_of ctx.new ≡ parts_of ctx.old) × (ctx.new.bytes ≡ ctx.old.bytes) }
{
    views_read_known();
    if !ctx.heap.live() {
        return Err(Stop::DiskFault);
    }
    read(ctx.overlay.object(&ctx.classes, &mut ctx.heap, host, id))
}

/// Whether a trigger is declared.
pub(crate) fn is_declared(classes: &Classes, class: u32, trigger: u16) -> bool
    ensures { result ≡ is_some (trigger_under classes.now class trigger) }
{
    match classes.class(class) {
        Some(class) => (trigger as usize) < class.triggers.len(),
        None => false,
    }
}

/// The kind at a place of those that a class lists.
pub(crate) fn kind_at(
    alloc: Global,
    classes: &Classes,
    class: u32,
    place: u32,
) -> Result<Option<Kind>, AllocError>
    ensures { IfOk result (λ kind. kind ≡ option_and_then (λ (c : Class). slice_get c.kinds place) (class_numbered classes.now class)) }
{
    match classes.class(class) {
        Some(class) => match class.kinds.as_slice().get(place as usize) {
            Some(kind) => Ok(Some(kind.copy(alloc)?)),
            None => Ok(None),
        },
        None => Ok(None),
    }
}
