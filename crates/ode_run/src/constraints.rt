//! Constraints are tested.
ghost use Rattle.std.specs.Prelude.{◌≡◌, ◌<◌, ℕ, List as Items, IfErr, IfOk, IsErrOf, IsTrue, None, map};
ghost use Rattle.std.specs.List.{All};
ghost use Rattle.ode_host.specs.Causes.{RoseIf};
ghost use Rattle.ode_host.specs.Host.{Looks};
ghost use Rattle.ode_interpreter.specs.Seen.{Ends, IsFault, Leaves};
ghost use Rattle.ode_keep.specs.Entries.{Entries};
ghost use Rattle.ode_known_laws.specs.Knowing.{declared_in};
ghost use Rattle.ode_laws.specs.Alike.{NumberTx};
ghost use Rattle.ode_objects.specs.Loading.{whole_in};
ghost use Rattle.ode_overlay.specs.Answers.{Answers, UnlessFault, from_records, is_usable};
ghost use Rattle.ode_overlay.specs.Layers.{tracked_at};
ghost use Rattle.ode_overlay_laws.specs.Standing.{object_as, version_as};
ghost use Rattle.ode_run.specs.Knowing.{Failed, IsRunning, Known, Lent, tx};
ghost use Rattle.ode_run.specs.Serving.{IsServing, Stops};
ghost use Rattle.ode_run.specs.Testing.{IsCalm, current_at, seen_as};
ghost use Rattle.ode_states.specs.Machine.{checked};
ghost use Rattle.ode_value.specs.Acts.{each};
ghost use Rattle.ode_value.specs.Classes.{constraints_of};
ghost use Rattle.ode_value.specs.Completing.{tests_all, tests_object, tests_touched};
ghost use Rattle.ode_value.specs.Constraints.{tests, tests_hard, tests_version};
ghost use Rattle.ode_value.specs.Denoting.{if_live, object_at};
ghost use Rattle.ode_value.specs.Versions as versions;
ghost use Rattle.ode_value.specs.Worlds as worlds;
ghost use Rattle.ode_value.specs.Worlds.{Declared};

use crate::places::touched_in;
use crate::stopping::read;
use crate::work::Work;
use ode_heap::Heap;
use ode_held_laws::objects_are_read_fresh;
use ode_host::Host;
use ode_interpreter::Stop;
use ode_keep::Keep;
use ode_objects::{Object, Version, load};
use ode_overlay::{Overlay, OverlayError};
use ode_run_frame::reason_of;
use ode_schema::{Constraints, Program};
use ode_symbols::test;
use ode_types::Classes;
use ode_value::{Constraint, Reason, Ref, Value};
use ode_view_laws::overlays_have_views;
use std::alloc::Global;

// A constraint on the fields of a version.
#[tactic(auto, using(crate::proofs::ConstraintLaws::holds, crate::proofs::ConstraintLaws::breaks, crate::proofs::ConstraintLaws::faults))]
fn test_one(alloc: Global, constraint: &Constraint, fields: &[Value]) -> Result<(), Stop>
    ensures tests { (v : versions.Version) (y : NumberTx) → v.fields ≡ fields.now → Ends result y (tests v constraint.now y) }
    ensures calm { IfErr result IsCalm }
{
    match test(&constraint.test, &[], &[], fields) {
        Ok(true) => Ok(()),
        Ok(false) => Err(Stop::Abort(Reason::Constraint(constraint.name.copy(alloc)?))),
        Err(fault) => Err(Stop::Abort(reason_of(fault))),
    }
}

// The constraints that are still to come, on them.
fn test_all(alloc: Global, constraints: &mut Constraints, fields: &[Value]) -> Result<(), Stop>
    ensures tests { (v : versions.Version) (y : NumberTx) → v.fields ≡ fields.now → Ends result y (each (tests v) constraints.old y) }
    ensures calm { IfErr result IsCalm }
{
    while let Some(constraint) = constraints.next() {
        test_one(alloc, constraint, fields)?;
    }
    Ok(())
}

// The soft constraints of a class, or the hard ones, on a version.
fn test_version(
    alloc: Global,
    program: &Program,
    class: u32,
    soft: bool,
    version: &Version,
) -> Result<(), Stop>
    ensures tests { (y : NumberTx) → checked y.now.bones.classes ≡ program.now.classes
        → Ends result y (each (tests (version_as version.now)) (constraints_of soft y.now.bones.classes class) y) }
    ensures calm { IfErr result IsCalm }
{
    let fields = version.fields.values();
    test_all(
        alloc,
        &mut program.constraints(class, soft),
        fields.as_slice(),
    )
}

// The soft ones, on versions of an object.
fn test_versions(
    alloc: Global,
    program: &Program,
    class: u32,
    versions: &[Version],
) -> Result<(), Stop>
    ensures tests { (o : worlds.Object) (y : NumberTx) → checked y.now.bones.classes ≡ program.now.classes → o.class ≡ class
        → Ends result y (each (tests_version o) (map version_as versions.now) y) }
    ensures calm { IfErr result IsCalm }
{
    for version in versions {
        test_version(alloc, program, class, true, version)?;
    }
    Ok(())
}

// The soft ones, on an object that may be gone.
fn test_object(alloc: Global, program: &Program, object: &Object) -> Result<(), Stop>
    ensures tests { (id : ℕ) (y : NumberTx) → checked y.now.bones.classes ≡ program.now.classes
        → Ends result y (tests_object (if_live (object_as id object.now)) y) }
    ensures calm { IfErr result IsCalm }
{
    if object.live {
        test_versions(alloc, program, object.class, object.versions.as_slice())
    } else {
        Ok(())
    }
}

// The soft ones, on an object that is there only if it is tracked.
fn test_tracked(alloc: Global, program: &Program, overlay: &Overlay, id: u64) -> Result<(), Stop>
    ensures tests { (y : NumberTx) → checked y.now.bones.classes ≡ program.now.classes → object_at y.now.bones id ≡ current_at id overlay.now
        → Ends result y (tests_touched id y) }
    ensures calm { IfErr result IsCalm }
{
    match overlay.tracked(id) {
        Some(tracked) => test_object(alloc, program, &tracked.current),
        None => Ok(()),
    }
}

// The soft ones, on such objects.
fn test_each(alloc: Global, program: &Program, overlay: &Overlay, ids: &[u64]) -> Result<(), Stop>
    ensures tests { (y : NumberTx) → checked y.now.bones.classes ≡ program.now.classes
        → All (λ id. object_at y.now.bones id ≡ current_at id overlay.now) ids.now → Ends result y (each tests_touched ids.now y) }
    ensures calm { IfErr result IsCalm }
{
    for id in ids {
        test_tracked(alloc, program, overlay, *id)?;
    }
    Ok(())
}

// The hard constraints, on the version of an object that a reference denotes. The object may be gone.
fn test_denoted(alloc: Global, program: &Program, of: Ref, object: &Object) -> Result<(), Stop>
    ensures tests { (y : NumberTx) → checked y.now.bones.classes ≡ program.now.classes → 0 < of.object
        → object_at y.now.bones of.object ≡ if_live (object_as of.object object.now) → Ends result y (tests_hard of y) }
    ensures calm { IfErr result IsCalm }
{
    if !object.live {
        return Err(Stop::Abort(Reason::NoObject(of.object)));
    }
    match object.version(of.version) {
        Some(version) => test_version(alloc, program, object.class, false, version),
        None => Err(Stop::Abort(Reason::NoVersion(of))),
    }
}

// What the records have of an object, whole.
fn load_whole<H: Host, K: Keep<H>>(
    alloc: Global,
    classes: &Classes,
    heap: &mut Heap<K>,
    host: &mut H,
    id: u64,
) -> Result<Option<Object>, OverlayError>
    requires live { IsTrue (K.live heap.old) }
    ensures value { (base : Entries) → K.holds heap.old (H.view host.old) base → Answers result (from_records (whole_in classes.now base id)) }
    ensures holds { UnlessFault result ((base : Entries) → K.holds heap.old (H.view host.old) base → K.holds heap.new (H.view host.new) base) }
    ensures looks { Looks (H.view host.old) (H.view host.new) }
    ensures usable { K.live heap.new ≡ is_usable result }
    ensures cause { RoseIf (IsErrOf result OverlayError.DiskFault) (H.view host.old).disk_faults (H.view host.new).disk_faults }
{
    Ok(load(alloc, classes, heap, host, id)?)
}

impl<'a, H: Host, K: Keep<H>> Work<'a, H, K> {
    /// An object that isn't tracked, as it is now.
    pub(crate) fn untracked(
        &mut self,
        alloc: Global,
        classes: &Classes,
        id: u64,
    ) -> Result<Option<Object>, Stop>
        ensures value { (all : Items Declared) (k : Known H) → classes.now ≡ declared_in k.first → IsRunning H.view K.holds K.live self.old k
            → tracked_at id self.old.overlay.now ≡ None → IfOk result (λ found. object_at (tx all k self.old).now.bones id ≡ seen_as id found) }
        ensures same { (self.new.overlay.now ≡ self.old.overlay.now) × (self.new.deferred.now ≡ self.old.deferred.now) × (self.new.text.now ≡ self.old.text.now) × (self.new.budget.now ≡ self.old.budget.now) }
        ensures fault { IfErr result IsFault }
        ensures kept { (k : Known H) → classes.now ≡ declared_in k.first → IsRunning H.view K.holds K.live self.old k
            → Leaves result (IsRunning H.view K.holds K.live self.new k) (Failed H.view self.new.host.now k) }
        ensures faults { (began : H) → IsServing H.view K.live began self.old → Leaves result (IsServing H.view K.live began self.new) (Stops (H.view began) (H.view self.new.host.now)) }
        ensures lent { (k : Known H) → Lent k self.old → Lent k self.new }
    {
        overlays_have_views();
        objects_are_read_fresh();
        if !self.heap.live() {
            return Err(Stop::DiskFault);
        }
        read(load_whole(alloc, classes, self.heap, self.host, id))
    }

    // The hard constraints, on the version that a reference denotes, where its object isn't tracked.
    fn test_untracked(&mut self, alloc: Global, program: &Program, of: Ref) -> Result<(), Stop>
        ensures acts { (all : Items Declared) (k : Known H) → checked all ≡ program.now.classes → program.now.classes ≡ declared_in k.first → IsRunning H.view K.holds K.live self.old k
            → 0 < of.object → tracked_at of.object self.old.overlay.now ≡ None → Ends result (tx all k self.new) (tests_hard of (tx all k self.old)) }
        ensures kept { (k : Known H) → program.now.classes ≡ declared_in k.first → IsRunning H.view K.holds K.live self.old k
            → Leaves result (IsRunning H.view K.holds K.live self.new k) (Failed H.view self.new.host.now k) }
        ensures faults { (began : H) → IsServing H.view K.live began self.old → Leaves result (IsServing H.view K.live began self.new) (Stops (H.view began) (H.view self.new.host.now)) }
        ensures lent { (k : Known H) → Lent k self.old → Lent k self.new }
    {
        match self.untracked(alloc, program.classes(), of.object)? {
            Some(object) => test_denoted(alloc, program, of, &object),
            None => Err(Stop::Abort(Reason::NoObject(of.object))),
        }
    }

    /// The hard constraints hold on the version that a reference denotes.
    pub fn test_hard(&mut self, alloc: Global, program: &Program, of: Ref) -> Result<(), Stop>
        ensures acts { (all : Items Declared) (k : Known H) → checked all ≡ program.now.classes → program.now.classes ≡ declared_in k.first → IsRunning H.view K.holds K.live self.old k
            → Ends result (tx all k self.new) (tests_hard of (tx all k self.old)) }
        ensures kept { (k : Known H) → program.now.classes ≡ declared_in k.first → IsRunning H.view K.holds K.live self.old k
            → Leaves result (IsRunning H.view K.holds K.live self.new k) (Failed H.view self.new.host.now k) }
        ensures faults { (began : H) → IsServing H.view K.live began self.old → Leaves result (IsServing H.view K.live began self.new) (Stops (H.view began) (H.view self.new.host.now)) }
        ensures lent { (k : Known H) → Lent k self.old → Lent k self.new }
    {
        overlays_have_views();
        if of.object == 0 {
            return Err(Stop::Abort(Reason::NoObject(0)));
        }
        match self.overlay.tracked(of.object) {
            Some(tracked) => test_denoted(alloc, program, of, &tracked.current),
            None => self.test_untracked(alloc, program, of),
        }
    }

    /// The soft constraints hold on all versions of the touched objects that are there, by a look at each.
    pub fn test_soft(&mut self, alloc: Global, program: &Program) -> Result<(), Stop>
        ensures acts { (all : Items Declared) (k : Known H) → checked all ≡ program.now.classes → program.now.classes ≡ declared_in k.first → IsRunning H.view K.holds K.live self.old k
            → Ends result (tx all k self.new) (tests_all (tx all k self.old)) }
        ensures kept { (k : Known H) → program.now.classes ≡ declared_in k.first → IsRunning H.view K.holds K.live self.old k
            → Leaves result (IsRunning H.view K.holds K.live self.new k) (Failed H.view self.new.host.now k) }
        ensures faults { (began : H) → IsServing H.view K.live began self.old → Leaves result (IsServing H.view K.live began self.new) (Stops (H.view began) (H.view self.new.host.now)) }
        ensures lent { (k : Known H) → Lent k self.old → Lent k self.new }
    {
        overlays_have_views();
        let ids = touched_in(alloc, self.overlay)?;
        self.look_all(program.classes(), ids.as_slice())?;
        test_each(alloc, program, self.overlay, ids.as_slice())
    }
}
