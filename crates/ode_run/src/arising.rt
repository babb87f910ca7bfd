//! What a point makes of the activations of an object.
ghost use Rattle.std.specs.Prelude.{◌≡◌, All, IfErr, IfOk, OnOk, Ok, Some, map};
ghost use Rattle.std.specs.List.{AllByRecursion};
ghost use Rattle.std.specs.Option.{IsSome, option_copied};
ghost use Rattle.ode_arising_laws.specs.Arising.{HasShortArgs, IsGoing, firing_by, live_in};
ghost use Rattle.ode_interpreter.specs.Seen.{IsFault, IsShort, Leaves};
ghost use Rattle.ode_known_laws.specs.Knowing.{declared_in};
ghost use Rattle.ode_objects.specs.declared.object.Object.{Object as Held};
ghost use Rattle.ode_overlay.specs.Changing.{put_acts};
ghost use Rattle.ode_overlay.specs.Reading.{acts};
ghost use Rattle.ode_overlay_laws.specs.Standing.{object_as};
ghost use Rattle.ode_point_laws.specs.Points.{point_of};
ghost use Rattle.ode_run.specs.Knowing.{Failed, IsRunning, Known, Lent};
ghost use Rattle.ode_run.specs.Serving.{IsServing, Stops};
ghost use Rattle.ode_states.specs.Advance.{advanced, fired_in};
ghost use Rattle.ode_value.specs.Firings.{current_fields};

use crate::stopping::read;
use crate::work::Work;
use ode_arising_laws::activations_go_on;
use ode_held_laws::objects_are_read_fresh;
use ode_host::Host;
use ode_interpreter::{Firing, Stop, Trigger};
use ode_keep::Keep;
use ode_known_laws::puts_known;
use ode_objects::Object;
use ode_overlay::Overlay;
use ode_schema::Program;
use ode_states::{Fired, advance};
use ode_types::{Classes, Running};
use ode_value::{Kind, List, Value};
use ode_view_laws::overlays_have_views;
use std::alloc::{AllocError, Global};

// ---- the object of a point

// A tracked object, where it is there.
pub(crate) fn live_in(overlay: &Overlay, id: u64) -> Option<&Object>
    ensures { option_copied result ≡ live_in id overlay.now }
{
    let tracked = overlay.tracked(id)?;
    if tracked.current.live {
        Some(&tracked.current)
    } else {
        None
    }
}

// The fields of an object's current version.
#[tactic(auto, using(crate::proofs::ArisingLaws::fields_of, crate::proofs::ArisingLaws::no_fields))]
fn fields_now(object: &Object) -> &[Value]
    ensures { result.now ≡ current_fields (object_as 0 object.now) }
{
    match object.version(None) {
        Some(version) => version.fields.values().as_slice(),
        None => &[],
    }
}

fn fields_in(overlay: &Overlay, id: u64) -> &[Value]
    ensures { (o : Held) → live_in id overlay.now ≡ Some o → result.now ≡ current_fields (object_as id o) }
{
    match live_in(overlay, id) {
        Some(object) => fields_now(object),
        None => &[],
    }
}

// ---- its activations

// The firings of an object.
fn firings_of(alloc: Global, id: u64, fired: List<Fired>) -> Result<List<Firing>, AllocError>
    ensures { IfOk result (λ firings. firings ≡ map (firing_by id) fired) }
{
    let mut firings = List::new(alloc);
    for f in fired.into_vec() {
        firings.push(Firing {
            object: id,
            activation: f.activation,
            trigger: Trigger {
                class: f.class,
                place: f.trigger,
            },
            args: f.args,
        })?;
    }
    Ok(firings)
}

// Activations of an object go on by a point: the firings there.
#[tactic(auto, using(ode_arising_laws::proofs::GoingLaws::fired_short, ode_arising_laws::proofs::GoingLaws::told_short))]
pub(crate) fn go_on(
    alloc: Global,
    program: &Program,
    overlay: &Overlay,
    id: u64,
    there: &mut List<Running>,
    kind: &Kind,
    args: &[Value],
) -> Result<List<Firing>, AllocError>
    ensures acts { (o : Held) → live_in id overlay.now ≡ Some o
        → OnOk result (there.new ≡ map (advanced program.now.tables program.now.alphabets program.now.classes (point_of id o kind.now args.now)) there.old) }
    ensures fired { (o : Held) → live_in id overlay.now ≡ Some o
        → IfOk result (λ firings. firings ≡ map (firing_by id) (fired_in program.now.tables program.now.alphabets program.now.classes (point_of id o kind.now args.now) there.old)) }
    ensures short { AllByRecursion HasShortArgs there.old → IfOk result (All IsShort) }
{
    let fired = advance(
        alloc,
        program.tables(),
        program.alphabets(),
        there,
        program.classes(),
        kind,
        args,
        fields_in(overlay, id),
    )?;
    firings_of(alloc, id, fired)
}

impl<'a, H: Host, K: Keep<H>> Work<'a, H, K> {
    // The activations of an object that is there. Each goes on by its trigger's table.
    pub(crate) fn activations(&mut self, program: &Program, id: u64) -> Result<List<Running>, Stop>
        requires there { IsSome (live_in id self.old.overlay.now) }
        ensures value { (k : Known H) → program.now.classes ≡ declared_in k.first → IsRunning H.view K.holds K.live self.old k
            → IfOk result (λ there. acts program.now.classes k.entries id program.now.maps self.old.overlay.now ≡ Ok there) }
        ensures going { (k : Known H) → program.now.classes ≡ declared_in k.first → IsRunning H.view K.holds K.live self.old k
            → (o : Held) → live_in id self.old.overlay.now ≡ Some o → IfOk result (AllByRecursion (IsGoing program.now o.class)) }
        ensures short { IfOk result (AllByRecursion HasShortArgs) }
        ensures fault { IfErr result IsFault }
        ensures same { (self.new.overlay.now ≡ self.old.overlay.now) × (self.new.deferred.now ≡ self.old.deferred.now) × (self.new.text.now ≡ self.old.text.now) × (self.new.budget.now ≡ self.old.budget.now) }
        ensures kept { (k : Known H) → program.now.classes ≡ declared_in k.first → IsRunning H.view K.holds K.live self.old k
            → Leaves result (IsRunning H.view K.holds K.live self.new k) (Failed H.view self.new.host.now k) }
        ensures faults { (began : H) → IsServing H.view K.live began self.old → Leaves result (IsServing H.view K.live began self.new) (Stops (H.view began) (H.view self.new.host.now)) }
        ensures lent { (k : Known H) → Lent k self.old → Lent k self.new }
    {
        activations_go_on();
        // Read, so that the tables are known to fit, and the classes as checked.
        let _fit = program.tables();
        let _checked = program.classes().as_slice();
        if !self.heap.live() {
            return Err(Stop::DiskFault);
        }
        read(self.overlay.acts(program.classes(), self.heap, self.host, id, program.maps()))
    }

    // The activations of an object are these from now on. It is never refused.
    pub(crate) fn put_back(
        &mut self,
        classes: &Classes,
        id: u64,
        there: List<Running>,
    ) -> Result<(), Stop>
        ensures puts { (k : Known H) → classes.now ≡ declared_in k.first → IsRunning H.view K.holds K.live self.old k
            → IfOk result (λ done. put_acts classes.now k.entries id there self.old.overlay.now ≡ Ok (tt, self.new.overlay.now)) }
        ensures fault { IfErr result IsFault }
        ensures same { (self.new.deferred.now ≡ self.old.deferred.now) × (self.new.text.now ≡ self.old.text.now) × (self.new.budget.now ≡ self.old.budget.now) }
        ensures kept { (k : Known H) → classes.now ≡ declared_in k.first → IsRunning H.view K.holds K.live self.old k
            → Leaves result (IsRunning H.view K.holds K.live self.new k) (Failed H.view self.new.host.now k) }
        ensures faults { (began : H) → IsServing H.view K.live began self.old → Leaves result (IsServing H.view K.live began self.new) (Stops (H.view began) (H.view self.new.host.now)) }
        ensures lent { (k : Known H) → Lent k self.old → Lent k self.new }
    {
        puts_known();
        overlays_have_views();
        objects_are_read_fresh();
        if !self.heap.live() {
            return Err(Stop::DiskFault);
        }
        read(
            self.overlay
                .put_acts(classes, self.heap, self.host, id, there),
        )
    }
}
