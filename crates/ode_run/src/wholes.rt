//! Points arise, in both lists of points or in that of all points alone.
ghost use Rattle.std.specs.Prelude.{◌≡◌, ◌∷◌, List as Items, All, IfOk, OnOk, Some, cond, drop, filter, map, true};
ghost use Rattle.std.specs.List.{AllByRecursion};
ghost use Rattle.std.specs.Option.{IsSome};
ghost use Rattle.ode_arising_laws.specs.Arising.{HasShortArgs, firing_by, live_in};
ghost use Rattle.ode_interpreter.specs.Seen.{EndsBy, IsShort, Leaves, firing};
ghost use Rattle.ode_known_laws.specs.Knowing.{declared_in};
ghost use Rattle.ode_objects.specs.declared.object.Object.{Object as Held};
ghost use Rattle.ode_point_laws.specs.Points.{point_of, sees_whole};
ghost use Rattle.ode_run.specs.Knowing.{Failed, IsRunning, Known, Lent, tx};
ghost use Rattle.ode_run.specs.Serving.{IsServing, Stops};
ghost use Rattle.ode_run.specs.Wholes.{merged, standing_as};
ghost use Rattle.ode_schema.specs.Parts.{table_by, trigger_of};
ghost use Rattle.ode_states.specs.Advance.{advanced, fired_in};
ghost use Rattle.ode_states.specs.Machine.{checked};
ghost use Rattle.ode_types.specs.declared.running.Running.{Running as Going};
ghost use Rattle.ode_value.specs.Firings.{arises, both_lists, whole_list};
ghost use Rattle.ode_value.specs.Pasts.{numbers};
ghost use Rattle.ode_value.specs.Posting.{is_touched};
ghost use Rattle.ode_value.specs.Worlds.{Declared};

use crate::arising::{go_on, live_in};
use crate::work::Work;
use ode_arising_laws::points_show;
use ode_host::Host;
use ode_interpreter::{Firing, Stop};
use ode_keep::Keep;
use ode_overlay::Overlay;
use ode_schema::Program;
use ode_types::Running;
use ode_value::{Kind, List, Reason, Value};
use std::alloc::{AllocError, Global};
use std::mem;

// Whether an activation is of a trigger that sees whole histories.
fn sees_whole(program: &Program, a: &Running) -> bool
    ensures { result ≡ sees_whole program.now.classes a.now }
{
    match program.classes().class(a.class) {
        Some(class) => match class.triggers.as_slice().get(usize::from(a.trigger)) {
            Some(trigger) => trigger.whole,
            None => false,
        },
        None => false,
    }
}

// Those that are.
fn wholes_in(
    alloc: Global,
    program: &Program,
    there: &[Running],
) -> Result<List<Running>, AllocError>
    ensures { IfOk result (λ wholes. wholes ≡ filter (sees_whole program.now.classes) there.now) }
{
    let mut wholes = List::new(alloc);
    for a in there {
        if sees_whole(program, a) {
            wholes.push(a.copy(alloc)?)?;
        }
    }
    Ok(wholes)
}

// An activation stands as another.
fn stand_as(a: &mut Running, other: &Running)
    ensures { a.new ≡ standing_as other.now a.old }
{
    a.state = other.state;
    a.on = other.on;
}

// One of those stands as the next of these, which is at a place; the place of the one behind.
#[tactic(auto, using(crate::proofs::WholeLaws::next_stands, crate::proofs::WholeLaws::others_stay, crate::proofs::WholeLaws::none_left))]
fn stand_as_next(program: &Program, a: &mut Running, wholes: &[Running], at: usize) -> usize
    ensures { (rest : Items Going) → merged (sees_whole program.now.classes) (a.old ∷ rest) (drop at wholes.now) ≡ a.new ∷ merged (sees_whole program.now.classes) rest (drop result wholes.now) }
{
    if wholes.len() <= at {
        return at;
    }
    if !sees_whole(program, a) {
        return at;
    }
    stand_as(a, &wholes[at]);
    at + 1
}

// They stand as these, one from each in order.
fn merge(alloc: Global, program: &Program, there: &mut List<Running>, wholes: &[Running])
    ensures { there.new ≡ merged (sees_whole program.now.classes) there.old wholes.now }
{
    let mut items = mem::replace(there, List::new(alloc)).into_vec();
    let mut at = 0;
    for i in 0..items.len() {
        at = stand_as_next(program, &mut items[i], wholes, at);
    }
    *there = List::from_vec(items);
}

// Those that see whole histories go on by a point, and the others stay: the firings there.
fn go_on_whole(
    alloc: Global,
    program: &Program,
    overlay: &Overlay,
    id: u64,
    there: &mut List<Running>,
    kind: &Kind,
    args: &[Value],
) -> Result<List<Firing>, AllocError>
    ensures acts { (o : Held) → live_in id overlay.now ≡ Some o
        → OnOk result (there.new ≡ map (λ a. cond (sees_whole program.now.classes a) (advanced program.now.tables program.now.alphabets program.now.classes (point_of id o kind.now args.now) a) a) there.old) }
    ensures fired { (o : Held) → live_in id overlay.now ≡ Some o
        → IfOk result (λ firings. firings ≡ map (firing_by id) (fired_in program.now.tables program.now.alphabets program.now.classes (point_of id o kind.now args.now) (filter (sees_whole program.now.classes) there.old))) }
    ensures short { AllByRecursion HasShortArgs there.old → IfOk result (All IsShort) }
{
    let mut wholes = wholes_in(alloc, program, there.as_slice())?;
    let firings = go_on(alloc, program, overlay, id, &mut wholes, kind, args)?;
    merge(alloc, program, there, wholes.as_slice());
    Ok(firings)
}

// All go on, or those alone.
fn go_on_by(
    alloc: Global,
    program: &Program,
    overlay: &Overlay,
    whole: bool,
    id: u64,
    there: &mut List<Running>,
    kind: &Kind,
    args: &[Value],
) -> Result<List<Firing>, AllocError>
    ensures acts { (o : Held) → live_in id overlay.now ≡ Some o
        → OnOk result (there.new ≡ cond whole (map (λ a. cond (sees_whole program.now.classes a) (advanced program.now.tables program.now.alphabets program.now.classes (point_of id o kind.now args.now) a) a) there.old) (map (advanced program.now.tables program.now.alphabets program.now.classes (point_of id o kind.now args.now)) there.old)) }
    ensures fired { (o : Held) → live_in id overlay.now ≡ Some o
        → IfOk result (λ firings. firings ≡ map (firing_by id) (fired_in program.now.tables program.now.alphabets program.now.classes (point_of id o kind.now args.now) (cond whole (filter (sees_whole program.now.classes) there.old) there.old))) }
    ensures short { AllByRecursion HasShortArgs there.old → IfOk result (All IsShort) }
{
    if whole {
        go_on_whole(alloc, program, overlay, id, there, kind, args)
    } else {
        go_on(alloc, program, overlay, id, there, kind, args)
    }
}

impl<'a, H: Host, K: Keep<H>> Work<'a, H, K> {
    // A point of a touched object that is there.
    fn turn(
        &mut self,
        alloc: Global,
        program: &Program,
        whole: bool,
        id: u64,
        kind: &Kind,
        args: &[Value],
    ) -> Result<List<Firing>, Stop>
        requires there { IsSome (live_in id self.old.overlay.now) }
        ensures acts { (all : Items Declared) (k : Known H) → checked all ≡ program.now.classes → program.now.classes ≡ declared_in k.first → IsRunning H.view K.holds K.live self.old k
            → is_touched id (tx all k self.old) ≡ true
            → (o : Held) → live_in id self.old.overlay.now ≡ Some o
            → EndsBy (map (firing (trigger_of program.now.classes))) result (tx all k self.new)
            (arises (numbers (table_by program.now.tables program.now.maps)) (cond whole (whole_list (numbers (table_by program.now.tables program.now.maps))) (both_lists (numbers (table_by program.now.tables program.now.maps)))) id kind.now args.now (tx all k self.old)) }
        ensures kept { (k : Known H) → program.now.classes ≡ declared_in k.first → IsRunning H.view K.holds K.live self.old k
            → Leaves result (IsRunning H.view K.holds K.live self.new k) (Failed H.view self.new.host.now k) }
        ensures faults { (began : H) → IsServing H.view K.live began self.old → Leaves result (IsServing H.view K.live began self.new) (Stops (H.view began) (H.view self.new.host.now)) }
        ensures lent { (k : Known H) → Lent k self.old → Lent k self.new }
        ensures short { IfOk result (All IsShort) }
    {
        points_show();
        // Read, so that they are known as checked.
        let _checked = program.classes().as_slice();
        let mut there = self.activations(program, id)?;
        let firings = go_on_by(
            alloc,
            program,
            self.overlay,
            whole,
            id,
            &mut there,
            kind,
            args,
        )?;
        self.put_back(program.classes(), id, there)?;
        Ok(firings)
    }

    /// A point of a touched object arises, in both lists of points or in that of all points alone: the activations that fire there, in order.
    pub fn arise(
        &mut self,
        alloc: Global,
        program: &Program,
        whole: bool,
        id: u64,
        kind: &Kind,
        args: &[Value],
    ) -> Result<List<Firing>, Stop>
        ensures acts { (all : Items Declared) (k : Known H) → checked all ≡ program.now.classes → program.now.classes ≡ declared_in k.first → IsRunning H.view K.holds K.live self.old k
            → is_touched id (tx all k self.old) ≡ true
            → EndsBy (map (firing (trigger_of program.now.classes))) result (tx all k self.new)
            (arises (numbers (table_by program.now.tables program.now.maps)) (cond whole (whole_list (numbers (table_by program.now.tables program.now.maps))) (both_lists (numbers (table_by program.now.tables program.now.maps)))) id kind.now args.now (tx all k self.old)) }
        ensures kept { (k : Known H) → program.now.classes ≡ declared_in k.first → IsRunning H.view K.holds K.live self.old k
            → Leaves result (IsRunning H.view K.holds K.live self.new k) (Failed H.view self.new.host.now k) }
        ensures faults { (began : H) → IsServing H.view K.live began self.old → Leaves result (IsServing H.view K.live began self.new) (Stops (H.view began) (H.view self.new.host.now)) }
        ensures lent { (k : Known H) → Lent k self.old → Lent k self.new }
        ensures short { IfOk result (All IsShort) }
    {
        points_show();
        let Some(_object) = live_in(self.overlay, id) else {
            return Err(Stop::Abort(Reason::NoObject(0)));
        };
        self.turn(alloc, program, whole, id, kind, args)
    }
}
