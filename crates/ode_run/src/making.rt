//! Objects are made, and activations go on.
ghost use Rattle.std.specs.Prelude.{◌≡◌, ℕ, List as Items, IfOk, [], map};
ghost use Rattle.ode_activation_laws.specs.Switching.{tells_line};
ghost use Rattle.ode_arising_laws.specs.Arising.{TakesTrigger};
ghost use Rattle.ode_interpreter.specs.Creating.{makes_active};
ghost use Rattle.ode_interpreter.specs.Seen.{Ends, Leaves, trigger};
ghost use Rattle.ode_overlay_laws.specs.Following.{on_live, tells_new};
ghost use Rattle.ode_run.specs.Activating.{IsOfClass, Takes, TakesAll};
ghost use Rattle.ode_run.specs.Telling.{EndsThen, calm};
ghost use Rattle.ode_schema.specs.Parts.{trigger_of};
ghost use Rattle.ode_states.specs.Machine.{checked};
ghost use Rattle.ode_value.specs.Acts.{each};
ghost use Rattle.ode_value.specs.Making.{makes};
ghost use Rattle.ode_value.specs.Pasts.{numbers};
ghost use Rattle.ode_value.specs.Statements.{activates_initial};
ghost use Rattle.ode_value.specs.Tables.{Table};
ghost use Rattle.ode_value.specs.declared.member.TriggerDecl.{TriggerDecl};
ghost use Rattle.ode_known_laws.specs.Knowing.{declared_in};
ghost use Rattle.ode_run.specs.Knowing.{Failed, IsRunning, Known, Lent, tx};
ghost use Rattle.ode_run.specs.Serving.{IsServing, Stops};
ghost use Rattle.ode_value.specs.Worlds.{Declared};

use crate::stopping::ended;
use crate::work::Work;
use ode_arising_laws::triggers_are_taken;
use ode_host::Host;
use ode_interpreter::{Stop, Trigger};
use ode_keep::Keep;
use ode_known_laws::{activations_known, makings_known};
use ode_overlay::OverlayError;
use ode_schema::Program;
use ode_types::Classes;
use ode_value::{List, Value};
use std::alloc::Global;

// A call ended that asks nothing of the disk.
fn calm(answer: Result<u64, OverlayError>) -> Result<u64, OverlayError>
    ensures { result ≡ calm answer }
{
    match answer {
        Err(OverlayError::DiskFault) => Err(OverlayError::Memory),
        answer => answer,
    }
}

impl<'a, H: Host, K: Keep<H>> Work<'a, H, K> {
    // A new object, up to its line.
    fn create(&mut self, classes: &Classes, class: u32, fields: List<Value>) -> Result<u64, Stop>
        ensures acts { (all : Items Declared) (k : Known H) (tables : ℕ → ℕ → Table) → classes.now ≡ declared_in k.first → IsRunning H.view K.holds K.live self.old k
            → EndsThen tells_new result (tx all k self.new) (makes (numbers tables) class fields (tx all k self.old)) }
        ensures kept { (k : Known H) → classes.now ≡ declared_in k.first → IsRunning H.view K.holds K.live self.old k
            → Leaves result (IsRunning H.view K.holds K.live self.new k) (Failed H.view self.new.host.now k) }
        ensures faults { (began : H) → IsServing H.view K.live began self.old → Leaves result (IsServing H.view K.live began self.new) (Stops (H.view began) (H.view self.new.host.now)) }
        ensures lent { (k : Known H) → Lent k self.old → Lent k self.new }
    {
        makings_known();
        ended(calm(
            self.overlay
                .create(classes, self.heap, self.host, class, fields),
        ))
    }

    // A new object of the class of a number, with these fields. It has no activations yet.
    fn make_bare(
        &mut self,
        alloc: Global,
        classes: &Classes,
        class: u32,
        fields: List<Value>,
    ) -> Result<u64, Stop>
        ensures acts { (all : Items Declared) (k : Known H) (tables : ℕ → ℕ → Table) → classes.now ≡ declared_in k.first → IsRunning H.view K.holds K.live self.old k
            → Ends result (tx all k self.new) (makes (numbers tables) class fields (tx all k self.old)) }
        ensures there { (all : Items Declared) (k : Known H) → classes.now ≡ declared_in k.first → IsRunning H.view K.holds K.live self.old k
            → IfOk result (λ id. IsOfClass (tx all k self.new) id class) }
        ensures kept { (k : Known H) → classes.now ≡ declared_in k.first → IsRunning H.view K.holds K.live self.old k
            → Leaves result (IsRunning H.view K.holds K.live self.new k) (Failed H.view self.new.host.now k) }
        ensures faults { (began : H) → IsServing H.view K.live began self.old → Leaves result (IsServing H.view K.live began self.new) (Stops (H.view began) (H.view self.new.host.now)) }
        ensures lent { (k : Known H) → Lent k self.old → Lent k self.new }
    {
        let id = self.create(classes, class, fields)?;
        self.tell_new(alloc, classes, id)
    }

    // A new activation of an initial trigger, up to its line.
    fn switch_on(
        &mut self,
        alloc: Global,
        classes: &Classes,
        id: u64,
        t: Trigger,
    ) -> Result<u64, Stop>
        ensures acts { (all : Items Declared) (k : Known H) (tables : ℕ → ℕ → Table) (decl : TriggerDecl) → classes.now ≡ declared_in k.first → IsRunning H.view K.holds K.live self.old k
            → Takes k.first (tx all k self.old) id t.class t.place
            → EndsThen tells_line result (tx all k self.new) (on_live id (activates_initial (numbers tables) id (record { class = t.class; place = t.place; decl = decl })) (tx all k self.old)) }
        ensures kept { (all : Items Declared) (k : Known H) → classes.now ≡ declared_in k.first → IsRunning H.view K.holds K.live self.old k
            → Takes k.first (tx all k self.old) id t.class t.place
            → Leaves result (IsRunning H.view K.holds K.live self.new k) (Failed H.view self.new.host.now k) }
        ensures faults { (began : H) → IsServing H.view K.live began self.old → Leaves result (IsServing H.view K.live began self.new) (Stops (H.view began) (H.view self.new.host.now)) }
        ensures lent { (k : Known H) → Lent k self.old → Lent k self.new }
    {
        activations_known();
        if !self.heap.live() {
            return Err(Stop::DiskFault);
        }
        ended(
            self.overlay.activate(
                classes,
                self.heap,
                self.host,
                id,
                t.class,
                t.place,
                List::new(alloc),
            ),
        )
    }

    // An object of a class has an activation of an initial trigger.
    fn activate_initial(
        &mut self,
        alloc: Global,
        classes: &Classes,
        id: u64,
        t: Trigger,
    ) -> Result<(), Stop>
        ensures acts { (all : Items Declared) (k : Known H) (tables : ℕ → ℕ → Table) (decl : TriggerDecl) (class : ℕ) → classes.now ≡ declared_in k.first → IsRunning H.view K.holds K.live self.old k
            → IsOfClass (tx all k self.old) id class → TakesTrigger k.first.bones.classes class t.class t.place
            → Ends result (tx all k self.new) (activates_initial (numbers tables) id (record { class = t.class; place = t.place; decl = decl }) (tx all k self.old)) }
        ensures there { (all : Items Declared) (k : Known H) (class : ℕ) → classes.now ≡ declared_in k.first → IsRunning H.view K.holds K.live self.old k
            → IsOfClass (tx all k self.old) id class → TakesTrigger k.first.bones.classes class t.class t.place
            → IfOk result (λ done. IsOfClass (tx all k self.new) id class) }
        ensures kept { (all : Items Declared) (k : Known H) (class : ℕ) → classes.now ≡ declared_in k.first → IsRunning H.view K.holds K.live self.old k
            → IsOfClass (tx all k self.old) id class → TakesTrigger k.first.bones.classes class t.class t.place
            → Leaves result (IsRunning H.view K.holds K.live self.new k) (Failed H.view self.new.host.now k) }
        ensures faults { (began : H) → IsServing H.view K.live began self.old → Leaves result (IsServing H.view K.live began self.new) (Stops (H.view began) (H.view self.new.host.now)) }
        ensures lent { (k : Known H) → Lent k self.old → Lent k self.new }
    {
        let number = self.switch_on(alloc, classes, id, t)?;
        self.tell_active(alloc, classes, number)
    }

    // An object of a class has an activation of each of these triggers, in order.
    fn activate_all(
        &mut self,
        alloc: Global,
        program: &Program,
        id: u64,
        triggers: &[Trigger],
    ) -> Result<(), Stop>
        ensures acts { (all : Items Declared) (k : Known H) (tables : ℕ → ℕ → Table) (class : ℕ) → program.now.classes ≡ declared_in k.first → IsRunning H.view K.holds K.live self.old k
            → IsOfClass (tx all k self.old) id class → TakesAll k.first.bones.classes class triggers.now
            → Ends result (tx all k self.new) (each (activates_initial (numbers tables) id) (map (trigger (trigger_of program.now.classes)) triggers.now) (tx all k self.old)) }
        ensures kept { (all : Items Declared) (k : Known H) (class : ℕ) → program.now.classes ≡ declared_in k.first → IsRunning H.view K.holds K.live self.old k
            → IsOfClass (tx all k self.old) id class → TakesAll k.first.bones.classes class triggers.now
            → Leaves result (IsRunning H.view K.holds K.live self.new k) (Failed H.view self.new.host.now k) }
        ensures faults { (began : H) → IsServing H.view K.live began self.old → Leaves result (IsServing H.view K.live began self.new) (Stops (H.view began) (H.view self.new.host.now)) }
        ensures lent { (k : Known H) → Lent k self.old → Lent k self.new }
    {
        for t in triggers {
            self.activate_initial(alloc, program.classes(), id, *t)?;
        }
        Ok(())
    }

    /// A new object of the class of a number, with these fields and an activation of each initial trigger.
    pub fn make(
        &mut self,
        alloc: Global,
        program: &Program,
        class: u32,
        fields: List<Value>,
    ) -> Result<u64, Stop>
        ensures acts { (all : Items Declared) (k : Known H) (tables : ℕ → ℕ → Table) → checked all ≡ program.now.classes → program.now.classes ≡ declared_in k.first → IsRunning H.view K.holds K.live self.old k
            → Ends result (tx all k self.new) (makes_active (numbers tables) class fields (tx all k self.old)) }
        ensures kept { (k : Known H) → program.now.classes ≡ declared_in k.first → IsRunning H.view K.holds K.live self.old k
            → Leaves result (IsRunning H.view K.holds K.live self.new k) (Failed H.view self.new.host.now k) }
        ensures faults { (began : H) → IsServing H.view K.live began self.old → Leaves result (IsServing H.view K.live began self.new) (Stops (H.view began) (H.view self.new.host.now)) }
        ensures lent { (k : Known H) → Lent k self.old → Lent k self.new }
    {
        triggers_are_taken();
        let id = self.make_bare(alloc, program.classes(), class, fields)?;
        let triggers = program.initial(alloc, class)?;
        self.activate_all(alloc, program, id, triggers.as_slice())?;
        Ok(id)
    }
}
