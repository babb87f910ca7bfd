//! Activations of triggers by their names.
ghost use Rattle.std.specs.Prelude.{◌≡◌, ℕ, List as Items};
ghost use Rattle.ode_activation_laws.specs.Switching.{tells_value};
ghost use Rattle.ode_interpreter.specs.Seen.{Ends, Leaves};
ghost use Rattle.ode_known_laws.specs.Knowing.{declared_in};
ghost use Rattle.ode_run.specs.Activating.{IsOfClass, Names, trigger_at};
ghost use Rattle.ode_run.specs.Knowing.{Failed, IsRunning, Known, Lent, tx};
ghost use Rattle.ode_run.specs.Serving.{IsServing, Stops};
ghost use Rattle.ode_run.specs.Telling.{EndsThen};
ghost use Rattle.ode_states.specs.Machine.{checked};
ghost use Rattle.ode_value.specs.Pasts.{numbers};
ghost use Rattle.ode_value.specs.Statements.{switches_on_named};
ghost use Rattle.ode_value.specs.Tables.{Table};
ghost use Rattle.ode_value.specs.Worlds.{Declared};
ghost use Rattle.ode_value.specs.declared.member.TriggerDecl.{TriggerDecl};

use crate::stopping::ended;
use crate::work::Work;
use ode_arising_laws::triggers_are_taken;
use ode_host::Host;
use ode_interpreter::{Stop, Trigger};
use ode_keep::Keep;
use ode_known_laws::activations_known;
use ode_schema::Program;
use ode_types::Classes;
use ode_value::{List, Name, Reason, Ref, Value};
use std::alloc::Global;

impl<'a, H: Host, K: Keep<H>> Work<'a, H, K> {
    // A new activation of a trigger that the object's class has under a name, up to its line.
    fn switch_on_named(
        &mut self,
        classes: &Classes,
        of: Ref,
        t: Trigger,
        args: List<Value>,
    ) -> Result<u64, Stop>
        ensures acts { (all : Items Declared) (k : Known H) (tables : ℕ → ℕ → Table) (name : Items ℕ) (decl : TriggerDecl) → checked all ≡ classes.now → classes.now ≡ declared_in k.first → IsRunning H.view K.holds K.live self.old k
            → Names (tx all k self.old) of.object name (trigger_at t decl)
            → EndsThen tells_value result (tx all k self.new) (switches_on_named (numbers tables) of name args (tx all k self.old)) }
        ensures kept { (all : Items Declared) (k : Known H) (name : Items ℕ) (decl : TriggerDecl) → checked all ≡ classes.now → classes.now ≡ declared_in k.first → IsRunning H.view K.holds K.live self.old k
            → Names (tx all k self.old) of.object name (trigger_at t decl)
            → Leaves result (IsRunning H.view K.holds K.live self.new k) (Failed H.view self.new.host.now k) }
        ensures faults { (began : H) → IsServing H.view K.live began self.old → Leaves result (IsServing H.view K.live began self.new) (Stops (H.view began) (H.view self.new.host.now)) }
        ensures lent { (k : Known H) → Lent k self.old → Lent k self.new }
    {
        activations_known();
        triggers_are_taken();
        if !self.heap.live() {
            return Err(Stop::DiskFault);
        }
        ended(
            self.overlay.activate(
                classes, self.heap, self.host, of.object, t.class, t.place, args,
            ),
        )
    }

    // A new activation of the trigger of a name, for an object of a class.
    fn activate_of(
        &mut self,
        alloc: Global,
        program: &Program,
        of: Ref,
        class: u32,
        name: &Name,
        args: List<Value>,
    ) -> Result<Value, Stop>
        ensures acts { (all : Items Declared) (k : Known H) (tables : ℕ → ℕ → Table) → checked all ≡ program.now.classes → program.now.classes ≡ declared_in k.first → IsRunning H.view K.holds K.live self.old k
            → IsOfClass (tx all k self.old) of.object class
            → Ends result (tx all k self.new) (switches_on_named (numbers tables) of name.now args (tx all k self.old)) }
        ensures kept { (all : Items Declared) (k : Known H) → checked all ≡ program.now.classes → program.now.classes ≡ declared_in k.first → IsRunning H.view K.holds K.live self.old k
            → IsOfClass (tx all k self.old) of.object class
            → Leaves result (IsRunning H.view K.holds K.live self.new k) (Failed H.view self.new.host.now k) }
        ensures faults { (began : H) → IsServing H.view K.live began self.old → Leaves result (IsServing H.view K.live began self.new) (Stops (H.view began) (H.view self.new.host.now)) }
        ensures lent { (k : Known H) → Lent k self.old → Lent k self.new }
    {
        let Some(t) = program.trigger_named(class, name) else {
            return Err(Stop::Abort(Reason::NoObject(0)));
        };
        let number = self.switch_on_named(program.classes(), of, t, args)?;
        self.tell_number(alloc, program.classes(), number)
    }

    /// A new activation of the trigger of a name.
    pub fn activate(
        &mut self,
        alloc: Global,
        program: &Program,
        of: Ref,
        name: &Name,
        args: List<Value>,
    ) -> Result<Value, Stop>
        ensures acts { (all : Items Declared) (k : Known H) (tables : ℕ → ℕ → Table) → checked all ≡ program.now.classes → program.now.classes ≡ declared_in k.first → IsRunning H.view K.holds K.live self.old k
            → Ends result (tx all k self.new) (switches_on_named (numbers tables) of name.now args (tx all k self.old)) }
        ensures kept { (k : Known H) → program.now.classes ≡ declared_in k.first → IsRunning H.view K.holds K.live self.old k
            → Leaves result (IsRunning H.view K.holds K.live self.new k) (Failed H.view self.new.host.now k) }
        ensures faults { (began : H) → IsServing H.view K.live began self.old → Leaves result (IsServing H.view K.live began self.new) (Stops (H.view began) (H.view self.new.host.now)) }
        ensures lent { (k : Known H) → Lent k self.old → Lent k self.new }
    {
        let class = self.class_of(program.classes(), of.object)?;
        self.activate_of(alloc, program, of, class, name, args)
    }
}
