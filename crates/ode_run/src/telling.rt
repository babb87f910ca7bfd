//! Lines that statements and firings print.
ghost use Rattle.std.specs.Prelude.{◌≡◌, List as Items};
ghost use Rattle.ode_activation_laws.specs.Switching.{tells_line, tells_value};
ghost use Rattle.ode_interpreter.specs.Seen.{Ends, Leaves, firing};
ghost use Rattle.ode_overlay_laws.specs.Following.{tells_new};
ghost use Rattle.ode_schema.specs.Parts.{trigger_of};
ghost use Rattle.ode_states.specs.Machine.{checked};
ghost use Rattle.ode_value.specs.Acts.{prints};
ghost use Rattle.ode_value.specs.Expressions.{text_in};
ghost use Rattle.ode_value.specs.Posting.{fired_text};
ghost use Rattle.ode_value.specs.Texts.{said_line, value_line};
ghost use Rattle.ode_known_laws.specs.Knowing.{declared_in};
ghost use Rattle.ode_run.specs.Knowing.{Failed, IsRunning, Known, Lent, tx};
ghost use Rattle.ode_run.specs.Serving.{IsServing, Stops};
ghost use Rattle.ode_value.specs.Worlds.{Declared};

use crate::work::Work;
use ode_host::Host;
use ode_interpreter::{Firing, Stop};
use ode_keep::Keep;
use ode_lines::{active_line, fired_line, new_line, said_line, value_line};
use ode_schema::Program;
use ode_types::Classes;
use ode_value::Value;
use std::alloc::Global;

impl<'a, H: Host, K: Keep<H>> Work<'a, H, K> {
    /// The line of a value that is shown.
    pub fn show(&mut self, alloc: Global, classes: &Classes, v: &Value) -> Result<(), Stop>
        ensures acts { (all : Items Declared) (k : Known H) → classes.now ≡ declared_in k.first → IsRunning H.view K.holds K.live self.old k
            → Ends result (tx all k self.new) (prints (value_line v.now) (tx all k self.old)) }
        ensures kept { (k : Known H) → classes.now ≡ declared_in k.first → IsRunning H.view K.holds K.live self.old k
            → Leaves result (IsRunning H.view K.holds K.live self.new k) (Failed H.view self.new.host.now k) }
        ensures faults { (began : H) → IsServing H.view K.live began self.old → Leaves result (IsServing H.view K.live began self.new) (Stops (H.view began) (H.view self.new.host.now)) }
        ensures lent { (k : Known H) → Lent k self.old → Lent k self.new }
    {
        let line = value_line(alloc, v)?;
        self.print(classes, line.as_slice())
    }

    /// The line of a text that is said.
    pub fn say(&mut self, alloc: Global, classes: &Classes, text: &Value) -> Result<(), Stop>
        ensures acts { (all : Items Declared) (k : Known H) → classes.now ≡ declared_in k.first → IsRunning H.view K.holds K.live self.old k
            → Ends result (tx all k self.new) (prints (said_line (text_in text.now)) (tx all k self.old)) }
        ensures kept { (k : Known H) → classes.now ≡ declared_in k.first → IsRunning H.view K.holds K.live self.old k
            → Leaves result (IsRunning H.view K.holds K.live self.new k) (Failed H.view self.new.host.now k) }
        ensures faults { (began : H) → IsServing H.view K.live began self.old → Leaves result (IsServing H.view K.live began self.new) (Stops (H.view began) (H.view self.new.host.now)) }
        ensures lent { (k : Known H) → Lent k self.old → Lent k self.new }
    {
        let line = said_line(alloc, text)?;
        self.print(classes, line.as_slice())
    }

    /// A look at a new object, its line, and its number.
    #[tactic(auto, using(crate::proofs::LineLaws::told_new, crate::proofs::LineLaws::not_told_new))]
    pub(crate) fn tell_new(
        &mut self,
        alloc: Global,
        classes: &Classes,
        id: u64,
    ) -> Result<u64, Stop>
        ensures acts { (all : Items Declared) (k : Known H) → classes.now ≡ declared_in k.first → IsRunning H.view K.holds K.live self.old k
            → Ends result (tx all k self.new) (tells_new id (tx all k self.old)) }
        ensures kept { (k : Known H) → classes.now ≡ declared_in k.first → IsRunning H.view K.holds K.live self.old k
            → Leaves result (IsRunning H.view K.holds K.live self.new k) (Failed H.view self.new.host.now k) }
        ensures faults { (began : H) → IsServing H.view K.live began self.old → Leaves result (IsServing H.view K.live began self.new) (Stops (H.view began) (H.view self.new.host.now)) }
        ensures lent { (k : Known H) → Lent k self.old → Lent k self.new }
    {
        self.look(classes, id)?;
        let line = new_line(alloc, id)?;
        self.print(classes, line.as_slice())?;
        Ok(id)
    }

    /// The line of a new activation.
    pub(crate) fn tell_active(
        &mut self,
        alloc: Global,
        classes: &Classes,
        number: u64,
    ) -> Result<(), Stop>
        ensures acts { (all : Items Declared) (k : Known H) → classes.now ≡ declared_in k.first → IsRunning H.view K.holds K.live self.old k
            → Ends result (tx all k self.new) (tells_line number (tx all k self.old)) }
        ensures kept { (k : Known H) → classes.now ≡ declared_in k.first → IsRunning H.view K.holds K.live self.old k
            → Leaves result (IsRunning H.view K.holds K.live self.new k) (Failed H.view self.new.host.now k) }
        ensures faults { (began : H) → IsServing H.view K.live began self.old → Leaves result (IsServing H.view K.live began self.new) (Stops (H.view began) (H.view self.new.host.now)) }
        ensures lent { (k : Known H) → Lent k self.old → Lent k self.new }
    {
        let line = active_line(alloc, number)?;
        self.print(classes, line.as_slice())
    }

    /// The line of one that a statement made, and its number as the statement's value.
    #[tactic(auto, using(crate::proofs::LineLaws::told, crate::proofs::LineLaws::not_told))]
    pub(crate) fn tell_number(
        &mut self,
        alloc: Global,
        classes: &Classes,
        number: u64,
    ) -> Result<Value, Stop>
        ensures acts { (all : Items Declared) (k : Known H) → classes.now ≡ declared_in k.first → IsRunning H.view K.holds K.live self.old k
            → Ends result (tx all k self.new) (tells_value number (tx all k self.old)) }
        ensures kept { (k : Known H) → classes.now ≡ declared_in k.first → IsRunning H.view K.holds K.live self.old k
            → Leaves result (IsRunning H.view K.holds K.live self.new k) (Failed H.view self.new.host.now k) }
        ensures faults { (began : H) → IsServing H.view K.live began self.old → Leaves result (IsServing H.view K.live began self.new) (Stops (H.view began) (H.view self.new.host.now)) }
        ensures lent { (k : Known H) → Lent k self.old → Lent k self.new }
    {
        self.tell_active(alloc, classes, number)?;
        match i64::try_from(number) {
            Ok(number) => Ok(Value::Int(number)),
            Err(_) => Err(Stop::Memory),
        }
    }

    /// The line of a firing.
    pub fn tell(&mut self, alloc: Global, program: &Program, f: &Firing) -> Result<(), Stop>
        ensures acts { (all : Items Declared) (k : Known H) → checked all ≡ program.now.classes → program.now.classes ≡ declared_in k.first → IsRunning H.view K.holds K.live self.old k
            → Ends result (tx all k self.new) (prints (fired_text (firing (trigger_of program.now.classes) f.now)) (tx all k self.old)) }
        ensures kept { (k : Known H) → program.now.classes ≡ declared_in k.first → IsRunning H.view K.holds K.live self.old k
            → Leaves result (IsRunning H.view K.holds K.live self.new k) (Failed H.view self.new.host.now k) }
        ensures faults { (began : H) → IsServing H.view K.live began self.old → Leaves result (IsServing H.view K.live began self.new) (Stops (H.view began) (H.view self.new.host.now)) }
        ensures lent { (k : Known H) → Lent k self.old → Lent k self.new }
    {
        let line = fired_line(alloc, program.trigger_name(f.trigger), f.object)?;
        self.print(program.classes(), line.as_slice())
    }
}
