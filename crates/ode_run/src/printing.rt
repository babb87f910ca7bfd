//! Lines and deferred firings are kept.
ghost use Rattle.std.specs.Prelude.{◌≡◌, ◌++◌, List as Items, OnOk};
ghost use Rattle.ode_interpreter.specs.Seen.{Ends, Leaves, firing};
ghost use Rattle.ode_known_laws.specs.Knowing.{declared_in};
ghost use Rattle.ode_run.specs.Knowing.{Failed, IsRunning, Known, Lent, tx};
ghost use Rattle.ode_run.specs.Serving.{IsServing, Stops};
ghost use Rattle.ode_schema.specs.Parts.{trigger_of};
ghost use Rattle.ode_value.specs.Acts.{prints};
ghost use Rattle.ode_value.specs.Posting.{defers};
ghost use Rattle.ode_value.specs.Worlds.{Declared};

use crate::work::Work;
use ode_host::Host;
use ode_interpreter::{Firing, Stop};
use ode_keep::Keep;
use ode_schema::Program;
use ode_states::Fired;
use ode_types::Classes;
use ode_value::limits::{CASCADE_LIMIT, OUTPUT_LIMIT};
use ode_value::{List, Reason};
use std::alloc::{AllocError, Global};

pub(crate) fn add(text: &mut List<u8>, line: &[u8]) -> Result<(), AllocError>
    ensures { OnOk result (text.new ≡ text.old ++ line.now) }
{
    for byte in line {
        text.push(*byte)?;
    }
    Ok(())
}

impl<'a, H: Host, K: Keep<H>> Work<'a, H, K> {
    /// A line, where the text has room for it.
    #[tactic(auto, using(crate::proofs::LineLaws::printed, crate::proofs::LineLaws::not_printed), unfolding(ode_value::specs::Limits::output_limit))]
    pub fn print(&mut self, classes: &Classes, line: &[u8]) -> Result<(), Stop>
        ensures acts { (all : Items Declared) (k : Known H) → classes.now ≡ declared_in k.first → IsRunning H.view K.holds K.live self.old k
            → Ends result (tx all k self.new) (prints line.now (tx all k self.old)) }
        ensures kept { (k : Known H) → classes.now ≡ declared_in k.first → IsRunning H.view K.holds K.live self.old k
            → Leaves result (IsRunning H.view K.holds K.live self.new k) (Failed H.view self.new.host.now k) }
        ensures faults { (began : H) → IsServing H.view K.live began self.old → Leaves result (IsServing H.view K.live began self.new) (Stops (H.view began) (H.view self.new.host.now)) }
        ensures lent { (k : Known H) → Lent k self.old → Lent k self.new }
    {
        let length = line.len();
        if OUTPUT_LIMIT < length || OUTPUT_LIMIT - length < self.text.len() {
            return Err(Stop::Abort(Reason::Output));
        }
        add(self.text, line)?;
        Ok(())
    }

    /// A deferred firing.
    #[tactic(auto, using(crate::proofs::LineLaws::deferred_then, crate::proofs::LineLaws::not_deferred), unfolding(ode_value::specs::Limits::cascade_limit))]
    pub fn defer(&mut self, alloc: Global, program: &Program, f: &Firing) -> Result<(), Stop>
        ensures acts { (all : Items Declared) (k : Known H) → program.now.classes ≡ declared_in k.first → IsRunning H.view K.holds K.live self.old k
            → Ends result (tx all k self.new) (defers (firing (trigger_of program.now.classes) f.now) (tx all k self.old)) }
        ensures kept { (k : Known H) → program.now.classes ≡ declared_in k.first → IsRunning H.view K.holds K.live self.old k
            → Leaves result (IsRunning H.view K.holds K.live self.new k) (Failed H.view self.new.host.now k) }
        ensures faults { (began : H) → IsServing H.view K.live began self.old → Leaves result (IsServing H.view K.live began self.new) (Stops (H.view began) (H.view self.new.host.now)) }
        ensures lent { (k : Known H) → Lent k self.old → Lent k self.new }
    {
        if (CASCADE_LIMIT as usize) <= self.deferred.len() {
            return Err(Stop::Abort(Reason::Cascade));
        }
        let fired = Fired {
            activation: f.activation,
            class: f.trigger.class,
            trigger: f.trigger.place,
            args: f.args.copy(alloc)?,
        };
        self.deferred.push((f.object, fired))?;
        Ok(())
    }
}
