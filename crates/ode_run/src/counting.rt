//! Statements are counted.
ghost use Rattle.std.specs.Prelude.{◌≡◌, List as Items};
ghost use Rattle.ode_interpreter.specs.Seen.{Ends, Leaves};
ghost use Rattle.ode_known_laws.specs.Knowing.{declared_in};
ghost use Rattle.ode_run.specs.Knowing.{Failed, IsRunning, Known, Lent, tx};
ghost use Rattle.ode_run.specs.Serving.{IsServing, Stops};
ghost use Rattle.ode_value.specs.Acts.{counts};
ghost use Rattle.ode_value.specs.Worlds.{Declared};

use crate::work::Work;
use ode_host::Host;
use ode_interpreter::Stop;
use ode_keep::Keep;
use ode_types::Classes;
use ode_value::Reason;

impl<'a, H: Host, K: Keep<H>> Work<'a, H, K> {
    /// One more statement.
    #[tactic(auto, using(crate::proofs::CountLaws::counted, crate::proofs::CountLaws::not_counted))]
    pub fn count(&mut self, classes: &Classes) -> Result<(), Stop>
        ensures acts { (all : Items Declared) (k : Known H) → classes.now ≡ declared_in k.first → IsRunning H.view K.holds K.live self.old k
            → Ends result (tx all k self.new) (counts (tx all k self.old)) }
        ensures kept { (k : Known H) → classes.now ≡ declared_in k.first → IsRunning H.view K.holds K.live self.old k
            → Leaves result (IsRunning H.view K.holds K.live self.new k) (Failed H.view self.new.host.now k) }
        ensures faults { (began : H) → IsServing H.view K.live began self.old → Leaves result (IsServing H.view K.live began self.new) (Stops (H.view began) (H.view self.new.host.now)) }
        ensures lent { (k : Known H) → Lent k self.old → Lent k self.new }
    {
        if *self.budget == 0 {
            return Err(Stop::Abort(Reason::Budget));
        }
        *self.budget -= 1;
        Ok(())
    }
}
