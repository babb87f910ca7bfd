//! Objects are removed, and activations go off.
ghost use Rattle.std.specs.Prelude.{◌≡◌, ℕ, List as Items, None, false, pos};
ghost use Rattle.std.specs.Option.{IfSome};
ghost use Rattle.ode_interpreter.specs.Seen.{Ends, Leaves};
ghost use Rattle.ode_overlay_laws.specs.Following.{on_live};
ghost use Rattle.ode_value.specs.Making.{removes};
ghost use Rattle.ode_value.specs.Pasts.{numbers};
ghost use Rattle.ode_value.specs.Same.{same_value};
ghost use Rattle.ode_value.specs.Statements.{switches_off_numbered};
ghost use Rattle.ode_value.specs.Tables.{Table};
ghost use Rattle.ode_value.specs.declared.value.Value.TheVariants as value;
ghost use Rattle.ode_known_laws.specs.Knowing.{declared_in};
ghost use Rattle.ode_run.specs.Knowing.{Failed, IsRunning, Known, Lent, tx};
ghost use Rattle.ode_run.specs.Serving.{IsServing, Stops};
ghost use Rattle.ode_value.specs.Worlds.{Declared};

use crate::stopping::ended;
use crate::work::Work;
use ode_host::Host;
use ode_interpreter::Stop;
use ode_keep::Keep;
use ode_known_laws::{deactivations_known, removals_known};
use ode_types::Classes;
use ode_value::{Reason, Ref, Value};

// The number that a value is, where it is one.
fn natural(v: &Value) -> Option<u64>
    ensures is { IfSome result (λ n. v.now ≡ value.Int (pos n)) }
    ensures none { result ≡ None → (n : ℕ) → same_value v.now (value.Int (pos n)) ≡ false }
{
    match v {
        Value::Int(n) => u64::try_from(*n).ok(),
        Value::Bool(_) => None,
        Value::Text(_) => None,
        Value::Reference(_) => None,
    }
}

impl<'a, H: Host, K: Keep<H>> Work<'a, H, K> {
    // An object that is there is removed.
    fn remove_live(&mut self, classes: &Classes, id: u64) -> Result<(), Stop>
        ensures acts { (all : Items Declared) (k : Known H) → classes.now ≡ declared_in k.first → IsRunning H.view K.holds K.live self.old k
            → Ends result (tx all k self.new) (on_live id (removes id) (tx all k self.old)) }
        ensures kept { (k : Known H) → classes.now ≡ declared_in k.first → IsRunning H.view K.holds K.live self.old k
            → Leaves result (IsRunning H.view K.holds K.live self.new k) (Failed H.view self.new.host.now k) }
        ensures faults { (began : H) → IsServing H.view K.live began self.old → Leaves result (IsServing H.view K.live began self.new) (Stops (H.view began) (H.view self.new.host.now)) }
        ensures lent { (k : Known H) → Lent k self.old → Lent k self.new }
    {
        removals_known();
        if !self.heap.live() {
            return Err(Stop::DiskFault);
        }
        ended(self.overlay.remove(classes, self.heap, self.host, id))
    }

    /// An object is removed.
    #[tactic(auto, using(crate::proofs::OffLaws::removed, crate::proofs::OffLaws::not_removed))]
    pub fn remove(&mut self, classes: &Classes, id: u64) -> Result<(), Stop>
        ensures acts { (all : Items Declared) (k : Known H) → classes.now ≡ declared_in k.first → IsRunning H.view K.holds K.live self.old k
            → Ends result (tx all k self.new) (removes id (tx all k self.old)) }
        ensures kept { (k : Known H) → classes.now ≡ declared_in k.first → IsRunning H.view K.holds K.live self.old k
            → Leaves result (IsRunning H.view K.holds K.live self.new k) (Failed H.view self.new.host.now k) }
        ensures faults { (began : H) → IsServing H.view K.live began self.old → Leaves result (IsServing H.view K.live began self.new) (Stops (H.view began) (H.view self.new.host.now)) }
        ensures lent { (k : Known H) → Lent k self.old → Lent k self.new }
    {
        if !self.is_live(classes, id)? {
            return Err(Stop::Abort(Reason::NoObject(0)));
        }
        self.remove_live(classes, id)
    }

    // The activation of a number of an object that is there goes off.
    fn deactivate_live(&mut self, classes: &Classes, of: Ref, number: u64) -> Result<(), Stop>
        ensures acts { (all : Items Declared) (k : Known H) (tables : ℕ → ℕ → Table) → classes.now ≡ declared_in k.first → IsRunning H.view K.holds K.live self.old k
            → Ends result (tx all k self.new) (on_live of.object (switches_off_numbered (numbers tables) of (value.Int (pos number))) (tx all k self.old)) }
        ensures kept { (k : Known H) → classes.now ≡ declared_in k.first → IsRunning H.view K.holds K.live self.old k
            → Leaves result (IsRunning H.view K.holds K.live self.new k) (Failed H.view self.new.host.now k) }
        ensures faults { (began : H) → IsServing H.view K.live began self.old → Leaves result (IsServing H.view K.live began self.new) (Stops (H.view began) (H.view self.new.host.now)) }
        ensures lent { (k : Known H) → Lent k self.old → Lent k self.new }
    {
        deactivations_known();
        if !self.heap.live() {
            return Err(Stop::DiskFault);
        }
        ended(
            self.overlay
                .deactivate(classes, self.heap, self.host, of.object, number),
        )
    }

    /// The activation of a number goes off.
    #[tactic(auto, using(crate::proofs::OffLaws::none_went_off, crate::proofs::OffLaws::not_off))]
    pub fn deactivate(&mut self, classes: &Classes, of: Ref, number: &Value) -> Result<(), Stop>
        ensures acts { (all : Items Declared) (k : Known H) (tables : ℕ → ℕ → Table) → classes.now ≡ declared_in k.first → IsRunning H.view K.holds K.live self.old k
            → Ends result (tx all k self.new) (switches_off_numbered (numbers tables) of number.now (tx all k self.old)) }
        ensures kept { (k : Known H) → classes.now ≡ declared_in k.first → IsRunning H.view K.holds K.live self.old k
            → Leaves result (IsRunning H.view K.holds K.live self.new k) (Failed H.view self.new.host.now k) }
        ensures faults { (began : H) → IsServing H.view K.live began self.old → Leaves result (IsServing H.view K.live began self.new) (Stops (H.view began) (H.view self.new.host.now)) }
        ensures lent { (k : Known H) → Lent k self.old → Lent k self.new }
    {
        if !self.is_live(classes, of.object)? {
            return Err(Stop::Abort(Reason::NoObject(0)));
        }
        match natural(number) {
            Some(number) => self.deactivate_live(classes, of, number),
            None => Ok(()),
        }
    }
}
