//! Looks at objects, and calls that look first.
ghost use Rattle.std.specs.Prelude.{◌≡◌, [], ◌∷◌, IfErr, List as Items};
ghost use Rattle.ode_interpreter.specs.Seen.{Ends, IsFault, Leaves};
ghost use Rattle.ode_interpreter.specs.Touching.{joins_first};
ghost use Rattle.ode_known_laws.specs.Knowing.{declared_in};
ghost use Rattle.ode_run.specs.Knowing.{Failed, IsRunning, Known, Lent, tx};
ghost use Rattle.ode_run.specs.Serving.{IsServing, Stops};
ghost use Rattle.ode_value.specs.Acts.{looks};
ghost use Rattle.ode_value.specs.Changes.{asks_live, lives};
ghost use Rattle.ode_value.specs.Expressions.{stands};
ghost use Rattle.ode_value.specs.Making.{sets_own};
ghost use Rattle.ode_value.specs.Worlds.{Declared};

use crate::work::Work;
use ode_host::Host;
use ode_interpreter::Stop;
use ode_keep::Keep;
use ode_types::Classes;
use ode_value::{Ref, Value};

impl<'a, H: Host, K: Keep<H>> Work<'a, H, K> {
    /// An object is looked at.
    pub fn look(&mut self, classes: &Classes, id: u64) -> Result<(), Stop>
        ensures acts { (all : Items Declared) (k : Known H) → classes.now ≡ declared_in k.first → IsRunning H.view K.holds K.live self.old k
            → Ends result (tx all k self.new) (looks (id ∷ []) (tx all k self.old)) }
        ensures kept { (k : Known H) → classes.now ≡ declared_in k.first → IsRunning H.view K.holds K.live self.old k
            → Leaves result (IsRunning H.view K.holds K.live self.new k) (Failed H.view self.new.host.now k) }
        ensures faults { (began : H) → IsServing H.view K.live began self.old → Leaves result (IsServing H.view K.live began self.new) (Stops (H.view began) (H.view self.new.host.now)) }
        ensures lent { (k : Known H) → Lent k self.old → Lent k self.new }
        ensures fault { IfErr result IsFault }
    {
        self.overlay.look(id)?;
        Ok(())
    }

    /// Objects are looked at, one after another.
    pub fn look_all(&mut self, classes: &Classes, ids: &[u64]) -> Result<(), Stop>
        ensures acts { (all : Items Declared) (k : Known H) → classes.now ≡ declared_in k.first → IsRunning H.view K.holds K.live self.old k
            → Ends result (tx all k self.new) (looks ids.now (tx all k self.old)) }
        ensures kept { (k : Known H) → classes.now ≡ declared_in k.first → IsRunning H.view K.holds K.live self.old k
            → Leaves result (IsRunning H.view K.holds K.live self.new k) (Failed H.view self.new.host.now k) }
        ensures faults { (began : H) → IsServing H.view K.live began self.old → Leaves result (IsServing H.view K.live began self.new) (Stops (H.view began) (H.view self.new.host.now)) }
        ensures lent { (k : Known H) → Lent k self.old → Lent k self.new }
        ensures fault { IfErr result IsFault }
    {
        for id in ids {
            self.look(classes, *id)?;
        }
        Ok(())
    }

    /// The object of a number is there.
    pub fn live(&mut self, classes: &Classes, id: u64) -> Result<(), Stop>
        ensures acts { (all : Items Declared) (k : Known H) → classes.now ≡ declared_in k.first → IsRunning H.view K.holds K.live self.old k
            → Ends result (tx all k self.new) (lives id (tx all k self.old)) }
        ensures kept { (k : Known H) → classes.now ≡ declared_in k.first → IsRunning H.view K.holds K.live self.old k
            → Leaves result (IsRunning H.view K.holds K.live self.new k) (Failed H.view self.new.host.now k) }
        ensures faults { (began : H) → IsServing H.view K.live began self.old → Leaves result (IsServing H.view K.live began self.new) (Stops (H.view began) (H.view self.new.host.now)) }
        ensures lent { (k : Known H) → Lent k self.old → Lent k self.new }
    {
        self.look(classes, id)?;
        self.there(classes, id)
    }

    /// Whether it is.
    pub fn ask_live(&mut self, classes: &Classes, id: u64) -> Result<bool, Stop>
        ensures acts { (all : Items Declared) (k : Known H) → classes.now ≡ declared_in k.first → IsRunning H.view K.holds K.live self.old k
            → Ends result (tx all k self.new) (asks_live id (tx all k self.old)) }
        ensures kept { (k : Known H) → classes.now ≡ declared_in k.first → IsRunning H.view K.holds K.live self.old k
            → Leaves result (IsRunning H.view K.holds K.live self.new k) (Failed H.view self.new.host.now k) }
        ensures faults { (began : H) → IsServing H.view K.live began self.old → Leaves result (IsServing H.view K.live began self.new) (Stops (H.view began) (H.view self.new.host.now)) }
        ensures lent { (k : Known H) → Lent k self.old → Lent k self.new }
        ensures fault { IfErr result IsFault }
    {
        self.look(classes, id)?;
        self.is_live(classes, id)
    }

    /// A reference denotes a version.
    pub fn stand(&mut self, classes: &Classes, of: Ref) -> Result<(), Stop>
        ensures acts { (all : Items Declared) (k : Known H) → classes.now ≡ declared_in k.first → IsRunning H.view K.holds K.live self.old k
            → Ends result (tx all k self.new) (stands of (tx all k self.old)) }
        ensures kept { (k : Known H) → classes.now ≡ declared_in k.first → IsRunning H.view K.holds K.live self.old k
            → Leaves result (IsRunning H.view K.holds K.live self.new k) (Failed H.view self.new.host.now k) }
        ensures faults { (began : H) → IsServing H.view K.live began self.old → Leaves result (IsServing H.view K.live began self.new) (Stops (H.view began) (H.view self.new.host.now)) }
        ensures lent { (k : Known H) → Lent k self.old → Lent k self.new }
    {
        self.look(classes, of.object)?;
        self.denoting(classes, of)
    }

    /// An object that is there joins the touched ones, where it isn't among them; whether it does.
    pub fn join(&mut self, classes: &Classes, id: u64) -> Result<bool, Stop>
        ensures acts { (all : Items Declared) (k : Known H) → classes.now ≡ declared_in k.first → IsRunning H.view K.holds K.live self.old k
            → Ends result (tx all k self.new) (joins_first id (tx all k self.old)) }
        ensures kept { (k : Known H) → classes.now ≡ declared_in k.first → IsRunning H.view K.holds K.live self.old k
            → Leaves result (IsRunning H.view K.holds K.live self.new k) (Failed H.view self.new.host.now k) }
        ensures faults { (began : H) → IsServing H.view K.live began self.old → Leaves result (IsServing H.view K.live began self.new) (Stops (H.view began) (H.view self.new.host.now)) }
        ensures lent { (k : Known H) → Lent k self.old → Lent k self.new }
    {
        self.look(classes, id)?;
        self.join_there(classes, id)
    }

    /// A field of the version that a body's reference denotes is set.
    pub fn set_own(&mut self, classes: &Classes, of: Ref, place: u16, v: Value) -> Result<(), Stop>
        ensures acts { (all : Items Declared) (k : Known H) → classes.now ≡ declared_in k.first → IsRunning H.view K.holds K.live self.old k
            → Ends result (tx all k self.new) (sets_own of place v (tx all k self.old)) }
        ensures kept { (k : Known H) → classes.now ≡ declared_in k.first → IsRunning H.view K.holds K.live self.old k
            → Leaves result (IsRunning H.view K.holds K.live self.new k) (Failed H.view self.new.host.now k) }
        ensures faults { (began : H) → IsServing H.view K.live began self.old → Leaves result (IsServing H.view K.live began self.new) (Stops (H.view began) (H.view self.new.host.now)) }
        ensures lent { (k : Known H) → Lent k self.old → Lent k self.new }
    {
        self.look(classes, of.object)?;
        self.set_field(classes, of, place, v)
    }
}
