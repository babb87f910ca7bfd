//! Objects are touched and looked at.
ghost use Rattle.std.specs.Prelude.{◌≡◌, List as Items, IfErr, IfOk, slice_get};
ghost use Rattle.std.specs.Option.{IfSome, option_map};
ghost use Rattle.ode_heap.specs.Answering.{head_of_object};
ghost use Rattle.ode_interpreter.specs.Seen.{Ends, IsFault, Leaves};
ghost use Rattle.ode_interpreter.specs.Touching.{joins_there};
ghost use Rattle.ode_known_laws.specs.Knowing.{declared_in};
ghost use Rattle.ode_run.specs.Knowing.{Failed, IsRunning, Known, Lent, tx};
ghost use Rattle.ode_run.specs.Serving.{IsServing, Stops};
ghost use Rattle.ode_value.specs.Acts.{reads};
ghost use Rattle.ode_value.specs.Changes.{class_of, is_live, there};
ghost use Rattle.ode_value.specs.Denoting.{object_at};
ghost use Rattle.ode_value.specs.Making.{drops};
ghost use Rattle.ode_value.specs.Worlds.{Declared};
ghost use Rattle.ode_versions.specs.Versions.{IsVersionList};

use crate::stopping::{ended, read};
use crate::work::Work;
use ode_heap::ObjectHead;
use ode_host::Host;
use ode_interpreter::Stop;
use ode_keep::Keep;
use ode_known_laws::{touches_known, version_removals_known, views_read_known};
use ode_types::Classes;
use ode_value::{Reason, Ref};

impl<'a, H: Host, K: Keep<H>> Work<'a, H, K> {
    /// An object that is there joins the touched ones, where it isn't among them; whether it does.
    pub(crate) fn join_there(&mut self, classes: &Classes, id: u64) -> Result<bool, Stop>
        ensures acts { (all : Items Declared) (k : Known H) → classes.now ≡ declared_in k.first → IsRunning H.view K.holds K.live self.old k
            → Ends result (tx all k self.new) (joins_there id (tx all k self.old)) }
        ensures kept { (k : Known H) → classes.now ≡ declared_in k.first → IsRunning H.view K.holds K.live self.old k
            → Leaves result (IsRunning H.view K.holds K.live self.new k) (Failed H.view self.new.host.now k) }
        ensures faults { (began : H) → IsServing H.view K.live began self.old → Leaves result (IsServing H.view K.live began self.new) (Stops (H.view began) (H.view self.new.host.now)) }
        ensures lent { (k : Known H) → Lent k self.old → Lent k self.new }
    {
        touches_known();
        if !self.heap.live() {
            return Err(Stop::DiskFault);
        }
        ended(self.overlay.touch(classes, self.heap, self.host, id))
    }

    /// The class and the versions of an object, where it is there.
    pub(crate) fn head(&mut self, classes: &Classes, id: u64) -> Result<Option<ObjectHead>, Stop>
        ensures value { (all : Items Declared) (k : Known H) → classes.now ≡ declared_in k.first → IsRunning H.view K.holds K.live self.old k
            → IfOk result (λ head. head ≡ option_map head_of_object (object_at (tx all k self.old).now.bones id)) }
        ensures fault { IfErr result IsFault }
        ensures versions { IfOk result (λ found. IfSome found (λ head. IsVersionList head.versions)) }
        ensures same { (self.new.overlay.now ≡ self.old.overlay.now) × (self.new.deferred.now ≡ self.old.deferred.now) × (self.new.text.now ≡ self.old.text.now) × (self.new.budget.now ≡ self.old.budget.now) }
        ensures kept { (k : Known H) → classes.now ≡ declared_in k.first → IsRunning H.view K.holds K.live self.old k
            → Leaves result (IsRunning H.view K.holds K.live self.new k) (Failed H.view self.new.host.now k) }
        ensures faults { (began : H) → IsServing H.view K.live began self.old → Leaves result (IsServing H.view K.live began self.new) (Stops (H.view began) (H.view self.new.host.now)) }
        ensures lent { (k : Known H) → Lent k self.old → Lent k self.new }
    {
        views_read_known();
        if !self.heap.live() {
            return Err(Stop::DiskFault);
        }
        read(self.overlay.object(classes, self.heap, self.host, id))
    }

    /// Whether the object of a number is there.
    #[tactic(auto, using(crate::proofs::EndLaws::live_is))]
    pub fn is_live(&mut self, classes: &Classes, id: u64) -> Result<bool, Stop>
        ensures acts { (all : Items Declared) (k : Known H) → classes.now ≡ declared_in k.first → IsRunning H.view K.holds K.live self.old k
            → Ends result (tx all k self.new) (reads (is_live id) (tx all k self.old)) }
        ensures kept { (k : Known H) → classes.now ≡ declared_in k.first → IsRunning H.view K.holds K.live self.old k
            → Leaves result (IsRunning H.view K.holds K.live self.new k) (Failed H.view self.new.host.now k) }
        ensures faults { (began : H) → IsServing H.view K.live began self.old → Leaves result (IsServing H.view K.live began self.new) (Stops (H.view began) (H.view self.new.host.now)) }
        ensures lent { (k : Known H) → Lent k self.old → Lent k self.new }
        ensures fault { IfErr result IsFault }
    {
        let head = self.head(classes, id)?;
        Ok(head.is_some())
    }

    /// The class of an object.
    #[tactic(auto, using(crate::proofs::EndLaws::class_is, crate::proofs::EndLaws::no_class))]
    pub fn class_of(&mut self, classes: &Classes, id: u64) -> Result<u32, Stop>
        ensures acts { (all : Items Declared) (k : Known H) → classes.now ≡ declared_in k.first → IsRunning H.view K.holds K.live self.old k
            → Ends result (tx all k self.new) (class_of id (tx all k self.old)) }
        ensures kept { (k : Known H) → classes.now ≡ declared_in k.first → IsRunning H.view K.holds K.live self.old k
            → Leaves result (IsRunning H.view K.holds K.live self.new k) (Failed H.view self.new.host.now k) }
        ensures faults { (began : H) → IsServing H.view K.live began self.old → Leaves result (IsServing H.view K.live began self.new) (Stops (H.view began) (H.view self.new.host.now)) }
        ensures lent { (k : Known H) → Lent k self.old → Lent k self.new }
    {
        match self.head(classes, id)? {
            Some(head) => Ok(head.class),
            None => Err(Stop::Abort(Reason::NoObject(0))),
        }
    }

    /// The object of a number is there.
    pub(crate) fn there(&mut self, classes: &Classes, id: u64) -> Result<(), Stop>
        ensures acts { (all : Items Declared) (k : Known H) → classes.now ≡ declared_in k.first → IsRunning H.view K.holds K.live self.old k
            → Ends result (tx all k self.new) (there id (tx all k self.old)) }
        ensures kept { (k : Known H) → classes.now ≡ declared_in k.first → IsRunning H.view K.holds K.live self.old k
            → Leaves result (IsRunning H.view K.holds K.live self.new k) (Failed H.view self.new.host.now k) }
        ensures faults { (began : H) → IsServing H.view K.live began self.old → Leaves result (IsServing H.view K.live began self.new) (Stops (H.view began) (H.view self.new.host.now)) }
        ensures lent { (k : Known H) → Lent k self.old → Lent k self.new }
    {
        if self.is_live(classes, id)? {
            Ok(())
        } else {
            Err(Stop::Abort(Reason::NoObject(id)))
        }
    }

    /// The object that was touched at a place.
    pub fn touched_at(&mut self, classes: &Classes, at: usize) -> Result<Option<u64>, Stop>
        ensures acts { (all : Items Declared) (k : Known H) → classes.now ≡ declared_in k.first → IsRunning H.view K.holds K.live self.old k
            → Ends result (tx all k self.new) (reads (λ y. slice_get y.touched at) (tx all k self.old)) }
        ensures kept { (k : Known H) → classes.now ≡ declared_in k.first → IsRunning H.view K.holds K.live self.old k
            → Leaves result (IsRunning H.view K.holds K.live self.new k) (Failed H.view self.new.host.now k) }
        ensures faults { (began : H) → IsServing H.view K.live began self.old → Leaves result (IsServing H.view K.live began self.new) (Stops (H.view began) (H.view self.new.host.now)) }
        ensures lent { (k : Known H) → Lent k self.old → Lent k self.new }
        ensures fault { IfErr result IsFault }
    {
        Ok(self.overlay.touched(at))
    }

    /// The version that a reference denotes is removed.
    pub fn drop_version(&mut self, classes: &Classes, of: Ref) -> Result<(), Stop>
        ensures acts { (all : Items Declared) (k : Known H) → classes.now ≡ declared_in k.first → IsRunning H.view K.holds K.live self.old k
            → Ends result (tx all k self.new) (drops of (tx all k self.old)) }
        ensures kept { (k : Known H) → classes.now ≡ declared_in k.first → IsRunning H.view K.holds K.live self.old k
            → Leaves result (IsRunning H.view K.holds K.live self.new k) (Failed H.view self.new.host.now k) }
        ensures faults { (began : H) → IsServing H.view K.live began self.old → Leaves result (IsServing H.view K.live began self.new) (Stops (H.view began) (H.view self.new.host.now)) }
        ensures lent { (k : Known H) → Lent k self.old → Lent k self.new }
    {
        version_removals_known();
        if !self.heap.live() {
            return Err(Stop::DiskFault);
        }
        ended(self.overlay.drop_version(classes, self.heap, self.host, of))
    }
}
