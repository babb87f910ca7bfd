//! Fields are set, versions are derived, and what is to be kept is weighed.
ghost use Rattle.std.specs.Prelude.{◌≡◌, ◌+ℤ◌, List as Items, int_le, pos};
ghost use Rattle.ode_interpreter.specs.Seen.{Ends, Leaves};
ghost use Rattle.ode_known_laws.specs.Knowing.{declared_in};
ghost use Rattle.ode_run.specs.Knowing.{Failed, IsRunning, Known, Lent, tx};
ghost use Rattle.ode_run.specs.Serving.{IsServing, Stops};
ghost use Rattle.ode_run.specs.Telling.{EndsThen};
ghost use Rattle.ode_value.specs.Completing.{weighs};
ghost use Rattle.ode_value.specs.Limits.{weight_limit};
ghost use Rattle.ode_value.specs.Making.{derives, sets_field};
ghost use Rattle.ode_value.specs.Worlds.{Declared};
ghost use Rattle.ode_version_laws.specs.Denoting.{tells_version};

use crate::stopping::ended;
use crate::work::Work;
use ode_host::Host;
use ode_interpreter::Stop;
use ode_keep::Keep;
use ode_known_laws::{derivations_known, worlds_known, writes_known};
use ode_lines::version_line;
use ode_types::Classes;
use ode_value::limits::WEIGHT_LIMIT;
use ode_value::{Reason, Ref, Value};
use std::alloc::Global;

// A world that weighed this and grew so is light enough.
fn is_light(bytes: u64, grown: i64) -> bool
    ensures { result ≡ int_le (pos bytes +ℤ grown) (pos weight_limit) }
{
    i128::from(bytes) + i128::from(grown) <= i128::from(WEIGHT_LIMIT)
}

impl<'a, H: Host, K: Keep<H>> Work<'a, H, K> {
    /// A field of the version that a reference denotes is set.
    pub fn set_field(
        &mut self,
        classes: &Classes,
        of: Ref,
        place: u16,
        v: Value,
    ) -> Result<(), Stop>
        ensures acts { (all : Items Declared) (k : Known H) → classes.now ≡ declared_in k.first → IsRunning H.view K.holds K.live self.old k
            → Ends result (tx all k self.new) (sets_field of place v (tx all k self.old)) }
        ensures kept { (k : Known H) → classes.now ≡ declared_in k.first → IsRunning H.view K.holds K.live self.old k
            → Leaves result (IsRunning H.view K.holds K.live self.new k) (Failed H.view self.new.host.now k) }
        ensures faults { (began : H) → IsServing H.view K.live began self.old → Leaves result (IsServing H.view K.live began self.new) (Stops (H.view began) (H.view self.new.host.now)) }
        ensures lent { (k : Known H) → Lent k self.old → Lent k self.new }
    {
        writes_known();
        if !self.heap.live() {
            return Err(Stop::DiskFault);
        }
        ended(
            self.overlay
                .write(classes, self.heap, self.host, of, place, v),
        )
    }

    // A new version, up to its line.
    fn derive_version(&mut self, classes: &Classes, of: Ref) -> Result<Ref, Stop>
        ensures acts { (all : Items Declared) (k : Known H) → classes.now ≡ declared_in k.first → IsRunning H.view K.holds K.live self.old k
            → EndsThen tells_version result (tx all k self.new) (derives of (tx all k self.old)) }
        ensures kept { (k : Known H) → classes.now ≡ declared_in k.first → IsRunning H.view K.holds K.live self.old k
            → Leaves result (IsRunning H.view K.holds K.live self.new k) (Failed H.view self.new.host.now k) }
        ensures faults { (began : H) → IsServing H.view K.live began self.old → Leaves result (IsServing H.view K.live began self.new) (Stops (H.view began) (H.view self.new.host.now)) }
        ensures lent { (k : Known H) → Lent k self.old → Lent k self.new }
    {
        derivations_known();
        if !self.heap.live() {
            return Err(Stop::DiskFault);
        }
        ended(self.overlay.derive(classes, self.heap, self.host, of))
    }

    /// A new version, derived from the one that a reference denotes.
    #[tactic(auto, using(crate::proofs::ChangeLaws::told_version, crate::proofs::ChangeLaws::not_told_version, crate::proofs::ChangeLaws::not_derived))]
    pub fn derive(&mut self, alloc: Global, classes: &Classes, of: Ref) -> Result<Ref, Stop>
        ensures acts { (all : Items Declared) (k : Known H) → classes.now ≡ declared_in k.first → IsRunning H.view K.holds K.live self.old k
            → Ends result (tx all k self.new) (derives of (tx all k self.old)) }
        ensures kept { (k : Known H) → classes.now ≡ declared_in k.first → IsRunning H.view K.holds K.live self.old k
            → Leaves result (IsRunning H.view K.holds K.live self.new k) (Failed H.view self.new.host.now k) }
        ensures faults { (began : H) → IsServing H.view K.live began self.old → Leaves result (IsServing H.view K.live began self.new) (Stops (H.view began) (H.view self.new.host.now)) }
        ensures lent { (k : Known H) → Lent k self.old → Lent k self.new }
    {
        let version = self.derive_version(classes, of)?;
        let line = version_line(alloc, version)?;
        self.print(classes, line.as_slice())?;
        Ok(version)
    }

    /// What is to be kept isn't too heavy, by the classes of the first world. Nothing is read for it, so the growth is always told.
    pub fn weigh(&mut self, classes: &Classes) -> Result<(), Stop>
        ensures acts { (k : Known H) → classes.now ≡ declared_in k.first → IsRunning H.view K.holds K.live self.old k
            → Ends result (tx k.first.bones.classes k self.new) (weighs (tx k.first.bones.classes k self.old)) }
        ensures kept { (k : Known H) → classes.now ≡ declared_in k.first → IsRunning H.view K.holds K.live self.old k
            → Leaves result (IsRunning H.view K.holds K.live self.new k) (Failed H.view self.new.host.now k) }
        ensures faults { (began : H) → IsServing H.view K.live began self.old → Leaves result (IsServing H.view K.live began self.new) (Stops (H.view began) (H.view self.new.host.now)) }
        ensures lent { (k : Known H) → Lent k self.old → Lent k self.new }
    {
        worlds_known();
        let grown = self
            .overlay
            .grown(classes, self.heap, self.host)
            .unwrap_or(0);
        if is_light(self.bytes, grown) {
            Ok(())
        } else {
            Err(Stop::Abort(Reason::Space))
        }
    }
}
