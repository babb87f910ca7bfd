//! What was touched and what was deferred, by places.
ghost use Rattle.std.specs.Prelude.{◌≡◌, ◌+◌, List as Items, IfErr, IfOk, length, slice_get};
ghost use Rattle.std.specs.Option.{IfSome, option_map};
ghost use Rattle.ode_interpreter.specs.Seen.{Ends, EndsBy, IsFault, Leaves, firing};
ghost use Rattle.ode_schema.specs.Parts.{trigger_of};
ghost use Rattle.ode_states.specs.Machine.{checked};
ghost use Rattle.ode_value.specs.Acts.{reads};
ghost use Rattle.ode_value.specs.Completing.{rounds};
ghost use Rattle.ode_known_laws.specs.Knowing.{declared_in};
ghost use Rattle.ode_run.specs.Knowing.{Failed, IsRunning, Known, Lent, tx};
ghost use Rattle.ode_run.specs.Serving.{IsServing, Stops};
ghost use Rattle.ode_value.specs.Worlds.{Declared};

use crate::work::Work;
use ode_host::Host;
use ode_interpreter::{Firing, Stop, Trigger};
use ode_keep::Keep;
use ode_overlay::Overlay;
use ode_schema::Program;
use ode_types::Classes;
use ode_value::List;
use ode_value::limits::CASCADE_LIMIT;
use std::alloc::{AllocError, Global};

// All touched objects.
#[tactic(auto, using(crate::proofs::PlaceLaws::one_more, crate::proofs::PlaceLaws::all_there))]
pub(crate) fn touched_in(alloc: Global, overlay: &Overlay) -> Result<List<u64>, AllocError>
    ensures { IfOk result (λ ids. ids ≡ overlay.now.touched) }
{
    let mut ids = List::new(alloc);
    while let Some(id) = overlay.touched(ids.len()) {
        ids.push(id)?;
    }
    Ok(ids)
}

// How many there are. No list has more members than can be counted.
fn touched_count(overlay: &Overlay) -> Option<u64>
    ensures { IfSome result (λ count. count ≡ length overlay.now.touched) }
{
    let mut count: usize = 0;
    'counting: while overlay.touched(count).is_some() {
        count = count.checked_add(1)?;
    }
    Some(count as u64)
}

// The sum of what may still run, of what was touched and of what may be deferred.
fn sum(left: u32, touched: u64, deferred: u32) -> Option<u64>
    ensures { IfSome result (λ sum. sum ≡ left + touched + deferred) }
{
    u64::from(left)
        .checked_add(touched)?
        .checked_add(u64::from(deferred))
}

impl<'a, H: Host, K: Keep<H>> Work<'a, H, K> {
    /// All touched objects.
    pub fn touched(&mut self, alloc: Global, classes: &Classes) -> Result<List<u64>, Stop>
        ensures acts { (all : Items Declared) (k : Known H) → classes.now ≡ declared_in k.first → IsRunning H.view K.holds K.live self.old k
            → Ends result (tx all k self.new) (reads (λ y. y.touched) (tx all k self.old)) }
        ensures kept { (k : Known H) → classes.now ≡ declared_in k.first → IsRunning H.view K.holds K.live self.old k
            → Leaves result (IsRunning H.view K.holds K.live self.new k) (Failed H.view self.new.host.now k) }
        ensures faults { (began : H) → IsServing H.view K.live began self.old → Leaves result (IsServing H.view K.live began self.new) (Stops (H.view began) (H.view self.new.host.now)) }
        ensures lent { (k : Known H) → Lent k self.old → Lent k self.new }
        ensures fault { IfErr result IsFault }
    {
        let ids = touched_in(alloc, self.overlay)?;
        Ok(ids)
    }

    /// As many rounds as a completion may take.
    #[tactic(auto, using(crate::proofs::PlaceLaws::rounds_are), unfolding(ode_value::specs::Limits::cascade_limit))]
    pub fn rounds(&mut self, classes: &Classes) -> Result<u64, Stop>
        ensures acts { (all : Items Declared) (k : Known H) → classes.now ≡ declared_in k.first → IsRunning H.view K.holds K.live self.old k
            → Ends result (tx all k self.new) (reads rounds (tx all k self.old)) }
        ensures kept { (k : Known H) → classes.now ≡ declared_in k.first → IsRunning H.view K.holds K.live self.old k
            → Leaves result (IsRunning H.view K.holds K.live self.new k) (Failed H.view self.new.host.now k) }
        ensures faults { (began : H) → IsServing H.view K.live began self.old → Leaves result (IsServing H.view K.live began self.new) (Stops (H.view began) (H.view self.new.host.now)) }
        ensures lent { (k : Known H) → Lent k self.old → Lent k self.new }
        ensures fault { IfErr result IsFault }
    {
        let Some(touched) = touched_count(self.overlay) else {
            return Err(Stop::Memory);
        };
        match sum(*self.budget, touched, CASCADE_LIMIT) {
            Some(rounds) => Ok(rounds),
            None => Err(Stop::Memory),
        }
    }

    /// The firing that was deferred at a place.
    #[tactic(auto, using(crate::proofs::PlaceLaws::deferred_is, crate::proofs::PlaceLaws::none_deferred))]
    pub fn deferred_at(
        &mut self,
        alloc: Global,
        program: &Program,
        at: usize,
    ) -> Result<Option<Firing>, Stop>
        ensures acts { (all : Items Declared) (k : Known H) → checked all ≡ program.now.classes → program.now.classes ≡ declared_in k.first → IsRunning H.view K.holds K.live self.old k
            → EndsBy (option_map (firing (trigger_of program.now.classes))) result (tx all k self.new) (reads (λ y. slice_get y.deferred at) (tx all k self.old)) }
        ensures kept { (k : Known H) → program.now.classes ≡ declared_in k.first → IsRunning H.view K.holds K.live self.old k
            → Leaves result (IsRunning H.view K.holds K.live self.new k) (Failed H.view self.new.host.now k) }
        ensures faults { (began : H) → IsServing H.view K.live began self.old → Leaves result (IsServing H.view K.live began self.new) (Stops (H.view began) (H.view self.new.host.now)) }
        ensures lent { (k : Known H) → Lent k self.old → Lent k self.new }
        ensures fault { IfErr result IsFault }
    {
        let Some((object, fired)) = self.deferred.as_slice().get(at) else {
            return Ok(None);
        };
        let trigger = Trigger {
            class: fired.class,
            place: fired.trigger,
        };
        Ok(Some(Firing {
            object: *object,
            activation: fired.activation,
            trigger,
            args: fired.args.copy(alloc)?,
        }))
    }
}
