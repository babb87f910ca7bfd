//! Detached firings are collected.
ghost use Rattle.std.specs.Prelude.{◌≡◌, ◌+◌, ◌≤◌, List as Items, None, IfErr, IfOk, cond};
ghost use Rattle.std.specs.Option.{IfSome};
ghost use Rattle.ode_interpreter.specs.Seen.{Ends, IsFault, IsShort, Leaves, firing};
ghost use Rattle.ode_known_laws.specs.Knowing.{declared_in};
ghost use Rattle.ode_overlay.specs.Layers.{generation_of};
ghost use Rattle.ode_run.specs.Collecting.{Gathers};
ghost use Rattle.ode_run.specs.Knowing.{Failed, IsRunning, Known, Lent, tx};
ghost use Rattle.ode_run.specs.Serving.{IsServing, Stops};
ghost use Rattle.ode_schema.specs.Parts.{trigger_of};
ghost use Rattle.ode_states.specs.Machine.{checked};
ghost use Rattle.ode_value.specs.Acts.{prints};
ghost use Rattle.ode_value.specs.Limits.{generation_limit};
ghost use Rattle.ode_value.specs.Posting.{collects};
ghost use Rattle.ode_value.specs.Settling.{says};
ghost use Rattle.ode_value.specs.Worlds.{Declared};

use crate::printing::add;
use crate::work::Work;
use ode_codec::Entry;
use ode_host::Host;
use ode_interpreter::{Firing, Stop};
use ode_keep::Keep;
use ode_known_laws::collections_known;
use ode_lines::dropped_line;
use ode_overlay::Overlay;
use ode_schema::Program;
use ode_types::Classes;
use ode_value::limits::GENERATION_LIMIT;
use std::alloc::Global;

// The generation of what is collected, if there is one more; the overlay drops what is beyond the last.
#[tactic(auto, unfolding(ode_value::specs::Limits::generation_limit))]
fn next_generation(overlay: &Overlay) -> u8
    ensures { generation_of overlay.now.origin + 1 ≤ generation_limit → result ≡ generation_of overlay.now.origin + 1 }
{
    overlay.generation().saturating_add(1)
}

impl<'a, H: Host, K: Keep<H>> Work<'a, H, K> {
    // A firing is collected, where there is room for it; whether it is.
    fn gather(
        &mut self,
        alloc: Global,
        classes: &Classes,
        independent: bool,
        f: &Firing,
    ) -> Result<bool, Stop>
        requires { IsShort f.now }
        ensures running { (all : Items Declared) (k : Known H) → classes.now ≡ declared_in k.first → IsRunning H.view K.holds K.live self.old k
            → IfOk result (Gathers prints independent (firing (trigger_of classes.now) f.now) (tx all k self.old) (tx all k self.new)) }
        ensures settling { (all : Items Declared) (k : Known H) → classes.now ≡ declared_in k.first → IsRunning H.view K.holds K.live self.old k
            → IfOk result (Gathers says independent (firing (trigger_of classes.now) f.now) (tx all k self.old) (tx all k self.new)) }
        ensures fault { IfErr result IsFault }
        ensures kept { (k : Known H) → classes.now ≡ declared_in k.first → IsRunning H.view K.holds K.live self.old k
            → Leaves result (IsRunning H.view K.holds K.live self.new k) (Failed H.view self.new.host.now k) }
        ensures faults { (began : H) → IsServing H.view K.live began self.old → Leaves result (IsServing H.view K.live began self.new) (Stops (H.view began) (H.view self.new.host.now)) }
        ensures lent { (k : Known H) → Lent k self.old → Lent k self.new }
    {
        collections_known();
        let generation = next_generation(self.overlay);
        let args = f.args.copy(alloc)?;
        let entry = Entry {
            object: f.object,
            class: f.trigger.class,
            trigger: f.trigger.place,
            generation,
            args,
        };
        let collected = self.overlay.collect(entry, independent)?;
        Ok(collected)
    }

    // A line. At a point of the settling it has no limit.
    #[tactic(auto, using(crate::proofs::CollectLaws::said))]
    fn put_line(&mut self, classes: &Classes, last: bool, line: &[u8]) -> Result<(), Stop>
        ensures acts { (all : Items Declared) (k : Known H) → classes.now ≡ declared_in k.first → IsRunning H.view K.holds K.live self.old k
            → Ends result (tx all k self.new) (cond last says prints line.now (tx all k self.old)) }
        ensures kept { (k : Known H) → classes.now ≡ declared_in k.first → IsRunning H.view K.holds K.live self.old k
            → Leaves result (IsRunning H.view K.holds K.live self.new k) (Failed H.view self.new.host.now k) }
        ensures faults { (began : H) → IsServing H.view K.live began self.old → Leaves result (IsServing H.view K.live began self.new) (Stops (H.view began) (H.view self.new.host.now)) }
        ensures lent { (k : Known H) → Lent k self.old → Lent k self.new }
    {
        if !last {
            return self.print(classes, line);
        }
        add(self.text, line)?;
        Ok(())
    }

    /// A detached firing; the last ones, at points of the settling, are those whose lines have no limit.
    pub fn collect(
        &mut self,
        alloc: Global,
        program: &Program,
        last: bool,
        independent: bool,
        f: &Firing,
    ) -> Result<(), Stop>
        requires { IsShort f.now }
        ensures acts { (all : Items Declared) (k : Known H) → checked all ≡ program.now.classes → program.now.classes ≡ declared_in k.first → IsRunning H.view K.holds K.live self.old k
            → Ends result (tx all k self.new) (collects (cond last says prints) independent (firing (trigger_of program.now.classes) f.now) (tx all k self.old)) }
        ensures kept { (k : Known H) → program.now.classes ≡ declared_in k.first → IsRunning H.view K.holds K.live self.old k
            → Leaves result (IsRunning H.view K.holds K.live self.new k) (Failed H.view self.new.host.now k) }
        ensures faults { (began : H) → IsServing H.view K.live began self.old → Leaves result (IsServing H.view K.live began self.new) (Stops (H.view began) (H.view self.new.host.now)) }
        ensures lent { (k : Known H) → Lent k self.old → Lent k self.new }
    {
        if self.gather(alloc, program.classes(), independent, f)? {
            return Ok(());
        }
        let line = dropped_line(alloc, program.trigger_name(f.trigger), f.object)?;
        self.put_line(program.classes(), last, line.as_slice())
    }
}
