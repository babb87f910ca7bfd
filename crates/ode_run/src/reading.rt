//! Values of expressions.
ghost use Rattle.std.specs.Prelude.{◌≡◌, IfErr, IfOk, List as Items};
ghost use Rattle.ode_interpreter.specs.Seen.{Ends, IsFault, Leaves, scene};
ghost use Rattle.ode_known_laws.specs.Knowing.{declared_in};
ghost use Rattle.ode_run.specs.Knowing.{Failed, IsRunning, Known, Lent, tx};
ghost use Rattle.ode_run.specs.Serving.{IsServing, Stops};
ghost use Rattle.ode_run.specs.Stopping.{read_as, valued_as};
ghost use Rattle.ode_run.specs.Testing.{IsCalm};
ghost use Rattle.ode_value.specs.Evaluation.{evaluate, looks_in};
ghost use Rattle.ode_value.specs.Expressions.{evaluates};
ghost use Rattle.ode_value.specs.Worlds.{Declared};

use crate::work::Work;
use ode_expr::EvalStop;
use ode_host::Host;
use ode_interpreter::{Scene, Stop};
use ode_keep::Keep;
use ode_known_laws::views_read_known;
use ode_run_frame::{Unread, evaluate, reason_of};
use ode_types::Classes;
use ode_value::{Expr, Fault, List, Value};
use std::alloc::Global;

// What an evaluation answered, as a call of the context: what it came to, or why nothing was read.
fn read_as(answer: Result<Value, EvalStop<Unread>>) -> Result<Result<Value, Fault>, Stop>
    ensures is { result ≡ read_as answer }
    ensures fault { IfErr result IsFault }
{
    match answer {
        Ok(value) => Ok(Ok(value)),
        Err(EvalStop::Memory) => Err(Stop::Memory),
        Err(EvalStop::Fault(fault)) => Ok(Err(fault)),
        Err(EvalStop::Frame(Unread::DiskFault)) => Err(Stop::DiskFault),
        Err(EvalStop::Frame(Unread::Damaged { key })) => Err(Stop::Damaged { key }),
    }
}

// What an expression came to.
fn valued(value: Result<Value, Fault>) -> Result<Value, Stop>
    ensures is { result ≡ valued_as value }
    ensures calm { IfErr result IsCalm }
{
    match value {
        Ok(value) => Ok(value),
        Err(fault) => Err(Stop::Abort(reason_of(fault))),
    }
}

impl<'a, H: Host, K: Keep<H>> Work<'a, H, K> {
    // What an expression comes to, and the objects that it looks at, in order.
    fn judge(
        &mut self,
        alloc: Global,
        classes: &Classes,
        on: &Scene,
        e: &Expr,
    ) -> Result<(Result<Value, Fault>, List<u64>), Stop>
        ensures value { (all : Items Declared) (k : Known H) → classes.now ≡ declared_in k.first → IsRunning H.view K.holds K.live self.old k
            → IfOk result (λ r. (evaluate e.now (tx all k self.old).now.bones (scene on.now) ≡ r.0) × (r.1 ≡ looks_in e.now (tx all k self.old).now.bones (scene on.now))) }
        ensures same { (self.new.overlay.now ≡ self.old.overlay.now) × (self.new.deferred.now ≡ self.old.deferred.now) × (self.new.text.now ≡ self.old.text.now) × (self.new.budget.now ≡ self.old.budget.now) }
        ensures fault { IfErr result IsFault }
        ensures kept { (k : Known H) → classes.now ≡ declared_in k.first → IsRunning H.view K.holds K.live self.old k
            → Leaves result (IsRunning H.view K.holds K.live self.new k) (Failed H.view self.new.host.now k) }
        ensures faults { (began : H) → IsServing H.view K.live began self.old → Leaves result (IsServing H.view K.live began self.new) (Stops (H.view began) (H.view self.new.host.now)) }
        ensures lent { (k : Known H) → Lent k self.old → Lent k self.new }
    {
        views_read_known();
        if !self.heap.live() {
            return Err(Stop::DiskFault);
        }
        let read = evaluate(alloc, on, classes, self.overlay, self.heap, self.host, e);
        let value = read_as(read.value)?;
        Ok((value, read.looked))
    }

    /// The value of an expression.
    pub fn evaluate(
        &mut self,
        alloc: Global,
        classes: &Classes,
        on: &Scene,
        e: &Expr,
    ) -> Result<Value, Stop>
        ensures acts { (all : Items Declared) (k : Known H) → classes.now ≡ declared_in k.first → IsRunning H.view K.holds K.live self.old k
            → Ends result (tx all k self.new) (evaluates e.now (scene on.now) (tx all k self.old)) }
        ensures kept { (k : Known H) → classes.now ≡ declared_in k.first → IsRunning H.view K.holds K.live self.old k
            → Leaves result (IsRunning H.view K.holds K.live self.new k) (Failed H.view self.new.host.now k) }
        ensures faults { (began : H) → IsServing H.view K.live began self.old → Leaves result (IsServing H.view K.live began self.new) (Stops (H.view began) (H.view self.new.host.now)) }
        ensures lent { (k : Known H) → Lent k self.old → Lent k self.new }
    {
        let judged = self.judge(alloc, classes, on, e)?;
        self.look_all(classes, judged.1.as_slice())?;
        valued(judged.0)
    }
}
