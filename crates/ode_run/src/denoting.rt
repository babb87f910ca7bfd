//! What references denote, and what the class of an object lists.
ghost use Rattle.std.specs.Prelude.{◌≡◌, ◌<◌, List as Items, IfErr, is_some};
ghost use Rattle.std.specs.Option.{IfSome, option_map};
ghost use Rattle.ode_heap.specs.Answering.{head_of_object};
ghost use Rattle.ode_interpreter.specs.Seen.{Ends, IsFault, Leaves};
ghost use Rattle.ode_known_laws.specs.Knowing.{declared_in};
ghost use Rattle.ode_laws.specs.Alike.{NumberTx};
ghost use Rattle.ode_run.specs.Knowing.{Failed, IsRunning, Known, Lent, tx};
ghost use Rattle.ode_run.specs.Serving.{IsServing, Stops};
ghost use Rattle.ode_run.specs.Testing.{IsCalm};
ghost use Rattle.ode_states.specs.Machine.{checked};
ghost use Rattle.ode_value.specs.Acts.{Done, sees};
ghost use Rattle.ode_value.specs.Denoting.{denotes, object_at};
ghost use Rattle.ode_value.specs.Expressions.{denoting};
ghost use Rattle.ode_value.specs.Making.{spares};
ghost use Rattle.ode_value.specs.Posting.{is_listed};
ghost use Rattle.ode_value.specs.Versions.{Version, version_of};
ghost use Rattle.ode_value.specs.Worlds.{Declared, Object};
ghost use Rattle.ode_versions.specs.Versions.{IsVersionList};

use crate::work::Work;
use ode_heap::ObjectHead;
use ode_host::Host;
use ode_interpreter::Stop;
use ode_keep::Keep;
use ode_schema::Program;
use ode_types::Classes;
use ode_value::{Kind, Reason, Ref};

// The number of the version of an object that a reference denotes.
fn number_in(of: Ref, head: &ObjectHead) -> Option<u32>
    requires { IsVersionList head.now.versions }
    ensures { (o : Object) → head.now ≡ head_of_object o → result ≡ option_map (λ (v : Version). v.number) (version_of of.version o.versions) }
{
    head.versions.find(of.version)
}

// A reference denotes a version of its object, where that is there.
#[tactic(auto, using(crate::proofs::DenoteLaws::stood, crate::proofs::DenoteLaws::no_version, crate::proofs::DenoteLaws::no_object))]
fn stands_in(of: Ref, found: &Option<ObjectHead>) -> Result<(), Stop>
    requires { IfSome found.now (λ head. IsVersionList head.versions) }
    ensures is { (y : NumberTx) → 0 < of.object → found.now ≡ option_map head_of_object (object_at y.now.bones of.object) → Ends result y (denoting of y) }
    ensures calm { IfErr result IsCalm }
{
    let Some(head) = found else {
        return Err(Stop::Abort(Reason::NoObject(of.object)));
    };
    match number_in(of, head) {
        Some(_) => Ok(()),
        None => Err(Stop::Abort(Reason::NoVersion(of))),
    }
}

// Whether it does.
#[tactic(auto, using(crate::proofs::DenoteLaws::denotes_as, crate::proofs::DenoteLaws::denotes_no_object))]
fn denotes_in(of: Ref, found: &Option<ObjectHead>) -> bool
    requires { IfSome found.now (λ head. IsVersionList head.versions) }
    ensures { (y : NumberTx) → 0 < of.object → found.now ≡ option_map head_of_object (object_at y.now.bones of.object) → sees (λ b. is_some (denotes b of)) y ≡ Done result y }
{
    match found {
        Some(head) => number_in(of, head).is_some(),
        None => false,
    }
}

// The reference to the version of its object that a reference denotes, where that isn't the only one.
#[tactic(auto, using(crate::proofs::DenoteLaws::spared, crate::proofs::DenoteLaws::spared_last, crate::proofs::DenoteLaws::spared_no_version, crate::proofs::DenoteLaws::spared_no_object))]
fn spared_in(of: Ref, found: &Option<ObjectHead>) -> Result<Ref, Stop>
    requires { IfSome found.now (λ head. IsVersionList head.versions) }
    ensures is { (y : NumberTx) → 0 < of.object → found.now ≡ option_map head_of_object (object_at y.now.bones of.object) → Ends result y (spares of y) }
    ensures calm { IfErr result IsCalm }
{
    let Some(head) = found else {
        return Err(Stop::Abort(Reason::NoObject(of.object)));
    };
    let Some(number) = number_in(of, head) else {
        return Err(Stop::Abort(Reason::NoVersion(of)));
    };
    if head.versions.versions.len() <= 1 {
        return Err(Stop::Abort(Reason::LastVersion(of.object)));
    }
    Ok(Ref {
        object: of.object,
        version: Some(number),
    })
}

impl<'a, H: Host, K: Keep<H>> Work<'a, H, K> {
    /// A reference denotes a version.
    #[tactic(auto, using(crate::proofs::DenoteLaws::stands_null))]
    pub(crate) fn denoting(&mut self, classes: &Classes, of: Ref) -> Result<(), Stop>
        ensures acts { (all : Items Declared) (k : Known H) → classes.now ≡ declared_in k.first → IsRunning H.view K.holds K.live self.old k
            → Ends result (tx all k self.new) (denoting of (tx all k self.old)) }
        ensures kept { (k : Known H) → classes.now ≡ declared_in k.first → IsRunning H.view K.holds K.live self.old k
            → Leaves result (IsRunning H.view K.holds K.live self.new k) (Failed H.view self.new.host.now k) }
        ensures faults { (began : H) → IsServing H.view K.live began self.old → Leaves result (IsServing H.view K.live began self.new) (Stops (H.view began) (H.view self.new.host.now)) }
        ensures lent { (k : Known H) → Lent k self.old → Lent k self.new }
    {
        if of.object == 0 {
            return Err(Stop::Abort(Reason::NoObject(0)));
        }
        let found = self.head(classes, of.object)?;
        stands_in(of, &found)
    }

    /// Whether it does.
    #[tactic(auto, using(crate::proofs::DenoteLaws::denotes_null))]
    pub fn denotes(&mut self, classes: &Classes, of: Ref) -> Result<bool, Stop>
        ensures acts { (all : Items Declared) (k : Known H) → classes.now ≡ declared_in k.first → IsRunning H.view K.holds K.live self.old k
            → Ends result (tx all k self.new) (sees (λ b. is_some (denotes b of)) (tx all k self.old)) }
        ensures kept { (k : Known H) → classes.now ≡ declared_in k.first → IsRunning H.view K.holds K.live self.old k
            → Leaves result (IsRunning H.view K.holds K.live self.new k) (Failed H.view self.new.host.now k) }
        ensures faults { (began : H) → IsServing H.view K.live began self.old → Leaves result (IsServing H.view K.live began self.new) (Stops (H.view began) (H.view self.new.host.now)) }
        ensures lent { (k : Known H) → Lent k self.old → Lent k self.new }
        ensures fault { IfErr result IsFault }
    {
        if of.object == 0 {
            return Ok(false);
        }
        let found = self.head(classes, of.object)?;
        Ok(denotes_in(of, &found))
    }

    /// The reference to the version that a reference denotes, where it isn't the only one.
    #[tactic(auto, using(crate::proofs::DenoteLaws::spares_null))]
    pub fn spare(&mut self, classes: &Classes, of: Ref) -> Result<Ref, Stop>
        ensures acts { (all : Items Declared) (k : Known H) → classes.now ≡ declared_in k.first → IsRunning H.view K.holds K.live self.old k
            → Ends result (tx all k self.new) (spares of (tx all k self.old)) }
        ensures kept { (k : Known H) → classes.now ≡ declared_in k.first → IsRunning H.view K.holds K.live self.old k
            → Leaves result (IsRunning H.view K.holds K.live self.new k) (Failed H.view self.new.host.now k) }
        ensures faults { (began : H) → IsServing H.view K.live began self.old → Leaves result (IsServing H.view K.live began self.new) (Stops (H.view began) (H.view self.new.host.now)) }
        ensures lent { (k : Known H) → Lent k self.old → Lent k self.new }
    {
        if of.object == 0 {
            return Err(Stop::Abort(Reason::NoObject(0)));
        }
        let found = self.head(classes, of.object)?;
        spared_in(of, &found)
    }

    /// Whether an object's class lists a kind.
    #[tactic(auto, using(crate::proofs::DenoteLaws::listed_is, crate::proofs::DenoteLaws::not_listed))]
    pub fn is_listed(&mut self, program: &Program, id: u64, kind: &Kind) -> Result<bool, Stop>
        ensures acts { (all : Items Declared) (k : Known H) → checked all ≡ program.now.classes → program.now.classes ≡ declared_in k.first → IsRunning H.view K.holds K.live self.old k
            → Ends result (tx all k self.new) (is_listed id kind.now (tx all k self.old)) }
        ensures kept { (k : Known H) → program.now.classes ≡ declared_in k.first → IsRunning H.view K.holds K.live self.old k
            → Leaves result (IsRunning H.view K.holds K.live self.new k) (Failed H.view self.new.host.now k) }
        ensures faults { (began : H) → IsServing H.view K.live began self.old → Leaves result (IsServing H.view K.live began self.new) (Stops (H.view began) (H.view self.new.host.now)) }
        ensures lent { (k : Known H) → Lent k self.old → Lent k self.new }
    {
        let class = self.class_of(program.classes(), id)?;
        Ok(program.lists(class, kind))
    }
}
