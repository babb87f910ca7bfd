//! What expressions are evaluated over.
ghost use Rattle.std.specs.Prelude.{◌≡◌, ◌++◌, [], ◌∷◌, ℕ, List as Items, Option, slice_get};
ghost use Rattle.std.specs.Option.{option_copied};
ghost use Rattle.ode_value.specs.Evaluation.{Frame as Scene, field_of};
ghost use Rattle.ode_value.specs.Worlds.{Bones};
ghost use Rattle.ode_expr.specs.Answers.{Answers, LookedAs, number_of, stopped_by};

use crate::stop::EvalStop;
use ode_value::{Ref, Value};

/// What an expression is evaluated over: the reference that its body was called by, its parameters and locals, and the objects.
pub trait Frame {
    /// What a read of it may stop by besides a fault.
    type Stop: Copy;

    /// What can be known of it: the world that it shows, and what else its reads keep.
    ghost Known: { Type 0 };

    /// The world.
    ghost bones: { Known → Bones };

    /// This is known of it: what is read of it is what the world has.
    ghost shows: { Self → Known → Type 0 };

    /// What it began with.
    ghost Base: { Type 0 };

    /// It only was read since it began with this. No world is asked for.
    ghost follows: { Self → Base → Type 0 };

    /// The reference, and the parameters and locals.
    ghost scene: { Self → Scene };

    /// The objects that it was looked at for, by number, in order.
    ghost looked: { Self → Items ℕ };

    /// What it stopped by.
    ghost stopped: { Self → Option Self.Stop };

    /// The parameter or local in a slot.
    fn local(&self, slot: u16) -> Option<&Value>
        ensures { option_copied result ≡ slice_get (scene self.now).locals slot };

    /// The reference that the body was called by.
    fn this(&self) -> Ref
        ensures { result ≡ (scene self.now).this };

    /// A field of the version that a reference denotes.
    fn read_field(&mut self, of: Ref, slot: u16) -> Result<Value, EvalStop<Self::Stop>>
        ensures value { (k : Known) → shows self.old k → Answers (field_of (bones k) slot of) result }
        ensures stopped { stopped self.new ≡ stopped_by result (stopped self.old) }
        ensures shows { (k : Known) → shows self.old k → shows self.new k }
        ensures follows { (b : Base) → follows self.old b → follows self.new b }
        ensures looks { LookedAs result (looked self.new) (looked self.old ++ of.object ∷ []) }
        ensures scene { scene self.new ≡ scene self.old };

    /// The number of the version that a reference denotes.
    fn current(&mut self, of: Ref) -> Result<u32, EvalStop<Self::Stop>>
        ensures value { (k : Known) → shows self.old k → Answers (number_of (bones k) of) result }
        ensures stopped { stopped self.new ≡ stopped_by result (stopped self.old) }
        ensures shows { (k : Known) → shows self.old k → shows self.new k }
        ensures follows { (b : Base) → follows self.old b → follows self.new b }
        ensures looks { LookedAs result (looked self.new) (looked self.old ++ of.object ∷ []) }
        ensures scene { scene self.new ≡ scene self.old };
}
