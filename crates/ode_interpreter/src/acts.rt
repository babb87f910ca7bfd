//! What a transaction does to what it holds.
ghost use Rattle.std.specs.Prelude.{◌≡◌, ℕ, List as Items, Option, map, cond, is_some, slice_get, IfErr, IfOk, true};
ghost use Rattle.std.specs.List.{All};
ghost use Rattle.std.specs.Option.{option_map};
ghost use Rattle.ode_value.specs.Acts.{counts, prints, reads, sees};
ghost use Rattle.ode_value.specs.Changes.{asks_live, class_of, lives};
ghost use Rattle.ode_value.specs.Completing.{rounds, tests_all, weighs};
ghost use Rattle.ode_value.specs.Constraints.{tests_hard};
ghost use Rattle.ode_value.specs.Denoting.{denotes};
ghost use Rattle.ode_value.specs.Expressions.{evaluates, stands, text_in};
ghost use Rattle.ode_value.specs.Firings.{arises, both_lists, whole_list};
ghost use Rattle.ode_value.specs.Making.{derives, drops, removes, sets_own, spares};
ghost use Rattle.ode_value.specs.Pasts.{numbers};
ghost use Rattle.ode_value.specs.Posting.{collects, defers, fired_text, is_listed, is_touched};
ghost use Rattle.ode_value.specs.Settling.{says};
ghost use Rattle.ode_value.specs.Statements.{switches_off_numbered, switches_on_named};
ghost use Rattle.ode_value.specs.Texts.{said_line, value_line};
ghost use Rattle.ode_value.specs.Worlds.{Declared};
ghost use Rattle.ode_interpreter.specs.Seen.{Ends, EndsBy, IsFault, IsShort, Leaves, NumberTx, firing, scene, with_classes};
ghost use Rattle.ode_interpreter.specs.Creating.{makes_active};
ghost use Rattle.ode_interpreter.specs.Touching.{joins_first};

use crate::firing::Firing;
use crate::scene::Scene;
use crate::schema::Schema;
use crate::stop::Stop;
use ode_value::{Expr, Kind, List, Name, Ref, Value};

/// A transaction that runs: each call does one act of the machine, over state numbers.
pub trait Acts<S: Schema> {
    ghost use Rattle.ode_interpreter.specs.declared.stop.Stop.{Stop};

    /// What can be known of it: the world that it began with, and what else its calls keep.
    ghost Known: { Type 0 };

    /// This is known of it, under a schema. It stays so until the disk fails or a record is damaged.
    ghost knows: { Self → S → Known → Type 0 };

    /// What is known then.
    ghost failed: { Self → Known → Stop → Type 0 };

    /// What it began with.
    ghost Base: { Type 0 };

    /// It may go on, and no fault came since it began. No schema and no record is asked for.
    ghost usable: { Self → Base → Type 0 };

    /// How it is after a fault.
    ghost ended: { Self → Base → Stop → Type 0 };

    /// The transaction that it stands for, but for the classes in its world now.
    ghost view: { Self → Known → NumberTx };

    /// The classes of the world that is known, with their trees.
    ghost declared: { Known → Items Declared };

    /// One more statement.
    fn count(&mut self, schema: &S) -> Result<(), Stop>
        ensures acts { (classes : Items Declared) (g : Known) → S.declares schema.now classes → knows self.old schema.now g → Ends result (with_classes classes (view self.new g)) (counts (with_classes classes (view self.old g))) }
        ensures kept { (g : Known) → knows self.old schema.now g → Leaves result (knows self.new schema.now g) (failed self.new g) }
        ensures faults { (b : Base) → usable self.old b → Leaves result (usable self.new b) (ended self.new b) };

    /// The line of a value that is shown.
    fn show(&mut self, schema: &S, v: &Value) -> Result<(), Stop>
        ensures acts { (classes : Items Declared) (g : Known) → S.declares schema.now classes → knows self.old schema.now g → Ends result (with_classes classes (view self.new g)) (prints (value_line v.now) (with_classes classes (view self.old g))) }
        ensures kept { (g : Known) → knows self.old schema.now g → Leaves result (knows self.new schema.now g) (failed self.new g) }
        ensures faults { (b : Base) → usable self.old b → Leaves result (usable self.new b) (ended self.new b) };

    /// The line of a text that is said.
    fn say(&mut self, schema: &S, text: &Value) -> Result<(), Stop>
        ensures acts { (classes : Items Declared) (g : Known) → S.declares schema.now classes → knows self.old schema.now g → Ends result (with_classes classes (view self.new g)) (prints (said_line (text_in text.now)) (with_classes classes (view self.old g))) }
        ensures kept { (g : Known) → knows self.old schema.now g → Leaves result (knows self.new schema.now g) (failed self.new g) }
        ensures faults { (b : Base) → usable self.old b → Leaves result (usable self.new b) (ended self.new b) };

    /// The line of a firing.
    fn tell(&mut self, schema: &S, f: &Firing) -> Result<(), Stop>
        ensures acts { (classes : Items Declared) (g : Known) → S.declares schema.now classes → knows self.old schema.now g → Ends result (with_classes classes (view self.new g)) (prints (fired_text (firing (S.trigger schema.now) f.now)) (with_classes classes (view self.old g))) }
        ensures kept { (g : Known) → knows self.old schema.now g → Leaves result (knows self.new schema.now g) (failed self.new g) }
        ensures faults { (b : Base) → usable self.old b → Leaves result (usable self.new b) (ended self.new b) };

    /// The object of a number is there.
    fn live(&mut self, schema: &S, id: u64) -> Result<(), Stop>
        ensures acts { (classes : Items Declared) (g : Known) → S.declares schema.now classes → knows self.old schema.now g → Ends result (with_classes classes (view self.new g)) (lives id (with_classes classes (view self.old g))) }
        ensures kept { (g : Known) → knows self.old schema.now g → Leaves result (knows self.new schema.now g) (failed self.new g) }
        ensures faults { (b : Base) → usable self.old b → Leaves result (usable self.new b) (ended self.new b) };

    /// Whether it is there.
    fn is_live(&mut self, schema: &S, id: u64) -> Result<bool, Stop>
        ensures acts { (classes : Items Declared) (g : Known) → S.declares schema.now classes → knows self.old schema.now g → Ends result (with_classes classes (view self.new g)) (asks_live id (with_classes classes (view self.old g))) }
        ensures kept { (g : Known) → knows self.old schema.now g → Leaves result (knows self.new schema.now g) (failed self.new g) }
        ensures faults { (b : Base) → usable self.old b → Leaves result (usable self.new b) (ended self.new b) }
        ensures fault { IfErr result IsFault };

    /// A reference denotes a version.
    fn stand(&mut self, schema: &S, r: Ref) -> Result<(), Stop>
        ensures acts { (classes : Items Declared) (g : Known) → S.declares schema.now classes → knows self.old schema.now g → Ends result (with_classes classes (view self.new g)) (stands r (with_classes classes (view self.old g))) }
        ensures kept { (g : Known) → knows self.old schema.now g → Leaves result (knows self.new schema.now g) (failed self.new g) }
        ensures faults { (b : Base) → usable self.old b → Leaves result (usable self.new b) (ended self.new b) };

    /// Whether it does.
    fn denotes(&mut self, schema: &S, r: Ref) -> Result<bool, Stop>
        ensures acts { (classes : Items Declared) (g : Known) → S.declares schema.now classes → knows self.old schema.now g → Ends result (with_classes classes (view self.new g)) (sees (λ b. is_some (denotes b r)) (with_classes classes (view self.old g))) }
        ensures kept { (g : Known) → knows self.old schema.now g → Leaves result (knows self.new schema.now g) (failed self.new g) }
        ensures faults { (b : Base) → usable self.old b → Leaves result (usable self.new b) (ended self.new b) }
        ensures fault { IfErr result IsFault };

    /// The class of an object.
    fn class_of(&mut self, schema: &S, id: u64) -> Result<u32, Stop>
        ensures acts { (classes : Items Declared) (g : Known) → S.declares schema.now classes → knows self.old schema.now g → Ends result (with_classes classes (view self.new g)) (class_of id (with_classes classes (view self.old g))) }
        ensures kept { (g : Known) → knows self.old schema.now g → Leaves result (knows self.new schema.now g) (failed self.new g) }
        ensures faults { (b : Base) → usable self.old b → Leaves result (usable self.new b) (ended self.new b) };

    /// An object that is there joins the touched ones, where it isn't among them; whether it does.
    fn join(&mut self, schema: &S, id: u64) -> Result<bool, Stop>
        ensures acts { (classes : Items Declared) (g : Known) → S.declares schema.now classes → knows self.old schema.now g → Ends result (with_classes classes (view self.new g)) (joins_first id (with_classes classes (view self.old g))) }
        ensures kept { (g : Known) → knows self.old schema.now g → Leaves result (knows self.new schema.now g) (failed self.new g) }
        ensures faults { (b : Base) → usable self.old b → Leaves result (usable self.new b) (ended self.new b) };

    /// Whether an object's class lists a kind.
    fn is_listed(&mut self, schema: &S, id: u64, kind: &Kind) -> Result<bool, Stop>
        ensures acts { (classes : Items Declared) (g : Known) → S.declares schema.now classes → knows self.old schema.now g → Ends result (with_classes classes (view self.new g)) (is_listed id kind.now (with_classes classes (view self.old g))) }
        ensures kept { (g : Known) → knows self.old schema.now g → Leaves result (knows self.new schema.now g) (failed self.new g) }
        ensures faults { (b : Base) → usable self.old b → Leaves result (usable self.new b) (ended self.new b) };

    /// A point of a touched object arises: the activations that fire there, in order.
    fn arise(
        &mut self,
        schema: &S,
        id: u64,
        kind: &Kind,
        args: &[Value],
    ) -> Result<List<Firing>, Stop>
        ensures acts { (classes : Items Declared) (g : Known) → S.declares schema.now classes → knows self.old schema.now g → is_touched id (view self.old g) ≡ true → EndsBy (map (firing (S.trigger schema.now))) result (with_classes classes (view self.new g)) (arises (numbers (S.tables schema.now)) (both_lists (numbers (S.tables schema.now))) id kind.now args.now (with_classes classes (view self.old g))) }
        ensures kept { (g : Known) → knows self.old schema.now g → Leaves result (knows self.new schema.now g) (failed self.new g) }
        ensures faults { (b : Base) → usable self.old b → Leaves result (usable self.new b) (ended self.new b) }
        ensures short { IfOk result (All IsShort) };

    /// The same in the list of all points alone.
    fn arise_whole(
        &mut self,
        schema: &S,
        id: u64,
        kind: &Kind,
        args: &[Value],
    ) -> Result<List<Firing>, Stop>
        ensures acts { (classes : Items Declared) (g : Known) → S.declares schema.now classes → knows self.old schema.now g → is_touched id (view self.old g) ≡ true → EndsBy (map (firing (S.trigger schema.now))) result (with_classes classes (view self.new g)) (arises (numbers (S.tables schema.now)) (whole_list (numbers (S.tables schema.now))) id kind.now args.now (with_classes classes (view self.old g))) }
        ensures kept { (g : Known) → knows self.old schema.now g → Leaves result (knows self.new schema.now g) (failed self.new g) }
        ensures faults { (b : Base) → usable self.old b → Leaves result (usable self.new b) (ended self.new b) }
        ensures short { IfOk result (All IsShort) };

    /// A deferred firing.
    fn defer(&mut self, schema: &S, f: &Firing) -> Result<(), Stop>
        ensures acts { (classes : Items Declared) (g : Known) → S.declares schema.now classes → knows self.old schema.now g → Ends result (with_classes classes (view self.new g)) (defers (firing (S.trigger schema.now) f.now) (with_classes classes (view self.old g))) }
        ensures kept { (g : Known) → knows self.old schema.now g → Leaves result (knows self.new schema.now g) (failed self.new g) }
        ensures faults { (b : Base) → usable self.old b → Leaves result (usable self.new b) (ended self.new b) };

    /// A detached firing.
    fn collect(&mut self, schema: &S, independent: bool, f: &Firing) -> Result<(), Stop>
        requires { IsShort f.now }
        ensures acts { (classes : Items Declared) (g : Known) → S.declares schema.now classes → knows self.old schema.now g → Ends result (with_classes classes (view self.new g)) (collects prints independent (firing (S.trigger schema.now) f.now) (with_classes classes (view self.old g))) }
        ensures kept { (g : Known) → knows self.old schema.now g → Leaves result (knows self.new schema.now g) (failed self.new g) }
        ensures faults { (b : Base) → usable self.old b → Leaves result (usable self.new b) (ended self.new b) };

    /// One at a point of the settling, where lines have no limit.
    fn collect_last(&mut self, schema: &S, f: &Firing) -> Result<(), Stop>
        requires { IsShort f.now }
        ensures acts { (classes : Items Declared) (g : Known) → S.declares schema.now classes → knows self.old schema.now g → Ends result (with_classes classes (view self.new g)) (collects says true (firing (S.trigger schema.now) f.now) (with_classes classes (view self.old g))) }
        ensures kept { (g : Known) → knows self.old schema.now g → Leaves result (knows self.new schema.now g) (failed self.new g) }
        ensures faults { (b : Base) → usable self.old b → Leaves result (usable self.new b) (ended self.new b) };

    /// The hard constraints are tested on the version that a reference denotes.
    fn test_hard(&mut self, schema: &S, r: Ref) -> Result<(), Stop>
        ensures acts { (classes : Items Declared) (g : Known) → S.declares schema.now classes → knows self.old schema.now g → Ends result (with_classes classes (view self.new g)) (tests_hard r (with_classes classes (view self.old g))) }
        ensures kept { (g : Known) → knows self.old schema.now g → Leaves result (knows self.new schema.now g) (failed self.new g) }
        ensures faults { (b : Base) → usable self.old b → Leaves result (usable self.new b) (ended self.new b) };

    /// A field of the version that a reference denotes is set.
    fn set_field(&mut self, schema: &S, r: Ref, place: u16, v: Value) -> Result<(), Stop>
        ensures acts { (classes : Items Declared) (g : Known) → S.declares schema.now classes → knows self.old schema.now g → Ends result (with_classes classes (view self.new g)) (sets_own r place v (with_classes classes (view self.old g))) }
        ensures kept { (g : Known) → knows self.old schema.now g → Leaves result (knows self.new schema.now g) (failed self.new g) }
        ensures faults { (b : Base) → usable self.old b → Leaves result (usable self.new b) (ended self.new b) };

    /// A new version, derived from the one that a reference denotes.
    fn derive(&mut self, schema: &S, r: Ref) -> Result<Ref, Stop>
        ensures acts { (classes : Items Declared) (g : Known) → S.declares schema.now classes → knows self.old schema.now g → Ends result (with_classes classes (view self.new g)) (derives r (with_classes classes (view self.old g))) }
        ensures kept { (g : Known) → knows self.old schema.now g → Leaves result (knows self.new schema.now g) (failed self.new g) }
        ensures faults { (b : Base) → usable self.old b → Leaves result (usable self.new b) (ended self.new b) };

    /// The reference to the version that a reference denotes, where it isn't the only one.
    fn spare(&mut self, schema: &S, r: Ref) -> Result<Ref, Stop>
        ensures acts { (classes : Items Declared) (g : Known) → S.declares schema.now classes → knows self.old schema.now g → Ends result (with_classes classes (view self.new g)) (spares r (with_classes classes (view self.old g))) }
        ensures kept { (g : Known) → knows self.old schema.now g → Leaves result (knows self.new schema.now g) (failed self.new g) }
        ensures faults { (b : Base) → usable self.old b → Leaves result (usable self.new b) (ended self.new b) };

    /// The version that a reference denotes is removed.
    fn drop_version(&mut self, schema: &S, r: Ref) -> Result<(), Stop>
        ensures acts { (classes : Items Declared) (g : Known) → S.declares schema.now classes → knows self.old schema.now g → Ends result (with_classes classes (view self.new g)) (drops r (with_classes classes (view self.old g))) }
        ensures kept { (g : Known) → knows self.old schema.now g → Leaves result (knows self.new schema.now g) (failed self.new g) }
        ensures faults { (b : Base) → usable self.old b → Leaves result (usable self.new b) (ended self.new b) };

    /// An object is removed.
    fn remove(&mut self, schema: &S, id: u64) -> Result<(), Stop>
        ensures acts { (classes : Items Declared) (g : Known) → S.declares schema.now classes → knows self.old schema.now g → Ends result (with_classes classes (view self.new g)) (removes id (with_classes classes (view self.old g))) }
        ensures kept { (g : Known) → knows self.old schema.now g → Leaves result (knows self.new schema.now g) (failed self.new g) }
        ensures faults { (b : Base) → usable self.old b → Leaves result (usable self.new b) (ended self.new b) };

    /// A new object of the class of a number, with these fields and an activation of each initial trigger.
    fn make(&mut self, schema: &S, class: u32, fields: List<Value>) -> Result<u64, Stop>
        ensures acts { (classes : Items Declared) (g : Known) → S.declares schema.now classes → knows self.old schema.now g → Ends result (with_classes classes (view self.new g)) (makes_active (numbers (S.tables schema.now)) class fields (with_classes classes (view self.old g))) }
        ensures kept { (g : Known) → knows self.old schema.now g → Leaves result (knows self.new schema.now g) (failed self.new g) }
        ensures faults { (b : Base) → usable self.old b → Leaves result (usable self.new b) (ended self.new b) };

    /// A new activation of the trigger of a name.
    fn activate(
        &mut self,
        schema: &S,
        r: Ref,
        trigger: &Name,
        args: List<Value>,
    ) -> Result<Value, Stop>
        ensures acts { (classes : Items Declared) (g : Known) → S.declares schema.now classes → knows self.old schema.now g → Ends result (with_classes classes (view self.new g)) (switches_on_named (numbers (S.tables schema.now)) r trigger.now args (with_classes classes (view self.old g))) }
        ensures kept { (g : Known) → knows self.old schema.now g → Leaves result (knows self.new schema.now g) (failed self.new g) }
        ensures faults { (b : Base) → usable self.old b → Leaves result (usable self.new b) (ended self.new b) };

    /// The activation of a number goes off.
    fn deactivate(&mut self, schema: &S, r: Ref, number: &Value) -> Result<(), Stop>
        ensures acts { (classes : Items Declared) (g : Known) → S.declares schema.now classes → knows self.old schema.now g → Ends result (with_classes classes (view self.new g)) (switches_off_numbered (numbers (S.tables schema.now)) r number.now (with_classes classes (view self.old g))) }
        ensures kept { (g : Known) → knows self.old schema.now g → Leaves result (knows self.new schema.now g) (failed self.new g) }
        ensures faults { (b : Base) → usable self.old b → Leaves result (usable self.new b) (ended self.new b) };

    /// The value of an expression.
    fn evaluate(&mut self, schema: &S, on: &Scene, e: &Expr) -> Result<Value, Stop>
        ensures acts { (classes : Items Declared) (g : Known) → S.declares schema.now classes → knows self.old schema.now g → Ends result (with_classes classes (view self.new g)) (evaluates e.now (scene on.now) (with_classes classes (view self.old g))) }
        ensures kept { (g : Known) → knows self.old schema.now g → Leaves result (knows self.new schema.now g) (failed self.new g) }
        ensures faults { (b : Base) → usable self.old b → Leaves result (usable self.new b) (ended self.new b) };

    /// As many rounds as a completion may take.
    fn rounds(&mut self, schema: &S) -> Result<u64, Stop>
        ensures acts { (classes : Items Declared) (g : Known) → S.declares schema.now classes → knows self.old schema.now g → Ends result (with_classes classes (view self.new g)) (reads rounds (with_classes classes (view self.old g))) }
        ensures kept { (g : Known) → knows self.old schema.now g → Leaves result (knows self.new schema.now g) (failed self.new g) }
        ensures faults { (b : Base) → usable self.old b → Leaves result (usable self.new b) (ended self.new b) }
        ensures fault { IfErr result IsFault };

    /// The object that was touched at a place.
    fn touched_at(&mut self, schema: &S, at: u64) -> Result<Option<u64>, Stop>
        ensures acts { (classes : Items Declared) (g : Known) → S.declares schema.now classes → knows self.old schema.now g → Ends result (with_classes classes (view self.new g)) (reads (λ x. slice_get x.touched at) (with_classes classes (view self.old g))) }
        ensures kept { (g : Known) → knows self.old schema.now g → Leaves result (knows self.new schema.now g) (failed self.new g) }
        ensures faults { (b : Base) → usable self.old b → Leaves result (usable self.new b) (ended self.new b) }
        ensures fault { IfErr result IsFault };

    /// The firing that was deferred at a place.
    fn deferred_at(&mut self, schema: &S, at: u64) -> Result<Option<Firing>, Stop>
        ensures acts { (classes : Items Declared) (g : Known) → S.declares schema.now classes → knows self.old schema.now g → EndsBy (option_map (firing (S.trigger schema.now))) result (with_classes classes (view self.new g)) (reads (λ x. slice_get x.deferred at) (with_classes classes (view self.old g))) }
        ensures kept { (g : Known) → knows self.old schema.now g → Leaves result (knows self.new schema.now g) (failed self.new g) }
        ensures faults { (b : Base) → usable self.old b → Leaves result (usable self.new b) (ended self.new b) }
        ensures fault { IfErr result IsFault };

    /// All touched objects.
    fn touched(&mut self, schema: &S) -> Result<List<u64>, Stop>
        ensures acts { (classes : Items Declared) (g : Known) → S.declares schema.now classes → knows self.old schema.now g → Ends result (with_classes classes (view self.new g)) (reads (λ x. x.touched) (with_classes classes (view self.old g))) }
        ensures kept { (g : Known) → knows self.old schema.now g → Leaves result (knows self.new schema.now g) (failed self.new g) }
        ensures faults { (b : Base) → usable self.old b → Leaves result (usable self.new b) (ended self.new b) }
        ensures fault { IfErr result IsFault };

    /// The soft constraints are tested on all touched objects.
    fn test_soft(&mut self, schema: &S) -> Result<(), Stop>
        ensures acts { (classes : Items Declared) (g : Known) → S.declares schema.now classes → knows self.old schema.now g → Ends result (with_classes classes (view self.new g)) (tests_all (with_classes classes (view self.old g))) }
        ensures kept { (g : Known) → knows self.old schema.now g → Leaves result (knows self.new schema.now g) (failed self.new g) }
        ensures faults { (b : Base) → usable self.old b → Leaves result (usable self.new b) (ended self.new b) };

    /// What is to be kept isn't too heavy.
    fn weigh(&mut self, schema: &S) -> Result<(), Stop>
        ensures acts { (classes : Items Declared) (g : Known) → S.declares schema.now classes → knows self.old schema.now g → classes ≡ declared g → Ends result (with_classes classes (view self.new g)) (weighs (with_classes classes (view self.old g))) }
        ensures kept { (g : Known) → knows self.old schema.now g → Leaves result (knows self.new schema.now g) (failed self.new g) }
        ensures faults { (b : Base) → usable self.old b → Leaves result (usable self.new b) (ended self.new b) };
}
