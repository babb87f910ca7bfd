//! A transaction's acts, as the interpreter calls them.
use crate::work::Work;
use ode_host::Host;
use ode_interpreter::{Acts, Firing, Scene, Stop};
use ode_keep::Keep;
use ode_schema::Program;
use ode_value::{Expr, Kind, List, Name, Ref, Value};

impl<'a, 'b, H: Host, K: Keep<H>> Acts<Program<'b>> for Work<'a, H, K> {
    ghost use Rattle.ode_run.specs.Knowing.{Fails, Known as Knowledge, Knows, tx};
    ghost use Rattle.ode_run.specs.Serving.{GoesOn, Halts};

    ghost Known = { Knowledge H };

    ghost knows = { λ w p k. Knows H.view K.holds K.live w p k };

    ghost failed = { λ w k stop. Fails H.view w k stop };

    ghost Base = { Knowledge H };

    ghost usable = { λ w k. GoesOn H.view K.live w k };

    ghost ended = { λ w k stop. Halts H.view w k stop };

    ghost declared = { λ k. k.first.bones.classes };

    ghost view = { λ w k. tx k.first.bones.classes k w };

    fn count(&mut self, schema: &Program<'b>) -> Result<(), Stop> {
        self.count(schema.classes())
    }

    fn show(&mut self, schema: &Program<'b>, v: &Value) -> Result<(), Stop> {
        self.show(self.alloc, schema.classes(), v)
    }

    fn say(&mut self, schema: &Program<'b>, text: &Value) -> Result<(), Stop> {
        self.say(self.alloc, schema.classes(), text)
    }

    fn tell(&mut self, schema: &Program<'b>, f: &Firing) -> Result<(), Stop> {
        self.tell(self.alloc, schema, f)
    }

    fn live(&mut self, schema: &Program<'b>, id: u64) -> Result<(), Stop> {
        self.live(schema.classes(), id)
    }

    fn is_live(&mut self, schema: &Program<'b>, id: u64) -> Result<bool, Stop> {
        self.ask_live(schema.classes(), id)
    }

    fn stand(&mut self, schema: &Program<'b>, r: Ref) -> Result<(), Stop> {
        self.stand(schema.classes(), r)
    }

    fn denotes(&mut self, schema: &Program<'b>, r: Ref) -> Result<bool, Stop> {
        self.denotes(schema.classes(), r)
    }

    fn class_of(&mut self, schema: &Program<'b>, id: u64) -> Result<u32, Stop> {
        self.class_of(schema.classes(), id)
    }

    fn join(&mut self, schema: &Program<'b>, id: u64) -> Result<bool, Stop> {
        self.join(schema.classes(), id)
    }

    fn is_listed(&mut self, schema: &Program<'b>, id: u64, kind: &Kind) -> Result<bool, Stop> {
        self.is_listed(schema, id, kind)
    }

    fn arise(
        &mut self,
        schema: &Program<'b>,
        id: u64,
        kind: &Kind,
        args: &[Value],
    ) -> Result<List<Firing>, Stop> {
        self.arise(self.alloc, schema, false, id, kind, args)
    }

    fn arise_whole(
        &mut self,
        schema: &Program<'b>,
        id: u64,
        kind: &Kind,
        args: &[Value],
    ) -> Result<List<Firing>, Stop> {
        self.arise(self.alloc, schema, true, id, kind, args)
    }

    fn defer(&mut self, schema: &Program<'b>, f: &Firing) -> Result<(), Stop> {
        self.defer(self.alloc, schema, f)
    }

    fn collect(&mut self, schema: &Program<'b>, independent: bool, f: &Firing) -> Result<(), Stop> {
        self.collect(self.alloc, schema, false, independent, f)
    }

    fn collect_last(&mut self, schema: &Program<'b>, f: &Firing) -> Result<(), Stop> {
        self.collect(self.alloc, schema, true, true, f)
    }

    fn test_hard(&mut self, schema: &Program<'b>, r: Ref) -> Result<(), Stop> {
        self.test_hard(self.alloc, schema, r)
    }

    fn set_field(
        &mut self,
        schema: &Program<'b>,
        r: Ref,
        place: u16,
        v: Value,
    ) -> Result<(), Stop> {
        self.set_own(schema.classes(), r, place, v)
    }

    fn derive(&mut self, schema: &Program<'b>, r: Ref) -> Result<Ref, Stop> {
        self.derive(self.alloc, schema.classes(), r)
    }

    fn spare(&mut self, schema: &Program<'b>, r: Ref) -> Result<Ref, Stop> {
        self.spare(schema.classes(), r)
    }

    fn drop_version(&mut self, schema: &Program<'b>, r: Ref) -> Result<(), Stop> {
        self.drop_version(schema.classes(), r)
    }

    fn remove(&mut self, schema: &Program<'b>, id: u64) -> Result<(), Stop> {
        self.remove(schema.classes(), id)
    }

    fn make(&mut self, schema: &Program<'b>, class: u32, fields: List<Value>) -> Result<u64, Stop> {
        self.make(self.alloc, schema, class, fields)
    }

    fn activate(
        &mut self,
        schema: &Program<'b>,
        r: Ref,
        trigger: &Name,
        args: List<Value>,
    ) -> Result<Value, Stop> {
        self.activate(self.alloc, schema, r, trigger, args)
    }

    fn deactivate(&mut self, schema: &Program<'b>, r: Ref, number: &Value) -> Result<(), Stop> {
        self.deactivate(schema.classes(), r, number)
    }

    fn evaluate(&mut self, schema: &Program<'b>, on: &Scene, e: &Expr) -> Result<Value, Stop> {
        self.evaluate(self.alloc, schema.classes(), on, e)
    }

    fn rounds(&mut self, schema: &Program<'b>) -> Result<u64, Stop> {
        self.rounds(schema.classes())
    }

    fn touched_at(&mut self, schema: &Program<'b>, at: u64) -> Result<Option<u64>, Stop> {
        self.touched_at(schema.classes(), at as usize)
    }

    fn deferred_at(&mut self, schema: &Program<'b>, at: u64) -> Result<Option<Firing>, Stop> {
        self.deferred_at(self.alloc, schema, at as usize)
    }

    fn touched(&mut self, schema: &Program<'b>) -> Result<List<u64>, Stop> {
        self.touched(self.alloc, schema.classes())
    }

    fn test_soft(&mut self, schema: &Program<'b>) -> Result<(), Stop> {
        self.test_soft(self.alloc, schema)
    }

    fn weigh(&mut self, schema: &Program<'b>) -> Result<(), Stop> {
        self.weigh(schema.classes())
    }
}
