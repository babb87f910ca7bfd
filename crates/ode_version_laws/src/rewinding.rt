//! An overlay keeps what its transaction's objects were, and takes back changes as the machine does.
ghost use Rattle.std.specs.Prelude.{ℕ, List as Items, [], Option, map};
ghost use Rattle.std.specs.BTreeMap.{is_at};
ghost use Rattle.std.specs.Map.{lookup};
ghost use Rattle.std.specs.Ordering.{nat_cmp};
ghost use Rattle.ode_codec.specs.Standing.{StandsAs};
ghost use Rattle.ode_heap.specs.Answering.{class_of};
ghost use Rattle.ode_keep.specs.Entries.{Entries};
ghost use Rattle.ode_laws.specs.Alike.{NumberTx, NumberWorld};
ghost use Rattle.ode_objects.specs.declared.object.Object.{Object};
ghost use Rattle.ode_objects.specs.declared.tracked.Tracked.{Tracked};
ghost use Rattle.ode_overlay.specs.Changing.{activate, create, deactivate, derive, drop_version, either, put_acts, put_new, put_now, remove, touch, write};
ghost use Rattle.ode_overlay.specs.Layers.{Layer};
ghost use Rattle.ode_overlay.specs.Rewinding.{rewind};
ghost use Rattle.ode_overlay_laws.specs.Following.{IsNewNumber};
ghost use Rattle.ode_overlay_laws.specs.Standing.{Stands};
ghost use Rattle.ode_types.specs.declared.running.Running.{Running};
ghost use Rattle.ode_value.specs.GoodWorlds.{IsGood};
ghost use Rattle.ode_value.specs.Language.{Language, ListWorld};
ghost use Rattle.ode_value.specs.Pasts.{numbers};
ghost use Rattle.ode_value.specs.Settling.{aborted};
ghost use Rattle.ode_value.specs.Tables.{Table};
ghost use Rattle.ode_value.specs.declared.class.Class.{Class};
ghost use Rattle.ode_value.specs.declared.value.Ref.{Ref};
ghost use Rattle.ode_value.specs.declared.value.Value.{Value};
ghost use Rattle.ode_version_laws.specs.Denoting.{HaveVersions, IsRead};
ghost use Rattle.ode_version_laws.specs.Leaving.{StillRemembers};
ghost use Rattle.ode_version_laws.specs.Remembering.{IsKnown, NeverFalls, Remembers};
ghost use Rattle.ode_version_laws.specs.Showing.{AreSettled};

/// With no tracked object nothing is to be remembered. Whatever an object becomes, if the last number of its versions doesn't fall, and
/// where it is read, the overlay goes on remembering what the world had of it at first, where that is known of what was read.
pub fn firsts_are_remembered()
    ensures begun { (w : NumberWorld) → Remembers [] w }
    ensures changed { (w : NumberWorld) (objects : Items (ℕ × Tracked)) (id : ℕ) (new : Option Tracked) (now : Object) → Remembers objects w
        → IsKnown w id (either new (lookup (is_at (nat_cmp id)) objects)) → NeverFalls (either new (lookup (is_at (nat_cmp id)) objects)) now
        → Remembers (put_now id new now objects) w }
    ensures read { (w : NumberWorld) (objects : Items (ℕ × Tracked)) (id : ℕ) (new : Option Tracked) → Remembers objects w
        → IsKnown w id (either new (lookup (is_at (nat_cmp id)) objects)) → Remembers (put_new id new objects) w }
{}

/// Each call leaves an overlay that remembers: one that reads, where what it reads is what the world now has, and the making of an object
/// where the next number is a new one.
pub fn calls_remember_firsts()
    ensures write { (classes : Items Class) (base : Entries) (x : Layer) (y : NumberTx) (r : Ref) (slot : ℕ) (value : Value) → Stands x y → Remembers x.objects y.first
        → IsRead classes base x y r.object → StillRemembers y.first (write classes base r slot value x) }
    ensures derive { (classes : Items Class) (base : Entries) (x : Layer) (y : NumberTx) (r : Ref) → Stands x y → Remembers x.objects y.first
        → IsRead classes base x y r.object → StillRemembers y.first (derive classes base r x) }
    ensures drop { (classes : Items Class) (base : Entries) (x : Layer) (y : NumberTx) (r : Ref) → Stands x y → Remembers x.objects y.first
        → IsRead classes base x y r.object → StillRemembers y.first (drop_version classes base r x) }
    ensures touch { (classes : Items Class) (base : Entries) (x : Layer) (y : NumberTx) (id : ℕ) → Stands x y → Remembers x.objects y.first
        → IsRead classes base x y id → StillRemembers y.first (touch classes base id x) }
    ensures create { (class : ℕ) (fields : Items Value) (x : Layer) (y : NumberTx) → Stands x y → Remembers x.objects y.first
        → IsNewNumber x y x.next → StillRemembers y.first (create class fields x) }
    ensures remove { (classes : Items Class) (base : Entries) (x : Layer) (y : NumberTx) (id : ℕ) → Stands x y → Remembers x.objects y.first
        → IsRead classes base x y id → StillRemembers y.first (remove classes base id x) }
    ensures activate { (classes : Items Class) (base : Entries) (x : Layer) (y : NumberTx) (id class trigger : ℕ) (args : Items Value) → Stands x y
        → Remembers x.objects y.first → IsRead classes base x y id → StillRemembers y.first (activate classes base id class trigger args x) }
    ensures deactivate { (classes : Items Class) (base : Entries) (x : Layer) (y : NumberTx) (id number : ℕ) → Stands x y → Remembers x.objects y.first
        → IsRead classes base x y id → StillRemembers y.first (deactivate classes base id number x) }
    ensures put { (classes : Items Class) (base : Entries) (x : Layer) (y : NumberTx) (id : ℕ) (rs : Items Running) → Stands x y → Remembers x.objects y.first
        → IsRead classes base x y id → StillRemembers y.first (put_acts classes base id rs x) }
{}

/// A world over state numbers that stands for a good one is settled, and each object has versions.
pub fn good_worlds_are_settled()
    ensures settled { (l : Language) (tables : ℕ → ℕ → Table) (v : NumberWorld) (w : ListWorld) → IsGood l w → StandsAs tables v w → AreSettled v }
    ensures versions { (l : Language) (tables : ℕ → ℕ → Table) (v : NumberWorld) (w : ListWorld) → IsGood l w → StandsAs tables v w → HaveVersions v.bones }
{}

/// What the overlay takes back is what an abort takes back in the machine, before the last points: behind both it stands for the
/// transaction, and remembers what objects were; and each object has versions.
pub fn rewinds_follow()
    ensures stands { (tables : ℕ → ℕ → Table) (x : Layer) (y : NumberTx) → Stands x y → Remembers x.objects y.first → AreSettled y.first
        → Stands (rewind (map class_of y.first.bones.classes) x) (aborted (numbers tables) y) }
    ensures remembers { (tables : ℕ → ℕ → Table) (x : Layer) (y : NumberTx) → Remembers x.objects y.first
        → Remembers (rewind (map class_of y.first.bones.classes) x).objects (aborted (numbers tables) y).first }
    ensures versions { (tables : ℕ → ℕ → Table) (x : Layer) (y : NumberTx) → Stands x y → Remembers x.objects y.first → HaveVersions y.first.bones
        → HaveVersions (aborted (numbers tables) y).now.bones }
{}
