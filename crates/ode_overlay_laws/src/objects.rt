//! Objects are touched, made and removed, in the overlay and in the machine.
ghost use Rattle.std.specs.Prelude.{ℕ, List as Items, Option};
ghost use Rattle.ode_laws.specs.Alike.{NumberTx};
ghost use Rattle.ode_overlay.specs.Changing.{create, remove_with, touch_with};
ghost use Rattle.ode_overlay.specs.Layers.{Layer};
ghost use Rattle.ode_overlay.specs.Objects.{Tracked};
ghost use Rattle.ode_overlay_laws.specs.Following.{Follows, FollowsDrawing, IsNewNumber, joins_first, on_live, tells_new};
ghost use Rattle.ode_overlay_laws.specs.Standing.{IsFresh, Stands};
ghost use Rattle.ode_value.specs.Acts.{gives};
ghost use Rattle.ode_value.specs.Making.{makes, removes};
ghost use Rattle.ode_value.specs.Pasts.{numbers};
ghost use Rattle.ode_value.specs.Tables.{Table};
ghost use Rattle.ode_value.specs.declared.value.Value.{Value};

/// An object is touched in the overlay as in the machine, up to the point that the first touch posts.
pub fn touches_follow()
    ensures { (x : Layer) (y : NumberTx) (id : ℕ) (new : Option Tracked) → Stands x y → IsFresh x y id new → Follows y gives (touch_with new id x) (on_live id (joins_first id) y) }
{}

/// An object is made in the overlay as in the machine, up to its line, where the next number is a new one.
pub fn makings_follow()
    ensures { (tables : ℕ → ℕ → Table) (class : ℕ) (fields : Items Value) (x : Layer) (y : NumberTx) → Stands x y → IsNewNumber x y x.next
        → FollowsDrawing y tells_new (create class fields x) (makes (numbers tables) class fields y) }
{}

/// An object is removed in the overlay as in the machine.
pub fn removals_follow()
    ensures { (x : Layer) (y : NumberTx) (id : ℕ) (new : Option Tracked) → Stands x y → IsFresh x y id new → Follows y gives (remove_with new id x) (on_live id (removes id) y) }
{}
