//! Objects are touched, made and removed, on the view.
ghost use Rattle.std.specs.Prelude.{◌≡◌, ℕ, List as Items, Option, Ok};
ghost use Rattle.ode_keep.specs.Entries.{Entries};
ghost use Rattle.ode_laws.specs.Alike.{NumberWorld};
ghost use Rattle.ode_objects.specs.declared.tracked.Tracked.{Tracked};
ghost use Rattle.ode_overlay.specs.Changing.{create, fresh, remove, touch};
ghost use Rattle.ode_overlay.specs.Layers.{Layer};
ghost use Rattle.ode_overlay_laws.specs.Following.{joins_first, on_live, tells_new};
ghost use Rattle.ode_overlay_laws.specs.Standing.{IsFresh};
ghost use Rattle.ode_value.specs.Acts.{gives};
ghost use Rattle.ode_value.specs.Making.{makes, removes};
ghost use Rattle.ode_value.specs.Pasts.{numbers};
ghost use Rattle.ode_value.specs.Tables.{Table};
ghost use Rattle.ode_value.specs.Worlds.{Declared};
ghost use Rattle.ode_value.specs.declared.class.Class.{Class};
ghost use Rattle.ode_value.specs.declared.value.Value.{Value};
ghost use Rattle.ode_view_laws.specs.Showing.{IsViewed, Shows, ShowsDrawing, StaysViewed};
ghost use Rattle.ode_view_laws.specs.Viewing.{Beside, running};

/// A touch through the overlay is the machine's on its view, up to the point that the first one posts.
pub fn touches_show()
    ensures { (classes : Items Declared) (first : NumberWorld) (beside : Beside) (x : Layer) → IsViewed first x
        → (declared : Items Class) (base : Entries) (id : ℕ) (new : Option Tracked) → fresh declared base id x ≡ Ok new → IsFresh x (running classes first x beside) id new
        → Shows (λ now. running classes first now beside) gives x (touch declared base id x) (on_live id (joins_first id) (running classes first x beside))
        × StaysViewed first (touch declared base id x) }
{}

/// An object is removed through the overlay as by the machine on its view.
pub fn removals_show()
    ensures { (classes : Items Declared) (first : NumberWorld) (beside : Beside) (x : Layer) → IsViewed first x
        → (declared : Items Class) (base : Entries) (id : ℕ) (new : Option Tracked) → fresh declared base id x ≡ Ok new → IsFresh x (running classes first x beside) id new
        → Shows (λ now. running classes first now beside) gives x (remove declared base id x) (on_live id (removes id) (running classes first x beside))
        × StaysViewed first (remove declared base id x) }
{}

/// An object is made through the overlay as by the machine on its view, up to its line.
pub fn makings_show()
    ensures { (classes : Items Declared) (first : NumberWorld) (beside : Beside) (x : Layer) → IsViewed first x
        → (tables : ℕ → ℕ → Table) (class : ℕ) (fields : Items Value)
        → ShowsDrawing (λ now. running classes first now beside) tells_new x (create class fields x) (makes (numbers tables) class fields (running classes first x beside))
        × StaysViewed first (create class fields x) }
{}
