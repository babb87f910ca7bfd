//! Objects are touched, made and removed.
ghost use Rattle.std.specs.Prelude.{ℕ, List as Items};
ghost use Rattle.ode_keep.specs.Entries.{Entries};
ghost use Rattle.ode_known_laws.specs.Knowing.{IsKnown, StaysKnown, declared_in};
ghost use Rattle.ode_laws.specs.Alike.{NumberWorld};
ghost use Rattle.ode_overlay.specs.Changing.{create, remove, touch};
ghost use Rattle.ode_overlay.specs.Layers.{Layer};
ghost use Rattle.ode_overlay_laws.specs.Following.{joins_first, on_live, tells_new};
ghost use Rattle.ode_value.specs.Acts.{gives};
ghost use Rattle.ode_value.specs.Making.{makes, removes};
ghost use Rattle.ode_value.specs.Pasts.{numbers};
ghost use Rattle.ode_value.specs.Tables.{Table};
ghost use Rattle.ode_value.specs.Worlds.{Declared};
ghost use Rattle.ode_value.specs.declared.value.Value.{Value};
ghost use Rattle.ode_view_laws.specs.Showing.{Shows, ShowsDrawing};
ghost use Rattle.ode_view_laws.specs.Viewing.{Beside, running};

use ode_formed_laws::{changes_stay_formed, objects_are_read_as_stored};
use ode_held_laws::objects_are_read_fresh;
use ode_key_laws::calls_keep_keys;
use ode_object_laws::{calls_keep_numbers, calls_keep_triggers};
use ode_version_laws::{calls_keep_versions, calls_remember_firsts};
use ode_view_laws::{makings_show, overlays_have_views, removals_show, touches_show};

/// A touch, up to the point that the first one posts.
pub fn touches_known()
    ensures { (classes : Items Declared) (first : NumberWorld) (beside : Beside) (base : Entries) (x : Layer) → IsKnown base first x → (id : ℕ)
        → Shows (λ now. running classes first now beside) gives x (touch (declared_in first) base id x) (on_live id (joins_first id) (running classes first x beside))
        × StaysKnown base first (touch (declared_in first) base id x) }
{
    overlays_have_views();
    objects_are_read_fresh();
    touches_show();
    calls_remember_firsts();
    calls_keep_versions();
    calls_keep_numbers();
    calls_keep_triggers();
    objects_are_read_as_stored();
    changes_stay_formed();
    calls_keep_keys();
}

/// The removal of an object.
pub fn removals_known()
    ensures { (classes : Items Declared) (first : NumberWorld) (beside : Beside) (base : Entries) (x : Layer) → IsKnown base first x → (id : ℕ)
        → Shows (λ now. running classes first now beside) gives x (remove (declared_in first) base id x) (on_live id (removes id) (running classes first x beside))
        × StaysKnown base first (remove (declared_in first) base id x) }
{
    overlays_have_views();
    objects_are_read_fresh();
    removals_show();
    calls_remember_firsts();
    calls_keep_versions();
    calls_keep_numbers();
    calls_keep_triggers();
    objects_are_read_as_stored();
    changes_stay_formed();
    calls_keep_keys();
}

/// The making of an object, up to its line.
pub fn makings_known()
    ensures { (classes : Items Declared) (first : NumberWorld) (beside : Beside) (base : Entries) (x : Layer) → IsKnown base first x
        → (tables : ℕ → ℕ → Table) (class : ℕ) (fields : Items Value)
        → ShowsDrawing (λ now. running classes first now beside) tells_new x (create class fields x) (makes (numbers tables) class fields (running classes first x beside))
        × StaysKnown base first (create class fields x) }
{
    overlays_have_views();
    makings_show();
    calls_remember_firsts();
    calls_keep_versions();
    calls_keep_numbers();
    calls_keep_triggers();
    changes_stay_formed();
    calls_keep_keys();
}
