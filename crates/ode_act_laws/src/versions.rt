//! Versions are derived, removed and written, on the view.
ghost use Rattle.std.specs.Prelude.{ℕ, List as Items};
ghost use Rattle.ode_keep.specs.Entries.{Entries};
ghost use Rattle.ode_laws.specs.Alike.{NumberWorld};
ghost use Rattle.ode_overlay.specs.Changing.{derive, drop_version, write};
ghost use Rattle.ode_overlay.specs.Layers.{Layer};
ghost use Rattle.ode_value.specs.Acts.{gives};
ghost use Rattle.ode_value.specs.Making.{derives, drops, sets_field};
ghost use Rattle.ode_value.specs.Worlds.{Declared};
ghost use Rattle.ode_value.specs.declared.class.Class.{Class};
ghost use Rattle.ode_value.specs.declared.value.Ref.{Ref};
ghost use Rattle.ode_value.specs.declared.value.Value.{Value};
ghost use Rattle.ode_version_laws.specs.Denoting.{HasVersionsAt, IsRead, tells_version};
ghost use Rattle.ode_view_laws.specs.Showing.{IsViewed, Shows, StaysViewed};
ghost use Rattle.ode_view_laws.specs.Viewing.{Beside, running};

use ode_version_laws::{derivations_follow, version_removals_follow, writes_follow};
use ode_view_laws::overlays_have_views;

/// A version is derived through the overlay as by the machine on its view, up to its line.
pub fn derivations_show()
    ensures { (classes : Items Declared) (first : NumberWorld) (beside : Beside) (x : Layer) → IsViewed first x → (declared : Items Class) (base : Entries) (r : Ref)
        → IsRead declared base x (running classes first x beside) r.object
        → Shows (λ now. running classes first now beside) tells_version x (derive declared base r x) (derives r (running classes first x beside))
        × StaysViewed first (derive declared base r x) }
{
    overlays_have_views();
    derivations_follow();
}

/// A version is removed through the overlay as by the machine on its view, where the numbers of its object's versions rise.
pub fn version_removals_show()
    ensures { (classes : Items Declared) (first : NumberWorld) (beside : Beside) (x : Layer) → IsViewed first x → (declared : Items Class) (base : Entries) (r : Ref)
        → IsRead declared base x (running classes first x beside) r.object → HasVersionsAt (running classes first x beside) r.object
        → Shows (λ now. running classes first now beside) gives x (drop_version declared base r x) (drops r (running classes first x beside))
        × StaysViewed first (drop_version declared base r x) }
{
    overlays_have_views();
    version_removals_follow();
}

/// A field is set through the overlay as by the machine on its view, where the numbers of the object's versions rise.
pub fn writes_show()
    ensures { (classes : Items Declared) (first : NumberWorld) (beside : Beside) (x : Layer) → IsViewed first x → (declared : Items Class) (base : Entries) (r : Ref) (slot : ℕ) (v : Value)
        → IsRead declared base x (running classes first x beside) r.object → HasVersionsAt (running classes first x beside) r.object
        → Shows (λ now. running classes first now beside) gives x (write declared base r slot v x)
        (sets_field r slot v (running classes first x beside))
        × StaysViewed first (write declared base r slot v x) }
{
    overlays_have_views();
    writes_follow();
}
