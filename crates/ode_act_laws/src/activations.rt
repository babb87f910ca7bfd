//! Activations go on and off, on the view.
ghost use Rattle.std.specs.Prelude.{◌≡◌, ℕ, pos, List as Items, [], Option, Some, Ok};
ghost use Rattle.ode_activation_laws.specs.Switching.{tells_line, tells_value};
ghost use Rattle.ode_keep.specs.Entries.{Entries};
ghost use Rattle.ode_laws.specs.Alike.{NumberWorld};
ghost use Rattle.ode_objects.specs.declared.tracked.Tracked.{Tracked};
ghost use Rattle.ode_overlay.specs.Changing.{activate, deactivate, fresh};
ghost use Rattle.ode_overlay.specs.Layers.{Layer};
ghost use Rattle.ode_overlay_laws.specs.Following.{on_live};
ghost use Rattle.ode_overlay_laws.specs.Standing.{IsFresh};
ghost use Rattle.ode_value.specs.Acts.{gives};
ghost use Rattle.ode_value.specs.Classes.{Trigger, trigger_named};
ghost use Rattle.ode_value.specs.Denoting.{object_at};
ghost use Rattle.ode_value.specs.Pasts.{numbers};
ghost use Rattle.ode_value.specs.Statements.{activates_initial, switches_off_numbered, switches_on_named};
ghost use Rattle.ode_value.specs.Tables.{Table};
ghost use Rattle.ode_value.specs.Worlds.{Declared, Object};
ghost use Rattle.ode_value.specs.declared.class.Class.{Class};
ghost use Rattle.ode_value.specs.declared.value.Ref.{Ref};
ghost use Rattle.ode_value.specs.declared.value.Value.{Value};
ghost use Rattle.ode_value.specs.declared.value.Value.TheVariants as value;
ghost use Rattle.ode_view_laws.specs.Showing.{IsViewed, Shows, ShowsDrawing, StaysViewed};
ghost use Rattle.ode_view_laws.specs.Viewing.{Beside, running};

use ode_activation_laws::{activations_follow, deactivations_follow};
use ode_view_laws::overlays_have_views;

/// An activation goes on through the overlay as by the machine on its view, up to its line: that of a trigger's name which the object's
/// class has, and one without arguments of a new object.
pub fn activations_show()
    ensures named { (classes : Items Declared) (first : NumberWorld) (beside : Beside) (x : Layer) → IsViewed first x → (declared : Items Class) (base : Entries) (r : Ref) (new : Option Tracked)
        → fresh declared base r.object x ≡ Ok new → IsFresh x (running classes first x beside) r.object new
        → (tables : ℕ → ℕ → Table) (o : Object) (name : Items ℕ) (t : Trigger) (args : Items Value)
        → object_at (running classes first x beside).now.bones r.object ≡ Some o → trigger_named (running classes first x beside).now.bones.classes o.class name ≡ Some t
        → ShowsDrawing (λ now. running classes first now beside) tells_value x (activate declared base r.object t.class t.place args x)
        (switches_on_named (numbers tables) r name args (running classes first x beside))
        × StaysViewed first (activate declared base r.object t.class t.place args x) }
    ensures initial { (classes : Items Declared) (first : NumberWorld) (beside : Beside) (x : Layer) → IsViewed first x → (declared : Items Class) (base : Entries) (id : ℕ) (new : Option Tracked)
        → fresh declared base id x ≡ Ok new → IsFresh x (running classes first x beside) id new → (tables : ℕ → ℕ → Table) (t : Trigger)
        → ShowsDrawing (λ now. running classes first now beside) tells_line x (activate declared base id t.class t.place [] x)
        (on_live id (activates_initial (numbers tables) id t) (running classes first x beside))
        × StaysViewed first (activate declared base id t.class t.place [] x) }
{
    overlays_have_views();
    activations_follow();
}

/// An activation goes off through the overlay as by the machine on its view, where there is one of the number that is on; else both do
/// nothing.
pub fn deactivations_show()
    ensures { (classes : Items Declared) (first : NumberWorld) (beside : Beside) (x : Layer) → IsViewed first x → (declared : Items Class) (base : Entries) (r : Ref) (number : ℕ) (new : Option Tracked)
        → fresh declared base r.object x ≡ Ok new → IsFresh x (running classes first x beside) r.object new → (tables : ℕ → ℕ → Table)
        → Shows (λ now. running classes first now beside) gives x (deactivate declared base r.object number x)
        (on_live r.object (switches_off_numbered (numbers tables) r (value.Int (pos number))) (running classes first x beside))
        × StaysViewed first (deactivate declared base r.object number x) }
{
    overlays_have_views();
    deactivations_follow();
}
