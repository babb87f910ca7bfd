//! Activations go on and off.
ghost use Rattle.std.specs.Prelude.{◌≡◌, ℕ, pos, List as Items, [], Some};
ghost use Rattle.ode_activation_laws.specs.Switching.{tells_line, tells_value};
ghost use Rattle.ode_keep.specs.Entries.{Entries};
ghost use Rattle.ode_known_laws.specs.Knowing.{IsKnown, StaysKnown, declared_in};
ghost use Rattle.ode_laws.specs.Alike.{NumberWorld};
ghost use Rattle.ode_object_laws.specs.Objects.{TakesTrigger};
ghost use Rattle.ode_overlay.specs.Changing.{activate, deactivate};
ghost use Rattle.ode_overlay.specs.Layers.{Layer};
ghost use Rattle.ode_overlay_laws.specs.Following.{on_live};
ghost use Rattle.ode_value.specs.Acts.{gives};
ghost use Rattle.ode_value.specs.Classes.{Trigger, trigger_named};
ghost use Rattle.ode_value.specs.Denoting.{object_at};
ghost use Rattle.ode_value.specs.Pasts.{numbers};
ghost use Rattle.ode_value.specs.Statements.{activates_initial, switches_off_numbered, switches_on_named};
ghost use Rattle.ode_value.specs.Tables.{Table};
ghost use Rattle.ode_value.specs.Worlds.{Declared, Object};
ghost use Rattle.ode_value.specs.declared.value.Ref.{Ref};
ghost use Rattle.ode_value.specs.declared.value.Value.{Value};
ghost use Rattle.ode_value.specs.declared.value.Value.TheVariants as value;
ghost use Rattle.ode_view_laws.specs.Showing.{Shows, ShowsDrawing};
ghost use Rattle.ode_view_laws.specs.Viewing.{Beside, running};

use ode_act_laws::{activations_show, deactivations_show};
use ode_formed_laws::{changes_stay_formed, objects_are_read_as_stored};
use ode_held_laws::objects_are_read_fresh;
use ode_key_laws::calls_keep_keys;
use ode_object_laws::{calls_keep_numbers, calls_keep_triggers};
use ode_version_laws::{calls_keep_versions, calls_remember_firsts};
use ode_view_laws::overlays_have_views;

/// A new activation, up to its line: of a trigger's name which the object's class has, and of an initial trigger that it has
/// of an object that is there.
pub fn activations_known()
    ensures named { (classes : Items Declared) (first : NumberWorld) (beside : Beside) (base : Entries) (x : Layer) → IsKnown base first x → (r : Ref)
        → (tables : ℕ → ℕ → Table) (o : Object) (name : Items ℕ) (t : Trigger) (args : Items Value)
        → object_at (running classes first x beside).now.bones r.object ≡ Some o → trigger_named (running classes first x beside).now.bones.classes o.class name ≡ Some t
        → TakesTrigger first.bones.classes o.class t.class t.place
        → ShowsDrawing (λ now. running classes first now beside) tells_value x (activate (declared_in first) base r.object t.class t.place args x)
        (switches_on_named (numbers tables) r name args (running classes first x beside))
        × StaysKnown base first (activate (declared_in first) base r.object t.class t.place args x) }
    ensures initial { (classes : Items Declared) (first : NumberWorld) (beside : Beside) (base : Entries) (x : Layer) → IsKnown base first x → (id : ℕ)
        → (tables : ℕ → ℕ → Table) (t : Trigger) (o : Object) → object_at (running classes first x beside).now.bones id ≡ Some o
        → TakesTrigger first.bones.classes o.class t.class t.place
        → ShowsDrawing (λ now. running classes first now beside) tells_line x (activate (declared_in first) base id t.class t.place [] x)
        (on_live id (activates_initial (numbers tables) id t) (running classes first x beside))
        × StaysKnown base first (activate (declared_in first) base id t.class t.place [] x) }
{
    overlays_have_views();
    objects_are_read_fresh();
    activations_show();
    calls_remember_firsts();
    calls_keep_versions();
    calls_keep_numbers();
    calls_keep_triggers();
    objects_are_read_as_stored();
    changes_stay_formed();
    calls_keep_keys();
}

/// An activation that goes off, where there is one of the number that is on.
pub fn deactivations_known()
    ensures { (classes : Items Declared) (first : NumberWorld) (beside : Beside) (base : Entries) (x : Layer) → IsKnown base first x → (r : Ref) (number : ℕ) (tables : ℕ → ℕ → Table)
        → Shows (λ now. running classes first now beside) gives x (deactivate (declared_in first) base r.object number x)
        (on_live r.object (switches_off_numbered (numbers tables) r (value.Int (pos number))) (running classes first x beside))
        × StaysKnown base first (deactivate (declared_in first) base r.object number x) }
{
    overlays_have_views();
    objects_are_read_fresh();
    deactivations_show();
    calls_remember_firsts();
    calls_keep_versions();
    calls_keep_numbers();
    calls_keep_triggers();
    objects_are_read_as_stored();
    changes_stay_formed();
    calls_keep_keys();
}
