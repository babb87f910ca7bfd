//! Activations go on and off in the overlay as in the machine. Each law is carried by the contract of a function that does nothing.
#![tactic(auto)]

ghost use Rattle.std.specs.Prelude.{◌≡◌, ℕ, pos, List as Items, [], Option, Some};
ghost use Rattle.ode_activation_laws.specs.Switching.{tells_active, tells_line, tells_value};
ghost use Rattle.ode_laws.specs.Alike.{NumberTx};
ghost use Rattle.ode_objects.specs.declared.tracked.Tracked.{Tracked};
ghost use Rattle.ode_overlay.specs.Changing.{activate_with, deactivate_with};
ghost use Rattle.ode_overlay.specs.Layers.{Layer};
ghost use Rattle.ode_overlay_laws.specs.Following.{Follows, FollowsDrawing, on_live};
ghost use Rattle.ode_overlay_laws.specs.Standing.{IsFresh, Stands};
ghost use Rattle.ode_value.specs.Acts.{gives};
ghost use Rattle.ode_value.specs.Classes.{Trigger, trigger_named};
ghost use Rattle.ode_value.specs.Denoting.{object_at};
ghost use Rattle.ode_value.specs.Making.{switches_on};
ghost use Rattle.ode_value.specs.Pasts.{numbers};
ghost use Rattle.ode_value.specs.Statements.{activates_initial, switches_off_numbered, switches_on_named};
ghost use Rattle.ode_value.specs.Tables.{Table};
ghost use Rattle.ode_value.specs.Worlds.{Object};
ghost use Rattle.ode_value.specs.declared.value.Ref.{Ref};
ghost use Rattle.ode_value.specs.declared.value.Value.{Value};
ghost use Rattle.ode_value.specs.declared.value.Value.TheVariants as value;

/// An activation of a trigger goes on in the overlay as in the machine, up to its line: that of a trigger,
/// that of a name which the object's class has, and one without arguments of a new object.
pub fn activations_follow()
    ensures trigger { (tables : ℕ → ℕ → Table) (t : Trigger) (args : Items Value) (x : Layer) (y : NumberTx) (id : ℕ) (new : Option Tracked) → Stands x y → IsFresh x y id new
        → FollowsDrawing y tells_active (activate_with new id t.class t.place args x) (on_live id (switches_on (numbers tables) id t args) y) }
    ensures named { (tables : ℕ → ℕ → Table) (o : Object) (name : Items ℕ) (t : Trigger) (args : Items Value) (x : Layer) (y : NumberTx) (r : Ref) (new : Option Tracked) → Stands x y
        → IsFresh x y r.object new
        → object_at y.now.bones r.object ≡ Some o → trigger_named y.now.bones.classes o.class name ≡ Some t
        → FollowsDrawing y tells_value (activate_with new r.object t.class t.place args x) (switches_on_named (numbers tables) r name args y) }
    ensures initial { (tables : ℕ → ℕ → Table) (t : Trigger) (x : Layer) (y : NumberTx) (id : ℕ) (new : Option Tracked) → Stands x y → IsFresh x y id new
        → FollowsDrawing y tells_line (activate_with new id t.class t.place [] x) (on_live id (activates_initial (numbers tables) id t) y) }
{}

/// An activation of an object goes off in the overlay as in the machine, where there is one of the number that is on; else both do
/// nothing.
pub fn deactivations_follow()
    ensures { (tables : ℕ → ℕ → Table) (x : Layer) (y : NumberTx) (r : Ref) (number : ℕ) (new : Option Tracked) → Stands x y → IsFresh x y r.object new
        → Follows y gives (deactivate_with new r.object number x) (on_live r.object (switches_off_numbered (numbers tables) r (value.Int (pos number))) y) }
{}
