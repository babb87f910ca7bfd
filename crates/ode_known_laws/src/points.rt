//! Activations go on at a point.
ghost use Rattle.std.specs.Prelude.{ℕ, List as Items};
ghost use Rattle.ode_keep.specs.Entries.{Entries};
ghost use Rattle.ode_known_laws.specs.Knowing.{IsKnown, StaysKnown, declared_in};
ghost use Rattle.ode_laws.specs.Alike.{NumberWorld};
ghost use Rattle.ode_overlay.specs.Changing.{put_acts};
ghost use Rattle.ode_overlay.specs.Layers.{Layer};
ghost use Rattle.ode_types.specs.declared.running.Running.{Running};

use ode_formed_laws::{changes_stay_formed, objects_are_read_as_stored};
use ode_held_laws::objects_are_read_fresh;
use ode_key_laws::calls_keep_keys;
use ode_object_laws::{calls_keep_numbers, calls_keep_triggers};
use ode_version_laws::{calls_keep_versions, calls_remember_firsts};
use ode_view_laws::overlays_have_views;

/// The activations of an object take over states, whatever these are.
pub fn puts_known()
    ensures { (base : Entries) (first : NumberWorld) (x : Layer) → IsKnown base first x → (id : ℕ) (rs : Items Running)
        → StaysKnown base first (put_acts (declared_in first) base id rs x) }
{
    overlays_have_views();
    objects_are_read_fresh();
    calls_remember_firsts();
    calls_keep_versions();
    calls_keep_numbers();
    calls_keep_triggers();
    objects_are_read_as_stored();
    changes_stay_formed();
    calls_keep_keys();
}
