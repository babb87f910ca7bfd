//! Versions are derived, removed and written.
ghost use Rattle.std.specs.Prelude.{ℕ, List as Items};
ghost use Rattle.ode_keep.specs.Entries.{Entries};
ghost use Rattle.ode_known_laws.specs.Knowing.{IsKnown, StaysKnown, declared_in};
ghost use Rattle.ode_laws.specs.Alike.{NumberWorld};
ghost use Rattle.ode_overlay.specs.Changing.{derive, drop_version, write};
ghost use Rattle.ode_overlay.specs.Layers.{Layer};
ghost use Rattle.ode_value.specs.Acts.{gives};
ghost use Rattle.ode_value.specs.Making.{derives, drops, sets_field};
ghost use Rattle.ode_value.specs.Worlds.{Declared};
ghost use Rattle.ode_value.specs.declared.value.Ref.{Ref};
ghost use Rattle.ode_value.specs.declared.value.Value.{Value};
ghost use Rattle.ode_version_laws.specs.Denoting.{tells_version};
ghost use Rattle.ode_view_laws.specs.Showing.{Shows};
ghost use Rattle.ode_view_laws.specs.Viewing.{Beside, running};

use ode_act_laws::{derivations_show, version_removals_show, writes_show};
use ode_formed_laws::objects_are_read_as_stored;
use ode_formed_versions::versions_stay_formed;
use ode_held_laws::objects_are_read_fresh;
use ode_key_laws::calls_keep_keys;
use ode_object_laws::{calls_keep_numbers, calls_keep_triggers};
use ode_version_laws::{calls_keep_versions, calls_remember_firsts};
use ode_view_laws::overlays_have_views;

/// A new version, up to its line.
pub fn derivations_known()
    ensures { (classes : Items Declared) (first : NumberWorld) (beside : Beside) (base : Entries) (x : Layer) → IsKnown base first x → (r : Ref)
        → Shows (λ now. running classes first now beside) tells_version x (derive (declared_in first) base r x) (derives r (running classes first x beside))
        × StaysKnown base first (derive (declared_in first) base r x) }
{
    overlays_have_views();
    objects_are_read_fresh();
    derivations_show();
    calls_remember_firsts();
    calls_keep_versions();
    calls_keep_numbers();
    calls_keep_triggers();
    objects_are_read_as_stored();
    versions_stay_formed();
    calls_keep_keys();
}

/// The removal of a version.
pub fn version_removals_known()
    ensures { (classes : Items Declared) (first : NumberWorld) (beside : Beside) (base : Entries) (x : Layer) → IsKnown base first x → (r : Ref)
        → Shows (λ now. running classes first now beside) gives x (drop_version (declared_in first) base r x) (drops r (running classes first x beside))
        × StaysKnown base first (drop_version (declared_in first) base r x) }
{
    overlays_have_views();
    objects_are_read_fresh();
    version_removals_show();
    calls_remember_firsts();
    calls_keep_versions();
    calls_keep_numbers();
    calls_keep_triggers();
    objects_are_read_as_stored();
    versions_stay_formed();
    calls_keep_keys();
}

/// A field that is set.
pub fn writes_known()
    ensures { (classes : Items Declared) (first : NumberWorld) (beside : Beside) (base : Entries) (x : Layer) → IsKnown base first x → (r : Ref) (slot : ℕ) (v : Value)
        → Shows (λ now. running classes first now beside) gives x (write (declared_in first) base r slot v x)
        (sets_field r slot v (running classes first x beside))
        × StaysKnown base first (write (declared_in first) base r slot v x) }
{
    overlays_have_views();
    objects_are_read_fresh();
    writes_show();
    calls_remember_firsts();
    calls_keep_versions();
    calls_keep_numbers();
    calls_keep_triggers();
    objects_are_read_as_stored();
    versions_stay_formed();
    calls_keep_keys();
}
