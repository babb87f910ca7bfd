//! What an abort takes back.
ghost use Rattle.std.specs.Prelude.{◌≡◌, ℕ, List as Items};
ghost use Rattle.ode_keep.specs.Entries.{Entries};
ghost use Rattle.ode_known_laws.specs.Knowing.{IsKnown, declared_in};
ghost use Rattle.ode_laws.specs.Alike.{NumberWorld};
ghost use Rattle.ode_overlay.specs.Layers.{Layer};
ghost use Rattle.ode_overlay.specs.Rewinding.{rewind};
ghost use Rattle.ode_value.specs.Pasts.{numbers};
ghost use Rattle.ode_value.specs.Settling.{aborted};
ghost use Rattle.ode_value.specs.Tables.{Table};
ghost use Rattle.ode_value.specs.Worlds.{Declared};
ghost use Rattle.ode_view_laws.specs.Viewing.{Beside, running};

use ode_formed_rewinds::rewinds_stay_formed;
use ode_key_laws::calls_keep_keys;
use ode_object_laws::{good_worlds_have_triggers, rewinds_keep_objects};
use ode_version_laws::{good_worlds_are_settled, held_worlds_are_shown, rewinds_follow};
use ode_view_laws::overlays_have_views;

/// The overlay takes back on the view what an abort takes back in the machine, before the last points: it leaves the first world's classes. So
/// much is known of it behind that as before.
pub fn rewinds_known()
    ensures { (classes : Items Declared) (first : NumberWorld) (beside : Beside) (base : Entries) (x : Layer) → IsKnown base first x → (tables : ℕ → ℕ → Table)
        → (aborted (numbers tables) (running classes first x beside) ≡ running first.bones.classes first (rewind (declared_in first) x) beside)
        × IsKnown base first (rewind (declared_in first) x) }
{
    overlays_have_views();
    held_worlds_are_shown();
    good_worlds_are_settled();
    rewinds_follow();
    good_worlds_have_triggers();
    rewinds_keep_objects();
    rewinds_stay_formed();
    calls_keep_keys();
}
