//! Expressions read the view.
ghost use Rattle.std.specs.Prelude.{List as Items, map, ℕ};
ghost use Rattle.ode_heap.specs.Answering.{class_of};
ghost use Rattle.ode_keep.specs.Entries.{Entries};
ghost use Rattle.ode_laws.specs.Alike.{NumberWorld};
ghost use Rattle.ode_overlay.specs.Layers.{Layer};
ghost use Rattle.ode_run_frame.specs.Reads.{Reads};
ghost use Rattle.ode_value.specs.Worlds.{Declared};
ghost use Rattle.ode_version_laws.specs.Denoting.{HasVersionsAt};
ghost use Rattle.ode_version_laws.specs.Showing.{AreSettled, Shows};
ghost use Rattle.ode_view_laws.specs.Viewing.{Beside, IsOver, running};

use ode_version_laws::reads_follow;
use ode_view_laws::overlays_have_views;

/// Over records that show the first world the bones of the view are read through the overlay, where the first world is settled and each
/// object's versions have rising numbers.
pub fn views_are_read()
    ensures { (classes : Items Declared) (first : NumberWorld) (beside : Beside) (x : Layer) (base : Entries) → IsOver first x → Shows base first → AreSettled first
        → ((id : ℕ) → HasVersionsAt (running classes first x beside) id) → Reads (map class_of first.bones.classes) base x (running classes first x beside).now.bones }
{
    overlays_have_views();
    reads_follow();
}
