//! The world now.
ghost use Rattle.std.specs.Prelude.{◌≡◌, ◌+ℤ◌, pos, int_le, map, nat_le};
ghost use Rattle.ode_heap.specs.Answering.{class_of};
ghost use Rattle.ode_keep.specs.Entries.{Entries};
ghost use Rattle.ode_known_laws.specs.Knowing.{IsKnown};
ghost use Rattle.ode_laws.specs.Alike.{NumberWorld};
ghost use Rattle.ode_laws.specs.Numbered.{AreNumbered};
ghost use Rattle.ode_overlay.specs.Layers.{Layer};
ghost use Rattle.ode_overlay.specs.Settling.{growth_told};
ghost use Rattle.ode_value.specs.Keeping.{kept_bones};
ghost use Rattle.ode_value.specs.Limits.{weight_limit};
ghost use Rattle.ode_value.specs.Weights.{weight};
ghost use Rattle.ode_view_laws.specs.Viewing.{Beside, running};

use ode_version_laws::{
    changed_objects_weighed_less, growths_are_the_worlds, held_worlds_are_shown,
};
use ode_view_laws::overlays_have_views;

/// By the first world's classes the numbers of the view tell parts apart; and by what the first world weighs and the growth
/// that the overlay tells, what a commit keeps is light exactly where it is.
pub fn worlds_known()
    ensures numbered { (first : NumberWorld) (beside : Beside) (base : Entries) (x : Layer) → IsKnown base first x
        → AreNumbered (running first.bones.classes first x beside).now.bones }
    ensures light { (first : NumberWorld) (beside : Beside) (base : Entries) (x : Layer) → IsKnown base first x
        → int_le (pos (weight first.bones) +ℤ growth_told (map class_of first.bones.classes) x) (pos weight_limit) ≡ nat_le (weight (kept_bones (running first.bones.classes first x beside).now.bones)) weight_limit }
{
    overlays_have_views();
    held_worlds_are_shown();
    growths_are_the_worlds();
    changed_objects_weighed_less();
}
