//! What is known at the start, and what is read.
ghost use Rattle.std.specs.Prelude.{◌≡◌, ℕ, List as Items, Ok};
ghost use Rattle.std.specs.Option.{option_map};
ghost use Rattle.ode_heap.specs.Answering.{head_of_object};
ghost use Rattle.ode_keep.specs.Entries.{Entries};
ghost use Rattle.ode_known_laws.specs.Knowing.{IsHeld, IsKnown, declared_in};
ghost use Rattle.ode_laws.specs.Alike.{NumberWorld};
ghost use Rattle.ode_overlay.specs.Layers.{Layer};
ghost use Rattle.ode_overlay.specs.Reading.{object};
ghost use Rattle.ode_overlay.specs.declared.origin.Origin.{Origin};
ghost use Rattle.ode_run_frame.specs.Reads.{Reads};
ghost use Rattle.ode_value.specs.Denoting.{object_at};
ghost use Rattle.ode_value.specs.Worlds.{Declared};
ghost use Rattle.ode_view_laws.specs.Viewing.{Beside, began_over, running};

use ode_act_laws::views_are_read;
use ode_formed_laws::overlays_begin_formed;
use ode_key_laws::calls_keep_keys;
use ode_laws::good_worlds_are_numbered;
use ode_object_laws::good_worlds_have_triggers;
use ode_version_laws::{
    firsts_are_remembered, good_worlds_are_settled, held_worlds_are_shown, reads_follow,
};
use ode_view_laws::{overlays_have_views, transactions_begin_with_views};

/// A transaction begins so, where the records hold its world.
pub fn transactions_begin_known()
    ensures { (origin : Origin) (base : Entries) (w : NumberWorld) → IsHeld base w → IsKnown base w (began_over origin w) }
{
    transactions_begin_with_views();
    firsts_are_remembered();
    good_worlds_are_numbered();
    good_worlds_have_triggers();
    good_worlds_are_settled();
    overlays_begin_formed();
    calls_keep_keys();
}

/// Through an overlay of which this is known the bones of its view are read, and an object's head is that of the live object.
pub fn views_read_known()
    ensures bones { (classes : Items Declared) (first : NumberWorld) (beside : Beside) (base : Entries) (x : Layer) → IsKnown base first x
        → Reads (declared_in first) base x (running classes first x beside).now.bones }
    ensures object { (classes : Items Declared) (first : NumberWorld) (beside : Beside) (base : Entries) (x : Layer) → IsKnown base first x → (id : ℕ)
        → object base id x ≡ Ok (option_map head_of_object (object_at (running classes first x beside).now.bones id)) }
{
    overlays_have_views();
    held_worlds_are_shown();
    views_are_read();
    reads_follow();
}
