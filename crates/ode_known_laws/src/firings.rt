//! Firings are collected.
ghost use Rattle.std.specs.Prelude.{◌≡◌, ◌+◌, Bool, List as Items, true};
ghost use Rattle.ode_keep.specs.Entries.{Entries};
ghost use Rattle.ode_known_laws.specs.Knowing.{IsKnown};
ghost use Rattle.ode_laws.specs.Alike.{NumberWorld};
ghost use Rattle.ode_objects.specs.Values.{are_args};
ghost use Rattle.ode_overlay.specs.Layers.{Layer, generation_of};
ghost use Rattle.ode_overlay.specs.Settling.{collect};
ghost use Rattle.ode_overlay_laws.specs.Following.{entry_by};
ghost use Rattle.ode_value.specs.Acts.{prints};
ghost use Rattle.ode_value.specs.Posting.{collects, dropped_text};
ghost use Rattle.ode_value.specs.Settling.{says};
ghost use Rattle.ode_value.specs.Transactions.{Firing, queueing};
ghost use Rattle.ode_value.specs.Worlds.{Declared};
ghost use Rattle.ode_view_laws.specs.Showing.{ShowsCollected};
ghost use Rattle.ode_view_laws.specs.Viewing.{Beside, running};

use ode_formed_laws::changes_stay_formed;
use ode_key_laws::calls_keep_keys;
use ode_view_laws::collections_show;

/// A firing that is collected, or dropped, in a transaction [`running`] and at a point of its settling, where lines have no limit
/// [`settling`].
pub fn collections_known()
    ensures running { (classes : Items Declared) (first : NumberWorld) (beside : Beside) (base : Entries) (x : Layer) → IsKnown base first x
        → (independent : Bool) (f : Firing) → are_args f.args ≡ true
        → let e = entry_by (generation_of x.origin + 1) f in
        ShowsCollected (collect e independent x).0 (λ now. running classes first now beside) (collect e independent x).1 (running classes first x beside)
        (prints (dropped_text f) (queueing (running classes first x beside))) (collects prints independent f (running classes first x beside))
        × IsKnown base first (collect e independent x).1 }
    ensures settling { (classes : Items Declared) (first : NumberWorld) (beside : Beside) (base : Entries) (x : Layer) → IsKnown base first x
        → (independent : Bool) (f : Firing) → are_args f.args ≡ true
        → let e = entry_by (generation_of x.origin + 1) f in
        ShowsCollected (collect e independent x).0 (λ now. running classes first now beside) (collect e independent x).1 (running classes first x beside)
        (says (dropped_text f) (queueing (running classes first x beside))) (collects says independent f (running classes first x beside))
        × IsKnown base first (collect e independent x).1 }
{
    collections_show();
    changes_stay_formed();
    calls_keep_keys();
}
