//! Firings are collected, on the view.
ghost use Rattle.std.specs.Prelude.{◌≡◌, ◌+◌, ℕ, List as Items, Bool, true};
ghost use Rattle.ode_laws.specs.Alike.{NumberWorld};
ghost use Rattle.ode_objects.specs.Values.{are_args};
ghost use Rattle.ode_overlay.specs.Layers.{Layer, generation_of};
ghost use Rattle.ode_overlay.specs.Settling.{collect};
ghost use Rattle.ode_overlay_laws.specs.Following.{entry_by};
ghost use Rattle.ode_value.specs.Acts.{Deed, reached};
ghost use Rattle.ode_value.specs.Posting.{collects, dropped_text};
ghost use Rattle.ode_value.specs.Transactions.{Firing, queueing};
ghost use Rattle.ode_value.specs.Worlds.{Declared};
ghost use Rattle.ode_view_laws.specs.Ordering.{IsOrdered};
ghost use Rattle.ode_view_laws.specs.Showing.{IsViewed, ShowsCollected};
ghost use Rattle.ode_view_laws.specs.Viewing.{Beside, running};

/// A firing is collected in the overlay exactly where the machine collects it on its view; else the machine drops it.
pub fn collections_show()
    ensures { (classes : Items Declared) (first : NumberWorld) (beside : Beside) (x : Layer) → IsViewed first x
        → (says : Items ℕ → Deed (Unit {0}) ℕ) → ((line : Items ℕ) → IsOrdered (reached (says line (queueing (running classes first x beside)))).now)
        → (independent : Bool) (f : Firing) → are_args f.args ≡ true
        → let e = entry_by (generation_of x.origin + 1) f in
        ShowsCollected (collect e independent x).0 (λ now. running classes first now beside) (collect e independent x).1 (running classes first x beside)
        (says (dropped_text f) (queueing (running classes first x beside))) (collects says independent f (running classes first x beside))
        × IsViewed first (collect e independent x).1 }
{}
