//! Firings are collected, in the overlay and in the machine.
ghost use Rattle.std.specs.Prelude.{◌≡◌, ◌+◌, ℕ, List as Items, Bool, true};
ghost use Rattle.ode_laws.specs.Alike.{NumberTx};
ghost use Rattle.ode_overlay.specs.Layers.{Layer, generation_of};
ghost use Rattle.ode_overlay.specs.Objects.{are_args};
ghost use Rattle.ode_overlay.specs.Settling.{collect};
ghost use Rattle.ode_overlay_laws.specs.Following.{Collects, entry_by};
ghost use Rattle.ode_overlay_laws.specs.Standing.{Stands};
ghost use Rattle.ode_value.specs.Acts.{Deed};
ghost use Rattle.ode_value.specs.Posting.{collects, dropped_text};
ghost use Rattle.ode_value.specs.Transactions.{Firing, queueing};

/// A firing is collected in the overlay exactly where the machine collects it; else the machine drops it.
pub fn firings_are_collected()
    ensures { (x : Layer) (y : NumberTx) → Stands x y → (says : Items ℕ → Deed (Unit {0}) ℕ) (independent : Bool) (f : Firing) → are_args f.args ≡ true
        → let e = entry_by (generation_of x.origin + 1) f in
        Collects (collect e independent x).0 (collect e independent x).1 y (says (dropped_text f) (queueing y)) (collects says independent f y) }
{}
