//! What holds of printed instants.
ghost use Rattle.std.specs.Prelude.{◌≡◌, ℕ, ℤ, List, Some};
ghost use Rattle.ode_timer.specs.Dates.{instant_of};
ghost use Rattle.ode_value.specs.Instants.{instant_text};

/// The text of an instant is that instant.
pub fn printed_instants_are_read()
    ensures { (text : List ℕ) (second : ℤ) → instant_of text ≡ Some second → instant_of (instant_text second) ≡ Some second }
{}
