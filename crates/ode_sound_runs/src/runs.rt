//! Worlds behind the clock and behind declarations.
ghost use Rattle.std.specs.Prelude.{ℕ, List as Items};
ghost use Rattle.std.specs.List.{AllByRecursion};
ghost use Rattle.ode_machine.specs.Works.{clock_run, declares, tick};
ghost use Rattle.ode_value.specs.Language.{ListWorld};
ghost use Rattle.ode_value.specs.Objects.{Histories, Starts};
ghost use Rattle.ode_value.specs.Pasts.{lists};
ghost use Rattle.ode_value.specs.Settling.{Settled, transaction};
ghost use Rattle.ode_value.specs.Transactions.{Script};
ghost use Rattle.ode_value.specs.Worlds.{Declared, Position};
ghost use Rattle.ode_sound_laws.specs.Typed.{IsTypedWorld};
ghost use Rattle.ode_sound_runs.specs.Adding.{AddsSoundly};

/// From a typed world, a tick, a whole run of the clock, and the declaration of a class that is sound behind the earlier ones leave typed
/// worlds.
pub fn clocks_and_classes_stay_typed()
    ensures tick { (p : Position) (w : ListWorld) → IsTypedWorld w.bones → IsTypedWorld (tick lists p w).0.bones }
    ensures clock { (ps : Items Position) (last : Position) (most : ℕ) (w : ListWorld) → IsTypedWorld w.bones →
        AllByRecursion (λ (s : Settled Histories Starts). IsTypedWorld s.0.bones) (clock_run lists ps last most w) }
    ensures class { (c : Declared) (w : ListWorld) → IsTypedWorld w.bones → AddsSoundly w.bones c → IsTypedWorld (transaction lists Script (declares c) w).0.bones }
{}
