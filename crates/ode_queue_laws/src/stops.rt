//! References over any runs and stops.
ghost use Rattle.std.specs.Prelude.{List as Items, map};
ghost use Rattle.std.specs.List.{AllByRecursion};
ghost use Rattle.ode_machine.specs.Stability.{IsStable};
ghost use Rattle.ode_value.specs.Language.{Language, ListWorld};
ghost use Rattle.ode_value.specs.Objects.{Histories, Starts};
ghost use Rattle.ode_value.specs.Settling.{Settled};
ghost use Rattle.ode_run_laws.specs.Orders.{IsOrdered};
ghost use Rattle.ode_queue_laws.specs.Stops.{StoppedRun, settled_by};

/// References are stable over the worlds of any runs of scripts, each stopped behind any of its settled transactions, from a world whose
/// numbers rise: no number falls, none is given twice, and what a reference denotes stays until a transaction removes it.
pub fn references_are_stable_over_stops()
    ensures stable { (l : Language) (w : ListWorld) (runs : Items StoppedRun) → IsOrdered w.bones →
        IsStable w.bones (map (λ (s : Settled Histories Starts). s.0.bones) (settled_by l w runs)) }
    ensures ordered { (l : Language) (w : ListWorld) (runs : Items StoppedRun) → IsOrdered w.bones →
        AllByRecursion IsOrdered (map (λ (s : Settled Histories Starts). s.0.bones) (settled_by l w runs)) }
{}
