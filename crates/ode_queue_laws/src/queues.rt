//! What becomes of the entries of the queue, over any runs and stops.
ghost use Rattle.std.specs.Prelude.{ℕ, List as Items};
ghost use Rattle.std.specs.List.{AllByRecursion};
ghost use Rattle.ode_value.specs.GoodWorlds.{IsGood};
ghost use Rattle.ode_value.specs.Language.{Language, ListWorld};
ghost use Rattle.ode_value.specs.Objects.{Histories, Starts};
ghost use Rattle.ode_value.specs.Settling.{Settled};
ghost use Rattle.ode_queue_laws.specs.Entries.{HasNumberedQueue, IsUsedOnce, MoveQueue};
ghost use Rattle.ode_queue_laws.specs.Stops.{StoppedRun, settled_by};

/// Over any runs of scripts, each stopped behind any of its settled transactions, from a world whose queue is numbered, as a good
/// world's is: each settled transaction is that of the entry at the front of the queue, which alone it removes, or it removes none; new
/// entries get new numbers. So each entry runs in exactly one settled transaction or still waits, and no number is used twice.
/// (Detached actions: Gehani, Jagadish and Shmueli, SIGMOD 1992.)
pub fn queued_entries_run_once()
    ensures moves { (l : Language) (w : ListWorld) (runs : Items StoppedRun) → HasNumberedQueue w.bones → MoveQueue w (settled_by l w runs) }
    ensures numbered { (l : Language) (w : ListWorld) (runs : Items StoppedRun) → HasNumberedQueue w.bones →
        AllByRecursion (λ (s : Settled Histories Starts). HasNumberedQueue s.0.bones) (settled_by l w runs) }
    ensures once { (l : Language) (w : ListWorld) (runs : Items StoppedRun) → HasNumberedQueue w.bones → (number : ℕ) → IsUsedOnce number w (settled_by l w runs) }
    ensures good { (l : Language) (w : ListWorld) → IsGood l w → HasNumberedQueue w.bones }
{}
