//! A transaction begins, in the overlay and in the machine.
ghost use Rattle.std.specs.Prelude.{length};
ghost use Rattle.ode_laws.specs.Alike.{NumberWorld};
ghost use Rattle.ode_overlay.specs.Layers as layers;
ghost use Rattle.ode_overlay.specs.Objects.{counters_of};
ghost use Rattle.ode_overlay.specs.declared.origin.Origin.{Origin};
ghost use Rattle.ode_overlay_laws.specs.Standing.{Stands, origin_as};
ghost use Rattle.ode_value.specs.Posting.{waiting};
ghost use Rattle.ode_value.specs.Transactions.{begun};

/// With a world's counters and the length of its queue without the entry that runs, the overlay begins as the machine's transaction.
pub fn transactions_begin_alike()
    ensures { (origin : Origin) (w : NumberWorld) →
        Stands (layers.begun (counters_of w.bones) (length (waiting (origin_as origin) w.bones.queue)) origin) (begun (origin_as origin) w) }
{}
