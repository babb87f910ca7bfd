//! The growth that an overlay tells is that of the world.
ghost use Rattle.std.specs.Prelude.{◌≡◌, ◌≤◌, map, pos, ◌-ℤ◌};
ghost use Rattle.ode_heap.specs.Answering.{class_of};
ghost use Rattle.ode_laws.specs.Alike.{NumberTx};
ghost use Rattle.ode_overlay.specs.Layers.{Layer};
ghost use Rattle.ode_overlay.specs.Settling.{bytes_before, growth};
ghost use Rattle.ode_overlay_laws.specs.Standing.{Stands};
ghost use Rattle.ode_value.specs.Keeping.{kept_bones};
ghost use Rattle.ode_value.specs.Weights.{weight};
ghost use Rattle.ode_version_laws.specs.Growing.{GoesOnNumbered};
ghost use Rattle.ode_version_laws.specs.Remembering.{Remembers};
ghost use Rattle.ode_version_laws.specs.Showing.{AreSettled};

/// The growth by the first world's classes is the difference between the weights of the world that a commit keeps and of the first one.
pub fn growths_are_the_worlds()
    ensures { (x : Layer) (y : NumberTx) → Stands x y → Remembers x.objects y.first → AreSettled y.first → GoesOnNumbered y
        → growth (map class_of y.first.bones.classes) x ≡ pos (weight (kept_bones y.now.bones)) -ℤ pos (weight y.first.bones) }
{}

/// What the records of changed objects took is part of what the first world weighs.
pub fn changed_objects_weighed_less()
    ensures { (x : Layer) (y : NumberTx) → Stands x y → Remembers x.objects y.first → AreSettled y.first → GoesOnNumbered y → bytes_before (map class_of y.first.bones.classes) x ≤ weight y.first.bones }
{}
