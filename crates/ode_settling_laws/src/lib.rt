//! What a settling leaves of the records is the world that the machine leaves: laws of definitions, each carried by the contract of a
//! function that does nothing.
#![tactic(auto)]

ghost use Rattle.std.specs.Prelude.{◌≡◌};
ghost use Rattle.ode_codec.specs.Standing.{HoldsWorld};
ghost use Rattle.ode_codec.specs.StoredRows.{rows};
ghost use Rattle.ode_keep.specs.Entries.{Entries, value_under};
ghost use Rattle.ode_laws.specs.Alike.{NumberTx};
ghost use Rattle.ode_laws.specs.Numbered.{AreNumbered};
ghost use Rattle.ode_overlay.specs.After.{stands_after};
ghost use Rattle.ode_overlay.specs.Layers.{Layer};
ghost use Rattle.ode_overlay_laws.specs.Standing.{Stands};
ghost use Rattle.ode_settling_laws.specs.Formed.{IsFormed};
ghost use Rattle.ode_value.specs.GoodWorlds.{AreBones};
ghost use Rattle.ode_value.specs.Language.{Language, ListWorld};
ghost use Rattle.ode_value.specs.Settling.{settled_world};
ghost use Rattle.ode_value.specs.declared.key.Key.{Key};

/// Behind the batch of a settling stands under each key what the stored world has there that the machine's transaction leaves: the
/// counters with the next number, the next transaction's, the next entry's and the clock's position, the classes and tables as they were,
/// the objects that are live with their versions and the activations that are on, each with its state number, the queue without the entry
/// that ran, and behind it the collected firings, numbered from the counter.
pub fn settlings_leave_worlds()
    ensures { (l : Language) (base : Entries) (w : ListWorld) (x : Layer) (y : NumberTx) (held : HoldsWorld l base w) → y.first ≡ held.stored.world → Stands x y
        → AreNumbered y.now.bones → y.now.bones.classes ≡ y.first.bones.classes → AreBones l (settled_world y).bones
        → IsFormed held.stored.world.bones.classes base x
        → (q : Key) → stands_after x base q ≡ value_under (rows (record { world = settled_world y; tables = held.stored.tables })) q }
{}
