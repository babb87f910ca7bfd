//! Over records that hold a world an overlay reads what the world has: laws of definitions, each carried by the contract of a function that
//! does nothing.
#![tactic(auto)]

ghost use Rattle.std.specs.Prelude.{◌≡◌, ℕ, map};
ghost use Rattle.ode_heap.specs.Answering.{class_of};
ghost use Rattle.ode_heap_laws.specs.Few.{HoldsCounted};
ghost use Rattle.ode_held_laws.specs.Fresh.{ReadsFresh};
ghost use Rattle.ode_keep.specs.Entries.{Entries};
ghost use Rattle.ode_laws.specs.Alike.{NumberTx};
ghost use Rattle.ode_overlay.specs.Changing.{fresh};
ghost use Rattle.ode_overlay.specs.Layers.{Layer};
ghost use Rattle.ode_overlay_laws.specs.Standing.{Stands};
ghost use Rattle.ode_value.specs.Language.{Language, ListWorld};

use ode_heap_laws::{heaps_show_held_worlds, held_worlds_can_be_read};

/// From records that hold the world in which a transaction began an overlay reads of an object that isn't tracked what the world now has
/// of it, or that it isn't there. Nothing is damaged.
pub fn objects_are_read_fresh()
    ensures { (l : Language) (records : Entries) (w : ListWorld) (x : Layer) (y : NumberTx) (id : ℕ) (held : HoldsCounted l records w) → Stands x y → y.first ≡ held.world.stored.world
        → ReadsFresh x y id (fresh (map class_of w.bones.classes) records id x) }
{
    held_worlds_can_be_read();
    heaps_show_held_worlds();
}
