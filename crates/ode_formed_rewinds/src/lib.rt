//! What an abort takes back leaves the keys of all records that differ held: a law of definitions, carried by the contract of a function that
//! does nothing.
#![tactic(auto)]

ghost use Rattle.std.specs.Prelude.{◌≡◌, List as Items};
ghost use Rattle.ode_codec.specs.Standing.{HoldsWorld};
ghost use Rattle.ode_keep.specs.Entries.{Entries};
ghost use Rattle.ode_overlay.specs.Layers.{Layer};
ghost use Rattle.ode_overlay.specs.Rewinding.{rewind};
ghost use Rattle.ode_settling_laws.specs.Formed.{IsFormed};
ghost use Rattle.ode_value.specs.Language.{Language, ListWorld};
ghost use Rattle.ode_value.specs.Making.{stamp_now};
ghost use Rattle.ode_value.specs.declared.class.Class.{Class};
ghost use Rattle.ode_version_laws.specs.Remembering.{Remembers};

/// Over records that hold the world that a transaction began with, an overlay that remembers what its objects were, and the newest stamp,
/// holds the keys of all records that differ behind `rewind` too, where it held them before.
pub fn rewinds_stay_formed()
    ensures { (l : Language) (records : Entries) (w : ListWorld) (classes : Items Class) (x : Layer) (held : HoldsWorld l records w) → Remembers x.objects held.stored.world
        → x.first.added ≡ stamp_now held.stored.world.bones → IsFormed held.stored.world.bones.classes records x → IsFormed held.stored.world.bones.classes records (rewind classes x) }
{}
