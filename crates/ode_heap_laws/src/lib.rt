//! A heap shows the world that its records hold: laws of definitions, each carried by the contract of a function that does nothing.
#![tactic(auto)]

ghost use Rattle.std.specs.Prelude.{◌≡◌, ℕ, List as Items, Some, length, map, nat_le};
ghost use Rattle.std.specs.List.{find};
ghost use Rattle.std.specs.Option.{option_map};
ghost use Rattle.ode_heap.specs.Activations.{activations_in};
ghost use Rattle.ode_heap.specs.Answering.{IsReadable, activations_of, class_of, counters_of, entry_of, head_of_object, stamped_of};
ghost use Rattle.ode_heap.specs.Answers.{There};
ghost use Rattle.ode_heap.specs.Looking.{counters_in, entry_from, object_from, stamped_in, version_in};
ghost use Rattle.ode_heap.specs.Objects.{object_in};
ghost use Rattle.ode_heap.specs.Queue.{queued_in};
ghost use Rattle.ode_heap_laws.specs.Few.{HoldsCounted};
ghost use Rattle.ode_value.specs.Denoting.{object_numbered};
ghost use Rattle.ode_value.specs.Language.{Language, ListWorld};
ghost use Rattle.ode_value.specs.Records.{Row};
ghost use Rattle.ode_value.specs.Versions.{Version, version_numbered};
ghost use Rattle.ode_value.specs.Worlds.{Entry, Object, class_numbered};
ghost use Rattle.ode_value.specs.declared.class.Class.{Class};

use ode_heap::{stored_databases_answer, values_that_fit_have_their_sorts};

/// The database in which records hold a world can be read, where its classes have no more fields and their triggers no more parameters
/// than a record counts.
pub fn held_worlds_can_be_read()
    ensures { (l : Language) (records : Items Row) (w : ListWorld) (held : HoldsCounted l records w) → IsReadable held.world.stored }
{
    values_that_fit_have_their_sorts();
}

/// From the records that hold such a world a heap's functions give what the world has: its counters, its objects with their versions,
/// the fields of each version with its stamp, the activations with the state numbers that stand for their views, and the entries.
pub fn heaps_show_held_worlds()
    ensures counters { (l : Language) (records : Items Row) (w : ListWorld) → HoldsCounted l records w
        → counters_in records ≡ There (counters_of w.bones) }
    ensures object { (l : Language) (records : Items Row) (w : ListWorld) (id : ℕ) → HoldsCounted l records w
        → object_in records id ≡ There (option_map head_of_object (object_numbered id w.bones.objects)) }
    ensures stamped { (l : Language) (records : Items Row) (w : ListWorld) (id number : ℕ) (o : Object) (class : Class) → HoldsCounted l records w
        → object_numbered id w.bones.objects ≡ Some o → class_numbered o.class w.bones.classes ≡ Some class
        → stamped_in records id number class ≡ There (option_map stamped_of (version_numbered number o.versions)) }
    ensures version { (l : Language) (records : Items Row) (w : ListWorld) (id number : ℕ) (o : Object) (class : Class) → HoldsCounted l records w
        → object_numbered id w.bones.objects ≡ Some o → class_numbered o.class w.bones.classes ≡ Some class
        → version_in records id number class ≡ There (option_map (λ (v : Version). v.fields) (version_numbered number o.versions)) }
    ensures activations { (l : Language) (records : Items Row) (w : ListWorld) (id : ℕ) (held : HoldsCounted l records w)
        → activations_in records id (map class_of w.bones.classes) ≡ There (activations_of held.world.stored id) }
    ensures next_object { (l : Language) (records : Items Row) (w : ListWorld) (id : ℕ) → HoldsCounted l records w
        → object_from records id ≡ option_map (λ (o : Object). o.id) (find (λ (o : Object). nat_le id o.id) w.bones.objects) }
    ensures next_entry { (l : Language) (records : Items Row) (w : ListWorld) (number : ℕ) → HoldsCounted l records w
        → entry_from records number
        ≡ There (option_map (λ (q : ℕ × Entry). (q.0, entry_of q.1)) (find (λ (q : ℕ × Entry). nat_le number q.0) w.bones.queue)) }
    ensures queued { (l : Language) (records : Items Row) (w : ListWorld) → HoldsCounted l records w
        → queued_in records ≡ length w.bones.queue }
{
    held_worlds_can_be_read();
    stored_databases_answer();
    values_that_fit_have_their_sorts();
}
