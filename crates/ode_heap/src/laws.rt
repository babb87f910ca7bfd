//! What a heap gives of a stored database: laws of the definitions, each carried by the contract of a function that does nothing.
ghost use Rattle.std.specs.Prelude.{◌≡◌, ℕ, List as Items, length, map, true};
ghost use Rattle.std.specs.List.{AllZip};
ghost use Rattle.std.specs.Option.{option_map};
ghost use Rattle.ode_codec.specs.StoredRows.{Stored, rows};
ghost use Rattle.ode_heap.specs.Activations.{activations_in, fit_params, own_activations};
ghost use Rattle.ode_heap.specs.Answering.{IsOfClass, IsReadable, activations_of, class_of, counters_of, fields_in, head_of_object, next_entry, next_object, object_of, stamped_of, version_of};
ghost use Rattle.ode_heap.specs.Answers.{There};
ghost use Rattle.ode_heap.specs.Looking.{counters_in, entry_from, fit_fields, object_from, stamped_in, version_in};
ghost use Rattle.ode_heap.specs.Objects.{object_in, own_records};
ghost use Rattle.ode_heap.specs.Queue.{queued_in};
ghost use Rattle.ode_keep.specs.Entries.{Entries};
ghost use Rattle.ode_value.specs.Fitting.{FitFields, FitsSort};
ghost use Rattle.ode_value.specs.Worlds.{Bones};
ghost use Rattle.ode_value.specs.declared.binding.Param.{Param};
ghost use Rattle.ode_value.specs.declared.class.Class.{Class};
ghost use Rattle.ode_value.specs.declared.class.Field.{Field};
ghost use Rattle.ode_value.specs.declared.value.Value.{Value};

use ode_codec::one_spelling;

/// The records of a stored database give what is stored in it: its counters, objects, versions, activations with their state
/// numbers, and entries.
pub fn stored_databases_answer()
    ensures counters { (s : Stored) → IsReadable s → counters_in (rows s) ≡ There (counters_of s.world.bones) }
    ensures object { (s : Stored) (id : ℕ) → IsReadable s → object_in (rows s) id ≡ There (option_map head_of_object (object_of s id)) }
    ensures stamped { (s : Stored) (id number : ℕ) (class : Class) → IsReadable s → IsOfClass s id number class
        → stamped_in (rows s) id number class ≡ There (option_map stamped_of (version_of s id number)) }
    ensures version { (s : Stored) (id number : ℕ) (class : Class) → IsReadable s → IsOfClass s id number class
        → version_in (rows s) id number class ≡ There (fields_in s id number) }
    ensures activations { (s : Stored) (id : ℕ) → IsReadable s
        → activations_in (rows s) id (map class_of s.world.bones.classes) ≡ There (activations_of s id) }
    ensures next_object { (s : Stored) (id : ℕ) → object_from (rows s) id ≡ next_object s id }
    ensures next_entry { (s : Stored) (number : ℕ) → IsReadable s → entry_from (rows s) number ≡ There (next_entry s number) }
    ensures queued { (s : Stored) → IsReadable s → queued_in (rows s) ≡ length s.world.bones.queue }
{
    one_spelling();
}

/// Values that fit the fields of a class or the parameters of a trigger have their sorts, one each.
pub fn values_that_fit_have_their_sorts()
    ensures fields { (b : Bones) (fields : Items Field) (values : Items Value) → FitFields b fields values → fit_fields fields values ≡ true }
    ensures args { (b : Bones) (params : Items Param) (args : Items Value) → AllZip (λ (p : Param). FitsSort b p.sort) params args
        → fit_params params args ≡ true }
{}

/// An object's class and versions are read from its own records and theirs, and its activations from theirs.
pub fn objects_are_read_from_their_own_records()
    ensures object { (entries : Entries) (id : ℕ) → object_in (own_records entries id) id ≡ object_in entries id }
    ensures activations { (entries : Entries) (id : ℕ) (classes : Items Class)
        → activations_in (own_activations entries id) id classes ≡ activations_in entries id classes }
{}
