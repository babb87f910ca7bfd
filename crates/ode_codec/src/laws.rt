//! What holds of all records.
ghost use Rattle.std.specs.Prelude.{◌≡◌, ◌<◌, ◌^◌, ℕ, List, Some, slice_index};
ghost use Rattle.ode_value.specs.declared.key.Key.{Key};
ghost use Rattle.ode_codec.specs.declared.record.Record.{Record};
ghost use Rattle.ode_codec.specs.Reading.{record_under};
ghost use Rattle.ode_codec.specs.Rules.{IsRecord};
ghost use Rattle.ode_codec.specs.Spelling.{key_of, spelled, value_of};

/// Each record has one spelling, and no two have the same; what is read under a key from some bytes is a record with that
/// spelling.
pub fn one_spelling()
    ensures again { (r : Record) → IsRecord r → record_under (key_of r) (value_of r) ≡ Some r }
    ensures one { (r s : Record) → IsRecord r → IsRecord s → spelled r ≡ spelled s → r ≡ s }
    ensures only { (k : Key) (bytes : List ℕ) (r : Record) → k.a < 2 ^ 64 → k.b < 2 ^ 64
        → ((i : ℕ) → slice_index bytes i < 2 ^ 8) → record_under k bytes ≡ Some r → IsRecord r × ((k, bytes) ≡ spelled r) }
{}
