//! Which databases have records alone.
ghost use Rattle.std.specs.Prelude.{◌≡◌, ℕ, Bool, Ok};
ghost use Rattle.ode_codec.specs.declared.record.Counters.{Counters};
ghost use Rattle.ode_dump.specs.Dumping.{AreRecords};
ghost use Rattle.ode_keep.specs.Entries.{Entries};
ghost use Rattle.ode_passes.specs.Tally.{tally_in};

/// Where the tally of records is taken, as it is at each opening, every record decodes.
pub fn tallied_records_decode()
    ensures { (first : Bool) (entries : Entries) (tally : Counters × ℕ) → tally_in first entries ≡ Ok tally → AreRecords entries }
{}
