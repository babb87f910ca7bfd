//! The trait of keepers.
ghost use Rattle.std.specs.Prelude.{◌≡◌, ◌<◌, ◌≤◌, ℕ, List, Bool, IfOk, IsErrOf, IsTrue, OnOk, length, true};
ghost use Rattle.std.specs.List.{AllByRecursion};
ghost use Rattle.std.specs.Option.{IfSome};
ghost use Rattle.std.specs.Ordering.{is_le};
ghost use Rattle.ode_host.specs.Causes.{RoseIf};
ghost use Rattle.ode_host.specs.Host.{DiskCalls, LeavesOnly, Looks, Stands};
ghost use Rattle.ode_host.specs.View.{View};
ghost use Rattle.ode_keep.specs.ShortValues.{HasShortValues};
ghost use Rattle.ode_keep.specs.Entries.{Entries, HasRisingKeys, applied, entries_from, least_from, StartsOf};
ghost use Rattle.ode_value.specs.Keys.{entry_kind, key_cmp};
ghost use Rattle.ode_keep.specs.Entries.{count_of_kind, record_bytes, value_under};
ghost use Rattle.ode_keep.specs.Keeping.{LeavesOldOrNew, OnDamaged, OnRefusal, OnTooLarge};
ghost use Rattle.ode_keep.specs.Keeping.{UnlessFault, is_usable};

use crate::batch::Batch;
use crate::error::KeepError;
use crate::limits::MAX_CHANGES;
use crate::rows::Rows;
use ode_host::Host;
use ode_value::{Key, List};

/// Records that outlive a stop: a finite map of keys to values.
pub trait Keep<H: Host> {
    /// On a host of which this is known it holds exactly these records.
    ghost holds: { Self → View → Entries → Type 0 };

    /// An image stands for these records.
    ghost means: { List ℕ → Entries → Type 0 };

    /// Whether the disk never failed it.
    ghost live: { Self → Bool };

    /// How many bytes the keys and values of all records may have.
    ghost most: { Self → ℕ };

    /// Whether it may be used: not after `DiskFault`.
    fn live(&self) -> bool
        ensures { result ≡ live self.now };

    /// The value under a key.
    fn get(&mut self, host: &mut H, key: Key) -> Result<Option<List<u8>>, KeepError>
        requires live { IsTrue (live self.old) }
        ensures value { IfOk result (λ found. (entries : Entries) → holds self.old (H.view host.old) entries
            → found ≡ value_under entries key) }
        ensures holds { UnlessFault result ((entries : Entries) → holds self.old (H.view host.old) entries
            → holds self.new (H.view host.new) entries) }
        ensures looks { Looks (H.view host.old) (H.view host.new) }
        ensures usable { live self.new ≡ is_usable result }
        ensures cause { RoseIf (IsErrOf result KeepError.DiskFault) (H.view host.old).disk_faults (H.view host.new).disk_faults }
        ensures damaged { OnDamaged result ((entries : Entries) → holds self.old (H.view host.old) entries → ⊥) }
        ensures too_large { OnTooLarge result (λ _. ⊥) };

    /// The least key at or above a key.
    fn keys_from(&mut self, host: &mut H, key: Key) -> Result<Option<Key>, KeepError>
        requires live { IsTrue (live self.old) }
        ensures value { IfOk result (λ found. (entries : Entries) → holds self.old (H.view host.old) entries
            → found ≡ least_from entries key) }
        ensures above { IfOk result (λ found. IfSome found (λ q. is_le (key_cmp key q) ≡ true)) }
        ensures holds { UnlessFault result ((entries : Entries) → holds self.old (H.view host.old) entries
            → holds self.new (H.view host.new) entries) }
        ensures looks { Looks (H.view host.old) (H.view host.new) }
        ensures usable { live self.new ≡ is_usable result }
        ensures cause { RoseIf (IsErrOf result KeepError.DiskFault) (H.view host.old).disk_faults (H.view host.new).disk_faults }
        ensures damaged { OnDamaged result ((entries : Entries) → holds self.old (H.view host.old) entries → ⊥) }
        ensures too_large { OnTooLarge result (λ _. ⊥) };

    /// The first records at or above a key, one or more where there are any: as many as come without more work.
    fn rows_from(&mut self, host: &mut H, key: Key) -> Result<Rows, KeepError>
        requires live { IsTrue (live self.old) }
        ensures value { IfOk result (λ rows. (entries : Entries) → holds self.old (H.view host.old) entries
            → StartsOf rows (entries_from entries key)) }
        ensures above { IfOk result (λ rows. AllByRecursion (λ e. is_le (key_cmp key e.0) ≡ true) rows) }
        ensures holds { UnlessFault result ((entries : Entries) → holds self.old (H.view host.old) entries
            → holds self.new (H.view host.new) entries) }
        ensures looks { Looks (H.view host.old) (H.view host.new) }
        ensures usable { live self.new ≡ is_usable result }
        ensures cause { RoseIf (IsErrOf result KeepError.DiskFault) (H.view host.old).disk_faults (H.view host.new).disk_faults }
        ensures damaged { OnDamaged result ((entries : Entries) → holds self.old (H.view host.old) entries → ⊥) }
        ensures too_large { OnTooLarge result (λ _. ⊥) };

    /// How many records are entries of the queue.
    fn queued(&mut self, host: &mut H) -> Result<u64, KeepError>
        requires live { IsTrue (live self.old) }
        ensures value { IfOk result (λ count. (entries : Entries) → holds self.old (H.view host.old) entries
            → count ≡ count_of_kind entry_kind entries) }
        ensures holds { UnlessFault result ((entries : Entries) → holds self.old (H.view host.old) entries
            → holds self.new (H.view host.new) entries) }
        ensures looks { Looks (H.view host.old) (H.view host.new) }
        ensures usable { live self.new ≡ is_usable result }
        ensures cause { RoseIf (IsErrOf result KeepError.DiskFault) (H.view host.old).disk_faults (H.view host.new).disk_faults }
        ensures damaged { OnDamaged result ((entries : Entries) → holds self.old (H.view host.old) entries → ⊥) }
        ensures too_large { OnTooLarge result (λ _. ⊥) };

    /// Makes the changes of a batch. A stop on the way leaves the records before it or those after it.
    fn commit(&mut self, host: &mut H, batch: &Batch) -> Result<(), KeepError>
        requires live { IsTrue (live self.old) }
        requires few { length batch.now ≤ MAX_CHANGES }
        requires short { HasShortValues batch.now }
        ensures done { OnOk result ((entries : Entries) → holds self.old (H.view host.old) entries
            → holds self.new (H.view host.new) (applied batch.now entries)) }
        ensures fits { OnOk result ((entries : Entries) → holds self.old (H.view host.old) entries
            → record_bytes (applied batch.now entries) ≤ most self.old) }
        ensures too_large { OnTooLarge result (λ total. (entries : Entries) → holds self.old (H.view host.old) entries
            → (total ≡ record_bytes (applied batch.now entries)) × (most self.old < total)) }
        ensures refused { OnRefusal result ((entries : Entries) → holds self.old (H.view host.old) entries
            → holds self.new (H.view host.new) entries) }
        ensures looks { OnRefusal result (Looks (H.view host.old) (H.view host.new)) }
        ensures any_moment { (entries : Entries) → holds self.old (H.view host.old) entries
            → LeavesOnly (H.view host.old) (H.view host.new) (LeavesOldOrNew means entries batch.now (H.view host.old)) }
        ensures usable { live self.new ≡ is_usable result }
        ensures leaves { DiskCalls (IsErrOf result KeepError.DiskFault) (H.view host.old) (H.view host.new) }
        ensures damaged { OnDamaged result ((entries : Entries) → holds self.old (H.view host.old) entries → ⊥) };

    /// What it holds stands on the disk.
    ghost stands: { (keeper : Self) (host : H) (entries : Entries) → holds keeper (H.view host) entries
        → (file : List ℕ) × Stands file (H.view host) × means file entries };

    /// It holds it still after calls that leave the disk alone.
    ghost stays: { (keeper : Self) (old new : H) (entries : Entries) → holds keeper (H.view old) entries
        → ((file : List ℕ) → Stands file (H.view old) → Stands file (H.view new))
        → holds keeper (H.view new) entries };

    /// The records of an image stand in rising order of their keys.
    ghost rising: { (image : List ℕ) (entries : Entries) → means image entries → HasRisingKeys entries };

    /// An image stands for the records of one map alone.
    ghost one_map: { (image : List ℕ) (entries others : Entries) → means image entries → means image others
        → entries ≡ others };
}
