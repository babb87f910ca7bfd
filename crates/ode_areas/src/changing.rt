//! A batch is made in the records in memory, or not at all.
ghost use Rattle.std.specs.Prelude.{◌≡◌, ◌+◌, ◌≤◌, ◌<◌, ◌^◌, ◌-◌, ◌++◌, [], ◌∷◌, length, min, reverse, None, IsSome, OnErr, OnOk};
ghost use Rattle.std.specs.BTreeMap.{insert_entry};
ghost use Rattle.std.specs.List.{AllByRecursion};
ghost use Rattle.std.specs.Option.{IfSome, option_copied};
ghost use Rattle.ode_keep.specs.ShortValues.{HasShortValues};
ghost use Rattle.ode_keep.specs.Entries.{Entries, HasRisingKeys, applied, changed, count_of_kind, record_bytes, value_under};
ghost use Rattle.ode_value.specs.Keys.{entry_kind, key_cmp};
ghost use Rattle.ode_keep.specs.Growth.{bytes_of};
ghost use Rattle.ode_keep.specs.Payloads.{FitsChange};
ghost use Rattle.ode_areas.specs.Puts.{LeadBack, NeedNoRoom, puts, removals};

use crate::map::{Map, one_queued};
use ode_keep::{Batch, KEY_LEN, MAX_CHANGES, MAX_GROWTH};
use ode_records::Records;
use ode_value::{Key, List};
use std::alloc::{AllocError, Global};

// What stood under a key before a value was put there.
type Note = (Key, Option<List<u8>>);

// The bytes that a record counts, if there is one.
fn counted(value: Option<&List<u8>>) -> u64
    requires { bytes_of (option_copied value) < 2 ^ 64 }
    ensures { result ≡ bytes_of (option_copied value.entry) }
{
    match value {
        None => 0,
        Some(value) => KEY_LEN as u64 + value.len() as u64,
    }
}

// Takes the record under a key out. It takes no memory.
fn take_out(records: &mut Records, key: Key)
    ensures { records.new ≡ changed records.old key None }
{
    let _ = records.remove(key);
}

// What stood under a key stands there again. It takes no memory, since a value is put back only over another.
fn put_back(records: &mut Records, key: Key, old: Option<List<u8>>)
    requires { IfSome old (λ v. IsSome (value_under records.old key)) }
    ensures { records.new ≡ changed records.old key old }
{
    match old {
        None => take_out(records, key),
        Some(value) => match records.insert(key, value) {
            Ok(_) => {}
            Err(_) => unreachable!(),
        },
    }
}

// Puts a value, and notes what stood there. Where there is no memory nothing changed.
fn put_noted(
    records: &mut Records,
    notes: &mut Vec<Note>,
    key: Key,
    value: List<u8>,
) -> Result<(), AllocError>
    ensures put { OnOk result (records.new ≡ insert_entry key_cmp records.old key value) }
    ensures noted { OnOk result (notes.new.items ≡ notes.old.items ++ (key, value_under records.old key) ∷ []) }
    ensures same { OnErr result (records.new ≡ records.old) }
    ensures no_note { OnErr result (notes.new.items ≡ notes.old.items) }
    ensures rising { HasRisingKeys records.old }
{
    // The keys rise, as this call tells.
    let _ = records.len();
    let old = records.insert(key, value)?;
    if let Err(failed) = notes.push((key, old)) {
        let (key, old) = failed.value;
        put_back(records, key, old);
        return Err(AllocError);
    }
    Ok(())
}

// Puts the values of a batch, and notes what stood there.
fn put_all(
    alloc: Global,
    records: &mut Records,
    notes: &mut Vec<Note>,
    batch: &Batch,
) -> Result<(), AllocError>
    ensures put { OnOk result (records.new ≡ applied (puts batch.now) records.old) }
    ensures back { (old : Entries) → LeadBack (reverse notes.old.items) records.old old
        → LeadBack (reverse notes.new.items) records.new old }
{
    for change in batch.iter() {
        if let Some(value) = &change.value {
            let copy = List::from_slice(alloc, value.as_slice())?;
            put_noted(records, notes, change.key, copy)?;
        }
    }
    Ok(())
}

// Goes back through the notes, the last first.
fn undo_all(records: &mut Records, notes: &mut Vec<Note>)
    requires { NeedNoRoom (reverse notes.old.items) records.old }
    ensures { records.new ≡ applied (reverse notes.old.items) records.old }
{
    while let Some((key, old)) = notes.pop() {
        put_back(records, key, old);
    }
}

// Takes out the records that a batch removes.
fn remove_all(records: &mut Records, batch: &Batch)
    ensures removed { records.new ≡ applied (removals batch.now) records.old }
    ensures rising { HasRisingKeys batch.now }
{
    for change in batch.iter() {
        if change.value.is_none() {
            take_out(records, change.key);
        }
    }
}

impl Map {
    /// How many bytes the records count after a batch, or the greatest number where that is less.
    pub(crate) fn bytes_after(&self, batch: &Batch) -> u64
        requires few { length batch.now ≤ MAX_CHANGES }
        requires short { HasShortValues batch.now }
        ensures exact { result ≡ min (record_bytes (applied batch.now self.now)) (2 ^ 64 - 1) }
        ensures grows { record_bytes (applied batch.now self.now) ≤ record_bytes self.now + MAX_GROWTH }
    {
        let bytes = self.bytes();
        let mut put = 0;
        let mut taken = 0;
        for change in batch.iter() {
            put += counted(change.value.as_ref());
            taken += counted(self.get(change.key));
        }
        (bytes - taken).saturating_add(put)
    }

    /// How many records are entries of the queue after a batch.
    fn queued_after(&self, batch: &Batch) -> u64
        requires { record_bytes (applied batch.now self.now) < 2 ^ 64 }
        ensures { result ≡ count_of_kind entry_kind (applied batch.now self.now) }
    {
        let queued = self.queued();
        let mut put = 0;
        let mut taken = 0;
        for change in batch.iter() {
            put += one_queued(change.key, change.value.as_ref());
            taken += one_queued(change.key, self.get(change.key));
        }
        (queued - taken).saturating_add(put)
    }

    /// Makes the changes of a batch. Where there is no memory the map stays as it was. The total is how many bytes the
    /// records count then.
    pub(crate) fn apply(
        &mut self,
        alloc: Global,
        batch: &Batch,
        total: u64,
    ) -> Result<(), AllocError>
        requires total { total ≡ record_bytes (applied batch.now self.old) }
        requires fits { AllByRecursion FitsChange batch.now }
        ensures ok { OnOk result (self.new ≡ applied batch.now self.old) }
        ensures err { OnErr result (self.new ≡ self.old) }
    {
        let queued = self.queued_after(batch);
        let mut notes = Vec::new(alloc);
        if let Err(error) = put_all(alloc, &mut self.records, &mut notes, batch) {
            undo_all(&mut self.records, &mut notes);
            return Err(error);
        }
        remove_all(&mut self.records, batch);
        self.bytes = total;
        self.queued = queued;
        Ok(())
    }
}
