//! Records by their keys, kind by kind.
ghost use Rattle.std.specs.Prelude.{◌≡◌, ◌<◌, ◌≤◌, ◌++◌, [], IfOk, None, OnErr, OnOk, length};
ghost use Rattle.std.specs.BTreeMap.{insert_entry};
ghost use Rattle.std.specs.List.{AllByRecursion};
ghost use Rattle.std.specs.Option.{option_copied};
ghost use Rattle.ode_value.specs.Keys.{key_cmp};
ghost use Rattle.ode_value.specs.Records.{snapshot};
ghost use Rattle.ode_keep.specs.Entries.{HasRisingKeys, StartsOf, changed, entries_from, value_under};
ghost use Rattle.ode_keep.specs.Snapshots.{FitsRow};
ghost use Rattle.ode_records.specs.Kinds.{AreKinds, all_of};

use ode_chunks::{Chunks, Row};
use ode_value::{Key, List};
use std::alloc::{AllocError, Global};
use std::marker::Model;

/// Records by their keys: chunks of each kind. Contracts see them in rising order of their keys.
#[derive(Drop)]
pub struct Records {
    // The records of kind 0, then those of kind 1, and so on, up to the highest kind that there ever was.
    kinds: Vec<Chunks>,
    count: usize,
    alloc: Global,
}

impl Model for Records {
    ghost use Rattle.std.specs.Prelude.{◌≡◌, length};
    ghost use Rattle.ode_keep.specs.Entries.{Entries};
    ghost use Rattle.ode_records.specs.Kinds.{AreKinds, all_of};

    ghost Value = { Entries };

    ghost view = { λ records. all_of records.kinds.items };

    ghost invariant = { λ records. AreKinds 0 records.kinds.items × (records.count ≡ length (all_of records.kinds.items)) };
}

// Makes room for records of a kind, if there is memory. The records stay as they were.
fn make_room(alloc: Global, kinds: &mut Vec<Chunks>, kind: usize) -> Result<(), AllocError>
    requires { AreKinds 0 kinds.old.items }
    ensures room { OnOk result (kind < length kinds.new.items) }
    ensures needed { OnErr result (length kinds.old.items ≤ kind) }
    ensures same { all_of kinds.new.items ≡ all_of kinds.old.items }
    ensures kinds { AreKinds 0 kinds.new.items }
{
    'kinds: while kinds.len() <= kind {
        kinds.push(Chunks::new(alloc))?;
    }
    Ok(())
}

// Puts a value among the records of its kind, for which there is room.
fn put(kinds: &mut Vec<Chunks>, key: Key, value: List<u8>) -> Result<Option<List<u8>>, AllocError>
    requires kinds { AreKinds 0 kinds.old.items }
    requires room { key.kind < length kinds.old.items }
    ensures put { OnOk result (all_of kinds.new.items ≡ insert_entry key_cmp (all_of kinds.old.items) key value) }
    ensures old { IfOk result (λ old. old ≡ value_under (all_of kinds.old.items) key) }
    ensures same { OnErr result (all_of kinds.new.items ≡ all_of kinds.old.items) }
    ensures absent { OnErr result (value_under (all_of kinds.old.items) key ≡ None) }
    ensures kinds { AreKinds 0 kinds.new.items }
{
    kinds[key.kind as usize].insert(key, value)
}

// Takes the record under a key out of those of its kind.
fn take(kinds: &mut Vec<Chunks>, key: Key) -> Option<List<u8>>
    requires { AreKinds 0 kinds.old.items }
    ensures rest { all_of kinds.new.items ≡ changed (all_of kinds.old.items) key None }
    ensures old { result ≡ value_under (all_of kinds.old.items) key }
    ensures kinds { AreKinds 0 kinds.new.items }
{
    let kind = key.kind as usize;
    if kinds.len() <= kind {
        return None;
    }
    kinds[kind].remove(key)
}

// The first records at or above a key: those of the first kind that has some.
fn first_from(kinds: &[Chunks], key: Key) -> &[Row]
    requires { AreKinds 0 kinds.now }
    ensures { StartsOf result.now (entries_from (all_of kinds.now) key) }
{
    let mut kind = key.kind as usize;
    'kinds: while kind < kinds.len() {
        let rows = kinds[kind].rows_from(key);
        if !rows.is_empty() {
            return rows;
        }
        kind += 1;
    }
    &[]
}

// Puts records behind these bytes as a snapshot has them.
fn put_kinds(kinds: &[Chunks], bytes: &mut Vec<u8>) -> Result<(), AllocError>
    ensures { OnOk result (AllByRecursion FitsRow (all_of kinds.now) → bytes.new.items ≡ bytes.old.items ++ snapshot (all_of kinds.now)) }
{
    for chunks in kinds {
        chunks.put_rows(bytes)?;
    }
    Ok(())
}

impl Records {
    /// No records.
    pub fn new(alloc: Global) -> Records
        ensures { result ≡ [] }
    {
        Records {
            kinds: Vec::new(alloc),
            count: 0,
            alloc,
        }
    }

    /// How many there are.
    pub fn len(&self) -> usize
        ensures count { result ≡ length self.now }
        ensures rising { HasRisingKeys self.now }
    {
        self.count
    }

    /// The value under a key.
    pub fn get(&self, key: Key) -> Option<&List<u8>>
        ensures { option_copied result ≡ value_under self.now key }
    {
        // The keys rise, as this call tells.
        let _ = self.len();
        let (found, value) = self.rows_from(key).first()?;
        if *found == key { Some(value) } else { None }
    }

    /// The first records at or above a key, one or more where there are any.
    pub fn rows_from(&self, key: Key) -> &[Row]
        ensures { StartsOf result.now (entries_from self.now key) }
    {
        first_from(&self.kinds, key)
    }

    /// This value stands under the key from now on; what stood there comes back. It takes no memory where something
    /// did. The records stay as they were where there is no memory.
    pub fn insert(&mut self, key: Key, value: List<u8>) -> Result<Option<List<u8>>, AllocError>
        ensures put { OnOk result (self.new ≡ insert_entry key_cmp self.old key value) }
        ensures old { IfOk result (λ old. old ≡ value_under self.old key) }
        ensures same { OnErr result (self.new ≡ self.old) }
        ensures absent { OnErr result (value_under self.old key ≡ None) }
    {
        if self.count == usize::MAX && self.get(key).is_none() {
            return Err(AllocError);
        }
        make_room(self.alloc, &mut self.kinds, key.kind as usize)?;
        let old = put(&mut self.kinds, key, value)?;
        if old.is_none() {
            self.count += 1;
        }
        Ok(old)
    }

    /// No record stands under the key from now on; what stood there comes back. It takes no memory.
    pub fn remove(&mut self, key: Key) -> Option<List<u8>>
        ensures rest { self.new ≡ changed self.old key None }
        ensures old { result ≡ value_under self.old key }
    {
        let old = take(&mut self.kinds, key);
        if old.is_some() {
            self.count -= 1;
        }
        old
    }

    /// Puts the records behind these bytes as a snapshot has them.
    pub fn put_rows(&self, bytes: &mut Vec<u8>) -> Result<(), AllocError>
        ensures { OnOk result (AllByRecursion FitsRow self.now → bytes.new.items ≡ bytes.old.items ++ snapshot self.now) }
    {
        put_kinds(&self.kinds, bytes)
    }
}
