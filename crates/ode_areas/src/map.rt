//! The records of a keeper, in memory.
ghost use Rattle.std.specs.Prelude.{◌≡◌, ◌+◌, ◌<◌, ◌==◌, ◌^◌, [], Some, None, cond, length, IfOk, OnErr, OnOk};
ghost use Rattle.std.specs.Option.{option_copied};
ghost use Rattle.ode_keep.specs.Entries.{Entries, HasRisingKeys, StartsOf, changed, count_of_kind, entries_from, least_from, record_bytes, value_under};
ghost use Rattle.ode_keep.specs.Growth.{one_of_kind};
ghost use Rattle.ode_keep.specs.Snapshots.{FitsSnapshot};
ghost use Rattle.ode_value.specs.Keys.{entry_kind};

use ode_keep::{KEY_LEN, Rows};
use ode_records::Records;
use ode_value::{Key, List};
use std::alloc::{AllocError, Global};
use std::marker::Model;

/// Records that fit a snapshot, how many bytes they count, and how many are entries of the queue.
#[derive(Drop)]
pub(crate) struct Map {
    pub(crate) records: Records,
    pub(crate) bytes: u64,
    pub(crate) queued: u64,
}

impl Model for Map {
    ghost Value = { Entries };

    ghost view = { λ map. map.records };

    ghost invariant = { λ map. (map.bytes ≡ record_bytes map.records)
        × (map.queued ≡ count_of_kind entry_kind map.records) × FitsSnapshot map.records };
}

// How many entries of the queue a record is, if there is one.
pub(crate) fn one_queued(key: Key, value: Option<&List<u8>>) -> u64
    ensures { result ≡ one_of_kind entry_kind key (option_copied value.entry) }
{
    match value {
        None => 0,
        Some(_) => { if key.kind == Key::ENTRY { 1 } else { 0 } }
    }
}

// How many entries there are more once a value stands under a key, by what stood there.
fn one_added(key: Key, old: Option<&List<u8>>) -> u64
    ensures { result + one_of_kind entry_kind key (option_copied old.entry) ≡ cond (key.kind == entry_kind) 1 0 }
{
    match old {
        Some(_) => 0,
        None => { if key.kind == Key::ENTRY { 1 } else { 0 } }
    }
}

impl Map {
    /// No records.
    pub(crate) fn new(alloc: Global) -> Map
        ensures { result ≡ [] }
    {
        Map {
            records: Records::new(alloc),
            bytes: 0,
            queued: 0,
        }
    }

    /// This value stands under the key from now on. The map stays as it was where there is no memory.
    pub(crate) fn put(&mut self, key: Key, value: List<u8>) -> Result<(), AllocError>
        requires { length value < 2 ^ 16 }
        ensures ok { OnOk result (self.new ≡ changed self.old key (Some value)) }
        ensures err { OnErr result (self.new ≡ self.old) }
    {
        let length = value.len() as u64;
        let Some(bytes) = self.bytes.checked_add(KEY_LEN as u64 + length) else {
            return Err(AllocError);
        };
        let old = self.records.insert(key, value)?;
        let added = one_added(key, old.as_ref());
        self.queued += added;
        self.bytes = match old {
            Some(old) => bytes - (KEY_LEN as u64 + old.len() as u64),
            None => bytes,
        };
        Ok(())
    }

    /// No record stands under the key from now on.
    pub(crate) fn remove(&mut self, key: Key)
        ensures { self.new ≡ changed self.old key None }
    {
        if let Some(old) = self.records.remove(key) {
            self.bytes -= KEY_LEN as u64 + old.len() as u64;
            let taken = one_queued(key, Some(&old));
            self.queued -= taken;
        }
    }

    /// The value under a key.
    pub(crate) fn get(&self, key: Key) -> Option<&List<u8>>
        ensures { option_copied result ≡ value_under self.now key }
    {
        self.records.get(key)
    }

    /// The least key at or above a key.
    pub(crate) fn least_from(&self, key: Key) -> Option<Key>
        ensures { result ≡ least_from self.now key }
    {
        let (least, _) = self.records.rows_from(key).first()?;
        Some(*least)
    }

    /// A copy of the first records at or above a key, one or more where there are any.
    pub(crate) fn rows_from(&self, alloc: Global, key: Key) -> Result<Rows, AllocError>
        ensures { IfOk result (λ rows. StartsOf rows (entries_from self.now key)) }
    {
        Rows::copy(alloc, self.records.rows_from(key))
    }

    /// How many bytes the keys and values count.
    pub(crate) fn bytes(&self) -> u64
        ensures bytes { result ≡ record_bytes self.now }
        ensures rising { HasRisingKeys self.now }
    {
        self.bytes
    }

    /// How many records are entries of the queue.
    pub(crate) fn queued(&self) -> u64
        ensures count { result ≡ count_of_kind entry_kind self.now }
        ensures rising { HasRisingKeys self.now }
    {
        self.queued
    }
}
