//! Records in chunks.
ghost use Rattle.std.specs.Prelude.{◌≡◌, ◌++◌, [], IfErr, IfOk, None, OnErr, OnOk};
ghost use Rattle.std.specs.BTreeMap.{insert_entry, is_at, keys};
ghost use Rattle.std.specs.List.{AllByRecursion};
ghost use Rattle.std.specs.Map.{remove_entry};
ghost use Rattle.std.specs.Option.{IfNone, IfSome};
ghost use Rattle.ode_value.specs.Keys.{key_cmp};
ghost use Rattle.ode_value.specs.Records.{snapshot};
ghost use Rattle.ode_keep.specs.Entries.{HasRisingKeys, StartsOf, changed, entries_from, value_under};
ghost use Rattle.ode_keep.specs.Snapshots.{FitsRow};
ghost use Rattle.ode_chunks.specs.Chunked.{AreChunks, IsFirstFrom};
ghost use Rattle.ode_chunks.specs.Cuts.{AreBelow};

use crate::rows::{Row, begin_by, put, put_rows, rows_at_or_above, take, take_first};
use ode_value::{Key, List};
use std::alloc::{AllocError, Global};
use std::collections::BTreeMap;
use std::marker::Model;
use std::mem::replace;

// How many records a chunk has at most. It has room for one more, after which it is halved.
const CHUNK: usize = 128;

/// Records in rising order of their keys.
#[derive(Drop)]
pub struct Chunks {
    // Chunks, each under a key at or above all of its own and below those of the chunks behind it.
    tree: BTreeMap<Key, Vec<Row>>,
    // The records above all keys of the tree.
    last: Vec<Row>,
    alloc: Global,
}

impl Model for Chunks {
    ghost use Rattle.ode_keep.specs.Entries.{Entries};
    ghost use Rattle.ode_chunks.specs.Chunked.{AreChunks, rows_of};

    ghost Value = { Entries };

    ghost view = { λ chunks. rows_of chunks.tree.entries chunks.last.items };

    ghost invariant = { λ chunks. AreChunks chunks.tree.entries chunks.last.items };
}

// The least key of the tree at or above this one.
fn bound_from(tree: &BTreeMap<Key, Vec<Row>>, key: Key) -> Option<Key>
    ensures found { IfSome result (IsFirstFrom tree.now.entries key) }
    ensures none { IfNone result (AreBelow key (keys tree.now)) }
{
    let (bound, _) = tree.range(key..).next()?;
    Some(*bound)
}

// The key of the chunk where this key belongs, and none where that is among the last records.
fn bound_of(tree: &BTreeMap<Key, Vec<Row>>, last: &[Row], key: Key) -> Option<Key>
    requires { AreChunks tree.now.entries last.now }
    ensures found { IfSome result (IsFirstFrom tree.now.entries key) }
    ensures none { IfNone result (AreBelow key (keys tree.now)) }
{
    if begin_by(last, key) {
        return None;
    }
    bound_from(tree, key)
}

// Takes the chunk under this key out of the tree.
fn remove_chunk(tree: &mut BTreeMap<Key, Vec<Row>>, bound: Key)
    ensures { tree.new.entries ≡ remove_entry (is_at (key_cmp bound)) tree.old.entries }
{
    let _ = tree.remove(&bound);
}

// Whether a chunk has got too long by a record that came, where nothing stood under its key.
fn is_outgrown(rows: &[Row], old: &Option<List<u8>>) -> bool {
    old.is_none() && rows.len() > CHUNK
}

// Puts a chunk under a key, and hands it back where there is no memory.
fn insert_chunk(
    tree: &mut BTreeMap<Key, Vec<Row>>,
    bound: Key,
    rows: Vec<Row>,
) -> Result<(), Vec<Row>>
    ensures ok { OnOk result (tree.new.entries ≡ insert_entry key_cmp tree.old.entries bound rows) }
    ensures same { OnErr result (tree.new.entries ≡ tree.old.entries) }
    ensures returned { IfErr result (λ back. back ≡ rows) }
{
    match tree.insert(bound, rows) {
        Ok(_) => Ok(()),
        Err(failed) => {
            let (_, rows) = failed.value;
            Err(rows)
        }
    }
}

impl Chunks {
    /// No records.
    pub fn new(alloc: Global) -> Chunks
        ensures { result ≡ [] }
    {
        Chunks {
            tree: BTreeMap::new(alloc),
            last: Vec::new(alloc),
            alloc,
        }
    }

    /// The first records at or above a key, one or more where there are any.
    pub fn rows_from(&self, key: Key) -> &[Row]
        ensures first { StartsOf result.now (entries_from self.now key) }
        ensures rising { HasRisingKeys self.now }
    {
        let last = self.last.as_slice();
        if begin_by(last, key) {
            return rows_at_or_above(last, key);
        }
        for (_, rows) in self.tree.range(key..) {
            let found = rows_at_or_above(rows, key);
            if !found.is_empty() {
                return found;
            }
        }
        rows_at_or_above(last, key)
    }

    /// This value stands under the key from now on; what stood there comes back. It takes no memory where something
    /// did. It stays as it was where there is no memory.
    pub fn insert(&mut self, key: Key, value: List<u8>) -> Result<Option<List<u8>>, AllocError>
        ensures put { OnOk result (self.new ≡ insert_entry key_cmp self.old key value) }
        ensures old { IfOk result (λ old. old ≡ value_under self.old key) }
        ensures same { OnErr result (self.new ≡ self.old) }
        ensures absent { OnErr result (value_under self.old key ≡ None) }
    {
        let Some(bound) = bound_of(&self.tree, &self.last, key) else {
            let old = put(&mut self.last, key, value)?;
            if old.is_none() {
                let _ = self.close_last();
            }
            return Ok(old);
        };
        let Some(rows) = self.tree.get_mut(&bound) else {
            return Err(AllocError);
        };
        let old = put(rows, key, value)?;
        if is_outgrown(rows, &old) {
            let _ = self.split(key);
        }
        Ok(old)
    }

    /// No record stands under the key from now on; what stood there comes back. It takes no memory.
    pub fn remove(&mut self, key: Key) -> Option<List<u8>>
        ensures rest { self.new ≡ changed self.old key None }
        ensures old { result ≡ value_under self.old key }
    {
        let Some(bound) = bound_of(&self.tree, &self.last, key) else {
            return take(&mut self.last, key);
        };
        let rows = self.tree.get_mut(&bound)?;
        let old = take(rows, key);
        if rows.is_empty() {
            remove_chunk(&mut self.tree, bound);
        }
        old
    }

    /// Puts the records behind these bytes as a snapshot has them.
    pub fn put_rows(&self, bytes: &mut Vec<u8>) -> Result<(), AllocError>
        ensures { OnOk result (AllByRecursion FitsRow self.now → bytes.new.items ≡ bytes.old.items ++ snapshot self.now) }
    {
        for (_, rows) in self.tree.iter() {
            put_rows(bytes, rows)?;
        }
        put_rows(bytes, &self.last)?;
        Ok(())
    }

    // Puts the last chunk into the tree where it is full, if there is memory.
    fn close_last(&mut self) -> Result<(), AllocError>
        ensures { self.new ≡ self.old }
    {
        if self.last.len() < CHUNK {
            return Ok(());
        }
        let Some((bound, _)) = self.last.last() else {
            return Ok(());
        };
        let bound = *bound;
        let fresh = Vec::with_capacity(self.alloc, CHUNK + 1)?;
        let rows = replace(&mut self.last, fresh);
        if let Err(failed) = insert_chunk(&mut self.tree, bound, rows) {
            self.last = failed;
        }
        Ok(())
    }

    // Halves the chunk where this key belongs, if there is memory.
    fn split(&mut self, key: Key) -> Result<(), AllocError>
        ensures { self.new ≡ self.old }
    {
        let Some(bound) = bound_from(&self.tree, key) else {
            return Ok(());
        };
        let Some(rows) = self.tree.get(&bound) else {
            return Ok(());
        };
        if rows.len() <= CHUNK / 2 {
            return Ok(());
        }
        let middle = rows[CHUNK / 2 - 1].0;
        let rest = Vec::with_capacity(self.alloc, rows.len())?;
        self.tree.insert(middle, Vec::new(self.alloc))?;
        let Some(rows) = self.tree.get_mut(&bound) else {
            return Ok(());
        };
        let first = take_first(rows, rest, CHUNK / 2);
        let Some(slot) = self.tree.get_mut(&middle) else {
            return Ok(());
        };
        *slot = first;
        Ok(())
    }
}
