//! Changes of records that are made together.
ghost use Rattle.std.specs.Prelude.{◌≡◌, ◌<◌, ◌≤◌, [], ◌↔◌, cond, drop, get_or, length, IsTrue, None, OnErr, OnOk, Some};
ghost use Rattle.std.specs.Bool.{OnFalse, OnTrue};
ghost use Rattle.std.specs.BTreeMap.{insert_entry, is_at};
ghost use Rattle.ode_value.specs.declared.key.Key.{Key};
ghost use Rattle.ode_value.specs.Keys.{key_cmp};
ghost use Rattle.ode_keep.specs.Batches.{changes_of};
ghost use Rattle.ode_keep.specs.Entries.{Entries, HasRisingKeys, applied, value_under};
ghost use Rattle.ode_keep.specs.Placing.{IsFree, IsPlace};
ghost use Rattle.ode_keep.specs.declared.batch.Change.{Change as Row};

use ode_value::{Key, List};
use std::alloc::{AllocError, Global};
use std::marker::Model;
use std::slice::Iter;

/// A change of a record: the value that stands under its key from then on, or that none does.
#[derive(Drop)]
pub struct Change {
    pub key: Key,
    pub value: Option<List<u8>>,
}

/// Changes of records, at most one a key.
#[derive(Drop)]
pub struct Batch {
    // In rising order of their keys.
    changes: List<Change>,
}

impl Model for Batch {
    ghost use Rattle.ode_keep.specs.Entries.{Changes, HasRisingKeys};
    ghost use Rattle.ode_keep.specs.Batches.{changes_of};

    ghost Value = { Changes };

    ghost view = { λ batch. changes_of batch.changes };

    ghost invariant = { λ batch. HasRisingKeys (changes_of batch.changes) };
}

// How many changes have a key below this one. The search begins at the end, where most changes come in.
fn place(changes: &[Change], key: Key) -> usize
    requires { HasRisingKeys (changes_of changes.now) }
    ensures place { IsPlace (changes_of changes.now) key result }
    ensures within { result ≤ length changes.now }
{
    let mut at = changes.len();
    'above: while at > 0 {
        if changes[at - 1].key.cmp(&key).is_lt() {
            return at;
        }
        at -= 1;
    }
    at
}

// Whether the change at a place has this key.
fn stands_at(changes: &[Change], at: usize, key: Key) -> bool
    ensures there { OnTrue result (at < length changes.now) }
    ensures same { OnTrue result ((d : Row) → (get_or changes.now at d).key ≡ key) }
    ensures free { OnFalse result (IsFree (drop at (changes_of changes.now)) key) }
{
    if at >= changes.len() {
        return false;
    }
    key.cmp(&changes[at].key).is_eq()
}

// This change stands under its key, whatever stood there. The changes stay as they were where there is no memory.
fn set_change(
    changes: &mut List<Change>,
    key: Key,
    value: Option<List<u8>>,
) -> Result<(), AllocError>
    requires { HasRisingKeys (changes_of changes.old) }
    ensures ok { OnOk result (changes_of changes.new ≡ insert_entry key_cmp (changes_of changes.old) key value) }
    ensures err { OnErr result (changes.new ≡ changes.old) }
{
    let slice = changes.as_slice();
    let at = place(slice, key);
    if stands_at(slice, at, key) {
        changes.set(at, Change { key, value });
        return Ok(());
    }
    changes.insert(at, Change { key, value })
}

impl Batch {
    /// A batch that changes nothing.
    pub fn new(alloc: Global) -> Batch
        ensures { result ≡ [] }
    {
        Batch {
            changes: List::new(alloc),
        }
    }

    /// This value stands under the key, whatever the batch had for it. The batch stays as it was where there is no
    /// memory.
    pub fn put(&mut self, key: Key, value: List<u8>) -> Result<(), AllocError>
        ensures ok { OnOk result (self.new ≡ insert_entry key_cmp self.old key (Some value)) }
        ensures counts { OnOk result ((entries : Entries) (q : Key) → value_under (applied self.new entries) q
            ≡ cond (is_at (key_cmp key) q) (Some value) (value_under (applied self.old entries) q)) }
        ensures err { OnErr result (self.new ≡ self.old) }
    {
        set_change(&mut self.changes, key, Some(value))
    }

    /// No record stands under the key, whatever the batch had for it. The batch stays as it was where there is no
    /// memory.
    pub fn remove(&mut self, key: Key) -> Result<(), AllocError>
        ensures ok { OnOk result (self.new ≡ insert_entry key_cmp self.old key None) }
        ensures counts { OnOk result ((entries : Entries) (q : Key) → value_under (applied self.new entries) q
            ≡ cond (is_at (key_cmp key) q) None (value_under (applied self.old entries) q)) }
        ensures err { OnErr result (self.new ≡ self.old) }
    {
        set_change(&mut self.changes, key, None)
    }

    /// The changes, in rising order of their keys.
    pub fn changes(&self) -> &List<Change>
        ensures changes { changes_of result.now ≡ self.now }
        ensures rising { HasRisingKeys self.now }
    {
        &self.changes
    }

    /// The changes, in rising order of their keys, one after another.
    pub fn iter(&self) -> Iter<'_, Change>
        ensures changes { changes_of result.rest.now ≡ self.now }
        ensures rising { HasRisingKeys self.now }
    {
        self.changes.as_slice().iter()
    }

    /// The number of changes.
    pub fn len(&self) -> usize
        ensures { result ≡ length self.now }
    {
        self.changes.len()
    }

    /// Whether there is no change.
    pub fn is_empty(&self) -> bool
        ensures { IsTrue result ↔ (self.now ≡ []) }
    {
        self.changes.is_empty()
    }
}
