//! The bytes of a key, of a record and of a batch's changes: they are written here, and read again.
ghost use Rattle.std.specs.Prelude.{◌≡◌, ◌+◌, ◌<◌, ◌≤◌, ◌^◌, ◌++◌, ◌↔◌, List, Option, ℕ, length, take, IfSome, IsTrue, OnOk};
ghost use Rattle.std.specs.Int.{w16, to_be_bytes};
ghost use Rattle.std.specs.Option.{IfNone, option_map};
ghost use Rattle.ode_value.specs.declared.key.Key.{Key};
ghost use Rattle.ode_value.specs.Keys.{key_cmp};
ghost use Rattle.ode_value.specs.Records.{Row, key_bytes, row_bytes};
ghost use Rattle.ode_keep.specs.ShortValues.{HasShortValues};
ghost use Rattle.ode_keep.specs.Payloads.{FitsChange, change_bytes, payload_of, spelled_change};
ghost use Rattle.ode_keep.specs.Rising.{MayFollow};
ghost use Rattle.ode_keep.specs.Snapshots.{FitsKey, FitsRow};

use crate::batch::Batch;
use crate::limits::{MAX_CHANGE_LEN, MAX_CHANGES, MAX_PAYLOAD_LEN, MAX_VALUE};
use ode_host::{put_over, take_u8, take_u16, take_u64};
use ode_value::{Key, List};
use std::alloc::AllocError;

/// A key, in bytes: its kind and two numbers.
pub const KEY_LEN: usize = 17;

/// What stands in front of a record's value, in bytes: its key, and the length of its value.
pub const ROW_HEAD: usize = KEY_LEN + 2;

/// The number of changes in front of them, in bytes.
pub const COUNT_LEN: usize = 4;

/// What a change without a value begins with; behind it stands the key.
pub const REMOVAL: u8 = 0;

/// What a change with a value begins with; behind it stands the record.
pub const PUT: u8 = 1;

// ---- writing

/// The bytes of a key.
pub fn key_bytes(key: Key) -> [u8; KEY_LEN]
    ensures spelled { result ≡ key_bytes key }
    ensures fits { FitsKey key }
{
    let mut bytes = [key.kind; KEY_LEN];
    put_over(&mut bytes, 1, &key.a.to_be_bytes());
    put_over(&mut bytes, 9, &key.b.to_be_bytes());
    bytes
}

/// The bytes of a record up to its value, which has this length.
pub fn row_head(key: Key, length: u16) -> [u8; ROW_HEAD]
    ensures spelled { result ≡ key_bytes key ++ to_be_bytes w16 length }
    ensures fits { FitsKey key }
{
    let mut bytes = [0; ROW_HEAD];
    put_over(&mut bytes, 0, &key_bytes(key));
    put_over(&mut bytes, KEY_LEN, &length.to_be_bytes());
    bytes
}

/// Appends the bytes of a record, whose value has at most 65,535.
pub fn put_row(to: &mut Vec<u8>, key: Key, value: &[u8]) -> Result<(), AllocError>
    ensures { OnOk result (length value.now < 2 ^ 16 → to.new.items ≡ to.old.items ++ row_bytes (key, value.now)) }
{
    let length = value.len().min(usize::from(u16::MAX)) as u16;
    to.extend_from_slice(&row_head(key, length))?;
    to.extend_from_slice(value)?;
    Ok(())
}

// The bytes of a removal, or of a put.
fn change_length(value: &Option<List<u8>>) -> u32
    requires { IfSome value.now (λ v. length v ≤ MAX_VALUE) }
    ensures exact { (k : Key) → result ≡ length (spelled_change k value.now) }
    ensures small { result ≤ MAX_CHANGE_LEN }
{
    match value {
        None => 1 + KEY_LEN as u32,
        Some(value) => 1 + ROW_HEAD as u32 + value.len() as u32,
    }
}

/// The length of the payload that a batch makes, in bytes.
pub fn payload_length(batch: &Batch) -> u32
    requires few { length batch.now ≤ MAX_CHANGES }
    requires short { HasShortValues batch.now }
    ensures exact { result ≡ length (payload_of batch.now) }
    ensures small { result ≤ MAX_PAYLOAD_LEN }
{
    let mut length = COUNT_LEN as u32;
    for change in batch.iter() {
        length += change_length(&change.value);
    }
    length
}

// ---- reading

/// A record in some bytes, and what stands behind it.
#[derive(Clone, Copy, Debug)]
pub struct FirstRow<'a> {
    pub key: Key,
    pub value: &'a [u8],
    pub rest: &'a [u8],
}

/// A change in some bytes, and what stands behind it.
#[derive(Clone, Copy, Debug)]
pub struct FirstChange<'a> {
    pub key: Key,
    pub value: Option<&'a [u8]>,
    pub rest: &'a [u8],
}

// The key that the bytes begin with, and none where there are too few.
fn first_key(bytes: &[u8]) -> Option<Key>
    ensures some { IfSome result (λ k. FitsKey k × (key_bytes k ≡ take KEY_LEN bytes.now)) }
    ensures long { IfSome result (λ _. KEY_LEN ≤ length bytes.now) }
    ensures none { IfNone result (length bytes.now < KEY_LEN) }
{
    let kind = take_u8(bytes, 0)?;
    let a = take_u64(bytes, 1)?;
    let b = take_u64(bytes, 9)?;
    Some(Key { kind, a, b })
}

/// The record that the bytes begin with, and none where they begin with none.
pub fn first_row(bytes: &[u8]) -> Option<FirstRow<'_>>
    ensures some { IfSome result (λ x. FitsRow (x.key, x.value.now)
        × (bytes.now ≡ row_bytes (x.key, x.value.now) ++ x.rest.now)) }
    ensures none { IfNone result ((r : Row) (rest : List ℕ) → FitsRow r → bytes.now ≡ row_bytes r ++ rest → ⊥) }
{
    let key = first_key(bytes)?;
    let length = usize::from(take_u16(bytes, KEY_LEN)?);
    let (_, rest) = bytes.split_at(ROW_HEAD);
    if rest.len() < length {
        return None;
    }
    let (value, rest) = rest.split_at(length);
    Some(FirstRow { key, value, rest })
}

// The change that the bytes begin with, and none where they begin with none.
fn first_change(bytes: &[u8]) -> Option<FirstChange<'_>>
    ensures some { IfSome result (λ x. FitsChange (x.key, option_map (λ v. v.now) x.value)
        × (bytes.now ≡ spelled_change x.key (option_map (λ v. v.now) x.value) ++ x.rest.now)) }
    ensures none { IfNone result ((c : Key × Option (List ℕ)) (rest : List ℕ) → FitsChange c
        → bytes.now ≡ change_bytes c ++ rest → ⊥) }
{
    let (mark, behind) = bytes.split_first()?;
    if *mark == REMOVAL {
        let key = first_key(behind)?;
        let (_, rest) = behind.split_at(KEY_LEN);
        return Some(FirstChange {
            key,
            value: None,
            rest,
        });
    }
    if *mark == PUT {
        let row = first_row(behind)?;
        return Some(FirstChange {
            key: row.key,
            value: Some(row.value),
            rest: row.rest,
        });
    }
    None
}

// Whether a key may come behind the last one.
fn may_follow(last: Option<Key>, key: Key) -> bool
    ensures { IsTrue result ↔ MayFollow key_cmp last key }
{
    match last {
        None => true,
        Some(last) => last.cmp(&key).is_lt(),
    }
}

/// The record that the bytes begin with, where its key may come behind the last one.
pub fn next_row(bytes: &[u8], last: Option<Key>) -> Option<FirstRow<'_>>
    ensures some { IfSome result (λ x. FitsRow (x.key, x.value.now)
        × (bytes.now ≡ row_bytes (x.key, x.value.now) ++ x.rest.now)) }
    ensures follows { IfSome result (λ x. MayFollow key_cmp last x.key) }
    ensures none { IfNone result ((r : Row) (rest : List ℕ) → FitsRow r → MayFollow key_cmp last r.0
        → bytes.now ≡ row_bytes r ++ rest → ⊥) }
{
    let row = first_row(bytes)?;
    if !may_follow(last, row.key) {
        return None;
    }
    Some(row)
}

/// The change that the bytes begin with, where its key may come behind the last one.
pub fn next_change(bytes: &[u8], last: Option<Key>) -> Option<FirstChange<'_>>
    ensures some { IfSome result (λ x. FitsChange (x.key, option_map (λ v. v.now) x.value)
        × (bytes.now ≡ spelled_change x.key (option_map (λ v. v.now) x.value) ++ x.rest.now)) }
    ensures follows { IfSome result (λ x. MayFollow key_cmp last x.key) }
    ensures none { IfNone result ((c : Key × Option (List ℕ)) (rest : List ℕ) → FitsChange c
        → MayFollow key_cmp last c.0 → bytes.now ≡ change_bytes c ++ rest → ⊥) }
{
    let change = first_change(bytes)?;
    if !may_follow(last, change.key) {
        return None;
    }
    Some(change)
}
