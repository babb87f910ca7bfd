//! A pass over the records of a keeper, in the order of their keys.
ghost use Rattle.std.specs.Prelude.{◌≡◌, ◌<◌, ◌≤◌, ◌^◌, ℕ, true, slice_index, None, IfNone, IfOk, IfSome, IsErrOf, IsTrue, OnOk};
ghost use Rattle.std.specs.Ordering.{is_le};
ghost use Rattle.ode_host.specs.Causes.{RoseIf};
ghost use Rattle.ode_host.specs.Host.{Looks};
ghost use Rattle.ode_keep.specs.Entries.{AreBytes, Entries};
ghost use Rattle.ode_value.specs.Keys.{key_cmp};
ghost use Rattle.ode_value.specs.Records.{Row};
ghost use Rattle.ode_value.specs.declared.key.Key.{Key as RecordKey};
ghost use Rattle.ode_passes.specs.Answers.{Leaves, OnBroken, UnlessFault, is_usable};
ghost use Rattle.ode_passes.specs.Rules.{Ruled, through};
ghost use Rattle.ode_passes.specs.Walking.{IsBatch, ahead, follows, has_range, last_key, rank, records_above, up_to, within};

use crate::error::OpenError;
use ode_host::Host;
use ode_keep::{Keep, Rows};
use ode_value::Key;
use std::alloc::Global;

/// What goes over records, one by one.
pub trait Pass {
    /// What a record makes of it, or the rule that the record breaks.
    ghost takes: { Self → Row → Ruled Self };

    /// The next record.
    fn take(&mut self, alloc: Global, key: Key, value: &[u8]) -> Result<(), OpenError>
        ensures meant { Leaves (takes self.old (key, value.now)) self.new result }
        ensures calm { IsErrOf result OpenError.DiskFault → ⊥ };
}

// The key that comes after this one, if there is one.
fn next_key(key: Key) -> Option<Key>
    ensures next { IfSome result (λ next. (k : RecordKey) → has_range k ≡ true → is_le (key_cmp next k) ≡ follows key k) }
    ensures last { IfNone result ((k : RecordKey) → has_range k ≡ true → follows key k ≡ true → 255 < k.kind) }
    ensures later { IfSome result (λ next. rank key < rank next) }
{
    if let Some(b) = key.b.checked_add(1) {
        return Some(Key {
            kind: key.kind,
            a: key.a,
            b,
        });
    }
    if let Some(a) = key.a.checked_add(1) {
        return Some(Key {
            kind: key.kind,
            a,
            b: 0,
        });
    }
    let kind = key.kind.checked_add(1)?;
    Some(Key { kind, a: 0, b: 0 })
}

// What a slice of bytes has is bytes.
fn are_bytes(value: &[u8])
    ensures { (i : ℕ) → slice_index value.now i < 2 ^ 8 }
{}

// Where to go on behind a key, if records of kinds up to the last one can come there.
fn place_behind(at: Key, last: u8) -> Option<Key>
    ensures on { (entries : Entries) → records_above at last entries ≡ ahead result last entries }
    ensures later { IfSome result (λ next. rank at < rank next) }
{
    let next = next_key(at)?;
    if next.kind > last {
        return None;
    }
    Some(next)
}

// Some of the first records at or above a key, one or more where there are any.
fn next_rows<H: Host, K: Keep<H>>(
    keeper: &mut K,
    host: &mut H,
    from: Key,
) -> Result<Rows, OpenError>
    requires live { IsTrue (K.live keeper.old) }
    ensures next { IfOk result (λ rows. (last : ℕ) (entries : Entries) → K.holds keeper.old (H.view host.old) entries
        → IsBatch from last entries rows) }
    ensures above { IfOk result (λ rows. IfSome (last_key None rows) (λ q. has_range q ≡ true → rank from ≤ rank q)) }
    ensures broken { OnBroken result ((entries : Entries) → K.holds keeper.old (H.view host.old) entries → ⊥) }
    ensures holds { UnlessFault result ((entries : Entries) → K.holds keeper.old (H.view host.old) entries
        → K.holds keeper.new (H.view host.new) entries) }
    ensures looks { Looks (H.view host.old) (H.view host.new) }
    ensures usable { K.live keeper.new ≡ is_usable result }
    ensures cause { RoseIf (IsErrOf result OpenError.DiskFault) (H.view host.old).disk_faults (H.view host.new).disk_faults }
{
    Ok(keeper.rows_from(host, from)?)
}

// Goes over the records of a batch that are of kinds up to the last one. What it went over is bytes. It answers the batch's last key.
fn take_rows<P: Pass>(
    alloc: Global,
    rows: &Rows,
    last: u8,
    pass: &mut P,
) -> Result<Option<Key>, OpenError>
    ensures meant { Leaves (through P.takes pass.old (up_to last rows.now)) pass.new result }
    ensures at { IfOk result (λ at. at ≡ last_key None rows.now) }
    ensures bytes { OnOk result (AreBytes (up_to last rows.now)) }
    ensures calm { IsErrOf result OpenError.DiskFault → ⊥ }
{
    let mut reader = rows.reader();
    let mut at = None;
    while let Some((key, value)) = reader.next() {
        if key.kind <= last {
            are_bytes(value);
            pass.take(alloc, key, value)?;
        }
        at = Some(key);
    }
    Ok(at)
}

/// Goes over the records of kinds from the first to the last, in the order of their keys. What it went over is bytes.
pub fn walk<H: Host, K: Keep<H>, P: Pass>(
    alloc: Global,
    keeper: &mut K,
    host: &mut H,
    first: u8,
    last: u8,
    pass: &mut P,
) -> Result<(), OpenError>
    requires live { IsTrue (K.live keeper.old) }
    ensures meant { (entries : Entries) → K.holds keeper.old (H.view host.old) entries
        → Leaves (through P.takes pass.old (within first last entries)) pass.new result }
    ensures bytes { OnOk result ((entries : Entries) → K.holds keeper.old (H.view host.old) entries → AreBytes (within first last entries)) }
    ensures holds { UnlessFault result ((entries : Entries) → K.holds keeper.old (H.view host.old) entries
        → K.holds keeper.new (H.view host.new) entries) }
    ensures looks { Looks (H.view host.old) (H.view host.new) }
    ensures usable { K.live keeper.new ≡ is_usable result }
    ensures cause { RoseIf (IsErrOf result OpenError.DiskFault) (H.view host.old).disk_faults (H.view host.new).disk_faults }
{
    let mut from = Key {
        kind: first,
        a: 0,
        b: 0,
    };
    'records: loop {
        let rows = next_rows(keeper, host, from)?;
        let Some(at) = take_rows(alloc, &rows, last, pass)? else {
            return Ok(());
        };
        let Some(next) = place_behind(at, last) else {
            return Ok(());
        };
        from = next;
    }
}
