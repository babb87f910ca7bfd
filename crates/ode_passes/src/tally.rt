//! All records: each decodes, and how many bytes they take together.
ghost use Rattle.std.specs.Prelude.{◌≡◌, IsErrOf, IsTrue, OnOk};
ghost use Rattle.ode_host.specs.Causes.{RoseIf};
ghost use Rattle.ode_host.specs.Host.{Looks};
ghost use Rattle.ode_keep.specs.Entries.{AreBytes, Entries};
ghost use Rattle.ode_value.specs.Keys.{counters_key};
ghost use Rattle.ode_passes.specs.Answers.{Answers, Leaves, UnlessFault, is_usable};
ghost use Rattle.ode_passes.specs.Rules.{found};
ghost use Rattle.ode_passes.specs.Tally.{counted, counters_behind, counters_in, counters_or, has_form, is_light, limit_of, tally_in};
ghost use Rattle.ode_passes.specs.Walking.{within};
ghost use Rattle.ode_passes.specs.declared.cause.Cause.TheVariants as cause;

use crate::cause::Cause;
use crate::error::OpenError;
use crate::records::record_in;
use crate::walking::{Pass, walk};
use ode_codec::{Counters, Record, is_of_first, is_record, one_spelling};
use ode_host::Host;
use ode_keep::{KEY_LEN, Keep};
use ode_value::Key;
use ode_value::limits::{FIRST_WEIGHT_LIMIT, WEIGHT_LIMIT};
use std::alloc::Global;

/// What the records so far come to, which may be of the first format.
#[derive(Clone, Copy, Debug)]
pub struct Tally {
    /// Whether they are.
    first: bool,
    /// Their bytes, the entries of the queue not counted.
    total: u64,
    /// The counters, where their record was there.
    counters: Option<Counters>,
}

fn counters_or(before: Option<Counters>, row: &Record) -> Option<Counters>
    ensures { result ≡ counters_or before row.now }
{
    match row {
        Record::Counters(counters) => Some(*counters),
        _ => before,
    }
}

// The counters, where this record has them. Only they are decoded, of the others it is asked whether they are records.
fn counters_behind(
    before: Option<Counters>,
    alloc: Global,
    key: Key,
    value: &[u8],
) -> Result<Option<Counters>, OpenError>
    ensures meant { Answers (counters_behind before (key, value.now)) result }
    ensures calm { IsErrOf result OpenError.DiskFault → ⊥ }
{
    if key.kind == Key::COUNTERS {
        let record = record_in(alloc, key, value)?;
        return Ok(counters_or(before, &record));
    }
    one_spelling();
    if is_record(key, value) {
        Ok(before)
    } else {
        Err(OpenError::BadFile(Cause::Record(key)))
    }
}

// Whether a record has no stamp and is no added field, where it is of the first format.
fn has_form(first: bool, key: Key, value: &[u8]) -> bool
    ensures { result ≡ has_form first (key, value.now) }
{
    !first || is_of_first(key, value)
}

// The counters behind a record that may stand there.
fn counters_in(
    first: bool,
    before: Option<Counters>,
    alloc: Global,
    key: Key,
    value: &[u8],
) -> Result<Option<Counters>, OpenError>
    ensures meant { Answers (counters_in first before (key, value.now)) result }
    ensures calm { IsErrOf result OpenError.DiskFault → ⊥ }
{
    if has_form(first, key, value) {
        counters_behind(before, alloc, key, value)
    } else {
        Err(OpenError::BadFile(Cause::Record(key)))
    }
}

fn counted(total: u64, key: Key, value: &[u8]) -> u64
    ensures { result ≡ counted total (key, value.now) }
{
    if key.kind == Key::ENTRY {
        return total;
    }
    total
        .saturating_add(KEY_LEN as u64)
        .saturating_add(value.len() as u64)
}

impl Pass for Tally {
    ghost use Rattle.ode_passes.specs.Tally.{tallied};

    ghost takes = { tallied };

    fn take(&mut self, alloc: Global, key: Key, value: &[u8]) -> Result<(), OpenError> {
        self.counters = counters_in(self.first, self.counters, alloc, key, value)?;
        self.total = counted(self.total, key, value);
        Ok(())
    }
}

// The counters, which are to be there.
fn counters_of(tally: Tally) -> Result<Counters, Cause>
    ensures { result ≡ found (cause.Missing counters_key) tally.counters }
{
    match tally.counters {
        Some(counters) => Ok(counters),
        None => Err(Cause::Missing(Key {
            kind: Key::COUNTERS,
            a: 0,
            b: 0,
        })),
    }
}

/// The counters, and the bytes of all records but for the queue's entries; or the first record that doesn't decode, or has a form that
/// the first format doesn't know where the records are of that, or that there are no counters. All values are bytes. Nothing is written.
#[tactic(auto, unfolding(crate::specs::Tally::tally_in))]
pub fn read_tally<H: Host, K: Keep<H>>(
    alloc: Global,
    keeper: &mut K,
    host: &mut H,
    first: bool,
) -> Result<(Counters, u64), OpenError>
    requires live { IsTrue (K.live keeper.old) }
    ensures meant { (entries : Entries) → K.holds keeper.old (H.view host.old) entries
        → Answers (tally_in first entries) result }
    ensures bytes { OnOk result ((entries : Entries) → K.holds keeper.old (H.view host.old) entries → AreBytes (within 0 255 entries)) }
    ensures holds { UnlessFault result ((entries : Entries) → K.holds keeper.old (H.view host.old) entries
        → K.holds keeper.new (H.view host.new) entries) }
    ensures looks { Looks (H.view host.old) (H.view host.new) }
    ensures usable { K.live keeper.new ≡ is_usable result }
    ensures cause { RoseIf (IsErrOf result OpenError.DiskFault) (H.view host.old).disk_faults (H.view host.new).disk_faults }
{
    let mut tally = Tally {
        first,
        total: 0,
        counters: None,
    };
    walk(alloc, keeper, host, u8::MIN, u8::MAX, &mut tally)?;
    let counters = counters_of(tally)?;
    Ok((counters, tally.total))
}

// How many bytes records may have, which may be of the first format.
fn limit_of(first: bool) -> u64
    ensures { result ≡ limit_of first }
{
    if first {
        FIRST_WEIGHT_LIMIT
    } else {
        WEIGHT_LIMIT
    }
}

/// Whether so many bytes are within the limit of records, which may be of the first format.
pub fn is_light(first: bool, total: u64) -> Result<(), Cause>
    ensures { result ≡ is_light first total }
{
    if total <= limit_of(first) {
        Ok(())
    } else {
        Err(Cause::Size(total))
    }
}
