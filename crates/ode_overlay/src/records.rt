//! The record changes of a settling.
ghost use Rattle.std.specs.Prelude.{◌≡◌, ◌≤◌, IfOk, OnOk, length};
ghost use Rattle.std.specs.List.{All};
ghost use Rattle.std.specs.Map.{values_of};
ghost use Rattle.std.specs.Option.{IfSome};
ghost use Rattle.ode_codec.specs.Rules.{IsKeptCounters};
ghost use Rattle.ode_codec.specs.declared.record.Record.TheVariants as of;
ghost use Rattle.ode_keep.specs.Entries.{Entries, applied, value_under};
ghost use Rattle.ode_objects.specs.Records.{AreShort, IsKeptChange};
ghost use Rattle.ode_objects.specs.declared.records.Becomes.TheVariants.{Is};
ghost use Rattle.ode_overlay.specs.After.{stands_after};
ghost use Rattle.ode_overlay.specs.Records.{batch, becomes, counters_after, entry_by, filled, first_changes, put_entry, queued_from, with_clock};
ghost use Rattle.ode_value.specs.Keys.{entry_key};
ghost use Rattle.ode_value.specs.declared.key.Key.{Key as Row};

use crate::origin::Origin;
use crate::overlay::{Collected, Overlay};
use ode_codec::{Counters, Entry, Record};
use ode_keep::{Batch, MAX_CHANGES, MAX_VALUE};
use ode_objects::{Becomes, put_becomes};
use ode_value::Key;
use std::alloc::{AllocError, Global};

// The entry of a collected firing, by its number.
#[tactic(auto, using(ode_objects::proofs::ShortValues::short_entry), unfolding(ode_codec::specs::Rules::IsCounted))]
fn queued_record(alloc: Global, number: u64, collected: &Collected) -> Result<Becomes, AllocError>
    ensures value { IfOk result (λ b. b ≡ Is (of.Entry number (entry_by collected.now))) }
    ensures kept { IfOk result IsKeptChange }
{
    Ok(Becomes::Is(Record::Entry {
        number,
        entry: Entry {
            object: collected.object,
            class: collected.class,
            trigger: collected.trigger,
            generation: collected.generation,
            args: collected.args.values().copy(alloc)?,
        },
    }))
}

// One more entry.
fn put_entry(
    alloc: Global,
    batch: &mut Batch,
    number: u64,
    collected: &Collected,
) -> Result<(), AllocError>
    ensures ok { OnOk result (batch.new ≡ put_entry number collected.now batch.old) }
    ensures short { AreShort batch.old → OnOk result (AreShort batch.new) }
{
    let record = queued_record(alloc, number, collected)?;
    put_becomes(alloc, batch, entry_key(number), record)
}

// The clock, moved where the transaction is the clock's.
fn with_clock(origin: Origin, counters: Counters) -> Counters
    ensures { result ≡ with_clock origin counters }
{
    match origin {
        Origin::Tick {
            instant,
            object,
            place,
        } => Counters {
            clock_set: true,
            instant,
            object,
            place,
            ..counters
        },
        Origin::Move { instant } => Counters {
            clock_set: true,
            instant,
            object: u64::MAX,
            place: u32::MAX,
            ..counters
        },
        _ => counters,
    }
}

impl Overlay {
    // What becomes of the record under a key.
    #[tactic(auto, unfolding(crate::specs::Records::becomes))]
    fn becomes(&self, key: Key) -> Result<Becomes, AllocError>
        ensures value { IfOk result (λ b. b ≡ becomes self.now key) }
        ensures kept { IfOk result IsKeptChange }
    {
        match self.objects.get(&key.a) {
            None => Ok(Becomes::Stays),
            Some(tracked) => tracked.current.becomes(self.alloc, key),
        }
    }

    // The counters that the transaction leaves.
    fn counters_after(&self) -> Counters
        ensures value { result ≡ counters_after self.now }
        ensures kept { IsKeptCounters result }
    {
        let counters = Counters {
            next_number: self.next,
            next_transaction: self.first.next_transaction + 1,
            next_entry: self.first.next_entry + self.collected.len() as u64,
            ..self.first
        };
        with_clock(self.origin, counters)
    }

    // The counters, and the entry that ran.
    #[tactic(auto, using(ode_objects::proofs::ShortValues::short_counters), unfolding(ode_codec::specs::Rules::IsCounted))]
    fn first_changes(&self) -> Result<Batch, AllocError>
        ensures value { IfOk result (λ b. b ≡ first_changes self.now) }
        ensures short { IfOk result AreShort }
    {
        let mut batch = Batch::new(self.alloc);
        let key = Key {
            kind: Key::COUNTERS,
            a: 0,
            b: 0,
        };
        let counters = Becomes::Is(Record::Counters(self.counters_after()));
        put_becomes(self.alloc, &mut batch, key, counters)?;
        if let Origin::Entry { number, .. } = self.origin {
            put_becomes(self.alloc, &mut batch, entry_key(number), Becomes::Goes)?;
        }
        Ok(batch)
    }

    // The records of changed keys.
    fn fill(&self, batch: &mut Batch) -> Result<(), AllocError>
        ensures ok { OnOk result (batch.new ≡ filled self.now self.now.keys batch.old) }
        ensures short { AreShort batch.old → OnOk result (AreShort batch.new) }
    {
        for key in self.keys.as_slice() {
            put_becomes(self.alloc, batch, *key, self.becomes(*key)?)?;
        }
        Ok(())
    }

    // The entries for the queue, numbered one after another.
    fn fill_queue(&self, batch: &mut Batch) -> Result<(), AllocError>
        ensures ok { OnOk result (batch.new ≡ queued_from self.now.first.next_entry self.now.collected batch.old) }
        ensures short { AreShort batch.old → OnOk result (AreShort batch.new) }
    {
        let mut number = self.first.next_entry;
        for collected in self.collected.as_slice() {
            put_entry(self.alloc, batch, number, collected)?;
            number += 1;
        }
        Ok(())
    }

    // The record changes of the settling.
    #[tactic(auto, using(crate::proofs::Counts::few_changes), unfolding(crate::specs::Records::batch, ode_value::specs::Limits::value_limit))]
    fn batch(&self) -> Result<Batch, AllocError>
        ensures value { IfOk result (λ b. b ≡ batch self.now) }
        ensures few { IfOk result (λ b. length b ≤ MAX_CHANGES) }
        ensures short { IfOk result (λ b. All (λ value. IfSome value (λ bytes. length bytes ≤ MAX_VALUE)) (values_of b)) }
    {
        // Read, so that what each overlay keeps to is known.
        let _ = &self.first;
        let mut batch = self.first_changes()?;
        self.fill(&mut batch)?;
        self.fill_queue(&mut batch)?;
        Ok(batch)
    }

    /// The record changes of a commit. Under each key stands behind them what the transaction leaves there.
    #[tactic(auto, using(crate::proofs::Batches::batch_at))]
    pub fn as_commit(&self) -> Result<Batch, AllocError>
        ensures changes { IfOk result (λ b. b ≡ batch self.now) }
        ensures few { IfOk result (λ b. length b ≤ MAX_CHANGES) }
        ensures short { IfOk result (λ b. All (λ value. IfSome value (λ bytes. length bytes ≤ MAX_VALUE)) (values_of b)) }
        ensures stands { IfOk result (λ b. (base : Entries) (q : Row) → value_under (applied b base) q ≡ stands_after self.now base q) }
    {
        self.batch()
    }

    /// The record changes of an abort, behind `rewind`. Under each key stands behind them what the transaction leaves there.
    #[tactic(auto, using(crate::proofs::Batches::batch_at))]
    pub fn as_abort(&self) -> Result<Batch, AllocError>
        ensures changes { IfOk result (λ b. b ≡ batch self.now) }
        ensures few { IfOk result (λ b. length b ≤ MAX_CHANGES) }
        ensures short { IfOk result (λ b. All (λ value. IfSome value (λ bytes. length bytes ≤ MAX_VALUE)) (values_of b)) }
        ensures stands { IfOk result (λ b. (base : Entries) (q : Row) → value_under (applied b base) q ≡ stands_after self.now base q) }
    {
        self.batch()
    }
}

fn entry_key(number: u64) -> Key
    ensures { result ≡ entry_key number }
{
    Key {
        kind: Key::ENTRY,
        a: number,
        b: 0,
    }
}
