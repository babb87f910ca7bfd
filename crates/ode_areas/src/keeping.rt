//! The keeper of two areas keeps records: their changes are written before they are answered.
ghost use Rattle.std.specs.Prelude.{◌≡◌, ◌+◌, ◌≤◌, ◌<◌, length, IfOk, IsErrOf, IsTrue, OnErr, OnOk};
ghost use Rattle.std.specs.List.{AllByRecursion};
ghost use Rattle.ode_gate.specs.declared.places.TheConstants.{AREA_LEN};
ghost use Rattle.ode_keep.specs.ShortValues.{HasShortValues};
ghost use Rattle.ode_keep.specs.Entries.{applied, record_bytes};
ghost use Rattle.ode_keep.specs.Keeping.{OnDamaged, OnDiskFault, OnTooLarge};
ghost use Rattle.ode_keep.specs.Payloads.{FitsChange};

use crate::areas::Areas;
use crate::encode::frame_of;
use crate::plan::{Checkpoint, Ready, checkpoint_for, checkpoint_of, has_place};
use crate::snapshot::{copy_of, snapshot_length};
use crate::steps::write_ready;
use ode_host::Host;
use ode_journal::FRAME_BYTES;
use ode_keep::{Batch, Keep, KeepError, MAX_CHANGES, MAX_RECORD_BYTES, Rows, payload_length};
use ode_value::{Key, List};
use std::alloc::AllocError;

impl Areas {
    ghost use Rattle.ode_areas.specs.Ready.{IsReady};
    ghost use Rattle.ode_areas.specs.Steps.{MovesOver};

    // Makes the changes of a batch in memory, and a checkpoint of the records behind it. At an error nothing changed.
    fn prepare_moved(&mut self, batch: &Batch, total: u64) -> Result<Checkpoint, AllocError>
        requires total { total ≡ record_bytes (applied batch.now self.old.map) }
        requires within { total ≤ MAX_RECORD_BYTES }
        requires each { AllByRecursion FitsChange batch.now }
        ensures moves { IfOk result (λ c. MovesOver self.old.header (applied batch.now self.old.map) c.header c.bytes.items) }
        ensures changed { OnOk result (self.new ≡ record self.old { map = applied batch.now self.old.map }) }
        ensures unchanged { OnErr result (self.new ≡ self.old) }
    {
        let mut map = copy_of(self.alloc, &self.map)?;
        map.apply(self.alloc, batch, total)?;
        let length = snapshot_length(&map);
        let checkpoint = checkpoint_of(self.alloc, &self.header, &map, length)?;
        self.map = map;
        Ok(checkpoint)
    }

    // Makes the changes of a batch in memory, and what is to be written. At an error nothing changed.
    fn prepare(&mut self, batch: &Batch) -> Result<Ready, KeepError>
        requires few { length batch.now ≤ MAX_CHANGES }
        requires short { HasShortValues batch.now }
        ensures ready { IfOk result (λ r. IsReady batch.now self.old.header self.old.journal self.old.map r) }
        ensures changed { OnOk result (self.new ≡ record self.old { map = applied batch.now self.old.map }) }
        ensures within { OnOk result (record_bytes (applied batch.now self.old.map) ≤ MAX_RECORD_BYTES) }
        ensures unchanged { OnErr result (self.new ≡ self.old) }
        ensures too_large { OnTooLarge result (λ total. record_bytes self.old.map ≤ AREA_LEN
            → (total ≡ record_bytes (applied batch.now self.old.map)) × (MAX_RECORD_BYTES < total)) }
        ensures no_fault { OnDiskFault result ⊥ }
        ensures not_damaged { OnDamaged result ⊥ }
    {
        let total = self.map.bytes_after(batch);
        if total > MAX_RECORD_BYTES {
            return Err(KeepError::TooLarge { total });
        }
        let frame = frame_of(self.alloc, batch)?;
        let need = u64::from(payload_length(batch)) + FRAME_BYTES as u64;
        if !has_place(&self.journal, &self.map, need) {
            let checkpoint = self.prepare_moved(batch, total)?;
            return Ok(Ready::Moved { checkpoint });
        }
        let due = checkpoint_for(self.alloc, &self.header, &self.journal, &self.map, need)?;
        self.map.apply(self.alloc, batch, total)?;
        Ok(Ready::Framed { frame, due })
    }
}

impl<H: Host> Keep<H> for Areas {
    ghost use Rattle.ode_areas.specs.Holding.{FitsJournal, AreasHold, is_live, most};
    ghost use Rattle.ode_areas.specs.Image.{AreasMean};
    ghost use Rattle.ode_keep.specs.Payloads.{payload_of};
    ghost use Rattle.ode_areas.specs.Steps.{checkpoint_length};
    ghost use Rattle.ode_host.specs.Host.{DiskCalls, LeavesOnly, Looks, Puts};
    ghost use Rattle.ode_gate.specs.Changes.{WritesAtMost};
    ghost use Rattle.ode_journal.specs.Appends.{need_of};
    ghost use Rattle.ode_keep.specs.Entries.{Entries};
    ghost use Rattle.ode_keep.specs.Keeping.{LeavesOldOrNew, OnRefusal, is_usable};
    ghost use Rattle.ode_areas.specs.Laws.{one_map_law, rising_law, stands_law, stays_law};

    ghost holds = { AreasHold };

    ghost means = { AreasMean };

    ghost live = { is_live };

    ghost most = { most };

    ghost stands = { λ keeper host entries h. stands_law keeper (H.view host) entries h };

    ghost stays = { λ keeper old new entries h still. stays_law keeper (H.view old) (H.view new) entries h still };

    ghost rising = { rising_law };

    ghost one_map = { one_map_law };

    fn live(&self) -> bool {
        self.is_live
    }

    fn get(&mut self, _host: &mut H, key: Key) -> Result<Option<List<u8>>, KeepError> {
        match self.map.get(key) {
            None => Ok(None),
            Some(value) => Ok(Some(List::from_slice(self.alloc, value.as_slice())?)),
        }
    }

    fn keys_from(&mut self, _host: &mut H, key: Key) -> Result<Option<Key>, KeepError> {
        Ok(self.map.least_from(key))
    }

    fn rows_from(&mut self, _host: &mut H, key: Key) -> Result<Rows, KeepError> {
        Ok(self.map.rows_from(self.alloc, key)?)
    }

    fn queued(&mut self, _host: &mut H) -> Result<u64, KeepError> {
        Ok(self.map.queued())
    }

    fn commit(&mut self, host: &mut H, batch: &Batch) -> Result<(), KeepError>
        requires live { IsTrue (is_live self.old) }
        requires few { length batch.now ≤ MAX_CHANGES }
        requires short { HasShortValues batch.now }
        ensures done { OnOk result ((entries : Entries) → AreasHold self.old (H.view host.old) entries
            → AreasHold self.new (H.view host.new) (applied batch.now entries)) }
        ensures fits { OnOk result ((entries : Entries) → AreasHold self.old (H.view host.old) entries
            → record_bytes (applied batch.now entries) ≤ MAX_RECORD_BYTES) }
        ensures too_large { OnTooLarge result (λ total. (entries : Entries) → AreasHold self.old (H.view host.old) entries
            → (total ≡ record_bytes (applied batch.now entries)) × (MAX_RECORD_BYTES < total)) }
        ensures refused { OnRefusal result ((entries : Entries) → AreasHold self.old (H.view host.old) entries
            → AreasHold self.new (H.view host.new) entries) }
        ensures looks { OnRefusal result (Looks (H.view host.old) (H.view host.new)) }
        ensures any_moment { (entries : Entries) → AreasHold self.old (H.view host.old) entries
            → LeavesOnly (H.view host.old) (H.view host.new) (LeavesOldOrNew AreasMean entries batch.now (H.view host.old)) }
        ensures leaves { DiskCalls (IsErrOf result KeepError.DiskFault) (H.view host.old) (H.view host.new) }
        ensures usable { is_live self.new ≡ is_usable result }
        ensures damaged { OnDamaged result ((entries : Entries) → AreasHold self.old (H.view host.old) entries → ⊥) }

        // Where the frame fits its journal it is all that is written. Else a checkpoint of the records stands in front of it,
        // or, where it has no place behind that either, one of the records behind the batch is all that is written.
        ensures frame { OnOk result (FitsJournal self.old batch.now
            → Puts (need_of (payload_of batch.now)) (H.view host.old) (H.view host.new)) }
        ensures checkpoint { OnOk result ((entries : Entries) → AreasHold self.old (H.view host.old) entries
            → WritesAtMost (checkpoint_length entries + need_of (payload_of batch.now)) (H.view host.old) (H.view host.new)) }
    {
        let ready = self.prepare(batch)?;
        match write_ready(host, &mut self.header, &mut self.journal, &ready) {
            Ok(()) => Ok(()),
            Err(_) => {
                self.is_live = false;
                Err(KeepError::DiskFault)
            }
        }
    }
}
