//! The keeper of pages keeps records: their changes are written before they are answered.
ghost use Rattle.std.specs.Prelude.{◌≡◌, ◌+◌, ◌*◌, ◌<◌, ◌≤◌, List, None, length, IfErr, IfOk, IsErrOf, IsTrue, MatchOption, OnErr, OnOk};
ghost use Rattle.std.specs.Option.{IfSome};
ghost use Rattle.ode_gate.specs.Changes.{WritesAtMost};
ghost use Rattle.ode_gate.specs.declared.places.TheConstants.{FORMAT, REGION_LEN};
ghost use Rattle.ode_host.specs.Causes.{RoseIf};
ghost use Rattle.ode_host.specs.Host.{DiskCalls, LeavesOnly, Looks, Puts};
ghost use Rattle.ode_journal.specs.Appends.{need_of, room_of};
ghost use Rattle.ode_keep.specs.Entries.{Changes, Entries, applied, record_bytes};
ghost use Rattle.ode_keep.specs.Keeping.{LeavesOldOrNew, OnDamaged, OnRefusal, OnTooLarge, is_usable};
ghost use Rattle.ode_keep.specs.ShortValues.{HasShortValues};
ghost use Rattle.ode_paging.specs.Images.{Image};
ghost use Rattle.ode_paging.specs.Meaning.{PagesMeanIn};
ghost use Rattle.ode_pagemap.specs.Holding.{LastHold, PagesHold, format_of, is_live, room};
ghost use Rattle.ode_pagemap.specs.Ready.{IsFormed, IsLeast, IsPlannedFor, IsReady, WritesLeast};
ghost use Rattle.ode_pagemap.specs.Steps.{ChangesRegion, StandUnder, bytes_before};

use crate::map::PageMap;
use crate::ready::{Ready, take_over};
use crate::steps::write_changes;
use ode_gate::MAX_PAGES;
use ode_host::Host;
use ode_keep::{Batch, Keep, KeepError, MAX_CHANGES, MAX_PAGED_BYTES, Roomy, Rows};
use ode_paging::{Counts, Plan, Source, plan_batch};
use ode_value::{Key, List};

impl PageMap {
    // Plans the changes of a batch. Nothing changes yet.
    fn plan<H: Host>(&self, host: &mut H, batch: &Batch) -> Result<Plan, KeepError>
        requires few { length batch.now ≤ MAX_CHANGES }
        requires short { HasShortValues batch.now }
        ensures planned { IfOk result (λ plan. (entries : Entries) → PagesHold self.now (H.view host.old) entries
            → IsPlannedFor self.now (H.view host.new) entries batch.now plan) }
        ensures formed { IfOk result IsFormed }
        ensures two_each { IfOk result (λ plan. length plan.images ≤ 2 * length batch.now) }
        ensures too_large { OnTooLarge result (λ total. (entries : Entries) → PagesHold self.now (H.view host.old) entries
            → (total ≡ record_bytes (applied batch.now entries)) × (MAX_PAGED_BYTES < total)) }
        ensures damaged { OnDamaged result ((entries : Entries) → PagesHold self.now (H.view host.old) entries → ⊥) }
        ensures looks { Looks (H.view host.old) (H.view host.new) }
        ensures cause { RoseIf (IsErrOf result KeepError.DiskFault) (H.view host.old).disk_faults (H.view host.new).disk_faults }
    {
        let source = Source {
            header: &self.header,
            images: &self.opened.images,
            rooms: &self.rooms,
        };
        let counts = Counts {
            bytes: self.opened.bytes,
            queued: self.opened.queued,
        };
        plan_batch(
            self.alloc,
            host,
            source,
            &self.opened.index,
            self.opened.count,
            counts,
            batch,
        )
    }

    // Plans the changes of a batch, and makes them in memory. At an error it has the same records.
    fn prepare<H: Host>(&mut self, host: &mut H, batch: &Batch) -> Result<Ready, KeepError>
        requires few { length batch.now ≤ MAX_CHANGES }
        requires short { HasShortValues batch.now }
        ensures ready { IfOk result (λ r. (entries : Entries) → PagesHold self.old (H.view host.old) entries
            → IsReady self.new (H.view host.new) batch.now entries r) }
        ensures full { IfOk result (λ r. r.frame.spare ≡ 0) }
        ensures pages { IfOk result (λ r. IfSome r.due (λ c. c.count ≤ MAX_PAGES)) }
        ensures room { IfOk result (λ r. MatchOption r.due (need_of r.frame.payload ≤ room_of self.new.opened.journal)
            (λ _. need_of r.frame.payload ≤ REGION_LEN)) }
        ensures least { IfOk result (λ r. IsLeast self.old batch.now r) }
        ensures stay { OnOk result ((self.new.header ≡ self.old.header) × (self.new.opened.journal ≡ self.old.opened.journal)) }
        ensures format { format_of self.new ≡ format_of self.old }
        ensures cache { room self.new ≡ room self.old }
        ensures refused { OnErr result ((entries : Entries) → PagesHold self.old (H.view host.old) entries
            → PagesHold self.new (H.view host.new) entries) }
        ensures too_large { OnTooLarge result (λ total. (entries : Entries) → PagesHold self.old (H.view host.old) entries
            → (total ≡ record_bytes (applied batch.now entries)) × (MAX_PAGED_BYTES < total)) }
        ensures damaged { OnDamaged result ((entries : Entries) → PagesHold self.old (H.view host.old) entries → ⊥) }
        ensures looks { Looks (H.view host.old) (H.view host.new) }
        ensures cause { RoseIf (IsErrOf result KeepError.DiskFault) (H.view host.old).disk_faults (H.view host.new).disk_faults }
        ensures live { is_live self.new ≡ is_live self.old }
    {
        let Plan {
            moves,
            pages,
            images,
            rooms,
            frame,
            count,
            counts,
        } = self.plan(host, batch)?;
        self.cache.forget_all(&images);
        let due = take_over(self.alloc, &mut self.opened, &moves, images)?;
        self.cache.take_all(pages);
        self.opened.count = count;
        self.opened.bytes = counts.bytes;
        self.opened.queued = counts.queued;
        self.rooms.tell_all(&rooms);
        Ok(Ready { frame, due })
    }

    // Writes what is ready.
    fn write_out<H: Host>(&mut self, host: &mut H, ready: &Ready) -> Result<(), KeepError>
        requires live { IsTrue (is_live self.old) }
        requires full { ready.now.frame.spare ≡ 0 }
        requires pages { IfSome ready.now.due (λ c. c.count ≤ MAX_PAGES) }
        requires room { MatchOption ready.now.due (need_of ready.now.frame.payload ≤ room_of self.old.opened.journal)
            (λ _. need_of ready.now.frame.payload ≤ REGION_LEN) }
        ensures done { OnOk result ((changes : Changes) (entries : Entries) → IsReady self.old (H.view host.old) changes entries ready.now
            → PagesHold self.new (H.view host.new) (applied changes entries)) }
        ensures any_moment { (changes : Changes) (entries : Entries) → IsReady self.old (H.view host.old) changes entries ready.now
            → LeavesOnly (H.view host.old) (H.view host.new) (LeavesOldOrNew (PagesMeanIn (format_of self.old)) entries changes (H.view host.old)) }
        ensures region { ready.now.due ≡ None → OnOk result ((images : List Image) (pages : List Entries)
            → (stand : StandUnder self.old.header self.old.opened.journal images pages (H.view host.old))
            → ChangesRegion self.old.header self.old.opened.journal stand.file (H.view host.new)) }
        ensures puts { ready.now.due ≡ None → OnOk result (Puts (need_of ready.now.frame.payload) (H.view host.old) (H.view host.new)) }
        ensures most { OnOk result (WritesAtMost (bytes_before ready.now.due + need_of ready.now.frame.payload) (H.view host.old) (H.view host.new)) }
        ensures kind { IfErr result (λ e. e ≡ KeepError.DiskFault) }
        ensures format { format_of self.new ≡ format_of self.old }
        ensures cache { room self.new ≡ room self.old }
        ensures leaves { DiskCalls (IsErrOf result KeepError.DiskFault) (H.view host.old) (H.view host.new) }
        ensures usable { is_live self.new ≡ is_usable result }
    {
        let due = ready.due.as_ref();
        let journal = &mut self.opened.journal;
        match write_changes(host, &mut self.header, journal, due, &ready.frame) {
            Ok(()) => Ok(()),
            Err(_) => {
                self.is_live = false;
                Err(KeepError::DiskFault)
            }
        }
    }

    /// Makes the changes of a batch. A stop on the way leaves the records before it or those after it.
    pub fn commit<H: Host>(&mut self, host: &mut H, batch: &Batch) -> Result<(), KeepError>
        requires live { IsTrue (is_live self.old) }
        requires few { length batch.now ≤ MAX_CHANGES }
        requires short { HasShortValues batch.now }
        ensures done { OnOk result ((entries : Entries) → PagesHold self.old (H.view host.old) entries
            → PagesHold self.new (H.view host.new) (applied batch.now entries)) }
        ensures fits { OnOk result ((entries : Entries) → PagesHold self.old (H.view host.old) entries
            → record_bytes (applied batch.now entries) ≤ MAX_PAGED_BYTES) }
        ensures too_large { OnTooLarge result (λ total. (entries : Entries) → PagesHold self.old (H.view host.old) entries
            → (total ≡ record_bytes (applied batch.now entries)) × (MAX_PAGED_BYTES < total)) }
        ensures refused { OnRefusal result ((entries : Entries) → PagesHold self.old (H.view host.old) entries
            → PagesHold self.new (H.view host.new) entries) }
        ensures looks { OnRefusal result (Looks (H.view host.old) (H.view host.new)) }
        ensures any_moment { (entries : Entries) → PagesHold self.old (H.view host.old) entries
            → LeavesOnly (H.view host.old) (H.view host.new) (LeavesOldOrNew (PagesMeanIn (format_of self.old)) entries batch.now (H.view host.old)) }
        ensures usable { is_live self.new ≡ is_usable result }
        ensures leaves { DiskCalls (IsErrOf result KeepError.DiskFault) (H.view host.old) (H.view host.new) }
        ensures damaged { OnDamaged result ((entries : Entries) → PagesHold self.old (H.view host.old) entries → ⊥) }
        ensures format { format_of self.new ≡ format_of self.old }
        ensures room { room self.new ≡ room self.old }

        // Where the frame fits its journal it is all that is written. Else a checkpoint stands in front of it.
        ensures writes { OnOk result (WritesLeast self.old batch.now (H.view host.old) (H.view host.new)) }
    {
        match self.prepare(host, batch) {
            Ok(ready) => self.write_out(host, &ready),
            Err(KeepError::DiskFault) => {
                self.is_live = false;
                Err(KeepError::DiskFault)
            }
            Err(error) => Err(error),
        }
    }
}

/// Over a file of the last format.
impl<H: Host> Keep<H> for PageMap {
    ghost use Rattle.ode_pagemap.specs.Holding.{most};
    ghost use Rattle.ode_pagemap.specs.Laws.{last_stands_law, last_stays_law, one_map_law, rising_law};

    ghost holds = { LastHold };

    ghost means = { PagesMeanIn FORMAT };

    ghost live = { is_live };

    ghost most = { most };

    ghost stands = { λ keeper host entries h. last_stands_law keeper (H.view host) entries h };

    ghost stays = { λ keeper old new entries h still. last_stays_law keeper (H.view old) (H.view new) entries h still };

    ghost rising = { rising_law FORMAT };

    ghost one_map = { one_map_law FORMAT };

    fn live(&self) -> bool {
        self.is_live
    }

    fn get(&mut self, host: &mut H, key: Key) -> Result<Option<List<u8>>, KeepError> {
        PageMap::get(self, host, key)
    }

    fn keys_from(&mut self, host: &mut H, key: Key) -> Result<Option<Key>, KeepError> {
        PageMap::keys_from(self, host, key)
    }

    fn rows_from(&mut self, host: &mut H, key: Key) -> Result<Rows, KeepError> {
        PageMap::rows_from(self, host, key)
    }

    fn queued(&mut self, host: &mut H) -> Result<u64, KeepError> {
        PageMap::queued(self, host)
    }

    fn commit(&mut self, host: &mut H, batch: &Batch) -> Result<(), KeepError> {
        PageMap::commit(self, host, batch)
    }
}

impl<H: Host> Roomy<H> for PageMap {
    ghost use Rattle.ode_pagemap.specs.Laws.{roomy_law};

    ghost roomy = { roomy_law };
}
