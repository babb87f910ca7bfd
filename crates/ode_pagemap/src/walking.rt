//! Keys and records from a key on.
ghost use Rattle.std.specs.Prelude.{◌≡◌, [], ◌∷◌, List, ℕ, Some, true, IfOk, IsErrOf, IsTrue, OnOk};
ghost use Rattle.std.specs.List.{AllByRecursion};
ghost use Rattle.std.specs.Option.{IfSome};
ghost use Rattle.std.specs.Ordering.{is_le};
ghost use Rattle.ode_host.specs.Causes.{RoseIf};
ghost use Rattle.ode_host.specs.Host.{Fetched, FetchedAtMost, Looks};
ghost use Rattle.ode_value.specs.Keys.{entry_kind, key_cmp};
ghost use Rattle.ode_keep.specs.Entries.{Entries, StartsOf, count_of_kind, entries_from, least_from, value_under};
ghost use Rattle.ode_keep.specs.Keeping.{OnDamaged, OnTooLarge, UnlessFault, is_usable};
ghost use Rattle.ode_paging.specs.Indexing.{Leads};
ghost use Rattle.ode_pagemap.specs.Holding.{PagesHold, format_of, index, is_live, room};
ghost use Rattle.ode_pagemap.specs.Running.{MayRunOn, Runs};

use crate::map::PageMap;
use ode_host::Host;
use ode_keep::{KeepError, Rows};
use ode_paging::{PAGE_SIZE, Page};
use ode_value::{Key, List};
use std::alloc::{AllocError, Global};
use std::collections::btree_map::Range;

// The value that a page has under a key, where the key leads to this page.
fn led_value(page: &Page, number: u32, key: Key, led: u32) -> Option<&[u8]>
    ensures here { IfSome result (λ _. led ≡ number) }
    ensures value { IfSome result (λ value. value_under page.now key ≡ Some value.now) }
{
    if led != number {
        return None;
    }
    page.find(key)
}

// Adds the records of a page under the keys of these leads, up to the first one that leads elsewhere.
fn push_run(
    alloc: Global,
    rows: &mut Vec<(Key, List<u8>)>,
    page: &Page,
    number: u32,
    mut leads: Range<'_, Key, u32>,
) -> Result<(), AllocError>
    ensures { OnOk result ((rest : Leads) × Runs number page.now leads.entry rows.old.items rows.new.items rest) }
{
    'leads: while let Some((key, led)) = leads.next() {
        let Some(value) = led_value(page, number, *key, *led) else {
            return Ok(());
        };
        let value = List::from_slice(alloc, value)?;
        rows.push((*key, value))?;
    }
    Ok(())
}

impl PageMap {
    // Adds the records behind the first one from a key on, as far as they stand in the page of this number, if it is held.
    fn push_more(
        &self,
        rows: &mut Vec<(Key, List<u8>)>,
        key: Key,
        number: u32,
    ) -> Result<(), AllocError>
        ensures { OnOk result (MayRunOn self.now key number rows.old.items rows.new.items) }
    {
        let Some(page) = self.cache.get(number) else {
            return Ok(());
        };
        let mut leads = self.opened.index.leads_from(key);
        match leads.next() {
            None => Ok(()),
            Some(_first) => push_run(self.alloc, rows, page, number, leads),
        }
    }

    // The first record from a key on, and those behind it in its page, if this is held.
    fn rows_with(
        &self,
        least: Key,
        value: List<u8>,
        key: Key,
        number: u32,
    ) -> Result<Rows, AllocError>
        ensures { IfOk result (λ rows. MayRunOn self.now key number ((least, value) ∷ []) rows) }
    {
        let mut rows = Vec::new(self.alloc);
        rows.push((least, value))?;
        self.push_more(&mut rows, key, number)?;
        Rows::copy(self.alloc, rows.as_slice())
    }

    /// The least key at or above a key. Nothing is read for it.
    pub fn keys_from<H: Host>(&mut self, _host: &mut H, key: Key) -> Result<Option<Key>, KeepError>
        requires live { IsTrue (is_live self.old) }
        ensures value { IfOk result (λ found. (entries : Entries) → PagesHold self.old (H.view _host.old) entries
            → found ≡ least_from entries key) }
        ensures above { IfOk result (λ found. IfSome found (λ q. is_le (key_cmp key q) ≡ true)) }
        ensures holds { UnlessFault result ((entries : Entries) → PagesHold self.old (H.view _host.old) entries
            → PagesHold self.new (H.view _host.new) entries) }
        ensures looks { Looks (H.view _host.old) (H.view _host.new) }
        ensures usable { is_live self.new ≡ is_usable result }
        ensures cause { RoseIf (IsErrOf result KeepError.DiskFault) (H.view _host.old).disk_faults (H.view _host.new).disk_faults }
        ensures damaged { OnDamaged result ((entries : Entries) → PagesHold self.old (H.view _host.old) entries → ⊥) }
        ensures too_large { OnTooLarge result (λ _. ⊥) }
        ensures unread { Fetched 0 (H.view _host.old) (H.view _host.new) }
        ensures same { self.new ≡ self.old }
    {
        match self.opened.index.lead_from(key) {
            Some((least, _)) => Ok(Some(least)),
            None => Ok(None),
        }
    }

    /// The first records at or above a key, one or more where there are any. At most one page is read for them.
    pub fn rows_from<H: Host>(&mut self, host: &mut H, key: Key) -> Result<Rows, KeepError>
        requires live { IsTrue (is_live self.old) }
        ensures value { IfOk result (λ rows. (entries : Entries) → PagesHold self.old (H.view host.old) entries
            → StartsOf rows (entries_from entries key)) }
        ensures above { IfOk result (λ rows. AllByRecursion (λ e. is_le (key_cmp key e.0) ≡ true) rows) }
        ensures holds { UnlessFault result ((entries : Entries) → PagesHold self.old (H.view host.old) entries
            → PagesHold self.new (H.view host.new) entries) }
        ensures looks { Looks (H.view host.old) (H.view host.new) }
        ensures usable { is_live self.new ≡ is_usable result }
        ensures cause { RoseIf (IsErrOf result KeepError.DiskFault) (H.view host.old).disk_faults (H.view host.new).disk_faults }
        ensures damaged { OnDamaged result ((entries : Entries) → PagesHold self.old (H.view host.old) entries → ⊥) }
        ensures too_large { OnTooLarge result (λ _. ⊥) }
        ensures fetched { FetchedAtMost PAGE_SIZE (H.view host.old) (H.view host.new) }
        ensures room { room self.new ≡ room self.old }
        ensures index { index self.new ≡ index self.old }
        ensures format { format_of self.new ≡ format_of self.old }
    {
        match self.opened.index.lead_from(key) {
            None => Ok(Rows::copy(self.alloc, &[])?),
            Some((least, number)) => {
                let value = self.value_in(host, number, least)?;
                Ok(self.rows_with(least, value, key, number)?)
            }
        }
    }

    /// How many records are entries of the queue. Nothing is read for it.
    pub fn queued<H: Host>(&mut self, _host: &mut H) -> Result<u64, KeepError>
        requires live { IsTrue (is_live self.old) }
        ensures value { IfOk result (λ count. (entries : Entries) → PagesHold self.old (H.view _host.old) entries
            → count ≡ count_of_kind entry_kind entries) }
        ensures holds { UnlessFault result ((entries : Entries) → PagesHold self.old (H.view _host.old) entries
            → PagesHold self.new (H.view _host.new) entries) }
        ensures looks { Looks (H.view _host.old) (H.view _host.new) }
        ensures usable { is_live self.new ≡ is_usable result }
        ensures cause { RoseIf (IsErrOf result KeepError.DiskFault) (H.view _host.old).disk_faults (H.view _host.new).disk_faults }
        ensures damaged { OnDamaged result ((entries : Entries) → PagesHold self.old (H.view _host.old) entries → ⊥) }
        ensures too_large { OnTooLarge result (λ _. ⊥) }
        ensures unread { Fetched 0 (H.view _host.old) (H.view _host.new) }
        ensures same { self.new ≡ self.old }
    {
        Ok(self.opened.queued)
    }
}
