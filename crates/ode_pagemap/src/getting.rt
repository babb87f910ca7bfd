//! Values are read from pages.
ghost use Rattle.std.specs.Prelude.{◌≡◌, List, ℕ, None, Some, IfOk, IsErrOf, IsSome, IsTrue, OnErr, OnOk};
ghost use Rattle.std.specs.Option.{IfNone, IfSome};
ghost use Rattle.ode_gate.specs.Headers.{IsOfPages};
ghost use Rattle.ode_host.specs.Causes.{RoseIf};
ghost use Rattle.ode_host.specs.Host.{Fetched, FetchedAtMost, Looks, Tells};
ghost use Rattle.ode_keep.specs.Entries.{Entries, value_under};
ghost use Rattle.ode_keep.specs.Keeping.{OnDamaged, OnDiskFault, OnTooLarge, UnlessFault, is_usable};
ghost use Rattle.ode_paging.specs.Indexing.{page_under};
ghost use Rattle.ode_paging.specs.Standing.{HasPage, image_of};
ghost use Rattle.ode_pagemap.specs.Cached.{used};
ghost use Rattle.ode_pagemap.specs.Holding.{PagesHold, format_of, held, index, is_live, room};
ghost use Rattle.ode_pagemap.specs.Reaching.{IsNear, IsReached, LeadsNear};

use crate::map::PageMap;
use ode_host::Host;
use ode_keep::KeepError;
use ode_paging::{PAGE_SIZE, Page, read_page};
use ode_value::{Key, List};
use std::alloc::Global;

// A copy of the value that a page has under a key that leads to it. Where it has none the page is damaged.
fn copy_value(alloc: Global, page: &Page, number: u32, key: Key) -> Result<List<u8>, KeepError>
    ensures value { IfOk result (λ value. value_under page.now key ≡ Some value) }
    ensures damaged { OnDamaged result (value_under page.now key ≡ None) }
    ensures no_fault { OnDiskFault result ⊥ }
    ensures not_large { OnTooLarge result (λ _. ⊥) }
{
    let Some(value) = page.find(key) else {
        return Err(KeepError::Damaged { page: number });
    };
    Ok(List::from_slice(alloc, value)?)
}

impl PageMap {
    // The page of this number, by its image or from its place. Where there is none it is damaged.
    fn fetch<H: Host>(&self, host: &mut H, number: u32) -> Result<Page, KeepError>
        ensures page { IfOk result (λ page. IsOfPages self.now.header → (file : List ℕ) → Tells (H.view host.old) file
            → HasPage self.now.header self.now.opened.images file number page) }
        ensures damaged { OnDamaged result (IsOfPages self.now.header → (file : List ℕ) (entries : Entries)
            → Tells (H.view host.old) file → HasPage self.now.header self.now.opened.images file number entries → ⊥) }
        ensures not_large { OnTooLarge result (λ _. ⊥) }
        ensures looks { Looks (H.view host.old) (H.view host.new) }
        ensures fetched { FetchedAtMost PAGE_SIZE (H.view host.old) (H.view host.new) }
        ensures by_image { IsSome (image_of self.now.opened.images number) → Fetched 0 (H.view host.old) (H.view host.new) }
        ensures cause { RoseIf (IsErrOf result KeepError.DiskFault) (H.view host.old).disk_faults (H.view host.new).disk_faults }
    {
        match read_page(host, &self.header, &self.opened.images, number) {
            Ok(Some(page)) => Ok(page),
            Ok(None) => Err(KeepError::Damaged { page: number }),
            Err(_) => Err(KeepError::DiskFault),
        }
    }

    // The value under a key that leads to the page of this number, which is the most recently used one from then on.
    fn read_value<H: Host>(
        &mut self,
        host: &mut H,
        number: u32,
        key: Key,
    ) -> Result<List<u8>, KeepError>
        requires { page_under (index self.old) key ≡ Some number }
        ensures value { IfOk result (λ value. (entries : Entries) → PagesHold self.old (H.view host.old) entries
            → value_under entries key ≡ Some value) }
        ensures holds { (entries : Entries) → PagesHold self.old (H.view host.old) entries
            → PagesHold self.new (H.view host.new) entries }
        ensures kept { self.new ≡ record self.old { cache = self.new.cache } }
        ensures looks { Looks (H.view host.old) (H.view host.new) }
        ensures cause { RoseIf (IsErrOf result KeepError.DiskFault) (H.view host.old).disk_faults (H.view host.new).disk_faults }
        ensures damaged { OnDamaged result ((entries : Entries) → PagesHold self.old (H.view host.old) entries → ⊥) }
        ensures not_large { OnTooLarge result (λ _. ⊥) }

        // At most one page is read, and which pages are in memory then.
        ensures fetched { FetchedAtMost PAGE_SIZE (H.view host.old) (H.view host.new) }
        ensures near { IsNear self.old number → Fetched 0 (H.view host.old) (H.view host.new) }
        ensures used { OnOk result (held self.new ≡ used (room self.old) number (held self.old)) }
        ensures unused { OnErr result (held self.new ≡ held self.old) }
        ensures room { room self.new ≡ room self.old }
    {
        if let Some(page) = self.cache.get(number) {
            let value = copy_value(self.alloc, page, number, key)?;
            self.cache.touch(number);
            return Ok(value);
        }
        let page = self.fetch(host, number)?;
        let value = copy_value(self.alloc, &page, number, key)?;
        self.cache.take_in(number, page)?;
        Ok(value)
    }

    /// The value under a key that leads to the page of this number.
    pub(crate) fn value_in<H: Host>(
        &mut self,
        host: &mut H,
        number: u32,
        key: Key,
    ) -> Result<List<u8>, KeepError>
        requires live { IsTrue (is_live self.old) }
        requires leads { page_under (index self.old) key ≡ Some number }
        ensures value { IfOk result (λ value. (entries : Entries) → PagesHold self.old (H.view host.old) entries
            → value_under entries key ≡ Some value) }
        ensures holds { UnlessFault result ((entries : Entries) → PagesHold self.old (H.view host.old) entries
            → PagesHold self.new (H.view host.new) entries) }
        ensures looks { Looks (H.view host.old) (H.view host.new) }
        ensures usable { is_live self.new ≡ is_usable result }
        ensures cause { RoseIf (IsErrOf result KeepError.DiskFault) (H.view host.old).disk_faults (H.view host.new).disk_faults }
        ensures damaged { OnDamaged result ((entries : Entries) → PagesHold self.old (H.view host.old) entries → ⊥) }
        ensures too_large { OnTooLarge result (λ _. ⊥) }

        // At most one page is read, and which pages are in memory then.
        ensures fetched { FetchedAtMost PAGE_SIZE (H.view host.old) (H.view host.new) }
        ensures near { IsNear self.old number → Fetched 0 (H.view host.old) (H.view host.new) }
        ensures used { OnOk result (held self.new ≡ used (room self.old) number (held self.old)) }
        ensures unused { OnErr result (held self.new ≡ held self.old) }
        ensures room { room self.new ≡ room self.old }
        ensures index { index self.new ≡ index self.old }
        ensures format { format_of self.new ≡ format_of self.old }
    {
        match self.read_value(host, number, key) {
            Ok(value) => Ok(value),
            Err(KeepError::DiskFault) => {
                self.is_live = false;
                Err(KeepError::DiskFault)
            }
            Err(error) => Err(error),
        }
    }

    /// The value under a key. At most one page is read for it, and none that is in memory.
    pub fn get<H: Host>(&mut self, host: &mut H, key: Key) -> Result<Option<List<u8>>, KeepError>
        requires live { IsTrue (is_live self.old) }
        ensures value { IfOk result (λ found. (entries : Entries) → PagesHold self.old (H.view host.old) entries
            → found ≡ value_under entries key) }
        ensures holds { UnlessFault result ((entries : Entries) → PagesHold self.old (H.view host.old) entries
            → PagesHold self.new (H.view host.new) entries) }
        ensures looks { Looks (H.view host.old) (H.view host.new) }
        ensures usable { is_live self.new ≡ is_usable result }
        ensures cause { RoseIf (IsErrOf result KeepError.DiskFault) (H.view host.old).disk_faults (H.view host.new).disk_faults }
        ensures damaged { OnDamaged result ((entries : Entries) → PagesHold self.old (H.view host.old) entries → ⊥) }
        ensures too_large { OnTooLarge result (λ _. ⊥) }

        // What is read, and which pages are in memory then.
        ensures fetched { FetchedAtMost PAGE_SIZE (H.view host.old) (H.view host.new) }
        ensures near { LeadsNear self.old key → Fetched 0 (H.view host.old) (H.view host.new) }
        ensures reached { IfOk result (λ found. IfSome found (λ _. IsReached key self.old self.new)) }
        ensures absent { IfOk result (λ found. IfNone found (held self.new ≡ held self.old)) }
        ensures refused { OnErr result (held self.new ≡ held self.old) }
        ensures room { room self.new ≡ room self.old }
        ensures index { index self.new ≡ index self.old }
        ensures format { format_of self.new ≡ format_of self.old }
    {
        match self.opened.index.page(key) {
            None => Ok(None),
            Some(number) => Ok(Some(self.value_in(host, number, key)?)),
        }
    }
}
