//! A keeper is started.
ghost use Rattle.std.specs.Prelude.{◌≡◌, [], IfOk, IsErrOf, IsTrue, List, ℕ};
ghost use Rattle.std.specs.Map.{keys_of};
ghost use Rattle.ode_gate.specs.Headers.{IsOfPages};
ghost use Rattle.ode_gate.specs.Slots.{Counts};
ghost use Rattle.ode_host.specs.Causes.{RoseIf};
ghost use Rattle.ode_host.specs.Host.{Looks, Stands, Tells};
ghost use Rattle.ode_keep.specs.Entries.{Entries, record_bytes};
ghost use Rattle.ode_paging.specs.Meaning.{HasMap, IsBadJournal, IsBadPage};
ghost use Rattle.ode_keep.specs.Starting.{Refuses, Starts};
ghost use Rattle.ode_pagemap.specs.Holding.{PagesHold, bytes, held, index, is_live, room};

use crate::cache::Cache;
use crate::map::PageMap;
use ode_gate::Header;
use ode_host::Host;
use ode_keep::StartError;
use ode_paging::{Opened, Rooms};
use std::alloc::Global;

impl PageMap {
    /// Starts a keeper with the records that the file has under this header, and room for so many pages in memory. It
    /// takes memory for the images of the journal, one frame at a time, and for the keys. It is `BadJournal` at the first
    /// gate of the journal at which something is wrong; and where the journal is whole, `BadPage` at the first page that
    /// isn't there, or isn't in its form, or has a key of a page before it.
    pub fn start<H: Host>(
        alloc: Global,
        host: &mut H,
        h: &Header,
        cache: u32,
    ) -> Result<PageMap, StartError>
        requires { IsOfPages h.now }
        ensures holds { IfOk result (λ keeper. (file : List ℕ) (entries : Entries) → Stands file (H.view host.old)
            → Counts file h.now → HasMap h.now file entries → PagesHold keeper (H.view host.new) entries) }
        ensures found { IfOk result (λ _. (file : List ℕ) → Tells (H.view host.old) file
            → (entries : Entries) × HasMap h.now file entries) }
        ensures keys { IfOk result (λ keeper. (file : List ℕ) (entries : Entries) → Tells (H.view host.old) file
            → HasMap h.now file entries → keys_of (index keeper) ≡ keys_of entries) }
        ensures held { IfOk result (λ keeper. held keeper ≡ []) }
        ensures room { IfOk result (λ keeper. room keeper ≡ cache) }
        ensures bytes { IfOk result (λ keeper. (file : List ℕ) (entries : Entries) → Tells (H.view host.old) file
            → HasMap h.now file entries → bytes keeper ≡ record_bytes entries) }
        ensures live { IfOk result (λ keeper. IsTrue (is_live keeper)) }
        ensures bad_journal { (at : ℕ) → IsErrOf result (StartError.BadJournal at)
            → (file : List ℕ) → Tells (H.view host.old) file → IsBadJournal h.now file at }
        ensures bad_page { (page : ℕ) → IsErrOf result (StartError.BadPage page)
            → (file : List ℕ) → Tells (H.view host.old) file → IsBadPage h.now file page }

        // What the file is decides the answer, unless the outside fails.
        ensures whole { (file : List ℕ) (entries : Entries) → Tells (H.view host.old) file
            → HasMap h.now file entries → Starts result }
        ensures broken_journal { (file : List ℕ) (at : ℕ) → Tells (H.view host.old) file
            → IsBadJournal h.now file at → Refuses result (StartError.BadJournal at) }
        ensures broken_page { (file : List ℕ) (page : ℕ) → Tells (H.view host.old) file
            → IsBadPage h.now file page → Refuses result (StartError.BadPage page) }
        ensures looks { Looks (H.view host.old) (H.view host.new) }
        ensures cause { RoseIf (IsErrOf result StartError.DiskFault) (H.view host.old).disk_faults (H.view host.new).disk_faults }
    {
        let cache = Cache::new(alloc, cache)?;
        let mut rooms = Rooms::new(alloc);
        let opened = Opened::open(alloc, host, h, &mut rooms)?;
        Ok(PageMap {
            header: *h,
            opened,
            cache,
            rooms,
            is_live: true,
            alloc,
        })
    }

    /// The bytes of the keys and values of the records that it has.
    pub fn bytes(&self) -> u64
        ensures { result ≡ bytes self.now }
    {
        self.opened.bytes
    }
}
