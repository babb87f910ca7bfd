//! A keeper of either layout is started.
ghost use Rattle.std.specs.Prelude.{IfOk, IsErrOf, IsTrue, List, ℕ};
ghost use Rattle.ode_gate.specs.Headers.{IsHeader};
ghost use Rattle.ode_gate.specs.Slots.{Counts};
ghost use Rattle.ode_host.specs.Causes.{RoseIf};
ghost use Rattle.ode_host.specs.Host.{Looks, Stands, Tells};
ghost use Rattle.ode_keep.specs.Entries.{Entries};
ghost use Rattle.ode_keeper.specs.Files.{HasMap, IsBadJournal, IsBadPage};
ghost use Rattle.ode_keeper.specs.Holding.{KeeperHolds, is_live};
ghost use Rattle.ode_keep.specs.Starting.{Refuses, Starts};

use crate::keeper::{CACHE_PAGES, Keeper};
use ode_areas::Areas;
use ode_gate::{Header, TWO_AREAS};
use ode_host::Host;
use ode_keep::StartError;
use ode_pagemap::PageMap;
use std::alloc::Global;

impl Keeper {
    // Starts the keeper of the layout that the header names.
    fn read<H: Host>(alloc: Global, host: &mut H, header: &Header) -> Result<Keeper, StartError>
        requires { IsHeader header.now }
        ensures found { IfOk result (λ _. (file : List ℕ) → Tells (H.view host.old) file
            → (entries : Entries) × HasMap header.now file entries) }
        ensures holds { IfOk result (λ keeper. (file : List ℕ) (entries : Entries) → Stands file (H.view host.old)
            → Counts file header.now → HasMap header.now file entries → KeeperHolds keeper (H.view host.new) entries) }
        ensures live { IfOk result (λ keeper. IsTrue (is_live keeper)) }
        ensures bad_journal { (at : ℕ) → IsErrOf result (StartError.BadJournal at)
            → (file : List ℕ) → Tells (H.view host.old) file → IsBadJournal header.now file at }
        ensures bad_page { (page : ℕ) → IsErrOf result (StartError.BadPage page)
            → (file : List ℕ) → Tells (H.view host.old) file → IsBadPage header.now file page }
        ensures looks { Looks (H.view host.old) (H.view host.new) }
        ensures cause { RoseIf (IsErrOf result StartError.DiskFault) (H.view host.old).disk_faults (H.view host.new).disk_faults }
    {
        if header.layout == TWO_AREAS {
            let areas = Areas::start(alloc, host, header)?;
            Ok(Keeper::Areas(areas))
        } else {
            let pages = PageMap::start(alloc, host, header, CACHE_PAGES)?;
            Ok(Keeper::Pages(pages))
        }
    }

    /// Starts a keeper with the records that the file has under this header, which names the layout. A keeper of pages
    /// has room for `CACHE_PAGES` in memory. It is `BadJournal` at the first record of a snapshot or the first gate of a
    /// journal, in order, at which something is wrong; and where the journal of a file of pages is whole, `BadPage` at
    /// the first page that isn't there, or isn't in its form, or has a key of a page before it.
    pub fn start<H: Host>(
        alloc: Global,
        host: &mut H,
        header: &Header,
    ) -> Result<Keeper, StartError>
        requires { IsHeader header.now }
        ensures found { IfOk result (λ _. (file : List ℕ) → Tells (H.view host.old) file
            → (entries : Entries) × HasMap header.now file entries) }
        ensures holds { IfOk result (λ keeper. (file : List ℕ) (entries : Entries) → Stands file (H.view host.old)
            → Counts file header.now → HasMap header.now file entries → KeeperHolds keeper (H.view host.new) entries) }
        ensures live { IfOk result (λ keeper. IsTrue (is_live keeper)) }
        ensures bad_journal { (at : ℕ) → IsErrOf result (StartError.BadJournal at)
            → (file : List ℕ) → Tells (H.view host.old) file → IsBadJournal header.now file at }
        ensures bad_page { (page : ℕ) → IsErrOf result (StartError.BadPage page)
            → (file : List ℕ) → Tells (H.view host.old) file → IsBadPage header.now file page }

        // What the file is decides the answer, unless the outside fails.
        ensures whole { (file : List ℕ) (entries : Entries) → Tells (H.view host.old) file
            → HasMap header.now file entries → Starts result }
        ensures broken_journal { (file : List ℕ) (at : ℕ) → Tells (H.view host.old) file
            → IsBadJournal header.now file at → Refuses result (StartError.BadJournal at) }
        ensures broken_page { (file : List ℕ) (page : ℕ) → Tells (H.view host.old) file
            → IsBadPage header.now file page → Refuses result (StartError.BadPage page) }
        ensures looks { Looks (H.view host.old) (H.view host.new) }
        ensures cause { RoseIf (IsErrOf result StartError.DiskFault) (H.view host.old).disk_faults (H.view host.new).disk_faults }
    {
        Keeper::read(alloc, host, header)
    }
}
