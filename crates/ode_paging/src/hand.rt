//! Pages in hand: those that a commit changes.
ghost use Rattle.std.specs.Prelude.{◌≡◌, ◌+◌, ◌<◌, ◌≤◌, [], List, ℕ, IfOk, IsErrOf, None, OnOk, Some, length, max};
ghost use Rattle.std.specs.BTreeMap.{insert_entry};
ghost use Rattle.std.specs.Bool.{OnFalse, OnTrue};
ghost use Rattle.std.specs.Ordering.{nat_cmp};
ghost use Rattle.ode_gate.specs.Headers.{IsOfPages};
ghost use Rattle.ode_host.specs.Causes.{RoseIf};
ghost use Rattle.ode_host.specs.Host.{Looks, Tells};
ghost use Rattle.ode_keep.specs.Entries.{Entries};
ghost use Rattle.ode_keep.specs.Keeping.{OnDamaged, OnTooLarge};
ghost use Rattle.ode_paging.specs.Replacing.{page_changed};
ghost use Rattle.ode_paging.specs.Standing.{HasPage};

use crate::images::Images;
use crate::pages::{Page, read_page};
use ode_gate::{Header, MAX_PAGES};
use ode_host::Host;
use ode_keep::{KeepError, MAX_VALUE};
use ode_pages::PageOf;
use ode_value::Key;
use std::alloc::{AllocError, Global};
use std::collections::BTreeMap;

// The page of this number, as the file has it.
fn page_of_file<H: Host>(
    host: &mut H,
    header: &Header,
    images: &Images,
    page: u32,
) -> Result<Page, KeepError>
    requires { IsOfPages header.now }
    ensures page { IfOk result (λ entries. (file : List ℕ) → Tells (H.view host.old) file
        → HasPage header.now images.now file page entries) }
    ensures damaged { OnDamaged result ((file : List ℕ) (entries : Entries) → Tells (H.view host.old) file
        → HasPage header.now images.now file page entries → ⊥) }
    ensures too_large { OnTooLarge result (λ _. ⊥) }
    ensures looks { Looks (H.view host.old) (H.view host.new) }
    ensures cause { RoseIf (IsErrOf result KeepError.DiskFault) (H.view host.old).disk_faults (H.view host.new).disk_faults }
{
    let Some(entries) = read_page(host, header, images, page)? else {
        return Err(KeepError::Damaged { page });
    };
    Ok(entries)
}

/// Pages of a file with the changes that a commit made in them so far, by their numbers, and how many pages there are then.
#[derive(Drop)]
pub(crate) struct Hand {
    pub(crate) pages: BTreeMap<u32, Page>,
    pub(crate) count: u64,
    // The page into which a value was put last that had no room in its own.
    pub(crate) last: Option<u32>,
}

impl Hand {
    ghost use Rattle.ode_paging.specs.Hands.{Covers, GrowsBy, HasInHand, IsInHand, MakesChange, StaysSame};

    /// None in hand, of so many pages.
    pub(crate) fn new(alloc: Global, count: u64) -> Hand
        ensures covers { (pages : List Entries) → count ≡ length pages → Covers result pages pages }
        ensures empty { result.pages.entries ≡ [] }
    {
        Hand {
            pages: BTreeMap::new(alloc),
            count,
            last: None,
        }
    }

    // This is the page of this number from now on.
    fn take(&mut self, page: u32, entries: Page) -> Result<(), AllocError>
        ensures taken { OnOk result (self.new.pages.entries ≡ insert_entry nat_cmp self.old.pages.entries page entries) }
        ensures many { OnOk result (self.new.count ≡ max self.old.count (page + 1)) }
        ensures few { OnOk result (GrowsBy 1 self.old self.new) }
    {
        self.pages.insert(page, entries)?;
        self.count = self.count.max(u64::from(page) + 1);
        Ok(())
    }

    /// Puts a value into a page, if this is in hand and has the room.
    pub(crate) fn put_in(&mut self, page: u32, key: Key, value: &[u8]) -> bool
        ensures put { OnTrue result (MakesChange self.old self.new page key (Some value.now)) }
        ensures other { OnFalse result (StaysSame self.old self.new) }
        ensures few { GrowsBy 0 self.old self.new }
    {
        match self.pages.get_mut(&page) {
            Some(entries) => entries.put(key, value).is_ok(),
            None => false,
        }
    }

    /// Puts a value into a page in hand in the place of the one under its key, or takes that one out where there is no room.
    /// Answers whether the value is put.
    pub(crate) fn exchange_in(&mut self, page: u32, key: Key, value: &[u8]) -> bool
        ensures put { OnTrue result (MakesChange self.old self.new page key (Some value.now)) }
        ensures out { OnFalse result (IsInHand self.old page → MakesChange self.old self.new page key None) }
        ensures few { GrowsBy 0 self.old self.new }
    {
        let Some(entries) = self.pages.get_mut(&page) else {
            return false;
        };
        match entries.put(key, value) {
            Ok(()) => true,
            Err(_) => {
                entries.remove(key);
                false
            }
        }
    }

    /// Takes the value under a key out of a page in hand.
    pub(crate) fn remove_from(&mut self, page: u32, key: Key)
        ensures changed { IsInHand self.old page → MakesChange self.old self.new page key None }
        ensures few { GrowsBy 0 self.old self.new }
    {
        if let Some(entries) = self.pages.get_mut(&page) {
            entries.remove(key);
        }
    }

    /// Takes a page in hand, as the file has it, if it isn't there yet.
    pub(crate) fn bring<H: Host>(
        &mut self,
        host: &mut H,
        header: &Header,
        images: &Images,
        page: u32,
    ) -> Result<(), KeepError>
        requires { IsOfPages header.now }
        ensures held { OnOk result (IsInHand self.new page) }
        ensures covers { OnOk result ((pages now : List Entries) → page < length now
            → HasInHand (H.view host.old) header.now images.now self.old pages now
            → HasInHand (H.view host.new) header.now images.now self.new pages now) }
        ensures damaged { OnDamaged result ((pages now : List Entries) → page < length now
            → HasInHand (H.view host.old) header.now images.now self.old pages now → ⊥) }
        ensures too_large { OnTooLarge result (λ _. ⊥) }
        ensures few { OnOk result (GrowsBy 1 self.old self.new) }
        ensures looks { Looks (H.view host.old) (H.view host.new) }
        ensures cause { RoseIf (IsErrOf result KeepError.DiskFault) (H.view host.old).disk_faults (H.view host.new).disk_faults }
    {
        if !self.pages.contains_key(&page) {
            let entries = page_of_file(host, header, images, page)?;
            self.take(page, entries)?;
        }
        Ok(())
    }

    /// Puts a value into a page, if this has the room. It comes in hand then.
    pub(crate) fn put_if_room<H: Host>(
        &mut self,
        host: &mut H,
        header: &Header,
        images: &Images,
        page: u32,
        key: Key,
        value: &[u8],
    ) -> Result<bool, KeepError>
        requires { IsOfPages header.now }
        ensures put { IfOk result (λ b. OnTrue b ((pages now : List Entries)
            → HasInHand (H.view host.old) header.now images.now self.old pages now
            → (page ≤ length now) × HasInHand (H.view host.new) header.now images.now self.new pages (page_changed now page key (Some value.now)))) }
        ensures other { IfOk result (λ b. OnFalse b ((pages now : List Entries)
            → HasInHand (H.view host.old) header.now images.now self.old pages now
            → HasInHand (H.view host.new) header.now images.now self.new pages now)) }
        ensures damaged { OnDamaged result ((pages now : List Entries)
            → HasInHand (H.view host.old) header.now images.now self.old pages now → ⊥) }
        ensures too_large { OnTooLarge result (λ _. ⊥) }
        ensures kept { IfOk result (λ b. OnFalse b (GrowsBy 0 self.old self.new)) }
        ensures few { OnOk result (GrowsBy 1 self.old self.new) }
        ensures looks { Looks (H.view host.old) (H.view host.new) }
        ensures cause { RoseIf (IsErrOf result KeepError.DiskFault) (H.view host.old).disk_faults (H.view host.new).disk_faults }
    {
        if u64::from(page) >= self.count || self.pages.contains_key(&page) {
            return Ok(self.put_in(page, key, value));
        }
        let mut entries = page_of_file(host, header, images, page)?;
        if entries.put(key, value).is_err() {
            return Ok(false);
        }
        self.take(page, entries)?;
        Ok(true)
    }

    /// Puts a value into a new page, behind all others.
    pub(crate) fn put_in_new(&mut self, key: Key, value: &[u8]) -> Result<u32, AllocError>
        requires { length value.now ≤ MAX_VALUE }
        ensures put { IfOk result (λ page. MakesChange self.old self.new page key (Some value.now)) }
        ensures few { OnOk result (GrowsBy 1 self.old self.new) }
    {
        if self.count >= MAX_PAGES {
            return Err(AllocError);
        }
        let page = self.count as u32;
        let mut entries = PageOf::empty();
        match entries.put(key, value) {
            Ok(()) => {}
            Err(_) => unreachable!(),
        }
        self.take(page, entries)?;
        Ok(page)
    }
}
