//! A commit changes the value under a key, in pages in hand.
ghost use Rattle.std.specs.Prelude.{◌≡◌, ◌≤◌, [], List, ℕ, IfOk, IsErrOf, None, OnOk, Some, length};
ghost use Rattle.std.specs.BTreeMap.{is_at};
ghost use Rattle.std.specs.Map.{lookup};
ghost use Rattle.std.specs.Option.{IfNone, IfSome, option_copied};
ghost use Rattle.ode_gate.specs.Headers.{IsOfPages};
ghost use Rattle.ode_host.specs.Causes.{RoseIf};
ghost use Rattle.ode_host.specs.Host.{Looks};
ghost use Rattle.ode_keep.specs.Entries.{Entries, value_under};
ghost use Rattle.ode_keep.specs.Growth.{bytes_of};
ghost use Rattle.ode_keep.specs.Keeping.{OnDamaged, OnTooLarge};
ghost use Rattle.ode_value.specs.Keys.{key_cmp};
ghost use Rattle.ode_paging.specs.Gathering.{gathered};
ghost use Rattle.ode_paging.specs.Hands.{GrowsBy, HasInHand, MakesChange, StaysSame, entries_of};
ghost use Rattle.ode_paging.specs.Indexing.{indexed};
ghost use Rattle.ode_paging.specs.Making.{IsMade};
ghost use Rattle.ode_paging.specs.Replacing.{ArePages, page_changed};

use crate::hand::Hand;
use crate::images::Images;
use crate::rooms::Rooms;
use ode_gate::Header;
use ode_host::Host;
use ode_keep::{KEY_LEN, KeepError, MAX_VALUE, ROW_HEAD};
use ode_value::{Key, List};

/// What a commit reads pages of, and a hint where there is room.
#[derive(Clone, Copy)]
pub struct Source<'a> {
    /// The header of the file.
    pub header: &'a Header,
    /// The images that pages have in the journal.
    pub images: &'a Images,
    /// Which pages may have room.
    pub rooms: &'a Rooms,
}

/// A change that was made: the page to which the key leads then, if to any, and the bytes that the old record counted and
/// that the new one counts.
#[derive(Clone, Copy)]
pub(crate) struct Change {
    pub(crate) page: Option<u32>,
    pub(crate) taken: u64,
    pub(crate) put: u64,
}

impl Hand {
    // The bytes that the record under a key counts, if one stands in this page in hand.
    fn counted(&self, page: u32, key: Key) -> u64
        ensures { (es : Entries) → Some es ≡ entries_of self.now.pages.entries page → result ≡ bytes_of (value_under es key) }
    {
        let Some(entries) = self.pages.get(&page) else {
            return 0;
        };
        let Some(value) = entries.find(key) else {
            return 0;
        };
        KEY_LEN as u64 + value.len() as u64
    }

    // Takes the value under a key out of the page to which the key leads, if it leads to one. Answers the
    // bytes that the record counted.
    fn take_out<H: Host>(
        &mut self,
        host: &mut H,
        source: Source<'_>,
        led: Option<u32>,
        key: Key,
    ) -> Result<u64, KeepError>
        requires { IsOfPages source.header.now }
        ensures out { OnOk result ((pages now : List Entries) → ArePages now
            → led ≡ lookup (is_at (key_cmp key)) (indexed 0 [] now)
            → HasInHand (H.view host.old) source.entry.header.now source.entry.images.now self.old pages now
            → IsMade (H.view host.new) source.entry.header.now source.entry.images.now self.new pages now key None None) }
        ensures counted { IfOk result (λ taken. (pages now : List Entries) → ArePages now
            → led ≡ lookup (is_at (key_cmp key)) (indexed 0 [] now)
            → HasInHand (H.view host.old) source.entry.header.now source.entry.images.now self.old pages now
            → taken ≡ bytes_of (value_under (gathered [] now) key)) }
        ensures damaged { OnDamaged result ((pages now : List Entries) → ArePages now
            → led ≡ lookup (is_at (key_cmp key)) (indexed 0 [] now)
            → HasInHand (H.view host.old) source.entry.header.now source.entry.images.now self.old pages now → ⊥) }
        ensures too_large { OnTooLarge result (λ _. ⊥) }
        ensures few { OnOk result (GrowsBy 1 self.old self.new) }
        ensures looks { Looks (H.view host.old) (H.view host.new) }
        ensures cause { RoseIf (IsErrOf result KeepError.DiskFault) (H.view host.old).disk_faults (H.view host.new).disk_faults }
    {
        let Some(page) = led else {
            return Ok(0);
        };
        self.bring(host, source.header, source.images, page)?;
        let taken = self.counted(page, key);
        self.remove_from(page, key);
        Ok(taken)
    }

    // Puts a value in the place of the one under its key, where the key leads to a page that has the room. Else it takes that
    // one out, if there is one. Answers the bytes that the old record counted, and the page into which the value is put.
    fn exchange<H: Host>(
        &mut self,
        host: &mut H,
        source: Source<'_>,
        led: Option<u32>,
        key: Key,
        value: &[u8],
    ) -> Result<(u64, Option<u32>), KeepError>
        requires { IsOfPages source.header.now }
        ensures put { IfOk result (λ x. IfSome x.1 (λ page. (pages now : List Entries) → ArePages now
            → led ≡ lookup (is_at (key_cmp key)) (indexed 0 [] now)
            → HasInHand (H.view host.old) source.entry.header.now source.entry.images.now self.old pages now
            → IsMade (H.view host.new) source.entry.header.now source.entry.images.now self.new pages now key (Some value.now) (Some page))) }
        ensures out { IfOk result (λ x. IfNone x.1 ((pages now : List Entries) → ArePages now
            → led ≡ lookup (is_at (key_cmp key)) (indexed 0 [] now)
            → HasInHand (H.view host.old) source.entry.header.now source.entry.images.now self.old pages now
            → IsMade (H.view host.new) source.entry.header.now source.entry.images.now self.new pages now key None None)) }
        ensures counted { IfOk result (λ x. (pages now : List Entries) → ArePages now
            → led ≡ lookup (is_at (key_cmp key)) (indexed 0 [] now)
            → HasInHand (H.view host.old) source.entry.header.now source.entry.images.now self.old pages now
            → x.0 ≡ bytes_of (value_under (gathered [] now) key)) }
        ensures damaged { OnDamaged result ((pages now : List Entries) → ArePages now
            → led ≡ lookup (is_at (key_cmp key)) (indexed 0 [] now)
            → HasInHand (H.view host.old) source.entry.header.now source.entry.images.now self.old pages now → ⊥) }
        ensures too_large { OnTooLarge result (λ _. ⊥) }
        ensures few { OnOk result (GrowsBy 1 self.old self.new) }
        ensures looks { Looks (H.view host.old) (H.view host.new) }
        ensures cause { RoseIf (IsErrOf result KeepError.DiskFault) (H.view host.old).disk_faults (H.view host.new).disk_faults }
    {
        let Some(page) = led else {
            return Ok((0, None));
        };
        self.bring(host, source.header, source.images, page)?;
        let taken = self.counted(page, key);
        if self.exchange_in(page, key, value) {
            return Ok((taken, Some(page)));
        }
        Ok((taken, None))
    }

    // Puts a value into a page, if one is named, and this is in hand and has the room. Answers which.
    fn put_in_named(&mut self, page: Option<u32>, key: Key, value: &[u8]) -> Option<u32>
        ensures put { IfSome result (λ page. MakesChange self.old self.new page key (Some value.now)) }
        ensures other { IfNone result (StaysSame self.old self.new) }
        ensures few { GrowsBy 0 self.old self.new }
    {
        match page {
            Some(page) if self.put_in(page, key, value) => Some(page),
            _ => None,
        }
    }

    // Puts a value into a page that is said to have room, if it has. Answers which.
    fn put_by_hint<H: Host>(
        &mut self,
        host: &mut H,
        source: Source<'_>,
        key: Key,
        value: &[u8],
    ) -> Result<Option<u32>, KeepError>
        requires pages { IsOfPages source.header.now }
        requires short { length value.now ≤ MAX_VALUE }
        ensures put { IfOk result (λ found. IfSome found (λ page. (pages now : List Entries)
            → HasInHand (H.view host.old) source.entry.header.now source.entry.images.now self.old pages now
            → (page ≤ length now)
            × HasInHand (H.view host.new) source.entry.header.now source.entry.images.now self.new pages (page_changed now page key (Some value.now)))) }
        ensures other { IfOk result (λ found. IfNone found ((pages now : List Entries)
            → HasInHand (H.view host.old) source.entry.header.now source.entry.images.now self.old pages now
            → HasInHand (H.view host.new) source.entry.header.now source.entry.images.now self.new pages now)) }
        ensures damaged { OnDamaged result ((pages now : List Entries)
            → HasInHand (H.view host.old) source.entry.header.now source.entry.images.now self.old pages now → ⊥) }
        ensures too_large { OnTooLarge result (λ _. ⊥) }
        ensures kept { IfOk result (λ found. IfNone found (GrowsBy 0 self.old self.new)) }
        ensures few { OnOk result (GrowsBy 1 self.old self.new) }
        ensures looks { Looks (H.view host.old) (H.view host.new) }
        ensures cause { RoseIf (IsErrOf result KeepError.DiskFault) (H.view host.old).disk_faults (H.view host.new).disk_faults }
    {
        let Some(page) = source.rooms.page_for((ROW_HEAD + value.len()) as u32) else {
            return Ok(None);
        };
        if !self.put_if_room(host, source.header, source.images, page, key, value)? {
            return Ok(None);
        }
        Ok(Some(page))
    }

    // Puts a value into a page that is said to have room, or else into a new one. Answers which.
    fn put_elsewhere<H: Host>(
        &mut self,
        host: &mut H,
        source: Source<'_>,
        key: Key,
        value: &[u8],
    ) -> Result<u32, KeepError>
        requires pages { IsOfPages source.header.now }
        requires short { length value.now ≤ MAX_VALUE }
        ensures put { IfOk result (λ page. (pages now : List Entries)
            → HasInHand (H.view host.old) source.entry.header.now source.entry.images.now self.old pages now
            → (page ≤ length now)
            × HasInHand (H.view host.new) source.entry.header.now source.entry.images.now self.new pages (page_changed now page key (Some value.now))) }
        ensures damaged { OnDamaged result ((pages now : List Entries)
            → HasInHand (H.view host.old) source.entry.header.now source.entry.images.now self.old pages now → ⊥) }
        ensures too_large { OnTooLarge result (λ _. ⊥) }
        ensures few { OnOk result (GrowsBy 1 self.old self.new) }
        ensures looks { Looks (H.view host.old) (H.view host.new) }
        ensures cause { RoseIf (IsErrOf result KeepError.DiskFault) (H.view host.old).disk_faults (H.view host.new).disk_faults }
    {
        if let Some(page) = self.put_by_hint(host, source, key, value)? {
            self.last = Some(page);
            return Ok(page);
        }
        let page = self.put_in_new(key, value)?;
        self.last = Some(page);
        Ok(page)
    }

    // Puts a value into the page into which one was put last, or some other. Answers which.
    fn put_somewhere<H: Host>(
        &mut self,
        host: &mut H,
        source: Source<'_>,
        key: Key,
        value: &[u8],
    ) -> Result<u32, KeepError>
        requires pages { IsOfPages source.header.now }
        requires short { length value.now ≤ MAX_VALUE }
        ensures put { IfOk result (λ page. (pages now : List Entries)
            → HasInHand (H.view host.old) source.entry.header.now source.entry.images.now self.old pages now
            → (page ≤ length now)
            × HasInHand (H.view host.new) source.entry.header.now source.entry.images.now self.new pages (page_changed now page key (Some value.now))) }
        ensures damaged { OnDamaged result ((pages now : List Entries)
            → HasInHand (H.view host.old) source.entry.header.now source.entry.images.now self.old pages now → ⊥) }
        ensures too_large { OnTooLarge result (λ _. ⊥) }
        ensures few { OnOk result (GrowsBy 1 self.old self.new) }
        ensures looks { Looks (H.view host.old) (H.view host.new) }
        ensures cause { RoseIf (IsErrOf result KeepError.DiskFault) (H.view host.old).disk_faults (H.view host.new).disk_faults }
    {
        if let Some(page) = self.put_in_named(self.last, key, value) {
            return Ok(page);
        }
        self.put_elsewhere(host, source, key, value)
    }

    /// Changes the value under a key, which leads to this page, if to any. Answers to which it leads then, and
    /// what the old record counted and the new one counts.
    pub(crate) fn change<H: Host>(
        &mut self,
        host: &mut H,
        source: Source<'_>,
        led: Option<u32>,
        key: Key,
        value: Option<&List<u8>>,
    ) -> Result<Change, KeepError>
        requires pages { IsOfPages source.header.now }
        requires short { IfSome (option_copied value) (λ v. length v ≤ MAX_VALUE) }
        ensures made { IfOk result (λ change. (pages now : List Entries) → ArePages now
            → led ≡ lookup (is_at (key_cmp key)) (indexed 0 [] now)
            → HasInHand (H.view host.old) source.entry.header.now source.entry.images.now self.old pages now
            → IsMade (H.view host.new) source.entry.header.now source.entry.images.now self.new pages now key (option_copied value.entry) change.page) }
        ensures counted { IfOk result (λ change. (pages now : List Entries) → ArePages now
            → led ≡ lookup (is_at (key_cmp key)) (indexed 0 [] now)
            → HasInHand (H.view host.old) source.entry.header.now source.entry.images.now self.old pages now
            → change.taken ≡ bytes_of (value_under (gathered [] now) key)) }
        ensures counts { IfOk result (λ change. change.put ≡ bytes_of (option_copied value.entry)) }
        ensures damaged { OnDamaged result ((pages now : List Entries) → ArePages now
            → led ≡ lookup (is_at (key_cmp key)) (indexed 0 [] now)
            → HasInHand (H.view host.old) source.entry.header.now source.entry.images.now self.old pages now → ⊥) }
        ensures too_large { OnTooLarge result (λ _. ⊥) }
        ensures few { OnOk result (GrowsBy 2 self.old self.new) }
        ensures looks { Looks (H.view host.old) (H.view host.new) }
        ensures cause { RoseIf (IsErrOf result KeepError.DiskFault) (H.view host.old).disk_faults (H.view host.new).disk_faults }
    {
        let Some(value) = value else {
            let taken = self.take_out(host, source, led, key)?;
            return Ok(Change {
                page: None,
                taken,
                put: 0,
            });
        };
        let put = KEY_LEN as u64 + value.len() as u64;
        let bytes = value.as_slice();
        let (taken, own) = self.exchange(host, source, led, key, bytes)?;
        if let Some(page) = own {
            return Ok(Change {
                page: Some(page),
                taken,
                put,
            });
        }
        let page = self.put_somewhere(host, source, key, bytes)?;
        Ok(Change {
            page: Some(page),
            taken,
            put,
        })
    }
}
