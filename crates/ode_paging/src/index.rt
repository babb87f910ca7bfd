//! An index of keys: in which page each stands.
ghost use Rattle.std.specs.Prelude.{◌≡◌, ◌↔◌, [], None, Some, IfOk, IsTrue, OnOk};
ghost use Rattle.std.specs.BTreeMap.{insert_entry, is_at};
ghost use Rattle.std.specs.Bool.{OnFalse, OnTrue};
ghost use Rattle.std.specs.Map.{lookup};
ghost use Rattle.std.specs.Option.{IfSome};
ghost use Rattle.ode_value.specs.Keys.{key_cmp};
ghost use Rattle.ode_paging.specs.Gathering.{AreApart};
ghost use Rattle.ode_paging.specs.Indexing.{lead_from, leads_from, led, page_under};

use crate::pages::Page;
use ode_value::Key;
use std::alloc::{AllocError, Global};
use std::collections::BTreeMap;
use std::collections::btree_map::Range;
use std::marker::Model;

/// The number of each key's page. Contracts see both in rising order of the keys.
#[derive(Drop)]
pub struct Index {
    pub(crate) by_key: BTreeMap<Key, u32>,
}

impl Model for Index {
    ghost use Rattle.ode_paging.specs.Indexing.{Leads};

    ghost Value = { Leads };

    ghost view = { λ index. index.by_key.entries };
}

impl Index {
    /// No keys.
    pub(crate) fn new(alloc: Global) -> Index
        ensures { result ≡ [] }
    {
        Index {
            by_key: BTreeMap::new(alloc),
        }
    }

    // A key leads to this page from now on. Answers whether it is new.
    fn lead(&mut self, key: Key, page: u32) -> Result<bool, AllocError>
        ensures ok { OnOk result (self.new ≡ insert_entry key_cmp self.old key page) }
        ensures new { IfOk result (λ b. IsTrue b ↔ (lookup (is_at (key_cmp key)) self.old ≡ None)) }
    {
        let old = self.by_key.insert(key, page)?;
        Ok(old.is_none())
    }

    /// The keys of a page lead to it from now on. Answers whether all of them are new; where one isn't, those before it
    /// lead to the page.
    pub(crate) fn add(&mut self, page: &Page, number: u32) -> Result<bool, AllocError>
        ensures new { IfOk result (λ b. OnTrue b (AreApart page.now self.old × (self.new ≡ led number self.old page.now))) }
        ensures other { IfOk result (λ b. OnFalse b (AreApart page.now self.old → ⊥)) }
    {
        let mut entries = page.entries();
        'entries: while let Some((key, _)) = entries.next() {
            if !self.lead(key, number)? {
                return Ok(false);
            }
        }
        Ok(true)
    }

    /// The number of the page that a key leads to, if it leads to one.
    pub fn page(&self, key: Key) -> Option<u32>
        ensures { result ≡ page_under self.now key }
    {
        self.by_key.get(&key).copied()
    }

    /// The keys at or above another, each with the number of its page, in rising order.
    pub fn leads_from(&self, key: Key) -> Range<'_, Key, u32>
        ensures { result ≡ leads_from self.now key }
    {
        self.by_key.range(key..)
    }

    /// The least key at or above another, and the number of its page.
    pub fn lead_from(&self, key: Key) -> Option<(Key, u32)>
        ensures first { result ≡ lead_from self.now key }
        ensures leads { IfSome result (λ lead. page_under self.now lead.0 ≡ Some lead.1) }
    {
        let (least, page) = self.by_key.range(key..).next()?;
        Some((*least, *page))
    }
}
