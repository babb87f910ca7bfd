//! Pages in memory: those that were asked for last.
ghost use Rattle.std.specs.Prelude.{◌≡◌, ◌≤◌, [], ◌∷◌, cond, length, take, nat_eq, None, IfOk, IsSome, OnErr, OnOk};
ghost use Rattle.std.specs.List.{AllByRecursion};
ghost use Rattle.std.specs.Map.{keys_of, lookup, remove_entry};
ghost use Rattle.std.specs.Option.{option_copied};
ghost use Rattle.lru.specs.LruCache.{promoted};
ghost use Rattle.ode_keep.specs.Entries.{Entries};
ghost use Rattle.ode_paging.specs.Standing.{image_of};

use lru::LruCache;
use ode_paging::{Images, Page};
use std::alloc::{AllocError, Global};
use std::collections::BTreeMap;
use std::num::NonZeroUsize;

/// Some pages by their numbers, the most recently used first.
#[derive(Drop)]
pub(crate) struct Cache {
    pub(crate) pages: LruCache<u32, Page>,
    // Whether there is room for any.
    pub(crate) is_open: bool,
    ghost within: { length pages.entries ≤ cond is_open pages.cap 0 },
}

impl Cache {
    ghost use Rattle.std.specs.Prelude.{List};
    ghost use Rattle.ode_pagemap.specs.Cached.{AreAmong, most_of, used, without};

    /// A cache of no pages, with room for so many.
    pub(crate) fn new(alloc: Global, most: u32) -> Result<Cache, AllocError>
        ensures empty { IfOk result (λ cache. cache.pages.entries ≡ []) }
        ensures most { IfOk result (λ cache. most_of cache ≡ most) }
    {
        match NonZeroUsize::new(most as usize) {
            Some(most) => Ok(Cache {
                pages: LruCache::sparse(alloc, most)?,
                is_open: true,
            }),
            None => Ok(Cache {
                pages: LruCache::sparse(alloc, NonZeroUsize::MIN)?,
                is_open: false,
            }),
        }
    }

    /// The page of this number, if it is held.
    pub(crate) fn get(&self, number: u32) -> Option<&Page>
        ensures { option_copied result ≡ lookup (nat_eq number) self.now.pages.entries }
    {
        self.pages.peek(&number)
    }

    /// A page that is held was used.
    pub(crate) fn touch(&mut self, number: u32)
        requires { IsSome (lookup (nat_eq number) self.old.pages.entries) }
        ensures used { keys_of self.new.pages.entries ≡ used (most_of self.old) number (keys_of self.old.pages.entries) }
        ensures promoted { self.new.pages.entries ≡ promoted (nat_eq number) self.old.pages.entries }
        ensures most { most_of self.new ≡ most_of self.old }
    {
        // The numbers differ, as this call tells.
        let _ = self.pages.len();
        self.pages.promote(&number);
    }

    /// Takes a page in that isn't held. Where there is no memory nothing changes.
    pub(crate) fn take_in(&mut self, number: u32, page: Page) -> Result<(), AllocError>
        requires { lookup (nat_eq number) self.old.pages.entries ≡ None }
        ensures used { OnOk result (keys_of self.new.pages.entries ≡ used (most_of self.old) number (keys_of self.old.pages.entries)) }
        ensures taken { OnOk result (self.new.pages.entries ≡ take (most_of self.old) ((number, page) ∷ self.old.pages.entries)) }
        ensures most { most_of self.new ≡ most_of self.old }
        ensures err { OnErr result (self.new ≡ self.old) }
    {
        if self.is_open {
            // There is room for one at least, as this call tells.
            let _ = self.pages.len();
            self.pages.put(number, page)?;
        }
        Ok(())
    }

    /// A page isn't held any more, if it was.
    pub(crate) fn forget(&mut self, number: u32)
        ensures gone { lookup (nat_eq number) self.new.pages.entries ≡ None }
        ensures rest { self.new.pages.entries ≡ remove_entry (nat_eq number) self.old.pages.entries }
        ensures most { most_of self.new ≡ most_of self.old }
    {
        // The numbers differ, as this call tells.
        let _ = self.pages.len();
        let _ = self.pages.pop(&number);
    }

    /// These pages are held from then on, those with the highest numbers in front, in place of what was held under their
    /// numbers. Where there is no memory some aren't.
    pub(crate) fn take_all(&mut self, pages: BTreeMap<u32, Page>)
        ensures among { (all : List Entries) → AreAmong all self.old.pages.entries → AreAmong all pages.entries
            → AreAmong all self.new.pages.entries }
        ensures most { most_of self.new ≡ most_of self.old }
    {
        for (number, page) in pages.into_iter() {
            self.forget(number);
            let _ = self.take_in(number, page);
        }
    }

    /// No page that has one of these images is held any more.
    pub(crate) fn forget_all(&mut self, images: &Images)
        ensures gone { AllByRecursion (λ e. image_of images.now e.0 ≡ None) self.new.pages.entries }
        ensures rest { self.new.pages.entries ≡ without images.now self.old.pages.entries }
        ensures most { most_of self.new ≡ most_of self.old }
    {
        for (page, _used) in images.iter() {
            self.forget(*page);
        }
    }
}
