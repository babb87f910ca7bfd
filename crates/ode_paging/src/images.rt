//! Images in memory, at most one a page.
ghost use Rattle.std.specs.Prelude.{◌≡◌, ◌≤◌, ◌^◌, [], length, IsSome, OnErr, OnOk};
ghost use Rattle.std.specs.BTreeMap.{insert_entry, is_at};
ghost use Rattle.std.specs.Map.{lookup, remove_entry};
ghost use Rattle.std.specs.Option.{option_copied};
ghost use Rattle.std.specs.Ordering.{nat_cmp};
ghost use Rattle.ode_paging.specs.Images.{HasRisingPages};
ghost use Rattle.ode_paging.specs.Standing.{page_count};

use ode_value::List;
use std::alloc::{AllocError, Global};
use std::collections::BTreeMap;
use std::collections::btree_map::{IntoIter, Iter};
use std::marker::Model;

/// Images of pages, the last one of each. Contracts see them in rising order of their pages.
#[derive(Drop)]
pub struct Images {
    by_page: BTreeMap<u32, List<u8>>,
}

impl Model for Images {
    ghost use Rattle.std.specs.Prelude.{List};
    ghost use Rattle.ode_paging.specs.Images.{Image};

    ghost Value = { List Image };

    ghost view = { λ images. images.by_page.entries };
}

impl Images {
    /// No images.
    pub(crate) fn new(alloc: Global) -> Images
        ensures { result ≡ [] }
    {
        Images {
            by_page: BTreeMap::new(alloc),
        }
    }

    /// These bytes are the page's image from now on. The images stay as they were where there is no memory.
    pub fn put(&mut self, page: u32, used: List<u8>) -> Result<(), AllocError>
        ensures ok { OnOk result (self.new ≡ insert_entry nat_cmp self.old page used) }
        ensures err { OnErr result (self.new ≡ self.old) }
        ensures rising { HasRisingPages self.old }
    {
        self.by_page.insert(page, used)?;
        Ok(())
    }

    /// The image of a page, if there is one.
    pub fn get(&self, page: u32) -> Option<&List<u8>>
        ensures { option_copied result ≡ lookup (is_at (nat_cmp page)) self.now }
    {
        self.by_page.get(&page)
    }

    /// How many pages there are, where so many are in place.
    pub(crate) fn page_count(&self, in_place: u64) -> u64
        ensures exact { result ≡ page_count in_place self.now }
        ensures small { in_place ≤ 2 ^ 32 → result ≤ 2 ^ 32 }
    {
        let mut count = in_place;
        for (page, _used) in self.by_page.iter() {
            count = count.max(u64::from(*page) + 1);
        }
        count
    }

    /// The images, in rising order of their pages.
    pub fn iter(&self) -> Iter<'_, u32, List<u8>>
        ensures images { result ≡ self.now }
        ensures rising { HasRisingPages self.now }
    {
        self.by_page.iter()
    }

    /// How many they are.
    pub fn len(&self) -> usize
        ensures many { result ≡ length self.now }
        ensures rising { HasRisingPages self.now }
    {
        self.by_page.len()
    }

    /// These bytes are from now on the image of a page that has one. It takes no memory.
    pub fn put_again(&mut self, page: u32, used: List<u8>)
        requires { IsSome (lookup (is_at (nat_cmp page)) self.old) }
        ensures { self.new ≡ insert_entry nat_cmp self.old page used }
    {
        match self.by_page.insert(page, used) {
            Ok(_) => {}
            Err(_) => unreachable!(),
        }
    }

    /// A page has no image from now on.
    pub fn remove(&mut self, page: u32)
        ensures { self.new ≡ remove_entry (is_at (nat_cmp page)) self.old }
    {
        let _ = self.by_page.remove(&page);
    }

    /// The images, each of which leaves.
    pub fn into_iter(self) -> IntoIter<u32, List<u8>>
        ensures { result ≡ self }
    {
        self.by_page.into_iter()
    }
}
