//! Which pages have room: a hint, which may be wrong.

use std::alloc::{AllocError, Global};
use std::collections::BTreeMap;

/// Pages by their free bytes, and the free bytes by page, as they were when they were told. No more is promised.
#[derive(Drop)]
pub struct Rooms {
    by_room: BTreeMap<(u32, u32), ()>,
    by_page: BTreeMap<u32, u32>,
}

impl Rooms {
    /// Nothing is known of any page.
    pub fn new(alloc: Global) -> Rooms {
        Rooms {
            by_room: BTreeMap::new(alloc),
            by_page: BTreeMap::new(alloc),
        }
    }

    /// A page that may have so many free bytes, or more.
    pub fn page_for(&self, need: u32) -> Option<u32> {
        let ((_, page), ()) = self.by_room.range((need, 0)..).next()?;
        Some(*page)
    }

    /// A page has so many free bytes now. Where there is no memory it may be forgotten.
    pub fn tell(&mut self, page: u32, room: u32) -> Result<(), AllocError> {
        if let Some(old) = self.by_page.insert(page, room)? {
            self.by_room.remove(&(old, page));
        }
        self.by_room.insert((room, page), ())?;
        Ok(())
    }

    /// Pages have so many free bytes now. Where there is no memory some may be forgotten.
    pub fn tell_all(&mut self, rooms: &[(u32, u32)]) {
        for (page, room) in rooms {
            let _ = self.tell(*page, *room);
        }
    }
}
