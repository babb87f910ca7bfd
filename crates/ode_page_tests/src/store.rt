//! A disk and the keeper of what stands on it.
ghost use Rattle.std.specs.Prelude.{◌≤◌};
ghost use Rattle.ode_keep.specs.ShortValues.{HasShortValues};

use crate::batches::{key, putting, putting_many, removing};
use crate::disk::smooth;
use crate::images::new_file;
use crate::meter::Meter;
use ode_gate::{PAGES, SLOT_LEN, read_header};
use ode_host::{Host, take_u32};
use ode_keep::{Batch, Keep, KeepError, MAX_VALUE};
use ode_pagemap::PageMap;
use ode_value::Key;
use std::alloc::{AllocError, Global};
use std::ops::Range;

// The keeper of what stands on a disk, after a sync, with room for so many pages.
fn start(alloc: Global, host: &mut Meter, cache: u32) -> Option<PageMap> {
    if host.sync().is_err() {
        return None;
    }
    let Ok(header) = read_header(host, &mut [0; SLOT_LEN]) else {
        return None;
    };
    if header.layout != PAGES {
        return None;
    }
    PageMap::start(alloc, host, &header, cache).ok()
}

/// The header that counts: its slot, its generation, where its journal begins, and how many pages are in place.
pub type Counting = (u8, u64, u64, u64);

/// A disk and the keeper of what stands on it.
#[derive(Drop)]
pub struct Store {
    pub alloc: Global,
    pub keeper: PageMap,
    pub host: Meter,
}

impl Store {
    /// What stands on this disk, with room for so many pages in memory.
    pub fn on(alloc: Global, mut host: Meter, cache: u32) -> Result<Store, AllocError> {
        match start(alloc, &mut host, cache) {
            Some(keeper) => Ok(Store {
                alloc,
                keeper,
                host,
            }),
            None => Err(AllocError),
        }
    }

    /// An image on a disk on which no call fails.
    pub fn of(alloc: Global, image: &[u8], cache: u32) -> Result<Store, AllocError> {
        Store::on(alloc, smooth(alloc, image)?, cache)
    }

    /// A new file, on which no call fails.
    pub fn new(alloc: Global, cache: u32) -> Result<Store, AllocError> {
        Store::of(alloc, &new_file(alloc)?, cache)
    }

    /// Whether the same file is opened again.
    pub fn reopens(&mut self, cache: u32) -> bool {
        let Ok(store) = Store::of(self.alloc, self.host.image(), cache) else {
            return false;
        };
        *self = store;
        true
    }

    /// Whether the keeper may be used.
    pub fn is_live(&self) -> bool {
        Keep::<Meter>::live(&self.keeper)
    }

    /// Commits a batch, where the keeper may be used and the batch has few enough changes.
    pub fn commit(&mut self, batch: &Batch) -> Result<(), KeepError>
        requires { HasShortValues batch.now }
    {
        if !Keep::<Meter>::live(&self.keeper) || batch.len() > 1_024 {
            return Err(KeepError::DiskFault);
        }
        self.keeper.commit(&mut self.host, batch)
    }

    /// Puts a value of so many of a byte under the entry of this number.
    pub fn put(&mut self, a: u64, size: usize, byte: u8) -> Result<(), KeepError> {
        if size > MAX_VALUE {
            return Err(KeepError::DiskFault);
        }
        let batch = putting(self.alloc, key(9, a), size, byte)?;
        self.commit(&batch)
    }

    /// Removes what stands under the entry of this number.
    pub fn remove(&mut self, a: u64) -> Result<(), KeepError> {
        let batch = removing(self.alloc, key(9, a))?;
        self.commit(&batch)
    }

    /// Puts the longest values under the entries of these numbers.
    pub fn put_many(&mut self, numbers: Range<u64>, byte: u8) -> Result<(), KeepError> {
        let batch = putting_many(self.alloc, numbers, byte)?;
        self.commit(&batch)
    }

    /// The size of the value under the entry of this number, and its first byte.
    pub fn found(&mut self, a: u64) -> Result<Option<(usize, u8)>, KeepError> {
        if !Keep::<Meter>::live(&self.keeper) {
            return Err(KeepError::DiskFault);
        }
        let Some(value) = self.keeper.get(&mut self.host, key(9, a))? else {
            return Ok(None);
        };
        let bytes = value.as_slice();
        Ok(Some((bytes.len(), bytes.first().copied().unwrap_or(0))))
    }

    /// The least key at or above that of this kind and number.
    pub fn least_from(&mut self, kind: u8, a: u64) -> Result<Option<Key>, KeepError> {
        if !Keep::<Meter>::live(&self.keeper) {
            return Err(KeepError::DiskFault);
        }
        self.keeper.keys_from(&mut self.host, key(kind, a))
    }

    /// The first byte of the first value at or above a key, and whether a second row comes with it.
    pub fn rows_from(&mut self, kind: u8, a: u64) -> Result<(Option<u8>, bool), KeepError> {
        if !Keep::<Meter>::live(&self.keeper) {
            return Err(KeepError::DiskFault);
        }
        let rows = self.keeper.rows_from(&mut self.host, key(kind, a))?;
        let mut reader = rows.reader();
        let first = reader.next();
        let byte = first.and_then(|record| record.1.first().copied());
        Ok((byte, reader.next().is_some()))
    }

    /// How many records are entries.
    pub fn queued(&mut self) -> Result<u64, KeepError> {
        if !Keep::<Meter>::live(&self.keeper) {
            return Err(KeepError::DiskFault);
        }
        self.keeper.queued(&mut self.host)
    }

    /// The header that counts.
    pub fn counting(&mut self) -> Option<Counting> {
        match read_header(&mut self.host, &mut [0; SLOT_LEN]) {
            Ok(h) => Some((h.slot, h.generation, h.journal_at, h.body_len)),
            Err(_) => None,
        }
    }

    /// Of the frame whose gate stands here: how many images it has, and of which page the first one is.
    pub fn frame_at(&self, gate: usize) -> Option<(u32, u32)> {
        let image = self.host.image();
        let count = take_u32(image, gate.saturating_add(5))?;
        let page = take_u32(image, gate.saturating_add(9))?;
        Some((count, page))
    }
}
