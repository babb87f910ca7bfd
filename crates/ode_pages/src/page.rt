//! Pages.
ghost use Rattle.std.specs.Prelude.{◌≡◌, ◌+◌, ◌<◌, ◌≤◌, ◌↔◌, [], IfErr, IsSome, IsTrue, None, OnErr, OnOk, Some};
ghost use Rattle.std.specs.List.{slice_get};
ghost use Rattle.std.specs.Map.{keys_of};
ghost use Rattle.std.specs.Option.{IfNone, IfSome};
ghost use Rattle.ode_keep.specs.Entries.{Entries, changed, value_under};

use crate::edits::{put_entry, take_entry};
use crate::layout::{COUNT_LEN, MAX_SIZE, MIN_SIZE};
use crate::place::Place;
use crate::reader::{Reader, are_zeros, behind_entries};
use ode_host::take_u16;
use ode_keep::ROW_HEAD;
use ode_value::Key;
use std::cmp::Ordering;
use std::marker::Model;

/// An entry needs so many bytes, and there is only so much room for it.
#[derive(Clone, Copy, Debug, PartialEq, Eq)]
pub struct NoRoom {
    /// The bytes of the entry.
    pub need: usize,
    /// The bytes that are free to it, those of the old entry with its key among them.
    pub room: usize,
}

/// A page of so many bytes. Contracts see its entries, in rising order of their keys.
#[derive(Drop)]
pub struct PageOf<const N: usize> {
    bytes: [u8; N],
    // How many entries there are.
    count: u16,
    // Where they end.
    end: usize,
}

impl<const N: usize> Model for PageOf<N> {
    ghost use Rattle.std.specs.Prelude.{drop};
    ghost use Rattle.ode_keep.specs.Entries.{Entries};
    ghost use Rattle.ode_pages.specs.declared.layout.TheConstants.{COUNT_LEN};
    ghost use Rattle.ode_pages.specs.Holding.{HoldsPage};
    ghost use Rattle.ode_pages.specs.Readings.{entries_at};

    ghost Value = { Entries };

    ghost view = { λ page. entries_at page.count (drop COUNT_LEN page.bytes) };

    ghost invariant = { λ page. HoldsPage N (entries_at page.count (drop COUNT_LEN page.bytes)) page.bytes page.count page.end };
}

impl<const N: usize> PageOf<N> {
    ghost use Rattle.ode_pages.specs.Pages.{FitsPage, IsPage, entries_need, entry_need, room_in, room_under};
    ghost use Rattle.ode_pages.specs.Parts.{IsEntryPlace};

    /// A page without entries.
    pub fn empty() -> PageOf<N>
        requires least { MIN_SIZE ≤ N }
        requires most { N ≤ MAX_SIZE }
        ensures { result ≡ [] }
    {
        PageOf {
            bytes: [0; N],
            count: 0,
            end: COUNT_LEN,
        }
    }

    /// The page that the bytes are, if they are one.
    pub fn read(bytes: &[u8; N]) -> Option<PageOf<N>>
        requires least { MIN_SIZE ≤ N }
        requires most { N ≤ MAX_SIZE }
        ensures some { IfSome result (λ page. IsPage N page bytes.now) }
        ensures none { IfNone result ((entries : Entries) → IsPage N entries bytes.now → ⊥) }
    {
        let count = take_u16(bytes, 0)?;
        let all = &bytes[..];
        let rest = behind_entries(&all[COUNT_LEN..], count)?;
        if !are_zeros(rest) {
            return None;
        }
        Some(PageOf {
            bytes: *bytes,
            count,
            end: N - rest.len(),
        })
    }

    /// The entries, to be read.
    pub fn entries(&self) -> Reader<'_>
        ensures entries { result ≡ self.now }
        ensures fits { FitsPage N self.now }
        ensures small { N ≤ MAX_SIZE }
    {
        let all = &self.bytes[..];
        Reader {
            left: self.count,
            bytes: &all[COUNT_LEN..],
        }
    }

    // Where the entry with a key stands, or would stand.
    fn place(&self, key: Key) -> Place
        ensures { IsEntryPlace self.now key result }
    {
        let mut entries = self.entries();
        let mut start = COUNT_LEN;
        'entries: while let Some((other, value)) = entries.next() {
            let end = start + ROW_HEAD + value.len();
            match key.cmp(&other) {
                Ordering::Less => return Place::free(start),
                Ordering::Equal => {
                    return Place {
                        start,
                        end,
                        count: 1,
                    };
                }
                Ordering::Greater => start = end,
            }
        }
        Place::free(start)
    }

    /// The value under a key.
    pub fn find(&self, key: Key) -> Option<&[u8]>
        ensures some { IfSome result (λ value. value_under self.now key ≡ Some value.now) }
        ensures none { IfNone result (value_under self.now key ≡ None) }
    {
        let mut entries = self.entries();
        'entries: while let Some((other, value)) = entries.next() {
            if key.cmp(&other).is_eq() {
                return Some(value);
            }
        }
        None
    }

    /// The key of the entry at a place in order, from 0.
    pub fn key_at(&self, place: u16) -> Option<Key>
        ensures { result ≡ slice_get (keys_of self.now) place }
    {
        let mut entries = self.entries();
        'passed: for _passed in 0..place {
            entries.next()?;
        }
        let (key, _) = entries.next()?;
        Some(key)
    }

    /// How many bytes are free.
    pub fn room(&self) -> usize
        ensures room { result ≡ room_in N self.now }
        ensures exact { result + (COUNT_LEN + entries_need self.now) ≡ N }
    {
        N - self.end
    }

    /// This value stands under the key from now on. Where there is no room for its entry, though the old one with this
    /// key gave way, nothing changes.
    pub fn put(&mut self, key: Key, value: &[u8]) -> Result<(), NoRoom>
        ensures ok { OnOk result (self.new ≡ changed self.old key (Some value.now)) }
        ensures fits { OnOk result (entry_need value.now ≤ room_under N self.old key) }

        ensures refused { IfErr result (λ e. e.room < e.need) }
        ensures need { IfErr result (λ e. e.need ≡ entry_need value.now) }
        ensures room { IfErr result (λ e. e.room ≡ room_under N self.old key) }
        ensures err { OnErr result (self.new ≡ self.old) }
    {
        let place = self.place(key);
        let old = place.end - place.start;
        let need = ROW_HEAD + value.len();
        let room = self.room() + old;
        if room < need {
            return Err(NoRoom { need, room });
        }
        let count = self.count - place.count + 1;
        put_entry(&mut self.bytes, place, key, value, count);
        self.count = count;
        self.end = self.end - old + need;
        Ok(())
    }

    /// No value stands under the key from now on. Answers whether one did.
    pub fn remove(&mut self, key: Key) -> bool
        ensures removed { self.new ≡ changed self.old key None }
        ensures there { IsTrue result ↔ IsSome (value_under self.old key) }
    {
        let place = self.place(key);
        let count = self.count - place.count;
        take_entry(&mut self.bytes, place, count);
        self.count = count;
        self.end -= place.end - place.start;
        place.count != 0
    }

    /// The bytes of the page: those of its entries, and of no others.
    pub fn bytes(&self) -> &[u8; N]
        ensures { IsPage N self.now result.now }
    {
        &self.bytes
    }
}
