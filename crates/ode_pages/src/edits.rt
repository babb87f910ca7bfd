//! Edits of a page's bytes, in place.
ghost use Rattle.std.specs.Prelude.{◌≡◌, ◌+◌, ◌-◌, ◌≤◌, ◌++◌, length, take, drop, replicate, None, Some};
ghost use Rattle.ode_value.specs.declared.key.Key.{Key as RecordKey};
ghost use Rattle.ode_keep.specs.Entries.{Entries, changed};
ghost use Rattle.ode_pages.specs.Pages.{IsPage, entry_need, room_under};
ghost use Rattle.ode_pages.specs.Parts.{IsEntryPlace};

use crate::layout::{COUNT_LEN, MAX_SIZE};
use crate::place::Place;
use ode_host::put_over;
use ode_keep::{ROW_HEAD, row_head};
use ode_value::Key;

// Copies the bytes from start to end to another place, over what is there. They go by way of others, in two copies of a
// block: one byte at a time they would take ten times as long.
fn copy_over(bytes: &mut [u8], start: usize, end: usize, to: usize)
    requires order { start ≤ end }
    requires within { end ≤ length bytes.old }
    requires room { to + (end - start) ≤ length bytes.old }
    requires small { length bytes.old ≤ MAX_SIZE }
    ensures { bytes.new ≡ take to bytes.old
        ++ (take (end - start) (drop start bytes.old) ++ drop (to + (end - start)) bytes.old) }
{
    let length = end - start;
    let mut block = [0; MAX_SIZE];
    put_over(&mut block, 0, &bytes[start..end]);
    put_over(bytes, to, &block[..length]);
}

// Takes out the bytes from start to end: those behind move down, and zeros follow.
fn take_out(bytes: &mut [u8], start: usize, end: usize)
    requires order { start ≤ end }
    requires within { end ≤ length bytes.old }
    requires small { length bytes.old ≤ MAX_SIZE }
    ensures { bytes.new ≡ take start bytes.old ++ (drop end bytes.old ++ replicate (end - start) 0) }
{
    let length = bytes.len();
    let kept = start + (length - end);
    copy_over(bytes, end, length, start);
    bytes[kept..].fill(0);
}

// Puts other bytes in between: those behind move up, and as many fall off at the end.
fn put_in(bytes: &mut [u8], at: usize, with: &[u8])
    requires room { at + length with.now ≤ length bytes.old }
    requires small { length bytes.old ≤ MAX_SIZE }
    ensures { bytes.new ≡ take at bytes.old
        ++ (with.now ++ take (length bytes.old - (at + length with.now)) (drop at bytes.old)) }
{
    let last = bytes.len() - with.len();
    copy_over(bytes, at, last, at + with.len());
    put_over(bytes, at, with);
}

/// Puts an entry in the place of the one with its key. Behind it so many entries are in the page.
pub(crate) fn put_entry(bytes: &mut [u8], place: Place, key: Key, value: &[u8], count: u16)
    requires order { place.start ≤ place.end }
    requires head { COUNT_LEN ≤ place.start }
    requires within { place.end ≤ length bytes.old }
    requires room { place.start + entry_need value.now ≤ length bytes.old }
    requires small { length bytes.old ≤ MAX_SIZE }
    ensures { (entries : Entries) → IsPage (length bytes.old) entries bytes.old → IsEntryPlace entries key place
        → entry_need value.now ≤ room_under (length bytes.old) entries key
        → count ≡ length (changed entries key (Some value.now))
        → IsPage (length bytes.old) (changed entries key (Some value.now)) bytes.new }
{
    take_out(bytes, place.start, place.end);
    put_in(bytes, place.start, value);
    put_in(bytes, place.start, &row_head(key, value.len() as u16));
    put_over(bytes, 0, &count.to_be_bytes());
}

/// Takes the entry out of its place, if there is one. Behind it so many entries are in the page.
pub(crate) fn take_entry(bytes: &mut [u8], place: Place, count: u16)
    requires order { place.start ≤ place.end }
    requires head { COUNT_LEN ≤ place.start }
    requires within { place.end ≤ length bytes.old }
    requires small { length bytes.old ≤ MAX_SIZE }
    ensures { (entries : Entries) (key : RecordKey) → IsPage (length bytes.old) entries bytes.old
        → IsEntryPlace entries key place → count ≡ length (changed entries key None)
        → IsPage (length bytes.old) (changed entries key None) bytes.new }
{
    take_out(bytes, place.start, place.end);
    put_over(bytes, 0, &count.to_be_bytes());
}
