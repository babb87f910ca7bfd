//! Images of files of pages, made by hand.
use crate::disk::patch;
use std::alloc::{AllocError, Global};

/// The length of a new file.
pub const NEW_LEN: usize = 4178;

// The front of a slot: its gate, the name, format 1, and layout 2.
const SLOT_FRONT: &[u8; 17] = b"\xA5ODEBASE1\0\0\0\x01\0\0\0\x02";

// What is behind it in the first slot of a file whose journal is in region 0: generation 1; the pages stand at 33,558,528, and there
// is none; the region runs from 4,096 to 16,781,312.
const IN_REGION_0: &[u8; 40] = b"\0\0\0\0\0\0\0\x01\
    \0\0\0\0\x02\0\x10\0\0\0\0\0\0\0\0\0\
    \0\0\0\0\0\0\x10\0\0\0\0\0\x01\0\x10\0";

// The same where it is in region 1: generation 2, and one page is in place.
const IN_REGION_1: &[u8; 40] = b"\0\0\0\0\0\0\0\x02\
    \0\0\0\0\x02\0\x10\0\0\0\0\0\0\0\0\x01\
    \0\0\0\0\x01\0\x10\0\0\0\0\0\x02\0\x10\0";

// Where region 0 and region 1 start, and page 0.
const REGION_0: usize = 4096;

const REGION_1: usize = 16_781_312;

const PAGES_AT: usize = 33_558_528;

const PAGE: usize = 4096;

// Where the lower two bytes of the number of pages in place are in slot 0.
const PAGES_IN_PLACE: usize = 39;

// The first frame of a new file, up to the value of the counters' record: an open gate, the length 76; one image, of page 0, of 66
// bytes; one record, its key, and the length of its value, 45. A gate that is shut ends the frame.
const FRAME: &[u8; 36] = b"\xA5\0\0\0\x4C\
    \0\0\0\x01\0\0\0\0\0\x42\
    \0\x01\x01\0\0\0\0\0\0\0\0\0\0\0\0\0\0\0\0\0\x2D";

// So many zeros, and the slot of a file whose journal is in region 0.
fn with_slot(alloc: Global, length: usize) -> Result<Vec<u8>, AllocError> {
    let mut image = vec![in alloc; 0; length]?;
    patch(&mut image, 0, SLOT_FRONT);
    patch(&mut image, 17, IN_REGION_0);
    Ok(image)
}

/// A new file. The counters are zeros.
pub fn new_file(alloc: Global) -> Result<Vec<u8>, AllocError> {
    let mut image = with_slot(alloc, NEW_LEN)?;
    patch(&mut image, REGION_0, FRAME);
    Ok(image)
}

// A page of zeros gets one record: of the entry of this number, and with a value of so many zeros.
fn put_entry(image: &mut [u8], at: usize, number: u16, size: u16) {
    patch(image, at, &[0, 1, 9]);
    patch(image, at.saturating_add(9), &number.to_be_bytes());
    patch(image, at.saturating_add(19), &size.to_be_bytes());
}

// A file of so many pages in their places, whose journal is empty.
fn placed(alloc: Global, pages: u16) -> Result<Vec<u8>, AllocError> {
    let length = usize::from(pages) * PAGE + PAGES_AT;
    let mut image = with_slot(alloc, length)?;
    patch(&mut image, PAGES_IN_PLACE, &pages.to_be_bytes());
    Ok(image)
}

// The page of this number in its place, with one record.
fn put_placed(image: &mut [u8], number: u16, size: u16) {
    put_entry(image, usize::from(number) * PAGE + PAGES_AT, number, size);
}

/// A file of so many pages in their places: each has a value of as many zeros as its number says, under the entry of its number.
pub fn placed_file(alloc: Global, pages: u16) -> Result<Vec<u8>, AllocError> {
    let mut image = placed(alloc, pages)?;
    for number in 0..pages {
        put_placed(&mut image, number, number);
    }
    Ok(image)
}

/// The last page of such a file, and the size of the value in it.
pub const LAST: u16 = 4210;

pub const LAST_SIZE: u16 = 349;

/// A file whose records count 16,777,216 bytes, as many as each keeper takes: 4,210 of the longest values, which count 3,985, and one that
/// counts the 366 bytes that are left, each in a page of its own.
pub fn full_file(alloc: Global) -> Result<Vec<u8>, AllocError> {
    let mut image = placed(alloc, LAST + 1)?;
    for number in 0..LAST {
        put_placed(&mut image, number, 3968);
    }
    put_placed(&mut image, LAST, LAST_SIZE);
    Ok(image)
}

// The front of a frame with a full image of page 0: an open gate, the length 4,106, one image, of page 0, of 4,096 bytes.
const FULL_FRAME: &[u8; 15] = b"\xA5\0\0\x10\x0A\0\0\0\x01\0\0\0\0\x10\0";

// How many such frames fit a region, and how many bytes each takes. From the last gate on there are 225.
const FULL_FRAMES: usize = 4081;

const FULL_LEN: usize = 4111;

// A journal that has page 0 so often that no frame of more than 225 bytes fits it: a value of one zero, under the entry 1.
fn put_frames(image: &mut [u8], region: usize) {
    for number in 0..FULL_FRAMES {
        let at = (number * FULL_LEN).saturating_add(region);
        patch(image, at, FULL_FRAME);
        put_entry(image, at.saturating_add(15), 1, 1);
    }
}

/// A file whose journal in region 0 is full.
pub fn worn_file(alloc: Global) -> Result<Vec<u8>, AllocError> {
    let mut image = with_slot(alloc, FULL_FRAMES * FULL_LEN + REGION_0 + 1)?;
    put_frames(&mut image, REGION_0);
    Ok(image)
}

/// One whose journal in region 1 is, and whose header is in the other slot.
pub fn worn_again_file(alloc: Global) -> Result<Vec<u8>, AllocError> {
    let mut image = vec![in alloc; 0; PAGES_AT + PAGE]?;
    patch(&mut image, 2048, SLOT_FRONT);
    patch(&mut image, 2065, IN_REGION_1);
    put_frames(&mut image, REGION_1);
    put_placed(&mut image, 0, 7);
    Ok(image)
}
