//! Images of files, made by hand.
use crate::trial::new_file;
use std::alloc::{AllocError, Global};

/// The numbers that come next.
#[derive(Clone, Copy)]
pub struct Numbers {
    pub object: u64,
    pub transaction: u64,
    pub entry: u64,
}

/// These numbers come next, and nothing was ever queued.
pub fn next_numbers(object: u64, transaction: u64) -> Numbers {
    Numbers {
        object,
        transaction,
        entry: 1,
    }
}

/// A record of a file. All objects are of the first class.
#[derive(Clone, Copy)]
pub enum Record<'a> {
    /// The counters.
    Counters(Numbers),
    /// The head of a class `P` with this text, of less than 256 bytes.
    Head(&'a str),
    /// The text.
    Text(&'a str),
    /// An object.
    Object(u64),
    /// Its first version, which holds 5.
    Version(u64),
    /// Its first version, whose value is as long as one may be: of 3,968 bytes, with texts of 2,048 and 1,908 blanks.
    Longest(u64),
    /// A queued entry of this number: for the first object, and the first trigger of the first class. It is of the first
    /// generation, and has no arguments.
    Entry(u64),
}

// In how many bytes a number stands, at most eight, and the number.
type Number = (usize, u64);

// Appends these numbers, each with its highest byte first.
fn put_numbers(to: &mut Vec<u8>, numbers: &[Number]) -> Result<(), AllocError> {
    for (width, number) in numbers {
        let bytes = number.to_be_bytes();
        let lower = bytes.get(8usize.saturating_sub(*width)..).unwrap_or(&[]);
        to.extend_from_slice(lower)?;
    }
    Ok(())
}

// A record's key, and the length of its value.
fn put_key(to: &mut Vec<u8>, kind: u64, a: u64, b: u64, length: u64) -> Result<(), AllocError> {
    put_numbers(to, &[(1, kind), (8, a), (8, b), (2, length)])
}

fn put_counters(to: &mut Vec<u8>, next: &Numbers) -> Result<(), AllocError> {
    put_key(to, 1, 0, 0, 45)?;
    let Numbers {
        object,
        transaction,
        entry,
    } = *next;
    put_numbers(
        to,
        &[
            (8, object),
            (8, transaction),
            (8, entry),
            (8, 0),
            (8, 0),
            (5, 0),
        ],
    )
}

fn put_text(to: &mut Vec<u8>, text: &str) -> Result<(), AllocError> {
    put_key(to, 3, 1, 0, text.len() as u64)?;
    to.extend_from_slice(text.as_bytes())
}

// A field that holds a text of so many blanks.
fn put_blanks(to: &mut Vec<u8>, count: u16) -> Result<(), AllocError> {
    put_numbers(to, &[(1, 2), (2, u64::from(count))])?;
    let length = to.len().saturating_add(usize::from(count));
    to.resize(length, b' ')
}

fn put_longest(to: &mut Vec<u8>, id: u64) -> Result<(), AllocError> {
    put_key(to, 7, id, 1, 3968)?;
    put_numbers(to, &[(4, 0), (2, 2)])?;
    put_blanks(to, 2048)?;
    put_blanks(to, 1908)
}

// The name of the class is one byte.
fn put_record(to: &mut Vec<u8>, record: &Record) -> Result<(), AllocError> {
    match record {
        Record::Counters(next) => put_counters(to, next),
        Record::Head(text) => {
            put_key(to, 2, 1, 0, 12)?;
            let name = u64::from(b'P');
            put_numbers(
                to,
                &[(1, 1), (1, name), (7, 0), (1, text.len() as u64), (2, 0)],
            )
        }
        Record::Text(text) => put_text(to, text),
        Record::Object(id) => {
            put_key(to, 6, *id, 0, 8)?;
            put_numbers(to, &[(4, 1), (4, 1)])
        }
        Record::Version(id) => {
            put_key(to, 7, *id, 1, 15)?;
            put_numbers(to, &[(4, 0), (2, 1), (1, 0), (8, 5)])
        }
        Record::Longest(id) => put_longest(to, *id),
        Record::Entry(number) => {
            put_key(to, 9, *number, 0, 16)?;
            put_numbers(to, &[(8, 1), (4, 1), (2, 0), (1, 1), (1, 0)])
        }
    }
}

// The records of a snapshot.
fn body_of(alloc: Global, records: &[Record]) -> Result<Vec<u8>, AllocError> {
    let mut body = Vec::new(alloc);
    for record in records {
        put_record(&mut body, record)?;
    }
    Ok(body)
}

// The front of the first slot of a file of two areas: its gate, the name, format 1, layout 1 and generation 1; the snapshot stands
// at 4,096.
const AREAS_FRONT: &[u8] = b"\xA5ODEBASE1\0\0\0\x01\0\0\0\x01\0\0\0\0\0\0\0\x01\0\0\0\0\0\0\x10\0";

// A file with this snapshot in its first area, and an empty journal. The numbers of the snapshot and of the areas stand behind
// the front of the slot.
fn file_of(alloc: Global, body: &[u8]) -> Result<Vec<u8>, AllocError> {
    let mut file = AREAS_FRONT.to_vec(alloc)?;
    let length = body.len() as u64;
    put_numbers(
        &mut file,
        &[
            (8, length),
            (8, length.saturating_add(4096)),
            (8, 33_558_528),
        ],
    )?;
    file.resize(4096, 0)?;
    file.extend_from_slice(body)?;
    file.push(0)?;
    Ok(file)
}

/// An empty database in two areas: its snapshot has the counters alone.
pub fn areas_file(alloc: Global) -> Result<Vec<u8>, AllocError> {
    let counters = Record::Counters(next_numbers(1, 1));
    file_of(alloc, &body_of(alloc, &[counters])?)
}

// The number in the four bytes at a place.
fn number_at(image: &[u8], at: usize) -> usize {
    let mut number = 0usize;
    for byte in image.get(at..at.saturating_add(4)).unwrap_or(&[]) {
        number = number
            .saturating_mul(256)
            .saturating_add(usize::from(*byte));
    }
    number
}

// Where the payload of the last frame of a journal begins and ends, which begins at this gate.
fn last_payload(image: &[u8], gate: usize) -> (usize, usize) {
    let mut found = (gate, gate);
    let mut at = gate;
    for _ in 0..image.len() {
        if image.get(at).copied() == Some(0xA5) {
            let begins = at.saturating_add(5);
            at = begins.saturating_add(number_at(image, at.saturating_add(1)));
            found = (begins, at);
        }
    }
    found
}

// How many bytes of a payload of one page stand before the page's records.
const PAGE_HEAD: usize = 12;

/// A file of two areas whose snapshot has the records of a file of pages, all of which stand in the page of its last frame.
pub fn in_areas(alloc: Global, image: &[u8]) -> Result<Vec<u8>, AllocError> {
    let (begins, ends) = last_payload(image, 4096);
    let records = image
        .get(begins.saturating_add(PAGE_HEAD)..ends)
        .unwrap_or(&[]);
    file_of(alloc, records)
}

// The text of the first script's class.
const CLASS: &str = "class P { int n; }";

/// A file whose snapshot has the first script's class, one object of it, and these counters. Its journal is empty.
pub fn file_with(alloc: Global, next: Numbers) -> Result<Vec<u8>, AllocError> {
    let records = [
        Record::Counters(next),
        Record::Head(CLASS),
        Record::Text(CLASS),
        Record::Object(1),
        Record::Version(1),
    ];
    file_of(alloc, &body_of(alloc, &records)?)
}

/// A file whose snapshot has what the first script leaves.
pub fn first_file(alloc: Global) -> Result<Vec<u8>, AllocError> {
    file_with(alloc, next_numbers(2, 4))
}

/// A file whose snapshot has a class `P` with this text.
pub fn class_file(alloc: Global, text: &str) -> Result<Vec<u8>, AllocError> {
    let counters = Record::Counters(next_numbers(1, 2));
    let body = body_of(alloc, &[counters, Record::Head(text), Record::Text(text)])?;
    file_of(alloc, &body)
}

/// Where the number of the format stands in the first slot, as far as it isn't 0.
pub const FORMAT: usize = 12;

/// A new file of pages that says the first format.
pub fn first_format(alloc: Global) -> Result<Vec<u8>, AllocError> {
    let file = new_file(alloc)?;
    patched(alloc, &file, FORMAT, &[1])
}

// A class of two texts.
const TEXTS: &str = "class P { text a; text b; }";

/// A file whose snapshot has a class of two texts, and so many of its longest objects, behind one transaction.
pub fn filled(alloc: Global, objects: u64) -> Result<Vec<u8>, AllocError> {
    let counters = Record::Counters(next_numbers(objects.saturating_add(1), 2));
    let mut body = body_of(alloc, &[counters, Record::Head(TEXTS), Record::Text(TEXTS)])?;
    for at in 0..objects {
        put_record(&mut body, &Record::Object(at + 1))?;
    }
    for at in 0..objects {
        put_record(&mut body, &Record::Longest(at + 1))?;
    }
    file_of(alloc, &body)
}

// The changes of a transaction that puts these records.
fn payload_of(alloc: Global, records: &[Record]) -> Result<Vec<u8>, AllocError> {
    let mut payload = Vec::new(alloc);
    put_numbers(&mut payload, &[(4, records.len() as u64)])?;
    for record in records {
        put_numbers(&mut payload, &[(1, 1)])?;
        put_record(&mut payload, record)?;
    }
    Ok(payload)
}

// The file with a frame more, which has this payload, behind the gate that ends the file.
fn put_payload(file: &mut Vec<u8>, payload: &[u8]) -> Result<(), AllocError> {
    let _ = file.pop();
    put_numbers(file, &[(1, 0xA5), (4, payload.len() as u64)])?;
    file.extend_from_slice(payload)?;
    put_numbers(file, &[(1, 0)])
}

// The file of two areas with a frame more, which puts these records.
fn put_frame(alloc: Global, file: &mut Vec<u8>, records: &[Record]) -> Result<(), AllocError> {
    let payload = payload_of(alloc, records)?;
    put_payload(file, &payload)
}

// The file of pages with a frame more, in which page 0 has these records and no others.
fn put_page(alloc: Global, file: &mut Vec<u8>, records: &[Record]) -> Result<(), AllocError> {
    let entries = body_of(alloc, records)?;
    let used = (entries.len() as u64).saturating_add(2);
    let count = records.len() as u64;
    let mut payload = Vec::new(alloc);
    put_numbers(&mut payload, &[(4, 1), (4, 0), (2, used), (2, count)])?;
    payload.extend_from_slice(&entries)?;
    put_payload(file, &payload)
}

/// The file with these counters and so many entries more, numbered from 1 on, each in a frame of its own.
pub fn put_queue(
    alloc: Global,
    file: &mut Vec<u8>,
    entries: u64,
    next: Numbers,
) -> Result<(), AllocError> {
    put_frame(alloc, file, &[Record::Counters(next)])?;
    for at in 0..entries {
        put_frame(alloc, file, &[Record::Entry(at + 1)])?;
    }
    Ok(())
}

/// An empty database of two areas with the three frames of the first script: one declares the class, one makes an object, and
/// one draws its number alone.
pub fn three_frames(alloc: Global) -> Result<Vec<u8>, AllocError> {
    let mut file = areas_file(alloc)?;
    let counters = Record::Counters(next_numbers(1, 2));
    let class = [counters, Record::Head(CLASS), Record::Text(CLASS)];
    put_frame(alloc, &mut file, &class)?;
    let counters = Record::Counters(next_numbers(2, 3));
    let object = [counters, Record::Object(1), Record::Version(1)];
    put_frame(alloc, &mut file, &object)?;
    let counters = Record::Counters(next_numbers(2, 4));
    put_frame(alloc, &mut file, &[counters])?;
    Ok(file)
}

// A page with these counters, the first script's class and its object.
fn put_object(alloc: Global, file: &mut Vec<u8>, next: Numbers) -> Result<(), AllocError> {
    let records = [
        Record::Counters(next),
        Record::Head(CLASS),
        Record::Text(CLASS),
        Record::Object(1),
        Record::Version(1),
    ];
    put_page(alloc, file, &records)
}

/// A new file of pages with the three frames of the first script, each of which has page 0 as it is then.
pub fn three_pages(alloc: Global) -> Result<Vec<u8>, AllocError> {
    let mut file = new_file(alloc)?;
    let counters = Record::Counters(next_numbers(1, 2));
    let class = [counters, Record::Head(CLASS), Record::Text(CLASS)];
    put_page(alloc, &mut file, &class)?;
    put_object(alloc, &mut file, next_numbers(2, 3))?;
    put_object(alloc, &mut file, next_numbers(2, 4))?;
    Ok(file)
}

/// The image with some bits of one byte turned.
pub fn turned(alloc: Global, image: &[u8], at: usize, bits: u8) -> Result<Vec<u8>, AllocError> {
    let mut image = image.to_vec(alloc)?;
    if let Some(byte) = image.get_mut(at) {
        *byte ^= bits;
    }
    Ok(image)
}

/// Writes these bytes at a place, as far as there are bytes.
pub fn put_at(image: &mut [u8], at: usize, bytes: &[u8]) {
    let mut next = at;
    for byte in bytes {
        if let Some(place) = image.get_mut(next) {
            *place = *byte;
        }
        next = next.saturating_add(1);
    }
}

/// The image with these bytes at a place.
pub fn patched(
    alloc: Global,
    image: &[u8],
    at: usize,
    bytes: &[u8],
) -> Result<Vec<u8>, AllocError> {
    let mut image = image.to_vec(alloc)?;
    put_at(&mut image, at, bytes);
    Ok(image)
}

/// As many bytes of the image's front, and none where it has fewer.
pub fn front(image: &[u8], length: usize) -> &[u8] {
    image.get(..length).unwrap_or(&[])
}

// A file of two areas and 5,000 bytes with this generation in slot 0. Slot 1 is shut.
fn one_slot(alloc: Global, generation: u8) -> Result<Vec<u8>, AllocError> {
    let mut file = areas_file(alloc)?;
    file.resize(5000, 0)?;
    put_at(&mut file, 24, &[generation]);
    Ok(file)
}

/// The same, and slot 1 is open with the other generation.
pub fn two_slots(alloc: Global, first: u8, second: u8) -> Result<Vec<u8>, AllocError> {
    let mut file = one_slot(alloc, first)?;
    let other = one_slot(alloc, second)?;
    put_at(&mut file, 2048, front(&other, 57));
    Ok(file)
}
