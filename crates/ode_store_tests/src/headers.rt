//! The header of a file is read and changed.
use crate::disk::{TEARS, failing, patch, smooth, stopping};
use crate::equal::equal;
use ode_gate::{
    GateError, Header, SLOT_LEN, change_header, close_slot, fill_slot, open_slot, read_header,
};
use ode_host::{MemHost, Torn};
use std::alloc::{AllocError, Global};
use std::process::Abort;

// The first slot of a new file: its gate, the name, format 1, layout 1 and generation 1; the body stands at 4,096 and has
// 64 bytes; the journal begins at 4,160, and its area ends at 33,558,528.
const SLOT: &[u8; 57] = b"\xA5ODEBASE1\0\0\0\x01\0\0\0\x01\0\0\0\0\0\0\0\x01\
    \0\0\0\0\0\0\x10\0\0\0\0\0\0\0\0\x40\
    \0\0\0\0\0\0\x10\x40\0\0\0\0\x02\0\x10\0";

// Where the second slot stands.
const SECOND: usize = 2048;

// What a new file's slot says, in this slot and with this generation.
fn header(slot: u8, generation: u64) -> Header {
    Header {
        format: 1,
        layout: 1,
        generation,
        body_at: 4096,
        body_len: 64,
        journal_at: 4160,
        journal_end: 33_558_528,
        slot,
    }
}

// A header of pages in the last format, whose journal is in this region.
fn of_pages(slot: u8, region: u64, pages: u64) -> Header {
    Header {
        format: 2,
        layout: 2,
        generation: 2,
        body_at: 33_558_528,
        body_len: pages,
        journal_at: if region == 0 { 4096 } else { 16_781_312 },
        journal_end: if region == 0 { 16_781_312 } else { 33_558_528 },
        slot,
    }
}

// 5,000 bytes with two open slots of generations 1 and 2, and these bytes at these places.
fn two_slots(alloc: Global, bytes: &[(usize, u8)]) -> Result<Vec<u8>, AllocError> {
    let mut image = vec![in alloc; b'.'; 5000]?;
    patch(&mut image, 0, SLOT);
    patch(&mut image, SECOND, SLOT);
    patch(&mut image, SECOND + 24, &[2]);
    for (at, byte) in bytes {
        patch(&mut image, *at, &[*byte]);
    }
    Ok(image)
}

// A disk of two slots of which the calls of these numbers fail.
fn slots_failing(
    alloc: Global,
    bytes: &[(usize, u8)],
    calls: &[u64],
) -> Result<MemHost, AllocError> {
    failing(alloc, &two_slots(alloc, bytes)?, calls)
}

// Whether the bytes behind the slots are as they were.
fn keeps_rest(host: &MemHost) -> bool {
    let rest = host.image().get(4096..).unwrap_or_default();
    for byte in rest {
        if *byte != b'.' {
            return false;
        }
    }
    rest.len() == 904
}

type Read = Result<Header, GateError>;

type Done = Result<(), GateError>;

// Reads the header in a buffer that is full of other bytes.
fn read(host: &mut MemHost) -> Read {
    let mut buffer = [0xA5; SLOT_LEN];
    read_header(host, &mut buffer)
}

// Changes to a header of slot 0 or 1.
fn change(host: &mut MemHost, h: &Header) -> Done {
    if h.slot > 1 {
        return Err(GateError::NoDatabase);
    }
    let mut buffer = [0xA5; SLOT_LEN];
    change_header(host, h, &mut buffer)
}

fn read_image(alloc: Global, image: &[u8]) -> Result<Read, AllocError> {
    let mut host = smooth(alloc, image)?;
    Ok(read(&mut host))
}

#[test]
fn an_empty_image_holds_no_database(rt: HostRuntime) {
    let none = Err(GateError::NoDatabase);
    equal(&rt, &read_image(rt.alloc(), &[]), &Ok(none));
}

#[test]
fn the_header_of_a_new_file_is_read(rt: HostRuntime) {
    equal(&rt, &read_image(rt.alloc(), SLOT), &Ok(Ok(header(0, 1))));
}

const NONE: Result<u64, GateError> = Err(GateError::NoDatabase);

const BAD: Result<u64, GateError> = Err(GateError::BadHeader { at: 0 });

const BAD_SECOND: Result<u64, GateError> = Err(GateError::BadHeader { at: 2048 });

const NEWER: Result<u64, GateError> = Err(GateError::NewerFormat { found: 3 });

fn generation(read: Read) -> Result<u64, GateError> {
    match read {
        Ok(h) => Ok(h.generation),
        Err(error) => Err(error),
    }
}

// How many bytes of a slot are there, a format, and what is read.
type Cut = (usize, u8, Result<u64, GateError>);

fn cut(alloc: Global, count: usize, format: u8) -> Result<Cut, AllocError> {
    let mut image = SLOT.get(..count).unwrap_or_default().to_vec(alloc)?;
    patch(&mut image, 12, &[format]);
    Ok((count, format, generation(read_image(alloc, &image)?)))
}

const CUTS: &[Cut] = &[
    (0, 1, NONE),
    (1, 1, BAD),
    (13, 1, BAD),
    (56, 1, BAD),
    (57, 1, Ok(1)),
    (57, 2, BAD),
    (12, 3, BAD),
    (13, 3, NEWER),
    (57, 3, NEWER),
];

#[test]
fn a_slot_that_is_cut_is_bad_or_newer(rt: HostRuntime) {
    for row in CUTS {
        equal(&rt, &cut(rt.alloc(), row.0, row.1), &Ok(*row));
    }
}

// Bytes over two open slots of generations 1 and 2, and the generation that counts.
type Slots = (&'static [(usize, u8)], Result<u64, GateError>);

fn slots(alloc: Global, bytes: &'static [(usize, u8)]) -> Result<Slots, AllocError> {
    let mut host = slots_failing(alloc, bytes, &[])?;
    Ok((bytes, generation(read(&mut host))))
}

fn each_reads(rt: &impl Abort, alloc: Global, cases: &[Slots]) {
    for row in cases {
        equal(rt, &slots(alloc, row.0), &Ok(*row));
    }
}

const TWO: &[Slots] = &[
    (&[], Ok(2)),
    (&[(0, 0)], Ok(2)),
    (&[(SECOND, 0)], Ok(1)),
    (&[(SECOND, 0xA4)], Ok(1)),
    (&[(0, 0), (SECOND, 0)], NONE),
    (&[(24, 3)], Ok(3)),
    (&[(24, 3), (SECOND + 24, 1)], Ok(1)),
    (&[(24, 1), (SECOND + 24, 3)], Ok(1)),
    (&[(24, 2)], BAD),
    (&[(SECOND + 24, 1)], BAD),
];

#[test]
fn of_two_slots_the_later_one_counts(rt: HostRuntime) {
    each_reads(&rt, rt.alloc(), TWO);
}

const NEW: &[Slots] = &[
    (&[(12, 3)], NEWER),
    (&[(SECOND + 12, 3)], NEWER),
    (
        &[(12, 4), (SECOND + 12, 3)],
        Err(GateError::NewerFormat { found: 4 }),
    ),
    (&[(1, b'o'), (SECOND + 12, 3)], NEWER),
    (&[(SECOND, 0), (SECOND + 12, 3)], Ok(1)),
];

#[test]
fn a_newer_format_comes_before_a_broken_rule(rt: HostRuntime) {
    each_reads(&rt, rt.alloc(), NEW);
}

const BROKEN: &[Slots] = &[
    (&[(1, b'o')], BAD),
    (&[(SECOND + 1, b'o')], BAD_SECOND),
    (&[(1, b'o'), (SECOND + 1, b'o')], BAD),
    (&[(0, 0), (1, b'o')], Ok(2)),
    (&[(12, 0)], BAD),
    (&[(12, 2)], BAD),
    (&[(16, 0)], BAD),
    (&[(16, 2)], BAD),
    (&[(16, 3)], BAD),
    (&[(24, 0)], BAD),
    (&[(24, 4)], BAD),
    (&[(SECOND + 24, 0)], BAD_SECOND),
    (&[(32, 1)], BAD),
    (&[(40, 0x41)], BAD),
    (&[(48, 0x41)], BAD),
    (&[(56, 1)], BAD),
];

#[test]
fn a_broken_rule_is_a_bad_header_at_its_slot(rt: HostRuntime) {
    each_reads(&rt, rt.alloc(), BROKEN);
}

// Writes a header into slot 0 or 1, whatever it says, and reads it.
fn write_and_read(host: &mut MemHost, h: &Header) -> Read {
    if h.slot > 1 {
        return Err(GateError::NoDatabase);
    }
    let mut buffer = [0; SLOT_LEN];
    fill_slot(host, h.slot, h, &mut buffer)?;
    open_slot(host, h.slot)?;
    read_header(host, &mut buffer)
}

fn written(alloc: Global, h: &Header) -> Result<Read, AllocError> {
    let mut host = smooth(alloc, &[])?;
    Ok(write_and_read(&mut host, h))
}

fn each_is_read_back(rt: &impl Abort, alloc: Global, headers: &[Header]) {
    for h in headers {
        equal(rt, &written(alloc, h), &Ok(Ok(*h)));
    }
}

#[test]
fn a_header_that_keeps_the_rules_is_read_back(rt: HostRuntime) {
    let last = Header {
        body_at: 33_558_528,
        body_len: 33_554_431,
        journal_at: 67_112_959,
        journal_end: 67_112_960,
        ..header(1, 3)
    };
    let headers = [
        header(0, 1),
        header(1, 3),
        last,
        of_pages(0, 0, 0),
        of_pages(1, 1, 4_294_967_295),
        Header {
            format: 1,
            ..of_pages(0, 1, 1)
        },
    ];
    each_is_read_back(&rt, rt.alloc(), &headers);
}

fn each_is_bad(rt: &impl Abort, alloc: Global, headers: &[Header]) {
    for h in headers {
        let at = u64::from(h.slot) * 2048;
        equal(
            rt,
            &written(alloc, h),
            &Ok(Err(GateError::BadHeader { at })),
        );
    }
}

#[test]
fn a_header_past_a_limit_is_bad(rt: HostRuntime) {
    let full = Header {
        body_len: 33_554_432,
        journal_at: 33_558_528,
        ..header(0, 1)
    };
    let between = Header {
        journal_end: 33_558_528,
        ..of_pages(1, 0, 1)
    };
    let newer = Header {
        format: 2,
        ..header(0, 1)
    };
    let headers = [full, between, newer, of_pages(1, 0, 4_294_967_296)];
    each_is_bad(&rt, rt.alloc(), &headers);
}

// Closes slot 0 or 1.
fn close(host: &mut MemHost, slot: u8) -> Done {
    if slot > 1 {
        return Err(GateError::NoDatabase);
    }
    close_slot(host, slot)
}

// A slot, the byte of its gate, and what its closing answers.
type Closed = (u8, u8, Done);

// On a disk of whose three calls the first reads the gate, and the others fail.
fn closed(alloc: Global, slot: u8, gate: u8) -> Result<Closed, AllocError> {
    let gates = [(usize::from(slot) * SECOND, gate)];
    let mut host = slots_failing(alloc, &gates, &[1, 2])?;
    Ok((slot, gate, close(&mut host, slot)))
}

const CLOSED: &[Closed] = &[
    (0, 0, Ok(())),
    (1, 0, Ok(())),
    (0, 0xA4, Ok(())),
    (1, 0xA4, Ok(())),
    (0, 0xA5, Err(GateError::DiskFault)),
    (1, 0xA5, Err(GateError::DiskFault)),
];

#[test]
fn a_closed_slot_is_not_written(rt: HostRuntime) {
    for row in CLOSED {
        equal(&rt, &closed(rt.alloc(), row.0, row.1), &Ok(*row));
    }
}

// Closes a slot that isn't there: what is answered, and whether the image stays.
fn closed_behind(alloc: Global) -> Result<(Done, bool), AllocError> {
    let mut host = failing(alloc, SLOT, &[1, 2])?;
    let done = close(&mut host, 1);
    Ok((done, host.image() == SLOT.as_slice()))
}

#[test]
fn a_slot_that_is_not_there_is_closed(rt: HostRuntime) {
    equal(&rt, &closed_behind(rt.alloc()), &Ok((Ok(()), true)));
}

// The bytes over two slots, and the change that may be made then: the old header's slot and generation, and the new one's.
struct Case {
    bytes: &'static [(usize, u8)],
    old: (u8, u64),
    new: (u8, u64),
    /// Whether the new header is one of pages.
    pages: bool,
}

const CHANGES: &[Case] = &[
    Case {
        bytes: &[(0, 0xA5), (SECOND, 0)],
        old: (0, 1),
        new: (1, 2),
        pages: false,
    },
    Case {
        bytes: &[(0, 0), (SECOND, 0xA5)],
        old: (1, 2),
        new: (0, 3),
        pages: true,
    },
    Case {
        bytes: &[(24, 3), (SECOND + 24, 2)],
        old: (0, 3),
        new: (1, 1),
        pages: false,
    },
    Case {
        bytes: &[(24, 1), (SECOND + 24, 2)],
        old: (1, 2),
        new: (0, 3),
        pages: false,
    },
];

impl Case {
    fn old(&self) -> Header {
        let (slot, generation) = self.old;
        header(slot, generation)
    }

    fn new(&self) -> Header {
        let (slot, generation) = self.new;
        if self.pages {
            Header {
                generation,
                ..of_pages(slot, 1, 9)
            }
        } else {
            header(slot, generation)
        }
    }
}

// Makes a change: what is read before it, what it answers, what is read behind it, and whether all behind the slots stays.
fn changed(
    alloc: Global,
    bytes: &[(usize, u8)],
    new: &Header,
) -> Result<(Read, Done, Read, bool), AllocError> {
    let mut host = slots_failing(alloc, bytes, &[])?;
    let before = read(&mut host);
    let done = change(&mut host, new);
    let after = read(&mut host);
    Ok((before, done, after, keeps_rest(&host)))
}

#[test]
fn a_change_leaves_the_new_header_and_all_behind_the_slots(rt: HostRuntime) {
    for row in CHANGES {
        let (old, new) = (row.old(), row.new());
        let found = changed(rt.alloc(), row.bytes, &new);
        equal(&rt, &found, &Ok((Ok(old), Ok(()), Ok(new), true)));
    }
}

// A change that stops at a call: what it answers, what is read behind it, and whether all behind the slots stays.
fn stopped(
    alloc: Global,
    row: &Case,
    at: u64,
    torn: Torn,
) -> Result<(Done, Read, bool), AllocError> {
    let image = two_slots(alloc, row.bytes)?;
    let mut host = stopping(alloc, &image, at, torn)?;
    let done = change(&mut host, &row.new());
    let mut left = host.after_stop()?;
    let counts = read(&mut left);
    Ok((done, counts, keeps_rest(&left)))
}

// Whether such a stop leaves the new header, or else the old one where the change isn't answered.
fn stops_well(alloc: Global, row: &Case, at: u64, torn: Torn) -> Result<bool, AllocError> {
    let (done, counts, stays) = stopped(alloc, row, at, torn)?;
    let is_new = counts == Ok(row.new());
    let is_old = done.is_err() && counts == Ok(row.old());
    Ok(stays && (is_new || is_old))
}

fn each_stops_well(rt: &impl Abort, alloc: Global, row: &Case, at: u64) {
    for torn in &TEARS {
        let found = stops_well(alloc, row, at, *torn);
        equal(rt, &(at, *torn, found), &(at, *torn, Ok(true)));
    }
}

// A change has seven calls at most: a read of the gate, and three writes with their syncs.
#[test]
fn a_stop_leaves_the_old_header_or_the_new(rt: HostRuntime) {
    for row in CHANGES {
        for at in 0..8 {
            each_stops_well(&rt, rt.alloc(), row, at);
        }
    }
}

// A change, and a read, on a disk of which the call of this number fails.
fn change_failing(alloc: Global, number: u64) -> Result<Done, AllocError> {
    let mut host = slots_failing(alloc, &[], &[number])?;
    Ok(change(&mut host, &header(0, 3)))
}

fn read_failing(alloc: Global, number: u64) -> Result<Read, AllocError> {
    let mut host = slots_failing(alloc, &[], &[number])?;
    Ok(read(&mut host))
}

#[test]
fn each_failing_call_of_a_change_is_a_disk_fault(rt: HostRuntime) {
    let fault = Err(GateError::DiskFault);
    for number in 0..9 {
        let expected = if number >= 7 { Ok(()) } else { fault };
        let done = change_failing(rt.alloc(), number);
        equal(&rt, &(number, done), &(number, Ok(expected)));
    }
}

#[test]
fn each_failing_read_is_a_disk_fault(rt: HostRuntime) {
    for number in 0..2 {
        let counts = read_failing(rt.alloc(), number);
        equal(&rt, &counts, &Ok(Err(GateError::DiskFault)));
    }
}
