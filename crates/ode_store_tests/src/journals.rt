//! Frames that are added to a journal and read again.
ghost use Rattle.std.specs.Prelude.{◌≡◌, IfOk};

use crate::disk::{failing, smooth, stopping};
use crate::equal::equal;
use ode_host::{MemHost, Torn};
use ode_journal::{AppendError, Block, Frame, Journal, JournalError, next_frame, scan};
use ode_value::List;
use std::alloc::{AllocError, Global};
use std::process::Abort;
use std::test::Fail;

// Where the journals of these tests start.
const START: u64 = 100;

const END: u64 = 4096;

type Appended = Result<(), AppendError>;

// A journal with its last gate, and whether its frames are the expected ones.
type Scanned = Result<(Journal, bool), JournalError>;

// So many bytes before the journal, and then these.
fn image(alloc: Global, bytes: &[u8]) -> Result<Vec<u8>, AllocError> {
    let mut image = vec![in alloc; b'x'; START as usize]?;
    image.extend_from_slice(bytes)?;
    Ok(image)
}

fn disk(alloc: Global, bytes: &[u8]) -> Result<MemHost, AllocError> {
    smooth(alloc, &image(alloc, bytes)?)
}

fn disk_failing(alloc: Global, bytes: &[u8], call: u64) -> Result<MemHost, AllocError> {
    failing(alloc, &image(alloc, bytes)?, &[call])
}

// A full frame, whose payload comes in one piece.
fn full(alloc: Global, payload: &[u8]) -> Result<Frame, AllocError>
    ensures { IfOk result (λ frame. frame.spare ≡ 0) }
{
    let Ok(length) = u32::try_from(payload.len()) else {
        return Err(AllocError);
    };
    let mut frame = Frame::reserve(alloc, length)?;
    frame.push(payload);
    Ok(frame)
}

// Without memory for the frame it answers as no append does.
fn append(alloc: Global, host: &mut MemHost, journal: &mut Journal, payload: &[u8]) -> Appended {
    match full(alloc, payload) {
        Ok(frame) => journal.append(host, &frame),
        Err(_) => Err(AppendError::AreaFull { need: 0, room: 0 }),
    }
}

fn are(frames: &List<List<u8>>, expected: &[&[u8]]) -> bool {
    if frames.len() != expected.len() {
        return false;
    }
    for (frame, bytes) in frames.as_slice().iter().zip(expected) {
        if frame.as_slice() != *bytes {
            return false;
        }
    }
    true
}

// The image behind the journal's start.
fn tail(host: &MemHost) -> &[u8] {
    host.image().get(START as usize..).unwrap_or_default()
}

fn scanned(alloc: Global, host: &mut MemHost, from: u64, end: u64, expected: &[&[u8]]) -> Scanned {
    let (journal, frames) = scan(alloc, host, from, end)?;
    Ok((journal, are(&frames, expected)))
}

fn has_frame(alloc: Global, host: &mut MemHost, at: u64, end: u64) -> Result<bool, JournalError> {
    let mut ahead = Block::new(alloc)?;
    Ok(next_frame(alloc, host, &mut ahead, at, end)?.is_some())
}

// A payload that is appended, and what stands then behind the start: the bytes, the place of the last gate, and the frames.
struct Row {
    payload: &'static [u8],
    bytes: &'static [u8],
    at: u64,
    frames: &'static [&'static [u8]],
}

fn appends(rt: &impl Abort, alloc: Global, host: &mut MemHost, journal: &mut Journal, row: &Row) {
    let done = append(alloc, host, journal, row.payload);
    equal(
        rt,
        &(done, journal.at, tail(host)),
        &(Ok(()), row.at, row.bytes),
    );
    let found = scanned(alloc, host, START, journal.end, row.frames);
    equal(rt, &found, &Ok((*journal, true)));
}

// Appends to the journal of these bytes, which starts with its last gate.
fn each_appends(
    rt: &impl Abort,
    alloc: Global,
    bytes: &[u8],
    end: u64,
    rows: &[Row],
) -> Result<(), Fail> {
    let mut host = disk(alloc, bytes)?;
    let mut journal = Journal { at: START, end };
    for row in rows {
        appends(rt, alloc, &mut host, &mut journal, row);
    }
    Ok(())
}

const APPENDED: &[Row] = &[
    Row {
        payload: b"abc",
        bytes: b"\xA5\0\0\0\x03abc\0",
        at: 108,
        frames: &[b"abc"],
    },
    Row {
        payload: b"",
        bytes: b"\xA5\0\0\0\x03abc\xA5\0\0\0\0\0",
        at: 113,
        frames: &[b"abc", b""],
    },
];

#[test]
fn an_append_writes_its_frame_and_its_gate(rt: HostRuntime) -> Result<(), Fail> {
    each_appends(&rt, rt.alloc(), b"\0", END, APPENDED)
}

// Appends a frame in two pieces: how many bytes are missing behind the first, what is answered, and whether these bytes stand
// then behind the start.
fn append_pieces(alloc: Global, bytes: &[u8]) -> Result<(u32, Appended, bool), AllocError> {
    let mut frame = Frame::reserve(alloc, 3)?;
    frame.push(b"ab");
    let spare = frame.spare();
    frame.push(b"c");
    let mut host = disk(alloc, b"\0")?;
    let mut journal = Journal {
        at: START,
        end: END,
    };
    let done = journal.append(&mut host, &frame);
    Ok((spare, done, tail(&host) == bytes))
}

#[test]
fn a_payload_may_come_in_pieces(rt: HostRuntime) {
    let found = append_pieces(rt.alloc(), b"\xA5\0\0\0\x03abc\0");
    equal(&rt, &found, &Ok((1, Ok(()), true)));
}

const OVER: &[Row] = &[Row {
    payload: b"abc",
    bytes: b"\xA5\0\0\0\x03abc\0 and more",
    at: 108,
    frames: &[b"abc"],
}];

// Bytes of an earlier frame may stand behind the last gate.
#[test]
fn what_stands_behind_the_last_gate_stays_or_is_written_over(rt: HostRuntime) -> Result<(), Fail> {
    each_appends(&rt, rt.alloc(), b"\x7Fold data and more", END, OVER)
}

const WAYS: &[Torn] = &[
    Torn::Nothing,
    Torn::Whole,
    Torn::Front(1),
    Torn::Front(7),
    Torn::Fill(0),
    Torn::Fill(0xA5),
];

// The number of a call of an append, and whether a stop there leaves the new frame, in each of the ways.
const THERE: &[(u64, [bool; 6])] = &[
    (0, [false, false, false, false, false, false]),
    (1, [false, false, false, false, false, false]),
    (2, [false, true, true, true, false, true]),
    (3, [false, true, true, true, false, true]),
    (4, [true, true, true, true, true, true]),
];

// Appends a second frame with a stop at a call: whether it is answered, and what is found behind the stop.
fn append_stopped(
    alloc: Global,
    at: u64,
    torn: Torn,
    expected: &[&[u8]],
) -> Result<(bool, Scanned), AllocError> {
    let image = image(alloc, b"\xA5\0\0\0\x01a\0")?;
    let mut host = stopping(alloc, &image, at, torn)?;
    let mut journal = Journal { at: 106, end: END };
    let answer = append(alloc, &mut host, &mut journal, b"abc");
    let mut after = host.after_stop()?;
    let found = scanned(alloc, &mut after, START, END, expected);
    Ok((answer.is_ok(), found))
}

const FIRST: &[&[u8]] = &[b"a"];

const BOTH: &[&[u8]] = &[b"a", b"abc"];

// An append makes four calls.
fn stop_leaves(rt: &impl Abort, alloc: Global, at: u64, torn: Torn, is_there: bool) {
    let (frames, gate) = if is_there { (BOTH, 114) } else { (FIRST, 106) };
    let found = append_stopped(alloc, at, torn, frames);
    let left = Journal { at: gate, end: END };
    equal(
        rt,
        &(at, torn, found),
        &(at, torn, Ok((at == 4, Ok((left, true))))),
    );
}

fn each_stop_leaves(rt: &impl Abort, alloc: Global, at: u64, there: &[bool]) {
    for (torn, is_there) in WAYS.iter().zip(there) {
        stop_leaves(rt, alloc, at, *torn, *is_there);
    }
}

#[test]
fn a_stop_leaves_the_new_frame_whole_or_not_at_all(rt: HostRuntime) {
    for (at, there) in THERE {
        each_stop_leaves(&rt, rt.alloc(), *at, there);
    }
}

// Appends a frame on a disk of which a call fails: what is answered, and where the last gate stands.
fn append_failing(alloc: Global, number: u64) -> Result<(Appended, u64), AllocError> {
    let mut host = disk_failing(alloc, b"\0", number)?;
    let mut journal = Journal {
        at: START,
        end: END,
    };
    let answer = append(alloc, &mut host, &mut journal, b"abc");
    Ok((answer, journal.at))
}

#[test]
fn a_call_that_fails_ends_an_append(rt: HostRuntime) {
    for number in 0..4 {
        let found = append_failing(rt.alloc(), number);
        equal(&rt, &found, &Ok((Err(AppendError::DiskFault), START)));
    }
}

// Appends a frame of nine bytes, up to an end: what is answered, and whether the disk is as it was.
fn append_up_to(alloc: Global, end: u64) -> Result<(Appended, bool), AllocError> {
    let mut host = disk(alloc, b"\0")?;
    let mut journal = Journal { at: START, end };
    let answer = append(alloc, &mut host, &mut journal, b"abc");
    Ok((answer, tail(&host) == b"\0".as_slice()))
}

// The end of a region, and how many bytes there are up to it.
const ROOMS: &[(u64, u64)] = &[(108, 8), (101, 1), (100, 0), (50, 0)];

const FILLED: &[Row] = &[Row {
    payload: b"abc",
    bytes: b"\xA5\0\0\0\x03abc\0",
    at: 108,
    frames: &[b"abc"],
}];

fn is_refused(rt: &impl Abort, alloc: Global, end: u64, room: u64) {
    let full = AppendError::AreaFull { need: 9, room };
    let found = append_up_to(alloc, end);
    equal(rt, &(end, found), &(end, Ok((Err(full), true))));
}

#[test]
fn an_append_may_fill_its_region_and_no_more(rt: HostRuntime) -> Result<(), Fail> {
    for (end, room) in ROOMS {
        is_refused(&rt, rt.alloc(), *end, *room);
    }
    each_appends(&rt, rt.alloc(), b"\0", 109, FILLED)
}

// What a scan finds from a place, and whether there is a frame.
fn read_from(
    alloc: Global,
    bytes: &[u8],
    at: u64,
    end: u64,
) -> Result<(Scanned, Result<bool, JournalError>), AllocError> {
    let mut host = disk(alloc, bytes)?;
    let found = scanned(alloc, &mut host, at, end, &[]);
    Ok((found, has_frame(alloc, &mut host, at, end)))
}

const SHUT: &[u8] = &[0, 1, 0x5A, 0x7F, 0xA4, 0xA6, 0xFF];

const NONE: Journal = Journal {
    at: START,
    end: END,
};

#[test]
fn each_byte_but_one_shuts_a_gate(rt: HostRuntime) {
    for gate in SHUT {
        let found = read_from(rt.alloc(), &[*gate, 0, 0, 0, 0, 0], START, END);
        equal(
            &rt,
            &(*gate, found),
            &(*gate, Ok((Ok((NONE, true)), Ok(false)))),
        );
    }
}

// The bytes from the start on, the end of the region, and where the journal is broken.
const BROKEN: &[(&[u8], u64, u64)] = &[
    (b"", END, 100),
    (b"\0", 100, 100),
    (b"\0", 50, 100),
    (b"\xA5", END, 100),
    (b"\xA5\0\0\0", END, 100),
    (b"\xA5\0\0\0\0", 104, 100),
    (b"\xA5\0\0\0\x03ab", END, 100),
    (b"\xA5\0\0\0\x03abc\0", 107, 100),
    (b"\xA5\xFF\xFF\xFF\xFFabc\0", END, 100),
    (b"\xA5\0\0\0\x03abc", END, 108),
    (b"\xA5\0\0\0\x03abc\0", 108, 108),
    (b"\xA5\0\0\0\x01a\xA5\0\0\0\x09b\0", END, 106),
    (b"\xA5\0\0\0\x01a\xA5\0\0\0\x01b", END, 112),
];

fn scanned_up_to(alloc: Global, bytes: &[u8], end: u64) -> Result<Scanned, AllocError> {
    let mut host = disk(alloc, bytes)?;
    Ok(scanned(alloc, &mut host, START, end, &[]))
}

#[test]
fn a_journal_is_broken_at_the_first_gate_that_is_wrong(rt: HostRuntime) {
    for (bytes, end, at) in BROKEN {
        let found = scanned_up_to(rt.alloc(), bytes, *end);
        let bad = JournalError::BadJournal { at: *at };
        equal(&rt, &(*end, found), &(*end, Ok(Err(bad))));
    }
}

const PAST: &[u64] = &[101, END, u64::MAX - 1, u64::MAX];

#[test]
fn a_place_past_all_places_is_refused(rt: HostRuntime) {
    for at in PAST {
        let bad = JournalError::BadJournal { at: *at };
        let found = read_from(rt.alloc(), b"\0", *at, u64::MAX);
        equal(&rt, &found, &Ok((Err(bad), Err(bad))));
    }
}

fn scan_failing(alloc: Global, number: u64) -> Result<Scanned, AllocError> {
    let mut host = disk_failing(alloc, b"\xA5\0\0\0\x03abc\0", number)?;
    Ok(scanned(alloc, &mut host, START, END, &[]))
}

// One read finds all that there is, and one the end.
#[test]
fn a_read_that_fails_ends_a_scan(rt: HostRuntime) {
    for number in 0..2 {
        let found = scan_failing(rt.alloc(), number);
        equal(&rt, &found, &Ok(Err(JournalError::DiskFault)));
    }
}
