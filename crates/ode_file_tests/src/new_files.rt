//! The file that `init` makes.
use crate::equal::{equal, holds};
use ode_host::Status;
use ode_trials::amiss::AMISS;
use ode_trials::images::put_at;
use ode_trials::trial::{MEMORY, Trial, failing, init, smooth};
use std::alloc::Global;
use std::process::Abort;

// The first slot: its gate, the name, format 2, layout 2 and generation 1; the pages stand at 33,558,528, and there is none;
// the journal begins at 4,096, and its region ends at 16,781,312.
const SLOT: &[u8] = b"\xA5ODEBASE1\0\0\0\x02\0\0\0\x02\0\0\0\0\0\0\0\x01\
    \0\0\0\0\x02\0\x10\0\0\0\0\0\0\0\0\0\
    \0\0\0\0\0\0\x10\0\0\0\0\0\x01\0\x10\0";

// The front of the journal's frame: an open gate, the length 76, one image, of page 0, of 66 bytes, which has one record.
const FRAME: &[u8] = b"\xA5\0\0\0\x4C\0\0\0\x01\0\0\0\0\0\x42\0\x01";

// The counters' record: its key, the length 45, three numbers that are 1, and 21 zeros.
const COUNTERS: &[u8] = b"\x01\0\0\0\0\0\0\0\0\0\0\0\0\0\0\0\0\0\x2D\
    \0\0\0\0\0\0\0\x01\0\0\0\0\0\0\0\x01\0\0\0\0\0\0\0\x01\
    \0\0\0\0\0\0\0\0\0\0\0\0\0\0\0\0\0\0\0\0\0";

// So many bytes of a kind.
fn fill(rt: &impl Abort, alloc: Global, byte: u8, count: usize) -> Vec<u8> {
    vec![in alloc; byte; count].expect(rt, MEMORY)
}

// How long a new file is.
const LENGTH: usize = 4178;

// What a new file of at least so many bytes has at which places.
const PIECES: [(usize, &[u8]); 5] = [
    (0, SLOT),
    (2048, b"\0"),
    (4096, FRAME),
    (4113, COUNTERS),
    (4177, b"\0"),
];

// A new file of so many bytes, in which those that nothing says of are `rest`.
fn expected(rt: &impl Abort, alloc: Global, rest: u8, length: usize) -> Vec<u8> {
    let mut file = fill(rt, alloc, rest, length);
    for (at, bytes) in &PIECES {
        put_at(&mut file, *at, bytes);
    }
    file
}

// `init` on a file of these bytes makes a new one of the same length.
fn is_made(rt: &impl Abort, alloc: Global, old: &[u8], length: usize, name: &str) {
    let made = init(alloc, old, smooth(alloc)).expect(rt, MEMORY);
    made.is(alloc, "ready\n", Status::Ok, name)
        .expect(rt, AMISS);
    let rest = old.first().copied().unwrap_or(0);
    made.leaves(alloc, &expected(rt, alloc, rest, length), name)
        .expect(rt, AMISS);
}

#[test]
fn a_new_file_has_its_header_its_counters_and_shut_gates(rt: HostRuntime) {
    is_made(&rt, rt.alloc(), &[], LENGTH, "init");
}

#[test]
fn other_bytes_of_a_short_file_stay(rt: HostRuntime) {
    for length in &[LENGTH, LENGTH + 1, 5000, 8192usize] {
        let old = fill(&rt, rt.alloc(), b'x', *length);
        is_made(&rt, rt.alloc(), &old, *length, "init of a short file");
    }
}

// `init` leaves this file as it is.
fn stays(rt: &impl Abort, alloc: Global, old: &[u8], name: &str) {
    let made = init(alloc, old, smooth(alloc)).expect(rt, MEMORY);
    made.is(alloc, "file exists\n", Status::BadFile, name)
        .expect(rt, AMISS);
    made.leaves(alloc, old, name).expect(rt, AMISS);
}

#[test]
fn a_long_file_is_not_made_anew(rt: HostRuntime) {
    let long = fill(&rt, rt.alloc(), 0, 8193);
    stays(&rt, rt.alloc(), &long, "init of a long file");
}

// A file that ends with an open gate at this place stays.
fn open_stays(rt: &impl Abort, alloc: Global, place: usize) {
    let mut old = fill(rt, alloc, 0, place);
    old.push(0xA5).expect(rt, MEMORY);
    stays(rt, alloc, &old, "init of a file with an open slot");
}

#[test]
fn a_file_with_an_open_slot_is_not_made_anew(rt: HostRuntime) {
    open_stays(&rt, rt.alloc(), 0);
    open_stays(&rt, rt.alloc(), 2048);
}

// Whether the disk call that was to fail is one of `init`'s, whose failing is told then.
fn is_cut(rt: &impl Abort, alloc: Global, made: &Trial) -> bool {
    let is_cut = made.status != Status::Ok;
    if is_cut {
        made.is(alloc, "", Status::DiskFault, "a cut init")
            .expect(rt, AMISS);
    } else {
        made.is(alloc, "ready\n", Status::Ok, "init")
            .expect(rt, AMISS);
    }
    is_cut
}

#[test]
fn a_fault_in_init_is_told(rt: HostRuntime) {
    let mut cut = 0u32;
    for number in 0..32 {
        let plan = failing(rt.alloc(), &[number], &[]).expect(&rt, MEMORY);
        let made = init(rt.alloc(), &[], plan).expect(&rt, MEMORY);
        if is_cut(&rt, rt.alloc(), &made) {
            cut = cut.saturating_add(1);
        }
    }
    holds(&rt, cut >= 6, "six disk calls of init");
}

// Whether the print that was to fail is one of `init`'s, whose failing is told then.
fn is_unprinted(rt: &impl Abort, alloc: Global, made: &Trial) -> bool {
    let is_cut = made.status != Status::Ok;
    if is_cut {
        made.is(alloc, "", Status::WriteFault, "an init that prints nothing")
            .expect(rt, AMISS);
    }
    is_cut
}

// How many prints of `init` fail. The file is there all the same.
fn unprinted(rt: &impl Abort, alloc: Global, file: &[u8]) -> u32 {
    let mut cut = 0u32;
    for number in 0..32 {
        let plan = failing(alloc, &[], &[number]).expect(rt, MEMORY);
        let made = init(alloc, &[], plan).expect(rt, MEMORY);
        made.leaves(alloc, file, "an init whose print may fail")
            .expect(rt, AMISS);
        if is_unprinted(rt, alloc, &made) {
            cut = cut.saturating_add(1);
        }
    }
    cut
}

#[test]
fn a_file_whose_ready_is_not_printed_is_whole(rt: HostRuntime) {
    let file = expected(&rt, rt.alloc(), 0, LENGTH);
    let cut = unprinted(&rt, rt.alloc(), &file);
    equal(&rt, cut, 1, "the prints of init");
}
