//! What a stop leaves of a disk and an output.
use crate::equal::{equal, holds};
use ode_host::{Failed, Host, MemHost, Torn};
use ode_trials::trial::{MEMORY, smooth, stopping};
use std::alloc::Global;
use std::process::Abort;

// Seven calls, the first that fails ends them.
fn seven_calls(host: &mut MemHost) -> Result<(), Failed> {
    host.write_at(0, b"abcd")?;
    host.sync()?;
    host.write_at(1, b"XY")?;
    later_calls(host)
}

fn later_calls(host: &mut MemHost) -> Result<(), Failed> {
    host.print(b"p")?;
    host.write_at(5, b"Z")?;
    host.sync()?;
    host.print(b"q")
}

// A host whose stop at this call of an empty disk ends the seven calls.
fn stopped(rt: &impl Abort, alloc: Global, at: u64, torn: Torn) -> MemHost {
    let plan = stopping(alloc, at, torn);
    let mut host = MemHost::new(alloc, Vec::new(alloc), plan).expect(rt, MEMORY);
    let _ = seven_calls(&mut host);
    host
}

// A stop at a call. The image that it leaves with nothing, all, one byte, two bytes and `?` of the pending writes; what was
// printed before.
struct Stop {
    at: u64,
    images: [&'static [u8]; 5],
    text: &'static [u8],
}

static STOPS: [Stop; 8] = [
    Stop {
        at: 0,
        images: [b"", b"abcd", b"a", b"ab", b"????"],
        text: b"",
    },
    Stop {
        at: 1,
        images: [b"", b"abcd", b"a", b"ab", b"????"],
        text: b"",
    },
    Stop {
        at: 2,
        images: [b"abcd", b"aXYd", b"aXcd", b"aXYd", b"a??d"],
        text: b"",
    },
    Stop {
        at: 3,
        images: [b"abcd", b"aXYd", b"aXcd", b"aXYd", b"a??d"],
        text: b"",
    },
    Stop {
        at: 4,
        images: [b"abcd", b"aXYd\0Z", b"aXcd", b"aXYd", b"a??d\0?"],
        text: b"p",
    },
    Stop {
        at: 5,
        images: [b"abcd", b"aXYd\0Z", b"aXcd", b"aXYd", b"a??d\0?"],
        text: b"p",
    },
    Stop {
        at: 6,
        images: [b"aXYd\0Z", b"aXYd\0Z", b"aXYd\0Z", b"aXYd\0Z", b"aXYd\0Z"],
        text: b"p",
    },
    Stop {
        at: 7,
        images: [b"aXYd\0Z", b"aXYd\0Z", b"aXYd\0Z", b"aXYd\0Z", b"aXYd\0Z"],
        text: b"pq",
    },
];

// Where an image stands in each row, and the way in which the stop tears what is pending.
type Way = (usize, Torn);

const WAYS: [Way; 5] = [
    (0, Torn::Nothing),
    (1, Torn::Whole),
    (2, Torn::Front(1)),
    (3, Torn::Front(2)),
    (4, Torn::Fill(b'?')),
];

fn leaves(rt: &impl Abort, alloc: Global, stop: &Stop, way: &Way) {
    let (number, torn) = *way;
    let host = stopped(rt, alloc, stop.at, torn);
    equal(
        rt,
        (stop.at, host.text()),
        (stop.at, stop.text),
        "the text before a stop",
    );
    let after = host.after_stop().expect(rt, MEMORY);
    let image = stop.images.get(number).copied();
    equal(
        rt,
        (stop.at, torn, Some(after.image())),
        (stop.at, torn, image),
        "what a stop leaves",
    );
}

#[test]
fn a_stop_tears_the_writes_behind_the_last_sync(rt: HostRuntime) {
    for stop in &STOPS {
        for way in &WAYS {
            leaves(&rt, rt.alloc(), stop, way);
        }
    }
}

// A host whose disk has six bytes, and no call of which fails.
fn six_bytes(rt: &impl Abort, alloc: Global) -> MemHost {
    let image = b"abcdef".to_vec(alloc).expect(rt, MEMORY);
    MemHost::new(alloc, image, smooth(alloc)).expect(rt, MEMORY)
}

#[test]
fn all_stays_without_a_stop(rt: HostRuntime) {
    let mut host = six_bytes(&rt, rt.alloc());
    holds(&rt, host.write_at(4, b"XYZ").is_ok(), "a write");
    equal(&rt, host.image(), b"abcdXYZ", "the image");
    let after = host.after_stop().expect(&rt, MEMORY);
    equal(&rt, after.image(), b"abcdXYZ", "the image behind a stop");
    equal(&rt, after.text(), b"", "the text behind a stop");
}

// A read of four bytes at this place gives these, and leaves the others.
fn gives(rt: &impl Abort, host: &mut MemHost, at: u64, expected: &str) {
    let mut to = *b"----";
    holds(rt, host.read_at(at, &mut to).is_ok(), expected);
    equal(rt, to.as_slice(), expected.as_bytes(), "what is read");
}

const READS: [(u64, &str); 5] = [
    (0, "abcd"),
    (3, "def-"),
    (5, "f---"),
    (6, "----"),
    (u64::MAX, "----"),
];

#[test]
fn reads_give_what_is_there(rt: HostRuntime) {
    let mut host = six_bytes(&rt, rt.alloc());
    holds(&rt, host.size() == Ok(6), "the size");
    for (at, expected) in &READS {
        gives(&rt, &mut host, *at, expected);
    }
}
