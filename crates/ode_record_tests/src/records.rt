//! Records and their spelling.
ghost use Rattle.ode_codec.specs.Rules.{IsCounted};

use crate::equal::equal;
use ode_codec::{Record, decode, encode};
use ode_value::{Key, Value};
use std::alloc::{AllocError, Global};
use std::process::Abort;

const VECTOR: Key = Key {
    kind: 7,
    a: 1,
    b: 2,
};

const BYTES: &[u8] = b"\0\0\0\x01\0\x02\0\0\0\0\0\0\0\0\x05\x02\0\x02hi";

// Whether a record is spelled by this key and these bytes.
fn is_spelled(alloc: Global, found: &Record, key: Key, bytes: &[u8]) -> Result<bool, AllocError>
    requires { IsCounted found.now }
{
    let (again, value) = encode(alloc, found)?;
    Ok(again == key && value.as_slice() == bytes)
}

// Whether the bytes are a record's, and spell it again.
#[tactic(auto, using(crate::proofs::Counted::counted))]
fn is_spelling(alloc: Global, key: Key, bytes: &[u8]) -> Result<bool, AllocError> {
    match decode(alloc, key, bytes)? {
        Some(found) => is_spelled(alloc, &found, key, bytes),
        None => Ok(false),
    }
}

// The object, the number, the parent and how many fields a version has, and whether these are 5 and a text.
type Parts = (u64, u32, u32, usize, bool);

fn parts_of(found: &Record) -> Option<Parts> {
    match found {
        Record::Version {
            object,
            number,
            parent,
            fields,
            ..
        } => {
            let fit = matches!(fields.as_slice(), [Value::Int(5), Value::Text(_)]);
            Some((*object, *number, *parent, fields.len(), fit))
        }
        _ => None,
    }
}

fn decoded_parts(alloc: Global, key: Key, bytes: &[u8]) -> Result<Option<Parts>, AllocError> {
    match decode(alloc, key, bytes)? {
        Some(found) => Ok(parts_of(&found)),
        None => Ok(None),
    }
}

#[test]
fn a_version_of_two_fields(rt: HostRuntime) {
    let found = decoded_parts(rt.alloc(), VECTOR, BYTES);
    equal(&rt, &found, &Ok(Some((1, 2, 1, 2, true))));
}

// A key with bytes, and whether they are a record's.
type Case = (u8, u64, u64, &'static [u8], bool);

fn check_all(rt: &impl Abort, alloc: Global, cases: &[Case]) {
    for (kind, a, b, bytes, is_record) in cases {
        let key = Key {
            kind: *kind,
            a: *a,
            b: *b,
        };
        let found = is_spelling(alloc, key, bytes);
        equal(rt, &(key, found), &(key, Ok(*is_record)));
    }
}

// The bytes of that version, with a byte more and with a byte less.
const VERSIONS: &[Case] = &[
    (7, 1, 2, BYTES, true),
    (
        7,
        1,
        2,
        b"\0\0\0\x01\0\x02\0\0\0\0\0\0\0\0\x05\x02\0\x02hi\0",
        false,
    ),
    (
        7,
        1,
        2,
        b"\0\0\0\x01\0\x02\0\0\0\0\0\0\0\0\x05\x02\0\x02h",
        false,
    ),
];

// A version with a stamp; a stamp of 0, which isn't spelled; a count that says so without one.
const STAMPS: &[Case] = &[
    (
        7,
        1,
        1,
        b"\0\0\0\0\x80\x02\0\0\0\x01\0\0\0\0\0\0\0\0\x05\0\0\0\0\0\0\0\0\x07",
        true,
    ),
    (
        7,
        1,
        1,
        b"\0\0\0\0\x80\x02\0\0\0\0\0\0\0\0\0\0\0\0\x05\0\0\0\0\0\0\0\0\x07",
        false,
    ),
    (7, 1, 1, b"\0\0\0\0\x80\0", false),
    (7, 1, 1, b"\0\0\0\0\x80\0\xff\xff\xff\xff", true),
];

#[test]
fn versions_with_stamps(rt: HostRuntime) {
    check_all(&rt, rt.alloc(), STAMPS);
}

// Counters with added fields, and with none that are spelled.
const ADDED_COUNTS: &[Case] = &[
    (
        1,
        0,
        0,
        b"\0\0\0\0\0\0\0\x01\0\0\0\0\0\0\0\x01\0\0\0\0\0\0\0\x01\0\0\0\0\0\0\0\0\0\0\0\0\0\0\0\0\0\0\0\0\0\0\0\0\x03",
        true,
    ),
    (
        1,
        0,
        0,
        b"\0\0\0\0\0\0\0\x01\0\0\0\0\0\0\0\x01\0\0\0\0\0\0\0\x01\0\0\0\0\0\0\0\0\0\0\0\0\0\0\0\0\0\0\0\0\0\0\0\0\0",
        false,
    ),
];

#[test]
fn counters_with_added_fields(rt: HostRuntime) {
    check_all(&rt, rt.alloc(), ADDED_COUNTS);
}

// An added field `n` with its sort, the class that it refers to, and its literal.
const ADDED: &[Case] = &[
    (10, 1, 1, b"\x01n\0\0\0\0\0\0\0\0\0\0\0\0\0\x07", true),
    (
        10,
        1,
        1,
        b"\x01n\x03\0\0\0\x02\x03\0\0\0\0\0\0\0\0\0\0\0\0",
        true,
    ),
    (10, 1, 1, b"\x01n\0\0\0\0\x02\0\0\0\0\0\0\0\0\x07", false),
    (10, 1, 1, b"\x01n\x04\0\0\0\0\0\0\0\0\0\0\0\0\x07", false),
    (
        10,
        1,
        MAX_U32 + 1,
        b"\x01n\0\0\0\0\0\0\0\0\0\0\0\0\0\x07",
        false,
    ),
    (10, 1, 1, b"\x01n\x01\0\0\0\0\0\0\0\0\0\0\0\0\x07\0", false),
];

#[test]
fn added_fields(rt: HostRuntime) {
    check_all(&rt, rt.alloc(), ADDED);
}

#[test]
fn a_byte_more_or_less(rt: HostRuntime) {
    check_all(&rt, rt.alloc(), VERSIONS);
}

const MAX_U32: u64 = u32::MAX as u64;

const MAX_U16: u64 = u16::MAX as u64;

const COUNTERS: &[Case] = &[
    (
        1,
        0,
        0,
        b"\0\0\0\0\0\0\0\x01\0\0\0\0\0\0\0\x01\0\0\0\0\0\0\0\x01\0\0\0\0\0\0\0\0\0\0\0\0\0\0\0\0\0\0\0\0\0",
        true,
    ),
    (
        1,
        0,
        0,
        b"\x40\0\0\0\0\0\0\0\x40\0\0\0\0\x01\0\0\x40\0\0\0\0\0\0\0\x01\x7f\xff\xff\xff\xff\xff\xff\xff\xff\xff\xff\xff\xff\xff\xff\xff\xff\xff\xff\xff",
        true,
    ),
    (
        1,
        0,
        0,
        b"\0\0\0\0\0\0\0\0\0\0\0\0\0\0\0\x01\0\0\0\0\0\0\0\x01\0\0\0\0\0\0\0\0\0\0\0\0\0\0\0\0\0\0\0\0\0",
        false,
    ),
    (
        1,
        0,
        0,
        b"\x40\0\0\0\0\0\0\0\x40\0\0\0\0\x01\0\x01\x40\0\0\0\0\0\0\0\0\0\0\0\0\0\0\0\0\0\0\0\0\0\0\0\0\0\0\0\0",
        false,
    ),
    (
        1,
        0,
        0,
        b"\0\0\0\0\0\0\0\x01\0\0\0\0\0\0\0\x01\x40\0\0\0\0\0\0\x01\0\0\0\0\0\0\0\0\0\0\0\0\0\0\0\0\0\0\0\0\0",
        false,
    ),
    (
        1,
        0,
        0,
        b"\0\0\0\0\0\0\0\x01\0\0\0\0\0\0\0\x01\0\0\0\0\0\0\0\x01\0\0\0\0\0\0\0\0\0\0\0\0\0\0\0\0\0\0\0\0\x01",
        false,
    ),
    (
        1,
        0,
        0,
        b"\0\0\0\0\0\0\0\x01\0\0\0\0\0\0\0\x01\0\0\0\0\0\0\0\x01\x02\0\0\0\0\0\0\0\0\0\0\0\0\0\0\0\0\0\0\0\0",
        false,
    ),
    (
        1,
        0,
        1,
        b"\0\0\0\0\0\0\0\x01\0\0\0\0\0\0\0\x01\0\0\0\0\0\0\0\x01\0\0\0\0\0\0\0\0\0\0\0\0\0\0\0\0\0\0\0\0\0",
        false,
    ),
];

const HEADS: &[Case] = &[
    (2, 0, 0, b"\x01A\0\0\0\0\0\0\0\0\0\0", true),
    (
        2,
        MAX_U32,
        0,
        b"\x02_9\xff\xff\xff\xff\xff\xff\xff\xff\xff\xff",
        true,
    ),
    (2, MAX_U32 + 1, 0, b"\x01A\0\0\0\0\0\0\0\0\0\0", false),
    (2, 1, 1, b"\x01A\0\0\0\0\0\0\0\0\0\0", false),
    (2, 1, 0, b"\x00\0\0\0\0\0\0\0\0\0\0", false),
    (2, 1, 0, b"\x01-\0\0\0\0\0\0\0\0\0\0", false),
    (4, 0, 0, b"\0\0\0", true),
    (4, MAX_U32, MAX_U16, b"\xff\xff\xff", true),
    (4, MAX_U32 + 1, 0, b"\0\x02\x03", false),
    (4, 1, MAX_U16 + 1, b"\0\x02\x03", false),
    (4, 1, 0, b"\0\x02", false),
    (4, 1, 0, b"\0\x02\x03\0", false),
];

const PIECES: &[Case] = &[
    (3, 0, 0, b"\0", true),
    (3, MAX_U32, MAX_U32, b"class", true),
    (3, MAX_U32 + 1, 0, b"class", false),
    (3, 1, MAX_U32 + 1, b"class", false),
    (3, 1, 0, b"", false),
    (5, 0, 0, b"\xff", true),
    (5, MAX_U32, MAX_U32, b"\0\x01", true),
    (5, 1, MAX_U32 + 1, b"\0\x01", false),
    (5, 1, 0, b"", false),
];

const OBJECTS: &[Case] = &[
    (6, 0, 0, b"\0\0\0\0\0\0\0\0", true),
    (6, u64::MAX, 0, b"\xff\xff\xff\xff\xff\xff\xff\xff", true),
    (6, 1, 1, b"\0\0\0\x01\0\0\0\x01", false),
    (6, 1, 0, b"\0\0\0\x01\0\0\0", false),
    (7, 0, 0, b"\0\0\0\0\0\0", true),
    (7, u64::MAX, MAX_U32, b"\xff\xff\xff\xff\0\0", true),
    (7, 1, MAX_U32 + 1, b"\0\0\0\0\0\0", false),
    (7, 1, 1, b"\0\0\0\0\0\x02\x01\x01", false),
    (0, 0, 0, b"", false),
    (10, 0, 0, b"", false),
];

const FIELDS: &[Case] = &[
    (7, 1, 1, b"\0\0\0\0\0\x01\0\x80\0\0\0\0\0\0\0", true),
    (
        7,
        1,
        1,
        b"\0\0\0\0\0\x01\0\x7f\xff\xff\xff\xff\xff\xff\xff",
        true,
    ),
    (7, 1, 1, b"\0\0\0\0\0\x02\x01\0\x01\x01", true),
    (7, 1, 1, b"\0\0\0\0\0\x01\x01\x02", false),
    (7, 1, 1, b"\0\0\0\0\0\x01\x02\0\x02 ~", true),
    (7, 1, 1, b"\0\0\0\0\0\x01\x02\0\x01\x1f", false),
    (7, 1, 1, b"\0\0\0\0\0\x01\x02\0\x01\x7f", false),
    (7, 1, 1, b"\0\0\0\0\0\x01\x02\0\x02a", false),
    (7, 1, 1, b"\0\0\0\0\0\x01\x03\0\0\0\0\0\0\0\0\0\0\0\0", true),
    (
        7,
        1,
        1,
        b"\0\0\0\0\0\x01\x03\0\0\0\0\0\0\0\x01\0\0\0\0",
        true,
    ),
    (
        7,
        1,
        1,
        b"\0\0\0\0\0\x01\x03\xff\xff\xff\xff\xff\xff\xff\xff\xff\xff\xff\xff",
        true,
    ),
    (
        7,
        1,
        1,
        b"\0\0\0\0\0\x01\x03\0\0\0\0\0\0\0\0\0\0\0\x01",
        false,
    ),
    (7, 1, 1, b"\0\0\0\0\0\x01\x04", false),
    (7, 1, 1, b"\0\0\0\0\0\0\x01\x01", false),
];

const ACTIVATIONS_AND_ENTRIES: &[Case] = &[
    (8, 0, 0, b"\0\0\0\0\0\0\0\0\0", true),
    (
        8,
        u64::MAX,
        u64::MAX,
        b"\xff\xff\xff\xff\xff\xff\xff\xff\x01\x01\x01",
        true,
    ),
    (8, 1, 2, b"\0\0\0\x01\0\0\0\0", false),
    (8, 1, 2, b"\0\0\0\x01\0\0\0\0\x02\x01\x01", false),
    (9, 0, 0, b"\0\0\0\0\0\0\0\0\0\0\0\0\0\0\0\0", true),
    (
        9,
        u64::MAX,
        0,
        b"\xff\xff\xff\xff\xff\xff\xff\xff\xff\xff\xff\xff\xff\xff\xff\x01\x01\0",
        true,
    ),
    (9, 1, 1, b"\0\0\0\0\0\0\0\x01\0\0\0\x01\0\0\x01\0", false),
    (9, 1, 0, b"\0\0\0\0\0\0\0\x01\0\0\0\x01\0\0\x01", false),
    (9, 1, 0, b"\0\0\0\0\0\0\0\x01\0\0\0\x01\0\0\x01\0\0", false),
];

#[test]
fn each_kind_at_the_ends_of_its_ranges(rt: HostRuntime) {
    check_all(&rt, rt.alloc(), COUNTERS);
    check_all(&rt, rt.alloc(), HEADS);
    check_all(&rt, rt.alloc(), PIECES);
    check_all(&rt, rt.alloc(), OBJECTS);
    check_all(&rt, rt.alloc(), FIELDS);
    check_all(&rt, rt.alloc(), ACTIVATIONS_AND_ENTRIES);
}

// The bytes of a record: some at the front, and one byte many times behind them.
fn filled(alloc: Global, front: &[u8], byte: u8, count: usize) -> Result<Vec<u8>, AllocError> {
    let mut bytes = front.to_vec(alloc)?;
    for _ in 0..count {
        bytes.push(byte)?;
    }
    Ok(bytes)
}

// Such bytes, and whether they are a record's.
struct Long {
    key: Key,
    front: &'static [u8],
    byte: u8,
    count: usize,
    is_record: bool,
}

fn is_long_spelling(alloc: Global, row: &Long) -> Result<bool, AllocError> {
    let bytes = filled(alloc, row.front, row.byte, row.count)?;
    is_spelling(alloc, row.key, &bytes)
}

const PIECE: Key = Key {
    kind: 3,
    a: 1,
    b: 0,
};

const ACTIVATION: Key = Key {
    kind: 8,
    a: 1,
    b: 2,
};

// Names, texts, pieces and counts of the greatest length, and those longer by one.
const LONGEST: &[Long] = &[
    Long {
        key: PIECE,
        front: b"",
        byte: b'c',
        count: 3_968,
        is_record: true,
    },
    Long {
        key: PIECE,
        front: b"",
        byte: b'c',
        count: 3_969,
        is_record: false,
    },
    Long {
        key: VECTOR,
        front: b"\0\0\0\0\0\x01\x02\x08\0",
        byte: b'x',
        count: 2_048,
        is_record: true,
    },
    Long {
        key: VECTOR,
        front: b"\0\0\0\0\0\x01\x02\x08\x01",
        byte: b'x',
        count: 2_049,
        is_record: false,
    },
    Long {
        key: VECTOR,
        front: b"\0\0\0\0\x7f\xff",
        byte: 1,
        count: 65_534,
        is_record: true,
    },
    Long {
        key: VECTOR,
        front: b"\0\0\0\0\xff\xff",
        byte: 1,
        count: 65_538,
        is_record: true,
    },
    Long {
        key: ACTIVATION,
        front: b"\0\0\0\x01\0\0\0\0\xff",
        byte: 1,
        count: 510,
        is_record: true,
    },
];

#[test]
fn the_longest_of_each(rt: HostRuntime) {
    for row in LONGEST {
        let found = is_long_spelling(rt.alloc(), row);
        equal(&rt, &(row.count, found), &(row.count, Ok(row.is_record)));
    }
}

const NAMES: &[Case] = &[
    (
        2,
        1,
        0,
        b"\x40aaaaaaaaaaaaaaaaaaaaaaaaaaaaaaaaaaaaaaaaaaaaaaaaaaaaaaaaaaaaaaaa\0\0\0\0\0\0\0\0\0\0",
        true,
    ),
    (
        2,
        1,
        0,
        b"\x41aaaaaaaaaaaaaaaaaaaaaaaaaaaaaaaaaaaaaaaaaaaaaaaaaaaaaaaaaaaaaaaaa\0\0\0\0\0\0\0\0\0\0",
        false,
    ),
];

#[test]
fn names_of_64_bytes(rt: HostRuntime) {
    check_all(&rt, rt.alloc(), NAMES);
}
