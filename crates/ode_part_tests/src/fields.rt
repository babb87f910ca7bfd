//! Numbers in bytes.
use crate::equal::equal;
use ode_host::{
    put_i64, put_u8, put_u16, put_u32, put_u64, take_i64, take_u8, take_u16, take_u32, take_u64,
};
use std::alloc::AllocError;
use std::test::Fail;

const BYTES: &[u8; 23] = b"\x01\x02\x03\x04\x05\x06\x07\x08\x09\x0A\x0B\x0C\x0D\x0E\x0F\
    \xFF\xFF\xFF\xFF\xFF\xFF\xFF\xFE";

#[test]
fn numbers_are_read_highest_byte_first(rt: HostRuntime) {
    equal(&rt, &take_u8(BYTES, 0), &Some(1));
    equal(&rt, &take_u16(BYTES, 1), &Some(0x0203));
    equal(&rt, &take_u32(BYTES, 3), &Some(0x0405_0607));
    equal(&rt, &take_u64(BYTES, 7), &Some(0x0809_0A0B_0C0D_0E0F));
    equal(&rt, &take_i64(BYTES, 15), &Some(-2));
    equal(&rt, &take_u64(BYTES, 15), &Some(u64::MAX - 1));
}

fn put_all(bytes: &mut Vec<u8>) -> Result<(), AllocError> {
    put_u8(bytes, 1)?;
    put_u16(bytes, 0x0203)?;
    put_u32(bytes, 0x0405_0607)?;
    put_u64(bytes, 0x0809_0A0B_0C0D_0E0F)?;
    put_i64(bytes, -2)
}

#[test]
fn numbers_are_written_highest_byte_first(rt: HostRuntime) -> Result<(), Fail> {
    let mut bytes = Vec::new(rt.alloc());
    put_all(&mut bytes)?;
    equal(&rt, &bytes.as_slice(), &BYTES.as_slice());
    Ok(())
}

// Whether numbers of 1, 2, 4 and 8 bytes, and one of 8 with a sign, stand at a place.
fn stand(at: usize) -> [bool; 5] {
    [
        take_u8(BYTES, at).is_some(),
        take_u16(BYTES, at).is_some(),
        take_u32(BYTES, at).is_some(),
        take_u64(BYTES, at).is_some(),
        take_i64(BYTES, at).is_some(),
    ]
}

const STAND: &[(usize, [bool; 5])] = &[
    (15, [true, true, true, true, true]),
    (16, [true, true, true, false, false]),
    (19, [true, true, true, false, false]),
    (20, [true, true, false, false, false]),
    (21, [true, true, false, false, false]),
    (22, [true, false, false, false, false]),
    (23, [false, false, false, false, false]),
    (24, [false, false, false, false, false]),
    (usize::MAX, [false, false, false, false, false]),
];

#[test]
fn there_is_no_number_where_bytes_are_missing(rt: HostRuntime) {
    for (at, expected) in STAND {
        equal(&rt, &(*at, stand(*at)), &(*at, *expected));
    }
    equal(&rt, &take_u8(BYTES, 22), &Some(0xFE));
    equal(&rt, &take_u16(BYTES, 21), &Some(0xFFFE));
    equal(&rt, &take_u32(BYTES, 19), &Some(0xFFFF_FFFE));
}
