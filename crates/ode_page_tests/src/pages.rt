//! Pages of 64 and of 128 bytes.
ghost use Rattle.std.specs.Prelude.{◌<◌};

use crate::equal::equal;
use ode_pages::{NoRoom, PageOf};
use ode_value::Key;

const LOW: Key = Key {
    kind: 6,
    a: 5,
    b: 0x0102_0304_0506_0708,
};

const HIGH: Key = Key {
    kind: 7,
    a: 0,
    b: 2,
};

const TWO: &[u8; 64] = b"\0\x02\
    \x06\0\0\0\0\0\0\0\x05\x01\x02\x03\x04\x05\x06\x07\x08\0\x01c\
    \x07\0\0\0\0\0\0\0\0\0\0\0\0\0\0\0\x02\0\x02ab\
    \0\0\0\0\0\0\0\0\0\0\0\0\0\0\0\0\0\0\0\0\0";

const HIGH_ALONE: &[u8; 64] = b"\0\x01\
    \x07\0\0\0\0\0\0\0\0\0\0\0\0\0\0\0\x02\0\x02ab\
    \0\0\0\0\0\0\0\0\0\0\0\0\0\0\0\0\0\0\0\0\0\0\0\0\0\0\0\0\0\0\0\0\0\0\0\0\0\0\0\0\0";

fn two() -> PageOf<64> {
    let mut page = PageOf::empty();
    let _ = page.put(HIGH, b"ab");
    let _ = page.put(LOW, b"c");
    page
}

#[test]
fn entries_stand_in_the_order_of_their_keys(rt: HostRuntime) {
    let page = two();
    equal(&rt, &page.bytes().as_slice(), &TWO.as_slice());
    equal(&rt, &page.key_at(0), &Some(LOW));
    equal(&rt, &page.key_at(1), &Some(HIGH));
    equal(&rt, &page.key_at(2), &None);
    equal(&rt, &page.room(), &21);
}

#[test]
fn a_value_is_found_under_its_key(rt: HostRuntime) {
    let page = two();
    equal(&rt, &page.find(LOW), &Some(b"c".as_slice()));
    equal(&rt, &page.find(HIGH), &Some(b"ab".as_slice()));
    equal(
        &rt,
        &page.find(Key {
            kind: 7,
            a: 0,
            b: 1,
        }),
        &None,
    );
}

#[test]
fn an_entry_is_taken_out(rt: HostRuntime) {
    let mut page = two();
    equal(&rt, &page.remove(LOW), &true);
    equal(&rt, &page.bytes().as_slice(), &HIGH_ALONE.as_slice());
    equal(&rt, &page.remove(LOW), &false);
    equal(&rt, &page.bytes().as_slice(), &HIGH_ALONE.as_slice());
}

#[test]
fn a_value_takes_the_place_of_the_old_one(rt: HostRuntime) {
    let mut page = two();
    equal(&rt, &page.put(LOW, b"longer"), &Ok(()));
    equal(&rt, &page.find(LOW), &Some(b"longer".as_slice()));
    equal(&rt, &page.find(HIGH), &Some(b"ab".as_slice()));
    equal(&rt, &page.put(LOW, b"c"), &Ok(()));
    equal(&rt, &page.bytes().as_slice(), &TWO.as_slice());
}

#[test]
fn there_is_only_so_much_room(rt: HostRuntime) {
    let mut page: PageOf<128> = PageOf::empty();
    equal(&rt, &page.put(LOW, &[1; 100]), &Ok(()));
    equal(&rt, &page.room(), &7);
    equal(
        &rt,
        &page.put(HIGH, &[2; 10]),
        &Err(NoRoom { need: 29, room: 7 }),
    );
    equal(&rt, &page.put(LOW, &[3; 107]), &Ok(()));
    equal(&rt, &page.room(), &0);
    equal(
        &rt,
        &page.put(LOW, &[4; 108]),
        &Err(NoRoom {
            need: 127,
            room: 126,
        }),
    );
    equal(&rt, &page.find(LOW), &Some([3; 107].as_slice()));
}

// Whether a page with this byte in place of one of the two entries' is read.
fn is_read(at: usize, byte: u8) -> bool
    requires { at < 64 }
{
    let mut bytes = *TWO;
    bytes[at] = byte;
    PageOf::read(&bytes).is_some()
}

#[test]
fn bytes_that_are_no_page_are_refused(rt: HostRuntime) {
    equal(&rt, &is_read(0, 0), &true);
    equal(&rt, &is_read(1, 1), &false);
    equal(&rt, &is_read(1, 3), &false);
    equal(&rt, &is_read(2, 8), &false);
    equal(&rt, &is_read(40, 23), &true);
    equal(&rt, &is_read(40, 24), &false);
    equal(&rt, &is_read(63, 1), &false);
}
