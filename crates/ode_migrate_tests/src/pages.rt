//! Files of pages.
use crate::disk::{TEARS, patch, smooth};
use crate::equal::equal;
use crate::found::{Counting, entry, found_in};
use crate::stops::{fail_everywhere, stop_everywhere};
use ode_migrate::migrate;
use std::alloc::{AllocError, Global};
use std::test::Fail;

// A file of the first format: its slot, with layout 2, generation 1, no page in place, and a journal in region 0.
const SLOT: &[u8; 57] = b"\xA5ODEBASE1\0\0\0\x01\0\0\0\x02\0\0\0\0\0\0\0\x01\
    \0\0\0\0\x02\0\x10\0\0\0\0\0\0\0\0\0\
    \0\0\0\0\0\0\x10\0\0\0\0\0\x01\0\x10\0";

// A frame of page 0, with a value of three bytes under the entry 1: an open gate, the length 34; one image, of page 0, of 24 bytes;
// one record. A gate that is shut ends the journal.
const FRAME: &[u8; 40] = b"\xA5\0\0\0\x22\
    \0\0\0\x01\0\0\0\0\0\x18\
    \0\x01\x09\0\0\0\0\0\0\0\x01\0\0\0\0\0\0\0\0\0\x03\x07\x07\x07\0";

fn old_file(alloc: Global) -> Result<Vec<u8>, AllocError> {
    let mut image = vec![in alloc; 0; 4_136]?;
    patch(&mut image, 0, SLOT);
    patch(&mut image, 4_096, FRAME);
    Ok(image)
}

const OLD: Counting = (1, 2, 0, 1, 4_096, 0);

const NEW: Counting = (2, 2, 1, 2, 4_096, 0);

#[test]
fn a_file_of_pages_gets_the_last_format(rt: HostRuntime) -> Result<(), Fail> {
    let image = old_file(rt.alloc())?;
    let records = (Some(entry(1)), Some((3, 7)));
    equal(
        &rt,
        &found_in(rt.alloc(), &image),
        &Ok(Some((OLD, records))),
    );
    let mut host = smooth(rt.alloc(), &image)?;
    equal(&rt, &migrate(rt.alloc(), &mut host), &Ok(()));
    equal(
        &rt,
        &found_in(rt.alloc(), host.image()),
        &Ok(Some((NEW, records))),
    );
    equal(&rt, &host.image().get(57..2_048), &image.get(57..2_048));
    equal(&rt, &host.image().get(4_096..), &image.get(4_096..));
    Ok(())
}

#[test]
fn a_file_of_the_last_format_stays_as_it_is(rt: HostRuntime) -> Result<(), Fail> {
    let mut image = old_file(rt.alloc())?;
    patch(&mut image, 12, &[2]);
    let mut host = smooth(rt.alloc(), &image)?;
    equal(&rt, &migrate(rt.alloc(), &mut host), &Ok(()));
    equal(&rt, &(host.image() == image.as_slice()), &true);
    Ok(())
}

// It reads both slots, looks at the other slot's gate, and writes and syncs its header and its gate.
#[test]
fn its_migration_outlives_a_stop_and_a_fault_at_each_call(rt: HostRuntime) -> Result<(), Fail> {
    let image = old_file(rt.alloc())?;
    let records = (Some(entry(1)), Some((3, 7)));
    let calls = stop_everywhere(&rt, rt.alloc(), &image, records, &TEARS);
    equal(&rt, &calls, &Ok(7));
    fail_everywhere(&rt, rt.alloc(), &image, records, 7)?;
    Ok(())
}
