//! What a primary ships, and what a standby says of it.
use crate::trial::{follows, fresh, is_there, shipped, shipped_from, ships};
use ode_host::Status;
use ode_trials::amiss::{AMISS, agree, is_so};
use ode_trials::images::first_format;
use ode_trials::trial::MEMORY;
use std::alloc::Global;
use std::process::Abort;

// How many bytes a frame has that begins with this length.
fn length_of(stream: &[u8]) -> usize {
    match stream {
        [a, b, c, d, ..] => { (u32::from_be_bytes([*a, *b, *c, *d]) as usize).saturating_add(4) }
        _ => 0,
    }
}

// What stands behind its first frame.
fn behind(stream: &[u8]) -> &[u8] {
    stream.get(length_of(stream)..).unwrap_or(&[])
}

#[test]
fn a_standby_takes_what_its_primary_ships(rt: HostRuntime) {
    let stream = shipped(&rt, rt.alloc());
    let second = behind(&stream);
    is_so(rt.alloc(), !second.is_empty(), "a second frame").expect(&rt, AMISS);
    is_so(rt.alloc(), behind(second).is_empty(), "no third frame").expect(&rt, AMISS);
    let standby = follows(
        &rt,
        rt.alloc(),
        &stream,
        &fresh(&rt, rt.alloc()),
        "followed 2 skipped 0 rest 0\n",
        Status::Ok,
    );
    is_there(&rt, rt.alloc(), standby.host.image());
}

#[test]
fn a_standby_skips_what_it_has(rt: HostRuntime) {
    let stream = shipped(&rt, rt.alloc());
    let length = length_of(&stream);
    let front = stream.get(..length.saturating_add(3)).unwrap_or(&[]);
    let standby = follows(
        &rt,
        rt.alloc(),
        front,
        &fresh(&rt, rt.alloc()),
        "followed 1 skipped 0 rest 3\n",
        Status::Ok,
    );
    let standby = follows(
        &rt,
        rt.alloc(),
        &stream,
        standby.host.image(),
        "followed 1 skipped 1 rest 0\n",
        Status::Ok,
    );
    is_there(&rt, rt.alloc(), standby.host.image());
}

// A new file doesn't take this stream, and stays as it was.
fn is_refused(rt: &impl Abort, alloc: Global, stream: &[u8], text: &str) {
    let file = fresh(rt, alloc);
    follows(rt, alloc, stream, &file, text, Status::Refused)
        .leaves(alloc, &file, text)
        .expect(rt, AMISS);
}

#[test]
fn a_stream_may_have_what_no_standby_takes(rt: HostRuntime) {
    let stream = shipped(&rt, rt.alloc());
    is_refused(&rt, rt.alloc(), behind(&stream), "gap 2 1\n");
    is_refused(&rt, rt.alloc(), &[0, 0, 0, 0], "bad frame 0\n");
}

#[test]
fn both_make_the_last_format_of_a_file(rt: HostRuntime) {
    let older = first_format(rt.alloc()).expect(&rt, MEMORY);
    let stream = shipped_from(&rt, rt.alloc(), &older);
    let same = shipped(&rt, rt.alloc());
    agree(
        rt.alloc(),
        stream.as_slice(),
        same.as_slice(),
        "what is shipped",
    )
    .expect(&rt, AMISS);
    let standby = follows(
        &rt,
        rt.alloc(),
        &stream,
        &older,
        "followed 2 skipped 0 rest 0\n",
        Status::Ok,
    );
    is_there(&rt, rt.alloc(), standby.host.image());
}

#[test]
fn what_is_refused_is_not_shipped(rt: HostRuntime) {
    let file = fresh(&rt, rt.alloc());
    let ran = ships(&rt, rt.alloc(), "show #1.n; abort;", &file);
    ran.is(rt.alloc(), "", Status::Refused, "refusals")
        .expect(&rt, AMISS);
    ran.leaves(rt.alloc(), &file, "refusals").expect(&rt, AMISS);
}
