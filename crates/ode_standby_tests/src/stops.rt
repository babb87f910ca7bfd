//! A standby that is stopped goes on behind the last frame that it has.
use crate::trial::{follow, fresh, is_there, shipped};
use ode_host::{Status, Torn};
use ode_trials::amiss::{AMISS, agree, is_so};
use ode_trials::trial::{MEMORY, smooth, stopping};
use std::alloc::Global;
use std::process::Abort;

const WHOLE: &str = "followed 2 skipped 0 rest 0\n";

// What the whole stream comes to on a file that has so many of its frames.
const LEFT: [&str; 3] = [
    WHOLE,
    "followed 1 skipped 1 rest 0\n",
    "followed 0 skipped 2 rest 0\n",
];

// What a stop left takes the whole stream once more.
fn goes_on(rt: &impl Abort, alloc: Global, stream: &[u8], image: &[u8], had: usize) -> usize {
    let ran = follow(rt, alloc, stream, image, smooth(alloc));
    agree(alloc, ran.status, Status::Ok, "a standby that goes on").expect(rt, AMISS);
    is_there(rt, alloc, ran.host.image());
    for (count, text) in LEFT.iter().enumerate() {
        if ran.text() == *text {
            is_so(alloc, had <= count, "no frame is lost").expect(rt, AMISS);
            return count;
        }
    }
    agree(alloc, ran.text(), WHOLE, "a standby that goes on").expect(rt, AMISS);
    0
}

// Following is stopped at each call, one later than the other: the standby has no fewer frames each time.
fn stopped_at_each(rt: &impl Abort, alloc: Global, torn: Torn) {
    let file = fresh(rt, alloc);
    let stream = shipped(rt, alloc);
    let mut had = 0;
    for at in 0..1000u64 {
        let ran = follow(rt, alloc, &stream, &file, stopping(alloc, at, torn));
        is_so(alloc, WHOLE.starts_with(ran.text()), "a front of the line").expect(rt, AMISS);
        if ran.status == Status::Ok {
            break;
        }
        let image = ran.after_stop(alloc).expect(rt, MEMORY);
        had = goes_on(rt, alloc, &stream, &image, had);
    }
    agree(
        alloc,
        had,
        2,
        "both frames are there behind the last commit",
    )
    .expect(rt, AMISS);
}

#[test]
fn a_standby_is_stopped_at_each_call(rt: HostRuntime) {
    stopped_at_each(&rt, rt.alloc(), Torn::Nothing);
    stopped_at_each(&rt, rt.alloc(), Torn::Whole);
}
