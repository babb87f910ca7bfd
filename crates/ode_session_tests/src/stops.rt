//! Sessions that are stopped at each call: the file holds the world after some of the settled transactions, no fewer than were printed.
use crate::rows::{BUSY, BUSY_TEXT};
use crate::trial::{TWO, file_of, sessions};
use ode_host::{Status, Torn};
use ode_trials::amiss::{AMISS, agree, is_so};
use ode_trials::trial::{MEMORY, run, stopping};
use std::alloc::Global;
use std::process::Abort;

// What the file of a stop says of the two objects, by how many transactions settled.
const LEFT: [&str; 5] = [
    "value 0\ntx 4 committed\nvalue 0\ntx 5 committed\n",
    "value 0\ntx 5 committed\nvalue 1\ntx 6 committed\n",
    "value 1\ntx 6 committed\nvalue 1\ntx 7 committed\n",
    "value 2\ntx 7 committed\nvalue 1\ntx 8 committed\n",
    "value 2\ntx 8 committed\nvalue 1\ntx 9 committed\n",
];

// Where the text of each of the transactions ends.
const ENDS: [usize; 4] = [38, 53, 68, 91];

// How many transactions are printed whole.
fn printed(text: &str) -> usize {
    ENDS.iter().filter(|end| **end <= text.len()).count()
}

// How many transactions a stop left.
fn settled(rt: &impl Abort, alloc: Global, image: &[u8]) -> usize {
    let ran = run(alloc, image, "show #1.n; show #2.n;").expect(rt, MEMORY);
    agree(alloc, ran.status, Status::Ok, "a run behind a stop").expect(rt, AMISS);
    for (count, text) in LEFT.iter().enumerate() {
        if ran.text() == *text {
            return count;
        }
    }
    agree(alloc, ran.text(), LEFT[4], "a run behind a stop").expect(rt, AMISS);
    0
}

// So many transactions are there now, where so many were there at the stop before, and so many were printed.
fn is_in_order(rt: &impl Abort, alloc: Global, had: usize, said: usize, now: usize) {
    is_so(alloc, said <= now, "what was printed is there").expect(rt, AMISS);
    is_so(
        alloc,
        now <= said.saturating_add(1),
        "no more than the next one is there",
    )
    .expect(rt, AMISS);
    is_so(alloc, had <= now, "no transaction is lost").expect(rt, AMISS);
}

// The sessions are stopped at each call, one later than the other.
fn stopped_at_each(rt: &impl Abort, alloc: Global, torn: Torn) {
    let file = file_of(rt, alloc, TWO);
    let mut had = 0;
    for at in 0..1000u64 {
        let ran = sessions(rt, alloc, BUSY, &file, stopping(alloc, at, torn));
        is_so(
            alloc,
            BUSY_TEXT.starts_with(ran.text()),
            "a front of the text",
        )
        .expect(rt, AMISS);
        if ran.status == Status::Refused {
            break;
        }
        let said = printed(ran.text());
        let image = ran.after_stop(alloc).expect(rt, MEMORY);
        let now = settled(rt, alloc, &image);
        is_in_order(rt, alloc, had, said, now);
        had = now;
    }
    agree(alloc, had, 4, "all is there behind the last commit").expect(rt, AMISS);
}

#[test]
fn sessions_are_stopped_at_each_call(rt: HostRuntime) {
    stopped_at_each(&rt, rt.alloc(), Torn::Nothing);
    stopped_at_each(&rt, rt.alloc(), Torn::Whole);
}
