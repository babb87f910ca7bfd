//! What a run adds to a journal, and in which calls.
use crate::equal::equal;
use ode_host::{Status, Torn};
use ode_trials::amiss::AMISS;
use ode_trials::images::three_pages;
use ode_trials::trial::{
    Case, FIRST, FIRST_TEXT, MEMORY, calls_of, new_file, run_case, run_stopped, stopped_image,
};
use std::alloc::Global;
use std::process::Abort;

static FIRST_RUN: Case = Case {
    name: "the first script",
    script: FIRST,
    text: FIRST_TEXT,
    status: Status::Ok,
};

// A file of pages stays one.
#[test]
fn each_transaction_adds_a_frame_and_nothing_else_changes(rt: HostRuntime) {
    let file = new_file(rt.alloc()).expect(&rt, MEMORY);
    let ran = run_case(rt.alloc(), &file, &FIRST_RUN).expect(&rt, AMISS);
    let pages = three_pages(rt.alloc()).expect(&rt, MEMORY);
    ran.leaves(rt.alloc(), &pages, FIRST_RUN.name)
        .expect(&rt, AMISS);
}

// Where the gate of the first script's second transaction stands, and how long the file is behind that transaction.
const GATE: usize = 4326;

const LENGTH: usize = 4537;

// A stop at so many calls before the end of the first script, whether the frame is in the file then, and what the gate reads.
type Stop = (u64, Torn, bool, u8);

// The second transaction's five calls: a write, a sync, a write, a sync and a print. Of a stop at each there is one where
// nothing of what is pending is left, and one where all is.
const STOPS: [Stop; 10] = [
    (10, Torn::Nothing, false, 0),
    (10, Torn::Whole, true, 0),
    (9, Torn::Nothing, false, 0),
    (9, Torn::Whole, true, 0),
    (8, Torn::Nothing, true, 0),
    (8, Torn::Whole, true, 0xA5),
    (7, Torn::Nothing, true, 0),
    (7, Torn::Whole, true, 0xA5),
    (6, Torn::Nothing, true, 0xA5),
    (6, Torn::Whole, true, 0xA5),
];

// How long the file is with the frame or without it.
fn length(has_frame: bool) -> usize {
    if has_frame { LENGTH } else { GATE + 1 }
}

fn is_left(rt: &impl Abort, alloc: Global, file: &[u8], calls: u64, row: &Stop) {
    let (back, torn, has_frame, gate) = *row;
    let at = calls.saturating_sub(back);
    let image = run_stopped(alloc, file, FIRST, at, torn)
        .expect(rt, MEMORY)
        .after_stop(alloc)
        .expect(rt, MEMORY);
    let found = image.get(GATE).copied().unwrap_or(1);
    equal(
        rt,
        (back, torn, image.len(), found),
        (back, torn, length(has_frame), gate),
        "what a stop leaves",
    );
}

#[test]
fn a_transaction_makes_two_writes_two_syncs_and_a_print(rt: HostRuntime) {
    let file = new_file(rt.alloc()).expect(&rt, MEMORY);
    let calls = calls_of(rt.alloc(), &file, FIRST).expect(&rt, MEMORY);
    for row in &STOPS {
        is_left(&rt, rt.alloc(), &file, calls, row);
    }
}

const KEPT: &str = "new #2\ntx 3 committed\n";

const LOST: &str = "new #1\ntx 2 committed\n";

static STOP: Case = Case {
    name: "a stop",
    script: FIRST,
    text: "class P\ntx 1 committed\n",
    status: Status::DiskFault,
};

// How the write of the gate is torn, what the gate reads then, and what an object more prints.
type TornGate = (Torn, u8, &'static str);

const GATES: [TornGate; 7] = [
    (Torn::Fill(0xA5), 0xA5, KEPT),
    (Torn::Whole, 0xA5, KEPT),
    (Torn::Front(1), 0xA5, KEPT),
    (Torn::Fill(0x00), 0x00, LOST),
    (Torn::Fill(0x7F), 0x7F, LOST),
    (Torn::Nothing, 0x00, LOST),
    (Torn::Front(0), 0x00, LOST),
];

// The write of the gate is the third call of the second transaction.
const GATE_AND_BEHIND: u64 = 8;

fn is_there(rt: &impl Abort, alloc: Global, image: &[u8], row: &TornGate) {
    let (torn, gate, text) = *row;
    let found = image.get(GATE).copied();
    equal(rt, (torn, found), (torn, Some(gate)), "the gate");
    let more = Case {
        name: "an object more",
        script: "pnew P();",
        text,
        status: Status::Ok,
    };
    run_case(alloc, image, &more).expect(rt, AMISS);
}

#[test]
fn a_transaction_is_there_where_its_gate_is_open(rt: HostRuntime) {
    let file = new_file(rt.alloc()).expect(&rt, MEMORY);
    let calls = calls_of(rt.alloc(), &file, FIRST).expect(&rt, MEMORY);
    let at = calls.saturating_sub(GATE_AND_BEHIND);
    for row in &GATES {
        let image = stopped_image(rt.alloc(), &file, &STOP, at, row.0).expect(&rt, AMISS);
        is_there(&rt, rt.alloc(), &image, row);
    }
}
