//! A stop on the way through the queue.
use crate::equal::holds;
use ode_host::{Status, Torn};
use ode_trials::amiss::AMISS;
use ode_trials::images::in_areas;
use ode_trials::trial::{Case, MEMORY, Trial, calls_of, new_file, run, run_case, run_stopped};
use std::alloc::Global;
use std::process::Abort;

// A script that queues, what a whole run of it prints, and what the object's field is then.
#[derive(Clone, Copy)]
struct Queue {
    script: &'static str,
    text: &'static str,
    value: &'static str,
}

// Three calls, each of which queues a firing that adds 10 to what the call added.
static THREE: Queue = Queue {
    script: "class P { int n; void a() { n = n + 1; } void more() { n = n + 10; } event after a; trigger perpetual dependent t(): after a ==> { more(); } };
begin; pnew P(); activate #1.t(); commit;
begin; #1.a(); #1.a(); #1.a(); commit;
",
    text: "class P\ntx 1 committed\nnew #1\nactive 2\ntx 2 committed\ntx 3 committed\nfired t on #1\ntx 4 committed\nfired t on #1\ntx 5 committed\nfired t on #1\ntx 6 committed\n",
    value: "value 33\n",
};

// A call that queues a firing, which makes the next call, and so on: 16 run, and the 17th is dropped.
static CHAIN: Queue = Queue {
    script: "class P { int n; void a() { n = n + 1; } event after a; trigger perpetual dependent s(): after a ==> { a(); } };
begin; pnew P(); activate #1.s(); commit;
#1.a();
",
    text: "class P\ntx 1 committed\nnew #1\nactive 2\ntx 2 committed\ntx 3 committed\nfired s on #1\ntx 4 committed\nfired s on #1\ntx 5 committed\nfired s on #1\ntx 6 committed\nfired s on #1\ntx 7 committed\nfired s on #1\ntx 8 committed\nfired s on #1\ntx 9 committed\nfired s on #1\ntx 10 committed\nfired s on #1\ntx 11 committed\nfired s on #1\ntx 12 committed\nfired s on #1\ntx 13 committed\nfired s on #1\ntx 14 committed\nfired s on #1\ntx 15 committed\nfired s on #1\ntx 16 committed\nfired s on #1\ntx 17 committed\nfired s on #1\ntx 18 committed\nfired s on #1\ndropped s on #1\ntx 19 committed\n",
    value: "value 17\n",
};

// What the opening of a file prints where the three firings still wait.
static WAITING: Queue = Queue {
    script: "",
    text: "fired t on #1\ntx 4 committed\nfired t on #1\ntx 5 committed\nfired t on #1\ntx 6 committed\n",
    value: "value 33\n",
};

static IDLE: Case = Case {
    name: "a second opening",
    script: "",
    text: "",
    status: Status::Ok,
};

// Whether the object's field is what the whole queue makes of it, or else what it was before.
fn is_value(shown: &Trial, queue: &Queue, was_idle: bool) -> bool {
    let value = shown.text();
    let is_before = value.starts_with("value 0\n") || shown.status == Status::Refused;
    value.starts_with(queue.value) || is_before && was_idle
}

// Behind the opening that drains the queue nothing is left to do, and each entry ran once. An opening that printed nothing may
// have found no entry.
fn ran_once(rt: &impl Abort, alloc: Global, opened: &Trial, queue: &Queue, name: &str) {
    let idle = run_case(alloc, opened.host.image(), &IDLE).expect(rt, AMISS);
    let shown = run(alloc, idle.host.image(), "show #1.n;").expect(rt, MEMORY);
    let is_value = is_value(&shown, queue, opened.text().is_empty());
    holds(rt, is_value, name);
}

// The text before a stop is the front of the whole: its length.
fn begins(rt: &impl Abort, queue: &Queue, stopped: &Trial, name: &str) -> usize {
    holds(rt, queue.text.starts_with(stopped.text()), name);
    stopped.text().len()
}

// The text behind a stop is the end of the whole, and as many bytes at least come before it.
fn ends(rt: &impl Abort, queue: &Queue, opened: &Trial, before: usize, name: &str) {
    holds(rt, queue.text.ends_with(opened.text()), name);
    let both = before.saturating_add(opened.text().len());
    holds(rt, both <= queue.text.len(), name);
}

// Behind a stop at this call the queue is drained at the next opening, what is printed before and then are the two ends of the
// whole text, and each entry ran once.
fn is_drained(rt: &impl Abort, alloc: Global, file: &[u8], queue: &Queue, at: u64, torn: Torn) {
    let name = format!(in alloc; "a stop at {at}, {torn:?}").expect(rt, MEMORY);
    let stopped = run_stopped(alloc, file, queue.script, at, torn).expect(rt, MEMORY);
    let before = begins(rt, queue, &stopped, name.as_str());
    let image = stopped.after_stop(alloc).expect(rt, MEMORY);
    let opened = run(alloc, &image, "").expect(rt, MEMORY);
    ends(rt, queue, &opened, before, name.as_str());
    ran_once(rt, alloc, &opened, queue, name.as_str());
}

// A run of this script on a file without a stop is whole: how many calls it makes. They are at least so many.
fn calls(rt: &impl Abort, alloc: Global, file: &[u8], queue: &Queue, least: u64) -> u64 {
    let whole = Case {
        name: "a whole run",
        script: queue.script,
        text: queue.text,
        status: Status::Ok,
    };
    run_case(alloc, file, &whole).expect(rt, AMISS);
    let calls = calls_of(alloc, file, queue.script).expect(rt, MEMORY);
    holds(rt, calls >= least, "the calls of a whole run");
    calls
}

const TEARS: [Torn; 4] = [Torn::Nothing, Torn::Whole, Torn::Front(9), Torn::Fill(0xA5)];

// However a run of this script on a file is stopped at this call or behind it. It makes at least so many calls.
fn is_always_drained(
    rt: &impl Abort,
    alloc: Global,
    file: &[u8],
    queue: &Queue,
    from: u64,
    least: u64,
) {
    let calls = calls(rt, alloc, file, queue, least);
    for torn in &TEARS {
        for at in from..calls {
            is_drained(rt, alloc, file, queue, at, *torn);
        }
    }
}

#[test]
fn each_entry_runs_once_wherever_the_run_is_stopped(rt: HostRuntime) {
    let file = new_file(rt.alloc()).expect(&rt, MEMORY);
    is_always_drained(&rt, rt.alloc(), &file, &THREE, 0, 30);
}

// Each of the three makes five calls. In front of them is the print of the transaction that queues them.
const PRINT_AND_BEHIND: u64 = 16;

// A file where the three firings wait.
fn waiting_file(rt: &impl Abort, alloc: Global) -> Vec<u8> {
    let file = new_file(alloc).expect(rt, MEMORY);
    let calls = calls_of(alloc, &file, THREE.script).expect(rt, MEMORY);
    let at = calls.saturating_sub(PRINT_AND_BEHIND);
    run_stopped(alloc, &file, THREE.script, at, Torn::Whole)
        .expect(rt, MEMORY)
        .after_stop(alloc)
        .expect(rt, MEMORY)
}

#[test]
fn each_entry_runs_once_wherever_the_opening_is_stopped(rt: HostRuntime) {
    let file = waiting_file(&rt, rt.alloc());
    is_always_drained(&rt, rt.alloc(), &file, &WAITING, 0, 16);
}

// The opening of a file of two areas makes it one of pages first, and has drained nothing before that.
const BEFORE: u64 = 16;

#[test]
fn each_entry_of_two_areas_runs_once_wherever_the_opening_is_stopped(rt: HostRuntime) {
    let file = waiting_file(&rt, rt.alloc());
    let areas = in_areas(rt.alloc(), &file).expect(&rt, MEMORY);
    for at in 0..BEFORE {
        is_drained(&rt, rt.alloc(), &areas, &WAITING, at, Torn::Whole);
    }
}

// Stops in the last four of 19 transactions, each of which makes five calls behind the sync of the opening.
#[test]
fn generations_go_on_behind_a_stop(rt: HostRuntime) {
    let file = new_file(rt.alloc()).expect(&rt, MEMORY);
    is_always_drained(&rt, rt.alloc(), &file, &CHAIN, 76, 96);
}
