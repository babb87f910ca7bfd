//! Runs on files of the first format, which are made files of the last one.
use crate::equal::equal;
use crate::gates::ACCOUNT_RUN;
use ode_host::{Status, Torn};
use ode_trials::amiss::AMISS;
use ode_trials::images::{FORMAT, first_file, in_areas, patched};
use ode_trials::trial::{
    Case, MEMORY, Trial, call, calls_of, new_file, run_case, run_stopped, smooth, source,
};
use std::alloc::Global;
use std::process::Abort;

// Where the layout stands in the first slot, as far as it isn't 0.
const LAYOUT: usize = 16;

static MORE: Case = Case {
    name: "an object more",
    script: "show #1.n; pnew P(n = 6);",
    text: "value 5\ntx 4 committed\nnew #2\ntx 5 committed\n",
    status: Status::Ok,
};

static SHOWN: Case = Case {
    name: "a run behind it",
    script: "show #2.n;",
    text: "value 6\ntx 6 committed\n",
    status: Status::Ok,
};

// The first slot says the last format, and pages.
fn is_of_last(rt: &impl Abort, image: &[u8], name: &str) {
    let found = (image.get(FORMAT).copied(), image.get(LAYOUT).copied());
    equal(rt, found, (Some(2), Some(2)), name);
}

// Whatever the generation of the slot that is open.
#[test]
fn a_file_with_a_snapshot_goes_on_as_one_of_pages(rt: HostRuntime) {
    let file = first_file(rt.alloc()).expect(&rt, MEMORY);
    for generation in &[1, 2, 3u8] {
        let file = patched(rt.alloc(), &file, 24, &[*generation]).expect(&rt, MEMORY);
        let more = run_case(rt.alloc(), &file, &MORE).expect(&rt, AMISS);
        is_of_last(&rt, more.host.image(), MORE.name);
        run_case(rt.alloc(), more.host.image(), &SHOWN).expect(&rt, AMISS);
    }
}

static WITHDRAWAL: Case = Case {
    name: "a withdrawal",
    script: "#1.withdraw(10);",
    text: "fired low on #1\nsaid low\nvalue 80\ntx 3 committed\n",
    status: Status::Ok,
};

static BALANCE: Case = Case {
    name: "the account in two areas",
    script: "show #1.balance;",
    text: "value 80\ntx 4 committed\n",
    status: Status::Ok,
};

// The account behind a withdrawal, in a file of two areas.
fn account(rt: &impl Abort, alloc: Global) -> Vec<u8> {
    let file = new_file(alloc).expect(rt, MEMORY);
    let made = run_case(alloc, &file, &ACCOUNT_RUN).expect(rt, AMISS);
    let drawn = run_case(alloc, made.host.image(), &WITHDRAWAL).expect(rt, AMISS);
    in_areas(alloc, drawn.host.image()).expect(rt, MEMORY)
}

fn check(rt: &impl Abort, alloc: Global, image: &[u8]) -> Trial {
    let script = source(alloc, "", &[], 1).expect(rt, MEMORY);
    call(alloc, &["check", "f"], script, image, smooth(alloc)).expect(rt, MEMORY)
}

const COUNTS: &str = "good classes 1 objects 1 activations 1 entries 0\n";

const TEARS: [Torn; 2] = [Torn::Nothing, Torn::Whole];

// A run that is stopped at a call before its transaction: a check finds what was there.
fn is_as_it_was(rt: &impl Abort, alloc: Global, file: &[u8], at: u64, torn: Torn) {
    let stopped = run_stopped(alloc, file, BALANCE.script, at, torn).expect(rt, MEMORY);
    let image = stopped.after_stop(alloc).expect(rt, MEMORY);
    check(rt, alloc, &image)
        .is(alloc, COUNTS, Status::Ok, "a migration that is stopped")
        .expect(rt, AMISS);
}

#[test]
fn a_file_of_two_areas_becomes_one_of_pages_wherever_it_is_stopped(rt: HostRuntime) {
    let file = account(&rt, rt.alloc());
    let ran = run_case(rt.alloc(), &file, &BALANCE).expect(&rt, AMISS);
    is_of_last(&rt, ran.host.image(), BALANCE.name);
    let calls = calls_of(rt.alloc(), &file, BALANCE.script).expect(&rt, MEMORY);
    for torn in &TEARS {
        for at in 0..calls {
            is_as_it_was(&rt, rt.alloc(), &file, at, *torn);
        }
    }
}
