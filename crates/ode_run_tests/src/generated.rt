//! A `gen` that is cut leaves what some first statements of its script make.
use crate::cut_runs::{Course, Cut, Part, Step, TEARS, course_of, goes_on};
use crate::equal::{equal, holds};
use ode_host::{Status, Torn};
use ode_trials::trial::{MEMORY, call, source};
use std::alloc::Global;
use std::process::Abort;

// The script of the number 2.
const MADE: &[Step] = &[
    (
        "class Gen { int n; void put(int d) { n = n + d; } void take(int d) { n = n - d; } event after put, after take; trigger perpetual low(int k): after take && n < k ==> { say \"low\"; } trigger perpetual whole three(): every 3 (after put) ==> { show n; } };\n",
        "class Gen\ntx 1 committed\n",
    ),
    (
        "begin; pnew Gen(); activate #1.low(50); activate #1.three(); commit;\n",
        "new #1\nactive 2\nactive 3\ntx 2 committed\n",
    ),
    ("#1.put(8);\n", "tx 3 committed\n"),
    (
        "#1.take(17);\n",
        "fired low on #1\nsaid low\ntx 4 committed\n",
    ),
];

const LINE: &str = "gen 2 statements 8 settled 4 refused 0 bytes 120\n";

// Whether the file holds what some first steps make, and goes on behind them.
fn is_of_first_steps(rt: &impl Abort, alloc: Global, course: &Course, image: &[u8]) -> bool {
    let mut found = false;
    for count in 0..course.steps.len().saturating_add(1) {
        found = found || goes_on(rt, alloc, course, image, count);
    }
    found
}

// A `gen` on a new file, cut so: it prints its line as a whole, behind all steps, or nothing. Whether it was cut.
fn is_cut(rt: &impl Abort, alloc: Global, course: &Course, cut: Cut) -> bool {
    let name = format!(in alloc; "{cut:?}").expect(rt, MEMORY);
    let none = source(alloc, "", &[], 1).expect(rt, MEMORY);
    let plan = cut.plan(rt, alloc);
    let ran = call(alloc, &["gen", "f", "2"], none, &course.file, plan).expect(rt, MEMORY);
    let is_cut = ran.status != Status::Ok;
    let is_well = if is_cut { cut.ends(ran.status) } else { true };
    holds(rt, is_well, name.as_str());
    equal(
        rt,
        ran.text(),
        if is_cut { "" } else { LINE },
        name.as_str(),
    );
    let image = ran.after_stop(alloc).expect(rt, MEMORY);
    let is_kept = if is_cut {
        is_of_first_steps(rt, alloc, course, &image)
    } else {
        goes_on(rt, alloc, course, &image, course.steps.len())
    };
    holds(rt, is_kept, name.as_str());
    is_cut
}

// How many of the first calls of a part are cuts.
fn cuts(rt: &impl Abort, alloc: Global, course: &Course, part: Part, torn: Torn) -> u64 {
    let mut cuts = 0u64;
    for number in 0..40u64 {
        if is_cut(rt, alloc, course, Cut { part, number, torn }) {
            cuts = cuts.saturating_add(1);
        }
    }
    cuts
}

// Each of the four transactions makes four calls of the disk, and the line is printed by one call.
fn stops_of_course(rt: &impl Abort, alloc: Global, course: &Course) {
    for torn in &TEARS {
        let stops = cuts(rt, alloc, course, Part::Host, *torn);
        holds(rt, stops >= 17 && stops < 40, "the stops");
    }
}

#[test]
fn a_gen_that_is_stopped_anywhere_leaves_first_steps(rt: HostRuntime) {
    stops_of_course(&rt, rt.alloc(), &course_of(&rt, rt.alloc(), MADE));
}

#[test]
fn a_gen_whose_disk_or_output_fails_anywhere_leaves_first_steps(rt: HostRuntime) {
    let course = course_of(&rt, rt.alloc(), MADE);
    let calls = cuts(&rt, rt.alloc(), &course, Part::Host, Torn::Whole);
    let prints = cuts(&rt, rt.alloc(), &course, Part::Output, Torn::Whole);
    equal(&rt, prints, 1, "the print");
    let disk = cuts(&rt, rt.alloc(), &course, Part::Disk, Torn::Nothing);
    equal(&rt, disk.saturating_add(prints), calls, "the calls");
}
