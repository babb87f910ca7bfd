//! Sessions that look at the same object, or draw a number both.
use crate::trial::{TWO, call_sessions, file_of, says, says_on};
use ode_host::Status;
use ode_trials::amiss::{AMISS, agree};
use ode_trials::images::{FORMAT, first_format};
use ode_trials::trial::{Case, MEMORY, new_file, run_case, smooth};
use std::alloc::Global;
use std::process::Abort;

/// Two sessions, of which one is busy, and what each settles.
pub const BUSY: &str =
    "1: begin;\n2: begin;\n1: #1.a();\n2: #2.a();\n2: #1.a();\n2: commit;\n1: commit;\n2: #1.a();\n1: show #1.n;\n";

/// What they print.
pub const BUSY_TEXT: &str =
    "busy 5 session 1 on #1\ntx 4 committed\ntx 5 committed\ntx 6 committed\nvalue 2\ntx 7 committed\n";

#[test]
fn an_object_that_another_session_holds_is_busy(rt: HostRuntime) {
    says(&rt, rt.alloc(), BUSY, BUSY_TEXT, Status::Refused);
}

#[test]
fn numbers_that_another_session_drew_are_busy(rt: HostRuntime) {
    says(
        &rt,
        rt.alloc(),
        "1: begin;\n1: pnew P();\n2: pnew P();\n1: commit;\n2: pnew P();\n",
        "busy 3 session 1 on numbers\nnew #3\ntx 4 committed\nnew #4\ntx 5 committed\n",
        Status::Refused,
    );
}

#[test]
fn a_step_that_is_to_be_alone_is_busy(rt: HostRuntime) {
    says(
        &rt,
        rt.alloc(),
        "7: begin;\n3: begin;\n1: class Q { int n; };\n3: abort;\n7: abort;\n1: class Q { int n; };\n",
        "busy 3 session 3 on all\ntx 4 aborted asked\ntx 5 aborted asked\nclass Q\ntx 6 committed\n",
        Status::Refused,
    );
}

#[test]
fn an_object_that_is_not_there_is_held_too(rt: HostRuntime) {
    says(
        &rt,
        rt.alloc(),
        "1: begin;\n2: begin;\n2: #1.a();\n1: pnew P();\n2: #3.a();\n1: commit;\n2: commit;\n",
        "busy 5 session 1 on #3\nnew #3\ntx 4 committed\ntx 5 committed\n",
        Status::Refused,
    );
}

#[test]
fn an_abort_settles_at_its_step(rt: HostRuntime) {
    says(
        &rt,
        rt.alloc(),
        "1: begin;\n1: show #1.n;\n1: show 1 / #1.n;\n1: show #1.n;\n",
        "value 0\ntx 4 aborted zero divisor\nvalue 0\ntx 5 committed\n",
        Status::Ok,
    );
}

#[test]
fn sessions_that_are_open_at_the_end_are_aborted(rt: HostRuntime) {
    says(
        &rt,
        rt.alloc(),
        "2: begin;\n1: begin;\n1: #1.a();\n2: #2.a();\n2: show #2.n;\n",
        "tx 4 aborted end\nvalue 1\ntx 5 aborted end\n",
        Status::Ok,
    );
}

#[test]
fn an_empty_script_changes_nothing(rt: HostRuntime) {
    let file = new_file(rt.alloc()).expect(&rt, MEMORY);
    says_on(&rt, rt.alloc(), &file, "", "", Status::Ok)
        .leaves(rt.alloc(), &file, "an empty script")
        .expect(&rt, AMISS);
}

// A migration puts the last format here, into the other slot.
const OTHER_FORMAT: usize = 2048 + FORMAT;

#[test]
fn a_file_of_the_first_format_is_migrated(rt: HostRuntime) {
    let file = first_format(rt.alloc()).expect(&rt, MEMORY);
    let ran = says_on(
        &rt,
        rt.alloc(),
        &file,
        "1: class Q { int n; };",
        "class Q\ntx 1 committed\n",
        Status::Ok,
    );
    let format = ran.host.image().get(OTHER_FORMAT).copied();
    agree(rt.alloc(), format, Some(2), "the format").expect(&rt, AMISS);
}

// These words are answered with the line of the usage.
fn are_wrong(rt: &impl Abort, alloc: Global, words: &[&str]) {
    call_sessions(rt, alloc, words, "1: ;", &[], smooth(alloc))
        .is(
            alloc,
            "usage: ode_multi FILE\n",
            Status::Usage,
            "wrong words",
        )
        .expect(rt, AMISS);
}

#[test]
fn words_that_are_not_one_file_are_answered_with_the_usage(rt: HostRuntime) {
    are_wrong(&rt, rt.alloc(), &[]);
    are_wrong(&rt, rt.alloc(), &["-f"]);
    are_wrong(&rt, rt.alloc(), &[""]);
    are_wrong(&rt, rt.alloc(), &["f", "g"]);
}

// A note is taken in a transaction of its own, behind the commit.
const NOTES: &str = "class Log { int notes; void note() { notes = notes + 1; } };
class P { int n; void a() { n = n + 1; } event after a;
trigger perpetual dependent told(ref Log log): after a ==> { log.note(); } };
pnew Log(); pnew P(); pnew P(); activate #2.told(#1); activate #3.told(#1);";

#[test]
fn the_queue_that_another_session_met_is_busy(rt: HostRuntime) {
    let file = file_of(&rt, rt.alloc(), NOTES);
    says_on(
        &rt,
        rt.alloc(),
        &file,
        "1: begin;\n2: begin;\n1: #2.a();\n2: #3.a();\n2: show #3.n;\n1: commit;\n2: #3.a();\n",
        "busy 4 session 1 on queue\ntx 8 committed\nvalue 0\ntx 9 aborted end\nfired told on #2\ntx 10 committed\n",
        Status::Refused,
    );
}

static SETTLED: Case = Case {
    name: "a run behind sessions",
    script: "show #1.n; show #2.n;",
    text: "value 2\ntx 8 committed\nvalue 1\ntx 9 committed\n",
    status: Status::Ok,
};

#[test]
fn what_sessions_settle_is_there_for_a_run(rt: HostRuntime) {
    let file = file_of(&rt, rt.alloc(), TWO);
    let ran = says_on(&rt, rt.alloc(), &file, BUSY, BUSY_TEXT, Status::Refused);
    run_case(rt.alloc(), ran.host.image(), &SETTLED).expect(&rt, AMISS);
}
