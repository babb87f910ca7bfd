//! The words of a call.
use crate::equal::equal;
use ode_host::Status;
use ode_trials::amiss::AMISS;
use ode_trials::file_word;
use ode_trials::trial::{MEMORY, call, failing, new_file, smooth, source, words_of};
use std::alloc::Global;
use std::process::Abort;

const USAGE: &str =
    "usage: ode (init|run|check|dump|query|same|ship|follow) FILE | ode gen FILE N\n";

// Words that a line of a case can't have; each other list of wrong words is a case.
const WRONG: [&[&str]; 3] = [&["init", ""], &["run", ""], &["run ", "f"]];

fn are_wrong(rt: &impl Abort, alloc: Global, words: &[&str], file: &[u8]) {
    let script = source(alloc, "class P { int n; };", &[], 4096).expect(rt, MEMORY);
    let ran = call(alloc, words, script, file, smooth(alloc)).expect(rt, MEMORY);
    ran.is(alloc, USAGE, Status::Usage, "a call with wrong words")
        .expect(rt, AMISS);
    ran.leaves(alloc, file, "a call with wrong words")
        .expect(rt, AMISS);
}

#[test]
fn a_word_that_is_empty_or_has_a_blank_is_wrong(rt: HostRuntime) {
    let file = new_file(rt.alloc()).expect(&rt, MEMORY);
    for words in &WRONG {
        are_wrong(&rt, rt.alloc(), words, &file);
    }
}

// These words name this file, or none.
fn names(rt: &impl Abort, alloc: Global, words: &[&str], file: Option<&str>) {
    equal(
        rt,
        file_word(&words_of(alloc, words).expect(rt, MEMORY)),
        file,
        "the file of a call",
    );
}

const NAMELESS: [&[&str]; 13] = [
    &[],
    &["run"],
    &["run", "-x"],
    &["check"],
    &["dump", "-f"],
    &["query"],
    &["same", "-f"],
    &["ship"],
    &["follow", "-f"],
    &["gen", "f"],
    &["gen", "f", "0"],
    &["run", "f", "1"],
    &["init", ""],
];

#[test]
fn wrong_words_name_no_file(rt: HostRuntime) {
    for words in &NAMELESS {
        names(&rt, rt.alloc(), words, None);
    }
}

const NAMED: [&[&str]; 11] = [
    &["init", "f"],
    &["run", "f"],
    &["run", "run"],
    &["check", "f"],
    &["dump", "f"],
    &["query", "f"],
    &["same", "f"],
    &["ship", "f"],
    &["follow", "f"],
    &["gen", "f", "4000"],
    &["init", "a b/c-d.db"],
];

#[test]
fn right_words_name_their_file(rt: HostRuntime) {
    for words in &NAMED {
        names(&rt, rt.alloc(), words, words.get(1).copied());
    }
}

#[test]
fn a_usage_line_that_is_not_printed_is_a_write_fault(rt: HostRuntime) {
    let plan = failing(rt.alloc(), &[], &[0]).expect(&rt, MEMORY);
    let script = source(rt.alloc(), "", &[], 1).expect(&rt, MEMORY);
    let ran = call(rt.alloc(), &["fly", "f"], script, &[], plan).expect(&rt, MEMORY);
    ran.is(
        rt.alloc(),
        "",
        Status::WriteFault,
        "a usage line that is not printed",
    )
    .expect(&rt, AMISS);
}

const STATUSES: [(Status, u8); 10] = [
    (Status::Ok, 0),
    (Status::Refused, 1),
    (Status::Usage, 2),
    (Status::BadFile, 3),
    (Status::DiskFault, 4),
    (Status::ReadFault, 5),
    (Status::WriteFault, 6),
    (Status::Memory, 7),
    (Status::LongStatement, 8),
    (Status::LongScript, 9),
];

#[test]
fn statuses_have_their_numbers(rt: HostRuntime) {
    for (status, number) in &STATUSES {
        equal(&rt, status.code(), *number, "the number of a status");
    }
}
