//! Lines that can't be printed. Runs that the disk, the source or the output cuts are in `cut_runs`.
use crate::equal::equal;
use ode_host::Status;
use ode_trials::amiss::AMISS;
use ode_trials::trial::{FIRST, MEMORY, Trial, failing, new_file, run_by};
use std::alloc::Global;
use std::process::Abort;

// What is run, how it ends where all is printed, and what is printed before each print that fails.
struct Unprinted {
    name: &'static str,
    script: &'static str,
    whole: Status,
    texts: &'static [&'static str],
}

// A run whose print of this number fails.
fn run_unprinted(
    rt: &impl Abort,
    alloc: Global,
    file: &[u8],
    row: &Unprinted,
    number: u64,
) -> Trial {
    let plan = failing(alloc, &[], &[number]).expect(rt, MEMORY);
    run_by(alloc, file, row.script, plan).expect(rt, MEMORY)
}

// Each print that fails cuts the run.
fn each_print_cuts(rt: &impl Abort, alloc: Global, file: &[u8], row: &Unprinted) {
    let mut cut = 0usize;
    for number in 0..16u64 {
        let ran = run_unprinted(rt, alloc, file, row, number);
        if ran.status != row.whole {
            let text = row.texts.get(cut).copied().unwrap_or("a print more");
            ran.is(alloc, text, Status::WriteFault, row.name)
                .expect(rt, AMISS);
            cut = cut.saturating_add(1);
        }
    }
    equal(rt, cut, row.texts.len(), row.name);
}

static REFUSALS: Unprinted = Unprinted {
    name: "a refusal that cannot be printed",
    script: "x; y;",
    whole: Status::Refused,
    texts: &["", "refused 1 syntax 1\n"],
};

#[test]
fn a_refusal_that_cannot_be_printed_is_a_write_fault(rt: HostRuntime) {
    let file = new_file(rt.alloc()).expect(&rt, MEMORY);
    each_print_cuts(&rt, rt.alloc(), &file, &REFUSALS);
}

static BAD_FILE: Unprinted = Unprinted {
    name: "a line that cannot be printed",
    script: FIRST,
    whole: Status::BadFile,
    texts: &[""],
};

#[test]
fn a_bad_file_whose_line_cannot_be_printed_is_a_write_fault(rt: HostRuntime) {
    each_print_cuts(&rt, rt.alloc(), &[], &BAD_FILE);
}
