//! Calls of sessions in memory. Where there is no memory a test ends.
use ode_host::{MemHost, Plan, Status};
use ode_sessions::run_multi;
use ode_trials::amiss::{AMISS, agree};
use ode_trials::trial::{MEMORY, Trial, new_file, run, smooth, source, words_of};
use std::alloc::Global;
use std::process::Abort;

/// A call of sessions with these words, by this plan.
pub fn call_sessions(
    rt: &impl Abort,
    alloc: Global,
    words: &[&str],
    script: &str,
    image: &[u8],
    plan: Plan,
) -> Trial {
    let image = image.to_vec(alloc).expect(rt, MEMORY);
    let mut host = MemHost::new(alloc, image, plan).expect(rt, MEMORY);
    let words = words_of(alloc, words).expect(rt, MEMORY);
    let mut script = source(alloc, script, &[], 3).expect(rt, MEMORY);
    let status = run_multi(alloc, &words, &mut script, &mut host);
    Trial { status, host }
}

/// A run of sessions on an image, with this script and by this plan.
pub fn sessions(rt: &impl Abort, alloc: Global, script: &str, image: &[u8], plan: Plan) -> Trial {
    call_sessions(rt, alloc, &["f"], script, image, plan)
}

/// The file that a script leaves.
pub fn file_of(rt: &impl Abort, alloc: Global, script: &str) -> Vec<u8> {
    let file = new_file(alloc).expect(rt, MEMORY);
    let made = run(alloc, &file, script).expect(rt, MEMORY);
    agree(alloc, made.status, Status::Ok, "the file of a test").expect(rt, AMISS);
    made.image(alloc).expect(rt, MEMORY)
}

/// A class and two objects of it, in three transactions.
pub const TWO: &str = "class P { int n; void a() { n = n + 1; } }; pnew P(); pnew P();";

/// A script of sessions on a file prints this text and ends so.
pub fn says_on(
    rt: &impl Abort,
    alloc: Global,
    file: &[u8],
    script: &str,
    text: &str,
    status: Status,
) -> Trial {
    let ran = sessions(rt, alloc, script, file, smooth(alloc));
    ran.is(alloc, text, status, script).expect(rt, AMISS);
    ran
}

/// The same on a file of two objects.
pub fn says(rt: &impl Abort, alloc: Global, script: &str, text: &str, status: Status) {
    let file = file_of(rt, alloc, TWO);
    says_on(rt, alloc, &file, script, text, status);
}
