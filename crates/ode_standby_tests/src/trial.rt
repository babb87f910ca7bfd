//! Streams of frames, shipped and followed in memory. Where there is no memory a test ends.
use ode_host::{MemSource, Plan, Status};
use ode_trials::amiss::{AMISS, agree};
use ode_trials::trial::{Case, MEMORY, Trial, call, new_file, run_case, smooth, source};
use std::alloc::Global;
use std::process::Abort;

/// The file that `init` makes.
pub fn fresh(rt: &impl Abort, alloc: Global) -> Vec<u8> {
    new_file(alloc).expect(rt, MEMORY)
}

/// What a primary does with this script, whose file is this.
pub fn ships(rt: &impl Abort, alloc: Global, script: &str, image: &[u8]) -> Trial {
    let script = source(alloc, script, &[], 3).expect(rt, MEMORY);
    call(alloc, &["ship", "f"], script, image, smooth(alloc)).expect(rt, MEMORY)
}

/// What a standby does with this stream, whose file is this, by this plan.
pub fn follow(rt: &impl Abort, alloc: Global, stream: &[u8], image: &[u8], plan: Plan) -> Trial {
    let stream = stream.to_vec(alloc).expect(rt, MEMORY);
    let stream = MemSource::new(stream, Vec::new(alloc), 3);
    call(alloc, &["follow", "f"], stream, image, plan).expect(rt, MEMORY)
}

// A class and an object of it, in two transactions.
const SCRIPT: &str = "class P { int n; }; pnew P(n = 5);";

/// What a primary ships of a class and an object of it, whose file is this.
pub fn shipped_from(rt: &impl Abort, alloc: Global, image: &[u8]) -> Vec<u8> {
    let ran = ships(rt, alloc, SCRIPT, image);
    agree(alloc, ran.status, Status::Ok, "a run that ships").expect(rt, AMISS);
    ran.host.text().to_vec(alloc).expect(rt, MEMORY)
}

/// What a primary ships of them from a new file on.
pub fn shipped(rt: &impl Abort, alloc: Global) -> Vec<u8> {
    shipped_from(rt, alloc, &fresh(rt, alloc))
}

/// A stream is followed on an image, says this and ends so.
pub fn follows(
    rt: &impl Abort,
    alloc: Global,
    stream: &[u8],
    image: &[u8],
    text: &str,
    status: Status,
) -> Trial {
    let ran = follow(rt, alloc, stream, image, smooth(alloc));
    ran.is(alloc, text, status, "a stream that is followed")
        .expect(rt, AMISS);
    ran
}

static THERE: Case = Case {
    name: "a run on a standby",
    script: "show #1.n;",
    text: "value 5\ntx 3 committed\n",
    status: Status::Ok,
};

/// The object is there, and the next transaction is the third.
pub fn is_there(rt: &impl Abort, alloc: Global, image: &[u8]) {
    run_case(alloc, image, &THERE).expect(rt, AMISS);
}
