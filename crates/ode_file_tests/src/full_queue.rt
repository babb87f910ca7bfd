//! A queue that is long, and one that is full.
use ode_host::Status;
use ode_trials::acts::{Act, Made, file_behind, play};
use ode_trials::amiss::AMISS;
use ode_trials::long::push_firings;
use ode_trials::trial::{Case, MEMORY, run, run_case};
use std::alloc::Global;
use std::process::Abort;

// So many entries wait at most.
const MOST: u64 = 4096;

// A class whose queued action adds 1, an object, and an activation.
const COUNTS: &str =
    "class P { int n; void a() { } event after a; trigger perpetual dependent t(): after a ==> { n = n + 1; } };
begin; pnew P(); activate #1.t(); commit;
";

// The same, but each queued action makes two calls that queue it anew.
const QUEUES: &str =
    "class P { int n; void a() { } event after a; trigger perpetual dependent t(): after a ==> { a(); a(); } };
begin; pnew P(); activate #1.t(); commit;
";

const OPENING: Case = Case {
    name: "an opening with one number left for a transaction",
    script: "",
    text: "fired t on #1\ndropped t on #1\ntx 4611686018427387903 committed\n",
    status: Status::Ok,
};

const NUMBERLESS: Case = Case {
    name: "a run without a number",
    script: "say \"x\";",
    text: "refused 1 numbers spent\n",
    status: Status::Refused,
};

// The one that runs makes room for one more. What still waits is a good file, and none of it runs without a number.
const FULL: &[Act] = &[
    Act::Make(Made::New),
    Act::Run(QUEUES),
    Act::IntoAreas,
    Act::Queue(MOST, (1 << 62) - 1),
    Act::Case(OPENING),
    Act::Stays(NUMBERLESS),
];

#[test]
fn a_full_queue_takes_one_firing_for_the_one_that_runs(rt: HostRuntime) {
    play(rt.alloc(), FULL).expect(&rt, AMISS);
}

const REFUSED: Case = Case {
    name: "an entry too much",
    script: "",
    text: "bad file record 9 4097 0\n",
    status: Status::BadFile,
};

const OVERFULL: &[Act] = &[
    Act::Make(Made::New),
    Act::Run(COUNTS),
    Act::IntoAreas,
    Act::Queue(MOST + 1, 3),
    Act::Stays(REFUSED),
];

#[test]
fn a_file_with_an_entry_too_much_is_bad(rt: HostRuntime) {
    play(rt.alloc(), OVERFULL).expect(&rt, AMISS);
}

// A full one has as many transactions as entries too, which would take a minute.
const LONG: &[Act] = &[
    Act::Make(Made::New),
    Act::Run(COUNTS),
    Act::IntoAreas,
    Act::Queue(300, 3),
];

static BEHIND: Case = Case {
    name: "a run behind a long queue",
    script: "show #1.n;",
    text: "value 300\ntx 303 committed\n",
    status: Status::Ok,
};

// What the opening prints.
fn drained(rt: &impl Abort, alloc: Global) -> String {
    let mut text = String::new(alloc);
    push_firings(alloc, &mut text, 3, 300).expect(rt, MEMORY);
    text
}

#[test]
fn a_long_queue_is_drained_whole_at_the_opening(rt: HostRuntime) {
    let image = file_behind(rt.alloc(), LONG).expect(&rt, AMISS);
    let ran = run(rt.alloc(), &image, "").expect(&rt, MEMORY);
    let text = drained(&rt, rt.alloc());
    ran.is_long(rt.alloc(), text.as_str(), Status::Ok, "a long queue")
        .expect(&rt, AMISS);
    run_case(rt.alloc(), ran.host.image(), &BEHIND).expect(&rt, AMISS);
}
