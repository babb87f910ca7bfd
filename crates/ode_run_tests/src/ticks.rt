//! A stop on the way through the clock's ticks.
use crate::equal::holds;
use ode_host::{Status, Torn};
use ode_trials::acts::{Act, Made, file_behind, play};
use ode_trials::amiss::AMISS;
use ode_trials::trial::{Case, MEMORY, calls_of, run, run_case, run_stopped};
use std::alloc::Global;
use std::process::Abort;

// A class each tick of which queues a firing that counts it, and an object.
const COUNTS: &str =
    "class C { int n; void add() { n = n + 1; } event time every 10; trigger initial perpetual dependent d(): time every 10 ==> { add(); } };
pnew C();
";

const SET: &[Act] = &[
    Act::Make(Made::New),
    Act::Run(COUNTS),
    Act::Run("clock \"1970-01-01T00:00:05Z\";"),
];

// Three ticks, each with its drain, and the move behind them.
static TICKS: Case = Case {
    name: "three ticks",
    script: "clock \"1970-01-01T00:00:30Z\";",
    text: "tx 4 committed\nfired d on #1\ntx 5 committed\ntx 6 committed\nfired d on #1\ntx 7 committed\ntx 8 committed\nfired d on #1\ntx 9 committed\ntx 10 committed\n",
    status: Status::Ok,
};

// Behind a stop at this call the same command gives the ticks that are left, so that each came once.
fn goes_on(rt: &impl Abort, alloc: Global, file: &[u8], at: u64, torn: Torn) {
    let name = format!(in alloc; "a stop at {at}, {torn:?}").expect(rt, MEMORY);
    let stopped = run_stopped(alloc, file, TICKS.script, at, torn).expect(rt, MEMORY);
    holds(rt, TICKS.text.starts_with(stopped.text()), name.as_str());
    let image = stopped.after_stop(alloc).expect(rt, MEMORY);
    let again = run(alloc, &image, TICKS.script).expect(rt, MEMORY);
    let shown = run(alloc, again.host.image(), "show #1.n;").expect(rt, MEMORY);
    holds(rt, shown.text().starts_with("value 3\n"), name.as_str());
}

const TEARS: [Torn; 4] = [Torn::Nothing, Torn::Whole, Torn::Front(9), Torn::Fill(0xA5)];

#[test]
fn each_tick_comes_once_wherever_the_clock_is_stopped(rt: HostRuntime) {
    let file = file_behind(rt.alloc(), SET).expect(&rt, AMISS);
    run_case(rt.alloc(), &file, &TICKS).expect(&rt, AMISS);
    let calls = calls_of(rt.alloc(), &file, TICKS.script).expect(&rt, MEMORY);
    holds(&rt, calls >= 35, "the calls of seven transactions");
    for torn in &TEARS {
        for at in 0..calls {
            goes_on(&rt, rt.alloc(), &file, at, *torn);
        }
    }
}

// Three ticks where one number is left for a transaction: they and the move have it and those behind it, and no firing that they
// queue runs.
const NUMBERS: Case = Case {
    name: "ticks behind the last number",
    script: "clock \"1970-01-01T00:00:05Z\"; clock \"1970-01-01T00:00:30Z\"; clock \"1970-01-01T00:00:40Z\";",
    text: "tx 4611686018427387902 committed\ntx 4611686018427387903 committed\ntx 4611686018427387904 committed\ntx 4611686018427387905 committed\ntx 4611686018427387906 committed\nrefused 1 numbers spent\n",
    status: Status::Refused,
};

const NUMBERLESS: Case = Case {
    name: "an opening behind them",
    script: "clock \"1970-01-01T00:00:40Z\"; clock \"soon\";",
    text: "refused 1 numbers spent\nrefused 1 numbers spent\n",
    status: Status::Refused,
};

const LAST: &[Act] = &[
    Act::Make(Made::New),
    Act::Run(COUNTS),
    Act::IntoAreas,
    Act::Queue(0, (1 << 62) - 2),
    Act::Case(NUMBERS),
    Act::Stays(NUMBERLESS),
];

#[test]
fn ticks_go_on_behind_the_last_number(rt: HostRuntime) {
    play(rt.alloc(), LAST).expect(&rt, AMISS);
}
