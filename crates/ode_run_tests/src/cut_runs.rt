//! A run that is cut is picked up by the next one.
use crate::equal::{equal, holds};
use ode_host::{Plan, Status, Torn};
use ode_trials::amiss::AMISS;
use ode_trials::trial::{
    Case, MEMORY, Trial, call, calls_of, failing, init, new_file, run, run_case, source, stopping,
};
use std::alloc::Global;
use std::process::Abort;

/// Statements that settle one transaction, and what they print.
pub type Step = (&'static str, &'static str);

const TRANSACTIONS: &[Step] = &[
    (
        "class P { int n; void a() { n = n + 1; } constraint c: n < 2; soft constraint d: n != 1; };\n",
        "class P\ntx 1 committed\n",
    ),
    ("pnew P();\n", "new #1\ntx 2 committed\n"),
    ("#1.a();\n", "tx 3 aborted constraint d\n"),
    (
        "begin; pnew P(); newversion #1; abort;\n",
        "new #2\nversion #1@2\ntx 4 aborted asked\n",
    ),
    ("begin; #1.a(); #1.a();\n", "tx 5 aborted constraint c\n"),
    (
        "begin; pnew P(); pdelete #1; show #3.n; commit;\n",
        "new #3\nvalue 0\ntx 6 committed\n",
    ),
    ("newversion #3;\n", "version #3@2\ntx 7 committed\n"),
    ("begin; pnew P();\n", "new #4\ntx 8 aborted end\n"),
];

const VERSIONS: &[Step] = &[
    (
        "class V { int n; ref V old; event after newversion, before delversion; trigger initial perpetual whole w(): every 3 (after newversion or before delversion) ==> { say \"w\"; } };\n",
        "class V\ntx 1 committed\n",
    ),
    ("pnew V(n = 1);\n", "new #1\nactive 2\ntx 2 committed\n"),
    ("newversion #1;\n", "version #1@2\ntx 3 committed\n"),
    ("show version(#1);\n", "value #1@2\ntx 4 committed\n"),
    ("show #1@1.n;\n", "value 1\ntx 5 committed\n"),
    ("delversion #1@2;\n", "tx 6 committed\n"),
    ("delversion #1;\n", "tx 7 aborted last version #1\n"),
    (
        "newversion #1;\n",
        "version #1@3\nfired w on #1\nsaid w\ntx 8 committed\n",
    ),
    ("pdelete #1;\n", "tx 9 committed\n"),
    ("pnew V();\n", "new #3\nactive 4\ntx 10 committed\n"),
    ("show #3.old;\n", "value null\ntx 11 committed\n"),
];

const TRIGGERS: &[Step] = &[
    (
        "class P { int n; void a() { n = n + 1; } event after a; trigger perpetual whole w(): every 3 (after a) ==> { say \"w\"; } trigger perpetual m(): every 3 (after a) ==> { say \"m\"; } };\n",
        "class P\ntx 1 committed\n",
    ),
    (
        "begin; pnew P(); activate #1.w(); activate #1.m(); commit;\n",
        "new #1\nactive 2\nactive 3\ntx 2 committed\n",
    ),
    ("begin; #1.a(); #1.a(); abort;\n", "tx 3 aborted asked\n"),
    ("#1.a();\n", "fired w on #1\nsaid w\ntx 4 committed\n"),
    ("#1.a();\n", "tx 5 committed\n"),
    ("#1.a();\n", "fired m on #1\nsaid m\ntx 6 committed\n"),
];

// Their script, and what it prints.
#[derive(Drop)]
struct Joined {
    script: String,
    text: String,
}

fn join(rt: &impl Abort, alloc: Global, steps: &[Step]) -> Joined {
    let mut script = String::new(alloc);
    let mut text = String::new(alloc);
    for step in steps {
        script.push_str(step.0).expect(rt, MEMORY);
        text.push_str(step.1).expect(rt, MEMORY);
    }
    Joined { script, text }
}

// How many steps have printed this text.
fn printed(steps: &[Step], text: &str) -> Option<usize> {
    let mut rest = text;
    let mut count = 0usize;
    for step in steps {
        match rest.strip_prefix(step.1) {
            Some(more) => rest = more,
            None => break,
        }
        count = count.saturating_add(1);
    }
    if rest.is_empty() { Some(count) } else { None }
}

/// Steps, an empty database, and the image that a whole run of them on it leaves.
#[derive(Drop)]
pub struct Course {
    pub steps: &'static [Step],
    script: String,
    pub file: Vec<u8>,
    whole: Vec<u8>,
}

/// Steps that print what they say in a whole run on a new file.
pub fn course_of(rt: &impl Abort, alloc: Global, steps: &'static [Step]) -> Course {
    let Joined { script, text } = join(rt, alloc, steps);
    let file = new_file(alloc).expect(rt, MEMORY);
    let case = Case {
        name: "a whole run",
        script: script.as_str(),
        text: text.as_str(),
        status: Status::Ok,
    };
    let whole = run_case(alloc, &file, &case)
        .expect(rt, AMISS)
        .image(alloc)
        .expect(rt, MEMORY);
    Course {
        steps,
        script,
        file,
        whole,
    }
}

// It printed this text, ended with `Ok`, and left this image.
fn is_whole(ran: &Trial, text: &str, image: &[u8]) -> bool {
    ran.status == Status::Ok && ran.text() == text && ran.host.image() == image
}

/// Whether the steps behind so many make a file what it is without a cut.
pub fn goes_on(
    rt: &impl Abort,
    alloc: Global,
    course: &Course,
    image: &[u8],
    count: usize,
) -> bool {
    let rest = join(rt, alloc, course.steps.get(count..).unwrap_or(&[]));
    let ran = run(alloc, image, rest.script.as_str()).expect(rt, MEMORY);
    is_whole(&ran, rest.text.as_str(), &course.whole)
}

// A cut run printed what some first steps print. Its file holds these, and at most one more, and goes on behind them.
fn is_picked_up(rt: &impl Abort, alloc: Global, ran: Trial, course: &Course, name: &str) {
    equal(rt, ran.host.refused(), 0, name);
    let count = printed(course.steps, ran.text()).expect(rt, name);
    let image = ran.after_stop(alloc).expect(rt, MEMORY);
    let is_kept = goes_on(rt, alloc, course, &image, count)
        || goes_on(rt, alloc, course, &image, count.saturating_add(1));
    holds(rt, is_kept, name);
}

/// What fails: the host as a whole, its disk, its output, or the reads of the script.
#[derive(Clone, Copy, Debug, PartialEq)]
pub enum Part {
    Host,
    Disk,
    Output,
    Script,
}

/// The call of this number fails, and a stop, there or later, tears what is pending.
#[derive(Clone, Copy, Debug)]
pub struct Cut {
    pub part: Part,
    pub number: u64,
    pub torn: Torn,
}

// A number behind all calls.
const LATE: u64 = 1000;

impl Cut {
    // The number of the call of this part that fails.
    fn number_of(&self, part: Part) -> u64 {
        if part == self.part { self.number } else { LATE }
    }

    /// The plan by which it is cut.
    pub fn plan(&self, rt: &impl Abort, alloc: Global) -> Plan {
        let disk = self.number_of(Part::Disk);
        let output = self.number_of(Part::Output);
        let mut plan = failing(alloc, &[disk], &[output]).expect(rt, MEMORY);
        plan.stop = Some((self.number_of(Part::Host), self.torn));
        plan
    }

    // A script on an image, in chunks of 16 bytes, and cut so.
    fn run(&self, rt: &impl Abort, alloc: Global, image: &[u8], script: &str) -> Trial {
        let script = source(alloc, script, &[self.number_of(Part::Script)], 16).expect(rt, MEMORY);
        call(alloc, &["run", "f"], script, image, self.plan(rt, alloc)).expect(rt, MEMORY)
    }

    /// The run may end so.
    pub fn ends(&self, status: Status) -> bool {
        match self.part {
            Part::Host => matches!(status, Status::DiskFault | Status::WriteFault),
            Part::Disk => status == Status::DiskFault,
            Part::Output => status == Status::WriteFault,
            Part::Script => status == Status::ReadFault,
        }
    }
}

// A run that is cut so is picked up. Whether it was cut, and did not come to its end before.
fn cut_is_picked_up(rt: &impl Abort, alloc: Global, course: &Course, cut: Cut) -> bool {
    let ran = cut.run(rt, alloc, &course.file, course.script.as_str());
    let name = format!(in alloc; "{cut:?}").expect(rt, MEMORY);
    let is_cut = ran.status != Status::Ok;
    holds(rt, !is_cut || cut.ends(ran.status), name.as_str());
    is_picked_up(rt, alloc, ran, course, name.as_str());
    is_cut
}

// However a run of these steps is cut below this number, it is picked up: how many were cut.
fn are_picked_up(
    rt: &impl Abort,
    alloc: Global,
    course: &Course,
    part: Part,
    torn: Torn,
    below: u64,
) -> u64 {
    let mut cuts = 0u64;
    for number in 0..below {
        let cut = Cut { part, number, torn };
        if cut_is_picked_up(rt, alloc, course, cut) {
            cuts = cuts.saturating_add(1);
        }
    }
    cuts
}

/// The ways in which a stop tears what is pending.
pub const TEARS: [Torn; 4] = [Torn::Nothing, Torn::Whole, Torn::Front(9), Torn::Fill(0xA5)];

// How many calls a run of these steps makes: at least a sync at the opening, and five a step.
fn calls(rt: &impl Abort, alloc: Global, course: &Course) -> u64 {
    let calls = calls_of(alloc, &course.file, course.script.as_str()).expect(rt, MEMORY);
    holds(
        rt,
        calls / 5 >= course.steps.len() as u64,
        "five calls a step",
    );
    calls
}

// However a run of a course is stopped, it is picked up.
fn stops_of_course(rt: &impl Abort, alloc: Global, course: &Course) {
    let calls = calls(rt, alloc, course);
    for torn in &TEARS {
        let cuts = are_picked_up(rt, alloc, course, Part::Host, *torn, calls);
        equal(rt, cuts, calls, "the stops");
    }
}

// However a run of these steps is stopped, it is picked up.
fn stops_are_picked_up(rt: &impl Abort, alloc: Global, steps: &'static [Step]) {
    stops_of_course(rt, alloc, &course_of(rt, alloc, steps));
}

#[test]
fn transactions_that_are_stopped_anywhere_are_picked_up(rt: HostRuntime) {
    stops_are_picked_up(&rt, rt.alloc(), TRANSACTIONS);
}

#[test]
fn versions_that_are_stopped_anywhere_are_picked_up(rt: HostRuntime) {
    stops_are_picked_up(&rt, rt.alloc(), VERSIONS);
}

#[test]
fn triggers_that_are_stopped_anywhere_are_picked_up(rt: HostRuntime) {
    stops_are_picked_up(&rt, rt.alloc(), TRIGGERS);
}

// However the disk or the output of a course fails, it is picked up.
fn faults_of_course(rt: &impl Abort, alloc: Global, course: &Course) {
    let calls = calls(rt, alloc, course);
    let prints = are_picked_up(rt, alloc, course, Part::Output, Torn::Whole, calls);
    equal(rt, prints, course.steps.len() as u64, "the prints");
    let disk = are_picked_up(rt, alloc, course, Part::Disk, Torn::Nothing, calls);
    equal(
        rt,
        disk.saturating_add(prints),
        calls,
        "the disk calls and the prints",
    );
}

#[test]
fn a_run_whose_disk_or_output_fails_anywhere_is_picked_up(rt: HostRuntime) {
    let course = course_of(&rt, rt.alloc(), TRANSACTIONS);
    faults_of_course(&rt, rt.alloc(), &course);
}

#[test]
fn a_run_whose_script_fails_anywhere_is_picked_up(rt: HostRuntime) {
    let course = course_of(&rt, rt.alloc(), TRANSACTIONS);
    let reads = are_picked_up(&rt, rt.alloc(), &course, Part::Script, Torn::Nothing, 40);
    holds(
        &rt,
        reads >= 16 && reads < 40,
        "16 reads at least, and less than 40",
    );
}

static EMPTY: Case = Case {
    name: "an empty script",
    script: "",
    text: "",
    status: Status::Ok,
};

static NO_OBJECT: Case = Case {
    name: "no object",
    script: "show #1.n;",
    text: "refused 1 no object #1\n",
    status: Status::Refused,
};

// `init` on an image, and a stop behind it: the new file is there, and holds nothing.
fn is_made(rt: &impl Abort, alloc: Global, old: &[u8], torn: Torn) {
    let made = init(alloc, old, stopping(alloc, LATE, torn)).expect(rt, MEMORY);
    made.is(alloc, "ready\n", Status::Ok, "init")
        .expect(rt, AMISS);
    let image = made.after_stop(alloc).expect(rt, MEMORY);
    run_case(alloc, &image, &EMPTY).expect(rt, AMISS);
    run_case(alloc, &image, &NO_OBJECT).expect(rt, AMISS);
}

#[test]
fn a_stop_behind_init_leaves_the_empty_database(rt: HostRuntime) {
    let old = vec![in rt.alloc(); b'x'; 5000].expect(&rt, MEMORY);
    for torn in &TEARS {
        is_made(&rt, rt.alloc(), &[], *torn);
        is_made(&rt, rt.alloc(), &old, *torn);
    }
}
