//! Limits of numbers and of what a transaction prints.
use ode_host::Status;
use ode_trials::acts::{Act, Made, play};
use ode_trials::amiss::AMISS;
use ode_trials::long::{push_firings, times};
use ode_trials::trial::{Case, MEMORY, new_file, run};
use std::alloc::Global;
use std::process::Abort;

const LAST_OBJECT: Case = Case {
    name: "the last object",
    script: "pnew P(n = 7);
pnew P();
pnew Q();
show #4611686018427387903.n;
show #4611686018427387904.n;
",
    text: "new #4611686018427387903
tx 4 committed
tx 5 aborted space
refused 3 unknown name Q
value 7
tx 6 committed
refused 5 no object #4611686018427387904
",
    status: Status::Refused,
};

const OBJECTS: &[Act] = &[
    Act::Make(Made::Counters((1 << 62) - 1, 4)),
    Act::Case(LAST_OBJECT),
];

#[test]
fn an_object_without_a_number_aborts(rt: HostRuntime) {
    play(rt.alloc(), OBJECTS).expect(&rt, AMISS);
}

const LAST_TRANSACTION: Case = Case {
    name: "the last transaction",
    script: "show #1.n;
show #1.n;
class P { int n; };
pnew Q();
show #9.m;
say \"x\";
begin;
;
commit;
say 1 +;
",
    text: "value 5
tx 4611686018427387903 committed
refused 2 numbers spent
refused 3 numbers spent
refused 4 numbers spent
refused 5 numbers spent
refused 6 numbers spent
refused 7 numbers spent
refused 9 no transaction
refused 10 syntax 7
",
    status: Status::Refused,
};

const TRANSACTIONS: &[Act] = &[
    Act::Make(Made::Counters(2, (1 << 62) - 1)),
    Act::Case(LAST_TRANSACTION),
];

#[test]
fn no_transaction_is_begun_without_a_number(rt: HostRuntime) {
    play(rt.alloc(), TRANSACTIONS).expect(&rt, AMISS);
}

// The place of an object's last version number in the first script's file.
const LAST: usize = 4251;

const LAST_VERSION: Case = Case {
    name: "the last version",
    script: "newversion #1; newversion #1; show #1.n;",
    text: "version #1@4294967295\ntx 4 committed\ntx 5 aborted space\nvalue 5\ntx 6 committed\n",
    status: Status::Ok,
};

const VERSIONS: &[Act] = &[
    Act::Make(Made::First),
    Act::Put(LAST, b"\xFF\xFF\xFF\xFE"),
    Act::Case(LAST_VERSION),
];

#[test]
fn a_version_without_a_number_aborts(rt: HostRuntime) {
    play(rt.alloc(), VERSIONS).expect(&rt, AMISS);
}

const SAYS: &str =
    "class T { void s(int k, text t) { if (k == 0) { say t; } else { s(k - 1, t); s(k - 1, t); } } };
pnew T();
";

// What is printed before the two transactions, and behind each.
const BEFORE: &str = "class T\ntx 1 committed\nnew #1\ntx 2 committed\n";

const BEHIND_FIRST: &str = "tx 3 committed\n";

const BEHIND_SECOND: &str = "tx 4 aborted output\nrefused 4 no transaction\n";

// The first transaction prints this text 512 times. So does the second, and an empty text more.
fn saying(rt: &impl Abort, alloc: Global, text: &str) -> String {
    format!(in alloc;
        "{SAYS}#1.s(9, \"{text}\");\nbegin; #1.s(9, \"{text}\"); say \"\"; commit;"
    ).expect(rt, MEMORY)
}

fn said(rt: &impl Abort, alloc: Global, text: &str) -> String {
    let line = format!(in alloc; "said {text}\n").expect(rt, MEMORY);
    let lines = times(alloc, line.as_str(), 512).expect(rt, MEMORY);
    format!(in alloc; "{BEFORE}{lines}{BEHIND_FIRST}{lines}{BEHIND_SECOND}").expect(rt, MEMORY)
}

// A run of this script on a new file prints this long text and ends so.
fn prints_long(rt: &impl Abort, alloc: Global, script: &str, text: &str, status: Status) {
    let file = new_file(alloc).expect(rt, MEMORY);
    let ran = run(alloc, &file, script).expect(rt, MEMORY);
    ran.is_long(alloc, text, status, "a run that prints much")
        .expect(rt, AMISS);
}

// 512 lines of 2,048 bytes are 1,048,576, the most that a transaction prints.
#[test]
fn a_transaction_prints_so_much_and_no_more(rt: HostRuntime) {
    let text = times(rt.alloc(), "x", 2042).expect(&rt, MEMORY);
    let script = saying(&rt, rt.alloc(), text.as_str());
    let expected = said(&rt, rt.alloc(), text.as_str());
    prints_long(
        &rt,
        rt.alloc(),
        script.as_str(),
        expected.as_str(),
        Status::Refused,
    );
}

// The place of the next entry's number in an empty database of two areas and in a new file, and the last one that an entry may
// have.
const NEXT_ENTRY: usize = 4131;

const NEW_NEXT_ENTRY: usize = 4148;

const LAST_ENTRY: &[u8] = b"\x3F\xFF\xFF\xFF\xFF\xFF\xFF\xFF";

// An abort takes the entry of the dependent firing back, so its number is there for the one behind the abort.
const LAST_DEPENDENT: Case = Case {
    name: "the last dependent entry",
    script: "class P { void a() { } event after a, after tabort; trigger perpetual dependent d(): after a ==> { } trigger perpetual whole w(): after tabort ==> { } };
begin; pnew P(); activate #1.d(); activate #1.w(); commit;
begin; #1.a(); #1.a(); abort;
begin; #1.a(); abort;
#1.a();
",
    text: "class P
tx 1 committed
new #1
active 2
active 3
tx 2 committed
dropped d on #1
tx 3 aborted asked
fired w on #1
tx 4 committed
dropped d on #1
dropped w on #1
tx 5 aborted asked
dropped d on #1
tx 6 committed
",
    status: Status::Ok,
};

// The entry of an independent firing stays.
const LAST_INDEPENDENT: Case = Case {
    name: "the last independent entry",
    script: "class P { void a() { } event after a, after tabort; trigger perpetual independent i(): after a ==> { } trigger perpetual whole w(): after tabort ==> { } };
begin; pnew P(); activate #1.i(); activate #1.w(); commit;
begin; #1.a(); abort;
",
    text: "class P
tx 1 committed
new #1
active 2
active 3
tx 2 committed
dropped w on #1
tx 3 aborted asked
fired i on #1
tx 4 committed
",
    status: Status::Ok,
};

const ENTRIES: &[Act] = &[
    Act::Make(Made::Areas),
    Act::Put(NEXT_ENTRY, LAST_ENTRY),
    Act::Case(LAST_DEPENDENT),
    Act::Make(Made::Areas),
    Act::Put(NEXT_ENTRY, LAST_ENTRY),
    Act::Case(LAST_INDEPENDENT),
    Act::Make(Made::New),
    Act::Put(NEW_NEXT_ENTRY, LAST_ENTRY),
    Act::Case(LAST_DEPENDENT),
    Act::Make(Made::New),
    Act::Put(NEW_NEXT_ENTRY, LAST_ENTRY),
    Act::Case(LAST_INDEPENDENT),
];

#[test]
fn a_firing_without_a_number_is_dropped(rt: HostRuntime) {
    play(rt.alloc(), ENTRIES).expect(&rt, AMISS);
}

// A transaction with 4,097 firings.
const FIRES: &str =
    "class P { void a() { } void ten() { a(); a(); a(); a(); a(); a(); a(); a(); a(); a(); } void hundred() { ten(); ten(); ten(); ten(); ten(); ten(); ten(); ten(); ten(); ten(); } void thousand() { hundred(); hundred(); hundred(); hundred(); hundred(); hundred(); hundred(); hundred(); hundred(); hundred(); } event after a; trigger perpetual dependent t(): after a ==> { } };
begin; pnew P(); activate #1.t(); commit;
begin; #1.thousand(); #1.thousand(); #1.thousand(); #1.thousand(); #1.ten(); #1.ten(); #1.ten(); #1.ten(); #1.ten(); #1.ten(); #1.ten(); #1.ten(); #1.ten(); #1.a(); #1.a(); #1.a(); #1.a(); #1.a(); #1.a(); #1.a(); commit;
";

const FIRINGS: u64 = 4097;

// Of its 1,024 keys the counters have one, and so has the activation.
const QUEUED: u64 = 1022;

fn firings(rt: &impl Abort, alloc: Global) -> String {
    let dropped = times(alloc, "dropped t on #1\n", FIRINGS - QUEUED).expect(rt, MEMORY);
    let before = "class P\ntx 1 committed\nnew #1\nactive 2\ntx 2 committed\n";
    let text = format!(in alloc; "{before}{dropped}tx 3 committed\n");
    let mut text = text.expect(rt, MEMORY);
    push_firings(alloc, &mut text, 4, QUEUED).expect(rt, MEMORY);
    text
}

#[test]
fn of_4097_firings_of_a_transaction_1022_are_queued(rt: HostRuntime) {
    let expected = firings(&rt, rt.alloc());
    prints_long(&rt, rt.alloc(), FIRES, expected.as_str(), Status::Ok);
}
