//! A stop within the write of a gate: what the gate reads then says whether the transaction is there.
use crate::equal::equal;
use ode_host::{Status, Torn};
use ode_trials::amiss::AMISS;
use ode_trials::trial::{Case, MEMORY, calls_of, new_file, run_case, run_stopped, stopped_image};
use std::alloc::Global;
use std::process::Abort;

// What an open gate reads.
const OPEN: u8 = 0xA5;

// How the write is torn, and what the gate reads then.
const WAYS: [(Torn, u8); 7] = [
    (Torn::Fill(0xA5), OPEN),
    (Torn::Whole, OPEN),
    (Torn::Front(1), OPEN),
    (Torn::Fill(0x00), 0x00),
    (Torn::Fill(0x7F), 0x7F),
    (Torn::Nothing, 0x00),
    (Torn::Front(0), 0x00),
];

// A run's last transaction makes its last five calls: a write, a sync, the write of the gate, a sync and a print.
const CALLS: u64 = 5;

const GATE_AND_BEHIND: u64 = 3;

// A script that is stopped within its last transaction. A run behind the stop where the gate is open, and one where it is shut.
struct Stopped {
    stop: Case<'static>,
    open: Case<'static>,
    shut: Case<'static>,
}

// Where the gate stands: it is the last byte of what there is before the transaction.
fn gate_of(rt: &impl Abort, alloc: Global, file: &[u8], script: &str, calls: u64) -> usize {
    let at = calls.saturating_sub(CALLS);
    let before = run_stopped(alloc, file, script, at, Torn::Nothing)
        .expect(rt, MEMORY)
        .after_stop(alloc)
        .expect(rt, MEMORY);
    before.len().saturating_sub(1)
}

static IDLE: Case = Case {
    name: "a further opening",
    script: "",
    text: "",
    status: Status::Ok,
};

// The run behind the stop goes on as the gate says, and leaves nothing to be done.
fn goes_on(rt: &impl Abort, alloc: Global, image: &[u8], stopped: &Stopped, gate: u8) {
    let later = if gate == OPEN {
        &stopped.open
    } else {
        &stopped.shut
    };
    let opened = run_case(alloc, image, later).expect(rt, AMISS);
    run_case(alloc, opened.host.image(), &IDLE).expect(rt, AMISS);
}

fn is_there_where_its_gate_is_open(rt: &impl Abort, alloc: Global, file: &[u8], stopped: &Stopped) {
    let calls = calls_of(alloc, file, stopped.stop.script).expect(rt, MEMORY);
    let place = gate_of(rt, alloc, file, stopped.stop.script, calls);
    let at = calls.saturating_sub(GATE_AND_BEHIND);
    for (torn, gate) in &WAYS {
        let image = stopped_image(alloc, file, &stopped.stop, at, *torn).expect(rt, AMISS);
        let found = image.get(place).copied();
        equal(rt, (*torn, found), (*torn, Some(*gate)), "the gate");
        goes_on(rt, alloc, &image, stopped, *gate);
    }
}

const ACCOUNT: &str =
    "class Account { int balance; text owner; void deposit(int amount) { balance = balance + amount; } void withdraw(int amount) { balance = balance - amount; } constraint nonneg: balance >= 0; event after deposit, after withdraw; trigger perpetual low(int k): after withdraw && balance < k ==> { say \"low\"; show balance; } };
begin; pnew Account(owner = \"Ann\"); activate #1.low(100); #1.deposit(150); #1.withdraw(60); commit;
";

/// The account's run on a new file.
pub static ACCOUNT_RUN: Case = Case {
    name: "the account's run",
    script: ACCOUNT,
    text: "class Account\ntx 1 committed\nnew #1\nactive 2\nfired low on #1\nsaid low\nvalue 90\ntx 2 committed\n",
    status: Status::Ok,
};

static WITHDRAWAL: Stopped = Stopped {
    stop: Case {
        name: "a stop in a withdrawal",
        script: "#1.withdraw(10);",
        text: "",
        status: Status::DiskFault,
    },
    open: Case {
        name: "the account behind the withdrawal",
        script: "show #1.balance;",
        text: "value 80\ntx 4 committed\n",
        status: Status::Ok,
    },
    shut: Case {
        name: "the account without the withdrawal",
        script: "show #1.balance;",
        text: "value 90\ntx 3 committed\n",
        status: Status::Ok,
    },
};

#[test]
fn a_withdrawal_is_there_where_its_gate_is_open(rt: HostRuntime) {
    let file = new_file(rt.alloc()).expect(&rt, MEMORY);
    let ran = run_case(rt.alloc(), &file, &ACCOUNT_RUN).expect(&rt, AMISS);
    is_there_where_its_gate_is_open(&rt, rt.alloc(), ran.host.image(), &WITHDRAWAL);
}

// The last transaction is the queued action's own.
static ENTRY: Stopped = Stopped {
    stop: Case {
        name: "a stop in a queued action",
        script: "class P { int n; void a() { n = n + 1; } event after a; trigger dependent d(): after a ==> { say \"d\"; } };
begin; pnew P(); activate #1.d(); commit; #1.a();
",
        text: "class P\ntx 1 committed\nnew #1\nactive 2\ntx 2 committed\ntx 3 committed\n",
        status: Status::DiskFault,
    },
    open: Case {
        name: "an opening behind the queued action",
        script: "",
        text: "",
        status: Status::Ok,
    },
    shut: Case {
        name: "an opening in front of the queued action",
        script: "",
        text: "fired d on #1\nsaid d\ntx 4 committed\n",
        status: Status::Ok,
    },
};

#[test]
fn a_queued_action_runs_again_where_its_gate_is_shut(rt: HostRuntime) {
    let file = new_file(rt.alloc()).expect(&rt, MEMORY);
    is_there_where_its_gate_is_open(&rt, rt.alloc(), &file, &ENTRY);
}
