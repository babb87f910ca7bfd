//! Stored tables, states and activations that are changed in a file.
use crate::equal::{equal, holds};
use ode_host::Status;
use ode_trials::acts::{Act, Made, file_behind};
use ode_trials::amiss::AMISS;
use ode_trials::images::{patched, turned};
use ode_trials::trial::{Case, MEMORY, Trial, run, run_case, stays};
use ode_value::Key;
use std::alloc::Global;
use std::process::Abort;

// An account that tells when its balance is low, and an activation of its trigger.
const ACCOUNT: &str =
    "class Account { int balance; void deposit(int amount) { balance = balance + amount; } void withdraw(int amount) { balance = balance - amount; } event after deposit, after withdraw; trigger perpetual low(int k): after withdraw && balance < k ==> { say \"low\"; } };
begin; pnew Account(); activate #1.low(100); #1.deposit(150); commit;
";

const AREAS_FILE: &[Act] = &[Act::Make(Made::New), Act::Run(ACCOUNT), Act::IntoAreas];

const PAGES_FILE: &[Act] = &[Act::Make(Made::New), Act::Run(ACCOUNT)];

const ACCOUNT_FILES: [&[Act]; 2] = [AREAS_FILE, PAGES_FILE];

// What goes on behind it, and what it prints.
const LATER: &str = "#1.withdraw(60);";

const LATER_TEXT: &str = "fired low on #1\nsaid low\ntx 3 committed\n";

// A record's key.
fn key_of(kind: u8, a: u8, b: u8) -> [u8; 17] {
    let mut key = [0; 17];
    key[0] = kind;
    key[8] = a;
    key[16] = b;
    key
}

// The last place behind these bytes: a journal may have the same page again.
fn behind(image: &[u8], bytes: &[u8]) -> Option<usize> {
    let mut found = None;
    for at in 0..image.len() {
        if image.get(at..).unwrap_or(&[]).starts_with(bytes) {
            found = Some(at.saturating_add(bytes.len()));
        }
    }
    found
}

// The number in the two bytes at a place.
fn number_at(image: &[u8], at: usize) -> usize {
    let high = image.get(at).copied().unwrap_or(0);
    let low = image.get(at.saturating_add(1)).copied().unwrap_or(0);
    usize::from(high) * 256 + usize::from(low)
}

// Where a record's value is, behind the key and the value's length.
#[derive(Clone, Copy)]
struct Value {
    at: usize,
    length: usize,
}

// The value of the record under a key, in a file that has it.
fn value_of(rt: &impl Abort, image: &[u8], key: &[u8]) -> Value {
    let at = behind(image, key).expect(rt, "a record");
    Value {
        at: at.saturating_add(2),
        length: number_at(image, at),
    }
}

// With other bytes at a place, the file is refused with this line, and nothing is written.
fn is_refused(rt: &impl Abort, alloc: Global, file: &[u8], at: usize, bytes: &[u8], line: &str) {
    let case = Case {
        name: "a changed file",
        script: LATER,
        text: line,
        status: Status::BadFile,
    };
    let image = patched(alloc, file, at, bytes).expect(rt, MEMORY);
    stays(alloc, &image, &case).expect(rt, AMISS);
}

static GOES_ON: Case = Case {
    name: "the account",
    script: LATER,
    text: LATER_TEXT,
    status: Status::Ok,
};

#[test]
fn the_file_as_it_was_goes_on(rt: HostRuntime) {
    for acts in &ACCOUNT_FILES {
        let file = file_behind(rt.alloc(), acts).expect(&rt, AMISS);
        run_case(rt.alloc(), &file, &GOES_ON).expect(&rt, AMISS);
    }
}

// A run on another table is refused with its line and leaves the image, or goes on as before. Whether it is refused.
fn is_other(rt: &impl Abort, alloc: Global, ran: &Trial, image: &[u8]) -> bool {
    let is_refused = ran.status == Status::BadFile;
    if is_refused {
        ran.is(
            alloc,
            "bad file table 1 0\n",
            Status::BadFile,
            "a changed file",
        )
        .expect(rt, AMISS);
        ran.leaves(alloc, image, "a changed file").expect(rt, AMISS);
    } else {
        ran.is(
            alloc,
            LATER_TEXT,
            Status::Ok,
            "another table of the same answers",
        )
        .expect(rt, AMISS);
    }
    is_refused
}

// How many bytes of a value are such that with another one the table answers otherwise.
fn others(rt: &impl Abort, alloc: Global, file: &[u8], value: Value) -> usize {
    let mut refused = 0usize;
    for at in 0..value.length {
        let image = turned(alloc, file, value.at.saturating_add(at), 1).expect(rt, MEMORY);
        let ran = run(alloc, &image, LATER).expect(rt, MEMORY);
        if is_other(rt, alloc, &ran, &image) {
            refused = refused.saturating_add(1);
        }
    }
    refused
}

// A table that answers otherwise on some word is refused, and one that answers the same goes on as before.
fn other_tables_are_refused(rt: &impl Abort, alloc: Global, file: &[u8]) {
    let value = value_of(rt, file, &key_of(Key::TABLE_PIECE, 1, 0));
    let refused = others(rt, alloc, file, value);
    holds(
        rt,
        refused.saturating_mul(2) >= value.length,
        "half of the tables",
    );
}

#[test]
fn a_table_with_another_answer_is_refused(rt: HostRuntime) {
    for acts in &ACCOUNT_FILES {
        let file = file_behind(rt.alloc(), acts).expect(&rt, AMISS);
        other_tables_are_refused(&rt, rt.alloc(), &file);
    }
}

// A place in an activation, other bytes there, and the line that refuses them: of the class, the trigger, the count of
// arguments, the argument's kind, and the state.
type Wrong = (usize, &'static [u8], &'static str);

const WRONG: [Wrong; 5] = [
    (3, &[2], "bad file record 8 1 2\n"),
    (5, &[1], "bad file record 8 1 2\n"),
    (8, &[0], "bad file record 8 1 2\n"),
    (9, &[1], "bad file record 8 1 2\n"),
    (6, &[0xFF, 0xFF], "bad file state #1 2\n"),
];

fn wrong_parts_are_refused(rt: &impl Abort, alloc: Global, file: &[u8]) {
    let value = value_of(rt, file, &key_of(Key::ACTIVATION, 1, 2));
    equal(rt, value.length, 18, "the length of an activation");
    for (place, bytes, line) in &WRONG {
        let at = value.at.saturating_add(*place);
        is_refused(rt, alloc, file, at, bytes, line);
    }
}

#[test]
fn an_activation_with_a_wrong_part_is_refused(rt: HostRuntime) {
    for acts in &ACCOUNT_FILES {
        let file = file_behind(rt.alloc(), acts).expect(&rt, AMISS);
        wrong_parts_are_refused(&rt, rt.alloc(), &file);
    }
}
