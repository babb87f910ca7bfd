//! A database of the first format that is full, and files that have more records than that.
use ode_host::Status;
use ode_trials::acts::{Act, Made, play};
use ode_trials::amiss::AMISS;
use ode_trials::trial::Case;

// So many objects of 4,010 bytes have room beside the counters, which count 62, and the class, which counts 73: 3,563 bytes are left then
// of the 8,388,608.
const MOST: u64 = 2091;

const FULL: Case = Case {
    name: "a full database",
    script: "show #2091.a == #1.a;",
    text: "value true\ntx 2 committed\n",
    status: Status::Ok,
};

const OVER: Case = Case {
    name: "an object too much",
    script: "show #2092.a;",
    text: "bad file size 8389055\n",
    status: Status::BadFile,
};

const FULL_AND_OVER: &[Act] = &[
    Act::Make(Made::Filled(MOST)),
    Act::Case(FULL),
    Act::Make(Made::Filled(MOST + 1)),
    Act::Case(OVER),
];

#[test]
fn a_file_with_an_object_too_much_is_bad(rt: HostRuntime) {
    play(rt.alloc(), FULL_AND_OVER).expect(&rt, AMISS);
}

// So many objects have more bytes than the keeper of two areas takes.
const HEAVY: u64 = 4190;

const WHOLE: Case = Case {
    name: "far too many objects",
    script: "",
    text: "bad file size 16802035\n",
    status: Status::BadFile,
};

const UNGIVEN: Case = Case {
    name: "far too many objects, of numbers that weren't given",
    script: "",
    text: "bad file record 6 1 0\n",
    status: Status::BadFile,
};

// The place of the next number in the counters.
const NEXT: usize = 4115;

// The number that is given first.
const ONE: &[u8] = b"\0\0\0\0\0\0\0\x01";

const HEAVY_FILES: &[Act] = &[
    Act::Make(Made::Filled(HEAVY)),
    Act::Stays(WHOLE),
    Act::Put(NEXT, ONE),
    Act::Stays(UNGIVEN),
];

#[test]
fn the_size_of_a_file_is_told_last(rt: HostRuntime) {
    play(rt.alloc(), HEAVY_FILES).expect(&rt, AMISS);
}
