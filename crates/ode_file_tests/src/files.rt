//! Files that break a rule, and what is said of them.
use ode_host::Status;
use ode_trials::acts::{Act, Made, Turned, play};
use ode_trials::amiss::AMISS;
use ode_trials::trial::{Case, FIRST, FIRST_TEXT};

// Changes of an empty database in two areas, and what is then said of it.
const BROKEN: &[Act] = &[
    Act::Make(Made::Areas),
    Act::Put(0, b"\0"),
    Act::Refused("a shut slot", "no database\n"),
    Act::Make(Made::Areas),
    Act::Put(1, b"\0"),
    Act::Refused("another name", "bad file header 0\n"),
    Act::Make(Made::Areas),
    Act::Put(12, b"\x09"),
    Act::Refused("format 9", "newer format 9\n"),
    Act::Make(Made::Areas),
    Act::Put(16, b"\x03"),
    Act::Refused("layout 3", "bad file header 0\n"),
    Act::Make(Made::Areas),
    Act::Put(4096, b"\0"),
    Act::Refused("a record of no kind", "bad file record 0 0 0\n"),
    Act::Make(Made::Areas),
    Act::Put(4156, b"\x02"),
    Act::Refused("counters with another end", "bad file record 1 0 0\n"),
    Act::Make(Made::Areas),
    Act::Length(4100),
    Act::Refused("a snapshot that is cut short", "bad file journal 4096\n"),
];

#[test]
fn a_refused_file_says_which_rule_it_breaks(rt: HostRuntime) {
    play(rt.alloc(), BROKEN).expect(&rt, AMISS);
}

// Changes of a new file, and what a check then says of it.
const BROKEN_PAGES: &[Act] = &[
    Act::Make(Made::New),
    Act::HasLength(4178),
    Act::Put(0, b"\0"),
    Act::Checked("a shut slot", "no database\n"),
    Act::Make(Made::New),
    Act::Put(1, b"\0"),
    Act::Checked("another name", "bad file header 0\n"),
    Act::Make(Made::New),
    Act::Put(12, b"\x09"),
    Act::Checked("format 9", "newer format 9\n"),
    Act::Make(Made::New),
    Act::Put(16, b"\x03"),
    Act::Checked("layout 3", "bad file header 0\n"),
    Act::Make(Made::New),
    Act::Length(4100),
    Act::Checked("a frame that is cut short", "bad file journal 4096\n"),
    Act::Make(Made::New),
    Act::Put(4097, b"\xFF\xFF\xFF\xFF"),
    Act::Checked("a frame that is too long", "bad file journal 4096\n"),
    Act::Make(Made::New),
    Act::Put(4156, b"\x02"),
    Act::Checked("a clock neither set nor not", "bad file record 1 0 0\n"),
    Act::Make(Made::New),
    Act::Put(4096, b"\0"),
    Act::Checked("no counters", "bad file missing 1 0 0\n"),
    Act::Make(Made::New),
    Act::Put(40, b"\x02"),
    Act::Checked("a page that is not there", "bad file page 1\n"),
    Act::Make(Made::New),
    Act::Put(4112, b"\x02"),
    Act::Checked("a page with an entry too much", "bad file page 0\n"),
];

#[test]
fn a_check_says_which_rule_a_file_of_pages_breaks(rt: HostRuntime) {
    play(rt.alloc(), BROKEN_PAGES).expect(&rt, AMISS);
}

const SHUT: &[Act] = &[
    Act::Refused("an empty file", "no database\n"),
    Act::Length(5000),
    Act::Refused("a file of zeros", "no database\n"),
    Act::Make(Made::Areas),
    Act::Put(0, b"\x25"),
    Act::Refused("a file whose slot is shut", "no database\n"),
];

#[test]
fn a_file_without_an_open_slot_holds_no_database(rt: HostRuntime) {
    play(rt.alloc(), SHUT).expect(&rt, AMISS);
}

const HEADER: &[Turned] = &[
    (1, 56, 0x80),
    (1, 1, 0x01),
    (8, 8, 0x01),
    (12, 12, 0x01),
    (16, 16, 0x01),
    (24, 24, 0x01),
    (31, 31, 0x01),
    (32, 32, 0x01),
    (40, 40, 0x01),
    (48, 48, 0x01),
    (56, 56, 0x01),
];

const AREAS_HEADER: &[Act] = &[Act::Make(Made::Areas), Act::BadTurned(HEADER)];

// One page more is one that isn't there, but for the first one, which has an image.
const PAGES_HEADER: &[Turned] = &[
    (1, 56, 0x80),
    (1, 1, 0x01),
    (8, 8, 0x01),
    (12, 12, 0x01),
    (16, 16, 0x01),
    (24, 24, 0x01),
    (31, 32, 0x01),
    (33, 39, 0x01),
    (40, 40, 0x02),
    (41, 56, 0x01),
];

const NEW_HEADER: &[Act] = &[Act::Make(Made::New), Act::BadTurned(PAGES_HEADER)];

#[test]
fn a_header_with_a_wrong_byte_is_bad(rt: HostRuntime) {
    play(rt.alloc(), AREAS_HEADER).expect(&rt, AMISS);
    play(rt.alloc(), NEW_HEADER).expect(&rt, AMISS);
}

// Of the counters' record all but the lower bytes of the three numbers. Behind the first two rows are numbers above their
// limits, and numbers that are 0.
const COUNTERS: &[Turned] = &[
    (4096, 4115, 0x80),
    (4139, 4159, 0x80),
    (4115, 4115, 0x80),
    (4123, 4123, 0x80),
    (4131, 4131, 0x80),
    (4122, 4122, 0x01),
    (4130, 4130, 0x01),
    (4138, 4138, 0x01),
];

const AREAS_COUNTERS: &[Act] = &[Act::Make(Made::Areas), Act::BadTurned(COUNTERS)];

// The same of a file of pages, behind the length, the number of images, the number and the length of the page, and the number of
// its records.
const PAGES_COUNTERS: &[Turned] = &[
    (4097, 4132, 0x80),
    (4097, 4131, 0x01),
    (4156, 4176, 0x80),
    (4140, 4140, 0x80),
    (4148, 4148, 0x80),
    (4139, 4139, 0x01),
    (4147, 4147, 0x01),
    (4155, 4155, 0x01),
];

const NEW_COUNTERS: &[Act] = &[Act::Make(Made::New), Act::BadTurned(PAGES_COUNTERS)];

#[test]
fn counters_with_a_wrong_byte_are_bad(rt: HostRuntime) {
    play(rt.alloc(), AREAS_COUNTERS).expect(&rt, AMISS);
    play(rt.alloc(), NEW_COUNTERS).expect(&rt, AMISS);
}

// The head, the text, the object and the version, up to the number that the version holds. An object's last version number
// may be greater than the versions that are there. The rows with the lowest bit leave out the field's name in the text, which
// no other record has, and make the last number 0.
const RECORDS: &[Turned] = &[
    (4160, 4250, 0x80),
    (4255, 4280, 0x80),
    (4160, 4223, 0x01),
    (4225, 4250, 0x01),
    (4254, 4280, 0x01),
];

const FIRST_FILE: &[Act] = &[
    Act::Make(Made::First),
    Act::HasLength(4290),
    Act::BadTurned(RECORDS),
];

#[test]
fn records_with_a_wrong_byte_are_bad(rt: HostRuntime) {
    play(rt.alloc(), FIRST_FILE).expect(&rt, AMISS);
}

// A run on a file whose class `P` has a right text.
const MAKING: Case = Case {
    name: "a right class",
    script: "pnew P();",
    text: "new #1\ntx 2 committed\n",
    status: Status::Ok,
};

// What is said of a wrong one.
const LINE: &str = "bad file class 1\n";

// Texts of a class `P` that is kept with them: three are right, and of the others one isn't as it is printed, two are no class, one
// isn't accepted, one has another name, one has a trigger that its head doesn't tell, and one is its own parent.
const CLASSES: &[Act] = &[
    Act::Make(Made::Class("class P { int n; }")),
    Act::Case(MAKING),
    Act::Make(Made::Class("class P { event after create; }")),
    Act::Case(MAKING),
    Act::Make(Made::Class("class P { event time every 60, time at \"1970-01-01T00:00:05Z\"; }")),
    Act::Case(MAKING),
    Act::Make(Made::Class("class P {int n;}")),
    Act::Refused("a class as it isn't printed", LINE),
    Act::Make(Made::Class("class P { int n }")),
    Act::Refused("no class", LINE),
    Act::Make(Made::Class("class P { ref Q n; }")),
    Act::Refused("a class with an unknown name", LINE),
    Act::Make(Made::Class("class Q { int n; }")),
    Act::Refused("a class of another name", LINE),
    Act::Make(Made::Class("class P { trigger t(): after create ==> { } }")),
    Act::Refused("a class with a trigger", LINE),
    Act::Make(Made::Class("class P { event time every 0; }")),
    Act::Refused("a class with a time that never comes", LINE),
    Act::Make(Made::Class("class P : P { int n; }")),
    Act::Refused("a class above itself", LINE),
];

#[test]
fn a_class_whose_text_is_wrong_is_bad(rt: HostRuntime) {
    play(rt.alloc(), CLASSES).expect(&rt, AMISS);
}

// The length, the number of changes, and the first change up to the counters that it puts, which the next frame puts anew.
const FRAME: &[Turned] = &[(4161, 4188, 0x80), (4161, 4188, 0x01)];

const FIRST_FRAME: &[Act] = &[Act::Make(Made::Frames), Act::BadTurned(FRAME)];

// The length, the number of images, the number and the length of the page in the first frame behind that of a new file. The next
// frame has the page anew.
const PAGE_FRAME: &[Turned] = &[(4178, 4191, 0x80), (4178, 4191, 0x01)];

const FIRST_PAGE: &[Act] = &[Act::Make(Made::Pages), Act::BadTurned(PAGE_FRAME)];

#[test]
fn a_frame_with_a_wrong_byte_is_bad(rt: HostRuntime) {
    play(rt.alloc(), FIRST_FRAME).expect(&rt, AMISS);
    play(rt.alloc(), FIRST_PAGE).expect(&rt, AMISS);
}

const FRAMES: &[Act] = &[
    Act::Make(Made::Frames),
    Act::HasLength(4516),
    Act::BadCut(&[(4161, 4515)]),
];

const PAGES: &[Act] = &[
    Act::Make(Made::Pages),
    Act::HasLength(4747),
    Act::BadCut(&[(4178, 4746)]),
];

#[test]
fn a_journal_that_is_cut_short_is_bad(rt: HostRuntime) {
    play(rt.alloc(), FRAMES).expect(&rt, AMISS);
    play(rt.alloc(), PAGES).expect(&rt, AMISS);
}

const LENGTHS: &[(usize, usize)] = &[(1, 1), (9, 9), (56, 57), (4095, 4097), (4159, 4160)];

const AREAS_LENGTHS: &[Act] = &[
    Act::Make(Made::Areas),
    Act::HasLength(4161),
    Act::BadCut(LENGTHS),
];

const PAGES_LENGTHS: &[(usize, usize)] = &[(1, 1), (9, 9), (56, 57), (4095, 4177)];

const NEW_LENGTHS: &[Act] = &[Act::Make(Made::New), Act::BadCut(PAGES_LENGTHS)];

#[test]
fn a_file_that_is_cut_short_is_bad(rt: HostRuntime) {
    play(rt.alloc(), AREAS_LENGTHS).expect(&rt, AMISS);
    play(rt.alloc(), NEW_LENGTHS).expect(&rt, AMISS);
}

// The first script, on a file that holds an empty database.
const GOOD: Case = Case {
    name: "the first script",
    script: FIRST,
    text: FIRST_TEXT,
    status: Status::Ok,
};

// The gate behind the snapshot of a file of two areas.
const GATES: &[Act] = &[
    Act::Make(Made::Areas),
    Act::Put(4160, b"\xA5"),
    Act::Bad("a file with an open gate"),
    Act::Put(4160, b"\x01"),
    Act::Case(GOOD),
    Act::Make(Made::Areas),
    Act::Put(4160, b"\x25"),
    Act::Case(GOOD),
    Act::Make(Made::Areas),
    Act::Put(4160, b"\xA4"),
    Act::Case(GOOD),
    Act::Make(Made::Areas),
    Act::Put(4160, b"\xFF"),
    Act::Case(GOOD),
];

// The gate behind the frame of a new file.
const NEW_GATES: &[Act] = &[
    Act::Make(Made::New),
    Act::Put(4177, b"\xA5"),
    Act::Bad("a new file with an open gate"),
    Act::Put(4177, b"\x01"),
    Act::Case(GOOD),
    Act::Make(Made::New),
    Act::Put(4177, b"\x25"),
    Act::Case(GOOD),
    Act::Make(Made::New),
    Act::Put(4177, b"\xA4"),
    Act::Case(GOOD),
    Act::Make(Made::New),
    Act::Put(4177, b"\xFF"),
    Act::Case(GOOD),
];

#[test]
fn an_open_gate_at_the_end_is_bad_and_any_other_is_shut(rt: HostRuntime) {
    play(rt.alloc(), GATES).expect(&rt, AMISS);
    play(rt.alloc(), NEW_GATES).expect(&rt, AMISS);
}

const SLOTS: &[Act] = &[
    Act::Make(Made::Slots(1, 2)),
    Act::Case(GOOD),
    Act::Make(Made::Slots(2, 1)),
    Act::Case(GOOD),
    Act::Make(Made::Slots(2, 3)),
    Act::Case(GOOD),
    Act::Make(Made::Slots(3, 2)),
    Act::Case(GOOD),
    Act::Make(Made::Slots(3, 1)),
    Act::Case(GOOD),
    Act::Make(Made::Slots(1, 3)),
    Act::Case(GOOD),
    Act::Make(Made::Slots(1, 1)),
    Act::Bad("two slots of generation 1"),
    Act::Make(Made::Slots(2, 2)),
    Act::Bad("two slots of generation 2"),
    Act::Make(Made::Slots(3, 3)),
    Act::Bad("two slots of generation 3"),
];

#[test]
fn of_two_open_slots_one_comes_after_the_other(rt: HostRuntime) {
    play(rt.alloc(), SLOTS).expect(&rt, AMISS);
}

const BROKEN_SLOTS: &[Act] = &[
    Act::Make(Made::Areas),
    Act::Length(5000),
    Act::Put(2048, b"\xA5"),
    Act::Bad("a second slot that is broken"),
    Act::Make(Made::Slots(1, 2)),
    Act::Put(1, b"o"),
    Act::Bad("a first slot that is broken"),
];

#[test]
fn a_broken_slot_is_bad_beside_a_good_one(rt: HostRuntime) {
    play(rt.alloc(), BROKEN_SLOTS).expect(&rt, AMISS);
}
