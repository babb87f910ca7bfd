use crate::acts::{Act, Answer, Scene};
use crate::base::{begin, scene, stage};
use crate::equal::equal;
use ode_host::MemHost;
use ode_keep::Batch;
use ode_overlay::{Origin, OverlayError};
use ode_value::{Key, List, Ref};
use std::alloc::Global;
use std::process::Abort;
use std::test::Fail;

/// A record change: the kind and the numbers of its key, and the length of the value, if one is put.
type Change = (u8, u64, u64, Option<usize>);

/// A transaction: what it comes from, its acts with their answers, and its record changes.
struct Row {
    origin: Origin,
    acts: &'static [(Act, Answer)],
    changes: Option<&'static [Change]>,
}

fn change(key: &Key, value: &Option<List<u8>>) -> Change {
    let length = match value {
        Some(bytes) => Some(bytes.len()),
        None => None,
    };
    (key.kind, key.a, key.b, length)
}

// A batch is these changes, in order.
fn is_batch(rt: &impl Abort, batch: &Batch, changes: &[Change]) {
    equal(rt, &batch.len(), &changes.len());
    for (made, expected) in batch.iter().zip(changes) {
        equal(rt, &change(&made.key, &made.value), expected);
    }
}

fn each_answers(rt: &impl Abort, scene: &mut Scene, acts: &[(Act, Answer)]) {
    for (act, answer) in acts {
        equal(rt, &scene.act(act), answer);
    }
}

// The record changes are those of an abort where the last act is to rewind.
fn settles(rt: &impl Abort, scene: &mut Scene, changes: Option<&[Change]>) -> Result<(), Fail> {
    let batch = scene.overlay.as_commit()?;
    match changes {
        Some(changes) => {
            is_batch(rt, &batch, changes);
            stage(&mut scene.heap, &mut scene.host, &batch)
        }
        None => Ok(()),
    }
}

fn settle(scene: &mut Scene) -> Result<(), Fail> {
    let batch = scene.overlay.as_commit()?;
    stage(&mut scene.heap, &mut scene.host, &batch)
}

fn each_settles(rt: &impl Abort, scene: &mut Scene, rows: &[Row]) -> Result<(), Fail> {
    for row in rows {
        begin(scene, row.origin)?;
        each_answers(rt, scene, row.acts);
        settles(rt, scene, row.changes)?;
    }
    Ok(())
}

fn run(rt: &impl Abort, alloc: Global, rows: &[Row]) -> Result<(), Fail> {
    let mut scene = scene(alloc)?;
    each_settles(rt, &mut scene, rows)
}

const OBJECT_0: Ref = Ref {
    object: 0,
    version: None,
};

const OBJECT_1: Ref = Ref {
    object: 1,
    version: None,
};

const OBJECT_4: Ref = Ref {
    object: 4,
    version: None,
};

const VERSION_1_1: Ref = Ref {
    object: 1,
    version: Some(1),
};

const VERSION_1_2: Ref = Ref {
    object: 1,
    version: Some(2),
};

const VERSION_1_3: Ref = Ref {
    object: 1,
    version: Some(3),
};

const DONE: Answer = Answer::Done;

const YES: Answer = Answer::Truth(true);

const NO: Answer = Answer::Truth(false);

// An object with a field and its first version, and the two activations of its class, numbers 1 to 3.
const MADE: Row = Row {
    origin: Origin::Script,
    acts: &[
        (Act::Create(5), Answer::Number(1)),
        (Act::Activate(1, 0), Answer::Number(2)),
        (Act::Activate(1, 1), Answer::Number(3)),
        (Act::Read(OBJECT_1), Answer::Int(5)),
        (Act::Grown, Answer::Int(25 + 32 + 26 + 26)),
        (Act::Touched(0), Answer::Number(1)),
        (Act::Touch(1), NO),
    ],
    changes: Some(&[
        (1, 0, 0, Some(45)),
        (6, 1, 0, Some(8)),
        (7, 1, 1, Some(15)),
        (8, 1, 2, Some(9)),
        (8, 1, 3, Some(9)),
    ]),
};

const VERSIONS: &[Row] = &[
    MADE,
    Row {
        origin: Origin::Script,
        acts: &[
            (Act::Derive(OBJECT_1), Answer::Version(VERSION_1_2)),
            (Act::Write(OBJECT_1, 7), DONE),
            (Act::Read(OBJECT_1), Answer::Int(7)),
            (Act::Read(VERSION_1_1), Answer::Int(5)),
            (Act::Object(1), Answer::Number(122)),
            (Act::Drop(OBJECT_1), DONE),
            (
                Act::Drop(OBJECT_1),
                Answer::Fails(OverlayError::LastVersion(1)),
            ),
            (
                Act::Read(VERSION_1_2),
                Answer::Fails(OverlayError::NoVersion(VERSION_1_2)),
            ),
            (Act::Object(1), Answer::Number(12)),
            (Act::Grown, Answer::Int(0)),
            (Act::Derive(VERSION_1_1), Answer::Version(VERSION_1_3)),
            (Act::Grown, Answer::Int(32)),
        ],
        changes: Some(&[
            (1, 0, 0, Some(45)),
            (6, 1, 0, Some(8)),
            (7, 1, 2, None),
            (7, 1, 3, Some(15)),
        ]),
    },
    Row {
        origin: Origin::Script,
        acts: &[
            (Act::Object(1), Answer::Number(133)),
            (Act::Read(OBJECT_1), Answer::Int(5)),
            (Act::Write(VERSION_1_1, 6), DONE),
            (Act::WriteSlot(OBJECT_1, 1), DONE),
            (Act::Read(OBJECT_1), Answer::Int(5)),
            (
                Act::Write(OBJECT_0, 1),
                Answer::Fails(OverlayError::NoObject(0)),
            ),
            (
                Act::Write(OBJECT_4, 1),
                Answer::Fails(OverlayError::NoObject(4)),
            ),
            (
                Act::Read(OBJECT_4),
                Answer::Fails(OverlayError::NoObject(4)),
            ),
        ],
        changes: Some(&[
            (1, 0, 0, Some(45)),
            (7, 1, 1, Some(15)),
            (7, 1, 3, Some(15)),
        ]),
    },
];

#[test]
fn a_version_is_made_and_dropped(rt: HostRuntime) -> Result<(), Fail> {
    run(&rt, rt.alloc(), VERSIONS)
}

const OBJECTS: &[Row] = &[
    MADE,
    Row {
        origin: Origin::Script,
        acts: &[
            (Act::Create(1), Answer::Number(4)),
            (Act::Remove(4), DONE),
            (Act::Grown, Answer::Int(0)),
            (Act::Touch(4), Answer::Fails(OverlayError::NoObject(4))),
            (Act::Touch(1), YES),
            (Act::Touch(1), NO),
            (Act::Touched(1), Answer::Number(1)),
            (Act::Touched(2), Answer::None),
            (Act::Remove(1), DONE),
            (Act::Grown, Answer::Int(0 - 25 - 32 - 26 - 26)),
            (Act::Object(1), Answer::None),
            (Act::Acts(1), Answer::Number(101)),
        ],
        changes: Some(&[
            (1, 0, 0, Some(45)),
            (6, 1, 0, None),
            (6, 4, 0, None),
            (7, 1, 1, None),
            (7, 4, 1, None),
            (8, 1, 2, None),
            (8, 1, 3, None),
        ]),
    },
    Row {
        origin: Origin::Script,
        acts: &[
            (Act::Object(1), Answer::None),
            (Act::Create(9), Answer::Number(5)),
        ],
        changes: Some(&[(1, 0, 0, Some(45)), (6, 5, 0, Some(8)), (7, 5, 1, Some(15))]),
    },
];

#[test]
fn an_object_is_made_and_removed(rt: HostRuntime) -> Result<(), Fail> {
    run(&rt, rt.alloc(), OBJECTS)
}

const ABORTED: &[Row] = &[
    MADE,
    Row {
        origin: Origin::Script,
        acts: &[
            (Act::Create(1), Answer::Number(4)),
            (Act::Touch(1), YES),
            (Act::Derive(OBJECT_1), Answer::Version(VERSION_1_2)),
            (Act::Write(OBJECT_1, 8), DONE),
            (Act::Activate(1, 0), Answer::Number(5)),
            (Act::Grown, Answer::Int(25 + 32 + 32 + 26)),
            (Act::Rewind, DONE),
            (Act::Grown, Answer::Int(0)),
            (Act::Object(1), Answer::Number(12)),
            (Act::Object(4), Answer::None),
            (Act::Acts(1), Answer::Number(101)),
            (Act::Read(OBJECT_1), Answer::Int(5)),
        ],
        changes: Some(&[
            (1, 0, 0, Some(45)),
            (6, 1, 0, Some(8)),
            (7, 1, 2, None),
            (8, 1, 2, Some(9)),
            (8, 1, 3, Some(9)),
            (8, 1, 5, None),
        ]),
    },
    Row {
        origin: Origin::Script,
        acts: &[
            (Act::Derive(OBJECT_1), Answer::Version(VERSION_1_3)),
            (Act::Create(1), Answer::Number(6)),
        ],
        changes: Some(&[
            (1, 0, 0, Some(45)),
            (6, 1, 0, Some(8)),
            (6, 6, 0, Some(8)),
            (7, 1, 3, Some(15)),
            (7, 6, 1, Some(15)),
        ]),
    },
];

#[test]
fn an_abort_leaves_numbers_drawn(rt: HostRuntime) -> Result<(), Fail> {
    run(&rt, rt.alloc(), ABORTED)
}

const HISTORIES: &[Row] = &[
    MADE,
    Row {
        origin: Origin::Script,
        acts: &[
            (Act::Touch(1), YES),
            (Act::Step(1), DONE),
            (Act::Deactivate(1, 2), DONE),
            (Act::Deactivate(1, 2), DONE),
            (Act::Deactivate(1, 9), DONE),
            (Act::Step(1), DONE),
            (Act::Acts(1), Answer::Number(2021)),
            (Act::Remove(1), DONE),
            (Act::Rewind, DONE),
            (Act::Acts(1), Answer::Number(2101)),
            (Act::Grown, Answer::Int(0)),
            (Act::Deactivate(1, 3), DONE),
            (Act::Grown, Answer::Int(-26)),
        ],
        changes: Some(&[
            (1, 0, 0, Some(45)),
            (6, 1, 0, Some(8)),
            (8, 1, 2, Some(9)),
            (8, 1, 3, None),
        ]),
    },
    Row {
        origin: Origin::Script,
        acts: &[(Act::Acts(1), Answer::Number(21))],
        changes: Some(&[(1, 0, 0, Some(45))]),
    },
];

#[test]
fn whole_histories_go_on_over_an_abort(rt: HostRuntime) -> Result<(), Fail> {
    run(&rt, rt.alloc(), HISTORIES)
}

const COUNTED: &[Row] = &[
    MADE,
    Row {
        origin: Origin::Script,
        acts: &[
            (Act::Create(1), Answer::Number(4)),
            (Act::Remove(4), DONE),
            (Act::CreateMany(509), Answer::Number(513)),
            (Act::Touch(1), YES),
            (Act::Create(1), Answer::Fails(OverlayError::TooManyChanges)),
            (Act::Write(OBJECT_1, 3), DONE),
            (Act::Write(OBJECT_1, 4), DONE),
            (
                Act::Derive(OBJECT_1),
                Answer::Fails(OverlayError::TooManyChanges),
            ),
            (Act::Read(OBJECT_1), Answer::Int(4)),
            (Act::Collect(true), NO),
            (
                Act::Activate(1, 0),
                Answer::Fails(OverlayError::TooManyChanges),
            ),
            (Act::Rewind, DONE),
            (Act::Create(1), Answer::Fails(OverlayError::TooManyChanges)),
            (Act::Step(1), DONE),
        ],
        changes: Some(&[(1, 0, 0, Some(45)), (8, 1, 2, Some(9)), (8, 1, 3, Some(9))]),
    },
    Row {
        origin: Origin::Script,
        acts: &[(Act::Create(1), Answer::Number(514))],
        changes: Some(&[
            (1, 0, 0, Some(45)),
            (6, 514, 0, Some(8)),
            (7, 514, 1, Some(15)),
        ]),
    },
];

#[test]
fn keys_are_counted(rt: HostRuntime) -> Result<(), Fail> {
    run(&rt, rt.alloc(), COUNTED)
}

const ENTRIES: &[Row] = &[
    Row {
        origin: Origin::Script,
        acts: &[(Act::Collect(false), YES), (Act::Collect(true), YES)],
        changes: Some(&[
            (1, 0, 0, Some(45)),
            (9, 1, 0, Some(16)),
            (9, 2, 0, Some(16)),
        ]),
    },
    Row {
        origin: Origin::Entry {
            number: 1,
            generation: 15,
        },
        acts: &[
            (Act::CollectMany(1022), YES),
            (Act::Collect(true), NO),
            (Act::Rewind, DONE),
            (Act::Collect(true), NO),
        ],
        changes: None,
    },
    Row {
        origin: Origin::Entry {
            number: 1,
            generation: 15,
        },
        acts: &[
            (Act::Collect(true), YES),
            (Act::Collect(false), YES),
            (Act::Collect(true), YES),
            (Act::Rewind, DONE),
        ],
        changes: Some(&[
            (1, 0, 0, Some(45)),
            (9, 1, 0, None),
            (9, 3, 0, Some(16)),
            (9, 4, 0, Some(16)),
        ]),
    },
    Row {
        origin: Origin::Entry {
            number: 1,
            generation: 16,
        },
        acts: &[(Act::Collect(true), NO)],
        changes: Some(&[(1, 0, 0, Some(45)), (9, 1, 0, None)]),
    },
];

#[test]
fn entries_are_dropped_and_kept(rt: HostRuntime) -> Result<(), Fail> {
    run(&rt, rt.alloc(), ENTRIES)
}

const LONG: &[Row] = &[
    MADE,
    Row {
        origin: Origin::Script,
        acts: &[
            (Act::CreateLong(3), Answer::Fails(OverlayError::TooLong)),
            (Act::CreateLong(2), Answer::Number(4)),
            (
                Act::ActivateLong(1, 766),
                Answer::Fails(OverlayError::TooLong),
            ),
            (Act::ActivateLong(1, 765), Answer::Number(5)),
            (Act::Remove(4), DONE),
        ],
        changes: Some(&[
            (1, 0, 0, Some(45)),
            (6, 4, 0, None),
            (7, 4, 1, None),
            (8, 1, 5, Some(777)),
        ]),
    },
];

#[test]
fn values_are_too_long(rt: HostRuntime) -> Result<(), Fail> {
    run(&rt, rt.alloc(), LONG)
}

// The clock's position: whether it is set, an instant, an object and a place.
type Clock = (bool, i64, u64, u32);

fn clock(scene: &mut Scene) -> Result<Clock, Fail> {
    if !scene.heap.live::<MemHost>() {
        return Err(Fail::from("a heap"));
    }
    match scene.heap.counters(scene.alloc, &mut scene.host) {
        Ok(counters) => Ok((
            counters.clock_set,
            counters.instant,
            counters.object,
            counters.place,
        )),
        Err(_) => Err(Fail::from("counters")),
    }
}

// The position behind a transaction.
fn clock_behind(scene: &mut Scene, origin: Origin) -> Result<Clock, Fail> {
    begin(scene, origin)?;
    settle(scene)?;
    clock(scene)
}

fn clock_after(alloc: Global, origin: Origin) -> Result<Clock, Fail> {
    let mut scene = scene(alloc)?;
    clock_behind(&mut scene, origin)
}

const CLOCKS: &[(Origin, Clock)] = &[
    (Origin::Script, (false, 0, 0, 0)),
    (
        Origin::Tick {
            instant: 60,
            object: 1,
            place: 2,
        },
        (true, 60, 1, 2),
    ),
    (Origin::Move { instant: -9 }, (true, -9, u64::MAX, u32::MAX)),
];

#[test]
fn the_clock_moves(rt: HostRuntime) -> Result<(), Fail> {
    for (origin, expected) in CLOCKS {
        equal(&rt, &clock_after(rt.alloc(), *origin)?, expected);
    }
    Ok(())
}
