//! What a heap gives of three objects.
use crate::database::{Database, Stored};
use crate::equal::equal;
use ode_codec::{Activation, Entry};
use ode_heap::{HeapError, ObjectHead};
use ode_types::Classes;
use ode_value::{Key, Value};
use ode_versions::Version;
use std::alloc::{AllocError, Global};
use std::test::Fail;

// Objects 1, 2 and 5. Object 1 has versions 1 and 3, the latter derived from 2, and two activations; object 2 has one version and
// nothing else; object 5 has versions 1 and 2 and two activations. Two entries wait.
const ROWS: &[Stored] = &[
    Stored {
        key: Key {
            kind: 1,
            a: 0,
            b: 0,
        },
        bytes: b"\0\0\0\0\0\0\0\x0a\0\0\0\0\0\0\0\x08\0\0\0\0\0\0\0\x07\0\0\0\0\0\0\0\0\0\0\0\0\0\0\0\0\0\0\0\0\0",
    },
    Stored {
        key: Key {
            kind: 6,
            a: 1,
            b: 0,
        },
        bytes: b"\0\0\0\x01\0\0\0\x04",
    },
    Stored {
        key: Key {
            kind: 6,
            a: 2,
            b: 0,
        },
        bytes: b"\0\0\0\x02\0\0\0\x01",
    },
    Stored {
        key: Key {
            kind: 6,
            a: 5,
            b: 0,
        },
        bytes: b"\0\0\0\x01\0\0\0\x02",
    },
    Stored {
        key: Key {
            kind: 7,
            a: 1,
            b: 1,
        },
        bytes: b"\0\0\0\0\0\x02\0\0\0\0\0\0\0\0\x05\x02\0\x02hi",
    },
    Stored {
        key: Key {
            kind: 7,
            a: 1,
            b: 3,
        },
        bytes: b"\0\0\0\x02\0\x02\0\xff\xff\xff\xff\xff\xff\xff\xff\x02\0\0",
    },
    Stored {
        key: Key {
            kind: 7,
            a: 2,
            b: 1,
        },
        bytes: b"\0\0\0\0\0\0",
    },
    Stored {
        key: Key {
            kind: 7,
            a: 5,
            b: 1,
        },
        bytes: b"\0\0\0\0\0\x02\0\0\0\0\0\0\0\0\0\x02\0\0",
    },
    Stored {
        key: Key {
            kind: 7,
            a: 5,
            b: 2,
        },
        bytes: b"\0\0\0\x01\0\x01\x01\x01",
    },
    Stored {
        key: Key {
            kind: 8,
            a: 1,
            b: 7,
        },
        bytes: b"\0\0\0\x01\0\0\0\x01\0",
    },
    Stored {
        key: Key {
            kind: 8,
            a: 1,
            b: 9,
        },
        bytes: b"\0\0\0\x01\0\0\0\0\0",
    },
    Stored {
        key: Key {
            kind: 8,
            a: 5,
            b: 6,
        },
        bytes: b"\0\0\0\x01\0\0\0\0\0",
    },
    Stored {
        key: Key {
            kind: 8,
            a: 5,
            b: 8,
        },
        bytes: b"\0\0\0\x01\0\0\x01\x02\0",
    },
    Stored {
        key: Key {
            kind: 9,
            a: 4,
            b: 0,
        },
        bytes: b"\0\0\0\0\0\0\0\x01\0\0\0\x01\0\0\x01\0",
    },
    Stored {
        key: Key {
            kind: 9,
            a: 6,
            b: 0,
        },
        bytes: b"\0\0\0\0\0\0\0\x05\0\0\0\x01\0\0\x02\x01\x01\x01",
    },
];

fn filled(alloc: Global) -> Result<Database, AllocError> {
    let mut database = Database::new(alloc, &[])?;
    match database.put(ROWS) {
        Ok(()) => Ok(database),
        Err(_) => Err(AllocError),
    }
}

// The class of an object, the last number that a version of it had, and its versions.
type Head = (u32, u32, &'static [Version]);

fn is_head(found: &ObjectHead, expected: &Head) -> bool {
    let versions = &found.versions;
    found.class == expected.0
        && versions.last == expected.1
        && versions.versions.as_slice() == expected.2
}

// Whether an object has this head, or isn't there where none is given.
fn has_head(database: &mut Database, id: u64, expected: &Option<Head>) -> Result<bool, HeapError> {
    match (database.object(id)?, expected) {
        (Some(found), Some(expected)) => Ok(is_head(&found, expected)),
        (None, None) => Ok(true),
        _ => Ok(false),
    }
}

const HEADS: &[(u64, Option<Head>)] = &[
    (
        1,
        Some((
            1,
            4,
            &[
                Version {
                    number: 1,
                    parent: None,
                },
                Version {
                    number: 3,
                    parent: Some(2),
                },
            ],
        )),
    ),
    (
        2,
        Some((
            2,
            1,
            &[Version {
                number: 1,
                parent: None,
            }],
        )),
    ),
    (
        5,
        Some((
            1,
            2,
            &[
                Version {
                    number: 1,
                    parent: None,
                },
                Version {
                    number: 2,
                    parent: Some(1),
                },
            ],
        )),
    ),
    (3, None),
    (0, None),
];

#[test]
fn objects_have_their_own_versions(rt: HostRuntime) -> Result<(), Fail> {
    let mut database = filled(rt.alloc())?;
    for (id, expected) in HEADS {
        let found = has_head(&mut database, *id, expected);
        equal(&rt, &(*id, found), &(*id, Ok(true)));
    }
    Ok(())
}

// The number of an object and of its version, the sorts of its fields, and whether the fields are -1 and a text.
struct Fields {
    id: u64,
    number: u32,
    letters: &'static [u8],
    expected: Result<Option<bool>, HeapError>,
}

fn fields_of(database: &mut Database, row: &Fields) -> Result<Option<bool>, HeapError> {
    match database.version(row.id, row.number, row.letters)? {
        Some(values) => Ok(Some(matches!(values.as_slice(), [Value::Int(-1), Value::Text(_)]))),
        None => Ok(None),
    }
}

const DAMAGED_VERSION: HeapError = HeapError::Damaged {
    key: Key {
        kind: 7,
        a: 1,
        b: 3,
    },
};

const FIELDS: &[Fields] = &[
    Fields {
        id: 1,
        number: 3,
        letters: b"it",
        expected: Ok(Some(true)),
    },
    Fields {
        id: 1,
        number: 2,
        letters: b"it",
        expected: Ok(None),
    },
    Fields {
        id: 3,
        number: 1,
        letters: b"it",
        expected: Ok(None),
    },
    Fields {
        id: 1,
        number: 3,
        letters: b"iti",
        expected: Err(DAMAGED_VERSION),
    },
    Fields {
        id: 1,
        number: 3,
        letters: b"tt",
        expected: Err(DAMAGED_VERSION),
    },
];

#[test]
fn fields_are_those_of_the_class(rt: HostRuntime) -> Result<(), Fail> {
    let mut database = filled(rt.alloc())?;
    for row in FIELDS {
        equal(&rt, &fields_of(&mut database, row), &row.expected);
    }
    Ok(())
}

const OBJECTS_FROM: &[(u64, Option<u64>)] = &[
    (0, Some(1)),
    (1, Some(1)),
    (2, Some(2)),
    (3, Some(5)),
    (6, None),
];

#[test]
fn objects_follow_one_another(rt: HostRuntime) -> Result<(), Fail> {
    let mut database = filled(rt.alloc())?;
    for (from, next) in OBJECTS_FROM {
        equal(&rt, &database.object_from(*from), &Ok(*next));
    }
    Ok(())
}

// The number of an entry, its object, class, trigger and generation, and whether its only argument is true.
type Row = (u64, (u64, u32, u16, u8), bool);

fn row_of(number: u64, entry: &Entry) -> Row {
    let parts = (entry.object, entry.class, entry.trigger, entry.generation);
    let is_true = matches!(entry.args.as_slice(), [Value::Bool(true)]);
    (number, parts, is_true)
}

fn entry_from(database: &mut Database, from: u64) -> Result<Option<Row>, HeapError> {
    match database.entry_from(from)? {
        Some((number, entry)) => Ok(Some(row_of(number, &entry))),
        None => Ok(None),
    }
}

const FIRST: Row = (4, (1, 1, 0, 1), false);

const SECOND: Row = (6, (5, 1, 0, 2), true);

const ENTRIES_FROM: &[(u64, Option<Row>)] = &[
    (0, Some(FIRST)),
    (4, Some(FIRST)),
    (5, Some(SECOND)),
    (7, None),
];

#[test]
fn entries_follow_one_another(rt: HostRuntime) -> Result<(), Fail> {
    let mut database = filled(rt.alloc())?;
    for (from, next) in ENTRIES_FROM {
        equal(&rt, &entry_from(&mut database, *from), &Ok(*next));
    }
    equal(&rt, &database.queued(), &Ok(2));
    Ok(())
}

const DAMAGED_COUNTERS: HeapError = HeapError::Damaged {
    key: Key {
        kind: 1,
        a: 0,
        b: 0,
    },
};

#[test]
fn counters_are_always_there(rt: HostRuntime) -> Result<(), Fail> {
    let mut database = Database::new(rt.alloc(), &[])?;
    equal(&rt, &database.counters(), &Err(DAMAGED_COUNTERS));
    equal(&rt, &database.put(ROWS), &Ok(()));
    equal(&rt, &database.counters(), &Ok((10, 8, 7)));
    Ok(())
}

// Whether an object's activations have these numbers and states.
fn are_acts(found: &[Activation], expected: &[(u64, u16)]) -> bool {
    for (act, row) in found.iter().zip(expected) {
        if (act.number, act.state) != *row {
            return false;
        }
    }
    found.len() == expected.len()
}

fn has_acts(database: &mut Database, id: u64, expected: &[(u64, u16)]) -> Result<bool, HeapError> {
    let found = database.activations(id)?;
    Ok(are_acts(found.as_slice(), expected))
}

// How many activations an object has where no class is declared.
fn count_without(database: &mut Database, alloc: Global, id: u64) -> Result<usize, HeapError> {
    let classes = Classes::new(alloc);
    let found = database.activations_by(id, &classes)?;
    Ok(found.len())
}

const DAMAGED_FIRST: HeapError = HeapError::Damaged {
    key: Key {
        kind: 8,
        a: 1,
        b: 7,
    },
};

const DAMAGED_FIFTH: HeapError = HeapError::Damaged {
    key: Key {
        kind: 8,
        a: 5,
        b: 6,
    },
};

const WITHOUT_CLASS: &[(u64, Result<usize, HeapError>)] = &[
    (2, Ok(0)),
    (1, Err(DAMAGED_FIRST)),
    (5, Err(DAMAGED_FIFTH)),
];

#[test]
fn an_activation_without_its_class_is_damaged(rt: HostRuntime) -> Result<(), Fail> {
    let mut database = filled(rt.alloc())?;
    for (id, expected) in WITHOUT_CLASS {
        let found = count_without(&mut database, rt.alloc(), *id);
        equal(&rt, &found, expected);
    }
    Ok(())
}

const ACTS: &[(u64, &[(u64, u16)])] = &[(1, &[(7, 1), (9, 0)]), (2, &[]), (5, &[(6, 0), (8, 258)])];

#[test]
fn objects_have_their_own_activations(rt: HostRuntime) -> Result<(), Fail> {
    let mut database = filled(rt.alloc())?;
    for (id, acts) in ACTS {
        let found = has_acts(&mut database, *id, acts);
        equal(&rt, &(*id, found), &(*id, Ok(true)));
    }
    Ok(())
}

const THIRD: Key = Key {
    kind: 8,
    a: 5,
    b: 3,
};

// A trigger that isn't there, and an argument too many.
const UNFIT: &[&[Stored]] = &[
    &[Stored {
        key: THIRD,
        bytes: b"\0\0\0\x01\0\x01\0\0\0",
    }],
    &[Stored {
        key: THIRD,
        bytes: b"\0\0\0\x01\0\0\0\0\x01\x01\0",
    }],
];

// Puts an activation of object 5 and reads all of its activations.
fn acts_with(database: &mut Database, rows: &[Stored]) -> Result<bool, HeapError> {
    database.put(rows)?;
    has_acts(database, 5, &[])
}

#[test]
fn activations_fit_their_triggers(rt: HostRuntime) -> Result<(), Fail> {
    let mut database = filled(rt.alloc())?;
    let damaged = HeapError::Damaged { key: THIRD };
    for rows in UNFIT {
        let found = acts_with(&mut database, rows);
        equal(&rt, &found, &Err(damaged));
    }
    Ok(())
}

// Whether a database on a disk of which this call fails is filled with a fault, and whether it may be used then.
fn fill_failing(alloc: Global, call: u64) -> (bool, bool) {
    let Ok(mut database) = Database::new(alloc, &[call]) else {
        return (false, false);
    };
    let has_failed = database.put(ROWS) == Err(HeapError::DiskFault);
    (has_failed, has_failed && database.is_live())
}

#[test]
fn a_fault_of_the_disk_ends_it(rt: HostRuntime) {
    let mut failed = 0_u8;
    for call in 0..40 {
        let (has_failed, is_live) = fill_failing(rt.alloc(), call);
        equal(&rt, &(call, is_live), &(call, false));
        failed = failed.saturating_add(u8::from(has_failed));
    }
    equal(&rt, &(failed > 0), &true);
}
