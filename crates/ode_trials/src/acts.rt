//! What a test does with a file, act by act.
use crate::amiss::{Amiss, agree, is_so};
use crate::images::{
    Numbers, areas_file, class_file, file_with, filled, first_file, front, in_areas, next_numbers,
    put_at, put_queue, three_frames, three_pages, turned, two_slots,
};
use crate::trial::{Case, FIRST, call, new_file, run, run_case, smooth, source, stays};
use ode_host::Status;
use std::alloc::{AllocError, Global};

/// A file that is made.
pub enum Made {
    /// The one that `init` makes.
    New,
    /// An empty database in two areas, as `init` made it once. So are those below that aren't of pages.
    Areas,
    /// One whose snapshot has what the first script leaves.
    First,
    /// One with the three frames of the first script.
    Frames,
    /// A new one of pages with the three frames of the first script.
    Pages,
    /// One whose snapshot has a class `P` with this text.
    Class(&'static str),
    /// One whose snapshot has a class of two texts, and so many of its longest objects.
    Filled(u64),
    /// One whose snapshot has the first script's class and object, and this next object and this next transaction.
    Counters(u64, u64),
    /// One of 5,000 bytes with these generations in its two slots.
    Slots(u8, u8),
}

fn file_of(alloc: Global, made: &Made) -> Result<Vec<u8>, AllocError> {
    match made {
        Made::New => new_file(alloc),
        Made::Areas => areas_file(alloc),
        Made::First => first_file(alloc),
        Made::Frames => three_frames(alloc),
        Made::Pages => three_pages(alloc),
        Made::Class(text) => class_file(alloc, text),
        Made::Filled(objects) => filled(alloc, *objects),
        Made::Counters(object, next) => file_with(alloc, next_numbers(*object, *next)),
        Made::Slots(first, second) => two_slots(alloc, *first, *second),
    }
}

/// The first and the last of some places, and bits of a byte.
pub type Turned = (usize, usize, u8);

/// What is done with a file.
pub enum Act {
    /// This file takes its place.
    Make(Made),
    /// It is cut to this length, or filled up to it with zeros.
    Length(usize),
    /// These bytes are put at a place.
    Put(usize, &'static [u8]),
    /// A script runs on it and ends with `Ok`.
    Run(&'static str),
    /// Its records, which one page has, are put into two areas.
    IntoAreas,
    /// So many entries more wait for the first object's first trigger, and this is the next transaction. The file is one of two
    /// areas.
    Queue(u64, u64),
    /// A run is as the case says.
    Case(Case<'static>),
    /// The same, and the file stays as it was.
    Stays(Case<'static>),
    /// A run of the first script on a file of this name prints this line, ends as on a bad file, and leaves it as it was.
    Refused(&'static str, &'static str),
    /// The same of a check.
    Checked(&'static str, &'static str),
    /// The same as of the run, with any line that says which rule the file breaks.
    Bad(&'static str),
    /// The same where these bits are turned at one of these places.
    BadTurned(&'static [Turned]),
    /// The same where it is cut short to one of these lengths, from the first to the last.
    BadCut(&'static [(usize, usize)]),
    /// It has so many bytes.
    HasLength(usize),
}

// A run of the first script prints this line, ends as on a bad file, and writes nothing.
fn is_refused(alloc: Global, image: &[u8], name: &str, line: &str) -> Result<(), Amiss> {
    let case = Case {
        name,
        script: FIRST,
        text: line,
        status: Status::BadFile,
    };
    stays(alloc, image, &case)
}

// A check prints this line, ends as on a bad file, and writes nothing.
fn is_checked(alloc: Global, image: &[u8], name: &str, line: &str) -> Result<(), Amiss> {
    let script = source(alloc, "", &[], 1)?;
    let checked = call(alloc, &["check", "f"], script, image, smooth(alloc))?;
    checked.is(alloc, line, Status::BadFile, name)?;
    checked.leaves(alloc, image, name)
}

// A run of the first script says which rule the file breaks, ends as on a bad file, and writes nothing.
fn is_bad(alloc: Global, image: &[u8], name: &str) -> Result<(), Amiss> {
    let ran = run(alloc, image, FIRST)?;
    let line = ran.text();
    let is_bad = line.starts_with("bad file ") || line.starts_with("newer format ");
    is_so(alloc, is_bad, name)?;
    agree(alloc, ran.status, Status::BadFile, name)?;
    ran.leaves(alloc, image, name)
}

fn turned_is_bad(alloc: Global, file: &[u8], place: usize, bits: u8) -> Result<(), Amiss> {
    let image = turned(alloc, file, place, bits)?;
    let name = format!(in alloc; "a file with the bits {bits} turned at {place}")?;
    is_bad(alloc, &image, name.as_str())
}

fn turned_are_bad(alloc: Global, file: &[u8], rows: &[Turned]) -> Result<(), Amiss> {
    for (first, last, bits) in rows {
        for place in *first..=*last {
            turned_is_bad(alloc, file, place, *bits)?;
        }
    }
    Ok(())
}

fn cut_are_bad(alloc: Global, file: &[u8], lengths: &[(usize, usize)]) -> Result<(), Amiss> {
    for (first, last) in lengths {
        for length in *first..=*last {
            is_bad(alloc, front(file, length), "a file that is cut short")?;
        }
    }
    Ok(())
}

// A run of a script, which ends with `Ok`: what it leaves.
fn left(alloc: Global, image: &[u8], script: &str) -> Result<Vec<u8>, Amiss> {
    let ran = run(alloc, image, script)?;
    agree(alloc, ran.status, Status::Ok, script)?;
    Ok(ran.image(alloc)?)
}

fn queue(
    alloc: Global,
    file: &mut Vec<u8>,
    entries: u64,
    transaction: u64,
) -> Result<(), AllocError> {
    let next = Numbers {
        object: 3,
        transaction,
        entry: entries.saturating_add(1),
    };
    put_queue(alloc, file, entries, next)
}

// A run is as the case says: what it leaves.
fn behind(alloc: Global, image: &[u8], case: &Case) -> Result<Vec<u8>, Amiss> {
    let ran = run_case(alloc, image, case)?;
    Ok(ran.image(alloc)?)
}

// One of the acts that change a file.
fn change(alloc: Global, file: &mut Vec<u8>, act: &Act) -> Result<(), Amiss> {
    match act {
        Act::Make(made) => *file = file_of(alloc, made)?,
        Act::Length(length) => file.resize(*length, 0)?,
        Act::Put(at, bytes) => put_at(file, *at, bytes),
        Act::Run(script) => *file = left(alloc, file, script)?,
        Act::IntoAreas => *file = in_areas(alloc, file)?,
        Act::Queue(entries, next) => queue(alloc, file, *entries, *next)?,
        Act::Case(case) => *file = behind(alloc, file, case)?,
        Act::Stays(_)
        | Act::Refused(_, _)
        | Act::Checked(_, _)
        | Act::Bad(_)
        | Act::BadTurned(_)
        | Act::BadCut(_)
        | Act::HasLength(_) => check(alloc, file, act)?,
    }
    Ok(())
}

// One of the acts that leave a file as it is.
fn check(alloc: Global, file: &[u8], act: &Act) -> Result<(), Amiss> {
    match act {
        Act::Stays(case) => stays(alloc, file, case),
        Act::Refused(name, line) => is_refused(alloc, file, name, line),
        Act::Checked(name, line) => is_checked(alloc, file, name, line),
        Act::Bad(name) => is_bad(alloc, file, name),
        Act::BadTurned(rows) => turned_are_bad(alloc, file, rows),
        Act::BadCut(lengths) => cut_are_bad(alloc, file, lengths),
        Act::HasLength(length) => agree(alloc, file.len(), *length, "the length of a file"),
        Act::Make(_)
        | Act::Length(_)
        | Act::Put(_, _)
        | Act::Run(_)
        | Act::IntoAreas
        | Act::Queue(_, _)
        | Act::Case(_) => Ok(()),
    }
}

/// The file behind these acts, which begin with an empty one.
pub fn file_behind(alloc: Global, acts: &[Act]) -> Result<Vec<u8>, Amiss> {
    let mut file = Vec::new(alloc);
    for act in acts {
        change(alloc, &mut file, act)?;
    }
    Ok(file)
}

/// Does these acts, beginning with an empty file.
pub fn play(alloc: Global, acts: &[Act]) -> Result<(), Amiss> {
    let _ = file_behind(alloc, acts)?;
    Ok(())
}
