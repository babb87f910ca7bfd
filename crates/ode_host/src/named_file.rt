//! A file that is opened at its first use.
ghost use Rattle.std.specs.Prelude.{◌≤◌, length, IfOk};

use crate::retry::read_at_again;
use std::fs::{File, OpenFile, OpenOptions};
use std::io;
use std::io::ErrorKind;
use std::os::unix::fs::FileExt;
use std::rt::Files;

/// A file, where it was found, and what keeps it from the places of the standard streams.
#[derive(Drop)]
pub struct Opened<F: Drop> {
    streams: Option<(F, F, F)>,
    file: Option<F>,
}

impl<F: Drop> Opened<F> {
    /// Nothing is opened yet.
    pub fn new() -> Opened<F> {
        Opened {
            streams: None,
            file: None,
        }
    }
}

fn nothing<R: Files>(rt: &R) -> io::Result<R::File> {
    OpenOptions::new().read(true).open(rt, "/dev/null")
}

// Takes the places of the standard streams that are closed, for a file at such a place would get what is printed.
fn take_places<R: Files>(rt: &R) -> io::Result<(R::File, R::File, R::File)> {
    Ok((nothing(rt)?, nothing(rt)?, nothing(rt)?))
}

// The file, and none where there is none. One that may only be read is opened for that, and fails at each write.
fn found<R: Files>(rt: &R, name: &str) -> io::Result<Option<R::File>> {
    match OpenOptions::new().read(true).write(true).open(rt, name) {
        Ok(file) => Ok(Some(file)),
        Err(error) if error.kind() == ErrorKind::NotFound => Ok(None),
        Err(_) => Ok(Some(OpenOptions::new().read(true).open(rt, name)?)),
    }
}

fn created<R: Files>(rt: &R, name: &str) -> io::Result<R::File> {
    OpenOptions::new()
        .read(true)
        .write(true)
        .create(true)
        .open(rt, name)
}

fn open_once<R: Files>(rt: &R, name: &str, opened: &mut Opened<R::File>) -> io::Result<()> {
    if opened.streams.is_none() {
        opened.streams = Some(take_places(rt)?);
    }
    if opened.file.is_none() {
        opened.file = found(rt, name)?;
    }
    Ok(())
}

// A write of no bytes makes the file as long as one of some bytes does.
fn write_to<F: FileExt + OpenFile>(file: &F, at: u64, from: &[u8]) -> io::Result<()> {
    if from.is_empty() && file.metadata()?.len() < at {
        return file.set_len(at);
    }
    file.write_all_at(from, at)
}

/// Reads at an offset. A missing file has nothing there.
pub fn read_named<R: Files>(
    rt: &R,
    name: &str,
    opened: &mut Opened<R::File>,
    at: u64,
    to: &mut [u8],
) -> io::Result<usize>
where
    R::File: FileExt,
    ensures { IfOk result (λ count. count ≤ length to.new) }
{
    open_once(rt, name, opened)?;
    match &opened.file {
        Some(file) => read_at_again(file, at, to),
        None => Ok(0),
    }
}

/// Writes at an offset. A missing file is made.
pub fn write_named<R: Files>(
    rt: &R,
    name: &str,
    opened: &mut Opened<R::File>,
    at: u64,
    from: &[u8],
) -> io::Result<()>
where
    R::File: FileExt,
{
    open_once(rt, name, opened)?;
    if opened.file.is_none() {
        opened.file = Some(created(rt, name)?);
    }
    match &opened.file {
        Some(file) => write_to(file, at, from),
        None => Ok(()),
    }
}

/// Makes what was written durable: the bytes, and the length where it changed.
pub fn sync_named<R: Files>(rt: &R, name: &str, opened: &mut Opened<R::File>) -> io::Result<()> {
    open_once(rt, name, opened)?;
    match &opened.file {
        Some(file) => file.sync_data(),
        None => Ok(()),
    }
}

/// How many bytes the file has. A missing one has none.
pub fn size_named<R: Files>(rt: &R, name: &str, opened: &mut Opened<R::File>) -> io::Result<u64> {
    open_once(rt, name, opened)?;
    match &opened.file {
        Some(file) => Ok(file.metadata()?.len()),
        None => Ok(0),
    }
}
