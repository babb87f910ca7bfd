//! Reads that a signal may interrupt.
ghost use Rattle.std.specs.Prelude.{◌≤◌, length, IfOk};
ghost use Rattle.std.specs.Io.{ReadsAtMost};
ghost use Rattle.std.specs.Io.KnownBytes.{ReadConsumes};

use std::io;
use std::io::{ErrorKind, Read};
use std::os::unix::fs::FileExt;

// How often a read is made again.
const RETRIES: u32 = 64;

/// Reads once, and again where a signal interrupted it.
pub fn read_again<T: Read>(reader: &mut T, to: &mut [u8]) -> io::Result<usize>
    ensures bound { ReadsAtMost result to.new }
    ensures bytes { ReadConsumes (T.remaining reader.old) (T.remaining reader.new) result to.new }
{
    for _ in 0..RETRIES {
        match reader.read(to) {
            Err(error) if error.kind() == ErrorKind::Interrupted => {}
            answer => return answer,
        }
    }
    reader.read(to)
}

/// Reads once at an offset, and again where a signal interrupted it.
pub fn read_at_again<F: FileExt>(file: &F, at: u64, to: &mut [u8]) -> io::Result<usize>
    ensures { IfOk result (λ count. count ≤ length to.new) }
{
    for _ in 0..RETRIES {
        match file.read_at(to, at) {
            Err(error) if error.kind() == ErrorKind::Interrupted => {}
            answer => return answer,
        }
    }
    file.read_at(to, at)
}
