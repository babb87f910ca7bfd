//! A file and the standard output.
ghost use Rattle.std.specs.Prelude.{◌≡◌, IfOk, IsErr};
ghost use Rattle.ode_host.specs.Causes.{RoseIf};

use crate::faults::raise;
use crate::named_file::{Opened, read_named, size_named, sync_named, write_named};
use crate::{Failed, Host};
use std::fs::File;
use std::io;
use std::os::unix::fs::FileExt;
use std::rt::Files;

/// A file of this name as the disk, and standard output. It tells nothing of either. The file is opened at the first use; a
/// missing one reads as empty, and the first write makes it.
#[derive(Drop)]
pub struct FileHost<'a, R: Files + Print> {
    rt: &'a R,
    name: &'a str,
    opened: Opened<R::File>,
    disk_faults: u64,
    print_faults: u64,
}

impl<'a, R: Files + Print> FileHost<'a, R> {
    /// Nothing is opened yet.
    pub fn new(rt: &'a R, name: &'a str) -> FileHost<'a, R> {
        FileHost {
            rt,
            name,
            opened: Opened::new(),
            disk_faults: 0,
            print_faults: 0,
        }
    }
}

// The answer without the error's cause, and a fault more at an error.
fn counted<T: Drop>(answer: io::Result<T>, faults: &mut u64) -> Result<T, Failed>
    ensures ok { IfOk result (λ value. answer ≡ Ok value) }
    ensures cause { RoseIf (IsErr result) faults.old faults.new }
{
    match answer {
        Ok(value) => Ok(value),
        Err(_) => {
            raise(faults);
            Err(Failed)
        }
    }
}

impl<'a, R: Files + Print> Host for FileHost<'a, R>
where
    R::File: FileExt,
{
    ghost use Rattle.ode_host.specs.Untold.{untold, untold_law};

    ghost view = { λ h. untold h.disk_faults h.print_faults };

    ghost text_stands = { λ h c o left. absurd left };

    ghost may_stay = { λ h file text tells said. untold_law h.disk_faults h.print_faults file text tells };

    fn read_at(&mut self, at: u64, to: &mut [u8]) -> Result<usize, Failed> {
        let answer = read_named(self.rt, self.name, &mut self.opened, at, to);
        counted(answer, &mut self.disk_faults)
    }

    fn write_at(&mut self, at: u64, from: &[u8]) -> Result<(), Failed> {
        let answer = write_named(self.rt, self.name, &mut self.opened, at, from);
        counted(answer, &mut self.disk_faults)
    }

    fn sync(&mut self) -> Result<(), Failed> {
        let answer = sync_named(self.rt, self.name, &mut self.opened);
        counted(answer, &mut self.disk_faults)
    }

    fn size(&mut self) -> Result<u64, Failed> {
        let answer = size_named(self.rt, self.name, &mut self.opened);
        counted(answer, &mut self.disk_faults)
    }

    fn print(&mut self, piece: &[u8]) -> Result<(), Failed> {
        counted(self.rt.write_all(piece), &mut self.print_faults)
    }
}
