//! A host in memory, which fails and stops as a plan says.
ghost use Rattle.std.specs.Prelude.{◌≡◌, ◌+◌, ◌-◌, ◌^◌, ◌<◌, ◌≤◌, ◌⊎◌, [], List, ℕ, length, take, drop, min, IfOk, OnOk, OnErr, IsErr, IsSome, IsTrue, Contains, ◌↔◌};
ghost use Rattle.ode_host.specs.Causes.{RoseIf};
ghost use Rattle.ode_host.specs.Host.{Looks, Gives, Writes, Wrote, MayHaveWritten, Only, Tells, Prints, Printed, MayHavePrinted};
ghost use Rattle.ode_host.specs.Tears.{IsPlanned};

use crate::count::Count;
use crate::faults::raise;
use crate::image::copy_front;
use crate::numbering::Numbering;
use crate::plan::Plan;
use crate::stop::{Torn, held_after};
use crate::tape::Tape;
use crate::{Failed, Host};
use std::alloc::{AllocError, Global};

/// A disk and an output in memory, which tell all. A call of it fails exactly where its plan says so or `refused` rises.
#[derive(Drop)]
pub struct MemHost {
    tape: Tape,
    plan: Plan,
    numbering: Numbering,
    written: Count,
    fetched: Count,
    disk_faults: u64,
    print_faults: u64,
    refused: u64,
}

impl MemHost {
    ghost use Rattle.std.specs.Prelude.{None};
    ghost use Rattle.ode_host.specs.Mem.{mem_view, disk_of, image_of, text_of, disk_fails_of, print_fails_of, stop_of, call_number, refused_of};
    ghost use Rattle.ode_host.specs.Mem.{IsFresh, IsNextStop, IsUnplanned, Follows};
    ghost use Rattle.ode_host.specs.Tears.{tear_of, torn_image};

    /// A disk that holds this image, all of it synced, and an empty output.
    pub fn new(alloc: Global, image: Vec<u8>, plan: Plan) -> Result<MemHost, AllocError>
        ensures fresh { IfOk result (λ host. IsFresh image.items host) }
        ensures planned { IfOk result (λ host. Follows plan host) }
    {
        Ok(MemHost {
            tape: Tape::new(alloc, image)?,
            plan,
            numbering: Numbering::new(),
            written: Count::new(),
            fetched: Count::new(),
            disk_faults: 0,
            print_faults: 0,
            refused: 0,
        })
    }

    /// The disk as it reads.
    pub fn image(&self) -> &[u8]
        ensures view { result.now ≡ image_of self.now }
        ensures disk { result.now ≡ (disk_of self.now).image }
    {
        &self.tape.image
    }

    /// What was printed.
    pub fn text(&self) -> &[u8]
        ensures { result.now ≡ text_of self.now }
    {
        &self.tape.text
    }

    /// How many calls found no memory. Once this is at its type's end it stays there, and every call fails.
    pub fn refused(&self) -> u64
        ensures { result ≡ refused_of self.now }
    {
        self.refused
    }

    /// The host after a stop now: its image is what the plan's stop leaves of the pending writes, its output is empty, and
    /// no call of it is planned to fail. Where the plan has no stop, all that was written stays.
    pub fn after_stop(self) -> Result<MemHost, AllocError>
        ensures fresh { IfOk result (λ host. IsFresh (torn_image (tear_of (stop_of self)) (disk_of self).synced (disk_of self).pending) host) }
        ensures left { IfOk result (λ host. (mem_view self).left (mem_view self).moment (image_of host) (text_of self)) }
        ensures unplanned { IfOk result (λ host. IsUnplanned host) }
    {
        let alloc = self.tape.alloc;
        let torn = match self.plan.stop {
            Some((_, torn)) => torn,
            None => Torn::Whole,
        };
        let image = held_after(alloc, &self.tape.start, &self.tape.calls, torn)?;
        let plan = Plan {
            disk_fails: Vec::new(alloc),
            print_fails: Vec::new(alloc),
            stop: None,
        };
        MemHost::new(alloc, image, plan)
    }

    // Whether the next call fails where it is a disk call: by the plan, or since no refusal more can be counted.
    fn fails_disk(&self) -> bool
        ensures { IsTrue result ↔ (IsPlanned (disk_fails_of self.now) (stop_of self.now) (call_number self.now) ⊎ (2 ^ 64 - 1 ≤ refused_of self.now)) }
    {
        self.plan.fails_disk(&self.numbering) || self.refused == u64::MAX
    }

    // Whether the next call is the stop, and a refusal more can be counted.
    fn is_stop(&self) -> bool
        ensures { IsTrue result ↔ (IsNextStop self.now × (refused_of self.now < 2 ^ 64 - 1)) }
    {
        self.plan.is_stop(&self.numbering) && self.refused < u64::MAX
    }

    // The same where it is a print.
    fn fails_print(&self) -> bool
        ensures { IsTrue result ↔ (IsPlanned (print_fails_of self.now) (stop_of self.now) (call_number self.now) ⊎ (2 ^ 64 - 1 ≤ refused_of self.now)) }
    {
        self.plan.fails_print(&self.numbering) || self.refused == u64::MAX
    }
}

impl Host for MemHost {
    ghost use Rattle.std.specs.Prelude.{Some};
    ghost use Rattle.ode_host.specs.Mem.{mem_view, disk_of, text_of, disk_fails_of, print_fails_of};
    ghost use Rattle.ode_host.specs.Mem.{Fails, GoesOn, IsNextStop, IsPending, WasRefused};
    ghost use Rattle.ode_host.specs.Causes.{Counted};
    ghost use Rattle.ode_host.specs.Disk.{settled};
    ghost use Rattle.ode_host.specs.MemLaws.{text_law, stays_law};

    ghost view = { mem_view };

    ghost text_stands = { text_law };

    ghost may_stay = { stays_law };

    fn read_at(&mut self, at: u64, to: &mut [u8]) -> Result<usize, Failed>
        ensures bound { IfOk result (λ n. n ≤ length to.new) }
        ensures bytes { IfOk result (Gives (mem_view self.old) at to.new) }
        ensures looks { Looks (mem_view self.old) (mem_view self.new) }
        ensures fetched { IfOk result (λ n. IsSome (mem_view self.old).image → (mem_view self.new).fetched ≡ (mem_view self.old).fetched + n) }
        ensures not_fetched { OnErr result (IsSome (mem_view self.old).image → (mem_view self.new).fetched ≡ (mem_view self.old).fetched) }
        ensures cause { RoseIf (IsErr result) (mem_view self.old).disk_faults (mem_view self.new).disk_faults }
        ensures exact { IsErr result ↔ Fails (disk_fails_of self.old) self.old self.new }
        ensures counted { Counted result (mem_view self.old).disk_faults (mem_view self.new).disk_faults }
        ensures others { (mem_view self.new).print_faults ≡ (mem_view self.old).print_faults }
        ensures next { GoesOn self.old self.new }
        ensures disk { disk_of self.new ≡ disk_of self.old }
    {
        let fails = self.fails_disk();
        self.numbering.advance();
        if fails {
            raise(&mut self.disk_faults);
            return Err(Failed);
        }
        let count = copy_front(&self.tape.image, at, to);
        self.fetched = self.fetched.plus(count);
        Ok(count)
    }

    fn write_at(&mut self, at: u64, from: &[u8]) -> Result<(), Failed>
        ensures writes { Writes at from.now (mem_view self.old) (mem_view self.new) }
        ensures done { OnOk result (Wrote at from.now (mem_view self.old) (mem_view self.new)) }
        ensures torn { OnErr result (MayHaveWritten at (length from.now) (mem_view self.old) (mem_view self.new)) }
        ensures cause { RoseIf (IsErr result) (mem_view self.old).disk_faults (mem_view self.new).disk_faults }
        ensures exact { IsErr result ↔ Fails (disk_fails_of self.old) self.old self.new }
        ensures counted { Counted result (mem_view self.old).disk_faults (mem_view self.new).disk_faults }
        ensures others { (mem_view self.new).print_faults ≡ (mem_view self.old).print_faults }
        ensures next { GoesOn self.old self.new }
        ensures pending { OnOk result (IsPending at from.now self.old self.new) }
        ensures stopped { IsNextStop self.old → ¬ (WasRefused self.old self.new) → IsPending at from.now self.old self.new }
        ensures failed { OnErr result (¬ (IsNextStop self.old) ⊎ WasRefused self.old self.new → disk_of self.new ≡ disk_of self.old) }
    {
        let fails = self.fails_disk();
        let stops = self.is_stop();
        self.numbering.advance();
        self.written = self.written.plus(from.len());
        if fails && !stops {
            raise(&mut self.disk_faults);
            return Err(Failed);
        }
        match self.tape.write(at, from) {
            Ok(()) if !stops => Ok(()),
            Ok(()) => {
                raise(&mut self.disk_faults);
                Err(Failed)
            }
            Err(_) => {
                raise(&mut self.refused);
                raise(&mut self.disk_faults);
                Err(Failed)
            }
        }
    }

    fn sync(&mut self) -> Result<(), Failed>
        ensures durable { OnOk result ((file : List ℕ) → Tells (mem_view self.old) file → Only file (mem_view self.new)) }
        ensures looks { Looks (mem_view self.old) (mem_view self.new) }
        ensures not_fetched { IsSome (mem_view self.old).image → (mem_view self.new).fetched ≡ (mem_view self.old).fetched }
        ensures cause { RoseIf (IsErr result) (mem_view self.old).disk_faults (mem_view self.new).disk_faults }
        ensures exact { IsErr result ↔ Fails (disk_fails_of self.old) self.old self.new }
        ensures counted { Counted result (mem_view self.old).disk_faults (mem_view self.new).disk_faults }
        ensures others { (mem_view self.new).print_faults ≡ (mem_view self.old).print_faults }
        ensures next { GoesOn self.old self.new }
        ensures synced { OnOk result (disk_of self.new ≡ settled (disk_of self.old).image) }
        ensures failed { OnErr result (disk_of self.new ≡ disk_of self.old) }
    {
        let fails = self.fails_disk();
        self.numbering.advance();
        if fails {
            raise(&mut self.disk_faults);
            return Err(Failed);
        }
        match self.tape.sync() {
            Ok(()) => Ok(()),
            Err(_) => {
                raise(&mut self.refused);
                raise(&mut self.disk_faults);
                Err(Failed)
            }
        }
    }

    fn size(&mut self) -> Result<u64, Failed>
        ensures length { IfOk result (λ n. (file : List ℕ) → Tells (mem_view self.old) file → n ≡ length file) }
        ensures looks { Looks (mem_view self.old) (mem_view self.new) }
        ensures not_fetched { IsSome (mem_view self.old).image → (mem_view self.new).fetched ≡ (mem_view self.old).fetched }
        ensures cause { RoseIf (IsErr result) (mem_view self.old).disk_faults (mem_view self.new).disk_faults }
        ensures exact { IsErr result ↔ Fails (disk_fails_of self.old) self.old self.new }
        ensures counted { Counted result (mem_view self.old).disk_faults (mem_view self.new).disk_faults }
        ensures others { (mem_view self.new).print_faults ≡ (mem_view self.old).print_faults }
        ensures next { GoesOn self.old self.new }
        ensures disk { disk_of self.new ≡ disk_of self.old }
    {
        let fails = self.fails_disk();
        self.numbering.advance();
        if fails {
            raise(&mut self.disk_faults);
            return Err(Failed);
        }
        Ok(self.tape.image.len() as u64)
    }

    fn print(&mut self, piece: &[u8]) -> Result<(), Failed>
        ensures prints { Prints piece.now (mem_view self.old) (mem_view self.new) }
        ensures done { OnOk result (Printed piece.now (mem_view self.old) (mem_view self.new)) }
        ensures cut { OnErr result (MayHavePrinted piece.now (mem_view self.old) (mem_view self.new)) }
        ensures cause { RoseIf (IsErr result) (mem_view self.old).print_faults (mem_view self.new).print_faults }
        ensures exact { IsErr result ↔ Fails (print_fails_of self.old) self.old self.new }
        ensures counted { Counted result (mem_view self.old).print_faults (mem_view self.new).print_faults }
        ensures others { (mem_view self.new).disk_faults ≡ (mem_view self.old).disk_faults }
        ensures next { GoesOn self.old self.new }
        ensures disk { disk_of self.new ≡ disk_of self.old }
        ensures failed { OnErr result (text_of self.new ≡ text_of self.old) }
    {
        let fails = self.fails_print();
        self.numbering.advance();
        if fails {
            raise(&mut self.print_faults);
            return Err(Failed);
        }
        match self.tape.print(piece) {
            Ok(()) => Ok(()),
            Err(_) => {
                raise(&mut self.refused);
                raise(&mut self.print_faults);
                Err(Failed)
            }
        }
    }
}
