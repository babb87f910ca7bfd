//! A disk that counts its calls, and what is read of it.
use ode_host::{Failed, Host, MemHost};
use std::alloc::AllocError;

/// A disk and an output in memory, how many calls of them there were, and how many bytes were read of the disk.
#[derive(Drop)]
pub struct Meter {
    host: MemHost,
    pub calls: u64,
    pub fetched: u64,
}

// One call more.
fn raise(calls: &mut u64) {
    *calls = calls.saturating_add(1);
}

impl Meter {
    /// Nothing was called yet.
    pub fn new(host: MemHost) -> Meter {
        Meter {
            host,
            calls: 0,
            fetched: 0,
        }
    }

    /// The disk as it reads.
    pub fn image(&self) -> &[u8] {
        self.host.image()
    }

    /// The disk after a stop now, of which nothing was called yet.
    pub fn after_stop(self) -> Result<Meter, AllocError> {
        Ok(Meter::new(self.host.after_stop()?))
    }
}

impl Host for Meter {
    ghost use Rattle.ode_host.specs.Mem.{mem_view};
    ghost use Rattle.ode_host.specs.MemLaws.{text_law, stays_law};

    ghost view = { λ meter. mem_view meter.host };

    ghost text_stands = { λ meter. text_law meter.host };

    ghost may_stay = { λ meter. stays_law meter.host };

    fn read_at(&mut self, at: u64, to: &mut [u8]) -> Result<usize, Failed> {
        raise(&mut self.calls);
        let count = self.host.read_at(at, to)?;
        self.fetched = self.fetched.saturating_add(count as u64);
        Ok(count)
    }

    fn write_at(&mut self, at: u64, from: &[u8]) -> Result<(), Failed> {
        raise(&mut self.calls);
        self.host.write_at(at, from)
    }

    fn sync(&mut self) -> Result<(), Failed> {
        raise(&mut self.calls);
        self.host.sync()
    }

    fn size(&mut self) -> Result<u64, Failed> {
        raise(&mut self.calls);
        self.host.size()
    }

    fn print(&mut self, piece: &[u8]) -> Result<(), Failed> {
        raise(&mut self.calls);
        self.host.print(piece)
    }
}
