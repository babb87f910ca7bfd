//! Which calls of a host in memory fail.
ghost use Rattle.std.specs.Prelude.{◌≡◌, ◌↔◌, ℕ, IsTrue};
ghost use Rattle.ode_host.specs.Tears.{IsPlanned, IsStop, IsFromStop};

use crate::numbering::Numbering;
use crate::stop::Torn;

/// Which calls fail, by their numbers. All calls are numbered from 0, whatever their kind.
#[derive(Drop)]
pub struct Plan {
    /// The numbers at which a disk call fails.
    pub disk_fails: Vec<u64>,
    /// The numbers at which a print fails.
    pub print_fails: Vec<u64>,
    /// The number from which on every call fails, and what the pending writes leave then. A write that is the stop itself
    /// is pending.
    pub stop: Option<(u64, Torn)>,
}

impl Plan {
    // Whether the next call is the stop or comes after it.
    fn is_from_stop(&self, next: &Numbering) -> bool
        ensures { IsTrue result ↔ IsFromStop self.now.stop next.now.exact.value }
    {
        match self.stop {
            Some((at, _)) => next.is_from(at),
            None => false,
        }
    }

    /// Whether the next call is the stop.
    pub(crate) fn is_stop(&self, next: &Numbering) -> bool
        ensures { IsTrue result ↔ IsStop self.now.stop next.now.exact.value }
    {
        match self.stop {
            Some((at, _)) => next.is_at(at),
            None => false,
        }
    }

    /// Whether the next call fails where it is a disk call.
    pub(crate) fn fails_disk(&self, next: &Numbering) -> bool
        ensures { IsTrue result ↔ (IsPlanned self.now.disk_fails.items self.now.stop next.now.exact.value) }
    {
        next.is_in(&self.disk_fails) || self.is_from_stop(next)
    }

    /// Whether the next call fails where it is a print.
    pub(crate) fn fails_print(&self, next: &Numbering) -> bool
        ensures { IsTrue result ↔ (IsPlanned self.now.print_fails.items self.now.stop next.now.exact.value) }
    {
        next.is_in(&self.print_fails) || self.is_from_stop(next)
    }
}
