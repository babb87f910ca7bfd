//! The keeper: its records in memory, over a header, a snapshot and a journal.
ghost use Rattle.std.specs.Prelude.{◌≡◌};
ghost use Rattle.ode_areas.specs.Holding.{held_bytes};

use crate::map::Map;
use ode_gate::Header;
use ode_journal::Journal;
use std::alloc::Global;

/// Records that stand in two areas of a file: the last snapshot, and a journal of what changed since.
#[derive(Drop)]
pub struct Areas {
    pub(crate) header: Header,
    pub(crate) journal: Journal,
    pub(crate) map: Map,
    pub(crate) is_live: bool,
    pub(crate) alloc: Global,
}

impl Areas {
    /// The bytes of the keys and values of the records that it has in memory.
    pub fn bytes(&self) -> u64
        ensures { result ≡ held_bytes self.now }
    {
        self.map.bytes()
    }
}
