//! What the records of pages count together.
ghost use Rattle.std.specs.Prelude.{◌≡◌, ◌+◌, ◌<◌, ◌^◌, ◌==◌, [], cond};
ghost use Rattle.ode_value.specs.Keys.{entry_kind};
ghost use Rattle.ode_keep.specs.Entries.{count_of_kind, record_bytes};
ghost use Rattle.ode_pages.specs.Pages.{FitsPage};

use crate::pages::{PAGE_SIZE, Page};
use ode_keep::KEY_LEN;
use ode_value::Key;

/// How many bytes the keys and values of some records have, and how many of the records are entries of the queue.
#[derive(Clone, Copy, Debug)]
pub(crate) struct Sums {
    pub(crate) bytes: u64,
    pub(crate) queued: u64,
}

// How many entries of the queue a record with this key is.
fn one_queued(key: Key) -> u64
    ensures { result ≡ cond (key.kind == entry_kind) 1 0 }
{
    if key.kind == Key::ENTRY { 1 } else { 0 }
}

impl Sums {
    ghost use Rattle.ode_paging.specs.Summed.{AreSums};

    /// Those of no records.
    pub(crate) fn none() -> Sums
        ensures { AreSums result [] }
    {
        Sums {
            bytes: 0,
            queued: 0,
        }
    }

    /// Adds those of a page's records.
    pub(crate) fn add(&mut self, page: &Page)
        requires bytes { self.old.bytes + PAGE_SIZE < 2 ^ 64 }
        requires queued { self.old.queued + PAGE_SIZE < 2 ^ 64 }
        ensures bytes { self.new.bytes ≡ self.old.bytes + record_bytes page.now }
        ensures queued { self.new.queued ≡ self.old.queued + count_of_kind entry_kind page.now }
        ensures fits { FitsPage PAGE_SIZE page.now }
    {
        let mut entries = page.entries();
        'entries: while let Some((key, value)) = entries.next() {
            self.bytes += (KEY_LEN + value.len()) as u64;
            self.queued += one_queued(key);
        }
    }
}
