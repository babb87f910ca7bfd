//! The pairs of states that words lead to, and a word for each.
ghost use Rattle.std.specs.Prelude.{◌≡◌, ◌<◌, IfOk};
ghost use Rattle.std.specs.Prelude.{length, reverse};
ghost use Rattle.ode_value.specs.Tables.{Table};
ghost use Rattle.ode_walk.specs.Relation.{Leads};
ghost use Rattle.ode_walk.specs.Search.{GoesBack, IsTree, IsWordBack, visit_at};

use ode_value::List;
use std::alloc::{AllocError, Global};

/// A pair of states that a word leads to.
#[derive(Clone, Copy)]
pub(crate) struct Visit {
    pub(crate) stored: u16,
    pub(crate) built: u16,
    /// The place of the visit that the word's last symbol leads from.
    pub(crate) from: usize,
    /// The word's last symbol.
    pub(crate) symbol: u8,
    /// The word's length.
    pub(crate) length: usize,
}

/// The word of the visit at a place.
pub(crate) fn word_to(alloc: Global, visits: &[Visit], at: usize) -> Result<Vec<u8>, AllocError>
    requires within { at < length visits.now }
    requires back { GoesBack visits.now }
    ensures leads { IfOk result (λ word. (stored built : Table) → IsTree stored built visits.now
        → Leads stored built word.items (visit_at visits.now at).stored (visit_at visits.now at).built) }
    ensures length { IfOk result (λ word. (stored built : Table) → IsTree stored built visits.now
        → length word.items ≡ (visit_at visits.now at).length) }
    ensures back { IfOk result (λ word. IsWordBack visits.now at (reverse word.items)) }
{
    let mut word = Vec::new(alloc);
    let mut place = at;
    while place != 0 {
        let visit = visits[place];
        word.push(visit.symbol)?;
        place = visit.from;
    }
    word.reverse();
    Ok(word)
}
