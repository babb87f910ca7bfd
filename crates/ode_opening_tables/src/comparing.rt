//! A stored table beside the one that was built.
ghost use Rattle.std.specs.Prelude.{IfOk};
ghost use Rattle.ode_opening_tables.specs.Answers.{Compares};

use ode_table::Table;
use ode_walk::{RelateError, relate};
use std::alloc::{AllocError, Global};

/// Whether a stored table has as many symbols as the built one, and agrees with it on every word that isn't empty.
#[tactic(auto, using(crate::proofs::Compared::told_apart))]
pub(crate) fn compare(alloc: Global, stored: &Table, built: &Table) -> Result<bool, AllocError>
    ensures { IfOk result (Compares stored.now built.now) }
{
    if stored.symbols() != built.symbols() {
        return Ok(false);
    }
    match relate(alloc, stored, built) {
        Ok(_) => Ok(true),
        Err(RelateError::Memory) => Err(AllocError),
        Err(RelateError::Differs { .. }) => Ok(false),
    }
}
