//! Two tables compared.
ghost use Rattle.std.specs.Prelude.{◌≡◌, IfErr, IfOk, OnOk};
ghost use Rattle.ode_walk.specs.Relation.{Agrees, IsCause, IsRelation};

use crate::error::RelateError;
use crate::numbering::numbers_of;
use crate::search::explore;
use ode_table::Table;
use ode_value::List;
use std::alloc::Global;

/// For each state of a stored table that a word reaches a state of a built one that answers alike on all words that aren't
/// empty, where the tables agree on all of these; else the least of the shortest of them on which they don't.
pub fn relate(
    alloc: Global,
    stored: &Table,
    built: &Table,
) -> Result<List<Option<u16>>, RelateError>
    requires { stored.now.symbols ≡ built.now.symbols }
    ensures agrees { OnOk result (Agrees stored.now built.now) }
    ensures numbers { IfOk result (IsRelation stored.now built.now) }
    ensures differs { IfErr result (IsCause stored.now built.now) }
{
    let visits = explore(alloc, stored, built)?;
    let numbers = numbers_of(alloc, stored.states(), visits.as_slice())?;
    Ok(numbers)
}
