//! The states of triggers' tables that words lead to.
ghost use Rattle.std.specs.Prelude.{◌≡◌, ℕ, IfOk, List as Items, false};
ghost use Rattle.std.specs.List.{slice_get};
ghost use Rattle.std.specs.Option.{option_map_or};
ghost use Rattle.ode_value.specs.Tables.{Table as Automaton};
ghost use Rattle.ode_walk.specs.Reaching.{is_reached};
ghost use Rattle.ode_opening_objects.specs.States.{is_flagged, is_seen};
ghost use Rattle.ode_opening_objects.specs.Triggers.{is_reached_in, table_place};

use ode_table::Table;
use ode_value::List;
use ode_walk::reached;
use std::alloc::{AllocError, Global};

/// For each table and each of its states whether some word leads to it; and for each class the place of its first table.
#[derive(Drop)]
pub(crate) struct States {
    seen: List<List<bool>>,
    maps: List<u32>,
}

// For each state of each table whether some word leads to it.
fn reached_of(alloc: Global, tables: &[Table]) -> Result<List<List<bool>>, AllocError>
    ensures { IfOk result (λ seen. (at q : ℕ) → is_flagged seen at q ≡ option_map_or (λ t. is_reached t q) (slice_get tables.now at) false) }
{
    let mut seen = List::new(alloc);
    for table in tables {
        let flags = reached(alloc, table)?;
        seen.push(flags)?;
    }
    Ok(seen)
}

// The place of a trigger's table.
fn table_place(maps: &[u32], class: u32, place: u16) -> Option<usize>
    ensures { result ≡ table_place maps.now class place }
{
    if class == 0 {
        return None;
    }
    let first = *maps.get(class as usize - 1)?;
    Some(first as usize + usize::from(place))
}

// Whether a state of the table at a place is one of these.
fn is_flagged(seen: &List<List<bool>>, at: usize, state: u16) -> bool
    ensures { result ≡ is_flagged seen.now at state }
{
    match seen.as_slice().get(at) {
        Some(flags) => match flags.as_slice().get(usize::from(state)) {
            Some(flag) => *flag,
            None => false,
        },
        None => false,
    }
}

impl States {
    /// Those of the tables of all triggers.
    pub(crate) fn of(
        alloc: Global,
        tables: &List<Table>,
        maps: &List<u32>,
    ) -> Result<States, AllocError>
        ensures { IfOk result (λ states. (class place state : ℕ) → is_seen states class place state ≡ is_reached_in tables.now maps.now class place state) }
    {
        let seen = reached_of(alloc, tables.as_slice())?;
        let maps = List::from_slice(alloc, maps.as_slice())?;
        Ok(States { seen, maps })
    }

    /// Whether some word leads to a state of a trigger's table.
    pub(crate) fn is_seen(&self, class: u32, place: u16, state: u16) -> bool
        ensures { result ≡ is_seen self.now class place state }
    {
        match table_place(self.maps.as_slice(), class, place) {
            Some(at) => is_flagged(&self.seen, at, state),
            None => false,
        }
    }
}
