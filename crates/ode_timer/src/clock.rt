//! The clock's position, and the clock events that lie ahead of it.
ghost use Rattle.std.specs.Prelude.{◌≡◌};

use ode_value::{Kind, List};
use std::alloc::{AllocError, Global};
use std::marker::Model;

/// How far a clock has come: a Unix second, and within it an object and a place in its class's list of kinds.
#[derive(Clone, Copy)]
pub struct Clock {
    pub instant: i64,
    pub object: u64,
    pub place: u32,
}

impl Model for Clock {
    ghost use Rattle.ode_value.specs.Worlds.{Position};

    ghost Value = { Position };

    ghost view = { λ c. record { instant = c.instant; object = c.object; place = c.place } };

    ghost inverse = { λ p. record { instant = p.instant; object = p.object; place = p.place } };
}

/// An object with the kinds that its class lists.
#[derive(Drop)]
pub struct TimeRow {
    pub object: u64,
    pub kinds: List<Kind>,
}

/// Why there is no list of what is due.
#[derive(Clone, Copy, Debug, PartialEq, Eq)]
pub enum DueError {
    Memory,
    /// More than `ode_value::limits::DUE_LIMIT` events, and how many. A number beyond the type's is the type's last.
    TooManyDue { count: u128 },
}

impl From<AllocError> for DueError {
    ghost use Rattle.ode_timer.specs.declared.clock.DueError.TheVariants.{Memory};

    ghost from_gives = { λ _ e. e ≡ Memory };

    fn from(_: AllocError) -> DueError {
        DueError::Memory
    }
}
