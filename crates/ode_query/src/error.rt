//! Why a query isn't answered.
ghost use Rattle.std.specs.Prelude.{◌≡◌};

use ode_heap::HeapError;
use ode_value::{Fault, Key};
use std::alloc::AllocError;

/// Why a query isn't answered.
#[derive(Clone, Copy, Debug)]
pub enum QueryError {
    /// There was no memory.
    Memory,
    /// More combinations than are gone through, this many.
    TooManyRows { count: u128 },
    /// The first fault of what the rows are sorted by, or of what they show.
    Fault(Fault),
    /// The text of the rows would be too long.
    Output,
    /// The disk failed.
    DiskFault,
    /// What is kept under this key isn't what is to be there.
    Damaged { key: Key },
}

impl From<AllocError> for QueryError {
    ghost use Rattle.ode_query.specs.declared.error.QueryError.TheVariants.{Memory};

    ghost from_gives = { λ _ e. e ≡ Memory };

    fn from(_: AllocError) -> Self {
        QueryError::Memory
    }
}

impl From<HeapError> for QueryError {
    ghost use Rattle.ode_query.specs.Errors.{error_of};

    ghost from_gives = { λ h e. e ≡ error_of h };

    fn from(error: HeapError) -> Self {
        match error {
            HeapError::Memory => QueryError::Memory,
            HeapError::DiskFault => QueryError::DiskFault,
            // No read is refused for its size.
            HeapError::TooLarge { .. } => QueryError::Damaged {
                key: Key {
                    kind: Key::COUNTERS,
                    a: 0,
                    b: 0,
                },
            },
            HeapError::Damaged { key } => QueryError::Damaged { key },
        }
    }
}
