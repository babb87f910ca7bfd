//! Why the overlay doesn't answer.

use ode_objects::HeapError;
use ode_value::{Key, Ref};
use std::alloc::{AllocError, AllocFailed};

/// Why the overlay doesn't answer. Nothing changed, but for the mark that a number was asked for where none was left.
#[derive(Clone, Copy, Debug, PartialEq, Eq)]
pub enum OverlayError {
    /// There was no memory.
    Memory,
    /// The disk failed. The heap isn't used again.
    DiskFault,
    /// What is kept under this key isn't what is to be there.
    Damaged { key: Key },
    /// The object of this number isn't there. Null has number 0.
    NoObject(u64),
    /// The object is there, and this version of it isn't.
    NoVersion(Ref),
    /// The only version of this object.
    LastVersion(u64),
    /// Too many records are changed.
    TooManyChanges,
    /// The value of a record, or arguments, would be too long.
    TooLong,
    /// No number is left for an object or an activation, or for a version of the object.
    NoNumber,
}

impl From<AllocError> for OverlayError {
    ghost use Rattle.std.specs.Prelude.{◌≡◌};
    ghost use Rattle.ode_overlay.specs.declared.error.OverlayError.TheVariants.{Memory};

    ghost from_gives = { λ _ e. e ≡ Memory };

    fn from(_: AllocError) -> Self {
        OverlayError::Memory
    }
}

impl<T: Drop> From<AllocFailed<T>> for OverlayError {
    ghost use Rattle.std.specs.Prelude.{◌≡◌};
    ghost use Rattle.ode_overlay.specs.declared.error.OverlayError.TheVariants.{Memory};

    ghost from_gives = { λ _ e. e ≡ Memory };

    fn from(_: AllocFailed<T>) -> Self {
        OverlayError::Memory
    }
}

impl From<HeapError> for OverlayError {
    ghost use Rattle.std.specs.Prelude.{◌≡◌};
    ghost use Rattle.ode_overlay.specs.Answers.{from_heap};

    ghost from_gives = { λ error e. e ≡ from_heap error };

    fn from(error: HeapError) -> Self {
        match error {
            HeapError::Memory => OverlayError::Memory,
            HeapError::DiskFault => OverlayError::DiskFault,
            HeapError::Damaged { key } => OverlayError::Damaged { key },
            HeapError::TooLarge { .. } => OverlayError::Damaged {
                key: Key {
                    kind: Key::COUNTERS,
                    a: 0,
                    b: 0,
                },
            },
        }
    }
}
