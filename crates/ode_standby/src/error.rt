//! Why a standby doesn't take a stream.

use ode_heap::HeapError;
use ode_value::Key;
use std::alloc::AllocError;

/// Why a standby doesn't take a stream. The frames before are applied.
#[derive(Clone, Copy, Debug, PartialEq, Eq)]
pub enum ShipError {
    /// There was no memory.
    Memory,
    /// At this place of the stream a frame is to begin, and its length or its payload is outside the form.
    BadFrame { at: u64 },
    /// The number of a frame is above that of the file's next transaction.
    Gap { found: u64, next: u64 },
    /// The record bytes after a frame, which are too many.
    TooLarge { total: u64 },
    /// The disk failed. The file is opened anew.
    DiskFault,
    /// What is kept under this key isn't what is to be there.
    Damaged { key: Key },
}

impl From<AllocError> for ShipError {
    ghost use Rattle.std.specs.Prelude.{◌≡◌};
    ghost use Rattle.ode_standby.specs.declared.error.ShipError.TheVariants.{Memory};

    ghost from_gives = { λ _ e. e ≡ Memory };

    fn from(_: AllocError) -> Self {
        ShipError::Memory
    }
}

impl From<HeapError> for ShipError {
    ghost use Rattle.std.specs.Prelude.{◌≡◌};
    ghost use Rattle.ode_standby.specs.Failing.{error_of};

    ghost from_gives = { λ error e. e ≡ error_of error };

    fn from(error: HeapError) -> Self {
        match error {
            HeapError::Memory => ShipError::Memory,
            HeapError::DiskFault => ShipError::DiskFault,
            HeapError::TooLarge { total } => ShipError::TooLarge { total },
            HeapError::Damaged { key } => ShipError::Damaged { key },
        }
    }
}
