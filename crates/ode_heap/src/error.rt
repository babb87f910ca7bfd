//! Why the heap doesn't answer.
ghost use Rattle.std.specs.Prelude.{◌≡◌};
ghost use Rattle.ode_heap.specs.Answers.{error_at};

use ode_keep::KeepError;
use ode_value::Key;
use std::alloc::AllocError;

/// Why the heap doesn't answer.
#[derive(Clone, Copy, Debug, PartialEq, Eq)]
pub enum HeapError {
    /// There was no memory.
    Memory,
    /// The disk failed. The keeper isn't used again.
    DiskFault,
    /// The record bytes after a batch, which are too many. Nothing changed.
    TooLarge { total: u64 },
    /// What is kept under this key isn't what is to be there.
    Damaged { key: Key },
}

impl From<AllocError> for HeapError {
    ghost use Rattle.std.specs.Prelude.{◌≡◌};
    ghost use Rattle.ode_heap.specs.declared.error.HeapError.TheVariants.{Memory};

    ghost from_gives = { λ _ e. e ≡ Memory };

    fn from(_: AllocError) -> Self {
        HeapError::Memory
    }
}

// What a keeper's error comes to at a key that was handed to it.
pub(crate) fn at_key(error: KeepError, key: Key) -> HeapError
    ensures { result ≡ error_at key error }
{
    match error {
        KeepError::Memory => HeapError::Memory,
        KeepError::DiskFault => HeapError::DiskFault,
        KeepError::TooLarge { total } => HeapError::TooLarge { total },
        KeepError::Damaged { .. } => HeapError::Damaged { key },
    }
}
