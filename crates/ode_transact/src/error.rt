//! Why a call of the engine ends a run.
ghost use Rattle.std.specs.Prelude.{◌≡◌};

use ode_heap::HeapError;
use ode_host::Failed;
use ode_value::Key;
use std::alloc::AllocError;

/// Why a call of the engine ends a run.
#[derive(Clone, Copy, Debug, PartialEq, Eq)]
pub enum EngineError {
    /// There was no memory.
    Memory,
    /// The disk failed.
    DiskFault,
    /// A print failed.
    WriteFault,
    /// What is kept under this key isn't what is to be there.
    Damaged { key: Key },
}

impl From<AllocError> for EngineError {
    ghost use Rattle.ode_transact.specs.declared.error.EngineError.TheVariants.{Memory};

    ghost from_gives = { λ _ e. e ≡ Memory };

    fn from(_: AllocError) -> Self {
        EngineError::Memory
    }
}

impl From<Failed> for EngineError {
    ghost use Rattle.ode_transact.specs.declared.error.EngineError.TheVariants.{WriteFault};

    ghost from_gives = { λ _ e. e ≡ WriteFault };

    fn from(_: Failed) -> Self {
        EngineError::WriteFault
    }
}

impl From<HeapError> for EngineError {
    ghost use Rattle.ode_transact.specs.Errors.{error_of};

    ghost from_gives = { λ h e. e ≡ error_of h };

    fn from(error: HeapError) -> Self {
        match error {
            HeapError::Memory => EngineError::Memory,
            HeapError::DiskFault => EngineError::DiskFault,
            // The records of a good world are never too many for their keeper.
            HeapError::TooLarge { .. } => EngineError::Damaged {
                key: Key {
                    kind: Key::COUNTERS,
                    a: 0,
                    b: 0,
                },
            },
            HeapError::Damaged { key } => EngineError::Damaged { key },
        }
    }
}
