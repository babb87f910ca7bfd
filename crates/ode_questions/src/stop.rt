//! What ends a run before its script.
ghost use Rattle.std.specs.Prelude.{◌≡◌};

use ode_value::Key;
use std::alloc::AllocError;

/// What ends a run at a piece.
#[derive(Clone, Copy, Debug)]
pub(crate) enum Stop {
    Memory,
    /// The disk failed.
    DiskFault,
    /// The print failed.
    WriteFault,
    /// What is kept under this key isn't what is to be there.
    Damaged { key: Key },
}

impl From<AllocError> for Stop {
    ghost use Rattle.ode_questions.specs.declared.stop.Stop.TheVariants.{Memory};

    ghost from_gives = { λ _ stop. stop ≡ Memory };

    fn from(_: AllocError) -> Self {
        Stop::Memory
    }
}
