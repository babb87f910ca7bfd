//! Why a call ends without an answer.
use ode_value::{Key, Reason};
use std::alloc::AllocError;

/// Why a call ends without an answer.
#[derive(Drop)]
pub enum Stop {
    /// The transaction aborts.
    Abort(Reason),
    /// There was no memory.
    Memory,
    /// The disk failed.
    DiskFault,
    /// What is kept under this key isn't what is to be there.
    Damaged { key: Key },
}

impl From<Reason> for Stop {
    ghost use Rattle.std.specs.Prelude.{◌≡◌};
    ghost use Rattle.ode_interpreter.specs.declared.stop.Stop.TheVariants.{Abort};

    ghost from_gives = { λ why stop. stop ≡ Abort why };

    fn from(why: Reason) -> Stop {
        Stop::Abort(why)
    }
}

impl From<AllocError> for Stop {
    ghost use Rattle.std.specs.Prelude.{◌≡◌};
    ghost use Rattle.ode_interpreter.specs.declared.stop.Stop.TheVariants.{Memory};

    ghost from_gives = { λ _ stop. stop ≡ Memory };

    fn from(_: AllocError) -> Stop {
        Stop::Memory
    }
}
