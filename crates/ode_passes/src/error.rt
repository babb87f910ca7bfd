//! Why a database isn't opened.
ghost use Rattle.std.specs.Prelude.{◌≡◌};
ghost use Rattle.ode_passes.specs.Answers.{keep_error};

use crate::cause::Cause;
use ode_keep::KeepError;
use std::alloc::AllocError;

/// Why a database isn't opened.
#[derive(Clone, Copy, Debug, PartialEq, Eq)]
pub enum OpenError {
    /// There was no memory.
    Memory,
    /// The disk failed. The keeper isn't used again.
    DiskFault,
    /// The first rule that the file breaks.
    BadFile(Cause),
}

impl From<AllocError> for OpenError {
    ghost use Rattle.std.specs.Prelude.{◌≡◌};
    ghost use Rattle.ode_passes.specs.declared.error.OpenError.TheVariants.{Memory};

    ghost from_gives = { λ _ e. e ≡ Memory };

    fn from(_: AllocError) -> Self {
        OpenError::Memory
    }
}

impl From<Cause> for OpenError {
    ghost use Rattle.std.specs.Prelude.{◌≡◌};
    ghost use Rattle.ode_passes.specs.declared.error.OpenError.TheVariants.{BadFile};

    ghost from_gives = { λ cause e. e ≡ BadFile cause };

    fn from(cause: Cause) -> Self {
        OpenError::BadFile(cause)
    }
}

impl From<KeepError> for OpenError {
    ghost use Rattle.std.specs.Prelude.{◌≡◌};
    ghost use Rattle.ode_passes.specs.Answers.{keep_error};

    ghost from_gives = { λ e o. o ≡ keep_error e };

    fn from(error: KeepError) -> Self {
        match error {
            KeepError::Memory => OpenError::Memory,
            KeepError::DiskFault => OpenError::DiskFault,
            KeepError::TooLarge { total } => OpenError::BadFile(Cause::Size(total)),
            KeepError::Damaged { page } => OpenError::BadFile(Cause::Page { page }),
        }
    }
}
