//! Why a keeper doesn't answer, and why it can't be started.

use ode_host::Failed;
use std::alloc::{AllocError, AllocFailed};

/// Why a keeper doesn't answer.
#[derive(Clone, Copy, Debug, PartialEq, Eq)]
pub enum KeepError {
    /// There was no memory, and nothing changed.
    Memory,
    /// The disk failed. The keeper isn't used again: the file is opened anew.
    DiskFault,
    /// The record bytes after the batch, which are too many. Nothing changed.
    TooLarge { total: u64 },
    /// What the file has at this page is none of what was written.
    Damaged { page: u32 },
}

impl From<AllocError> for KeepError {
    ghost use Rattle.std.specs.Prelude.{◌≡◌};
    ghost use Rattle.ode_keep.specs.declared.error.KeepError.TheVariants.{Memory};

    ghost from_gives = { λ _ e. e ≡ Memory };

    fn from(_: AllocError) -> Self {
        KeepError::Memory
    }
}

impl From<Failed> for KeepError {
    ghost use Rattle.std.specs.Prelude.{◌≡◌};
    ghost use Rattle.ode_keep.specs.declared.error.KeepError.TheVariants.{DiskFault};

    ghost from_gives = { λ _ e. e ≡ DiskFault };

    fn from(_: Failed) -> Self {
        KeepError::DiskFault
    }
}

/// Why a keeper can't be started.
#[derive(Clone, Copy, Debug, PartialEq, Eq)]
pub enum StartError {
    /// There was no memory.
    Memory,
    /// The disk failed.
    DiskFault,
    /// At this offset the file has no record of its snapshot, or no gate of its journal with what belongs behind it.
    BadJournal { at: u64 },
    /// This page isn't there, or isn't in its form, or has a key of a page before it.
    BadPage { page: u32 },
}

impl From<AllocError> for StartError {
    ghost use Rattle.std.specs.Prelude.{◌≡◌};
    ghost use Rattle.ode_keep.specs.declared.error.StartError.TheVariants.{Memory};

    ghost from_gives = { λ _ e. e ≡ Memory };

    fn from(_: AllocError) -> Self {
        StartError::Memory
    }
}

impl<T: Drop> From<AllocFailed<T>> for StartError {
    ghost use Rattle.std.specs.Prelude.{◌≡◌};
    ghost use Rattle.ode_keep.specs.declared.error.StartError.TheVariants.{Memory};

    ghost from_gives = { λ _ e. e ≡ Memory };

    fn from(_: AllocFailed<T>) -> Self {
        StartError::Memory
    }
}

impl From<Failed> for StartError {
    ghost use Rattle.std.specs.Prelude.{◌≡◌};
    ghost use Rattle.ode_keep.specs.declared.error.StartError.TheVariants.{DiskFault};

    ghost from_gives = { λ _ e. e ≡ DiskFault };

    fn from(_: Failed) -> Self {
        StartError::DiskFault
    }
}
