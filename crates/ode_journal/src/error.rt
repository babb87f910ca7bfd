//! Why a journal can't be read or lengthened.
use ode_host::Failed;
use ode_keep::StartError;
use std::alloc::{AllocError, AllocFailed};
use thiserror::Error;

/// Why no frame was added.
#[derive(Clone, Copy, Debug, PartialEq, Eq, Error)]
pub enum AppendError {
    /// The disk failed.
    #[error("the disk failed")]
    DiskFault,
    /// The frame takes more bytes than there are from the last gate to the end.
    #[error("the frame takes {need} bytes, and there are {room}")]
    AreaFull { need: u64, room: u64 },
}

impl From<Failed> for AppendError {
    ghost use Rattle.std.specs.Prelude.{◌≡◌};
    ghost use Rattle.ode_journal.specs.declared.error.AppendError.TheVariants.{DiskFault};

    ghost from_gives = { λ _ e. e ≡ DiskFault };

    fn from(_: Failed) -> Self {
        AppendError::DiskFault
    }
}

/// Why a journal can't be read.
#[derive(Clone, Copy, Debug, PartialEq, Eq, Error)]
pub enum JournalError {
    /// There was no memory.
    #[error("there was no memory")]
    Memory,
    /// The disk failed.
    #[error("the disk failed")]
    DiskFault,
    /// The gate at this offset stands past the end, or is open before a frame that isn't whole.
    #[error("the journal is broken at {at}")]
    BadJournal { at: u64 },
}

impl From<Failed> for JournalError {
    ghost use Rattle.std.specs.Prelude.{◌≡◌};
    ghost use Rattle.ode_journal.specs.declared.error.JournalError.TheVariants.{DiskFault};

    ghost from_gives = { λ _ e. e ≡ DiskFault };

    fn from(_: Failed) -> Self {
        JournalError::DiskFault
    }
}

impl From<AllocError> for JournalError {
    ghost use Rattle.std.specs.Prelude.{◌≡◌};
    ghost use Rattle.ode_journal.specs.declared.error.JournalError.TheVariants.{Memory};

    ghost from_gives = { λ _ e. e ≡ Memory };

    fn from(_: AllocError) -> Self {
        JournalError::Memory
    }
}

impl<T: Drop> From<AllocFailed<T>> for JournalError {
    ghost use Rattle.std.specs.Prelude.{◌≡◌};
    ghost use Rattle.ode_journal.specs.declared.error.JournalError.TheVariants.{Memory};

    ghost from_gives = { λ _ e. e ≡ Memory };

    fn from(_: AllocFailed<T>) -> Self {
        JournalError::Memory
    }
}

impl From<JournalError> for StartError {
    ghost use Rattle.std.specs.Prelude.{◌≡◌};
    ghost use Rattle.ode_journal.specs.Starting.{journal_error};

    ghost from_gives = { λ e s. s ≡ journal_error e };

    fn from(e: JournalError) -> Self {
        match e {
            JournalError::Memory => StartError::Memory,
            JournalError::DiskFault => StartError::DiskFault,
            JournalError::BadJournal { at } => StartError::BadJournal { at },
        }
    }
}
