//! Why a file isn't opened.
ghost use Rattle.std.specs.Prelude.{◌≡◌};

use ode_gate::GateError;
use ode_host::Failed;
use ode_keep::StartError;
use ode_passes::Cause;
use std::alloc::AllocError;

/// Why a file isn't opened.
#[derive(Clone, Copy, Debug, PartialEq, Eq)]
pub enum OpenError {
    /// There was no memory.
    Memory,
    /// The disk failed.
    DiskFault,
    /// No header slot is open.
    NoDatabase,
    /// An open header slot has this format, which is above the known one.
    NewerFormat { found: u32 },
    /// A rule that the file breaks.
    BadFile(Cause),
}

impl From<AllocError> for OpenError {
    ghost use Rattle.ode_open.specs.declared.error.OpenError.TheVariants.{Memory};

    ghost from_gives = { λ _ e. e ≡ Memory };

    fn from(_: AllocError) -> Self {
        OpenError::Memory
    }
}

impl From<Failed> for OpenError {
    ghost use Rattle.ode_open.specs.declared.error.OpenError.TheVariants.{DiskFault};

    ghost from_gives = { λ _ e. e ≡ DiskFault };

    fn from(_: Failed) -> Self {
        OpenError::DiskFault
    }
}

impl From<GateError> for OpenError {
    ghost use Rattle.ode_open.specs.Opening.{gate_error};

    ghost from_gives = { λ e o. o ≡ gate_error e };

    fn from(e: GateError) -> Self {
        match e {
            GateError::DiskFault => OpenError::DiskFault,
            GateError::NoDatabase => OpenError::NoDatabase,
            GateError::BadHeader { at } => OpenError::BadFile(Cause::Header { at }),
            GateError::NewerFormat { found } => OpenError::NewerFormat { found },
        }
    }
}

impl From<StartError> for OpenError {
    ghost use Rattle.ode_open.specs.Opening.{start_error};

    ghost from_gives = { λ e o. o ≡ start_error e };

    fn from(e: StartError) -> Self {
        match e {
            StartError::Memory => OpenError::Memory,
            StartError::DiskFault => OpenError::DiskFault,
            StartError::BadJournal { at } => OpenError::BadFile(Cause::Journal { at }),
            StartError::BadPage { page } => OpenError::BadFile(Cause::Page { page }),
        }
    }
}

impl From<Cause> for OpenError {
    ghost use Rattle.ode_open.specs.declared.error.OpenError.TheVariants.{BadFile};

    ghost from_gives = { λ cause e. e ≡ BadFile cause };

    fn from(cause: Cause) -> Self {
        OpenError::BadFile(cause)
    }
}

impl From<ode_passes::OpenError> for OpenError {
    ghost use Rattle.ode_open.specs.Opening.{read_error};

    ghost from_gives = { λ e o. o ≡ read_error e };

    fn from(e: ode_passes::OpenError) -> Self {
        match e {
            ode_passes::OpenError::Memory => OpenError::Memory,
            ode_passes::OpenError::DiskFault => OpenError::DiskFault,
            ode_passes::OpenError::BadFile(cause) => OpenError::BadFile(cause),
        }
    }
}
