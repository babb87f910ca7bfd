//! Why a file isn't migrated.
ghost use Rattle.std.specs.Prelude.{◌≡◌};

use ode_gate::GateError;
use ode_host::Failed;
use ode_keep::{KeepError, StartError};
use std::alloc::AllocError;

/// Why a file isn't migrated.
#[derive(Clone, Copy, Debug, PartialEq, Eq)]
pub enum MigrateError {
    /// There was no memory.
    Memory,
    /// The disk failed.
    DiskFault,
    /// What the file reads as at this place isn't what it was opened with.
    Changed { at: u64 },
}

impl From<AllocError> for MigrateError {
    ghost use Rattle.ode_migrate.specs.declared.error.MigrateError.TheVariants.{Memory};

    ghost from_gives = { λ _ e. e ≡ Memory };

    fn from(_: AllocError) -> Self {
        MigrateError::Memory
    }
}

impl From<Failed> for MigrateError {
    ghost use Rattle.ode_migrate.specs.declared.error.MigrateError.TheVariants.{DiskFault};

    ghost from_gives = { λ _ e. e ≡ DiskFault };

    fn from(_: Failed) -> Self {
        MigrateError::DiskFault
    }
}

impl From<GateError> for MigrateError {
    ghost use Rattle.ode_migrate.specs.Migrating.{gate_error};

    ghost from_gives = { λ e m. m ≡ gate_error e };

    fn from(e: GateError) -> Self {
        match e {
            GateError::DiskFault => MigrateError::DiskFault,
            GateError::BadHeader { at } => MigrateError::Changed { at },
            GateError::NoDatabase | GateError::NewerFormat { .. } => MigrateError::Changed {
                at: 0,
            },
        }
    }
}

impl From<StartError> for MigrateError {
    ghost use Rattle.ode_migrate.specs.Migrating.{start_error};

    ghost from_gives = { λ e m. m ≡ start_error e };

    fn from(e: StartError) -> Self {
        match e {
            StartError::Memory => MigrateError::Memory,
            StartError::DiskFault => MigrateError::DiskFault,
            StartError::BadJournal { at } => MigrateError::Changed { at },
            StartError::BadPage { .. } => MigrateError::Changed { at: 0 },
        }
    }
}

impl From<KeepError> for MigrateError {
    ghost use Rattle.ode_migrate.specs.Migrating.{keep_error};

    ghost from_gives = { λ e m. m ≡ keep_error e };

    fn from(e: KeepError) -> Self {
        match e {
            KeepError::Memory => MigrateError::Memory,
            KeepError::DiskFault => MigrateError::DiskFault,
            KeepError::TooLarge { .. } | KeepError::Damaged { .. } => MigrateError::Changed {
                at: 0,
            },
        }
    }
}
