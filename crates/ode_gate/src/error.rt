//! Why there is no header, or why one wasn't written.
ghost use Rattle.std.specs.Prelude.{◌≡◌};

use ode_host::Failed;
use thiserror::Error;

/// Why there is no header to read, or why one wasn't written.
#[derive(Clone, Copy, Debug, PartialEq, Eq, Error)]
pub enum GateError {
    /// The disk failed.
    #[error("the disk failed")]
    DiskFault,
    /// No header slot is open.
    #[error("no header slot is open")]
    NoDatabase,
    /// The open slot that stands at this place, in bytes, breaks a rule. At 0 also: both slots are open with one generation.
    #[error("the header at {at} is bad")]
    BadHeader { at: u64 },
    /// An open slot has this format, which is above the last known one.
    #[error("the file has the newer format {found}")]
    NewerFormat { found: u32 },
}

impl From<Failed> for GateError {
    ghost use Rattle.ode_gate.specs.declared.error.GateError.TheVariants.{DiskFault};

    ghost from_gives = { λ _ e. e ≡ DiskFault };

    fn from(_: Failed) -> Self {
        GateError::DiskFault
    }
}
