//! Why a list of versions doesn't change.

use std::alloc::AllocError;

/// Why a list of versions doesn't change.
#[derive(Clone, Copy, Debug, PartialEq, Eq)]
pub enum VersionError {
    /// There was no memory.
    Memory,
    /// The object has no version of this number.
    NoVersion,
    /// The version is the only one.
    LastVersion,
    /// The greatest number was given.
    NoNumber,
}

impl From<AllocError> for VersionError {
    ghost use Rattle.std.specs.Prelude.{◌≡◌};
    ghost use Rattle.ode_versions.specs.declared.error.VersionError.TheVariants.{Memory};

    ghost from_gives = { λ _ e. e ≡ Memory };

    fn from(_: AllocError) -> Self {
        VersionError::Memory
    }
}
