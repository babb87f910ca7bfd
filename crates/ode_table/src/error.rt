//! Why there is no table.
use std::alloc::AllocError;

/// Why an expression has no table.
#[derive(Clone, Copy, Debug, PartialEq, Eq)]
pub enum BuildError {
    Memory,
    /// There are more than 512 states.
    TooManyStates,
}

impl From<AllocError> for BuildError {
    ghost use Rattle.std.specs.Prelude.{◌≡◌};
    ghost use Rattle.ode_table.specs.declared.error.BuildError.TheVariants.{Memory};

    ghost from_gives = { λ _ e. e ≡ Memory };

    fn from(_: AllocError) -> Self {
        BuildError::Memory
    }
}
