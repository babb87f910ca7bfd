//! Why two tables aren't related.
use ode_value::List;
use std::alloc::AllocError;

/// Why two tables aren't related.
#[derive(Debug, Drop)]
pub enum RelateError {
    Memory,
    /// This word tells them apart, and no shorter one that isn't empty does, nor a lower one of its length.
    Differs { word: List<u8> },
}

impl From<AllocError> for RelateError {
    ghost use Rattle.std.specs.Prelude.{◌≡◌};
    ghost use Rattle.ode_walk.specs.declared.error.RelateError.TheVariants.{Memory};

    ghost from_gives = { λ _ e. e ≡ Memory };

    fn from(_: AllocError) -> Self {
        RelateError::Memory
    }
}
