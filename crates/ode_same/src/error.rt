//! Why two event expressions aren't compared.
use std::alloc::AllocError;

/// Why two event expressions aren't compared.
#[derive(Clone, Copy, Debug, PartialEq, Eq)]
pub enum SameError {
    Memory,
    /// Both together have more symbols than `SYMBOL_LIMIT`: so many, or `COUNTED_SYMBOLS` if that is less.
    TooManySymbols { count: u32 },
    /// The first expression has more states over these symbols than `STATE_LIMIT`, or the second one alone.
    TooManyStates { second: bool },
}

impl From<AllocError> for SameError {
    ghost use Rattle.std.specs.Prelude.{◌≡◌};
    ghost use Rattle.ode_same.specs.declared.error.SameError.TheVariants.{Memory};

    ghost from_gives = { λ _ e. e ≡ Memory };

    fn from(_: AllocError) -> Self {
        SameError::Memory
    }
}
