//! Why there is no alphabet.
use std::alloc::AllocError;

/// Why an expression has no alphabet.
#[derive(Clone, Copy, Debug, PartialEq, Eq)]
pub enum AlphabetError {
    Memory,
    /// There are more than 64 symbols: so many, or 65,536 if that is less.
    TooManySymbols { count: u32 },
}

impl From<AllocError> for AlphabetError {
    ghost use Rattle.std.specs.Prelude.{◌≡◌};
    ghost use Rattle.ode_symbols.specs.declared.error.AlphabetError.TheVariants.{Memory};

    ghost from_gives = { λ _ e. e ≡ Memory };

    fn from(_: AllocError) -> Self {
        AlphabetError::Memory
    }
}
