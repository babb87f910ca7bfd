//! Why a text has no tree.

ghost use Rattle.std.specs.Prelude.{◌≡◌};

use std::alloc::AllocError;

/// Why a text has no tree. Places count bytes from 0.
#[derive(Clone, Copy, Debug, PartialEq, Eq)]
pub enum SyntaxError {
    /// There is no memory for the tree.
    Memory,
    /// The first byte that begins no token.
    NoToken { at: u32 },
    /// Where the first token begins with which no text goes on, or the length of a text that ends too early.
    At { at: u32 },
    /// Where the first token of a right text begins with which no text within the limit of heights goes on.
    TooDeep { at: u32 },
}

impl From<AllocError> for SyntaxError {
    ghost use Rattle.ode_eventsyn.specs.declared.error.SyntaxError.TheVariants.{Memory};

    ghost from_gives = { λ _ e. e ≡ Memory };

    fn from(_: AllocError) -> SyntaxError {
        SyntaxError::Memory
    }
}
