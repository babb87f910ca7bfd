//! Why nothing is read.

use std::alloc::AllocError;

/// Why nothing is read.
#[derive(Clone, Copy, Debug, PartialEq, Eq)]
pub(crate) enum Unread {
    /// There was no memory.
    Memory,
    /// The bytes are outside the grammar.
    Outside,
}

/// The bytes are outside the grammar.
#[derive(Clone, Copy, Debug, PartialEq, Eq)]
pub(crate) struct OutsideGrammar;

impl From<OutsideGrammar> for Unread {
    ghost use Rattle.std.specs.Prelude.{◌≡◌};
    ghost use Rattle.ode_codec.specs.declared.outside.Unread.TheVariants.{Outside};

    ghost from_gives = { λ _ e. e ≡ Outside };

    fn from(_: OutsideGrammar) -> Self {
        Unread::Outside
    }
}

impl From<AllocError> for Unread {
    ghost use Rattle.std.specs.Prelude.{◌≡◌};
    ghost use Rattle.ode_codec.specs.declared.outside.Unread.TheVariants.{Memory};

    ghost from_gives = { λ _ e. e ≡ Memory };

    fn from(_: AllocError) -> Self {
        Unread::Memory
    }
}
