//! Why a piece has no answer.
ghost use Rattle.std.specs.Prelude.{◌≡◌};

use ode_heap::HeapError;
use ode_language::ReadStop;
use ode_types::CheckStop;
use ode_value::{Key, List, Refusal};
use std::alloc::AllocError;

/// Why a piece is refused.
#[derive(Drop)]
pub enum Why {
    /// The first refusal of its bytes, of its literals, of the static rules, or of the limits on symbols and states.
    Refusal(Refusal),
    /// A query has no rows, for this reason, in words.
    NoRows(List<u8>),
}

/// Why a piece has no answer.
#[derive(Drop)]
pub(crate) enum Turned {
    Refused(Why),
    Memory,
    /// The disk failed.
    DiskFault,
    /// What is kept under this key isn't what is to be there.
    Damaged { key: Key },
}

impl From<AllocError> for Turned {
    ghost use Rattle.ode_questions.specs.declared.turned.Turned.TheVariants.{Memory};

    ghost from_gives = { λ _ t. t ≡ Memory };

    fn from(_: AllocError) -> Self {
        Turned::Memory
    }
}

impl From<ReadStop> for Turned {
    ghost use Rattle.ode_questions.specs.Steps.{turned_by_reading};

    ghost from_gives = { λ stop t. t ≡ turned_by_reading stop };

    fn from(stop: ReadStop) -> Self {
        match stop {
            ReadStop::Memory => Turned::Memory,
            ReadStop::Refused(refusal) => Turned::Refused(Why::Refusal(refusal)),
        }
    }
}

impl From<CheckStop> for Turned {
    ghost use Rattle.ode_questions.specs.Steps.{turned_by_check};

    ghost from_gives = { λ stop t. t ≡ turned_by_check stop };

    fn from(stop: CheckStop) -> Self {
        match stop {
            CheckStop::Memory => Turned::Memory,
            CheckStop::Broken(broken) => Turned::Refused(Why::Refusal(Refusal::Check(broken))),
        }
    }
}

impl From<HeapError> for Turned {
    ghost use Rattle.ode_questions.specs.Steps.{turned_by_heap};

    ghost from_gives = { λ error t. t ≡ turned_by_heap error };

    fn from(error: HeapError) -> Self {
        match error {
            HeapError::Memory => Turned::Memory,
            HeapError::DiskFault => Turned::DiskFault,
            // No read is refused for its size.
            HeapError::TooLarge { .. } => Turned::Damaged {
                key: Key {
                    kind: Key::COUNTERS,
                    a: 0,
                    b: 0,
                },
            },
            HeapError::Damaged { key } => Turned::Damaged { key },
        }
    }
}
