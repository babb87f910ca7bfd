//! Which rule a file breaks.

use ode_value::Key;

/// What a file that is no database breaks, and where.
#[derive(Clone, Copy, Debug, PartialEq, Eq)]
pub enum Cause {
    /// The header slot at this place.
    Header { at: u64 },
    /// The snapshot's record or the journal's gate at this place.
    Journal { at: u64 },
    /// The page of this number.
    Page { page: u32 },
    /// The record under this key isn't what it is to be, or is one too many.
    Record(Key),
    /// There is no record under this key.
    Missing(Key),
    /// The class of this number isn't what its records say, or isn't accepted.
    Class(u32),
    /// The table of this class's trigger at this place.
    Table(u32, u16),
    /// The state of this object's activation of this number.
    State(u64, u64),
    /// So many record bytes are too many.
    Size(u64),
}
