//! What a script asks.

/// What the pieces of a script are.
#[derive(Clone, Copy, Debug, PartialEq, Eq)]
pub enum Asked {
    /// Queries over the objects of classes.
    Queries,
    /// Comparisons of two event expressions.
    Comparisons,
}
