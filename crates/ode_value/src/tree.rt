//! Trees of states of event expressions.
use crate::boxed::Boxed;
use crate::list::List;

/// A tree of states, of the form that its event expression gives it.
#[derive(Drop)]
pub enum StateTree {
    /// Of a leaf and of `any`: whether it holds at the last point.
    Bit(bool),
    /// Of `first`: how many points there were, at most 2.
    Place(u8),
    /// Of `!E`: whether there was a point.
    Seen(bool, Boxed<StateTree>),
    /// Of `and` and `or`.
    Both(Boxed<StateTree>, Boxed<StateTree>),
    /// Of `prior` and `sequence`: whether a point before the last one, or the one before it, is in the first part. Of `pipe`: whether
    /// the last point is in both.
    Flag(Boxed<StateTree>, Boxed<StateTree>, bool),
    /// Of `choose` and `every`: how many points there were.
    Count(Boxed<StateTree>, u32),
    /// Of `relative`: a tree of the second part for each start, as a set.
    Started(Boxed<StateTree>, List<StateTree>),
    /// Of `fa`: trees of the second and the third part for each start, as a set.
    Pairs(Boxed<StateTree>, List<(StateTree, StateTree)>),
    /// Of `relplus`: a tree for each start, the first one among them, as a set.
    Chained(List<StateTree>),
    /// Of `faabs`: trees of the first and the third part, and one of the second part for each start, as a set.
    Waiting(Boxed<StateTree>, Boxed<StateTree>, List<StateTree>),
    /// Of a mask on a composite event: whether it holds at the last point.
    Masked(Boxed<StateTree>, bool),
}
