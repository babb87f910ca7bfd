//! What a session may hold.

/// What a session holds that another one's step needs: an object, the numbers of new objects and activations, the queue, or all.
#[derive(Clone, Copy, Debug, PartialEq, Eq)]
pub enum Owned {
    Object(u64),
    Numbers,
    Queue,
    All,
}
