//! Why a frame reads nothing.
use ode_value::Key;

/// Why a frame reads nothing.
#[derive(Clone, Copy, Debug, PartialEq, Eq)]
pub enum Unread {
    /// The disk failed.
    DiskFault,
    /// What is kept under this key isn't what is to be there.
    Damaged { key: Key },
}
