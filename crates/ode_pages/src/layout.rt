//! How large pages are.

/// Bytes of a page, at least.
pub const MIN_SIZE: usize = 64;

/// Bytes of a page, at most.
pub const MAX_SIZE: usize = 4096;

/// The number of entries in front of them, in bytes.
pub const COUNT_LEN: usize = 2;
