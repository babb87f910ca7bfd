//! What a keeper takes at most.

use crate::spelling::{COUNT_LEN, KEY_LEN, ROW_HEAD};
use ode_value::limits::{CHANGE_LIMIT, VALUE_LIMIT};

/// Changes in a batch.
pub const MAX_CHANGES: usize = CHANGE_LIMIT;

/// Bytes in the value of a record.
pub const MAX_VALUE: usize = VALUE_LIMIT;

/// Bytes in the keys and values of all records that a keeper of two areas takes.
pub const MAX_RECORD_BYTES: u64 = 16_777_216;

/// Bytes in the keys and values of all records that a keeper of pages takes.
pub const MAX_PAGED_BYTES: u64 = 276_824_064;

/// Bytes of a change: a byte, the key, the length of the value, and the value.
pub const MAX_CHANGE_LEN: usize = 1 + ROW_HEAD + MAX_VALUE;

/// Bytes of a batch's changes and their number.
pub const MAX_PAYLOAD_LEN: usize = COUNT_LEN + MAX_CHANGES * MAX_CHANGE_LEN;

/// Bytes by which a batch makes the keys and values of all records grow.
pub const MAX_GROWTH: usize = MAX_CHANGES * (KEY_LEN + MAX_VALUE);
