//! What a keeper of records is: values under keys that outlive a stop, changed one batch at a time.
#![tactic(auto)]

mod batch;
mod error;
mod keep;
mod limits;
mod roomy;
mod rows;
mod spelling;

pub use batch::{Batch, Change};
pub use error::{KeepError, StartError};
pub use keep::Keep;
pub use limits::{
    MAX_CHANGE_LEN, MAX_CHANGES, MAX_GROWTH, MAX_PAGED_BYTES, MAX_PAYLOAD_LEN, MAX_RECORD_BYTES,
    MAX_VALUE,
};
pub use roomy::Roomy;
pub use rows::{Reader, Rows};
pub use spelling::{
    COUNT_LEN, FirstChange, FirstRow, KEY_LEN, PUT, REMOVAL, ROW_HEAD, first_row, key_bytes,
    next_change, next_row, payload_length, put_row, row_head,
};
