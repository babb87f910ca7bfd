//! Disk and output as one object, so that a stop is one moment for both.
#![tactic(auto)]

mod call;
mod count;
mod faults;
mod file_host;
mod host;
mod image;
mod mem_host;
mod mem_source;
mod named_file;
mod numbering;
mod plan;
mod put;
mod retry;
mod source;
mod status;
mod std_source;
mod stop;
mod synced;
mod take;
mod tape;
mod whole;

pub use file_host::FileHost;
pub use host::{Failed, Host};
pub use mem_host::MemHost;
pub use mem_source::MemSource;
pub use plan::Plan;
pub use put::{put_i64, put_over, put_u8, put_u16, put_u32, put_u64};
pub use source::Source;
pub use status::Status;
pub use std_source::StdSource;
pub use stop::Torn;
pub use synced::write_synced;
pub use take::{take_i64, take_u8, take_u16, take_u32, take_u64};
pub use whole::{read_exact, read_whole};
