//! A file of the first format becomes one of the last.
#![tactic(auto)]

mod error;
mod moving;
mod renewing;
mod to_last;

pub use error::MigrateError;
pub use to_last::migrate;
