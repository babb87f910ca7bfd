//! The versions of an object (Agrawal and Gehani, SIGMOD 1989).
#![tactic(auto)]

mod error;
mod list;

pub use error::VersionError;
pub use list::{Version, VersionList};
