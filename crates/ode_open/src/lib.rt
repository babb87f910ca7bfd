//! A file is opened to what a run needs.
#![tactic(auto)]

mod error;
mod opening;

pub use error::OpenError;
pub use ode_opened::Opened;
pub use opening::open_base;
