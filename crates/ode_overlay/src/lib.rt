//! What a transaction has changed, over the records that the heap reads.
#![tactic(auto)]

mod changing;
mod error;
mod looking;
mod origin;
mod overlay;
mod reading;
mod records;
mod rewinding;
mod running;
mod settling;

pub use error::OverlayError;
pub use origin::Origin;
pub use overlay::Overlay;
