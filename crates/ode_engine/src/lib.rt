//! Statements carried out on an opened file: sessions, transactions, and their settling.
#![tactic(auto)]

mod commanding;
mod engine;
mod refusing;

pub use engine::{Done, Engine};
pub use ode_opened::Opened;
pub use ode_transact::EngineError;
pub use refusing::{Turned, checked, place_of as stands_in_place};
