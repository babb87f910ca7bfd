//! A class is declared over an opened file.
#![tactic(auto)]

mod adding;
mod batches;
mod declaring;
mod handing;
mod taking;
mod turning;
mod weighing;

pub use batches::bytes_put;
pub use declaring::declare;
pub use handing::settle;
pub use turning::turn_away;
