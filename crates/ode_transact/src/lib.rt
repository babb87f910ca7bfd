//! Whole transactions over an opened file: they begin, do their work, are completed and settle by one commit.
#![tactic(auto)]

mod beginning;
mod counting;
mod ending;
mod error;
mod logging;
mod looking;
mod output;
mod settling;
mod transacting;
mod work;
mod working;

pub use beginning::{begin, put_back};
pub use ending::{Prepared, conclude, end, fault_of, prepare};
pub use error::EngineError;
pub use logging::{Kept, Log};
pub use looking::head;
pub use ode_run::{Ctx, Stop, contexts_look, exec};
pub use output::Output;
pub use settling::hand_over;
pub use transacting::{drain, next_number, transact, transact_and_drain};
pub use work::Work;
pub use working::{run, run_completion};
