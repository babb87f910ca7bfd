//! Statements, calls, points, completion and the points of a settling, over what does the single acts of a transaction.
#![tactic(auto)]

mod acts;
mod beginnings;
mod completing;
mod creating;
mod ends;
mod expressions;
mod firing;
mod outermost;
mod scene;
mod schema;
mod settling;
mod statements;
mod stop;

pub use acts::Acts;
pub use completing::complete;
pub use firing::{Firing, Trigger};
pub use outermost::{call, execute, fire_now, post, touch};
pub use scene::Scene;
pub use schema::Schema;
pub use settling::{post_aborted, post_committed};
pub use stop::Stop;
