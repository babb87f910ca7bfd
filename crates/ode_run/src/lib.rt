//! What a transaction does: statements, calls, points, completion and settling, over a heap and an overlay.
#![tactic(auto)]

mod activating;
mod acts;
mod arising;
mod beginning;
mod calls;
mod changing;
mod collecting;
mod constraints;
mod context;
mod counting;
mod denoting;
mod looked;
mod looking;
mod making;
mod objects;
mod places;
mod printing;
mod reading;
mod removing;
mod running;
mod settling;
mod stopping;
mod telling;
mod wholes;
mod work;

pub use beginning::contexts_begin;
pub use calls::{call, complete, exec, fire_now, post, touch};
pub use context::Ctx;
pub use looked::contexts_look;
pub use ode_interpreter::Stop;
pub use ode_known_laws::views_read_known;
pub use ode_settled_laws::front_entries_run;
pub use ode_value::Reason;
pub use settling::settle;
pub use stopping::read;
