//! State numbers go on by a point, and which activations fire there.
#![tactic(auto)]

mod advancing;
mod fired;
mod laws;
mod step;

pub use advancing::advance;
pub use fired::Fired;
pub use laws::{activations_answer_for_views, activations_are_the_machines};
