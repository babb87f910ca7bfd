//! What a step comes to.
use ode_machine::Owned;
use ode_value::Refusal;

/// What a step came to: nothing settled; so many transactions settled, those that the drain ran among them; its refusal; or the session
/// that holds what it needs.
#[derive(Drop)]
pub enum Answer {
    Accepted,
    Settled(u32),
    Refused(Refusal),
    Busy { session: u32, on: Owned },
}
