//! Open sessions.
ghost use Rattle.std.specs.Prelude.{◌≡◌, OnOk, nat_lt};
ghost use Rattle.std.specs.List.{position, position_or_len};
ghost use Rattle.std.specs.Option.{option_map};
ghost use Rattle.ode_machine.specs.Interleaving.{others_of, session_of, with_open};
ghost use Rattle.ode_holders.specs.Opens.{is_of, open_as, opens_as};
ghost use Rattle.ode_holders.specs.Rising.{AreRising};
ghost use Rattle.ode_holders.specs.declared.opens.Open.{Open as Session};

use ode_value::{Boxed, List, Stmt};
use std::alloc::AllocError;

/// A statement that a session did: the objects that its literals refer to, and its tree as it was checked.
#[derive(Drop)]
pub struct Taken {
    pub literals: List<u64>,
    pub checked: Boxed<Stmt>,
}

/// An open session: its number; the statements that it did, in order; and what these looked at, and whether they drew a number and met
/// the queue.
#[derive(Drop)]
pub struct Open {
    pub session: u32,
    pub taken: List<Taken>,
    pub looked: List<u64>,
    pub drew: bool,
    pub met_queue: bool,
}

/// The place of the open session of a number.
pub fn place_of(sessions: &[Open], session: u32) -> Option<usize>
    ensures { result ≡ position (is_of session) sessions.now }
{
    sessions.iter().position(|o| o.session == session)
}

// The place of the first session of a greater number.
fn first_above(sessions: &[Open], session: u32) -> Option<usize>
    ensures { result ≡ position (λ (o : Session). nat_lt session o.session) sessions.now }
{
    sessions.iter().position(|o| session < o.session)
}

// That place, or the end.
fn place_above(sessions: &[Open], session: u32) -> usize
    ensures { result ≡ position_or_len (λ (o : Session). nat_lt session o.session) sessions.now }
{
    first_above(sessions, session).unwrap_or(sessions.len())
}

/// A session that wasn't open joins the others, at its place.
pub fn put(sessions: &mut List<Open>, one: Open) -> Result<(), AllocError>
    ensures { OnOk result (opens_as sessions.new ≡ with_open (open_as one) (opens_as sessions.old)) }
{
    let at = place_above(sessions.as_slice(), one.session);
    sessions.insert(at, one)
}

/// The open session of a number goes; what it was.
pub fn take(sessions: &mut List<Open>, session: u32) -> Option<Open>
    ensures rest { AreRising (opens_as sessions.old) → opens_as sessions.new ≡ others_of session (opens_as sessions.old) }
    ensures one { option_map open_as result ≡ session_of session (opens_as sessions.old) }
{
    match place_of(sessions.as_slice(), session) {
        Some(at) => Some(sessions.remove(at)),
        None => None,
    }
}
