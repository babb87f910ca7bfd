//! Who holds what a step needs.
ghost use Rattle.std.specs.Prelude.{◌≡◌, ◌==◌, ◌&&◌, false, nat_eq, not};
ghost use Rattle.std.specs.List.{find, list_any};
ghost use Rattle.std.specs.Option.{option_map};
ghost use Rattle.ode_machine.specs.Interleaving.{first_with, holder as holder_in, holder_of, others_of};
ghost use Rattle.ode_machine.specs.Interleaving as machine;
ghost use Rattle.ode_holders.specs.Opens.{number_of, opens_as};
ghost use Rattle.ode_holders.specs.declared.opens.Open.{Open as Session};

use crate::opens::Open;
use ode_machine::Owned;
use ode_overlay::Overlay;

// Whether an object is among those that a session looked at.
fn holds_object(o: &Open, id: u64) -> bool
    ensures { result ≡ list_any (nat_eq id) o.now.looked }
{
    o.looked.as_slice().contains(&id)
}

// The first of the other sessions that drew a number.
fn who_drew(sessions: &[Open], session: u32) -> Option<u32>
    ensures { result ≡ option_map number_of (find (λ (o : Session). not (o.session == session) && o.drew) sessions.now) }
{
    match sessions.iter().find(|o| o.session != session && o.drew) {
        Some(o) => Some(o.session),
        None => None,
    }
}

// The first of the other sessions that met the queue.
fn who_queued(sessions: &[Open], session: u32) -> Option<u32>
    ensures { result ≡ option_map number_of (find (λ (o : Session). not (o.session == session) && o.met_queue) sessions.now) }
{
    match sessions
        .iter()
        .find(|o| o.session != session && o.met_queue)
    {
        Some(o) => Some(o.session),
        None => None,
    }
}

// The first of the other sessions that looked at an object.
fn who_looked(sessions: &[Open], session: u32, id: u64) -> Option<u32>
    ensures { result ≡ option_map number_of (find (λ (o : Session). not (o.session == session) && list_any (nat_eq id) o.looked) sessions.now) }
{
    match sessions
        .iter()
        .find(|o| o.session != session && holds_object(o, id))
    {
        Some(o) => Some(o.session),
        None => None,
    }
}

// The other session that drew a number, where one is drawn.
fn numbers_held(sessions: &[Open], session: u32, drew: bool) -> Option<(u32, Owned)>
    ensures { result ≡ first_with Owned.Numbers (λ (o : machine.Open). drew && o.held.drew) (others_of session (opens_as sessions.now)) }
{
    if drew {
        match who_drew(sessions, session) {
            Some(other) => Some((other, Owned::Numbers)),
            None => None,
        }
    } else {
        None
    }
}

// The other session that met the queue, where it is met.
fn queue_held(sessions: &[Open], session: u32, met_queue: bool) -> Option<(u32, Owned)>
    ensures { result ≡ first_with Owned.Queue (λ (o : machine.Open). met_queue && o.held.queued) (others_of session (opens_as sessions.now)) }
{
    if met_queue {
        match who_queued(sessions, session) {
            Some(other) => Some((other, Owned::Queue)),
            None => None,
        }
    } else {
        None
    }
}

// The least of these objects that another session holds, and that session.
fn object_held(sessions: &[Open], session: u32, ids: &[u64]) -> Option<(u32, Owned)>
    ensures { result ≡ holder_of ids.now (others_of session (opens_as sessions.now)) }
{
    for id in ids {
        if let Some(other) = who_looked(sessions, session, *id) {
            return Some((other, Owned::Object(*id)));
        }
    }
    None
}

// Who holds it of the sessions other than this one, by what the step looked at and drew, and whether it met the queue.
fn holder_by(
    sessions: &[Open],
    session: u32,
    looked: &[u64],
    drew: bool,
    met_queue: bool,
) -> Option<(u32, Owned)>
    ensures { result ≡ holder_in false (record { looked = looked.now; drew = drew; queued = met_queue }) (others_of session (opens_as sessions.now)) }
{
    match numbers_held(sessions, session, drew) {
        Some(held) => Some(held),
        None => match object_held(sessions, session, looked) {
            Some(held) => Some(held),
            None => queue_held(sessions, session, met_queue),
        },
    }
}

/// Of the sessions other than this one the one that holds what a step needs, and what it is: the numbers, where it drew one; the least of
/// the objects that it looked at; the queue, where a firing of it was collected or dropped.
pub fn holder(sessions: &[Open], session: u32, overlay: &Overlay) -> Option<(u32, Owned)>
    ensures { result ≡ holder_in false overlay.now.footprint (others_of session (opens_as sessions.now)) }
{
    holder_by(
        sessions,
        session,
        overlay.looked().as_slice(),
        overlay.drew(),
        overlay.met_queue(),
    )
}

/// The first of the other open sessions.
pub fn other(sessions: &[Open], session: u32) -> Option<u32>
    ensures { result ≡ option_map number_of (find (λ (o : Session). not (o.session == session)) sessions.now) }
{
    match sessions.iter().find(|o| o.session != session) {
        Some(o) => Some(o.session),
        None => None,
    }
}
