//! What a transaction does.
use ode_codec::Entry;
use ode_timer::Clock;
use ode_value::Stmt;

/// What a transaction does: a statement of a script, an entry of the queue, or what happens at a position of the clock, or nothing,
/// where the clock only moves.
#[derive(Clone, Copy)]
pub enum Work<'a> {
    Statement(&'a Stmt),
    Entry(&'a Entry),
    Tick(&'a Clock),
    Move,
}
