//! The end of the input: the open sessions are aborted.
ghost use Rattle.std.specs.Prelude.{◌≡◌, ◌<◌, ◌+◌, IfOk, IfSome, IsErrOf, IsTrue, Some, false, length};
ghost use Rattle.std.specs.List.{find, slice_get};
ghost use Rattle.ode_schema.specs.Parts.{AreAligned, AreFit};
ghost use Rattle.ode_host.specs.Host.{HostCalls};
ghost use Rattle.ode_language.specs.Languages.{ode};
ghost use Rattle.ode_machine.specs.Interleaving.{Interleaved, finish, last_trial, may_end, replies_to};
ghost use Rattle.ode_machine.specs.Interleaving as machine;
ghost use Rattle.ode_steps.specs.Serving.{EndsOne, IsResting, Serves, Settles, StandsIn, UnlessSettled};
ghost use Rattle.ode_transact.specs.Resting.{resting_parts};

use crate::answer::Answer;
use crate::stepping::abort_step;
use ode_holders::Open;
use ode_host::Host;
use ode_interleaved_laws::endings_are_never_held_by_all;
use ode_keep::Roomy;
use ode_opened::Opened;
use ode_transact::EngineError;
use ode_value::{List, Reason};
use std::alloc::Global;

// The session at a place is aborted: it settles, or another session holds what it needs.
fn end_at<H: Host, K: Roomy<H> + Drop>(
    alloc: Global,
    rest: Opened<K>,
    host: &mut H,
    sessions: &mut List<Open>,
    at: usize,
) -> Result<(Opened<K>, Answer), EngineError>
    requires live { IsTrue (K.live rest.keeper) }
    requires fit { AreFit (resting_parts rest) }
    requires aligned { AreAligned (resting_parts rest) }
    requires within { at < length sessions.old }
    ensures serves { (m : Interleaved) → StandsIn H.view K.holds K.live ode m rest sessions.old host.old → (o : machine.Open) × (slice_get m.sessions at ≡ Some o)
        × Serves H.view K.holds K.live K.means ode m (replies_to m o.session false (last_trial m o)) result sessions.new host.old host.new }
    ensures same { IfOk result (λ r. UnlessSettled r.1 (sessions.new ≡ sessions.old)) }
    ensures usable { IfOk result (λ r. IsResting K.live r.0) }
    ensures leaves { HostCalls (IsErrOf result EngineError.DiskFault) (IsErrOf result EngineError.WriteFault) (H.view host.old) (H.view host.new) }
{
    let session = sessions.as_slice()[at].session;
    abort_step(alloc, rest, host, sessions, session, Reason::End)
}

// The least session whose abort no other one forbids is aborted. One is there, where any is open: an abort draws no number and looks at
// what its session holds, so only the queue may forbid it, and the session that holds the queue isn't forbidden. How many settled.
fn end_one<H: Host, K: Roomy<H> + Drop>(
    alloc: Global,
    rest: Opened<K>,
    host: &mut H,
    sessions: &mut List<Open>,
) -> Result<(Opened<K>, u32), EngineError>
    requires live { IsTrue (K.live rest.keeper) }
    requires fit { AreFit (resting_parts rest) }
    requires aligned { AreAligned (resting_parts rest) }
    // What the machine's end of the least session that may end settles; there is one, unless no session is open.
    ensures ends { (m : Interleaved) → StandsIn H.view K.holds K.live ode m rest sessions.old host.old
        → EndsOne H.view K.holds K.live K.means ode m (find (may_end m) m.sessions) result sessions.new host.old host.new }
    ensures usable { IfOk result (λ r. IsResting K.live r.0) }
    ensures leaves { HostCalls (IsErrOf result EngineError.DiskFault) (IsErrOf result EngineError.WriteFault) (H.view host.old) (H.view host.new) }
{
    endings_are_never_held_by_all();
    let mut rest = rest;
    'next: for at in 0..sessions.len() {
        let (after, answer) = end_at(alloc, rest, host, sessions, at)?;
        rest = after;
        if let Answer::Settled(count) = answer {
            return Ok((rest, count));
        }
    }
    Ok((rest, 0))
}

// A sum, where it has room.
fn sum_of(a: u32, b: u32) -> Option<u32>
    ensures { IfSome result (λ sum. sum ≡ a + b) }
{
    a.checked_add(b)
}

/// All open sessions are aborted, in the order in which they may be, and the drain follows behind the last one. How many transactions
/// settled.
pub(crate) fn finish_in<H: Host, K: Roomy<H> + Drop>(
    alloc: Global,
    rest: Opened<K>,
    host: &mut H,
    sessions: &mut List<Open>,
) -> Result<(Opened<K>, u32), EngineError>
    requires live { IsTrue (K.live rest.keeper) }
    requires fit { AreFit (resting_parts rest) }
    requires aligned { AreAligned (resting_parts rest) }
    ensures settles { (m : Interleaved) → StandsIn H.view K.holds K.live ode m rest sessions.old host.old
        → Settles H.view K.holds K.live K.means ode m (finish m) result sessions.new host.old host.new }
    ensures usable { IfOk result (λ r. IsResting K.live r.0) }
    ensures leaves { HostCalls (IsErrOf result EngineError.DiskFault) (IsErrOf result EngineError.WriteFault) (H.view host.old) (H.view host.new) }
{
    let mut rest = rest;
    let mut settled: u32 = 0;
    'ending: for _ended in 0..sessions.len() {
        let (after, count) = end_one(alloc, rest, host, sessions)?;
        rest = after;
        // There is room, unless some 2^32 sessions are open.
        let Some(sum) = sum_of(settled, count) else {
            return Err(EngineError::Memory);
        };
        settled = sum;
    }
    Ok((rest, settled))
}
