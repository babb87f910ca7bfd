//! A transaction is settled: its changes first, then its text.
ghost use Rattle.std.specs.Prelude.{◌≡◌, ◌≤◌, ◌∷◌, [], ℕ, List as Items, IsErrOf, IsTrue, OnOk, Some, length};
ghost use Rattle.ode_transact.specs.Errors.{OnDamaged};
ghost use Rattle.ode_transact.specs.Logging.{HasGrown, logged};
ghost use Rattle.ode_transact.specs.Output.{counting, heard};
ghost use Rattle.ode_transact.specs.Settling.{LeavesBatch};
ghost use Rattle.ode_host.specs.Host.{HostCalls, LeavesOnly, Printed};
ghost use Rattle.ode_keep.specs.Entries.{Entries, applied, record_bytes};
ghost use Rattle.ode_keep.specs.ShortValues.{HasShortValues};

use crate::error::EngineError;
use crate::logging::{Log, given_back, keep, make_room};
use crate::output::Output;
use ode_heap::Heap;
use ode_host::Host;
use ode_keep::{Batch, MAX_CHANGES, MAX_PAGED_BYTES, Roomy};

/// Settles a transaction by one commit, keeps it, where there is a log, and then prints its text, where the output isn't
/// quiet, and counts it. A stop on the way leaves the records before it and no text, or those after it and a front of
/// what is printed.
pub fn hand_over<H: Host, K: Roomy<H>>(
    host: &mut H,
    heap: &mut Heap<K>,
    output: &mut Output,
    log: &mut Log,
    number: u64,
    batch: Batch,
    text: &[u8],
) -> Result<(), EngineError>
    requires live { IsTrue (K.live heap.old) }
    requires few { length batch ≤ MAX_CHANGES }
    requires short { HasShortValues batch }
    ensures done { OnOk result ((entries : Entries) → K.holds heap.old (H.view host.old) entries
        → K.holds heap.new (H.view host.new) (applied batch entries)) }
    ensures printed { OnOk result (Printed (heard output.old.quiet text.now) (H.view host.old) (H.view host.new)) }
    ensures counts { OnOk result (output.new ≡ counting output.old text.now) }
    ensures kept { OnOk result (log.new ≡ logged log.old ((number, batch) ∷ [])) }
    ensures grown { HasGrown log.old log.new }
    ensures any_moment { (entries : Entries) (said : Items ℕ) → K.holds heap.old (H.view host.old) entries → (H.view host.old).text ≡ Some said
        → LeavesOnly (H.view host.old) (H.view host.new) (LeavesBatch K.means entries batch said (heard output.old.quiet text.now)) }
    ensures live { OnOk result (IsTrue (K.live heap.new)) }
    ensures undamaged { OnDamaged result ((entries : Entries) → K.holds heap.old (H.view host.old) entries
        → record_bytes (applied batch entries) ≤ MAX_PAGED_BYTES → ⊥) }
    ensures leaves { HostCalls (IsErrOf result EngineError.DiskFault) (IsErrOf result EngineError.WriteFault) (H.view host.old) (H.view host.new) }
{
    let ready = make_room(log)?;
    match heap.stage(host, &batch) {
        Ok(()) => *log = keep(ready, number, batch),
        Err(error) => {
            *log = given_back(ready);
            return Err(EngineError::from(error));
        }
    }
    output.say(host, text)?;
    output.count(text);
    Ok(())
}
