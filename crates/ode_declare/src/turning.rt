//! A class for which there is no room.
ghost use Rattle.std.specs.Prelude.{◌∷◌, [], ◌≡◌, ◌<◌, ℕ, List as Items, IfOk, IsErrOf, IsTrue, OnOk, Some, true};
ghost use Rattle.ode_good_laws.specs.Well.{IsWell};
ghost use Rattle.ode_host.specs.Host.{HostCalls, LeavesOnly, Printed};
ghost use Rattle.ode_keep.specs.Entries.{Entries};
ghost use Rattle.ode_machine.specs.Moments.{LeavesSettling};
ghost use Rattle.ode_schema.specs.Parts.{AreFit};
ghost use Rattle.ode_transact.specs.Errors.{OnDamaged};
ghost use Rattle.ode_transact.specs.Logging.{DiskHas, HasGrown, Logs};
ghost use Rattle.ode_transact.specs.Output.{counting, heard};
ghost use Rattle.ode_transact.specs.Resting.{HoldsBy, IsAtRest, resting_parts};
ghost use Rattle.ode_value.specs.Acts.{with_line};
ghost use Rattle.ode_value.specs.Language.{Language, ListWorld};
ghost use Rattle.ode_value.specs.Limits.{transaction_limit};
ghost use Rattle.ode_value.specs.Pasts.{lists};
ghost use Rattle.ode_value.specs.Settling.{abort};
ghost use Rattle.ode_value.specs.Transactions.{Script, begun};

use ode_host::Host;
use ode_keep::Roomy;
use ode_opened::Opened;
use ode_overlay::Origin;
use ode_transact::{EngineError, Log, Output, begin, end};
use ode_value::{List, Reason};
use std::alloc::Global;

/// There is no room for a class or for its new fields: the transaction aborts, behind its line.
pub fn turn_away<H: Host, K: Roomy<H> + Drop>(
    alloc: Global,
    rest: Opened<K>,
    host: &mut H,
    output: &mut Output,
    log: &mut Log,
    line: List<u8>,
) -> Result<Opened<K>, EngineError>
    requires live { IsTrue (K.live rest.keeper) }
    requires fit { AreFit (resting_parts rest) }
    ensures done { (l : Language) (w : ListWorld) → IsAtRest H.view K.holds K.live l w rest host.old
        → let s = abort lists Reason.Space (with_line line (begun Script w)) in
        IsWell l s.0 → IfOk result (λ after. IsAtRest H.view K.holds K.live l s.0 after host.new) × OnOk result (Printed (heard output.old.quiet s.1) (H.view host.old) (H.view host.new)) }
    ensures counts { (l : Language) (w : ListWorld) → IsAtRest H.view K.holds K.live l w rest host.old
        → let s = abort lists Reason.Space (with_line line (begun Script w)) in
        IsWell l s.0 → OnOk result (output.new ≡ counting output.old s.1) }
    // What was settled is kept in the log, where there is one.
    ensures logs { (l : Language) (w : ListWorld) (entries : Entries) → IsAtRest H.view K.holds K.live l w rest host.old → DiskHas K.means entries (H.view host.old)
        → let s = abort lists Reason.Space (with_line line (begun Script w)) in
        IsWell l s.0 → OnOk result (Logs K.means l w entries (s ∷ []) log.old log.new (H.view host.new)) }
    ensures grown { HasGrown log.old log.new }
    ensures any_moment { (l : Language) (w : ListWorld) (said : Items ℕ) → IsWell l w → IsAtRest H.view K.holds K.live l w rest host.old
        → let s = abort lists Reason.Space (with_line line (begun Script w)) in
        IsWell l s.0 → (H.view host.old).text ≡ Some said
        → LeavesOnly (H.view host.old) (H.view host.new) (LeavesSettling (HoldsBy l K.means) w s.0 said (heard output.old.quiet s.1)) }
    ensures parts { IfOk result (λ after. resting_parts after ≡ resting_parts rest) }
    ensures usable { IfOk result (λ after. K.live after.keeper ≡ true) }
    ensures leaves { HostCalls (IsErrOf result EngineError.DiskFault) (IsErrOf result EngineError.WriteFault) (H.view host.old) (H.view host.new) }
    ensures undamaged { OnDamaged result ((l : Language) (w : ListWorld) → IsAtRest H.view K.holds K.live l w rest host.old → w.bones.transaction < transaction_limit
        → IsWell l (abort lists Reason.Space (with_line line (begun Script w))).0 → ⊥) }
{
    let mut ctx = begin(alloc, rest, host, Origin::Script)?;
    ctx.text = line;
    end(alloc, ctx, host, output, log, Some(Reason::Space))
}
