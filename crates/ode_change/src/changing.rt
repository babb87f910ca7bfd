//! A class gets fields.
ghost use Rattle.std.specs.Prelude.{◌∷◌, [], ◌≡◌, ◌<◌, ℕ, List as Items, Err, IfOk, IsErrOf, IsTrue, Ok, Some};
ghost use Rattle.ode_change.specs.Changing.{Changes, HasChange};
ghost use Rattle.ode_schema.specs.Parts.{AreAligned, AreFit};
ghost use Rattle.ode_good_laws.specs.Well.{IsWell};
ghost use Rattle.ode_host.specs.Host.{HostCalls, LeavesOnly, Looks, Printed};
ghost use Rattle.ode_keep.specs.Entries.{Entries};
ghost use Rattle.ode_language.specs.Languages.{ode};
ghost use Rattle.ode_machine.specs.Moments.{LeavesSettling};
ghost use Rattle.ode_machine.specs.Refusals.{changed_in};
ghost use Rattle.ode_machine.specs.Works.{changes_class};
ghost use Rattle.ode_transact.specs.Errors.{OnDamaged};
ghost use Rattle.ode_transact.specs.Logging.{DiskHas, HasGrown, Logs};
ghost use Rattle.ode_transact.specs.Output.{counting, heard};
ghost use Rattle.ode_transact.specs.Resting.{HoldsBy, IsAtRest, resting_parts};
ghost use Rattle.ode_value.specs.Language.{ListWorld};
ghost use Rattle.ode_value.specs.Limits.{number_limit};
ghost use Rattle.ode_value.specs.Pasts.{lists};
ghost use Rattle.ode_value.specs.Settling.{transaction};
ghost use Rattle.ode_value.specs.Transactions.{Script};
ghost use Rattle.ode_value.specs.Worlds.{Declared};

use crate::bringing::bring_in;
use crate::judging::changed;
use crate::reading::read_known;
use ode_changed_laws::changes_are_judged_class_by_class;
use ode_host::Host;
use ode_keep::Roomy;
use ode_language_laws::changes_are_behind;
use ode_opened::Opened;
use ode_transact::{EngineError, Log, Output};
use ode_value::{Change, Refusal};
use std::alloc::Global;

/// A class gets fields by a transaction of its own, or the change is refused.
pub fn change<H: Host, K: Roomy<H> + Drop>(
    alloc: Global,
    rest: Opened<K>,
    host: &mut H,
    output: &mut Output,
    log: &mut Log,
    change: &Change,
) -> Result<(Opened<K>, Option<Refusal>), EngineError>
    requires live { IsTrue (K.live rest.keeper) }
    requires fit { AreFit (resting_parts rest) }
    requires aligned { AreAligned (resting_parts rest) }
    requires text { HasChange ode change.now }
    // It is refused exactly where the machine refuses it; else the file holds what the machine's transaction leaves.
    ensures done { (w : ListWorld) → IsWell ode w → IsAtRest H.view K.holds K.live ode w rest host.old
        → IfOk result (λ r. Changes (changed_in ode w.bones change.now) r.1 (IsAtRest H.view K.holds K.live ode w r.0 host.new)
        (λ classes. let s = transaction lists Script (changes_class lists classes change.now) w in
        IsWell ode s.0 → IsAtRest H.view K.holds K.live ode s.0 r.0 host.new × Printed (heard output.old.quiet s.1) (H.view host.old) (H.view host.new))) }
    ensures counts { (w : ListWorld) → IsWell ode w → IsAtRest H.view K.holds K.live ode w rest host.old
        → IfOk result (λ r. Changes (changed_in ode w.bones change.now) r.1 (output.new ≡ output.old)
        (λ classes. let s = transaction lists Script (changes_class lists classes change.now) w in
        IsWell ode s.0 → output.new ≡ counting output.old s.1)) }
    // Where the machine refuses it nothing is written.
    ensures declined { (w : ListWorld) (why : Refusal) → IsAtRest H.view K.holds K.live ode w rest host.old
        → changed_in ode w.bones change.now ≡ Err why → Looks (H.view host.old) (H.view host.new) }
    // What was settled is kept in the log, where there is one.
    ensures logs { (w : ListWorld) (entries : Entries) → IsWell ode w → IsAtRest H.view K.holds K.live ode w rest host.old → DiskHas K.means entries (H.view host.old)
        → IfOk result (λ r. Changes (changed_in ode w.bones change.now) r.1 (log.new ≡ log.old)
        (λ classes. let s = transaction lists Script (changes_class lists classes change.now) w in
        IsWell ode s.0 → Logs K.means ode w entries (s ∷ []) log.old log.new (H.view host.new))) }
    ensures grown { HasGrown log.old log.new }
    // A stop leaves the world before and none of the text, or the one behind and a front of what is printed of it.
    ensures any_moment { (w : ListWorld) (classes : Items Declared) (said : Items ℕ) → IsWell ode w → IsAtRest H.view K.holds K.live ode w rest host.old
        → changed_in ode w.bones change.now ≡ Ok classes
        → let s = transaction lists Script (changes_class lists classes change.now) w in
        IsWell ode s.0 → (H.view host.old).text ≡ Some said
        → LeavesOnly (H.view host.old) (H.view host.new) (LeavesSettling (HoldsBy ode K.means) w s.0 said (heard output.old.quiet s.1)) }
    ensures fit { IfOk result (λ r. AreFit (resting_parts r.0)) }
    ensures aligned { IfOk result (λ r. AreAligned (resting_parts r.0)) }
    ensures usable { IfOk result (λ r. IsTrue (K.live r.0.keeper)) }
    // Over a good world with a number left no record is damaged, where the world behind is good.
    ensures undamaged { OnDamaged result ((w : ListWorld) → IsWell ode w → IsAtRest H.view K.holds K.live ode w rest host.old → w.bones.transaction < number_limit
        → ((classes : Items Declared) → changed_in ode w.bones change.now ≡ Ok classes → IsWell ode (transaction lists Script (changes_class lists classes change.now) w).0) → ⊥) }
    ensures leaves { HostCalls (IsErrOf result EngineError.DiskFault) (IsErrOf result EngineError.WriteFault) (H.view host.old) (H.view host.new) }
{
    changes_are_behind();
    changes_are_judged_class_by_class();
    let read = read_known(alloc, rest, host)?;
    let (rest, known) = read;
    match changed(alloc, &known, change)? {
        Ok(behind) => {
            let after = bring_in(alloc, rest, host, output, log, change, known, behind)?;
            Ok((after, None))
        }
        Err(why) => Ok((rest, Some(why))),
    }
}
