//! A class is declared.
ghost use Rattle.std.specs.Prelude.{◌∷◌, [], ◌≡◌, ◌<◌, ℕ, List as Items, Err, IfOk, IsErrOf, IsTrue, Ok, Some};
ghost use Rattle.std.specs.List.{AllByRecursion};
ghost use Rattle.std.specs.Option.{IfSome};
ghost use Rattle.ode_compile.specs.Compiling.{HaveNumbers};
ghost use Rattle.ode_declare.specs.Declaring.{Declares};
ghost use Rattle.ode_language.specs.Texts.{HasText};
ghost use Rattle.ode_schema.specs.Parts.{AreAligned, AreFit};
ghost use Rattle.ode_good_laws.specs.Well.{IsWell};
ghost use Rattle.ode_heap_laws.specs.Few.{HasFewParams};
ghost use Rattle.ode_host.specs.Host.{HostCalls, LeavesOnly, Printed};
ghost use Rattle.ode_keep.specs.Entries.{Entries};
ghost use Rattle.ode_language.specs.Languages.{ode};
ghost use Rattle.ode_machine.specs.Moments.{LeavesSettling};
ghost use Rattle.ode_machine.specs.Refusals.{declared_in};
ghost use Rattle.ode_machine.specs.Works.{declares};
ghost use Rattle.ode_transact.specs.Errors.{OnDamaged};
ghost use Rattle.ode_transact.specs.Logging.{DiskHas, HasGrown, Logs};
ghost use Rattle.ode_transact.specs.Output.{counting, heard};
ghost use Rattle.ode_transact.specs.Resting.{HoldsBy, IsAtRest, resting_parts};
ghost use Rattle.ode_value.specs.Language.{ListWorld};
ghost use Rattle.ode_value.specs.Limits.{number_limit};
ghost use Rattle.ode_value.specs.Pasts.{lists};
ghost use Rattle.ode_value.specs.Settling.{transaction};
ghost use Rattle.ode_value.specs.Transactions.{Script};
ghost use Rattle.ode_value.specs.Worlds.{Declared};
ghost use Rattle.ode_value.specs.declared.statement.Statement.TheVariants as statement;

use crate::weighing::bring_in;
use ode_compile::{CompileStop, compile};
use ode_declared_laws::checked_classes_have_few_parts;
use ode_host::Host;
use ode_keep::Roomy;
use ode_language_laws::{language_has_sound_rules, language_reads_well};
use ode_opened::Opened;
use ode_transact::{EngineError, Log, Output};
use ode_value::{ClassDecl, Refusal};
use std::alloc::Global;

/// A class is declared by a transaction of its own, or refused.
pub fn declare<H: Host, K: Roomy<H> + Drop>(
    alloc: Global,
    rest: Opened<K>,
    host: &mut H,
    output: &mut Output,
    log: &mut Log,
    decl: &ClassDecl,
) -> Result<(Opened<K>, Option<Refusal>), EngineError>
    requires live { IsTrue (K.live rest.keeper) }
    requires fit { AreFit (resting_parts rest) }
    requires aligned { AreAligned (resting_parts rest) }
    requires numbers { HaveNumbers decl.now }
    // It is refused exactly where the machine refuses it; else the file holds what the machine's transaction leaves.
    ensures done { (w : ListWorld) → IsWell ode w → HasText ode (statement.Class decl.now) → IsAtRest H.view K.holds K.live ode w rest host.old
        → IfOk result (λ r. Declares (declared_in ode w.bones decl.now) r.1 (IsAtRest H.view K.holds K.live ode w r.0 host.new)
        (λ c. AllByRecursion HasFewParams c.class.triggers → let s = transaction lists Script (declares c) w in
        IsWell ode s.0 → IsAtRest H.view K.holds K.live ode s.0 r.0 host.new × Printed (heard output.old.quiet s.1) (H.view host.old) (H.view host.new))) }
    ensures counts { (w : ListWorld) → IsWell ode w → HasText ode (statement.Class decl.now) → IsAtRest H.view K.holds K.live ode w rest host.old
        → IfOk result (λ r. Declares (declared_in ode w.bones decl.now) r.1 (output.new ≡ output.old)
        (λ c. AllByRecursion HasFewParams c.class.triggers → let s = transaction lists Script (declares c) w in
        IsWell ode s.0 → output.new ≡ counting output.old s.1)) }
    // What was settled is kept in the log, where there is one.
    ensures logs { (w : ListWorld) (entries : Entries) → IsWell ode w → HasText ode (statement.Class decl.now) → IsAtRest H.view K.holds K.live ode w rest host.old → DiskHas K.means entries (H.view host.old)
        → IfOk result (λ r. Declares (declared_in ode w.bones decl.now) r.1 (log.new ≡ log.old)
        (λ c. AllByRecursion HasFewParams c.class.triggers → let s = transaction lists Script (declares c) w in
        IsWell ode s.0 → Logs K.means ode w entries (s ∷ []) log.old log.new (H.view host.new))) }
    ensures grown { HasGrown log.old log.new }
    // Where it is refused nothing was done.
    ensures refused { IfOk result (λ r. IfSome r.1 (λ why. (r.0 ≡ rest) × (host.new ≡ host.old))) }
    // Where the machine refuses it, it may still end by want of memory, before any call of the host.
    ensures declined { (w : ListWorld) (why : Refusal) → IsAtRest H.view K.holds K.live ode w rest host.old → declared_in ode w.bones decl.now ≡ Err why → host.new ≡ host.old }
    // A stop leaves the world before and none of the text, or the one behind and a front of what is printed of it.
    ensures any_moment { (w : ListWorld) (c : Declared) (said : Items ℕ) → IsWell ode w → HasText ode (statement.Class decl.now) → IsAtRest H.view K.holds K.live ode w rest host.old
        → declared_in ode w.bones decl.now ≡ Ok c → AllByRecursion HasFewParams c.class.triggers
        → let s = transaction lists Script (declares c) w in
        IsWell ode s.0 → (H.view host.old).text ≡ Some said
        → LeavesOnly (H.view host.old) (H.view host.new) (LeavesSettling (HoldsBy ode K.means) w s.0 said (heard output.old.quiet s.1)) }
    ensures fit { IfOk result (λ r. AreFit (resting_parts r.0)) }
    ensures aligned { IfOk result (λ r. AreAligned (resting_parts r.0)) }
    ensures usable { IfOk result (λ r. IsTrue (K.live r.0.keeper)) }
    // Over a good world with a number left no record is damaged, where the class is accepted and the world behind is good.
    ensures undamaged { OnDamaged result ((w : ListWorld) → IsWell ode w → HasText ode (statement.Class decl.now) → IsAtRest H.view K.holds K.live ode w rest host.old → w.bones.transaction < number_limit
        → ((c : Declared) → declared_in ode w.bones decl.now ≡ Ok c → AllByRecursion HasFewParams c.class.triggers × IsWell ode (transaction lists Script (declares c) w).0) → ⊥) }
    ensures leaves { HostCalls (IsErrOf result EngineError.DiskFault) (IsErrOf result EngineError.WriteFault) (H.view host.old) (H.view host.new) }
{
    checked_classes_have_few_parts();
    language_has_sound_rules();
    language_reads_well();
    // Read, so that they are known as checked.
    let _known = rest.classes.as_slice();
    match compile(alloc, &rest.classes, decl) {
        Ok(made) => {
            let after = bring_in(alloc, rest, host, output, log, made)?;
            Ok((after, None))
        }
        Err(CompileStop::Memory) => Err(EngineError::Memory),
        Err(CompileStop::Refused(why)) => Ok((rest, Some(why))),
    }
}
