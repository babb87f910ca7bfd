//! A class for which there is room.
ghost use Rattle.std.specs.Prelude.{◌∷◌, [], ◌≡◌, ◌<◌, ◌≤◌, ◌++◌, ℕ, List as Items, IfOk, IsErrOf, IsTrue, OnOk, Some, length};
ghost use Rattle.ode_compile.specs.Compiling.{AreCompiled};
ghost use Rattle.ode_declare.specs.Declaring.{IsTaken};
ghost use Rattle.ode_declared_laws.specs.Adding.{parts_with};
ghost use Rattle.ode_schema.specs.Parts.{AreAligned, AreFit};
ghost use Rattle.ode_declared_laws.specs.Declared.{DeclaredOver};
ghost use Rattle.ode_good_laws.specs.Well.{IsWell};
ghost use Rattle.ode_host.specs.Causes.{RoseIf};
ghost use Rattle.ode_host.specs.Host.{HostCalls, LeavesOnly, Looks, Printed};
ghost use Rattle.ode_keep.specs.Entries.{Entries, applied};
ghost use Rattle.ode_keep.specs.ShortValues.{HasShortValues};
ghost use Rattle.ode_machine.specs.Moments.{LeavesSettling};
ghost use Rattle.ode_machine.specs.Works.{declares};
ghost use Rattle.ode_transact.specs.Errors.{OnDamaged};
ghost use Rattle.ode_transact.specs.Logging.{DiskHas, HasGrown, Logs};
ghost use Rattle.ode_transact.specs.Output.{counting, heard};
ghost use Rattle.ode_transact.specs.Resting.{HoldsBy, IsAtRest, resting_parts, resting_tables};
ghost use Rattle.ode_types.specs.Checked.{IsChecked};
ghost use Rattle.ode_value.specs.Language.{Language, ListWorld};
ghost use Rattle.ode_value.specs.Limits.{class_limit, transaction_limit};
ghost use Rattle.ode_value.specs.Pasts.{lists};
ghost use Rattle.ode_value.specs.Settling.{transaction};
ghost use Rattle.ode_value.specs.Texts.{class_line, committed_line};
ghost use Rattle.ode_value.specs.Transactions.{Script};
ghost use Rattle.ode_value.specs.Worlds.{Declared};

use crate::adding::with_class;
use crate::handing::{Gathered, gather, settle, transaction_number};
use ode_compile::Compiled;
use ode_declared_laws::{declared_classes_settle, programs_take_classes};
use ode_host::Host;
use ode_keep::{Batch, Keep, MAX_CHANGES, Roomy};
use ode_opened::Opened;
use ode_overlay::Origin;
use ode_transact::{EngineError, Log, Output, begin, put_back};
use std::alloc::Global;

// A class's transaction up to its settling.
fn prepare<H: Host, K: Keep<H> + Drop>(
    alloc: Global,
    rest: Opened<K>,
    host: &mut H,
    made: Compiled,
    changes: Batch,
    bytes: u64,
) -> Result<(Opened<K>, Gathered), EngineError>
    requires live { IsTrue (K.live rest.keeper) }
    requires fit { AreFit (resting_parts rest) }
    requires aligned { AreAligned (resting_parts rest) }
    requires checked { IsChecked rest.classes made.class }
    requires compiled { AreCompiled made.class.triggers made.tables made.alphabets }
    requires short { HasShortValues changes }
    ensures settles { IfOk result (λ r. (l : Language) (w : ListWorld) (c : Declared) (is : IsAtRest H.view K.holds K.live l w rest host.old) → IsTaken l w c made changes bytes
        → DeclaredOver l (resting_tables r.0) (applied r.1.batch is.entries) w c (transaction lists Script (declares c) w) × (r.1.number ≡ w.bones.transaction) × (r.1.text ≡ class_line c.class.name ++ committed_line w.bones.transaction)) }
    ensures holds { IfOk result (λ r. (l : Language) (w : ListWorld) (is : IsAtRest H.view K.holds K.live l w rest host.old) → K.holds r.0.keeper (H.view host.new) is.entries) }
    ensures parts { IfOk result (λ r. resting_parts r.0 ≡ parts_with made.class made.tables made.alphabets (resting_parts rest)) }
    ensures bytes { IfOk result (λ r. r.0.bytes ≡ bytes) }
    ensures fit { IfOk result (λ r. AreFit (resting_parts r.0) × AreAligned (resting_parts r.0)) }
    ensures usable { IfOk result (λ r. IsTrue (K.live r.0.keeper)) }
    ensures few { IfOk result (λ r. length r.1.batch ≤ MAX_CHANGES) }
    ensures short { IfOk result (λ r. HasShortValues r.1.batch) }
    ensures looks { Looks (H.view host.old) (H.view host.new) }
    ensures cause { RoseIf (IsErrOf result EngineError.DiskFault) (H.view host.old).disk_faults (H.view host.new).disk_faults }
    ensures silent { IsErrOf result EngineError.WriteFault → ⊥ }
    ensures undamaged { OnDamaged result ((l : Language) (w : ListWorld) → IsAtRest H.view K.holds K.live l w rest host.old → w.bones.transaction < transaction_limit → length changes ≤ class_limit → ⊥) }
{
    declared_classes_settle();
    programs_take_classes();
    // Read, so that the classes are known as checked, and the length of the name.
    let _known = rest.classes.as_slice();
    let _name = made.class.name.as_bytes();
    let mut ctx = begin(alloc, rest, host, Origin::Script)?;
    let number = transaction_number(alloc, &mut ctx.heap, host)?;
    let gathered = gather(alloc, &ctx.overlay, &made.class.name, number, changes)?;
    let after = with_class(put_back(ctx), made, bytes)?;
    Ok((after, gathered))
}

/// There is room for a class: its records are put, and its transaction commits.
pub(crate) fn take_in<H: Host, K: Roomy<H> + Drop>(
    alloc: Global,
    rest: Opened<K>,
    host: &mut H,
    output: &mut Output,
    log: &mut Log,
    made: Compiled,
    changes: Batch,
    bytes: u64,
) -> Result<Opened<K>, EngineError>
    requires live { IsTrue (K.live rest.keeper) }
    requires fit { AreFit (resting_parts rest) }
    requires aligned { AreAligned (resting_parts rest) }
    requires checked { IsChecked rest.classes made.class }
    requires compiled { AreCompiled made.class.triggers made.tables made.alphabets }
    requires short { HasShortValues changes }
    // Where the changes are those of a declared class for which there is room, the file holds what the machine's transaction leaves.
    ensures done { (l : Language) (w : ListWorld) (c : Declared) → IsAtRest H.view K.holds K.live l w rest host.old → IsTaken l w c made changes bytes
        → let s = transaction lists Script (declares c) w in
        IsWell l s.0 → IfOk result (λ after. IsAtRest H.view K.holds K.live l s.0 after host.new) × OnOk result (Printed (heard output.old.quiet s.1) (H.view host.old) (H.view host.new)) }
    ensures counts { (l : Language) (w : ListWorld) (c : Declared) → IsAtRest H.view K.holds K.live l w rest host.old → IsTaken l w c made changes bytes
        → let s = transaction lists Script (declares c) w in
        IsWell l s.0 → OnOk result (output.new ≡ counting output.old s.1) }
    // What was settled is kept in the log, where there is one.
    ensures logs { (l : Language) (w : ListWorld) (c : Declared) (entries : Entries) → IsAtRest H.view K.holds K.live l w rest host.old → IsTaken l w c made changes bytes → DiskHas K.means entries (H.view host.old)
        → let s = transaction lists Script (declares c) w in
        IsWell l s.0 → OnOk result (Logs K.means l w entries (s ∷ []) log.old log.new (H.view host.new)) }
    ensures grown { HasGrown log.old log.new }
    // A stop leaves the world before and none of the text, or the one behind and a front of what is printed of it.
    ensures any_moment { (l : Language) (w : ListWorld) (c : Declared) (said : Items ℕ) → IsWell l w → IsAtRest H.view K.holds K.live l w rest host.old → IsTaken l w c made changes bytes
        → let s = transaction lists Script (declares c) w in
        IsWell l s.0 → (H.view host.old).text ≡ Some said
        → LeavesOnly (H.view host.old) (H.view host.new) (LeavesSettling (HoldsBy l K.means) w s.0 said (heard output.old.quiet s.1)) }
    ensures fit { IfOk result (λ after. AreFit (resting_parts after)) }
    ensures aligned { IfOk result (λ after. AreAligned (resting_parts after)) }
    ensures usable { IfOk result (λ after. IsTrue (K.live after.keeper)) }
    ensures leaves { HostCalls (IsErrOf result EngineError.DiskFault) (IsErrOf result EngineError.WriteFault) (H.view host.old) (H.view host.new) }
    // Over a good world with a number left no record is damaged, where the world behind is good.
    ensures undamaged { OnDamaged result ((l : Language) (w : ListWorld) (c : Declared) → IsAtRest H.view K.holds K.live l w rest host.old → IsTaken l w c made changes bytes → w.bones.transaction < transaction_limit
        → length changes ≤ class_limit → IsWell l (transaction lists Script (declares c) w).0 → ⊥) }
{
    let prepared = prepare(alloc, rest, host, made, changes, bytes)?;
    let (after, gathered) = prepared;
    let Gathered {
        number,
        batch,
        text,
    } = gathered;
    settle(after, host, output, log, number, batch, text.as_slice())
}
