//! A compiled class is declared: it is taken in, or turned away where it is too heavy.
ghost use Rattle.std.specs.Prelude.{◌∷◌, [], ◌≡◌, ◌<◌, ◌≤◌, ◌+◌, ◌-◌, ◌^◌, ℕ, List as Items, IfOk, IsErrOf, IsTrue, OnOk, Some, length, map, min};
ghost use Rattle.ode_class_records.specs.ClassRows.{IsStoredBy, class_rows};
ghost use Rattle.ode_class_records.specs.Puts.{puts};
ghost use Rattle.ode_class_records.specs.Weighing.{spare_beside};
ghost use Rattle.ode_compile.specs.Compiling.{AreCompiled, size_of_table, tree_counts};
ghost use Rattle.ode_declare.specs.Declaring.{IsMade};
ghost use Rattle.ode_schema.specs.Parts.{AreAligned, AreFit};
ghost use Rattle.ode_good_laws.specs.Well.{IsWell};
ghost use Rattle.ode_host.specs.Host.{HostCalls, LeavesOnly, Printed};
ghost use Rattle.ode_keep.specs.Entries.{Entries};
ghost use Rattle.ode_keep.specs.Growth.{put_bytes};
ghost use Rattle.ode_keep.specs.ShortValues.{HasShortValues};
ghost use Rattle.ode_machine.specs.Moments.{LeavesSettling};
ghost use Rattle.ode_machine.specs.Works.{declares};
ghost use Rattle.ode_transact.specs.Errors.{OnDamaged};
ghost use Rattle.ode_transact.specs.Logging.{DiskHas, HasGrown, Logs};
ghost use Rattle.ode_transact.specs.Output.{counting, heard};
ghost use Rattle.ode_transact.specs.Resting.{HoldsBy, IsAtRest, resting_parts};
ghost use Rattle.ode_types.specs.Checked.{IsChecked};
ghost use Rattle.ode_value.specs.Language.{Language, ListWorld};
ghost use Rattle.ode_value.specs.Lengths.{class_records};
ghost use Rattle.ode_value.specs.Limits.{class_limit, transaction_limit};
ghost use Rattle.ode_value.specs.Pasts.{lists};
ghost use Rattle.ode_value.specs.Settling.{transaction};
ghost use Rattle.ode_value.specs.Tables.{Table};
ghost use Rattle.ode_value.specs.Transactions.{Script};
ghost use Rattle.ode_value.specs.Worlds.{Declared};

use crate::batches::bytes_put;
use crate::taking::take_in;
use crate::turning::turn_away;
use ode_class_records::{class_changes, spare};
use ode_compile::Compiled;
use ode_declared_laws::{classes_weigh_their_records, declarations_settle};
use ode_host::Host;
use ode_keep::{Batch, Roomy};
use ode_lines::class_line;
use ode_opened::Opened;
use ode_transact::{EngineError, Log, Output};
use ode_value::limits::WEIGHT_LIMIT;
use std::alloc::{AllocError, Global};

// The changes that put a class's records, and the bytes of a file of so many with it: with those that its tables count more.
fn weigh(alloc: Global, made: &Compiled, before: u64) -> Result<(Batch, u64), AllocError>
    requires few { class_records (length made.now.text) (map size_of_table made.now.tables) ≤ class_limit }
    requires level { length made.now.counts ≡ length made.now.tables }
    ensures rows { IfOk result (λ r. (by : ℕ → ℕ → Table) (c : Declared) → IsStoredBy by c made.now.class made.now.text made.now.tables → r.0 ≡ puts (class_rows by c)) }
    ensures bytes { IfOk result (λ r. r.1 ≡ min (before + min (put_bytes r.0 + spare_beside made.now.counts made.now.tables) (2 ^ 64 - 1)) (2 ^ 64 - 1)) }
    ensures short { IfOk result (λ r. HasShortValues r.0) }
    ensures few { IfOk result (λ r. length r.0 ≤ class_limit) }
{
    let changes = class_changes(
        alloc,
        &made.class,
        made.text.as_slice(),
        made.tables.as_slice(),
    )?;
    let more = spare(made.counts.as_slice(), made.tables.as_slice());
    let bytes = before.saturating_add(bytes_put(&changes).saturating_add(more));
    Ok((changes, bytes))
}

/// A compiled class is declared by a transaction of its own.
pub(crate) fn bring_in<H: Host, K: Roomy<H> + Drop>(
    alloc: Global,
    rest: Opened<K>,
    host: &mut H,
    output: &mut Output,
    log: &mut Log,
    made: Compiled,
) -> Result<Opened<K>, EngineError>
    requires live { IsTrue (K.live rest.keeper) }
    requires fit { AreFit (resting_parts rest) }
    requires aligned { AreAligned (resting_parts rest) }
    requires checked { IsChecked rest.classes made.class }
    requires compiled { AreCompiled made.class.triggers made.tables made.alphabets }
    requires trees { made.counts ≡ tree_counts made.class.triggers }
    requires few { class_records (length made.text) (map size_of_table made.tables) ≤ class_limit }
    // Where it is a declared class of the file's world, the file holds what the machine's transaction leaves.
    ensures done { (l : Language) (w : ListWorld) (c : Declared) → IsWell l w → IsAtRest H.view K.holds K.live l w rest host.old → IsMade l w c made
        → let s = transaction lists Script (declares c) w in
        IsWell l s.0 → IfOk result (λ after. IsAtRest H.view K.holds K.live l s.0 after host.new) × OnOk result (Printed (heard output.old.quiet s.1) (H.view host.old) (H.view host.new)) }
    ensures counts { (l : Language) (w : ListWorld) (c : Declared) → IsWell l w → IsAtRest H.view K.holds K.live l w rest host.old → IsMade l w c made
        → let s = transaction lists Script (declares c) w in
        IsWell l s.0 → OnOk result (output.new ≡ counting output.old s.1) }
    // What was settled is kept in the log, where there is one.
    ensures logs { (l : Language) (w : ListWorld) (c : Declared) (entries : Entries) → IsWell l w → IsAtRest H.view K.holds K.live l w rest host.old → IsMade l w c made → DiskHas K.means entries (H.view host.old)
        → let s = transaction lists Script (declares c) w in
        IsWell l s.0 → OnOk result (Logs K.means l w entries (s ∷ []) log.old log.new (H.view host.new)) }
    ensures grown { HasGrown log.old log.new }
    // A stop leaves the world before and none of the text, or the one behind and a front of what is printed of it.
    ensures any_moment { (l : Language) (w : ListWorld) (c : Declared) (said : Items ℕ) → IsWell l w → IsAtRest H.view K.holds K.live l w rest host.old → IsMade l w c made
        → let s = transaction lists Script (declares c) w in
        IsWell l s.0 → (H.view host.old).text ≡ Some said
        → LeavesOnly (H.view host.old) (H.view host.new) (LeavesSettling (HoldsBy l K.means) w s.0 said (heard output.old.quiet s.1)) }
    ensures fit { IfOk result (λ after. AreFit (resting_parts after)) }
    ensures aligned { IfOk result (λ after. AreAligned (resting_parts after)) }
    ensures usable { IfOk result (λ after. IsTrue (K.live after.keeper)) }
    ensures leaves { HostCalls (IsErrOf result EngineError.DiskFault) (IsErrOf result EngineError.WriteFault) (H.view host.old) (H.view host.new) }
    // Over a good world with a number left no record is damaged, where the world behind is good.
    ensures undamaged { OnDamaged result ((l : Language) (w : ListWorld) (c : Declared) → IsWell l w → IsAtRest H.view K.holds K.live l w rest host.old → IsMade l w c made → w.bones.transaction < transaction_limit
        → IsWell l (transaction lists Script (declares c) w).0 → ⊥) }
{
    classes_weigh_their_records();
    declarations_settle();
    // Read, so that its length is known.
    let _name = made.class.name.as_bytes();
    let weighed = weigh(alloc, &made, rest.bytes)?;
    let (changes, bytes) = weighed;
    if bytes > WEIGHT_LIMIT {
        let line = class_line(alloc, &made.class.name)?;
        turn_away(alloc, rest, host, output, log, line)
    } else {
        take_in(alloc, rest, host, output, log, made, changes, bytes)
    }
}
