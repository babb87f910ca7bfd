//! The fields of a change are taken in, or turned away where they are too heavy.
ghost use Rattle.std.specs.Prelude.{◌∷◌, [], ◌≡◌, ◌<◌, ◌≤◌, ◌+◌, ◌-◌, ◌^◌, ◌++◌, ℕ, List as Items, IfOk, IsErrOf, IsTrue, OnOk, Some, drop, length, map, min};
ghost use Rattle.std.specs.List.{AllByRecursion};
ghost use Rattle.ode_change.specs.Changing.{HasChange};
ghost use Rattle.ode_change_laws.specs.Behind.{IsBehind};
ghost use Rattle.ode_changed_laws.specs.Known.{IsKnown};
ghost use Rattle.ode_changed_laws.specs.Records.{count_more, fields_put, new_in};
ghost use Rattle.ode_schema.specs.Parts.{AreAligned, AreFit};
ghost use Rattle.ode_good_laws.specs.Well.{IsWell};
ghost use Rattle.ode_good_runs.specs.Reading.{IsReadValue};
ghost use Rattle.ode_heap.specs.Answering.{class_of};
ghost use Rattle.ode_host.specs.Host.{HostCalls, LeavesOnly, Printed};
ghost use Rattle.ode_keep.specs.Entries.{Entries};
ghost use Rattle.ode_keep.specs.Growth.{put_bytes};
ghost use Rattle.ode_keep.specs.ShortValues.{HasShortValues};
ghost use Rattle.ode_language.specs.Languages.{ode};
ghost use Rattle.ode_machine.specs.Moments.{LeavesSettling};
ghost use Rattle.ode_machine.specs.Works.{changes_class};
ghost use Rattle.ode_transact.specs.Errors.{OnDamaged};
ghost use Rattle.ode_transact.specs.Logging.{DiskHas, HasGrown, Logs};
ghost use Rattle.ode_transact.specs.Output.{counting, heard};
ghost use Rattle.ode_transact.specs.Resting.{HoldsBy, IsAtRest, resting_parts};
ghost use Rattle.ode_value.specs.Language.{ListWorld};
ghost use Rattle.ode_value.specs.Limits.{transaction_limit};
ghost use Rattle.ode_value.specs.Pasts.{lists};
ghost use Rattle.ode_value.specs.Settling.{transaction};
ghost use Rattle.ode_value.specs.Transactions.{Script};
ghost use Rattle.ode_value.specs.Worlds.{Declared};
ghost use Rattle.ode_value.specs.declared.change.Added.{Added as Field};

use crate::judging::Anew;
use crate::reading::Known;
use crate::records::added_changes;
use crate::taking::take_in;
use ode_changed_laws::{
    changed_classes_have_few_parts, changes_settle, changes_weigh_their_records,
};
use ode_declare::{bytes_put, turn_away};
use ode_host::Host;
use ode_keep::{Batch, Roomy};
use ode_language_laws::language_reads_well;
use ode_lines::changed_line;
use ode_opened::Opened;
use ode_transact::{EngineError, Log, Output};
use ode_value::Change;
use ode_value::limits::WEIGHT_LIMIT;
use std::alloc::{AllocError, Global};

// The bytes that the first added field brings to the counters.
const COUNT_LEN: u64 = 4;

// What the counters take more, where so many fields were added before and so many are new.
fn count_more(before: u32, new: usize) -> u64
    ensures { result ≡ count_more before new }
{
    if before == 0 && new != 0 {
        COUNT_LEN
    } else {
        0
    }
}

// The changes that put the new fields, and the bytes of a file of so many with them.
fn weigh(
    alloc: Global,
    known: &Known,
    behind: &Anew,
    before: u64,
) -> Result<(Batch, u64), AllocError>
    requires more { length known.now.added ≤ length behind.now.added }
    requires read { AllByRecursion (λ (a : Field). IsReadValue a.value) (drop (length known.now.added) behind.now.added) }
    ensures rows { IfOk result (λ r. r.0 ≡ fields_put behind.now.classes (drop (length known.now.added) behind.now.added)) }
    ensures bytes { IfOk result (λ r. r.1 ≡ min (min (before + min (put_bytes r.0) (2 ^ 64 - 1)) (2 ^ 64 - 1) + count_more known.now.counters.added (length (drop (length known.now.added) behind.now.added))) (2 ^ 64 - 1)) }
    ensures short { IfOk result (λ r. HasShortValues r.0) }
{
    let (_, new) = behind.added.as_slice().split_at(known.added.len());
    let batch = added_changes(alloc, &behind.classes, new)?;
    let counted = count_more(known.counters.added, new.len());
    let bytes = before
        .saturating_add(bytes_put(&batch))
        .saturating_add(counted);
    Ok((batch, bytes))
}

/// The fields of a change are brought by a transaction of its own.
pub(crate) fn bring_in<H: Host, K: Roomy<H> + Drop>(
    alloc: Global,
    rest: Opened<K>,
    host: &mut H,
    output: &mut Output,
    log: &mut Log,
    change: &Change,
    known: Known,
    behind: Anew,
) -> Result<Opened<K>, EngineError>
    requires live { IsTrue (K.live rest.keeper) }
    requires fit { AreFit (resting_parts rest) }
    requires aligned { AreAligned (resting_parts rest) }
    requires text { HasChange ode change.now }
    requires added { behind.added ≡ known.added ++ new_in behind.classes (length known.added) change.now }
    // Where these are the world's classes behind the change, the file holds what the machine's transaction leaves.
    ensures done { (w : ListWorld) (classes : Items Declared) → IsWell ode w → IsAtRest H.view K.holds K.live ode w rest host.old → IsKnown w.bones known.counters known.trees known.added
        → IsBehind ode w.bones change.now classes → behind.classes ≡ map class_of classes
        → let s = transaction lists Script (changes_class lists classes change.now) w in
        IsWell ode s.0 → IfOk result (λ after. IsAtRest H.view K.holds K.live ode s.0 after host.new) × OnOk result (Printed (heard output.old.quiet s.1) (H.view host.old) (H.view host.new)) }
    ensures counts { (w : ListWorld) (classes : Items Declared) → IsWell ode w → IsAtRest H.view K.holds K.live ode w rest host.old → IsKnown w.bones known.counters known.trees known.added
        → IsBehind ode w.bones change.now classes → behind.classes ≡ map class_of classes
        → let s = transaction lists Script (changes_class lists classes change.now) w in
        IsWell ode s.0 → OnOk result (output.new ≡ counting output.old s.1) }
    // What was settled is kept in the log, where there is one.
    ensures logs { (w : ListWorld) (classes : Items Declared) (entries : Entries) → IsWell ode w → IsAtRest H.view K.holds K.live ode w rest host.old → IsKnown w.bones known.counters known.trees known.added
        → IsBehind ode w.bones change.now classes → behind.classes ≡ map class_of classes → DiskHas K.means entries (H.view host.old)
        → let s = transaction lists Script (changes_class lists classes change.now) w in
        IsWell ode s.0 → OnOk result (Logs K.means ode w entries (s ∷ []) log.old log.new (H.view host.new)) }
    ensures grown { HasGrown log.old log.new }
    // A stop leaves the world before and none of the text, or the one behind and a front of what is printed of it.
    ensures any_moment { (w : ListWorld) (classes : Items Declared) (said : Items ℕ) → IsWell ode w → IsAtRest H.view K.holds K.live ode w rest host.old → IsKnown w.bones known.counters known.trees known.added
        → IsBehind ode w.bones change.now classes → behind.classes ≡ map class_of classes
        → let s = transaction lists Script (changes_class lists classes change.now) w in
        IsWell ode s.0 → (H.view host.old).text ≡ Some said
        → LeavesOnly (H.view host.old) (H.view host.new) (LeavesSettling (HoldsBy ode K.means) w s.0 said (heard output.old.quiet s.1)) }
    ensures fit { IfOk result (λ after. AreFit (resting_parts after)) }
    ensures aligned { IfOk result (λ after. AreAligned (resting_parts after)) }
    ensures usable { IfOk result (λ after. IsTrue (K.live after.keeper)) }
    ensures leaves { HostCalls (IsErrOf result EngineError.DiskFault) (IsErrOf result EngineError.WriteFault) (H.view host.old) (H.view host.new) }
    // Over a good world with a number left no record is damaged, where the world behind is good.
    ensures undamaged { OnDamaged result ((w : ListWorld) (classes : Items Declared) → IsWell ode w → IsAtRest H.view K.holds K.live ode w rest host.old → IsKnown w.bones known.counters known.trees known.added
        → IsBehind ode w.bones change.now classes → behind.classes ≡ map class_of classes → w.bones.transaction < transaction_limit
        → IsWell ode (transaction lists Script (changes_class lists classes change.now) w).0 → ⊥) }
{
    changed_classes_have_few_parts();
    changes_weigh_their_records();
    changes_settle();
    language_reads_well();
    // Read, so that the classes are known as checked, and the length of the name.
    let _before = rest.classes.as_slice();
    let _behind = behind.classes.as_slice();
    let _name = change.class.as_bytes();
    let weighed = weigh(alloc, &known, &behind, rest.bytes)?;
    let (batch, bytes) = weighed;
    if bytes > WEIGHT_LIMIT {
        let line = changed_line(alloc, &change.class)?;
        turn_away(alloc, rest, host, output, log, line)
    } else {
        take_in(
            alloc,
            rest,
            host,
            output,
            log,
            change,
            known.counters,
            behind,
            batch,
            bytes,
        )
    }
}
