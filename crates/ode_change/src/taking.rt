//! The new fields of a class for which there is room.
ghost use Rattle.std.specs.Prelude.{◌∷◌, [], ◌≡◌, ◌<◌, ◌≤◌, ◌++◌, ℕ, List as Items, IfOk, IsErrOf, IsTrue, OnOk, Some, length};
ghost use Rattle.ode_change.specs.Changing.{IsTaken};
ghost use Rattle.ode_change.specs.Fitting.{AreOver};
ghost use Rattle.ode_changed_laws.specs.Records.{with_counters};
ghost use Rattle.ode_schema.specs.Parts.{AreAligned, AreFit, places_from};
ghost use Rattle.ode_good_laws.specs.Well.{IsWell};
ghost use Rattle.ode_host.specs.Host.{HostCalls, LeavesOnly, Printed};
ghost use Rattle.ode_keep.specs.Entries.{Entries};
ghost use Rattle.ode_keep.specs.ShortValues.{HasShortValues};
ghost use Rattle.ode_machine.specs.Moments.{LeavesSettling};
ghost use Rattle.ode_machine.specs.Works.{changes_class};
ghost use Rattle.ode_transact.specs.Errors.{OnDamaged};
ghost use Rattle.ode_transact.specs.Logging.{DiskHas, HasGrown, Logs};
ghost use Rattle.ode_transact.specs.Output.{counting, heard};
ghost use Rattle.ode_transact.specs.Resting.{HoldsBy, IsAtRest, resting_parts};
ghost use Rattle.ode_value.specs.Language.{Language, ListWorld};
ghost use Rattle.ode_value.specs.Limits.{transaction_limit};
ghost use Rattle.ode_value.specs.Pasts.{lists};
ghost use Rattle.ode_value.specs.Settling.{transaction};
ghost use Rattle.ode_value.specs.Texts.{changed_line, committed_line};
ghost use Rattle.ode_value.specs.Transactions.{Script};
ghost use Rattle.ode_value.specs.Worlds.{Declared};

use crate::anew::fitted;
use crate::judging::Anew;
use crate::reading::damaged;
use crate::records::put_counters;
use ode_changed_laws::known_changes_settle;
use ode_codec::Counters;
use ode_declare::settle;
use ode_host::Host;
use ode_keep::{Batch, MAX_CHANGES, Roomy};
use ode_lines::{changed_line, committed_line};
use ode_opened::Opened;
use ode_transact::{EngineError, Log, Output};
use ode_value::{Change, List};
use std::alloc::{AllocError, Global};

// What is handed over: the transaction's number, the changes of the records, and the text.
#[derive(Drop)]
struct Gathered {
    number: u64,
    batch: Batch,
    text: List<u8>,
}

// The text of a change by the transaction of this number.
fn change_text(alloc: Global, change: &Change, number: u64) -> Result<List<u8>, AllocError>
    ensures { IfOk result (λ text. text ≡ changed_line change.now.class ++ committed_line number) }
{
    let mut text = changed_line(alloc, &change.class)?.into_vec();
    text.extend_from_slice(committed_line(alloc, number)?.as_slice())?;
    Ok(List::from_vec(text))
}

// So many as four bytes. Lists that are longer don't fit in memory.
fn counted(count: usize) -> Result<u32, AllocError>
    ensures { IfOk result (λ number. number ≡ count) }
{
    u32::try_from(count).map_err(|_| AllocError)
}

// What is handed over for these fields, with the counters behind their transaction.
fn gather(
    alloc: Global,
    change: &Change,
    counters: Counters,
    added: usize,
    batch: Batch,
) -> Result<Gathered, EngineError>
    requires short { HasShortValues batch }
    ensures batch { IfOk result (λ r. r.batch ≡ with_counters counters added batch) }
    ensures number { IfOk result (λ r. r.number ≡ counters.next_transaction) }
    ensures text { IfOk result (λ r. r.text ≡ changed_line change.now.class ++ committed_line counters.next_transaction) }
    ensures few { IfOk result (λ r. length r.batch ≤ MAX_CHANGES) }
    ensures short { IfOk result (λ r. HasShortValues r.batch) }
    ensures calm { IsErrOf result EngineError.DiskFault → ⊥ }
    ensures silent { IsErrOf result EngineError.WriteFault → ⊥ }
    // With few fields and a number left no record is damaged.
    ensures undamaged { OnDamaged result (counters.next_transaction < transaction_limit → length batch < MAX_CHANGES → ⊥) }
{
    let mut batch = batch;
    let text = change_text(alloc, change, counters.next_transaction)?;
    let count = counted(added)?;
    put_counters(alloc, &mut batch, counters, count)?;
    if batch.len() <= MAX_CHANGES {
        Ok(Gathered {
            number: counters.next_transaction,
            batch,
            text,
        })
    } else {
        damaged()
    }
}

// The file with these classes and bytes, to its tables.
fn with_classes<K: Drop>(
    alloc: Global,
    rest: Opened<K>,
    behind: Anew,
    bytes: u64,
) -> Result<Opened<K>, EngineError>
    ensures keeper { IfOk result (λ o. o.keeper ≡ rest.keeper) }
    ensures classes { IfOk result (λ o. o.classes ≡ behind.classes) }
    ensures tables { IfOk result (λ o. o.tables ≡ rest.tables) }
    ensures maps { IfOk result (λ o. o.maps ≡ places_from 0 behind.classes) }
    ensures bytes { IfOk result (λ o. o.bytes ≡ bytes) }
    ensures fit { IfOk result (λ o. AreFit (resting_parts o)) }
    ensures aligned { IfOk result (λ o. AreAligned (resting_parts o)) }
    ensures calm { IsErrOf result EngineError.DiskFault → ⊥ }
    ensures silent { IsErrOf result EngineError.WriteFault → ⊥ }
    ensures undamaged { OnDamaged result (AreOver rest.tables behind.classes → ⊥) }
{
    let mut rest = rest;
    let parts = fitted(alloc, &rest.tables, &behind.classes)?;
    rest.classes = behind.classes;
    rest.alphabets = parts.alphabets;
    rest.maps = parts.maps;
    rest.bytes = bytes;
    Ok(rest)
}

/// There is room for the new fields: their records are put, and the transaction commits.
pub(crate) fn take_in<H: Host, K: Roomy<H> + Drop>(
    alloc: Global,
    rest: Opened<K>,
    host: &mut H,
    output: &mut Output,
    log: &mut Log,
    change: &Change,
    counters: Counters,
    behind: Anew,
    batch: Batch,
    bytes: u64,
) -> Result<Opened<K>, EngineError>
    requires live { IsTrue (K.live rest.keeper) }
    requires aligned { AreAligned (resting_parts rest) }
    requires short { HasShortValues batch }
    // Where the changes are those of a change's fields for which there is room, the file holds what the machine's transaction leaves.
    ensures done { (l : Language) (w : ListWorld) (classes : Items Declared) → IsAtRest H.view K.holds K.live l w rest host.old
        → IsTaken l w change.now classes counters behind.classes (length behind.added) batch bytes
        → let s = transaction lists Script (changes_class lists classes change.now) w in
        IsWell l s.0 → IfOk result (λ after. IsAtRest H.view K.holds K.live l s.0 after host.new) × OnOk result (Printed (heard output.old.quiet s.1) (H.view host.old) (H.view host.new)) }
    ensures counts { (l : Language) (w : ListWorld) (classes : Items Declared) → IsAtRest H.view K.holds K.live l w rest host.old
        → IsTaken l w change.now classes counters behind.classes (length behind.added) batch bytes
        → let s = transaction lists Script (changes_class lists classes change.now) w in
        IsWell l s.0 → OnOk result (output.new ≡ counting output.old s.1) }
    // What was settled is kept in the log, where there is one.
    ensures logs { (l : Language) (w : ListWorld) (classes : Items Declared) (entries : Entries) → IsAtRest H.view K.holds K.live l w rest host.old
        → IsTaken l w change.now classes counters behind.classes (length behind.added) batch bytes → DiskHas K.means entries (H.view host.old)
        → let s = transaction lists Script (changes_class lists classes change.now) w in
        IsWell l s.0 → OnOk result (Logs K.means l w entries (s ∷ []) log.old log.new (H.view host.new)) }
    ensures grown { HasGrown log.old log.new }
    // A stop leaves the world before and none of the text, or the one behind and a front of what is printed of it.
    ensures any_moment { (l : Language) (w : ListWorld) (classes : Items Declared) (said : Items ℕ) → IsWell l w → IsAtRest H.view K.holds K.live l w rest host.old
        → IsTaken l w change.now classes counters behind.classes (length behind.added) batch bytes
        → let s = transaction lists Script (changes_class lists classes change.now) w in
        IsWell l s.0 → (H.view host.old).text ≡ Some said
        → LeavesOnly (H.view host.old) (H.view host.new) (LeavesSettling (HoldsBy l K.means) w s.0 said (heard output.old.quiet s.1)) }
    ensures fit { IfOk result (λ after. AreFit (resting_parts after)) }
    ensures aligned { IfOk result (λ after. AreAligned (resting_parts after)) }
    ensures usable { IfOk result (λ after. IsTrue (K.live after.keeper)) }
    ensures leaves { HostCalls (IsErrOf result EngineError.DiskFault) (IsErrOf result EngineError.WriteFault) (H.view host.old) (H.view host.new) }
    // Over a good world with a number left no record is damaged, where the fields are few, the tables fit and the world behind is good.
    ensures undamaged { OnDamaged result ((l : Language) (w : ListWorld) (classes : Items Declared) → IsAtRest H.view K.holds K.live l w rest host.old
        → IsTaken l w change.now classes counters behind.classes (length behind.added) batch bytes → w.bones.transaction < transaction_limit
        → length batch < MAX_CHANGES → AreOver rest.tables behind.classes → IsWell l (transaction lists Script (changes_class lists classes change.now) w).0 → ⊥) }
{
    known_changes_settle();
    // Read, so that the length of the name is known.
    let _name = change.class.as_bytes();
    let gathered = gather(alloc, change, counters, behind.added.len(), batch)?;
    let after = with_classes(alloc, rest, behind, bytes)?;
    let Gathered {
        number,
        batch,
        text,
    } = gathered;
    settle(after, host, output, log, number, batch, text.as_slice())
}
