//! What is handed over for a class, and that it is.
ghost use Rattle.std.specs.Prelude.{◌≡◌, ◌≤◌, ◌+◌, ◌++◌, ◌∷◌, [], ℕ, List as Items, IfOk, IsErrOf, IsTrue, OnOk, Some, length, true};
ghost use Rattle.ode_declare.specs.Declaring.{IsJoined};
ghost use Rattle.ode_heap_laws.specs.Few.{HoldsCounted};
ghost use Rattle.ode_host.specs.Causes.{RoseIf};
ghost use Rattle.ode_host.specs.Host.{HostCalls, LeavesOnly, Looks, Printed};
ghost use Rattle.ode_keep.specs.Entries.{Entries, applied, record_bytes, value_under};
ghost use Rattle.ode_keep.specs.ShortValues.{HasShortValues};
ghost use Rattle.ode_laws.specs.Alike.{NumberWorld};
ghost use Rattle.ode_overlay.specs.declared.origin.Origin.TheVariants as from;
ghost use Rattle.ode_transact.specs.Errors.{OnDamaged};
ghost use Rattle.ode_transact.specs.Logging.{HasGrown, logged};
ghost use Rattle.ode_transact.specs.Output.{counting, heard};
ghost use Rattle.ode_transact.specs.Resting.{resting_parts};
ghost use Rattle.ode_transact.specs.Settling.{LeavesBatch};
ghost use Rattle.ode_value.specs.Language.{Language, ListWorld};
ghost use Rattle.ode_value.specs.Limits.{class_limit};
ghost use Rattle.ode_value.specs.Texts.{class_line, committed_line};
ghost use Rattle.ode_value.specs.declared.key.Key.{Key as Row};
ghost use Rattle.ode_view_laws.specs.Viewing.{began_over};

use crate::batches::put_all;
use ode_heap::Heap;
use ode_heap_laws::heaps_show_held_worlds;
use ode_host::Host;
use ode_keep::{Batch, Keep, MAX_CHANGES, MAX_PAGED_BYTES, Roomy};
use ode_lines::{class_line, committed_line};
use ode_opened::Opened;
use ode_overlay::Overlay;
use ode_transact::{EngineError, Log, Output, hand_over};
use ode_value::{Key, List, Name};
use std::alloc::{AllocError, Global};

// What is handed over: the transaction's number, the changes of the records, and the text.
#[derive(Drop)]
pub(crate) struct Gathered {
    pub number: u64,
    pub batch: Batch,
    pub text: List<u8>,
}

// The text of a class that is declared by the transaction of this number.
fn class_text(alloc: Global, name: &Name, number: u64) -> Result<List<u8>, AllocError>
    ensures { IfOk result (λ text. text ≡ class_line name.now ++ committed_line number) }
{
    let mut text = class_line(alloc, name)?.into_vec();
    text.extend_from_slice(committed_line(alloc, number)?.as_slice())?;
    Ok(List::from_vec(text))
}

// The changes of a class, and behind them those of its transaction. Too many are told at the counters, whose record each settling writes.
fn joined(alloc: Global, changes: Batch, more: &Batch) -> Result<Batch, EngineError>
    requires short { HasShortValues changes }
    requires short_more { HasShortValues more.now }
    ensures both { IfOk result (λ batch. (base : Entries) (q : Row) → value_under (applied batch base) q ≡ value_under (applied more.now (applied changes base)) q) }
    ensures few { IfOk result (λ batch. length batch ≤ MAX_CHANGES) }
    ensures short { IfOk result HasShortValues }
    ensures calm { IsErrOf result EngineError.DiskFault → ⊥ }
    ensures silent { IsErrOf result EngineError.WriteFault → ⊥ }
    // They aren't too many for a keeper, where both together aren't.
    ensures undamaged { OnDamaged result (length changes + length more.now ≤ MAX_CHANGES → ⊥) }
{
    let mut batch = changes;
    put_all(alloc, &mut batch, more)?;
    if batch.len() <= MAX_CHANGES {
        Ok(batch)
    } else {
        Err(EngineError::Damaged {
            key: Key {
                kind: Key::COUNTERS,
                a: 0,
                b: 0,
            },
        })
    }
}

// The number of the transaction that begins over these records.
pub(crate) fn transaction_number<H: Host, K: Keep<H>>(
    alloc: Global,
    heap: &mut Heap<K>,
    host: &mut H,
) -> Result<u64, EngineError>
    requires live { IsTrue (K.live heap.old) }
    ensures is { IfOk result (λ number. (l : Language) (entries : Entries) (w : ListWorld) → HoldsCounted l entries w → K.holds heap.old (H.view host.old) entries → number ≡ w.bones.transaction) }
    ensures holds { OnOk result ((entries : Entries) → K.holds heap.old (H.view host.old) entries → K.holds heap.new (H.view host.new) entries) }
    ensures usable { OnOk result (K.live heap.new ≡ true) }
    ensures looks { Looks (H.view host.old) (H.view host.new) }
    ensures cause { RoseIf (IsErrOf result EngineError.DiskFault) (H.view host.old).disk_faults (H.view host.new).disk_faults }
    ensures silent { IsErrOf result EngineError.WriteFault → ⊥ }
    ensures undamaged { OnDamaged result ((l : Language) (entries : Entries) (w : ListWorld) → HoldsCounted l entries w → K.holds heap.old (H.view host.old) entries → ⊥) }
{
    heaps_show_held_worlds();
    let counters = heap.counters(alloc, host)?;
    Ok(counters.next_transaction)
}

// What is handed over for a class: the changes of its records and of its transaction's, and its text.
pub(crate) fn gather(
    alloc: Global,
    overlay: &Overlay,
    name: &Name,
    number: u64,
    changes: Batch,
) -> Result<Gathered, EngineError>
    requires short { HasShortValues changes }
    ensures joined { IfOk result (λ r. IsJoined overlay.now changes r.batch) }
    ensures few { IfOk result (λ r. length r.batch ≤ MAX_CHANGES) }
    ensures short { IfOk result (λ r. HasShortValues r.batch) }
    ensures number { IfOk result (λ r. r.number ≡ number) }
    ensures text { IfOk result (λ r. r.text ≡ class_line name.now ++ committed_line number) }
    ensures calm { IsErrOf result EngineError.DiskFault → ⊥ }
    ensures silent { IsErrOf result EngineError.WriteFault → ⊥ }
    // A class within the limits and the counters aren't too many changes for a keeper.
    ensures undamaged { OnDamaged result ((first : NumberWorld) → overlay.now ≡ began_over from.Script first → length changes ≤ class_limit → ⊥) }
{
    let more = overlay.as_commit()?;
    let batch = joined(alloc, changes, &more)?;
    let text = class_text(alloc, name, number)?;
    Ok(Gathered {
        number,
        batch,
        text,
    })
}

/// What was prepared is handed over.
pub fn settle<H: Host, K: Roomy<H> + Drop>(
    rest: Opened<K>,
    host: &mut H,
    output: &mut Output,
    log: &mut Log,
    number: u64,
    batch: Batch,
    text: &[u8],
) -> Result<Opened<K>, EngineError>
    requires live { IsTrue (K.live rest.keeper) }
    requires few { length batch ≤ MAX_CHANGES }
    requires short { HasShortValues batch }
    ensures same { IfOk result (λ after. (resting_parts after ≡ resting_parts rest) × (after.bytes ≡ rest.bytes)) }
    ensures done { IfOk result (λ after. (entries : Entries) → K.holds rest.keeper (H.view host.old) entries → K.holds after.keeper (H.view host.new) (applied batch entries)) }
    ensures printed { OnOk result (Printed (heard output.old.quiet text.now) (H.view host.old) (H.view host.new)) }
    ensures counts { OnOk result (output.new ≡ counting output.old text.now) }
    ensures kept { OnOk result (log.new ≡ logged log.old ((number, batch) ∷ [])) }
    ensures grown { HasGrown log.old log.new }
    ensures any_moment { (entries : Entries) (said : Items ℕ) → K.holds rest.keeper (H.view host.old) entries → (H.view host.old).text ≡ Some said
        → LeavesOnly (H.view host.old) (H.view host.new) (LeavesBatch K.means entries batch said (heard output.old.quiet text.now)) }
    ensures usable { IfOk result (λ after. IsTrue (K.live after.keeper)) }
    ensures leaves { HostCalls (IsErrOf result EngineError.DiskFault) (IsErrOf result EngineError.WriteFault) (H.view host.old) (H.view host.new) }
    ensures undamaged { OnDamaged result ((entries : Entries) → K.holds rest.keeper (H.view host.old) entries → record_bytes (applied batch entries) ≤ MAX_PAGED_BYTES → ⊥) }
{
    let Opened {
        keeper,
        classes,
        tables,
        alphabets,
        maps,
        bytes,
        format,
    } = rest;
    let mut heap = Heap::new(keeper);
    hand_over(host, &mut heap, output, log, number, batch, text)?;
    Ok(Opened {
        keeper: heap.into_keeper(),
        classes,
        tables,
        alphabets,
        maps,
        bytes,
        format,
    })
}
