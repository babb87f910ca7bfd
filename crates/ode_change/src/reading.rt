//! What a change has to know of a file: its counters, its classes as they were declared, and the fields that were added to them.
ghost use Rattle.std.specs.Prelude.{◌≡◌, Err, IfOk, IsErrOf, IsTrue, List as Items, Ok, OnOk, true};
ghost use Rattle.ode_change.specs.Errors.{pass_error, place_of};
ghost use Rattle.ode_changed_laws.specs.Known.{IsKnown};
ghost use Rattle.ode_heap.specs.Answering.{counters_of};
ghost use Rattle.ode_heap_laws.specs.Few.{HoldsCounted};
ghost use Rattle.ode_host.specs.Causes.{RoseIf};
ghost use Rattle.ode_host.specs.Host.{Looks};
ghost use Rattle.ode_keep.specs.Entries.{Entries};
ghost use Rattle.ode_language.specs.Languages.{ode};
ghost use Rattle.ode_opening.specs.Trees.{trees_in};
ghost use Rattle.ode_transact.specs.Errors.{OnDamaged};
ghost use Rattle.ode_transact.specs.Resting.{IsAtRest, resting_parts};
ghost use Rattle.ode_value.specs.Language.{ListWorld};
ghost use Rattle.ode_value.specs.declared.change.Added.{Added as Field};
ghost use Rattle.ode_value.specs.declared.statement.ClassDecl.{ClassDecl as Tree};

use ode_changed_laws::held_trees_are_read;
use ode_codec::Counters;
use ode_heap::Heap;
use ode_heap_laws::heaps_show_held_worlds;
use ode_host::Host;
use ode_keep::Keep;
use ode_opened::Opened;
use ode_opening::read_trees;
use ode_passes::{Cause, OpenError};
use ode_transact::EngineError;
use ode_value::{Added, ClassDecl, Key, List};
use std::alloc::Global;

/// What a change has to know of a file.
#[derive(Drop)]
pub(crate) struct Known {
    pub counters: Counters,
    pub trees: List<ClassDecl>,
    pub added: List<Added>,
}

const COUNTERS: Key = Key {
    kind: Key::COUNTERS,
    a: 0,
    b: 0,
};

/// What no file of a world has, told at the counters.
pub(crate) fn damaged<T>() -> Result<T, EngineError>
    ensures { result ≡ Err (EngineError.Damaged COUNTERS) }
{
    Err(EngineError::Damaged { key: COUNTERS })
}

// Where what breaks a rule is told.
fn place_of(cause: Cause) -> Key
    ensures { result ≡ place_of cause }
{
    match cause {
        Cause::Record(key) => key,
        Cause::Missing(key) => key,
        Cause::Header { .. } => COUNTERS,
        Cause::Journal { .. } => COUNTERS,
        Cause::Page { .. } => COUNTERS,
        Cause::Class(_) => COUNTERS,
        Cause::Table(_, _) => COUNTERS,
        Cause::State(_, _) => COUNTERS,
        Cause::Size(_) => COUNTERS,
    }
}

// The error of a pass over records, as the engine's.
fn error_of(error: OpenError) -> EngineError
    ensures { result ≡ pass_error error }
{
    match error {
        OpenError::Memory => EngineError::Memory,
        OpenError::DiskFault => EngineError::DiskFault,
        OpenError::BadFile(cause) => EngineError::Damaged {
            key: place_of(cause),
        },
    }
}

// With these counters, what the other records have.
fn read_rest<H: Host, K: Keep<H>>(
    alloc: Global,
    keeper: &mut K,
    host: &mut H,
    counters: Counters,
) -> Result<Known, EngineError>
    requires live { IsTrue (K.live keeper.old) }
    ensures counters { IfOk result (λ known. known.counters ≡ counters) }
    ensures trees { IfOk result (λ known. (entries : Entries) → K.holds keeper.old (H.view host.old) entries → trees_in ode counters.added entries ≡ Ok (known.trees, known.added)) }
    ensures holds { OnOk result ((entries : Entries) → K.holds keeper.old (H.view host.old) entries → K.holds keeper.new (H.view host.new) entries) }
    ensures usable { OnOk result (K.live keeper.new ≡ true) }
    ensures looks { Looks (H.view host.old) (H.view host.new) }
    ensures cause { RoseIf (IsErrOf result EngineError.DiskFault) (H.view host.old).disk_faults (H.view host.new).disk_faults }
    ensures silent { IsErrOf result EngineError.WriteFault → ⊥ }
    // No record is damaged where they say which trees and fields there are.
    ensures undamaged { OnDamaged result ((entries : Entries) (known : Items Tree × Items Field) → K.holds keeper.old (H.view host.old) entries → trees_in ode counters.added entries ≡ Ok known → ⊥) }
{
    match read_trees(alloc, keeper, host, counters.added) {
        Ok((trees, added)) => Ok(Known {
            counters,
            trees,
            added,
        }),
        Err(error) => Err(error_of(error)),
    }
}

// The counters, with the keeper again.
fn read_counters<H: Host, K: Keep<H> + Drop>(
    alloc: Global,
    keeper: K,
    host: &mut H,
) -> Result<(K, Counters), EngineError>
    requires live { IsTrue (K.live keeper) }
    ensures counters { IfOk result (λ r. (entries : Entries) (w : ListWorld) → HoldsCounted ode entries w → K.holds keeper (H.view host.old) entries → r.1 ≡ counters_of w.bones) }
    ensures holds { IfOk result (λ r. (entries : Entries) → K.holds keeper (H.view host.old) entries → K.holds r.0 (H.view host.new) entries) }
    ensures usable { IfOk result (λ r. IsTrue (K.live r.0)) }
    ensures looks { Looks (H.view host.old) (H.view host.new) }
    ensures cause { RoseIf (IsErrOf result EngineError.DiskFault) (H.view host.old).disk_faults (H.view host.new).disk_faults }
    ensures silent { IsErrOf result EngineError.WriteFault → ⊥ }
    ensures undamaged { OnDamaged result ((entries : Entries) (w : ListWorld) → HoldsCounted ode entries w → K.holds keeper (H.view host.old) entries → ⊥) }
{
    heaps_show_held_worlds();
    let mut heap = Heap::new(keeper);
    let counters = heap.counters(alloc, host)?;
    Ok((heap.into_keeper(), counters))
}

// What a change has to know of a keeper's records.
fn read_in<H: Host, K: Keep<H> + Drop>(
    alloc: Global,
    keeper: K,
    host: &mut H,
) -> Result<(K, Known), EngineError>
    requires live { IsTrue (K.live keeper) }
    ensures known { IfOk result (λ r. (entries : Entries) (w : ListWorld) → HoldsCounted ode entries w → K.holds keeper (H.view host.old) entries → IsKnown w.bones r.1.counters r.1.trees r.1.added) }
    ensures holds { IfOk result (λ r. (entries : Entries) (w : ListWorld) → HoldsCounted ode entries w → K.holds keeper (H.view host.old) entries → K.holds r.0 (H.view host.new) entries) }
    ensures usable { IfOk result (λ r. IsTrue (K.live r.0)) }
    ensures looks { Looks (H.view host.old) (H.view host.new) }
    ensures cause { RoseIf (IsErrOf result EngineError.DiskFault) (H.view host.old).disk_faults (H.view host.new).disk_faults }
    ensures silent { IsErrOf result EngineError.WriteFault → ⊥ }
    ensures undamaged { OnDamaged result ((entries : Entries) (w : ListWorld) → HoldsCounted ode entries w → K.holds keeper (H.view host.old) entries → ⊥) }
{
    held_trees_are_read();
    let read = read_counters(alloc, keeper, host)?;
    let (keeper, counters) = read;
    let mut keeper = keeper;
    let known = read_rest(alloc, &mut keeper, host, counters)?;
    Ok((keeper, known))
}

/// What a change has to know of an opened file. Nothing is written.
pub(crate) fn read_known<H: Host, K: Keep<H> + Drop>(
    alloc: Global,
    rest: Opened<K>,
    host: &mut H,
) -> Result<(Opened<K>, Known), EngineError>
    requires live { IsTrue (K.live rest.keeper) }
    ensures known { IfOk result (λ r. (w : ListWorld) → IsAtRest H.view K.holds K.live ode w rest host.old → IsKnown w.bones r.1.counters r.1.trees r.1.added) }
    ensures rests { IfOk result (λ r. (w : ListWorld) → IsAtRest H.view K.holds K.live ode w rest host.old → IsAtRest H.view K.holds K.live ode w r.0 host.new) }
    ensures parts { IfOk result (λ r. resting_parts r.0 ≡ resting_parts rest) }
    ensures usable { IfOk result (λ r. IsTrue (K.live r.0.keeper)) }
    ensures looks { Looks (H.view host.old) (H.view host.new) }
    ensures cause { RoseIf (IsErrOf result EngineError.DiskFault) (H.view host.old).disk_faults (H.view host.new).disk_faults }
    ensures silent { IsErrOf result EngineError.WriteFault → ⊥ }
    // Over a world no record is damaged.
    ensures undamaged { OnDamaged result ((w : ListWorld) → IsAtRest H.view K.holds K.live ode w rest host.old → ⊥) }
{
    let Opened {
        keeper,
        classes,
        tables,
        alphabets,
        maps,
        bytes,
        format,
    } = rest;
    let read = read_in(alloc, keeper, host)?;
    let (keeper, known) = read;
    Ok((
        Opened {
            keeper,
            classes,
            tables,
            alphabets,
            maps,
            bytes,
            format,
        },
        known,
    ))
}
