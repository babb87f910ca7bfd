//! What is known of classes that were checked anew. Their tables stay: no mask reads a new field.
ghost use Rattle.std.specs.Prelude.{◌≡◌, ◌<◌, ◌+◌, ◌^◌, ◌++◌, ◌↔◌, map, IfOk, IsErrOf, IsTrue, OnOk};
ghost use Rattle.std.specs.List.{AllByRecursion, AllZip};
ghost use Rattle.ode_change.specs.Fitting.{AreOver, HasFewSymbols, IsOver};
ghost use Rattle.ode_schema.specs.Parts.{AreAligned, AreFit, places_from, trigger_count};
ghost use Rattle.ode_opening.specs.Building.{triggers_of};
ghost use Rattle.ode_opening_tables.specs.Tables.{alphabets_of};
ghost use Rattle.ode_transact.specs.Errors.{OnDamaged};
ghost use Rattle.ode_value.specs.Symbols.{alphabet};
ghost use Rattle.ode_value.specs.declared.member.TriggerDecl.{TriggerDecl as Trigger};

use crate::reading::damaged;
use ode_symbols::{Alphabet, AlphabetError};
use ode_table::Table;
use ode_transact::EngineError;
use ode_types::Classes;
use ode_value::{Class, List, TriggerDecl};
use std::alloc::{AllocError, Global};

// The alphabets of the triggers of classes, and for each class the place of its first trigger among all.
#[derive(Drop)]
pub(crate) struct Places {
    pub alphabets: List<Alphabet>,
    pub maps: List<u32>,
}

fn alphabet_of(alloc: Global, trigger: &TriggerDecl) -> Result<Alphabet, EngineError>
    ensures is { IfOk result (λ rows. rows ≡ alphabet trigger.now.event) }
    ensures undamaged { OnDamaged result (HasFewSymbols trigger.now → ⊥) }
    ensures calm { IsErrOf result EngineError.DiskFault → ⊥ }
    ensures silent { IsErrOf result EngineError.WriteFault → ⊥ }
{
    match Alphabet::of(alloc, &trigger.event) {
        Ok(alphabet) => Ok(alphabet),
        Err(AlphabetError::Memory) => Err(EngineError::Memory),
        Err(AlphabetError::TooManySymbols { .. }) => damaged(),
    }
}

fn put_alphabets(
    alloc: Global,
    alphabets: &mut List<Alphabet>,
    triggers: &[TriggerDecl],
) -> Result<(), EngineError>
    ensures is { OnOk result (alphabets.new ≡ alphabets.old ++ map (λ (t : Trigger). alphabet t.event) triggers.now) }
    ensures undamaged { OnDamaged result (AllByRecursion HasFewSymbols triggers.now → ⊥) }
    ensures calm { IsErrOf result EngineError.DiskFault → ⊥ }
    ensures silent { IsErrOf result EngineError.WriteFault → ⊥ }
{
    for trigger in triggers {
        let alphabet = alphabet_of(alloc, trigger)?;
        alphabets.push(alphabet)?;
    }
    Ok(())
}

// The alphabet of each trigger of each class, in order.
fn alphabets_of(alloc: Global, classes: &[Class]) -> Result<List<Alphabet>, EngineError>
    ensures is { IfOk result (λ alphabets. alphabets ≡ alphabets_of classes.now) }
    ensures undamaged { OnDamaged result (AllByRecursion HasFewSymbols (triggers_of classes.now) → ⊥) }
    ensures calm { IsErrOf result EngineError.DiskFault → ⊥ }
    ensures silent { IsErrOf result EngineError.WriteFault → ⊥ }
{
    let mut alphabets = List::new(alloc);
    for class in classes {
        put_alphabets(alloc, &mut alphabets, class.triggers.as_slice())?;
    }
    Ok(alphabets)
}

// The place behind so many more.
fn behind(place: u32, more: usize) -> Result<u32, AllocError>
    ensures is { IfOk result (λ next. next ≡ place + more) }
    ensures few { IfOk result (λ next. next < 2 ^ 32) }
{
    let Ok(more) = u32::try_from(more) else {
        return Err(AllocError);
    };
    place.checked_add(more).ok_or(AllocError)
}

// For each class the place of its first trigger among all.
fn places_of(alloc: Global, classes: &[Class]) -> Result<List<u32>, AllocError>
    ensures is { IfOk result (λ maps. maps ≡ places_from 0 classes.now) }
    ensures few { OnOk result (trigger_count classes.now < 2 ^ 32) }
{
    let mut maps = List::new(alloc);
    let mut place = 0u32;
    for class in classes {
        maps.push(place)?;
        place = behind(place, class.triggers.len())?;
    }
    Ok(maps)
}

// Whether each table is one over as many symbols as the alphabet at its place has.
fn are_over(tables: &[Table], alphabets: &[Alphabet]) -> bool
    ensures { IsTrue result ↔ AllZip IsOver tables.now alphabets.now }
{
    if tables.len() != alphabets.len() {
        return false;
    }
    for place in 0..tables.len() {
        if tables[place].symbols() != alphabets[place].size() {
            return false;
        }
    }
    true
}

/// The alphabets of all classes, to the tables that stand there.
pub(crate) fn fitted(
    alloc: Global,
    tables: &List<Table>,
    classes: &Classes,
) -> Result<Places, EngineError>
    ensures fit { IfOk result (λ r. AreFit (record { classes = classes.now; tables = tables.now; alphabets = r.alphabets; maps = r.maps })) }
    ensures aligned { IfOk result (λ r. AreAligned (record { classes = classes.now; tables = tables.now; alphabets = r.alphabets; maps = r.maps })) }
    ensures maps { IfOk result (λ r. r.maps ≡ places_from 0 classes.now) }
    ensures undamaged { OnDamaged result (AreOver tables.now classes.now → ⊥) }
    ensures calm { IsErrOf result EngineError.DiskFault → ⊥ }
    ensures silent { IsErrOf result EngineError.WriteFault → ⊥ }
{
    let known = classes.as_slice();
    let alphabets = alphabets_of(alloc, known)?;
    let maps = places_of(alloc, known)?;
    if are_over(tables.as_slice(), alphabets.as_slice()) {
        Ok(Places { alphabets, maps })
    } else {
        damaged()
    }
}
