//! The tables of all triggers.
ghost use Rattle.std.specs.Prelude.{◌≡◌, ◌<◌, ◌+◌, ◌^◌, ◌∷◌, [], Err, IfOk, IsErrOf, IsTrue, OnOk, length, slice_get};
ghost use Rattle.std.specs.List.{AllByRecursion};
ghost use Rattle.std.specs.Option.{IsSomeAnd};
ghost use Rattle.ode_class_records.specs.Weighing.{spare_beside};
ghost use Rattle.ode_host.specs.Causes.{RoseIf};
ghost use Rattle.ode_host.specs.Host.{Looks};
ghost use Rattle.ode_keep.specs.Entries.{Entries};
ghost use Rattle.ode_opening.specs.Building.{AreBuilt, HasFewTriggers, triggers_of};
ghost use Rattle.ode_opening_tables.specs.Answers.{AreBeside, AreBuiltFrom, ReadsTo, TableFor, Tells, parts_of};
ghost use Rattle.ode_opening_tables.specs.Tables.{all_triggers, places_from, spare_in};
ghost use Rattle.ode_passes.specs.Answers.{UnlessFault, is_usable};
ghost use Rattle.ode_schema.specs.Parts.{AreFit, trigger_count};
ghost use Rattle.ode_value.specs.Classes.{Trigger, own_triggers};
ghost use Rattle.ode_value.specs.Tables.{Means};

use crate::comparing::compare;
use crate::laws::one_table_is_stored;
use crate::records::{Place, read_table};
use ode_host::Host;
use ode_keep::Keep;
use ode_opening::Accepted;
use ode_passes::{Cause, OpenError};
use ode_table::Table;
use ode_value::{Class, List};
use std::alloc::{AllocError, Global};

fn without_table<T>(place: Place) -> Result<T, OpenError>
    ensures { result ≡ Err (OpenError.BadFile (Cause.Table place.class place.trigger)) }
{
    Err(OpenError::BadFile(Cause::Table(place.class, place.trigger)))
}

// The table of a trigger as it is stored, by the one that was built.
fn read_stored<H: Host, K: Keep<H>>(
    alloc: Global,
    keeper: &mut K,
    host: &mut H,
    place: Place,
    built: &Table,
) -> Result<Table, OpenError>
    requires live { IsTrue (K.live keeper.old) }
    ensures meant { (entries : Entries) (t : Trigger) → K.holds keeper.old (H.view host.old) entries → t.class ≡ place.class → t.place ≡ place.trigger
        → Means built.now t.decl.event → TableFor entries t result }
    ensures symbols { IfOk result (λ table. table.symbols ≡ built.now.symbols) }
    ensures holds { UnlessFault result ((entries : Entries) → K.holds keeper.old (H.view host.old) entries
        → K.holds keeper.new (H.view host.new) entries) }
    ensures looks { Looks (H.view host.old) (H.view host.new) }
    ensures usable { K.live keeper.new ≡ is_usable result }
    ensures cause { RoseIf (IsErrOf result OpenError.DiskFault) (H.view host.old).disk_faults (H.view host.new).disk_faults }
{
    one_table_is_stored();
    let Some(stored) = read_table(alloc, keeper, host, place)? else {
        return without_table(place);
    };
    if !compare(alloc, &stored, built)? {
        return without_table(place);
    }
    Ok(stored)
}

// One table more, of a class's next trigger.
fn read_next<H: Host, K: Keep<H>>(
    alloc: Global,
    keeper: &mut K,
    host: &mut H,
    place: Place,
    built: &[Table],
    tables: &mut List<Table>,
) -> Result<(), OpenError>
    requires live { IsTrue (K.live keeper.old) }
    requires inside { length tables.old < length built.now }
    ensures meant { (entries : Entries) (t : Trigger) → K.holds keeper.old (H.view host.old) entries → t.class ≡ place.class → t.place ≡ place.trigger
        → IsSomeAnd (slice_get built.now (length tables.old)) (λ table. Means table t.decl.event)
        → ReadsTo entries (t ∷ []) tables.old tables.new result }
    ensures beside { OnOk result (AreBeside built.now tables.old → AreBeside built.now tables.new) }
    ensures count { OnOk result (length tables.new ≡ length tables.old + 1) }
    ensures holds { UnlessFault result ((entries : Entries) → K.holds keeper.old (H.view host.old) entries
        → K.holds keeper.new (H.view host.new) entries) }
    ensures looks { Looks (H.view host.old) (H.view host.new) }
    ensures usable { K.live keeper.new ≡ is_usable result }
    ensures cause { RoseIf (IsErrOf result OpenError.DiskFault) (H.view host.old).disk_faults (H.view host.new).disk_faults }
{
    let its = &built[tables.len()];
    let table = read_stored(alloc, keeper, host, place, its)?;
    tables.push(table)?;
    Ok(())
}

// The tables of a class's triggers, behind those of the classes before it.
fn read_own<H: Host, K: Keep<H>>(
    alloc: Global,
    keeper: &mut K,
    host: &mut H,
    class: &Class,
    built: &[Table],
    tables: &mut List<Table>,
) -> Result<(), OpenError>
    requires live { IsTrue (K.live keeper.old) }
    requires few { HasFewTriggers class.now }
    requires built { AreBuiltFrom built.now (length tables.old) class.now.triggers }
    ensures meant { (entries : Entries) → K.holds keeper.old (H.view host.old) entries
        → ReadsTo entries (own_triggers class.now) tables.old tables.new result }
    ensures beside { OnOk result (AreBeside built.now tables.old → AreBeside built.now tables.new) }
    ensures count { OnOk result (length tables.new ≡ length tables.old + length class.now.triggers) }
    ensures holds { UnlessFault result ((entries : Entries) → K.holds keeper.old (H.view host.old) entries
        → K.holds keeper.new (H.view host.new) entries) }
    ensures looks { Looks (H.view host.old) (H.view host.new) }
    ensures usable { K.live keeper.new ≡ is_usable result }
    ensures cause { RoseIf (IsErrOf result OpenError.DiskFault) (H.view host.old).disk_faults (H.view host.new).disk_faults }
{
    for trigger in 0..class.triggers.len() as u16 {
        let place = Place {
            class: class.number,
            trigger,
        };
        read_next(alloc, keeper, host, place, built, tables)?;
    }
    Ok(())
}

// The tables of all classes, and for each class the place of its first one.
fn read_all<H: Host, K: Keep<H>>(
    alloc: Global,
    keeper: &mut K,
    host: &mut H,
    classes: &[Class],
    built: &[Table],
) -> Result<(List<Table>, List<u32>), OpenError>
    requires live { IsTrue (K.live keeper.old) }
    requires few { AllByRecursion HasFewTriggers classes.now }
    requires built { AreBuiltFrom built.now 0 (triggers_of classes.now) }
    requires small { length built.now < 2 ^ 32 }
    ensures meant { (entries : Entries) → K.holds keeper.old (H.view host.old) entries
        → Tells entries (all_triggers classes.now) result }
    ensures maps { IfOk result (λ r. r.1 ≡ places_from 0 classes.now) }
    ensures beside { IfOk result (λ r. AreBeside built.now r.0) }
    ensures count { IfOk result (λ r. length r.0 ≡ length (triggers_of classes.now)) }
    ensures holds { UnlessFault result ((entries : Entries) → K.holds keeper.old (H.view host.old) entries
        → K.holds keeper.new (H.view host.new) entries) }
    ensures looks { Looks (H.view host.old) (H.view host.new) }
    ensures usable { K.live keeper.new ≡ is_usable result }
    ensures cause { RoseIf (IsErrOf result OpenError.DiskFault) (H.view host.old).disk_faults (H.view host.new).disk_faults }
{
    let mut tables = List::new(alloc);
    let mut maps = List::new(alloc);
    for class in classes {
        maps.push(tables.len() as u32)?;
        read_own(alloc, keeper, host, class, built, &mut tables)?;
    }
    Ok((tables, maps))
}

// Whether four bytes count some tables.
fn are_few(tables: &[Table]) -> Result<(), AllocError>
    ensures { OnOk result (length tables.now < 2 ^ 32) }
{
    match u32::try_from(tables.len()) {
        Ok(_) => Ok(()),
        Err(_) => Err(AllocError),
    }
}

/// The tables of the triggers of classes as the records of a keeper have them, and for each class the place of its first one, where each
/// table is whole and agrees with the built one on every word that isn't empty; or the first trigger of which that isn't so. Nothing is
/// written.
pub fn read_tables<H: Host, K: Keep<H>>(
    alloc: Global,
    keeper: &mut K,
    host: &mut H,
    accepted: &Accepted,
) -> Result<(List<Table>, List<u32>), OpenError>
    requires live { IsTrue (K.live keeper.old) }
    requires built { AreBuilt accepted.now }
    ensures meant { (entries : Entries) → K.holds keeper.old (H.view host.old) entries
        → Tells entries (all_triggers accepted.now.classes) result }
    ensures maps { IfOk result (λ r. r.1 ≡ places_from 0 accepted.now.classes) }
    ensures fit { IfOk result (λ r. AreFit (parts_of accepted.now r)) }
    ensures aligned { IfOk result (λ r. (length r.0 ≡ trigger_count accepted.now.classes) × (length accepted.now.alphabets ≡ length r.0)) }
    ensures spare { IfOk result (λ r. spare_beside accepted.now.counts r.0 ≡ spare_in (triggers_of accepted.now.classes) r.0) }
    ensures few { OnOk result (length accepted.now.tables < 2 ^ 32) }
    ensures counted { OnOk result (length accepted.now.counts < 2 ^ 32) }
    ensures holds { UnlessFault result ((entries : Entries) → K.holds keeper.old (H.view host.old) entries
        → K.holds keeper.new (H.view host.new) entries) }
    ensures looks { Looks (H.view host.old) (H.view host.new) }
    ensures usable { K.live keeper.new ≡ is_usable result }
    ensures cause { RoseIf (IsErrOf result OpenError.DiskFault) (H.view host.old).disk_faults (H.view host.new).disk_faults }
{
    let built = accepted.tables.as_slice();
    are_few(built)?;
    read_all(alloc, keeper, host, accepted.classes.as_slice(), built)
}
