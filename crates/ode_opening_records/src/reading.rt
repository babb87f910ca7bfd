//! What a run needs of the records of a keeper.
ghost use Rattle.std.specs.Prelude.{◌≡◌, IfOk, IsErrOf, IsTrue, OnOk, length};
ghost use Rattle.ode_host.specs.Causes.{RoseIf};
ghost use Rattle.ode_host.specs.Host.{Looks};
ghost use Rattle.ode_keep.specs.Entries.{AreBytes, Entries};
ghost use Rattle.ode_language.specs.Languages.{ode};
ghost use Rattle.ode_opening_records.specs.Answers.{Opens};
ghost use Rattle.ode_opening_records.specs.Reading.{parts_in};
ghost use Rattle.ode_passes.specs.Answers.{UnlessFault, is_usable};
ghost use Rattle.ode_passes.specs.Walking.{within};
ghost use Rattle.ode_schema.specs.Parts.{AreFit, places_from, trigger_count};

use crate::base::Base;
use ode_class_records::spare;
use ode_host::Host;
use ode_keep::Keep;
use ode_opening::{Accepted, read_classes};
use ode_opening_objects::check_objects;
use ode_opening_tables::read_tables;
use ode_passes::{OpenError, is_light, read_tally};
use std::alloc::Global;

/// The classes of the records of a keeper with their tables, and the bytes of all records but for the queue's entries; or the first rule
/// that they break. All values are bytes. Nothing is written.
#[tactic(auto, unfolding(crate::specs::Reading::opened_by))]
pub fn open_records<H: Host, K: Keep<H>>(
    alloc: Global,
    keeper: &mut K,
    host: &mut H,
    first: bool,
) -> Result<Base, OpenError>
    requires live { IsTrue (K.live keeper.old) }
    ensures meant { (entries : Entries) → K.holds keeper.old (H.view host.old) entries
        → Opens first ode entries result }
    ensures bytes { OnOk result ((entries : Entries) → K.holds keeper.old (H.view host.old) entries → AreBytes (within 0 255 entries)) }
    ensures fit { IfOk result (λ base. AreFit (parts_in base)) }
    ensures places { IfOk result (λ base. base.maps ≡ places_from 0 base.classes) }
    ensures aligned { IfOk result (λ base. (length base.tables ≡ trigger_count base.classes) × (length base.alphabets ≡ length base.tables)) }
    ensures holds { UnlessFault result ((entries : Entries) → K.holds keeper.old (H.view host.old) entries
        → K.holds keeper.new (H.view host.new) entries) }
    ensures looks { Looks (H.view host.old) (H.view host.new) }
    ensures usable { K.live keeper.new ≡ is_usable result }
    ensures cause { RoseIf (IsErrOf result OpenError.DiskFault) (H.view host.old).disk_faults (H.view host.new).disk_faults }
{
    let (counters, bytes) = read_tally(alloc, keeper, host, first)?;
    let accepted = read_classes(alloc, keeper, host, counters.added)?;
    let (tables, maps) = read_tables(alloc, keeper, host, &accepted)?;
    let classes = &accepted.classes;
    check_objects(alloc, keeper, host, counters, classes, &tables, &maps)?;
    is_light(first, bytes)?;
    let spare = spare(accepted.counts.as_slice(), tables.as_slice());
    let Accepted {
        classes,
        alphabets,
        ..
    } = accepted;
    Ok(Base {
        classes,
        tables,
        alphabets,
        maps,
        bytes: bytes + spare,
    })
}
