//! The classes of a database.
ghost use Rattle.std.specs.Prelude.{IfOk, IsErrOf, IsTrue};
ghost use Rattle.ode_host.specs.Causes.{RoseIf};
ghost use Rattle.ode_host.specs.Host.{Looks};
ghost use Rattle.ode_keep.specs.Entries.{Entries};
ghost use Rattle.ode_language.specs.Languages.{ode};
ghost use Rattle.ode_opening.specs.Building.{AreBuilt};
ghost use Rattle.ode_opening.specs.Accepting.{Accepts};
ghost use Rattle.ode_passes.specs.Answers.{UnlessFault, is_usable};
ghost use Rattle.ode_opening.specs.Classes.{classes_in};
ghost use Rattle.std.specs.Prelude.{◌≡◌};

use crate::accepted::Accepted;
use crate::births::read_added;
use crate::declaring::declare_all;
use ode_host::Host;
use ode_keep::Keep;
use ode_passes::{Found, OpenError, complete, walk};
use ode_value::{Key, List};
use std::alloc::Global;

/// The classes of the records of a keeper with the fields that were added to them, of which there are to be so many, and with a table and
/// an alphabet for each of their triggers, as they are built; or the first rule that their records break. Nothing is written.
#[tactic(auto, unfolding(crate::specs::Classes::classes_in))]
pub fn read_classes<H: Host, K: Keep<H>>(
    alloc: Global,
    keeper: &mut K,
    host: &mut H,
    added: u32,
) -> Result<Accepted, OpenError>
    requires live { IsTrue (K.live keeper.old) }
    ensures meant { (entries : Entries) → K.holds keeper.old (H.view host.old) entries
        → Accepts (classes_in ode added entries) result }
    ensures built { IfOk result AreBuilt }
    ensures holds { UnlessFault result ((entries : Entries) → K.holds keeper.old (H.view host.old) entries
        → K.holds keeper.new (H.view host.new) entries) }
    ensures looks { Looks (H.view host.old) (H.view host.new) }
    ensures usable { K.live keeper.new ≡ is_usable result }
    ensures cause { RoseIf (IsErrOf result OpenError.DiskFault) (H.view host.old).disk_faults (H.view host.new).disk_faults }
{
    let mut records: Found = List::new(alloc);
    walk(
        alloc,
        keeper,
        host,
        Key::CLASS_HEAD,
        Key::TABLE_PIECE,
        &mut records,
    )?;
    complete(records.as_slice())?;
    let added = read_added(alloc, keeper, host, records.as_slice(), added)?;
    declare_all(alloc, records.as_slice(), added.as_slice())
}
