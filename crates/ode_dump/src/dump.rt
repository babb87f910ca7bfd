//! All records of a database, printed.
ghost use Rattle.std.specs.Prelude.{◌≡◌, IfOk, IsErrOf, IsTrue};
ghost use Rattle.ode_host.specs.Causes.{RoseIf};
ghost use Rattle.ode_host.specs.Host.{Looks};
ghost use Rattle.ode_keep.specs.Entries.{Entries};
ghost use Rattle.ode_passes.specs.Answers.{OnBroken, UnlessFault, is_usable};
ghost use Rattle.ode_dump.specs.Dumping.{AreRecords, dump_text};

use crate::listing::read_lines;
use crate::order::in_order;
use ode_host::Host;
use ode_keep::Keep;
use ode_passes::OpenError;
use ode_types::Classes;
use ode_value::List;
use std::alloc::Global;

/// The line of each record: the counters and the clock, the classes with their tables, the objects with their versions and activations, and
/// the queue. Names are those of the classes. Where every record decodes, no rule is broken. Nothing is written.
pub fn dump_text<H: Host, K: Keep<H>>(
    alloc: Global,
    keeper: &mut K,
    host: &mut H,
    classes: &Classes,
) -> Result<List<u8>, OpenError>
    requires live { IsTrue (K.live keeper.old) }
    ensures text { IfOk result (λ text. (entries : Entries) → K.holds keeper.old (H.view host.old) entries
        → text ≡ dump_text classes.now entries) }
    ensures broken { OnBroken result ((entries : Entries) → K.holds keeper.old (H.view host.old) entries → AreRecords entries → ⊥) }
    ensures holds { UnlessFault result ((entries : Entries) → K.holds keeper.old (H.view host.old) entries
        → K.holds keeper.new (H.view host.new) entries) }
    ensures looks { Looks (H.view host.old) (H.view host.new) }
    ensures usable { K.live keeper.new ≡ is_usable result }
    ensures cause { RoseIf (IsErrOf result OpenError.DiskFault) (H.view host.old).disk_faults (H.view host.new).disk_faults }
{
    let lines = read_lines(alloc, keeper, host, classes)?;
    let text = in_order(alloc, lines.as_slice())?;
    Ok(text)
}
