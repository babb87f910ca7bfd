//! The lines of all records under their keys.
ghost use Rattle.std.specs.Prelude.{◌≡◌, IfOk, IsErrOf, IsTrue};
ghost use Rattle.ode_host.specs.Causes.{RoseIf};
ghost use Rattle.ode_host.specs.Host.{Looks};
ghost use Rattle.ode_keep.specs.Entries.{Entries, HasRisingKeys};
ghost use Rattle.ode_passes.specs.Answers.{OnBroken, UnlessFault, is_usable};
ghost use Rattle.ode_dump.specs.Dumping.{AreRecords, all, lines_of};

use crate::lines::record_line;
use ode_host::Host;
use ode_keep::Keep;
use ode_passes::{OpenError, Pass, record_in, walk};
use ode_types::Classes;
use ode_value::{Key, List};
use std::alloc::Global;

/// Lines under the keys of their records, in the order of these.
pub(crate) type Lines = List<(Key, List<u8>)>;

/// The lines so far of records.
#[derive(Drop)]
pub(crate) struct Listing<'a> {
    pub(crate) classes: &'a Classes,
    pub(crate) lines: Lines,
}

impl<'a> Pass for Listing<'a> {
    ghost use Rattle.ode_dump.specs.Passing.{with_line};

    ghost takes = { with_line };

    fn take(&mut self, alloc: Global, key: Key, value: &[u8]) -> Result<(), OpenError> {
        let row = record_in(alloc, key, value)?;
        let line = record_line(alloc, self.classes, &row)?;
        self.lines.push((key, line))?;
        Ok(())
    }
}

/// The line of each record under its key. Nothing is written.
pub(crate) fn read_lines<H: Host, K: Keep<H>>(
    alloc: Global,
    keeper: &mut K,
    host: &mut H,
    classes: &Classes,
) -> Result<Lines, OpenError>
    requires live { IsTrue (K.live keeper.old) }
    ensures lines { IfOk result (λ lines. (entries : Entries) → K.holds keeper.old (H.view host.old) entries
        → lines ≡ lines_of classes.now (all entries)) }
    ensures rise { IfOk result (λ lines. (entries : Entries) → K.holds keeper.old (H.view host.old) entries → HasRisingKeys lines) }
    ensures broken { OnBroken result ((entries : Entries) → K.holds keeper.old (H.view host.old) entries → AreRecords entries → ⊥) }
    ensures holds { UnlessFault result ((entries : Entries) → K.holds keeper.old (H.view host.old) entries
        → K.holds keeper.new (H.view host.new) entries) }
    ensures looks { Looks (H.view host.old) (H.view host.new) }
    ensures usable { K.live keeper.new ≡ is_usable result }
    ensures cause { RoseIf (IsErrOf result OpenError.DiskFault) (H.view host.old).disk_faults (H.view host.new).disk_faults }
{
    let mut listing = Listing {
        classes,
        lines: List::new(alloc),
    };
    walk(alloc, keeper, host, u8::MIN, u8::MAX, &mut listing)?;
    let Listing { lines, .. } = listing;
    Ok(lines)
}
