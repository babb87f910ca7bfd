//! A file is opened to what a run needs.
ghost use Rattle.std.specs.Prelude.{◌≡◌, ◌⊎◌, ◌==◌, List as Items, ℕ, length, IfOk, IsErrOf, IsTrue, Ok, Some};
ghost use Rattle.ode_host.specs.Causes.{RoseIf};
ghost use Rattle.ode_host.specs.FirstSync.{SyncedRun};
ghost use Rattle.ode_host.specs.Host.{Looks, Only, Stands, Tells};
ghost use Rattle.ode_keep.specs.Entries.{AreBytes, Entries};
ghost use Rattle.ode_keeper.specs.Files.{FileMeans};
ghost use Rattle.ode_keeper.specs.Holding.{KeeperHolds, is_live};
ghost use Rattle.ode_language.specs.Languages.{ode};
ghost use Rattle.ode_open.specs.Opening.{Found, HasFormat, HasOutsideFailed, IsOpenedTo, Stays, base_in, program_of, seen};
ghost use Rattle.ode_opening_records.specs.Reading.{AreOpened};
ghost use Rattle.ode_schema.specs.Parts.{AreFit, places_from, trigger_count};

use crate::error::OpenError;
use ode_gate::{FIRST_FORMAT, SLOT_LEN, read_header};
use ode_host::Host;
use ode_keeper::Keeper;
use ode_opened::Opened;
use ode_opening_records::{Base, open_records, records_are_opened_to_one_thing};
use std::alloc::Global;

// Opens a file that was synced.
fn open_file<H: Host>(alloc: Global, host: &mut H) -> Result<Opened<Keeper>, OpenError>
    ensures answer { (image : Items ℕ) → Stands image (H.view host.old)
        → HasOutsideFailed result ⊎ IsOpenedTo image (seen result) }
    ensures keeper { IfOk result (λ o. (image : Items ℕ) → Stands image (H.view host.old)
        → (entries : Entries) × FileMeans image entries × KeeperHolds o.keeper (H.view host.new) entries × AreOpened (o.format == FIRST_FORMAT) ode entries (Ok (base_in o))) }
    ensures bytes { IfOk result (λ o. (image : Items ℕ) → Stands image (H.view host.old)
        → (entries : Entries) → KeeperHolds o.keeper (H.view host.new) entries → AreBytes entries) }
    ensures format { IfOk result (λ o. (image : Items ℕ) → Stands image (H.view host.old) → HasFormat image o.format) }
    ensures live { IfOk result (λ o. IsTrue (is_live o.keeper)) }
    ensures fit { IfOk result (λ o. AreFit (program_of o)) }
    ensures places { IfOk result (λ o. o.maps ≡ places_from 0 o.classes) }
    ensures aligned { IfOk result (λ o. (length o.tables ≡ trigger_count o.classes) × (length o.alphabets ≡ length o.tables)) }
    ensures looks { Looks (H.view host.old) (H.view host.new) }
    ensures cause { RoseIf (IsErrOf result OpenError.DiskFault) (H.view host.old).disk_faults (H.view host.new).disk_faults }
{
    let header = read_header(host, &mut [0; SLOT_LEN])?;
    let mut keeper = Keeper::start(alloc, host, &header)?;
    let base = open_records(alloc, &mut keeper, host, header.format == FIRST_FORMAT)?;
    let Base {
        classes,
        tables,
        alphabets,
        maps,
        bytes,
    } = base;
    Ok(Opened {
        keeper,
        classes,
        tables,
        alphabets,
        maps,
        bytes,
        format: header.format,
    })
}

/// Opens a file. It begins with a sync, and nothing is written. A file is opened to its classes, their tables as they are stored and the
/// bytes of its records, or refused by the first rule that it breaks; want of memory or a fault of the disk may come instead.
pub fn open_base<H: Host>(alloc: Global, host: &mut H) -> Result<Opened<Keeper>, OpenError>
    ensures answer { (image : Items ℕ) → Tells (H.view host.old) image
        → HasOutsideFailed result ⊎ IsOpenedTo image (seen result) }
    ensures only { (image : Items ℕ) (found : Found) → Tells (H.view host.old) image → IsOpenedTo image found
        → HasOutsideFailed result ⊎ (seen result ≡ found) }

    // At `Ok` what was written before stands on the disk, and the keeper holds the file's records, which were opened.
    ensures keeper { IfOk result (λ o. (image : Items ℕ) → Tells (H.view host.old) image
        → (entries : Entries) × FileMeans image entries × KeeperHolds o.keeper (H.view host.new) entries × AreOpened (o.format == FIRST_FORMAT) ode entries (Ok (base_in o))) }
    ensures bytes { IfOk result (λ o. (image : Items ℕ) → Tells (H.view host.old) image
        → (entries : Entries) → KeeperHolds o.keeper (H.view host.new) entries → AreBytes entries) }
    ensures format { IfOk result (λ o. (image : Items ℕ) → Tells (H.view host.old) image → HasFormat image o.format) }
    ensures live { IfOk result (λ o. IsTrue (is_live o.keeper)) }
    ensures fit { IfOk result (λ o. AreFit (program_of o)) }
    ensures places { IfOk result (λ o. o.maps ≡ places_from 0 o.classes) }
    ensures aligned { IfOk result (λ o. (length o.tables ≡ trigger_count o.classes) × (length o.alphabets ≡ length o.tables)) }

    // Unless the disk failed, its sync was done: from then on a stop leaves the file and the text as they are. Before it, a stop leaves
    // what it might have left at the start.
    ensures synced { (IsErrOf result OpenError.DiskFault → ⊥) → (image : Items ℕ) → Tells (H.view host.old) image
        → Only image (H.view host.new) }
    ensures stops { (image text : Items ℕ) → Tells (H.view host.old) image → (H.view host.old).text ≡ Some text
        → SyncedRun (H.view host.old) (H.view host.new) image (IsErrOf result OpenError.DiskFault) (Stays image text) }
    ensures looks { Looks (H.view host.old) (H.view host.new) }
    ensures cause { RoseIf (IsErrOf result OpenError.DiskFault) (H.view host.old).disk_faults (H.view host.new).disk_faults }
{
    records_are_opened_to_one_thing();
    host.sync()?;
    open_file(alloc, host)
}
