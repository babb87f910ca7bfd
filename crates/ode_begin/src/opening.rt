//! A file is opened for a run, which goes on over pages of the last format.
ghost use Rattle.std.specs.Prelude.{◌≡◌, List as Items, ℕ, IfErr, IfOk, IsErrOf, IsTrue, OnErr, Some};
ghost use Rattle.ode_ends.specs.Resting.{DiskHas, resting_parts};
ghost use Rattle.ode_schema.specs.Parts.{AreAligned, AreFit};
ghost use Rattle.ode_gate.specs.declared.places.TheConstants.{FORMAT};
ghost use Rattle.ode_host.specs.Causes.{RoseIf};
ghost use Rattle.ode_host.specs.FirstSync.{SyncedRun};
ghost use Rattle.ode_host.specs.Host.{DiskCalls, LeavesOnly, Looks, Tells};
ghost use Rattle.ode_keep.specs.Entries.{Entries};
ghost use Rattle.ode_keeper.specs.Files.{FileMeans};
ghost use Rattle.ode_migrate.specs.Migrating.{LeavesRecords};
ghost use Rattle.ode_open.specs.Opening.{IsFromOutside, IsRefused};
ghost use Rattle.ode_pagemap.specs.Holding.{is_live};
ghost use Rattle.ode_paging.specs.Meaning.{PagesMeanIn};
ghost use Rattle.ode_value.specs.Language.{ListWorld};
ghost use Rattle.ode_begin.specs.Answers.{BreaksRule};
ghost use Rattle.ode_begin.specs.Holds.{Holds, HoldsInPages};
ghost use Rattle.ode_begin.specs.Opening.{HasAreas, IsOver, OpensTo, StandsInFirst, unmoved};
ghost use Rattle.ode_begin.specs.Stops.{StaysIn};

use ode_file_laws::files_of_worlds_are_opened;
use ode_host::Host;
use ode_keeper::Keeper;
use ode_migrate::{MigrateError, migrate};
use ode_open::{OpenError, open_base};
use ode_opened::{Opened, RUN_FORMAT};
use ode_opening_records::records_of_the_first_format_are_opened_alike;
use ode_pagemap::PageMap;
use ode_passes::Cause;
use std::alloc::Global;

// Why a file isn't migrated, as why it isn't opened.
fn unmoved(error: MigrateError) -> OpenError
    ensures { result ≡ unmoved error }
{
    match error {
        MigrateError::Memory => OpenError::Memory,
        MigrateError::DiskFault => OpenError::DiskFault,
        MigrateError::Changed { at } => OpenError::BadFile(Cause::Journal { at }),
    }
}

// An opened file of pages, over their own keeper. A file of two areas isn't what it was when it got the last format.
fn over_pages(opened: Opened<Keeper>) -> Result<Opened<PageMap>, OpenError>
    ensures pages { IfOk result (λ o. IsOver opened o) }
    ensures areas { OnErr result (HasAreas opened.keeper) }
    ensures why { IfErr result (λ e. e ≡ unmoved (MigrateError.Changed 0)) }
{
    let Opened {
        keeper,
        classes,
        tables,
        alphabets,
        maps,
        bytes,
        format,
    } = opened;
    match keeper {
        Keeper::Areas(_) => Err(unmoved(MigrateError::Changed { at: 0 })),
        Keeper::Pages(keeper) => Ok(Opened {
            keeper,
            classes,
            tables,
            alphabets,
            maps,
            bytes,
            format,
        }),
    }
}

// Opens a file that was migrated.
fn open_pages<H: Host>(alloc: Global, host: &mut H) -> Result<Opened<PageMap>, OpenError>
    ensures opened { IfOk result (λ o. (image : Items ℕ) (w : ListWorld) → Tells (H.view host.old) image → HoldsInPages image w
        → OpensTo w o (H.view host.new)) }
    ensures outside { (image : Items ℕ) (w : ListWorld) → Tells (H.view host.old) image → HoldsInPages image w
        → IfErr result IsFromOutside }
    ensures live { IfOk result (λ o. IsTrue (is_live o.keeper)) }
    ensures fit { IfOk result (λ o. AreFit (resting_parts o)) }
    ensures aligned { IfOk result (λ o. AreAligned (resting_parts o)) }
    ensures looks { Looks (H.view host.old) (H.view host.new) }
    ensures cause { RoseIf (IsErrOf result OpenError.DiskFault) (H.view host.old).disk_faults (H.view host.new).disk_faults }
{
    files_of_worlds_are_opened();
    records_of_the_first_format_are_opened_alike();
    let opened = open_base(alloc, host)?;
    over_pages(opened)
}

// Migrates a file of the first format, and opens it again.
fn open_migrated<H: Host>(alloc: Global, host: &mut H) -> Result<Opened<PageMap>, OpenError>
    ensures opened { IfOk result (λ o. (w : ListWorld) → StandsInFirst w (H.view host.old) → OpensTo w o (H.view host.new)) }
    ensures outside { (w : ListWorld) → StandsInFirst w (H.view host.old) → IfErr result IsFromOutside }
    ensures disk { IfOk result (λ _. (w : ListWorld) (first : StandsInFirst w (H.view host.old)) → DiskHas (PagesMeanIn FORMAT) first.held.entries (H.view host.new)) }
    ensures any_moment { (w : ListWorld) (first : StandsInFirst w (H.view host.old))
        → LeavesOnly (H.view host.old) (H.view host.new) (LeavesRecords first.held.entries (H.view host.old)) }
    ensures live { IfOk result (λ o. IsTrue (is_live o.keeper)) }
    ensures fit { IfOk result (λ o. AreFit (resting_parts o)) }
    ensures aligned { IfOk result (λ o. AreAligned (resting_parts o)) }
    ensures leaves { DiskCalls (IsErrOf result OpenError.DiskFault) (H.view host.old) (H.view host.new) }
{
    match migrate(alloc, host) {
        Ok(()) => open_pages(alloc, host),
        Err(error) => Err(unmoved(error)),
    }
}

/// Opens a file that a run goes on over. One of the first format is migrated, and opened again.
pub fn open_to_run<H: Host>(alloc: Global, host: &mut H) -> Result<Opened<PageMap>, OpenError>
    // A file that holds a world is opened to it, unless the outside fails; and a stop leaves the world, in one format or the other, and in
    // the same records.
    ensures opened { IfOk result (λ o. (image : Items ℕ) (w : ListWorld) → Tells (H.view host.old) image → Holds image w
        → OpensTo w o (H.view host.new)) }
    ensures disk { IfOk result (λ _. (image : Items ℕ) (w : ListWorld) (entries : Entries) → Tells (H.view host.old) image → Holds image w → FileMeans image entries
        → DiskHas (PagesMeanIn FORMAT) entries (H.view host.new)) }
    ensures outside { (image : Items ℕ) (w : ListWorld) → Tells (H.view host.old) image → Holds image w
        → IfErr result IsFromOutside }
    ensures stops { (image text : Items ℕ) (w : ListWorld) (entries : Entries) → Tells (H.view host.old) image → Holds image w → FileMeans image entries → (H.view host.old).text ≡ Some text
        → SyncedRun (H.view host.old) (H.view host.new) image (IsErrOf result OpenError.DiskFault) (StaysIn w entries text) }
    ensures left { (image text file : Items ℕ) (w : ListWorld) (entries : Entries) → Tells (H.view host.old) image → Holds image w → FileMeans image entries → (H.view host.old).text ≡ Some text
        → Tells (H.view host.new) file → Holds file w × FileMeans file entries }

    // One that breaks a rule is refused, and stays as it was.
    ensures rules { IfOk result (λ _. (image : Items ℕ) → Tells (H.view host.old) image → BreaksRule image → ⊥) }
    ensures answer { (image : Items ℕ) → Tells (H.view host.old) image → BreaksRule image → IsRefused image result }
    ensures looks { (image : Items ℕ) → Tells (H.view host.old) image → BreaksRule image → Looks (H.view host.old) (H.view host.new) }

    ensures live { IfOk result (λ o. IsTrue (is_live o.keeper)) }
    ensures fit { IfOk result (λ o. AreFit (resting_parts o)) }
    ensures aligned { IfOk result (λ o. AreAligned (resting_parts o)) }
    ensures leaves { DiskCalls (IsErrOf result OpenError.DiskFault) (H.view host.old) (H.view host.new) }
{
    files_of_worlds_are_opened();
    records_of_the_first_format_are_opened_alike();
    let opened = open_base(alloc, host)?;
    if opened.format == RUN_FORMAT {
        over_pages(opened)
    } else {
        open_migrated(alloc, host)
    }
}
