//! What holds of keepers of pages, and of files that are alike.
ghost use Rattle.std.specs.Prelude.{◌≤◌, [], List, ℕ, length};
ghost use Rattle.ode_gate.specs.Slots.{Counts};
ghost use Rattle.ode_gate.specs.declared.header.Header.{Header as FileHeader};
ghost use Rattle.ode_journal.specs.declared.journal.Journal.{Journal as JournalPlace};
ghost use Rattle.ode_keep.specs.Entries.{Entries};
ghost use Rattle.ode_paging.specs.Gathering.{gathered};
ghost use Rattle.ode_paging.specs.Images.{Image};
ghost use Rattle.ode_paging.specs.Meaning.{PagesMeanIn};
ghost use Rattle.ode_pagemap.specs.Alike.{AreAlike};
ghost use Rattle.ode_pagemap.specs.Holding.{held, room};
ghost use Rattle.ode_pagemap.specs.Steps.{StandIn};
ghost use Rattle.ode_pagemap.specs.declared.map.PageMap.{PageMap as Keeper};

/// A keeper has no more pages in memory than there is room for.
pub fn held_pages_fit()
    ensures { (keeper : Keeper) → length (held keeper) ≤ room keeper }
{}

/// Under a header a file has the pages of each file that is alike: that has the same journal up to its last gate, and the
/// same bytes in the place of each page without an image. Where the header counts, it stands for their entries.
pub fn alike_files()
    ensures same { (header : FileHeader) (place : JournalPlace) (images : List Image) (pages : List Entries) (file other : List ℕ)
        → StandIn header place images pages file → AreAlike header place.at images file other
        → StandIn header place images pages other }
    ensures means { (header : FileHeader) (place : JournalPlace) (images : List Image) (pages : List Entries) (file other : List ℕ)
        → StandIn header place images pages file → AreAlike header place.at images file other → Counts other header
        → PagesMeanIn header.format other (gathered [] pages) }
{}
