//! What a checkpoint changes the header to.
ghost use Rattle.std.specs.Prelude.{◌≡◌, ◌≤◌};
ghost use Rattle.ode_gate.specs.Headers.{IsOfPages};
ghost use Rattle.ode_pagemap.specs.Steps.{IsNext};

use ode_gate::{Header, MAX_PAGES, PAGES, PAGES_AT, REGION_0, REGION_1, next_generation};

/// The header of the other region, in the other slot, over so many pages in place. The format stays.
pub(crate) fn next_header(older: &Header, pages: u64) -> Header
    requires form { IsOfPages older.now }
    requires few { pages ≤ MAX_PAGES }
    ensures follows { IsNext older.now result }
    ensures long { result.body_len ≡ pages }
{
    let (journal_at, journal_end) = if older.journal_at == REGION_0 {
        (REGION_1, PAGES_AT)
    } else {
        (REGION_0, REGION_1)
    };
    let slot = if older.slot == 0 { 1 } else { 0 };
    Header {
        format: older.format,
        layout: PAGES,
        generation: next_generation(older.generation),
        body_at: PAGES_AT,
        body_len: pages,
        journal_at,
        journal_end,
        slot,
    }
}
