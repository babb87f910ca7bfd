//! A keeper of either layout.

use ode_areas::Areas;
use ode_pagemap::PageMap;

/// How many pages a keeper has room for in memory.
pub const CACHE_PAGES: u32 = 64;

/// Records that stand in a file of either layout.
#[derive(Drop)]
pub enum Keeper {
    /// In two areas of the file.
    Areas(Areas),
    /// In pages of the file.
    Pages(PageMap),
}
