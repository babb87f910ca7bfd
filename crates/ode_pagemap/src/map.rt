//! The keeper: where each key stands, over a header, a journal and pages.
ghost use Rattle.ode_pagemap.specs.Paged.{IsPaged};

use crate::cache::Cache;
use ode_gate::Header;
use ode_paging::{Opened, Rooms};
use std::alloc::Global;

/// Records that stand in pages of a file, behind a journal of images of the pages that changed since. It has the keys in
/// memory, and some of the pages.
#[derive(Drop)]
pub struct PageMap {
    pub(crate) header: Header,
    pub(crate) opened: Opened,
    pub(crate) cache: Cache,
    // Which pages may have room.
    pub(crate) rooms: Rooms,
    pub(crate) is_live: bool,
    pub(crate) alloc: Global,
    ghost form: { IsPaged header },
}
