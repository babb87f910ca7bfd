//! Where the parts of a file stand, and how long they are, in bytes.

/// The first format: two areas, or pages.
pub const FIRST_FORMAT: u32 = 1;

/// The last format that is known: pages alone.
pub const FORMAT: u32 = 2;

/// The layout of two areas.
pub const TWO_AREAS: u32 = 1;

/// The layout of pages.
pub const PAGES: u32 = 2;

/// How many generations there are: they run from 1 to this one, and then from 1 again.
pub const GENERATIONS: u64 = 3;

/// A header behind its gate.
pub const HEADER_LEN: usize = 56;

/// A header slot: a gate and a header.
pub const SLOT_LEN: usize = 1 + HEADER_LEN;

/// Where the format stands in a slot.
pub const FORMAT_AT: usize = 9;

/// How far the slots stand apart.
pub const SLOT_STEP: u64 = 2_048;

/// Where the slots' part of the file ends.
pub const SLOTS_END: u64 = 4_096;

/// An area of layout 1.
pub const AREA_LEN: u64 = 33_554_432;

/// Where area 0 starts.
pub const AREA_0: u64 = SLOTS_END;

/// Where area 0 ends and area 1 starts.
pub const AREA_1: u64 = AREA_0 + AREA_LEN;

/// Where area 1 ends.
pub const AREAS_END: u64 = AREA_1 + AREA_LEN;

/// A journal's region of layout 2.
pub const REGION_LEN: u64 = 16_777_216;

/// Where region 0 starts.
pub const REGION_0: u64 = SLOTS_END;

/// Where region 0 ends and region 1 starts.
pub const REGION_1: u64 = REGION_0 + REGION_LEN;

/// Where region 1 ends and page 0 starts.
pub const PAGES_AT: u64 = REGION_1 + REGION_LEN;

/// A page of layout 2.
pub const PAGE_LEN: u64 = 4_096;

/// How many pages there are at most.
pub const MAX_PAGES: u64 = u32::MAX as u64;
