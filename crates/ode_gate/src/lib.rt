//! Gates and header slots: after a stop the old header counts, or the new one.
#![tactic(auto)]

mod change;
mod error;
mod gate;
mod header;
mod places;
mod reading;
mod slot;

pub use change::{change_header, close_slot, fill_slot, open_slot};
pub use error::GateError;
pub use gate::{OPEN, SHUT};
pub use header::{Header, next_generation};
pub use places::{
    AREA_0, AREA_1, AREA_LEN, AREAS_END, FIRST_FORMAT, FORMAT, FORMAT_AT, GENERATIONS, HEADER_LEN,
    MAX_PAGES, PAGE_LEN, PAGES, PAGES_AT, REGION_0, REGION_1, REGION_LEN, SLOT_LEN, SLOT_STEP,
    SLOTS_END, TWO_AREAS,
};
pub use reading::read_header;
pub use slot::Slot;
