//! What a file of pages says, and what a commit would change in it.
#![tactic(auto)]

mod changing;
mod encode;
mod frames;
mod hand;
mod image;
mod images;
mod imaging;
mod index;
mod laws;
mod making;
mod opening;
mod pages;
mod payload;
mod planning;
mod reading;
mod rooms;
mod sums;

pub use encode::{MAX_IMAGES, payload_length};
pub use image::IMAGE_HEAD;
pub use images::Images;
pub use imaging::PageRoom;
pub use index::Index;
pub use laws::{each_key_leads, images_lay_pages, one_map, one_page_changes, one_payload};
pub use making::Source;
pub use opening::Opened;
pub use pages::{PAGE_SIZE, Page, read_page};
pub use planning::{Counts, Move, Plan, plan_batch};
pub use rooms::Rooms;
