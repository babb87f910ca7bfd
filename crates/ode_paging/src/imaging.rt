//! The pages in hand become images, and what room they have.
ghost use Rattle.std.specs.Prelude.{◌≡◌, ◌≤◌, length, IfOk};
ghost use Rattle.ode_gate.specs.declared.places.TheConstants.{PAGE_LEN};
ghost use Rattle.ode_pages.specs.Pages.{IsPage};
ghost use Rattle.ode_paging.specs.Imaging.{AreImages, rooms_in};
ghost use Rattle.ode_paging.specs.Standing.{filled};

use crate::hand::Hand;
use crate::images::Images;
use crate::pages::{PAGE_SIZE, Page};
use ode_value::List;
use std::alloc::{AllocError, Global};

// The bytes of a page up to the end of its entries.
fn used_bytes(page: &Page) -> &[u8]
    ensures page { IsPage PAGE_LEN page.now (filled result.now) }
    ensures short { length result.now ≤ PAGE_LEN }
{
    let bytes = &page.bytes()[..];
    &bytes[..PAGE_SIZE - page.room()]
}

/// A page and how many bytes are free in it.
pub type PageRoom = (u32, u32);

/// The images of the pages in hand.
pub(crate) fn images_of(alloc: Global, hand: &Hand) -> Result<Images, AllocError>
    ensures { IfOk result (λ images. AreImages hand.now.pages.entries images) }
{
    let mut images = Images::new(alloc);
    for (page, entries) in hand.pages.iter() {
        let used = List::from_slice(alloc, used_bytes(entries))?;
        images.put(*page, used)?;
    }
    Ok(images)
}

/// How much room the pages in hand have.
pub(crate) fn rooms_of(alloc: Global, hand: &Hand) -> Result<Vec<PageRoom>, AllocError>
    ensures { IfOk result (λ rooms. rooms.items ≡ rooms_in hand.now.pages.entries) }
{
    let mut rooms = Vec::new(alloc);
    for (page, entries) in hand.pages.iter() {
        rooms.push((*page, entries.room() as u32))?;
    }
    Ok(rooms)
}
