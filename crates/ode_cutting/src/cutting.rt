//! A snapshot is cut into pages.
ghost use Rattle.std.specs.Prelude.{◌≡◌, ◌+◌, ◌≤◌, ◌++◌, length, IfOk, OnOk};
ghost use Rattle.std.specs.List.{AllByRecursion};
ghost use Rattle.std.specs.Option.{IfNone, IfSome};
ghost use Rattle.ode_keep.specs.Entries.{Entries};
ghost use Rattle.ode_keep.specs.Snapshots.{IsSnapshot};
ghost use Rattle.ode_paging.specs.Images.{image_bytes};
ghost use Rattle.ode_value.specs.Records.{snapshot};
ghost use Rattle.ode_cutting.specs.Cutting.{AreImagesOf, HasRoom, image_with};

use crate::front::{PAGE_ROOM, front_of};
use ode_host::{put_u16, put_u32};
use ode_pages::COUNT_LEN;
use std::alloc::{AllocError, Global};

/// Pages from page 0 on: how many they are, and their images one behind the other, as a payload has them.
#[derive(Drop)]
pub(crate) struct Pages {
    pub(crate) count: u32,
    pub(crate) images: Vec<u8>,
}

// Puts the image of a page with so many records, which have these bytes, behind others.
fn put_image(images: &mut Vec<u8>, page: u32, rows: u16, bytes: &[u8]) -> Result<(), AllocError>
    requires { length bytes.now ≤ PAGE_ROOM }
    ensures { OnOk result ((es : Entries) → rows ≡ length es → bytes.now ≡ snapshot es
        → images.new.items ≡ images.old.items ++ image_bytes (image_with page es)) }
{
    let used = COUNT_LEN + bytes.len();
    put_u32(images, page)?;
    put_u16(images, used as u16)?;
    put_u16(images, rows)?;
    images.extend_from_slice(bytes)?;
    Ok(())
}

impl Pages {
    // One page more, with so many records, which have these bytes.
    fn add(&mut self, rows: u16, bytes: &[u8]) -> Result<(), AllocError>
        requires { length bytes.now ≤ PAGE_ROOM }
        ensures counted { OnOk result (self.new.count ≡ self.old.count + 1) }
        ensures put { OnOk result ((es : Entries) → rows ≡ length es → bytes.now ≡ snapshot es
            → self.new.images.items ≡ self.old.images.items ++ image_bytes (image_with self.old.count es)) }
    {
        let Some(count) = self.count.checked_add(1) else {
            return Err(AllocError);
        };
        put_image(&mut self.images, self.count, rows, bytes)?;
        self.count = count;
        Ok(())
    }
}

/// The pages of a snapshot, each with as many records as it has room for. None where a record is too long for a page.
pub(crate) fn cut(alloc: Global, bytes: &[u8]) -> Result<Option<Pages>, AllocError>
    ensures whole { IfOk result (λ found. IfSome found (λ pages. (entries : Entries) → IsSnapshot entries bytes.now
        → AreImagesOf entries pages)) }
    ensures long { IfOk result (λ found. IfNone found ((entries : Entries) → IsSnapshot entries bytes.now
        → AllByRecursion HasRoom entries → ⊥)) }
{
    let images = Vec::new(alloc);
    let mut pages = Pages { count: 0, images };
    let mut rest = bytes;
    'pages: while rest.len() > 0 {
        let front = front_of(rest);
        if front.bytes == 0 {
            return Ok(None);
        }
        let (page, behind) = rest.split_at(front.bytes);
        pages.add(front.rows, page)?;
        rest = behind;
    }
    Ok(Some(pages))
}
