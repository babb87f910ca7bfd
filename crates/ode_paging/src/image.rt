//! Images of pages, as they stand in a payload.
ghost use Rattle.std.specs.Prelude.{◌≡◌, ◌+◌, ◌<◌, ◌≤◌, ◌^◌, ◌++◌, ◌↔◌, List, ℕ, length, take, IsTrue};
ghost use Rattle.std.specs.Option.{IfNone, IfSome};
ghost use Rattle.std.specs.Ordering.{nat_cmp};
ghost use Rattle.ode_keep.specs.Rising.{MayFollow};
ghost use Rattle.ode_paging.specs.Images.{FitsImage, Image, image_bytes};

use ode_gate::PAGE_LEN;
use ode_host::{take_u16, take_u32};

/// What stands in front of an image's bytes, in bytes: the number of its page, and how many bytes they are.
pub const IMAGE_HEAD: usize = 6;

/// An image in some bytes, and what stands behind it.
#[derive(Clone, Copy, Debug)]
pub(crate) struct FirstImage<'a> {
    pub(crate) page: u32,
    pub(crate) used: &'a [u8],
    pub(crate) rest: &'a [u8],
}

// The image that the bytes begin with, and none where they begin with none.
fn first_image(bytes: &[u8]) -> Option<FirstImage<'_>>
    ensures some { IfSome result (λ x. FitsImage (x.page, x.used.now)
        × (bytes.now ≡ image_bytes (x.page, x.used.now) ++ x.rest.now)) }
    ensures none { IfNone result ((i : Image) (rest : List ℕ) → FitsImage i → bytes.now ≡ image_bytes i ++ rest → ⊥) }
{
    let page = take_u32(bytes, 0)?;
    let length = usize::from(take_u16(bytes, 4)?);
    if length > PAGE_LEN as usize {
        return None;
    }
    let (_, rest) = bytes.split_at(IMAGE_HEAD);
    if rest.len() < length {
        return None;
    }
    let (used, rest) = rest.split_at(length);
    Some(FirstImage { page, used, rest })
}

// Whether a page may come behind the last one.
fn may_follow(last: Option<u32>, page: u32) -> bool
    ensures { IsTrue result ↔ MayFollow nat_cmp last page }
{
    match last {
        None => true,
        Some(last) => last.cmp(&page).is_lt(),
    }
}

/// The image that the bytes begin with, where its page may come behind the last one.
pub(crate) fn next_image(bytes: &[u8], last: Option<u32>) -> Option<FirstImage<'_>>
    ensures some { IfSome result (λ x. FitsImage (x.page, x.used.now)
        × (bytes.now ≡ image_bytes (x.page, x.used.now) ++ x.rest.now)) }
    ensures follows { IfSome result (λ x. MayFollow nat_cmp last x.page) }
    ensures none { IfNone result ((i : Image) (rest : List ℕ) → FitsImage i → MayFollow nat_cmp last i.0
        → bytes.now ≡ image_bytes i ++ rest → ⊥) }
{
    let image = first_image(bytes)?;
    if !may_follow(last, image.page) {
        return None;
    }
    Some(image)
}
