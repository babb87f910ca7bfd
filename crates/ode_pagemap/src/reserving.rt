//! The images in memory change with a commit, or not at all.
ghost use Rattle.std.specs.Prelude.{◌≡◌, ◌++◌, [], ◌∷◌, reverse, OnErr, OnOk};
ghost use Rattle.std.specs.BTreeMap.{insert_entry};
ghost use Rattle.std.specs.Ordering.{nat_cmp};
ghost use Rattle.ode_paging.specs.Images.{HasRisingPages};
ghost use Rattle.ode_paging.specs.Overlays.{laid};
ghost use Rattle.ode_pagemap.specs.Reserving.{HasImage, HaveImages, ImageList, bared};

use ode_paging::Images;
use ode_value::List;
use std::alloc::{AllocError, Global};

// A page has this image from then on, and is noted. Where there is no memory nothing changes.
fn add_noted(
    images: &mut Images,
    added: &mut Vec<u32>,
    page: u32,
    used: List<u8>,
) -> Result<(), AllocError>
    ensures put { OnOk result (images.new ≡ insert_entry nat_cmp images.old page used) }
    ensures noted { OnOk result (added.new.items ≡ added.old.items ++ page ∷ []) }
    ensures same { OnErr result (images.new ≡ images.old) }
    ensures no_note { OnErr result (added.new.items ≡ added.old.items) }
    ensures rising { HasRisingPages images.old }
{
    // The pages rise, as this call tells.
    let _ = images.len();
    added.push(page)?;
    if images.put(page, used).is_err() {
        let _ = added.pop();
        return Err(AllocError);
    }
    Ok(())
}

// A page that has no image gets an empty one, and is noted.
fn room_for(
    alloc: Global,
    images: &mut Images,
    added: &mut Vec<u32>,
    page: u32,
) -> Result<(), AllocError>
    ensures room { OnOk result (HasImage images.new page) }
    ensures kept { OnOk result ((over : ImageList) → HaveImages over images.old → HaveImages over images.new) }
    ensures same { OnOk result ((over : ImageList) → HasRisingPages over → HasImage over page
        → laid over images.new ≡ laid over images.old) }
    ensures back { (old : ImageList) → bared (reverse added.old.items) images.old ≡ old
        → bared (reverse added.new.items) images.new ≡ old }
{
    match images.get(page) {
        Some(_) => Ok(()),
        None => add_noted(images, added, page, List::new(alloc)),
    }
}

/// The pages of these images that have none among the others get empty ones, and are noted.
pub(crate) fn reserve_images(
    alloc: Global,
    images: &mut Images,
    added: &mut Vec<u32>,
    over: &Images,
) -> Result<(), AllocError>
    ensures room { OnOk result (HaveImages over.now images.new) }
    ensures same { OnOk result (laid over.now images.new ≡ laid over.now images.old) }
    ensures back { (old : ImageList) → bared (reverse added.old.items) images.old ≡ old
        → bared (reverse added.new.items) images.new ≡ old }
{
    for (page, _used) in over.iter() {
        room_for(alloc, images, added, *page)?;
    }
    Ok(())
}

/// The pages that were noted have no images again.
pub(crate) fn bare(images: &mut Images, added: &mut Vec<u32>)
    ensures { images.new ≡ bared (reverse added.old.items) images.old }
{
    while let Some(page) = added.pop() {
        images.remove(page);
    }
}

/// Images are laid over those of their pages. It takes no memory, since each of these pages has an image.
pub(crate) fn lay_over(images: &mut Images, over: Images)
    requires { HaveImages over images.old }
    ensures { images.new ≡ laid over images.old }
{
    for (page, used) in over.into_iter() {
        images.put_again(page, used);
    }
}
