//! Images are spelled as a frame. All memory is taken beforehand.
ghost use Rattle.std.specs.Prelude.{◌≡◌, ◌+◌, ◌≤◌, length, IfOk};
ghost use Rattle.std.specs.List.{AllByRecursion};
ghost use Rattle.ode_gate.specs.declared.places.TheConstants.{REGION_LEN};
ghost use Rattle.ode_journal.specs.Appends.{need_of};
ghost use Rattle.ode_journal.specs.Filling.{filled_by};
ghost use Rattle.ode_paging.specs.Images.{FitsImage, IsPayload, IsShortImage, image_bytes, payload_of};

use crate::image::IMAGE_HEAD;
use crate::images::Images;
use ode_gate::PAGE_LEN;
use ode_journal::Frame;
use ode_keep::{COUNT_LEN, MAX_CHANGES};
use ode_value::List;
use std::alloc::{AllocError, Global};

/// Images in a frame, at most: two for each change of a batch.
pub const MAX_IMAGES: usize = 2 * MAX_CHANGES;

/// Bytes of the images in a frame and their number, at most.
pub const MAX_IMAGES_LEN: usize = COUNT_LEN + MAX_IMAGES * (IMAGE_HEAD + PAGE_LEN as usize);

/// The length of the payload that images make, in bytes.
pub fn payload_length(images: &Images) -> u32
    requires few { length images.now ≤ MAX_IMAGES }
    requires short { AllByRecursion IsShortImage images.now }
    ensures exact { result ≡ length (payload_of images.now) }
    ensures small { result ≤ MAX_IMAGES_LEN }
{
    let mut length = COUNT_LEN as u32;
    for (_, used) in images.iter() {
        length += IMAGE_HEAD as u32 + used.len() as u32;
    }
    length
}

// Adds an image to a frame.
fn push_image(frame: &mut Frame, page: u32, used: &List<u8>)
    requires room { length (image_bytes (page, used.now)) ≤ frame.old.spare }
    requires short { length used.now ≤ PAGE_LEN }
    ensures pushed { frame.new ≡ filled_by frame.old (image_bytes (page, used.now)) }
    ensures fits { FitsImage (page, used.now) }
{
    frame.push(&page.to_be_bytes());
    frame.push(&(used.len() as u16).to_be_bytes());
    frame.push(used.as_slice());
}

/// A full frame of these images. It fits an empty region.
pub(crate) fn frame_of(alloc: Global, images: &Images) -> Result<Frame, AllocError>
    requires few { length images.now ≤ MAX_IMAGES }
    requires short { AllByRecursion IsShortImage images.now }
    ensures payload { IfOk result (λ frame. IsPayload images.now frame.payload) }
    ensures full { IfOk result (λ frame. frame.spare ≡ 0) }
    ensures fits { IfOk result (λ frame. need_of frame.payload ≤ REGION_LEN) }
{
    let mut frame = Frame::reserve(alloc, payload_length(images))?;
    frame.push(&(images.len() as u32).to_be_bytes());
    for (page, used) in images.iter() {
        push_image(&mut frame, *page, used);
    }
    Ok(frame)
}
