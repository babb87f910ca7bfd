//! The images of a payload are laid over others.
ghost use Rattle.std.specs.Prelude.{◌≡◌, List, IfOk};
ghost use Rattle.std.specs.Bool.{OnFalse, OnTrue};
ghost use Rattle.ode_paging.specs.Images.{Image, IsPayload};
ghost use Rattle.ode_paging.specs.Overlays.{laid};

use crate::image::next_image;
use crate::images::Images;
use ode_host::take_u32;
use ode_keep::COUNT_LEN;
use ode_value::List;
use std::alloc::{AllocError, Global};

/// Lays the images of a payload over others, and answers whether it has their form. Where it hasn't, some of them may
/// be laid.
pub(crate) fn lay(alloc: Global, payload: &[u8], images: &mut Images) -> Result<bool, AllocError>
    ensures whole { IfOk result (λ b. OnTrue b ((over : List Image) × IsPayload over payload.now
        × (images.new ≡ laid over images.old))) }
    ensures other { IfOk result (λ b. OnFalse b ((over : List Image) → IsPayload over payload.now → ⊥)) }
{
    let Some(count) = take_u32(payload, 0) else {
        return Ok(false);
    };
    let (_, mut rest) = payload.split_at(COUNT_LEN);
    let mut last = None;
    let mut made = 0;
    'images: while made < count {
        let Some(image) = next_image(rest, last) else {
            return Ok(false);
        };
        let used = List::from_slice(alloc, image.used)?;
        images.put(image.page, used)?;
        rest = image.rest;
        last = Some(image.page);
        made += 1;
    }
    Ok(rest.is_empty())
}
