//! Images are written to the places of their pages.
ghost use Rattle.std.specs.Prelude.{◌≡◌, ◌*◌, ◌≤◌, List, ℕ, length, IsErr, OnOk};
ghost use Rattle.std.specs.List.{AllByRecursion};
ghost use Rattle.ode_host.specs.Causes.{RoseIf};
ghost use Rattle.ode_host.specs.Host.{DiskCalls, Elapses, LeavesOnly, Puts, Stands, Tells, TornWrite, Wrote};
ghost use Rattle.ode_paging.specs.Images.{IsShortImage};
ghost use Rattle.ode_paging.specs.Standing.{filled};
ghost use Rattle.ode_pagemap.specs.Placing.{ArePlaced, LeavesBeside, place_at};

use ode_gate::{PAGE_LEN, PAGES_AT};
use ode_host::{Failed, Host, put_over};
use ode_paging::{Images, PAGE_SIZE};
use ode_value::List;

// The bytes of a page that begins so: zeros alone, where that is too long for a page.
fn page_bytes(used: &[u8]) -> [u8; PAGE_SIZE]
    ensures { length used.now ≤ PAGE_LEN → result ≡ filled used.now }
{
    let mut bytes = [0; PAGE_SIZE];
    if used.len() > PAGE_SIZE {
        return bytes;
    }
    put_over(&mut bytes, 0, used);
    bytes
}

// Writes an image, filled with zeros, to the place of its page.
fn write_image<H: Host>(host: &mut H, page: u32, used: &List<u8>) -> Result<(), Failed>
    ensures wrote { OnOk result (length used.now ≤ PAGE_LEN
        → Wrote (place_at page) (filled used.now) (H.view host.old) (H.view host.new)) }
    ensures time { Elapses (TornWrite (place_at page) PAGE_LEN) (H.view host.old) (H.view host.new) }
    ensures puts { Puts PAGE_LEN (H.view host.old) (H.view host.new) }
    ensures cause { RoseIf (IsErr result) (H.view host.old).disk_faults (H.view host.new).disk_faults }
{
    let bytes = page_bytes(used.as_slice());
    host.write_at(PAGES_AT + PAGE_LEN * u64::from(page), &bytes)
}

// Writes images to the places of their pages, without a sync.
fn write_images<H: Host>(host: &mut H, images: &Images) -> Result<(), Failed>
    ensures placed { OnOk result ((file : List ℕ) → Tells (H.view host.old) file → AllByRecursion IsShortImage images.now
        → (next : List ℕ) × Tells (H.view host.new) next × ArePlaced images.now file next) }
    ensures any_moment { (file : List ℕ) → Stands file (H.view host.old)
        → LeavesOnly (H.view host.old) (H.view host.new) (LeavesBeside images.now file (H.view host.old)) }
    ensures now { (file : List ℕ) → Stands file (H.view host.old) → (c o : List ℕ)
        → (H.view host.new).left (H.view host.new).moment c o → LeavesBeside images.now file (H.view host.old) c o }
    ensures puts { OnOk result (Puts (PAGE_LEN * length images.now) (H.view host.old) (H.view host.new)) }
    ensures leaves { DiskCalls (IsErr result) (H.view host.old) (H.view host.new) }
{
    for (page, used) in images.iter() {
        write_image(host, *page, used)?;
    }
    Ok(())
}

/// Writes images, each filled with zeros, to the places of their pages, and syncs. A stop leaves any bytes in these places,
/// and the rest of the file as it was.
pub(crate) fn place_images<H: Host>(host: &mut H, images: &Images) -> Result<(), Failed>
    ensures placed { OnOk result ((file : List ℕ) → Tells (H.view host.old) file → AllByRecursion IsShortImage images.now
        → (next : List ℕ) × Stands next (H.view host.new) × ArePlaced images.now file next) }
    ensures any_moment { (file : List ℕ) → Stands file (H.view host.old)
        → LeavesOnly (H.view host.old) (H.view host.new) (LeavesBeside images.now file (H.view host.old)) }
    ensures puts { OnOk result (Puts (PAGE_LEN * length images.now) (H.view host.old) (H.view host.new)) }
    ensures leaves { DiskCalls (IsErr result) (H.view host.old) (H.view host.new) }
{
    write_images(host, images)?;
    host.sync()
}
