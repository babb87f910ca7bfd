//! Pages are read: by their images, or in their places.
ghost use Rattle.std.specs.Prelude.{◌≡◌, ◌+◌, ◌<◌, ◌≤◌, ◌^◌, List, ℕ, take, drop, IfOk, IsErr, IsSome};
ghost use Rattle.std.specs.Option.{IfNone, IfSome};
ghost use Rattle.ode_gate.specs.Headers.{IsOfPages};
ghost use Rattle.ode_host.specs.Causes.{RoseIf};
ghost use Rattle.ode_host.specs.Host.{Fetched, FetchedAtMost, Looks, Tells};
ghost use Rattle.ode_keep.specs.Entries.{Entries};
ghost use Rattle.ode_pages.specs.Pages.{IsPage};
ghost use Rattle.ode_paging.specs.Standing.{HasPage, filled, image_of};

use crate::images::Images;
use ode_gate::{Header, PAGE_LEN, PAGES_AT};
use ode_host::{Failed, Host, put_over, read_exact};
use ode_pages::PageOf;

/// How many bytes a page has.
pub const PAGE_SIZE: usize = 4096;

/// A page of the keeper.
pub type Page = PageOf<PAGE_SIZE>;

// The page that begins so, if it is one.
fn page_of(used: &[u8]) -> Option<Page>
    ensures some { IfSome result (λ page. IsPage PAGE_SIZE page (filled used.now)) }
    ensures none { IfNone result ((entries : Entries) → IsPage PAGE_SIZE entries (filled used.now) → ⊥) }
{
    if used.len() > PAGE_SIZE {
        return None;
    }
    let mut bytes = [0; PAGE_SIZE];
    put_over(&mut bytes, 0, used);
    PageOf::read(&bytes)
}

// The page that stands at this place of the file, if one does.
fn page_in_place<H: Host>(host: &mut H, at: u64) -> Result<Option<Page>, Failed>
    requires { at + PAGE_SIZE < 2 ^ 64 }
    ensures some { IfOk result (λ found. IfSome found (λ page. (file : List ℕ) → Tells (H.view host.old) file
        → IsPage PAGE_SIZE page (take PAGE_SIZE (drop at file)))) }
    ensures none { IfOk result (λ found. IfNone found ((file : List ℕ) (entries : Entries) → Tells (H.view host.old) file
        → IsPage PAGE_SIZE entries (take PAGE_SIZE (drop at file)) → ⊥)) }
    ensures looks { Looks (H.view host.old) (H.view host.new) }
    ensures fetched { FetchedAtMost PAGE_SIZE (H.view host.old) (H.view host.new) }
    ensures cause { RoseIf (IsErr result) (H.view host.old).disk_faults (H.view host.new).disk_faults }
{
    let mut bytes = [0; PAGE_SIZE];
    if !read_exact(host, at, &mut bytes)? {
        return Ok(None);
    }
    Ok(PageOf::read(&bytes))
}

/// The page of this number, by its image or in its place, if there is one and it has the form of a page.
pub fn read_page<H: Host>(
    host: &mut H,
    header: &Header,
    images: &Images,
    page: u32,
) -> Result<Option<Page>, Failed>
    ensures some { IfOk result (λ found. IfSome found (λ entries. IsOfPages header.now → (file : List ℕ)
        → Tells (H.view host.old) file → HasPage header.now images.now file page entries)) }
    ensures none { IfOk result (λ found. IfNone found (IsOfPages header.now → (file : List ℕ) (entries : Entries)
        → Tells (H.view host.old) file → HasPage header.now images.now file page entries → ⊥)) }
    ensures looks { Looks (H.view host.old) (H.view host.new) }
    ensures fetched { FetchedAtMost PAGE_SIZE (H.view host.old) (H.view host.new) }
    ensures by_image { IsSome (image_of images.now page) → Fetched 0 (H.view host.old) (H.view host.new) }
    ensures cause { RoseIf (IsErr result) (H.view host.old).disk_faults (H.view host.new).disk_faults }
{
    match images.get(page) {
        Some(used) => Ok(page_of(used.as_slice())),
        None if u64::from(page) < header.body_len => {
            page_in_place(host, PAGES_AT + PAGE_LEN * u64::from(page))
        }
        None => Ok(None),
    }
}
