//! What holds of pages.
ghost use Rattle.std.specs.Prelude.{◌≡◌, ◌≤◌, ℕ, IsSomeAnd};
ghost use Rattle.ode_keep.specs.Entries.{Entries};
ghost use Rattle.ode_pages.specs.Pages.{FitsPage, page_bytes};

use crate::layout::{MAX_SIZE, MIN_SIZE};
use crate::page::PageOf;

/// Two lists of entries that spell the same page are one.
pub fn one_page()
    ensures { (size : ℕ) (entries others : Entries) → FitsPage size entries → FitsPage size others
        → page_bytes size entries ≡ page_bytes size others → entries ≡ others }
{}

/// The bytes of a page read as the page again.
pub fn read_again<const N: usize>(page: &PageOf<N>) -> Option<PageOf<N>>
    requires least { MIN_SIZE ≤ N }
    requires most { N ≤ MAX_SIZE }
    ensures { IsSomeAnd result (λ again. again ≡ page.now) }
{
    PageOf::read(page.bytes())
}
