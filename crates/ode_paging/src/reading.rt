//! All pages are read: their keys lead to them, and their records are summed up.
ghost use Rattle.std.specs.Prelude.{◌≡◌, ◌≤◌, ◌^◌, [], List, ℕ, IfOk, IsErrOf};
ghost use Rattle.ode_gate.specs.Headers.{IsOfPages};
ghost use Rattle.ode_host.specs.Causes.{RoseIf};
ghost use Rattle.ode_host.specs.Host.{Looks, Tells};
ghost use Rattle.ode_paging.specs.Pageful.{AreRead, StopsAt};

use crate::images::Images;
use crate::index::Index;
use crate::pages::read_page;
use crate::rooms::Rooms;
use crate::sums::Sums;
use ode_gate::Header;
use ode_host::Host;
use ode_keep::StartError;

/// Reads so many pages from the first one on, leads their keys to them, sums their records up, and tells how much room each has. It is
/// `BadPage` at the first one, in order, that isn't there, or isn't in its form, or has a key of a page before it.
pub(crate) fn read_pages<H: Host>(
    host: &mut H,
    header: &Header,
    images: &Images,
    count: u64,
    index: &mut Index,
    rooms: &mut Rooms,
) -> Result<Sums, StartError>
    requires pages { IsOfPages header.now }
    requires few { count ≤ 2 ^ 32 }
    requires empty { index.old ≡ [] }
    ensures read { IfOk result (λ sums. AreRead (H.view host.old) header.now images.now count index.new sums) }
    ensures bad { (page : ℕ) → IsErrOf result (StartError.BadPage page)
        → StopsAt (H.view host.old) header.now images.now count page }
    ensures no_journal { (at : ℕ) → IsErrOf result (StartError.BadJournal at) → ⊥ }
    ensures looks { Looks (H.view host.old) (H.view host.new) }
    ensures cause { RoseIf (IsErrOf result StartError.DiskFault) (H.view host.old).disk_faults (H.view host.new).disk_faults }
{
    let mut sums = Sums::none();
    let mut page = 0;
    'pages: while page < count {
        let number = page as u32;
        let Some(entries) = read_page(host, header, images, number)? else {
            return Err(StartError::BadPage { page: number });
        };
        if !index.add(&entries, number)? {
            return Err(StartError::BadPage { page: number });
        }
        sums.add(&entries);
        let _ = rooms.tell(number, entries.room() as u32);
        page += 1;
    }
    Ok(sums)
}
