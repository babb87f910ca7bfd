//! A file of pages is opened: its journal and its pages are read.
ghost use Rattle.std.specs.Prelude.{◌≡◌, [], List, ℕ, IfOk, IsErrOf};
ghost use Rattle.std.specs.Map.{keys_of};
ghost use Rattle.ode_gate.specs.Headers.{IsOfPages};
ghost use Rattle.ode_host.specs.Causes.{RoseIf};
ghost use Rattle.ode_host.specs.Host.{Looks, Tells};
ghost use Rattle.ode_keep.specs.Entries.{Entries};
ghost use Rattle.ode_paging.specs.Meaning.{HasMap, IsBadJournal, IsBadPage};
ghost use Rattle.ode_keep.specs.Starting.{Refuses, Starts};

use crate::frames::lay_frames;
use crate::images::Images;
use crate::index::Index;
use crate::reading::read_pages;
use crate::rooms::Rooms;
use ode_gate::Header;
use ode_host::Host;
use ode_journal::Journal;
use ode_keep::StartError;
use std::alloc::Global;

/// What a keeper knows of a file: the images that its pages have in the journal and where this ends, how many pages there
/// are, in which each key stands, how many bytes the records count, and how many of them are entries of the queue.
#[derive(Drop)]
pub struct Opened {
    /// Where the journal ends.
    pub journal: Journal,
    /// The images that pages have in the journal.
    pub images: Images,
    /// How many pages there are.
    pub count: u64,
    /// In which page each key stands.
    pub index: Index,
    /// How many bytes the records count.
    pub bytes: u64,
    /// How many of the records are entries of the queue.
    pub queued: u64,
}

impl Opened {
    ghost use Rattle.ode_paging.specs.Opening.{OpensAs};

    // Reads the journal, and then the pages, of which it tells how much room they have.
    fn read<H: Host>(
        alloc: Global,
        host: &mut H,
        h: &Header,
        rooms: &mut Rooms,
    ) -> Result<Opened, StartError>
        requires { IsOfPages h.now }
        ensures found { IfOk result (λ opened. (file : List ℕ) → Tells (H.view host.old) file
            → (entries : Entries) × OpensAs h.now file opened entries) }
        ensures bad_journal { (at : ℕ) → IsErrOf result (StartError.BadJournal at)
            → (file : List ℕ) → Tells (H.view host.old) file → IsBadJournal h.now file at }
        ensures bad_page { (page : ℕ) → IsErrOf result (StartError.BadPage page)
            → (file : List ℕ) → Tells (H.view host.old) file → IsBadPage h.now file page }
        ensures looks { Looks (H.view host.old) (H.view host.new) }
        ensures cause { RoseIf (IsErrOf result StartError.DiskFault) (H.view host.old).disk_faults (H.view host.new).disk_faults }
    {
        let mut images = Images::new(alloc);
        let journal = lay_frames(alloc, host, h.journal_at, h.journal_end, &mut images)?;
        let count = images.page_count(h.body_len);
        let mut index = Index::new(alloc);
        let sums = read_pages(host, h, &images, count, &mut index, rooms)?;
        Ok(Opened {
            journal,
            images,
            count,
            index,
            bytes: sums.bytes,
            queued: sums.queued,
        })
    }

    /// Opens a file under this header. It takes memory for the images of the journal, one frame at a time, and for the
    /// keys. It is `BadJournal` at the first gate of the journal at which something is wrong; and where the journal is
    /// whole, `BadPage` at the first page that isn't there, or isn't in its form, or has a key of a page before it. It tells how
    /// much room the pages have.
    pub fn open<H: Host>(
        alloc: Global,
        host: &mut H,
        h: &Header,
        rooms: &mut Rooms,
    ) -> Result<Opened, StartError>
        requires { IsOfPages h.now }
        ensures found { IfOk result (λ opened. (file : List ℕ) → Tells (H.view host.old) file
            → (entries : Entries) × OpensAs h.now file opened entries) }
        ensures keys { IfOk result (λ opened. (file : List ℕ) (entries : Entries) → Tells (H.view host.old) file
            → HasMap h.now file entries → keys_of opened.index ≡ keys_of entries) }
        ensures bad_journal { (at : ℕ) → IsErrOf result (StartError.BadJournal at)
            → (file : List ℕ) → Tells (H.view host.old) file → IsBadJournal h.now file at }
        ensures bad_page { (page : ℕ) → IsErrOf result (StartError.BadPage page)
            → (file : List ℕ) → Tells (H.view host.old) file → IsBadPage h.now file page }

        // What the file is decides the answer, unless the outside fails.
        ensures whole { (file : List ℕ) (entries : Entries) → Tells (H.view host.old) file
            → HasMap h.now file entries → Starts result }
        ensures broken_journal { (file : List ℕ) (at : ℕ) → Tells (H.view host.old) file
            → IsBadJournal h.now file at → Refuses result (StartError.BadJournal at) }
        ensures broken_page { (file : List ℕ) (page : ℕ) → Tells (H.view host.old) file
            → IsBadPage h.now file page → Refuses result (StartError.BadPage page) }
        ensures looks { Looks (H.view host.old) (H.view host.new) }
        ensures cause { RoseIf (IsErrOf result StartError.DiskFault) (H.view host.old).disk_faults (H.view host.new).disk_faults }
    {
        Opened::read(alloc, host, h, rooms)
    }
}
