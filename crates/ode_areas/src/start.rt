//! A keeper is started over a file.
ghost use Rattle.std.specs.Prelude.{◌≡◌, [], IfOk, IsErrOf, IsTrue, List, OnOk, length, ℕ};
ghost use Rattle.ode_gate.specs.Headers.{IsHeader, IsOfAreas};
ghost use Rattle.ode_gate.specs.Slots.{Counts};
ghost use Rattle.ode_host.specs.Causes.{RoseIf};
ghost use Rattle.ode_host.specs.Host.{Looks, Stands, Tells};
ghost use Rattle.ode_keep.specs.Entries.{Entries, record_bytes};
ghost use Rattle.ode_areas.specs.Holding.{AreasHold, held_bytes, is_live};
ghost use Rattle.ode_areas.specs.Image.{HasMap, IsBadAt, IsBadBody, body_of};
ghost use Rattle.ode_keep.specs.Snapshots.{IsSnapshot};
ghost use Rattle.ode_keep.specs.Starting.{Refuses, Starts};

use crate::areas::Areas;
use crate::frames::replay_frames;
use crate::map::Map;
use crate::snapshot::load_rows;
use ode_gate::{Header, TWO_AREAS};
use ode_host::{Host, read_whole};
use ode_keep::StartError;
use std::alloc::Global;

// Puts the records of the snapshot into an empty map.
fn load_body<H: Host>(
    alloc: Global,
    host: &mut H,
    h: &Header,
    map: &mut Map,
) -> Result<(), StartError>
    requires areas { IsOfAreas h.now }
    requires empty { map.old ≡ [] }
    ensures found { OnOk result ((file : List ℕ) → Tells (H.view host.old) file
        → IsSnapshot map.new (body_of h.now file) × (length (body_of h.now file) ≡ h.now.body_len)) }
    ensures bad { (at : ℕ) → IsErrOf result (StartError.BadJournal at)
        → (file : List ℕ) → Tells (H.view host.old) file → IsBadBody h.now file at }
    ensures no_page { (page : ℕ) → IsErrOf result (StartError.BadPage page) → ⊥ }
    ensures looks { Looks (H.view host.old) (H.view host.new) }
    ensures cause { RoseIf (IsErrOf result StartError.DiskFault) (H.view host.old).disk_faults (H.view host.new).disk_faults }
{
    let mut body = vec![in alloc; 0; h.body_len as usize]?;
    let count = read_whole(host, h.body_at, &mut body)?;
    match load_rows(alloc, &body[..count], body.len(), map)? {
        None => Ok(()),
        Some(behind) => Err(StartError::BadJournal {
            at: h.body_at + behind as u64,
        }),
    }
}

impl Areas {
    /// Starts a keeper with the records that the file has under this header. Takes memory for the snapshot, for one
    /// frame at a time and for the records. It is `BadJournal` at the first record of the snapshot or the first gate of
    /// the journal, in order, at which something is wrong, and never `BadPage`.
    pub fn start<H: Host>(alloc: Global, host: &mut H, h: &Header) -> Result<Areas, StartError>
        requires rules { IsHeader h.now }
        requires areas { h.now.layout ≡ TWO_AREAS }
        ensures found { IfOk result (λ _. (file : List ℕ) → Tells (H.view host.old) file
            → (entries : Entries) × HasMap h.now file entries) }
        ensures holds { IfOk result (λ keeper. (file : List ℕ) (entries : Entries) → Stands file (H.view host.old)
            → Counts file h.now → HasMap h.now file entries → AreasHold keeper (H.view host.new) entries) }
        ensures bytes { IfOk result (λ keeper. (file : List ℕ) (entries : Entries) → Tells (H.view host.old) file
            → HasMap h.now file entries → held_bytes keeper ≡ record_bytes entries) }
        ensures live { IfOk result (λ keeper. IsTrue (is_live keeper)) }
        ensures bad { (at : ℕ) → IsErrOf result (StartError.BadJournal at)
            → (file : List ℕ) → Tells (H.view host.old) file → IsBadAt h.now file at }
        ensures no_page { (page : ℕ) → IsErrOf result (StartError.BadPage page) → ⊥ }

        // What the file is decides the answer, unless the outside fails.
        ensures whole { (file : List ℕ) (entries : Entries) → Tells (H.view host.old) file
            → HasMap h.now file entries → Starts result }
        ensures broken { (file : List ℕ) (at : ℕ) → Tells (H.view host.old) file
            → IsBadAt h.now file at → Refuses result (StartError.BadJournal at) }
        ensures looks { Looks (H.view host.old) (H.view host.new) }
        ensures cause { RoseIf (IsErrOf result StartError.DiskFault) (H.view host.old).disk_faults (H.view host.new).disk_faults }
    {
        let mut map = Map::new(alloc);
        load_body(alloc, host, h, &mut map)?;
        let journal = replay_frames(alloc, host, h.journal_at, h.journal_end, &mut map)?;
        Ok(Areas {
            header: *h,
            journal,
            map,
            is_live: true,
            alloc,
        })
    }
}
