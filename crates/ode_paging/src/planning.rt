//! What a commit changes, planned in memory: nothing is written yet.
ghost use Rattle.std.specs.Prelude.{◌≡◌, ◌+◌, ◌-◌, ◌<◌, ◌≤◌, ◌*◌, ◌++◌, [], ◌∷◌, List, ℕ, IfOk, IsErrOf, OnOk, Option, length};
ghost use Rattle.std.specs.Map.{keys_of};
ghost use Rattle.std.specs.Option.{IfSome};
ghost use Rattle.ode_gate.specs.Headers.{IsOfPages};
ghost use Rattle.ode_gate.specs.declared.places.TheConstants.{REGION_LEN};
ghost use Rattle.ode_host.specs.Causes.{RoseIf};
ghost use Rattle.ode_host.specs.Host.{Looks, Tells};
ghost use Rattle.ode_journal.specs.Appends.{need_of};
ghost use Rattle.ode_keep.specs.Entries.{Entries, HasRisingKeys, applied, changed, record_bytes, value_under};
ghost use Rattle.ode_keep.specs.Growth.{bytes_of, one_of_kind};
ghost use Rattle.ode_keep.specs.Keeping.{OnDamaged, OnTooLarge};
ghost use Rattle.ode_keep.specs.ShortValues.{HasShortValues};
ghost use Rattle.ode_value.specs.Keys.{entry_kind};
ghost use Rattle.ode_paging.specs.Gathering.{gathered};
ghost use Rattle.ode_paging.specs.Hands.{GrowsBy, HasInHand};
ghost use Rattle.ode_paging.specs.Images.{IsPayload};
ghost use Rattle.ode_paging.specs.Imaging.{AreImages};
ghost use Rattle.ode_paging.specs.Indexing.{indexed};
ghost use Rattle.ode_paging.specs.Making.{AreMade};
ghost use Rattle.ode_paging.specs.Planning.{IsCountOf, IsPlanned};
ghost use Rattle.ode_paging.specs.Replacing.{ArePages};
ghost use Rattle.ode_paging.specs.Standing.{HavePages};

use crate::encode::{MAX_IMAGES, frame_of};
use crate::hand::Hand;
use crate::images::Images;
use crate::imaging::{PageRoom, images_of, rooms_of};
use crate::index::Index;
use crate::making::{Change, Source};
use crate::pages::Page;
use ode_host::Host;
use ode_journal::Frame;
use ode_keep::{Batch, KeepError, MAX_CHANGES, MAX_PAGED_BYTES};
use ode_value::Key;
use std::alloc::{AllocError, Global};
use std::collections::BTreeMap;

/// How many bytes records count, and how many of them are entries of the queue.
#[derive(Clone, Copy)]
pub struct Counts {
    /// How many bytes they count.
    pub bytes: u64,
    /// How many of them are entries of the queue.
    pub queued: u64,
}

// How many entries of the queue a record is that counts so many bytes, or none.
fn one_queued(key: Key, bytes: u64) -> u64
    ensures { (value : Option (List ℕ)) → bytes ≡ bytes_of value → result ≡ one_of_kind entry_kind key value }
{
    if bytes > 0 && key.kind == Key::ENTRY {
        1
    } else {
        0
    }
}

// A number once this is put to it and that taken from it.
fn exchanged(number: u64, put: u64, taken: u64) -> Option<u64>
    ensures { IfSome result (λ after. after ≡ number + put - taken) }
{
    let more = number.checked_add(put)?;
    Some(more.saturating_sub(taken))
}

impl Counts {
    // What the records count once a change was made of the record under a key. None where a number is too great.
    fn after(self, key: Key, change: Change) -> Option<Counts>
        ensures { IfSome result (λ after. (entries : Entries) (value : Option (List ℕ)) → HasRisingKeys entries
            → change.taken ≡ bytes_of (value_under entries key) → change.put ≡ bytes_of value
            → IsCountOf self entries → IsCountOf after (changed entries key value)) }
    {
        let put = one_queued(key, change.put);
        let taken = one_queued(key, change.taken);
        Some(Counts {
            bytes: exchanged(self.bytes, change.put, change.taken)?,
            queued: exchanged(self.queued, put, taken)?,
        })
    }
}

/// A key, and the page to which it leads from then on, if to any.
pub type Move = (Key, Option<u32>);

// Adds a move to others.
fn note(moves: &mut Vec<Move>, key: Key, page: Option<u32>) -> Result<(), AllocError>
    ensures { OnOk result (moves.new.items ≡ moves.old.items ++ (key, page) ∷ []) }
{
    moves.push((key, page))?;
    Ok(())
}

/// Makes the changes of a batch in pages in hand, of which there were none, and in what the records count. Answers where
/// the keys lead then.
pub(crate) fn make_changes<H: Host>(
    alloc: Global,
    host: &mut H,
    source: Source<'_>,
    index: &Index,
    batch: &Batch,
    hand: &mut Hand,
    counts: &mut Counts,
) -> Result<Vec<Move>, KeepError>
    requires pages { IsOfPages source.header.now }
    requires short { HasShortValues batch.now }
    ensures made { IfOk result (λ moves. (pages : List Entries) → ArePages pages → index.now ≡ indexed 0 [] pages
        → HasInHand (H.view host.old) source.entry.header.now source.entry.images.now hand.old pages pages
        → AreMade (H.view host.new) source.entry.header.now source.entry.images.now hand.new pages batch.now moves.items) }
    ensures damaged { OnDamaged result ((pages : List Entries) → ArePages pages → index.now ≡ indexed 0 [] pages
        → HasInHand (H.view host.old) source.entry.header.now source.entry.images.now hand.old pages pages → ⊥) }
    ensures too_large { OnTooLarge result (λ _. ⊥) }
    ensures counted { OnOk result ((pages : List Entries) → ArePages pages → index.now ≡ indexed 0 [] pages
        → HasInHand (H.view host.old) source.entry.header.now source.entry.images.now hand.old pages pages
        → IsCountOf counts.old (gathered [] pages) → IsCountOf counts.new (applied batch.now (gathered [] pages))) }
    ensures keys { IfOk result (λ moves. keys_of moves.items ≡ keys_of batch.now) }
    ensures rising { IfOk result (λ moves. HasRisingKeys moves.items) }
    ensures few { OnOk result (GrowsBy (2 * length batch.now) hand.old hand.new) }
    ensures looks { Looks (H.view host.old) (H.view host.new) }
    ensures cause { RoseIf (IsErrOf result KeepError.DiskFault) (H.view host.old).disk_faults (H.view host.new).disk_faults }
{
    let mut moves = Vec::new(alloc);
    for change in batch.iter() {
        let led = index.page(change.key);
        let made = hand.change(host, source, led, change.key, change.value.as_ref())?;
        let Some(after) = counts.after(change.key, made) else {
            return Err(KeepError::Memory);
        };
        *counts = after;
        note(&mut moves, change.key, made.page)?;
    }
    Ok(moves)
}

/// What a commit is to write and to change: the pages that change, their images and a full frame of them, how much room
/// these pages have, where keys lead then, how many pages there are, and what the records count.
#[derive(Drop)]
pub struct Plan {
    /// Where keys lead then.
    pub moves: Vec<Move>,
    /// The pages that change, as they are then.
    pub pages: BTreeMap<u32, Page>,
    /// The images of the pages that change.
    pub images: Images,
    /// How much room these pages have.
    pub rooms: Vec<PageRoom>,
    /// A full frame of the images.
    pub frame: Frame,
    /// How many pages there are then.
    pub count: u64,
    /// What the records count then.
    pub counts: Counts,
}

/// Plans the changes of a batch in a file of so many pages, whose records count this. The frame fits an empty region.
pub fn plan_batch<H: Host>(
    alloc: Global,
    host: &mut H,
    source: Source<'_>,
    index: &Index,
    count: u64,
    counts: Counts,
    batch: &Batch,
) -> Result<Plan, KeepError>
    requires pages { IsOfPages source.header.now }
    requires few { length batch.now ≤ MAX_CHANGES }
    requires short { HasShortValues batch.now }
    ensures planned { IfOk result (λ plan. (file : List ℕ) (pages : List Entries) → Tells (H.view host.old) file
        → HavePages source.entry.header.now source.entry.images.now file 0 pages → ArePages pages → count ≡ length pages
        → index.now ≡ indexed 0 [] pages
        → IsPlanned source.entry.header.now source.entry.images.now file pages batch.now plan) }
    ensures keys { IfOk result (λ plan. keys_of plan.moves.items ≡ keys_of batch.now) }
    ensures rising { IfOk result (λ plan. HasRisingKeys plan.moves.items) }
    ensures pages { IfOk result (λ plan. AreImages plan.pages.entries plan.images) }
    ensures few_images { IfOk result (λ plan. length plan.images ≤ MAX_IMAGES) }
    ensures two_each { IfOk result (λ plan. length plan.images ≤ 2 * length batch.now) }
    ensures counted { IfOk result (λ plan. (file : List ℕ) (pages : List Entries) → Tells (H.view host.old) file
        → HavePages source.entry.header.now source.entry.images.now file 0 pages → ArePages pages → count ≡ length pages
        → index.now ≡ indexed 0 [] pages
        → IsCountOf counts (gathered [] pages) → IsCountOf plan.counts (applied batch.now (gathered [] pages))) }
    ensures within { IfOk result (λ plan. plan.counts.bytes ≤ MAX_PAGED_BYTES) }
    ensures rooms { IfOk result (λ plan. keys_of plan.rooms.items ≡ keys_of plan.images) }
    ensures payload { IfOk result (λ plan. IsPayload plan.images plan.frame.payload) }
    ensures full { IfOk result (λ plan. plan.frame.spare ≡ 0) }
    ensures fits { IfOk result (λ plan. need_of plan.frame.payload ≤ REGION_LEN) }
    ensures damaged { OnDamaged result ((file : List ℕ) (pages : List Entries) → Tells (H.view host.old) file
        → HavePages source.entry.header.now source.entry.images.now file 0 pages → ArePages pages → count ≡ length pages
        → index.now ≡ indexed 0 [] pages → ⊥) }
    ensures too_large { OnTooLarge result (λ total. (file : List ℕ) (pages : List Entries) → Tells (H.view host.old) file
        → HavePages source.entry.header.now source.entry.images.now file 0 pages → ArePages pages → count ≡ length pages
        → index.now ≡ indexed 0 [] pages → IsCountOf counts (gathered [] pages)
        → (total ≡ record_bytes (applied batch.now (gathered [] pages))) × (MAX_PAGED_BYTES < total)) }
    ensures looks { Looks (H.view host.old) (H.view host.new) }
    ensures cause { RoseIf (IsErrOf result KeepError.DiskFault) (H.view host.old).disk_faults (H.view host.new).disk_faults }
{
    let mut hand = Hand::new(alloc, count);
    let mut counts = counts;
    let moves = make_changes(alloc, host, source, index, batch, &mut hand, &mut counts)?;
    if counts.bytes > MAX_PAGED_BYTES {
        return Err(KeepError::TooLarge {
            total: counts.bytes,
        });
    }
    let images = images_of(alloc, &hand)?;
    let rooms = rooms_of(alloc, &hand)?;
    let frame = frame_of(alloc, &images)?;
    let Hand { pages, count, .. } = hand;
    Ok(Plan {
        moves,
        pages,
        images,
        rooms,
        frame,
        count,
        counts,
    })
}
