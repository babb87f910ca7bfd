//! The header of a file: where the body and the journal lie.
ghost use Rattle.std.specs.Prelude.{◌≡◌, ◌≢◌, ◌+◌, ◌<◌, ◌≤◌, ◌∷◌, ◌++◌, ◌↔◌, List, ℕ, length, take, codes, IfSome, IfNone, IsTrue};
ghost use Rattle.ode_gate.specs.Headers.{next_generation};

use crate::gate::OPEN;
use crate::places::{
    AREA_0, AREA_1, AREA_LEN, AREAS_END, FIRST_FORMAT, FORMAT, GENERATIONS, HEADER_LEN, MAX_PAGES,
    PAGES, PAGES_AT, REGION_0, REGION_1, SLOT_LEN, TWO_AREAS,
};
use ode_host::{take_u32, take_u64};

// What a header begins with.
const MAGIC: &[u8; 8] = b"ODEBASE1";

// The fields behind that.
const FIELDS_LEN: usize = HEADER_LEN - 8;

/// Where the body and the journal lie. All places are offsets in the file, in bytes.
#[derive(Clone, Copy, Debug, PartialEq, Eq)]
pub struct Header {
    /// The format of the file: `FIRST_FORMAT` to `FORMAT`.
    pub format: u32,
    /// How the file is laid out: 1 is two areas, 2 is pages.
    pub layout: u32,
    /// From 1 to `GENERATIONS`, and then 1 again.
    pub generation: u64,
    /// Where the body starts.
    pub body_at: u64,
    /// How long the body is: in bytes under layout 1, in pages under layout 2.
    pub body_len: u64,
    /// Where the journal starts.
    pub journal_at: u64,
    /// Where the journal's room ends.
    pub journal_end: u64,
    /// The slot that it stands in: 0 or 1.
    pub slot: u8,
}

// Writes some bytes at a place, and answers the place behind them.
fn put(to: &mut [u8], at: usize, bytes: &[u8]) -> usize
    requires { at + length bytes.now ≤ length to.old }
    ensures place { result ≡ at + length bytes.now }
    ensures written { take result to.new ≡ take at to.old ++ bytes.now }
{
    let end = at + bytes.len();
    to[at..end].copy_from_slice(bytes);
    end
}

/// The generation that comes after this one.
pub fn next_generation(generation: u64) -> u64
    ensures { result ≡ next_generation generation }
{
    generation % GENERATIONS + 1
}

impl Header {
    ghost use Rattle.ode_gate.specs.declared.header.Header.{Header};
    ghost use Rattle.ode_gate.specs.Headers.{IsHeader, IsOfAreas, IsOfPages, header_bytes};

    // The header whose fields stand one after another.
    fn of_fields(bytes: &[u8], slot: u8) -> Option<Self>
        ensures spells { IfSome result (λ h. codes "ODEBASE1" ++ bytes.now ≡ header_bytes h) }
        ensures slot { IfSome result (λ h. h.slot ≡ slot) }
        ensures none { IfNone result (length bytes.now ≢ FIELDS_LEN) }
    {
        if bytes.len() != FIELDS_LEN {
            return None;
        }
        Some(Header {
            format: take_u32(bytes, 0)?,
            layout: take_u32(bytes, 4)?,
            generation: take_u64(bytes, 8)?,
            body_at: take_u64(bytes, 16)?,
            body_len: take_u64(bytes, 24)?,
            journal_at: take_u64(bytes, 32)?,
            journal_end: take_u64(bytes, 40)?,
            slot,
        })
    }

    // Whether it keeps the rules of layout 1.
    fn is_of_areas(&self) -> bool
        ensures { IsTrue result ↔ IsOfAreas self.now }
    {
        let is_area = self.body_at == AREA_0 && self.journal_end == AREA_1
            || self.body_at == AREA_1 && self.journal_end == AREAS_END;
        self.format == FIRST_FORMAT
            && self.layout == TWO_AREAS
            && is_area
            && self.body_len < AREA_LEN
            && self.journal_at == self.body_at + self.body_len
    }

    // Whether it keeps the rules of layout 2.
    fn is_of_pages(&self) -> bool
        ensures { IsTrue result ↔ IsOfPages self.now }
    {
        let is_region = self.journal_at == REGION_0 && self.journal_end == REGION_1
            || self.journal_at == REGION_1 && self.journal_end == PAGES_AT;
        FIRST_FORMAT <= self.format
            && self.format <= FORMAT
            && self.layout == PAGES
            && is_region
            && self.body_at == PAGES_AT
            && self.body_len <= MAX_PAGES
    }

    // Whether it keeps the rules of a header.
    fn is_valid(&self) -> bool
        ensures { IsTrue result ↔ IsHeader self.now }
    {
        1 <= self.generation
            && self.generation <= GENERATIONS
            && (self.is_of_areas() || self.is_of_pages())
    }

    /// The header that these bytes of a slot spell behind its gate, where they spell one that keeps the rules.
    pub(crate) fn parse(bytes: &[u8], slot: u8) -> Option<Self>
        ensures some { IfSome result (λ h. (h.slot ≡ slot) × IsHeader h × (bytes.now ≡ header_bytes h)) }
        ensures none { IfNone result ((h : Header) → IsHeader h → bytes.now ≡ header_bytes h → ⊥) }
    {
        let fields = bytes.strip_prefix(MAGIC)?;
        let header = Header::of_fields(fields, slot)?;
        if header.is_valid() {
            Some(header)
        } else {
            None
        }
    }

    /// Fills an open slot with it.
    pub(crate) fn fill(&self, buffer: &mut [u8; SLOT_LEN])
        ensures { buffer.new ≡ OPEN ∷ header_bytes self.now }
    {
        let at = put(buffer, 0, &[OPEN]);
        let at = put(buffer, at, MAGIC);
        let at = put(buffer, at, &self.format.to_be_bytes());
        let at = put(buffer, at, &self.layout.to_be_bytes());
        let at = put(buffer, at, &self.generation.to_be_bytes());
        let at = put(buffer, at, &self.body_at.to_be_bytes());
        let at = put(buffer, at, &self.body_len.to_be_bytes());
        let at = put(buffer, at, &self.journal_at.to_be_bytes());
        put(buffer, at, &self.journal_end.to_be_bytes());
    }
}
