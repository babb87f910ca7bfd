//! The text of references.
ghost use Rattle.std.specs.Prelude.{◌≡◌, ℕ, ◌<◌, ◌≤◌, IfNone, IfOk, IfSome, Option, length, position, slice_index};
ghost use Rattle.ode_value.specs.Decimal.{digits_of};
ghost use Rattle.ode_value.specs.References.{IsRef, is_at_sign, spelled_numbers, spelled_ref};

use crate::digits::parse_decimal;
use crate::list::List;
use crate::value::Ref;
use std::alloc::{AllocError, Global};

/// The reference that these bytes spell: `null`, `#7` or `#7@2`. None exactly where they spell none.
pub fn parse_ref(bytes: &[u8]) -> Option<Ref>
    ensures found { IfSome result (λ r. IsRef r × (bytes.now ≡ spelled_ref r)) }
    ensures none { IfNone result ((r : Ref) → IsRef r → bytes.now ≡ spelled_ref r → ⊥) }
    ensures reads { (r : Ref) → IsRef r → bytes.now ≡ spelled_ref r → result ≡ Some r }
{
    match bytes {
        b"null" => Some(Ref {
            object: 0,
            version: None,
        }),
        [b'#', numbers @ ..] => parse_numbers(numbers),
        _ => None,
    }
}

// The reference with the object's number and, behind an `@`, the version's.
fn parse_numbers(text: &[u8]) -> Option<Ref>
    ensures found { IfSome result (λ r. IsRef r × (0 < r.object) × (text.now ≡ spelled_numbers r)) }
    ensures reads { (r : Ref) → IsRef r → 0 < r.object → text.now ≡ spelled_numbers r → result ≡ Some r }
{
    let Some(at) = at_sign(text) else {
        let object = parse_from_one(text, u64::MAX)?;
        return Some(Ref {
            object,
            version: None,
        });
    };
    let object = parse_from_one(&text[..at], u64::MAX)?;
    let version = parse_from_one(&text[at + 1..], u64::from(u32::MAX))?;
    Some(Ref {
        object,
        version: Some(version as u32),
    })
}

// The place of the first `@`.
fn at_sign(text: &[u8]) -> Option<usize>
    ensures first { result ≡ position is_at_sign text.now }
    ensures found { IfSome result (λ at. (at < length text.now) × (slice_index text.now at ≡ 64)) }
{
    text.iter().position(|b| *b == b'@')
}

// The number from 1 to `most` that these bytes spell in decimal, not led by 0.
fn parse_from_one(digits: &[u8], most: u64) -> Option<u64>
    ensures found { IfSome result (λ n. (0 < n) × (n ≤ most) × (digits.now ≡ digits_of n)) }
    ensures none { IfNone result ((n : ℕ) → 0 < n → n ≤ most → digits.now ≡ digits_of n → ⊥) }
{
    let n = parse_decimal(digits)?;
    if 0 < n && n <= most { Some(n) } else { None }
}

/// The text of a reference: `null`, `#7` or `#7@2`.
pub fn ref_text(alloc: Global, r: Ref) -> Result<List<u8>, AllocError>
    ensures { IfOk result (λ t. t ≡ spelled_ref r) }
{
    let Ref { object, version } = r;
    let text = match version {
        _ if object == 0 => String::from_str(alloc, "null")?,
        None => format!(in alloc; "#{object}")?,
        Some(version) => format!(in alloc; "#{object}@{version}")?,
    };
    Ok(List::from_vec(text.into_bytes()))
}
