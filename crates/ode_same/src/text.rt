//! The text of a comparison.
ghost use Rattle.std.specs.Prelude.{◌≡◌, ◌++◌, cond, codes, length, IfOk, OnOk};
ghost use Rattle.std.specs.Option.{option_copied};
ghost use Rattle.ode_value.specs.Decimal.{digits_of};
ghost use Rattle.ode_value.specs.Printing.{kind_text};
ghost use Rattle.ode_value.specs.Texts.{line};
ghost use Rattle.ode_symbols.specs.Places.{place_of};
ghost use Rattle.ode_same.specs.Texts.{kind_or_none, mask_text, masks_text, place_text, points_text, verdict_text};

use crate::verdict::Verdict;
use ode_print::print_event;
use ode_symbols::Alphabet;
use ode_value::{EventExpr, Kind, List, decimal};
use std::alloc::{AllocError, Global};

fn put(out: &mut Vec<u8>, text: &[u8]) -> Result<(), AllocError>
    ensures { OnOk result (out.new.items ≡ out.old.items ++ text.now) }
{
    out.extend_from_slice(text)
}

fn put_number(alloc: Global, out: &mut Vec<u8>, number: u64) -> Result<(), AllocError>
    ensures { OnOk result (out.new.items ≡ out.old.items ++ digits_of number) }
{
    let digits = decimal(alloc, number)?;
    put(out, digits.as_slice())
}

// Puts a mask at the end, where it holds.
fn put_mask(alloc: Global, out: &mut Vec<u8>, holds: bool, place: u8) -> Result<(), AllocError>
    ensures { OnOk result (out.new.items ≡ out.old.items ++ mask_text holds place) }
{
    if !holds {
        return Ok(());
    }
    put(out, b" && ")?;
    put_number(alloc, out, u64::from(place))
}

// Puts the masks that hold at a number at the end.
fn put_masks(alloc: Global, out: &mut Vec<u8>, number: u8) -> Result<(), AllocError>
    ensures { OnOk result (out.new.items ≡ out.old.items ++ masks_text 8 0 number) }
{
    let mut left = number;
    for place in 0..8u8 {
        put_mask(alloc, out, left % 2 == 1, place)?;
        left /= 2;
    }
    Ok(())
}

// The text of a kind.
#[tactic(auto, using(crate::proofs::TextLaws::leaf_text))]
fn kind_bytes(alloc: Global, kind: &Kind) -> Result<List<u8>, AllocError>
    ensures { IfOk result (λ text. text ≡ kind_text kind.now) }
{
    let leaf = EventExpr::Leaf(kind.copy(alloc)?, None);
    print_event(alloc, &leaf)
}

fn put_kind(alloc: Global, out: &mut Vec<u8>, kind: &Kind) -> Result<(), AllocError>
    ensures { OnOk result (out.new.items ≡ out.old.items ++ kind_text kind.now) }
{
    let text = kind_bytes(alloc, kind)?;
    put(out, text.as_slice())
}

fn put_kind_or_none(alloc: Global, out: &mut Vec<u8>, kind: Option<&Kind>) -> Result<(), AllocError>
    ensures { OnOk result (out.new.items ≡ out.old.items ++ kind_or_none (option_copied kind.entry)) }
{
    match kind {
        Some(kind) => put_kind(alloc, out, kind),
        None => put(out, b"none"),
    }
}

// Puts the point of a symbol at the end, and ends the line.
fn put_point(alloc: Global, out: &mut Vec<u8>, a: &Alphabet, symbol: u8) -> Result<(), AllocError>
    ensures { OnOk result (out.new.items ≡ out.old.items ++ line (place_text (place_of a.now symbol))) }
{
    let (kind, number) = a.place(symbol);
    put(out, b"point ")?;
    put_kind_or_none(alloc, out, kind)?;
    put_masks(alloc, out, number)?;
    put(out, b"\n")
}

// Puts the points of a word at the end.
fn put_points(alloc: Global, out: &mut Vec<u8>, a: &Alphabet, word: &[u8]) -> Result<(), AllocError>
    ensures { OnOk result (out.new.items ≡ out.old.items ++ points_text a.now word.now) }
{
    for symbol in word {
        put_point(alloc, out, a, *symbol)?;
    }
    Ok(())
}

// Puts a line with a length at the end.
fn put_length(alloc: Global, out: &mut Vec<u8>, word: &[u8]) -> Result<(), AllocError>
    ensures { OnOk result (out.new.items ≡ out.old.items ++ line (codes "differs " ++ digits_of (length word.now))) }
{
    put(out, b"differs ")?;
    put_number(alloc, out, word.len() as u64)?;
    put(out, b"\n")
}

// Puts a line at the end that says which expression fires.
fn put_first(out: &mut Vec<u8>, first: bool) -> Result<(), AllocError>
    ensures { OnOk result (out.new.items ≡ out.old.items ++ line (cond first (codes "first yes") (codes "second yes"))) }
{
    if first {
        put(out, b"first yes\n")
    } else {
        put(out, b"second yes\n")
    }
}

fn put_word(
    alloc: Global,
    out: &mut Vec<u8>,
    a: &Alphabet,
    word: &[u8],
    first: bool,
) -> Result<(), AllocError>
    ensures { OnOk result (out.new.items ≡ out.old.items ++ (line (codes "differs " ++ digits_of (length word.now)) ++ points_text a.now word.now ++ line (cond first (codes "first yes") (codes "second yes")))) }
{
    put_length(alloc, out, word)?;
    put_points(alloc, out, a, word)?;
    put_first(out, first)
}

fn put_verdict(
    alloc: Global,
    out: &mut Vec<u8>,
    a: &Alphabet,
    verdict: &Verdict,
) -> Result<(), AllocError>
    ensures { OnOk result (out.new.items ≡ out.old.items ++ verdict_text a.now verdict.now) }
{
    match verdict {
        Verdict::Same => put(out, b"same\n"),
        Verdict::Differs { word, first } => put_word(alloc, out, a, word.as_slice(), *first),
    }
}

/// The text of a verdict on two expressions, whose alphabet this is: `same`, or the word, a line a point, and which of them fires.
pub fn print_verdict(alloc: Global, a: &Alphabet, verdict: &Verdict) -> Result<List<u8>, AllocError>
    ensures { IfOk result (λ text. text ≡ verdict_text a.now verdict.now) }
{
    let mut out = Vec::new(alloc);
    put_verdict(alloc, &mut out, a, verdict)?;
    Ok(List::from_vec(out))
}
