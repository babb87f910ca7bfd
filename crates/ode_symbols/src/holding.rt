//! The number of a point among the symbols of a kind, and what holds at a number.
ghost use Rattle.std.specs.Prelude.{◌≡◌, ◌<◌, ◌≤◌, ◌+◌, ◌^◌, Some, length};
ghost use Rattle.ode_value.specs.declared.event.Point.{Point};
ghost use Rattle.ode_value.specs.Limits.{symbol_limit};
ghost use Rattle.ode_value.specs.Marks.{OfEvent, OfLeaf};
ghost use Rattle.ode_value.specs.Masks.{composite_holds, mask_holds};
ghost use Rattle.ode_value.specs.Symbols.{behind, bits_before, composite_bits, has_bit, holds_in, mark_among};

use crate::plain::is_true;
use crate::rows::{MaskedKind, symbols_in, symbols_of};
use ode_value::{Expr, Kind, Value};

// Whether a mask on a composite event is true.
fn is_true_there(mask: &Expr, params: &[Value], own: &[Value]) -> bool
    ensures { result ≡ composite_holds mask.now params.now own.now }
{
    is_true(mask, params, &[], own)
}

/// The number of a point among the symbols of these masks on composite events.
pub fn composite_number(masks: &[Expr], params: &[Value], own: &[Value]) -> u8
    requires { 2 ^ length masks.now ≤ symbol_limit }
    ensures value { result ≡ composite_bits masks.now params.now own.now }
    ensures below { result < 2 ^ length masks.now }
{
    let mut number = 0;
    let mut i = masks.len();
    while 0 < i {
        i -= 1;
        number *= 2;
        if is_true_there(&masks[i], params, own) {
            number += 1;
        }
    }
    number
}

/// The number of a point of this kind among the symbols of its masks and the masks on composite events.
pub fn number(
    kind_masks: &[Expr],
    masks: &[Expr],
    params: &[Value],
    kind: &Kind,
    args: &[Value],
    own: &[Value],
) -> u8
    requires { 2 ^ (length kind_masks.now + length masks.now) ≤ symbol_limit }
    ensures value { result ≡ bits_before (composite_bits masks.now params.now own.now)
        (λ x. mask_holds (Some x) params.now (record { kind = kind.now; args = args.now; fields = own.now })) kind_masks.now }
    ensures below { result < 2 ^ (length kind_masks.now + length masks.now) }
{
    let mut number = composite_number(masks, params, own);
    let mut i = kind_masks.len();
    while 0 < i {
        i -= 1;
        number *= 2;
        if is_true(&kind_masks[i], params, args, own) {
            number += 1;
        }
    }
    number
}

/// Whether a mask has its bit in a number.
pub fn has_bit(masks: &[Expr], number: u8, mask: &Expr) -> bool
    ensures { result ≡ has_bit masks.now number (Some mask.now) }
{
    let mut rest = number;
    for x in masks {
        if x.same(mask) {
            return rest % 2 == 1;
        }
        rest /= 2;
    }
    false
}

fn has(masks: &[Expr], number: u8, mask: &Option<Expr>) -> bool
    ensures { result ≡ has_bit masks.now number mask.now }
{
    match mask {
        None => true,
        Some(mask) => has_bit(masks, number, mask),
    }
}

// How a number goes on behind the bits of masks.
fn behind(masks: &[Expr], number: u8) -> u8
    ensures { result ≡ behind masks.now number }
{
    let mut rest = number;
    for _mask in masks {
        rest /= 2;
    }
    rest
}

// Whether a leaf holds at a number among the symbols of these kinds.
fn leaf_in(
    rows: &[MaskedKind],
    masks: &[Expr],
    number: u8,
    kind: &Kind,
    mask: &Option<Expr>,
) -> bool
    ensures { result ≡ holds_in masks.now rows.now number (OfLeaf kind.now mask.now) }
{
    let mut rest = number;
    for row in rows {
        let count = symbols_in(row, masks);
        if u32::from(rest) < count {
            return row.kind.same(kind) && has(row.masks.as_slice(), rest, mask);
        }
        rest -= count as u8;
    }
    false
}

// Whether a mask on a composite event does.
fn composite_in(rows: &[MaskedKind], masks: &[Expr], number: u8, mask: &Expr) -> bool
    ensures { result ≡ holds_in masks.now rows.now number (OfEvent mask.now) }
{
    let mut rest = number;
    for row in rows {
        let count = symbols_in(row, masks);
        if u32::from(rest) < count {
            return has_bit(masks, behind(row.masks.as_slice(), rest), mask);
        }
        rest -= count as u8;
    }
    false
}

/// Whether a leaf holds at a symbol.
pub fn leaf_holds(
    rows: &[MaskedKind],
    masks: &[Expr],
    symbol: u8,
    kind: &Kind,
    mask: &Option<Expr>,
) -> bool
    ensures { result ≡ mark_among (record { kinds = rows.now; masks = masks.now }) symbol (OfLeaf kind.now mask.now) }
{
    let apart = symbols_of(masks.len());
    if u32::from(symbol) < apart {
        false
    } else {
        leaf_in(rows, masks, symbol - apart as u8, kind, mask)
    }
}

/// Whether a mask on a composite event holds at a symbol.
pub fn composite_holds(rows: &[MaskedKind], masks: &[Expr], symbol: u8, mask: &Expr) -> bool
    ensures { result ≡ mark_among (record { kinds = rows.now; masks = masks.now }) symbol (OfEvent mask.now) }
{
    let apart = symbols_of(masks.len());
    if u32::from(symbol) < apart {
        has_bit(masks, symbol, mask)
    } else {
        composite_in(rows, masks, symbol - apart as u8, mask)
    }
}
