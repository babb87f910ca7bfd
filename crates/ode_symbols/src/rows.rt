//! The kinds of an expression's leaves, each with its masks, and the masks on composite events.
ghost use Rattle.std.specs.Prelude.{◌≡◌, ◌<◌, ◌+◌, ◌++◌, ◌∷◌, ◌^◌, [], IfOk, OnOk, List as Items, filter_map, length, map, min};
ghost use Rattle.std.specs.List.{list_any};
ghost use Rattle.ode_symbols.specs.Alphabets.{with_any, with_new};
ghost use Rattle.ode_value.specs.Limits.{counted_symbols};
ghost use Rattle.ode_value.specs.Marks.{Leaf, composite_masks, leaves};
ghost use Rattle.ode_value.specs.Same.{same_expr, same_kind};
ghost use Rattle.ode_value.specs.Symbols.{distinct, mask_of, masked_kind, masked_kinds, size_of, symbols_in};

use ode_value::limits::COUNTED_SYMBOLS;
use ode_value::{Copied, EventExpr, Expr, Kind, List};
use std::alloc::{AllocError, Global};
use std::marker::Model;

/// A kind, with the masks of its masked leaves.
#[derive(Drop)]
pub struct MaskedKind {
    pub kind: Kind,
    pub masks: List<Expr>,
}

impl Model for MaskedKind {
    ghost use Rattle.std.specs.Coded.{codes};
    ghost use Rattle.ode_value.specs.contracts.statement.Expr as e;
    ghost use Rattle.ode_value.specs.Symbols.{MaskedKind};

    ghost Value = { MaskedKind };

    ghost coded = { Prim.hlevel (codes, e.the_row.coded) };

    ghost view = { λ row. record { kind = row.kind; masks = row.masks } };
}

type Leaves = List<(Kind, Option<Expr>)>;

fn add_leaf(
    alloc: Global,
    kind: &Kind,
    mask: &Option<Expr>,
    to: &mut Leaves,
) -> Result<(), AllocError>
    ensures { OnOk result (to.new ≡ to.old ++ (kind.now, mask.now) ∷ []) }
{
    let kind = kind.copy(alloc)?;
    let mask = mask.copy_in(alloc)?;
    to.push((kind, mask))
}

/// Adds the leaves of an expression, in the order of the text.
#[tactic(auto, using(crate::proofs::ConditionLists::listings))]
pub fn add_leaves(alloc: Global, e: &EventExpr, to: &mut Leaves) -> Result<(), AllocError>
    ensures { OnOk result (to.new ≡ to.old ++ leaves e.now) }
{
    match e {
        EventExpr::Leaf(kind, mask) => add_leaf(alloc, kind, mask, to),
        EventExpr::Any => Ok(()),
        EventExpr::First => Ok(()),
        EventExpr::Not(e) => add_leaves(alloc, e.get(), to),
        EventExpr::And(e, f) => {
            add_leaves(alloc, e.get(), to)?;
            add_leaves(alloc, f.get(), to)
        }
        EventExpr::Or(e, f) => {
            add_leaves(alloc, e.get(), to)?;
            add_leaves(alloc, f.get(), to)
        }
        EventExpr::Relative(e, f) => {
            add_leaves(alloc, e.get(), to)?;
            add_leaves(alloc, f.get(), to)
        }
        EventExpr::RelPlus(e) => add_leaves(alloc, e.get(), to),
        EventExpr::Prior(e, f) => {
            add_leaves(alloc, e.get(), to)?;
            add_leaves(alloc, f.get(), to)
        }
        EventExpr::Sequence(e, f) => {
            add_leaves(alloc, e.get(), to)?;
            add_leaves(alloc, f.get(), to)
        }
        EventExpr::Pipe(e, f) => {
            add_leaves(alloc, e.get(), to)?;
            add_leaves(alloc, f.get(), to)
        }
        EventExpr::Choose(_, e) => add_leaves(alloc, e.get(), to),
        EventExpr::Every(_, e) => add_leaves(alloc, e.get(), to),
        EventExpr::Fa(e, f, g) => {
            add_leaves(alloc, e.get(), to)?;
            add_leaves(alloc, f.get(), to)?;
            add_leaves(alloc, g.get(), to)
        }
        EventExpr::FaAbs(e, f, g) => {
            add_leaves(alloc, e.get(), to)?;
            add_leaves(alloc, f.get(), to)?;
            add_leaves(alloc, g.get(), to)
        }
        EventExpr::Masked(e, _) => add_leaves(alloc, e.get(), to),
    }
}

// Adds a copy of a mask behind these.
fn add_copy(alloc: Global, mask: &Expr, to: &mut List<Expr>) -> Result<(), AllocError>
    ensures { OnOk result (to.new ≡ to.old ++ mask.now ∷ []) }
{
    let mask = mask.copy(alloc)?;
    to.push(mask)
}

/// Adds the masks on composite events, in the order of the text.
#[tactic(auto, using(crate::proofs::ConditionLists::mask_listings))]
pub fn add_composite_masks(
    alloc: Global,
    e: &EventExpr,
    to: &mut List<Expr>,
) -> Result<(), AllocError>
    ensures { OnOk result (to.new ≡ to.old ++ composite_masks e.now) }
{
    match e {
        EventExpr::Leaf(_, _) => Ok(()),
        EventExpr::Any => Ok(()),
        EventExpr::First => Ok(()),
        EventExpr::Not(e) => add_composite_masks(alloc, e.get(), to),
        EventExpr::And(e, f) => {
            add_composite_masks(alloc, e.get(), to)?;
            add_composite_masks(alloc, f.get(), to)
        }
        EventExpr::Or(e, f) => {
            add_composite_masks(alloc, e.get(), to)?;
            add_composite_masks(alloc, f.get(), to)
        }
        EventExpr::Relative(e, f) => {
            add_composite_masks(alloc, e.get(), to)?;
            add_composite_masks(alloc, f.get(), to)
        }
        EventExpr::RelPlus(e) => add_composite_masks(alloc, e.get(), to),
        EventExpr::Prior(e, f) => {
            add_composite_masks(alloc, e.get(), to)?;
            add_composite_masks(alloc, f.get(), to)
        }
        EventExpr::Sequence(e, f) => {
            add_composite_masks(alloc, e.get(), to)?;
            add_composite_masks(alloc, f.get(), to)
        }
        EventExpr::Pipe(e, f) => {
            add_composite_masks(alloc, e.get(), to)?;
            add_composite_masks(alloc, f.get(), to)
        }
        EventExpr::Choose(_, e) => add_composite_masks(alloc, e.get(), to),
        EventExpr::Every(_, e) => add_composite_masks(alloc, e.get(), to),
        EventExpr::Fa(e, f, g) => {
            add_composite_masks(alloc, e.get(), to)?;
            add_composite_masks(alloc, f.get(), to)?;
            add_composite_masks(alloc, g.get(), to)
        }
        EventExpr::FaAbs(e, f, g) => {
            add_composite_masks(alloc, e.get(), to)?;
            add_composite_masks(alloc, f.get(), to)?;
            add_composite_masks(alloc, g.get(), to)
        }
        EventExpr::Masked(e, mask) => {
            add_composite_masks(alloc, e.get(), to)?;
            add_copy(alloc, mask, to)
        }
    }
}

fn has_kind(kinds: &[Kind], kind: &Kind) -> bool
    ensures { result ≡ list_any (λ k. same_kind k kind.now) kinds.now }
{
    for k in kinds {
        if k.same(kind) {
            return true;
        }
    }
    false
}

fn has_mask(masks: &[Expr], mask: &Expr) -> bool
    ensures { result ≡ list_any (λ x. same_expr x mask.now) masks.now }
{
    for x in masks {
        if x.same(mask) {
            return true;
        }
    }
    false
}

fn add_kind(alloc: Global, kinds: &mut List<Kind>, kind: &Kind) -> Result<(), AllocError>
    ensures { OnOk result (kinds.new ≡ with_new same_kind kinds.old kind.now) }
{
    if !has_kind(kinds.as_slice(), kind) {
        let copy = kind.copy(alloc)?;
        kinds.push(copy)?;
    }
    Ok(())
}

fn add_mask(alloc: Global, masks: &mut List<Expr>, mask: &Expr) -> Result<(), AllocError>
    ensures { OnOk result (masks.new ≡ with_new same_expr masks.old mask.now) }
{
    if !has_mask(masks.as_slice(), mask) {
        let copy = mask.copy(alloc)?;
        masks.push(copy)?;
    }
    Ok(())
}

// Adds the mask of a leaf of this kind.
fn add_mask_of(
    alloc: Global,
    masks: &mut List<Expr>,
    kind: &Kind,
    leaf: &(Kind, Option<Expr>),
) -> Result<(), AllocError>
    ensures { OnOk result (masks.new ≡ with_any same_expr masks.old (mask_of kind.now leaf.now)) }
{
    if !leaf.0.same(kind) {
        return Ok(());
    }
    match &leaf.1 {
        Some(mask) => add_mask(alloc, masks, mask),
        None => Ok(()),
    }
}

// The kinds of these leaves, in the order of their first leaf.
fn kinds_of(alloc: Global, leaves: &[(Kind, Option<Expr>)]) -> Result<List<Kind>, AllocError>
    ensures { IfOk result (λ kinds. kinds ≡ distinct same_kind (map (λ (l : Leaf). l.0) leaves.now)) }
{
    let mut kinds = List::new(alloc);
    for leaf in leaves {
        add_kind(alloc, &mut kinds, &leaf.0)?;
    }
    Ok(kinds)
}

// The masks of this kind, in the order of their first place.
fn masks_of(
    alloc: Global,
    leaves: &[(Kind, Option<Expr>)],
    kind: &Kind,
) -> Result<List<Expr>, AllocError>
    ensures { IfOk result (λ masks. masks ≡ distinct same_expr (filter_map (mask_of kind.now) leaves.now)) }
{
    let mut masks = List::new(alloc);
    for leaf in leaves {
        add_mask_of(alloc, &mut masks, kind, leaf)?;
    }
    Ok(masks)
}

fn rows_for(
    alloc: Global,
    leaves: &[(Kind, Option<Expr>)],
    kinds: List<Kind>,
) -> Result<List<MaskedKind>, AllocError>
    ensures { IfOk result (λ rows. rows ≡ map (masked_kind leaves.now) kinds) }
{
    let mut rows = List::new(alloc);
    for kind in kinds.into_vec() {
        let masks = masks_of(alloc, leaves, &kind)?;
        rows.push(MaskedKind { kind, masks })?;
    }
    Ok(rows)
}

/// The rows of an expression's leaves.
pub fn masked_kinds(alloc: Global, e: &EventExpr) -> Result<List<MaskedKind>, AllocError>
    ensures { IfOk result (λ rows. rows ≡ masked_kinds (leaves e.now)) }
{
    let mut leaves = List::new(alloc);
    add_leaves(alloc, e, &mut leaves)?;
    let kinds = kinds_of(alloc, leaves.as_slice())?;
    rows_for(alloc, leaves.as_slice(), kinds)
}

// Each of these masks once.
fn each_once(alloc: Global, all: &[Expr]) -> Result<List<Expr>, AllocError>
    ensures { IfOk result (λ masks. masks ≡ distinct same_expr all.now) }
{
    let mut masks = List::new(alloc);
    for mask in all {
        add_mask(alloc, &mut masks, mask)?;
    }
    Ok(masks)
}

/// The different masks on composite events in an expression.
pub fn different_masks(alloc: Global, e: &EventExpr) -> Result<List<Expr>, AllocError>
    ensures { IfOk result (λ masks. masks ≡ distinct same_expr (composite_masks e.now)) }
{
    let mut all = List::new(alloc);
    add_composite_masks(alloc, e, &mut all)?;
    each_once(alloc, all.as_slice())
}

/// How many symbols so many masks tell apart, or 65,536.
pub fn symbols_of(masks: usize) -> u32
    ensures { result ≡ min (2 ^ masks) counted_symbols }
{
    if masks < 16 {
        2u32.pow(masks as u32)
    } else {
        COUNTED_SYMBOLS
    }
}

// The same for so many masks behind fewer than 16 others.
fn symbols_behind(few: usize, masks: usize) -> u32
    requires { few < 16 }
    ensures { result ≡ min (2 ^ (few + masks)) counted_symbols }
{
    if masks < 16 {
        symbols_of(few + masks)
    } else {
        COUNTED_SYMBOLS
    }
}

// The same for a kind's own masks and those on composite events.
fn symbols_of_both(own: usize, masks: usize) -> u32
    ensures { result ≡ min (2 ^ (own + masks)) counted_symbols }
{
    if own < 16 {
        symbols_behind(own, masks)
    } else {
        COUNTED_SYMBOLS
    }
}

/// How many symbols a row has with these masks on composite events, or 65,536.
pub fn symbols_in(row: &MaskedKind, masks: &[Expr]) -> u32
    ensures { result ≡ min (symbols_in masks.now row.now) counted_symbols }
{
    symbols_of_both(row.masks.len(), masks.len())
}

/// How many symbols there are of these rows and these masks on composite events, or 65,536.
pub fn count(rows: &[MaskedKind], masks: &[Expr]) -> u32
    ensures { result ≡ min (size_of (record { kinds = rows.now; masks = masks.now })) counted_symbols }
{
    let mut count = symbols_of(masks.len());
    for row in rows {
        count = (count + symbols_in(row, masks)).min(COUNTED_SYMBOLS);
    }
    count
}
